//! The words of which a trace shows loads and stores, as an option names them.

ghost use Rattle.std.specs.Prelude.{◌≡◌, IfErr, OnOk};
ghost use Rattle.brd_printer.specs.Words as words;

use brd_base::{List, NoMemory};
use brd_board::Board;
use brd_mem::{Symbol, symbol_value};
use brd_text::{is_digit, number, piece};

/// Why there are no such words.
#[derive(Clone, Copy, PartialEq, Eq)]
pub enum WordsFault {
    /// A growth was refused.
    NoMemory,
    /// A name is that of no symbol.
    NoSymbol,
    /// A number is none, or no aligned word of RAM lies at an address.
    NoWord,
}

impl From<NoMemory> for WordsFault {
    ghost use Rattle.brd_printer.specs.declared.words.WordsFault.TheVariants.{NoMemory as no_memory};

    ghost from_gives = { λ _ fault. fault ≡ no_memory };

    fn from(_e: NoMemory) -> Self {
        WordsFault::NoMemory
    }
}

/// Adds the words of a board at the places of a text, which has commas between them.
pub fn add_words(
    added: &mut List<u32>,
    text: &[u8],
    symbols: &[Symbol],
    board: &Board,
) -> Result<(), WordsFault>
    ensures ok { OnOk result (words.Adds (words.words_of symbols.now board.now text.now) added.old added.new) }
    ensures err { IfErr result (words.IsOfWords symbols.now board.now text.now) }
{
    let mut rest = text;
    'pieces: loop {
        let (place, after) = piece(rest);
        let word = word_of(place, symbols, board)?;
        added.push(word)?;
        let Some(left) = after else {
            return Ok(());
        };
        rest = left;
    }
}

/// The address of the word at a place.
fn word_of(place: &[u8], symbols: &[Symbol], board: &Board) -> Result<u32, WordsFault>
    ensures is { result ≡ words.word_of symbols.now board.now place.now }
    ensures fault { IfErr result words.IsOfWord }
{
    let address = address_of(place, symbols)?;
    if address % 4 != 0 || board.memory(address).is_none() {
        return Err(WordsFault::NoWord);
    }
    Ok(address)
}

/// The address of a place: a number where it begins with a digit, or the value of a symbol.
fn address_of(place: &[u8], symbols: &[Symbol]) -> Result<u32, WordsFault>
    ensures is { result ≡ words.address_of symbols.now place.now }
    ensures fault { IfErr result words.IsOfWord }
{
    if begins_with_digit(place) {
        return match number(place) {
            Some(address) => Ok(address),
            None => Err(WordsFault::NoWord),
        };
    }
    match symbol_value(symbols, place) {
        Some(address) => Ok(address),
        None => Err(WordsFault::NoSymbol),
    }
}

/// Whether a text begins with a digit.
fn begins_with_digit(text: &[u8]) -> bool
    ensures { result ≡ words.begins_with_digit text.now }
{
    match text.first() {
        Some(first) => is_digit(*first),
        None => false,
    }
}
