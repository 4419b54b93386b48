//! The words whose values are listed with the consoles of all ends.

ghost use Rattle.std.specs.Prelude.{◌≡◌, IfErr, MatchResult, OnOk, Some};
ghost use Rattle.std.specs.List.{list_any};
ghost use Rattle.brd_search.specs.Plans.{Adds, AreApart, AreNotApart, AreValues, IsOfValues, KeepsFromValues};
ghost use Rattle.brd_search.specs.Plans.{is_astray, is_doubled, is_other, listed_at, text_of, values_in};
ghost use Rattle.brd_search.specs.declared.fault.SearchFault.TheVariants.{Values as no_value};

use crate::fault::SearchFault;
use crate::goals::place_of;
use crate::options::SearchOptions;
use brd_base::List;
use brd_board::Board;
use brd_mem::Symbol;
use brd_text::piece;
use std::alloc::Global;

/// The addresses of the words whose values are to be listed, each once, and each that of an aligned word of RAM.
pub(crate) fn values_of(
    alloc: Global,
    options: &SearchOptions<'_>,
    board: &Board,
    symbols: &[Symbol],
) -> Result<List<u32>, SearchFault>
    ensures { MatchResult result (AreValues options.now board.now symbols.now)
        (KeepsFromValues options.now board.now symbols.now) }
{
    if options.values.is_some() && !options.finals {
        return Err(SearchFault::NoFinals);
    }
    let mut words = List::new(alloc);
    add_values(&mut words, options.values, symbols)?;
    check_words(board, words.as_slice())?;
    Ok(words)
}

/// Adds the addresses of the words of an option.
fn add_values(
    words: &mut List<u32>,
    values: Option<&str>,
    symbols: &[Symbol],
) -> Result<(), SearchFault>
    ensures ok { OnOk result (Adds (values_in symbols.now (text_of values.entry)) words.old words.new) }
    ensures err { IfErr result (IsOfValues symbols.now (text_of values.entry)) }
{
    match values {
        Some(text) => add_places(words, text.as_bytes(), symbols),
        None => Ok(()),
    }
}

/// Adds the address of each place between the commas of a text.
fn add_places(words: &mut List<u32>, text: &[u8], symbols: &[Symbol]) -> Result<(), SearchFault>
    ensures ok { OnOk result (Adds (values_in symbols.now (Some text.now)) words.old words.new) }
    ensures err { IfErr result (IsOfValues symbols.now (Some text.now)) }
{
    let mut rest = text;
    'pieces: loop {
        let (place, after) = piece(rest);
        let address = listed_at(place, symbols)?;
        words.push(address)?;
        let Some(left) = after else {
            return Ok(());
        };
        rest = left;
    }
}

/// The address of a place.
fn listed_at(place: &[u8], symbols: &[Symbol]) -> Result<u32, SearchFault>
    ensures is { result ≡ listed_at symbols.now place.now }
    ensures fault { IfErr result (λ fault. fault ≡ no_value) }
{
    match place_of(place, symbols) {
        Some(address) => Ok(address),
        None => Err(SearchFault::Values),
    }
}

/// Sees that no address comes twice, and that RAM has an aligned word at each.
fn check_words(board: &Board, words: &[u32]) -> Result<(), SearchFault>
    ensures { MatchResult result (λ done. AreApart board.now words.now) (AreNotApart board.now words.now) }
{
    if is_doubled(words) {
        return Err(SearchFault::ValuesTwice);
    }
    if some_are_astray(board, words) {
        return Err(SearchFault::NoWord);
    }
    Ok(())
}

/// Whether two of some addresses are the same.
fn is_doubled(words: &[u32]) -> bool
    ensures { result ≡ is_doubled words.now }
{
    let mut rest = words;
    'words: while let Some((address, others)) = rest.split_first() {
        if is_one_of(*address, others) {
            return true;
        }
        rest = others;
    }
    false
}

/// Whether an address is one of some others.
fn is_one_of(address: u32, others: &[u32]) -> bool
    ensures { result ≡ list_any (is_other address) others.now }
{
    for other in others {
        if *other == address {
            return true;
        }
    }
    false
}

/// Whether RAM has no aligned word at one of some addresses.
fn some_are_astray(board: &Board, words: &[u32]) -> bool
    ensures { result ≡ list_any (is_astray board.now) words.now }
{
    for address in words {
        if board.aligned_word(*address).is_none() {
            return true;
        }
    }
    false
}
