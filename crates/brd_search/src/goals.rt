//! What words should be, as an option says it.

ghost use Rattle.std.specs.Prelude.{◌≡◌, IfErr, OnOk};
ghost use Rattle.brd_search.specs.Plans as plans;
ghost use Rattle.brd_search.specs.Plans.{Adds, IsOfGoal, IsOfGoals, IsOfReach, IsOfReaches, goals_of, parts_of};
ghost use Rattle.brd_search.specs.Plans.{reaches_of, text_of};

use crate::fault::SearchFault;
use brd_base::List;
use brd_explore::Failure;
use brd_mem::{Symbol, symbol_value};
use brd_text::{is_digit, number, parted, piece};

/// Adds the failures that the words of an option look for.
pub(crate) fn add_words(
    failures: &mut List<Failure>,
    words: Option<&str>,
    symbols: &[Symbol],
) -> Result<(), SearchFault>
    ensures ok { OnOk result (Adds (goals_of symbols.now (text_of words.entry)) failures.old failures.new) }
    ensures err { IfErr result (IsOfGoals symbols.now (text_of words.entry)) }
{
    match words {
        Some(text) => add_goals(failures, text.as_bytes(), symbols),
        None => Ok(()),
    }
}

/// Adds for each word between the commas of a text the failure that is looked for.
fn add_goals(
    failures: &mut List<Failure>,
    text: &[u8],
    symbols: &[Symbol],
) -> Result<(), SearchFault>
    ensures ok { OnOk result (Adds (goals_of symbols.now (Some text.now)) failures.old failures.new) }
    ensures err { IfErr result (IsOfGoals symbols.now (Some text.now)) }
{
    let mut rest = text;
    'pieces: loop {
        let (word, after) = piece(rest);
        let failure = goal_of(word, symbols)?;
        failures.push(failure)?;
        let Some(left) = after else {
            return Ok(());
        };
        rest = left;
    }
}

/// Adds the failures that the places of an option look for.
pub(crate) fn add_reaches(
    failures: &mut List<Failure>,
    places: Option<&str>,
    symbols: &[Symbol],
) -> Result<(), SearchFault>
    ensures ok { OnOk result (Adds (reaches_of symbols.now (text_of places.entry)) failures.old failures.new) }
    ensures err { IfErr result (IsOfReaches symbols.now (text_of places.entry)) }
{
    match places {
        Some(text) => add_places(failures, text.as_bytes(), symbols),
        None => Ok(()),
    }
}

/// Adds for each place between the commas of a text the failure that is looked for.
fn add_places(
    failures: &mut List<Failure>,
    text: &[u8],
    symbols: &[Symbol],
) -> Result<(), SearchFault>
    ensures ok { OnOk result (Adds (reaches_of symbols.now (Some text.now)) failures.old failures.new) }
    ensures err { IfErr result (IsOfReaches symbols.now (Some text.now)) }
{
    let mut rest = text;
    'pieces: loop {
        let (place, after) = piece(rest);
        let failure = reach_of(place, symbols)?;
        failures.push(failure)?;
        let Some(left) = after else {
            return Ok(());
        };
        rest = left;
    }
}

/// The failure that a place looks for.
fn reach_of(place: &[u8], symbols: &[Symbol]) -> Result<Failure, SearchFault>
    ensures is { result ≡ plans.reach_of symbols.now place.now }
    ensures fault { IfErr result IsOfReach }
{
    let Some(address) = place_of(place, symbols) else {
        return Err(SearchFault::Reach);
    };
    Ok(Failure::At { address })
}

/// The address of a place: a number where it begins with a digit, or the value of a symbol.
pub(crate) fn place_of(place: &[u8], symbols: &[Symbol]) -> Option<u32>
    ensures { result ≡ plans.place_of symbols.now place.now }
{
    if begins_with_digit(place) {
        return number(place);
    }
    symbol_value(symbols, place)
}

/// The failure that `PLACE=VALUE` or `PLACE=LEAST..MOST` looks for.
#[tactic(auto, unfolding(crate::specs::Plans::goal_of, crate::specs::Plans::parts_of))]
fn goal_of(word: &[u8], symbols: &[Symbol]) -> Result<Failure, SearchFault>
    ensures is { result ≡ plans.goal_of symbols.now word.now }
    ensures fault { IfErr result IsOfGoal }
{
    let (place, Some(value)) = parted(word, b'=') else {
        return Err(SearchFault::Word);
    };
    let address = address_of(place, symbols)?;
    failure_of(address, value)
}

/// The failure of the word at an address that `VALUE` or `LEAST..MOST` says.
#[tactic(auto, unfolding(crate::specs::Plans::parts_of))]
fn failure_of(address: u32, value: &[u8]) -> Result<Failure, SearchFault>
    ensures is { result ≡ plans.value_by address value.now (parts_of 46 value.now) }
    ensures fault { IfErr result IsOfGoal }
{
    let (least, Some(most)) = parted(value, b'.') else {
        return value_at(address, number(value));
    };
    outside(address, number(least), most_of(most))
}

/// The failure of the word at an address that is to be a value, where there is one.
fn value_at(address: u32, value: Option<u32>) -> Result<Failure, SearchFault>
    ensures is { result ≡ plans.value_at address value }
    ensures fault { IfErr result IsOfGoal }
{
    match value {
        Some(value) => Ok(Failure::Word { address, value }),
        None => Err(SearchFault::Word),
    }
}

/// The failure of the word at an address that is to lie in a range, where its ends are there.
fn outside(address: u32, least: Option<u32>, most: Option<u32>) -> Result<Failure, SearchFault>
    ensures is { result ≡ plans.outside address least most }
    ensures fault { IfErr result IsOfGoal }
{
    let Some(least) = least else {
        return Err(SearchFault::Word);
    };
    let Some(most) = most else {
        return Err(SearchFault::Word);
    };
    Ok(Failure::Outside {
        address,
        least,
        most,
    })
}

/// The number after the second point of a range.
fn most_of(rest: &[u8]) -> Option<u32>
    ensures { result ≡ plans.most_of rest.now }
{
    let (first, most) = rest.split_first()?;
    if *first != b'.' {
        return None;
    }
    number(most)
}

/// The address of a place: a number where it begins with a digit, or the value of a symbol.
fn address_of(place: &[u8], symbols: &[Symbol]) -> Result<u32, SearchFault>
    ensures is { result ≡ plans.address_of symbols.now place.now }
    ensures fault { IfErr result IsOfGoal }
{
    if begins_with_digit(place) {
        return match number(place) {
            Some(address) => Ok(address),
            None => Err(SearchFault::Word),
        };
    }
    match symbol_value(symbols, place) {
        Some(address) => Ok(address),
        None => Err(SearchFault::NoSymbol),
    }
}

/// Whether a text begins with a digit.
pub(crate) fn begins_with_digit(text: &[u8]) -> bool
    ensures { result ≡ plans.begins_with_digit text.now }
{
    match text.first() {
        Some(first) => is_digit(*first),
        None => false,
    }
}
