//! Conditions that are never to hold, as an option says them.

ghost use Rattle.std.specs.Prelude.{◌≡◌, ◌∷◌, ◌<◌, ◌≤◌, length, option_map, IfErr, IfOk, IfSome, Ok, OnOk};
ghost use Rattle.std.specs.List.{position_or_len};
ghost use Rattle.brd_search.specs.Plans as plans;
ghost use Rattle.brd_search.specs.Plans.{Adds, IsOfCondition, IsOfConditions, IsOfSum, IsOfTerm, nevers_of};
ghost use Rattle.brd_search.specs.Plans.{summands_behind, summands_of, text_of};

use crate::fault::SearchFault;
use crate::goals::begins_with_digit;
use brd_base::List;
use brd_explore::{Comparison, Condition, Failure, Term};
use brd_mem::{Symbol, symbol_value};
use brd_text::{number, parted, piece};
use std::alloc::Global;

/// Adds the failures that the conditions of an option look for.
pub(crate) fn add_nevers(
    alloc: Global,
    failures: &mut List<Failure>,
    conditions: Option<&str>,
    symbols: &[Symbol],
) -> Result<(), SearchFault>
    ensures ok { OnOk result (Adds (nevers_of symbols.now (text_of conditions.entry)) failures.old failures.new) }
    ensures err { IfErr result (IsOfConditions symbols.now (text_of conditions.entry)) }
{
    match conditions {
        Some(text) => add_conditions(alloc, failures, text.as_bytes(), symbols),
        None => Ok(()),
    }
}

/// Adds for each condition between the commas of a text the failure that is looked for.
fn add_conditions(
    alloc: Global,
    failures: &mut List<Failure>,
    text: &[u8],
    symbols: &[Symbol],
) -> Result<(), SearchFault>
    ensures ok { OnOk result (Adds (nevers_of symbols.now (Some text.now)) failures.old failures.new) }
    ensures err { IfErr result (IsOfConditions symbols.now (Some text.now)) }
{
    let mut rest = text;
    'pieces: loop {
        let (condition, after) = piece(rest);
        let condition = condition_of(alloc, condition, symbols)?;
        failures.push(Failure::Holds(condition))?;
        let Some(left) = after else {
            return Ok(());
        };
        rest = left;
    }
}

/// The condition that a text says: two sums with a comparison between them.
#[tactic(auto, unfolding(crate::specs::Plans::condition_of))]
fn condition_of(alloc: Global, text: &[u8], symbols: &[Symbol]) -> Result<Condition, SearchFault>
    ensures ok { IfOk result (λ it. plans.condition_of symbols.now text.now ≡ Ok it) }
    ensures err { IfErr result (IsOfCondition symbols.now text.now) }
{
    let (left, behind) = text.split_at(len_before_mark(text));
    let Some((order, right)) = comparison_at(behind) else {
        return Err(SearchFault::Never);
    };
    let left = sum_of(alloc, left, symbols)?;
    let right = sum_of(alloc, right, symbols)?;
    Ok(Condition { left, order, right })
}

/// How many bytes stand before the first one that may begin a comparison.
fn len_before_mark(text: &[u8]) -> usize
    ensures is { result ≡ position_or_len plans.is_mark text.now }
    ensures within { result ≤ length text.now }
{
    for (i, byte) in text.iter().enumerate() {
        if is_mark(*byte) {
            return i;
        }
    }
    text.len()
}

/// Whether a byte may begin a comparison.
fn is_mark(byte: u8) -> bool
    ensures { result ≡ plans.is_mark byte }
{
    byte == b'<' || byte == b'>' || byte == b'=' || byte == b'!'
}

/// The comparison with which a text begins, and what is behind it.
fn comparison_at(text: &[u8]) -> Option<(Comparison, &[u8])>
    ensures { option_map (λ it. (it.0, it.1.now)) result ≡ plans.comparison_at text.now }
{
    let (first, behind) = text.split_first()?;
    match *first {
        b'<' => Some(either(Comparison::Less, Comparison::AtMost, behind)),
        b'>' => Some(either(Comparison::More, Comparison::AtLeast, behind)),
        b'=' => with_equals(Comparison::Same, behind),
        b'!' => with_equals(Comparison::Other, behind),
        _ => None,
    }
}

/// A comparison, or the other one where an equals sign follows; and what is behind it.
fn either(one: Comparison, other: Comparison, text: &[u8]) -> (Comparison, &[u8])
    ensures { (result.0, result.1.now) ≡ plans.either one other text.now }
{
    match with_equals(other, text) {
        Some(it) => it,
        None => (one, text),
    }
}

/// A comparison that has an equals sign here, and what is behind it.
fn with_equals(one: Comparison, text: &[u8]) -> Option<(Comparison, &[u8])>
    ensures { option_map (λ it. (it.0, it.1.now)) result ≡ plans.with_equals one text.now }
{
    let (first, behind) = text.split_first()?;
    if *first != b'=' {
        return None;
    }
    Some((one, behind))
}

/// The terms of a sum, between whose plus signs they stand.
fn sum_of(alloc: Global, text: &[u8], symbols: &[Symbol]) -> Result<List<Term>, SearchFault>
    ensures ok { IfOk result (λ terms. plans.sum_of symbols.now text.now ≡ Ok terms) }
    ensures err { IfErr result (IsOfSum symbols.now text.now) }
{
    let mut terms = List::new(alloc);
    let mut rest = text;
    'summands: loop {
        let (summand, after) = summand(rest);
        let term = term_of(summand, symbols)?;
        terms.push(term)?;
        let Some(left) = after else {
            return Ok(terms);
        };
        rest = left;
    }
}

/// What stands before the first plus sign, and what is after it.
fn summand(text: &[u8]) -> (&[u8], Option<&[u8]>)
    ensures summands { summands_of text.now ≡ result.0.now ∷ summands_behind (option_map (λ it. it.now) result.1) }
    ensures shorter { IfSome result.1 (λ behind. length behind.now < length text.now) }
{
    parted(text, b'+')
}

/// The term that the word in a text stands for.
fn term_of(text: &[u8], symbols: &[Symbol]) -> Result<Term, SearchFault>
    ensures is { result ≡ plans.term_of symbols.now text.now }
    ensures fault { IfErr result IsOfTerm }
{
    let Some(word) = word_in(text) else {
        return Err(SearchFault::Never);
    };
    let Some(term) = term_by(word, symbols) else {
        return Err(SearchFault::Never);
    };
    Ok(term)
}

/// The word in a text, unless there are more. Blanks stand between words.
#[tactic(auto, unfolding(crate::specs::Plans::parts_of))]
fn word_in(text: &[u8]) -> Option<&[u8]>
    ensures { option_map (λ it. it.now) result ≡ plans.word_in text.now }
{
    let text = behind_blanks(text);
    let (word, Some(behind)) = parted(text, b' ') else {
        return Some(text);
    };
    if is_blank(behind) {
        return Some(word);
    }
    None
}

/// Whether there is nothing but blanks in a text.
fn is_blank(text: &[u8]) -> bool
    ensures { result ≡ plans.is_blank text.now }
{
    behind_blanks(text).is_empty()
}

/// A text without the blanks before it.
fn behind_blanks(text: &[u8]) -> &[u8]
    ensures { result.now ≡ plans.behind_blanks text.now }
{
    let mut rest = text;
    'blanks: while let Some((first, behind)) = rest.split_first() {
        if *first != b' ' {
            return rest;
        }
        rest = behind;
    }
    rest
}

/// The term that a word stands for: a number where it begins with a digit, or the word at a symbol.
fn term_by(word: &[u8], symbols: &[Symbol]) -> Option<Term>
    ensures { result ≡ plans.term_by symbols.now word.now }
{
    if word.is_empty() {
        return None;
    }
    if begins_with_digit(word) {
        return Some(Term::Number(number(word)?));
    }
    Some(Term::Word(symbol_value(symbols, word)?))
}
