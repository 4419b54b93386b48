//! What is looked for.

ghost use Rattle.std.specs.Prelude.{◌≡◌, ◌++◌, IfErr, IfOk, MatchResult, OnOk};
ghost use Rattle.brd_search.specs.Plans.{AddsConsole, AreLooked, IsOfLooks, IsWanted, KeepsFromWanting, kinds_of};
ghost use Rattle.brd_search.specs.Plans.{IsOfConsoles, says_nothing, text_of, where_so};

use crate::coming::round;
use crate::conditions::add_nevers;
use crate::console::bytes_of;
use crate::fault::SearchFault;
use crate::goals::{add_reaches, add_words};
use crate::options::Looks;
use brd_base::{List, NoMemory};
use brd_explore::{Failure, Wanted};
use brd_mem::Symbol;
use std::alloc::Global;

/// How many rounds a fair end has at most (own choice). With as many events before it as a schedule may have, a journal
/// holds them.
const MOST_ROUNDS: u32 = 20_000;

/// What is looked for, on a board of so many processors whose image has these symbols, with a fair end of so many
/// rounds.
///
/// # Errors
///
/// What is wrong with the options, or `NoMemory`.
pub fn wanted_of(
    alloc: Global,
    looks: &Looks<'_>,
    fair: u32,
    cpus: u8,
    symbols: &[Symbol],
) -> Result<Wanted, SearchFault>
    ensures { MatchResult result (IsWanted looks.now fair cpus symbols.now)
        (KeepsFromWanting looks.now fair symbols.now) }
{
    if fair > MOST_ROUNDS {
        return Err(SearchFault::Fair);
    }
    let failures = failures_of(alloc, looks, symbols)?;
    let round = round(alloc, cpus)?;
    Ok(Wanted {
        failures,
        round,
        rounds: fair,
    })
}

/// All that is looked for.
fn failures_of(
    alloc: Global,
    looks: &Looks<'_>,
    symbols: &[Symbol],
) -> Result<List<Failure>, SearchFault>
    ensures { MatchResult result (AreLooked looks.now symbols.now) (IsOfLooks looks.now symbols.now) }
{
    let mut failures = kinds_of(alloc, looks)?;
    add_words(&mut failures, looks.words, symbols)?;
    add_console(alloc, &mut failures, looks.console)?;
    add_reaches(&mut failures, looks.reach, symbols)?;
    add_nevers(alloc, &mut failures, looks.never, symbols)?;
    Ok(failures)
}

/// The failures without a value that are looked for; exceptions and deadlocks where the options say nothing.
fn kinds_of(alloc: Global, looks: &Looks<'_>) -> Result<List<Failure>, NoMemory>
    ensures { IfOk result (λ kinds. kinds ≡ kinds_of looks.now) }
{
    let nothing = says_nothing(looks);
    let mut kinds = List::new(alloc);
    add_where(&mut kinds, looks.exception || nothing, Failure::Exception)?;
    add_where(&mut kinds, looks.deadlock || nothing, Failure::Deadlock)?;
    add_where(&mut kinds, looks.on, Failure::On)?;
    Ok(kinds)
}

/// Whether options don't say what is looked for.
fn says_nothing(looks: &Looks<'_>) -> bool
    ensures { result ≡ says_nothing looks.now }
{
    !(looks.exception
        || looks.deadlock
        || looks.on
        || looks.words.is_some()
        || looks.console.is_some()
        || looks.reach.is_some()
        || looks.never.is_some())
}

/// Adds a failure where it is looked for.
fn add_where(failures: &mut List<Failure>, so: bool, failure: Failure) -> Result<(), NoMemory>
    ensures { OnOk result (failures.new ≡ failures.old ++ where_so so failure) }
{
    if so {
        failures.push(failure)?;
    }
    Ok(())
}

/// Adds the wanted console.
fn add_console(
    alloc: Global,
    failures: &mut List<Failure>,
    text: Option<&str>,
) -> Result<(), SearchFault>
    ensures ok { OnOk result (AddsConsole (text_of text.entry) failures.old failures.new) }
    ensures err { IfErr result (IsOfConsoles (text_of text.entry)) }
{
    let Some(text) = text else {
        return Ok(());
    };
    let bytes = bytes_of(alloc, text.as_bytes())?;
    failures.push(Failure::Console(bytes))?;
    Ok(())
}
