//! Whether a schedule comes to an end, and what the console and some words are there.

ghost use Rattle.std.specs.Prelude.{◌≡◌, true, IfOk};
ghost use Rattle.brd_reach.specs.Endless.{AreAll, NeverEnds, no_end, no_other, rest_after, rest_of};

use crate::searching::{Reached, reach};
use brd_base::{List, NoMemory};
use brd_board::{Board, Event};
use brd_explore::{Ending, Failure, Wanted};
use brd_places::Left;
use std::alloc::Global;

/// Whether it is found, going through so many places at most, that no schedule from a board comes to an end, however
/// many events and preemptions it has, with so many ticks and raises.
pub fn never_ends(
    alloc: Global,
    start: &Board,
    left: Left,
    among: &[Event],
    most: usize,
) -> Result<bool, NoMemory>
    ensures { IfOk result (λ never. never ≡ true → NeverEnds start.now left among.now) }
{
    let wanted = no_end(alloc)?;
    match reach(alloc, start, left, among, &wanted, &[], most)? {
        Reached::Holds(_) => Ok(true),
        Reached::Fails(_) | Reached::Unknown(_) => Ok(false),
    }
}

/// That there is an end is not to happen.
fn no_end(alloc: Global) -> Result<Wanted, NoMemory>
    ensures { IfOk result (λ wanted. wanted ≡ no_end) }
{
    let mut failures = List::new(alloc);
    failures.push(Failure::Ended)?;
    Ok(Wanted {
        failures,
        round: List::new(alloc),
        rounds: 0,
    })
}

/// Whether it is found, going through so many places at most, that at each end to which a schedule from a board comes,
/// however many events and preemptions it has, with so many ticks and raises, the console and the words at some
/// addresses are those of one of these ends.
pub fn show_all(
    alloc: Global,
    start: &Board,
    left: Left,
    among: &[Event],
    most: usize,
    words: List<u32>,
    finals: List<Ending>,
) -> Result<bool, NoMemory>
    ensures { IfOk result (λ all. all ≡ true → AreAll words finals start.now left among.now) }
{
    let wanted = no_other(alloc, words, finals)?;
    match reach(alloc, start, left, among, &wanted, &[], most)? {
        Reached::Holds(_) => Ok(true),
        Reached::Fails(_) | Reached::Unknown(_) => Ok(false),
    }
}

/// That there is another end than these is not to happen.
fn no_other(alloc: Global, words: List<u32>, finals: List<Ending>) -> Result<Wanted, NoMemory>
    ensures { IfOk result (λ wanted. wanted ≡ no_other words finals) }
{
    let mut failures = List::new(alloc);
    failures.push(Failure::Unlisted { words, finals })?;
    Ok(Wanted {
        failures,
        round: List::new(alloc),
        rounds: 0,
    })
}

/// What is left after events.
pub fn rest_of(left: Left, events: &[Event]) -> Left
    ensures { result ≡ rest_of left events.now }
{
    let mut rest = left;
    for event in events {
        rest = rest_after(rest, *event);
    }
    rest
}

/// What is left after an event.
fn rest_after(left: Left, event: Event) -> Left
    ensures { result ≡ rest_after left event }
{
    match event {
        Event::Step(_) => left,
        Event::Tick => Left {
            ticks: left.ticks.saturating_sub(1),
            ..left
        },
        Event::Raise(_) => Left {
            raises: left.raises.saturating_sub(1),
            owed: left.owed.saturating_sub(1),
            ..left
        },
    }
}
