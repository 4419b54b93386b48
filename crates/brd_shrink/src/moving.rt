//! Turns that are moved elsewhere in a list of events that fails.

ghost use Rattle.std.specs.Prelude.{◌≡◌, ◌≤◌, ◌<◌, ℕ, true, length, IfOk, IfSome, IfNone};
ghost use Rattle.brd_shrink.specs.Turns.{is_cut, swapped};
ghost use Rattle.brd_shrink.specs.Settled.{IsPassing, IsBetter, IsSettledAt};

use crate::turns::{is_cut, switches, turn_end};
use brd_base::NoMemory;
use brd_board::{Board, Event};
use brd_explore::{Wanted, fails};
use std::alloc::Global;

/// The events with a turn moved elsewhere, so that they have fewer switches and fail still; where one begins at an
/// index that can be.
pub(crate) fn moved_from(
    alloc: Global,
    board: &Board,
    events: &[Event],
    from: usize,
    wanted: &Wanted,
) -> Result<Option<Vec<Event>>, NoMemory>
    requires { from < length events.now }
    ensures some { IfOk result
        (λ found. IfSome found (λ moved. IsBetter wanted.now board.now events.now moved.items)) }
    ensures none { IfOk result (λ found. IfNone found (IsSettledAt wanted.now board.now events.now from)) }
{
    if !is_cut(events, from) {
        return Ok(None);
    }
    let to = turn_end(events, from);
    let earlier = moved_earlier(alloc, board, events, from, to, wanted)?;
    if earlier.is_some() {
        return Ok(earlier);
    }
    moved_later(alloc, board, events, from, to, wanted)
}

/// The events with a turn moved to an earlier cut.
fn moved_earlier(
    alloc: Global,
    board: &Board,
    events: &[Event],
    from: usize,
    to: usize,
    wanted: &Wanted,
) -> Result<Option<Vec<Event>>, NoMemory>
    requires { (from ≤ to) × (to ≤ length events.now) }
    ensures some { IfOk result
        (λ found. IfSome found (λ moved. IsBetter wanted.now board.now events.now moved.items)) }
    ensures none { IfOk result (λ found. IfNone found ((at : ℕ) → at < from → is_cut events.now at ≡ true →
        IsPassing wanted.now board.now events.now (swapped events.now at from to))) }
{
    for at in 0..from {
        if is_cut(events, at) {
            let better = better(alloc, board, events, at, from, to, wanted)?;
            if better.is_some() {
                return Ok(better);
            }
        }
    }
    Ok(None)
}

/// The events with a turn moved to a later cut.
fn moved_later(
    alloc: Global,
    board: &Board,
    events: &[Event],
    from: usize,
    to: usize,
    wanted: &Wanted,
) -> Result<Option<Vec<Event>>, NoMemory>
    requires { (from ≤ to) × (to ≤ length events.now) }
    ensures some { IfOk result
        (λ found. IfSome found (λ moved. IsBetter wanted.now board.now events.now moved.items)) }
    ensures none { IfOk result (λ found. IfNone found ((at : ℕ) → to < at → at ≤ length events.now →
        is_cut events.now at ≡ true → IsPassing wanted.now board.now events.now (swapped events.now from to at))) }
{
    for before in to..events.len() {
        let at = before + 1;
        if is_cut(events, at) {
            let better = better(alloc, board, events, from, to, at, wanted)?;
            if better.is_some() {
                return Ok(better);
            }
        }
    }
    Ok(None)
}

/// The events where two stretches that follow one another have changed places, where they have fewer switches so and
/// fail still.
fn better(
    alloc: Global,
    board: &Board,
    events: &[Event],
    from: usize,
    middle: usize,
    to: usize,
    wanted: &Wanted,
) -> Result<Option<Vec<Event>>, NoMemory>
    requires order { (from ≤ middle) × (middle ≤ to) }
    requires within { to ≤ length events.now }
    ensures some { IfOk result
        (λ found. IfSome found (λ moved. IsBetter wanted.now board.now events.now moved.items)) }
    ensures none { IfOk result (λ found. IfNone found
        (IsPassing wanted.now board.now events.now (swapped events.now from middle to))) }
{
    let moved = swapped(alloc, events, from, middle, to)?;
    let tried = moved.as_slice();
    if switches(tried) < switches(events) && fails(board, tried, wanted)? {
        return Ok(Some(moved));
    }
    Ok(None)
}

/// The events where two stretches that follow one another have changed places.
fn swapped(
    alloc: Global,
    events: &[Event],
    from: usize,
    middle: usize,
    to: usize,
) -> Result<Vec<Event>, NoMemory>
    requires order { (from ≤ middle) × (middle ≤ to) }
    requires within { to ≤ length events.now }
    ensures { IfOk result (λ moved. moved.items ≡ swapped events.now from middle to) }
{
    let mut moved = Vec::from_slice(alloc, &events[..from])?;
    moved.extend_from_slice(&events[middle..to])?;
    moved.extend_from_slice(&events[from..middle])?;
    moved.extend_from_slice(&events[to..])?;
    Ok(moved)
}
