//! Visits to places: each event that may come there is tried.

ghost use Rattle.std.specs.Prelude.{◌≡◌, IfOk, OnOk, List as ListOf, Some, replicate, slice_get};
ghost use Rattle.brd_board.specs.declared.event.Event.{Event as EventOf};
ghost use Rattle.brd_board.specs.declared.event.Event.TheVariants.{Step};
ghost use Rattle.brd_board.specs.Board.{after};
ghost use Rattle.brd_places.specs.Places.{Place};
ghost use Rattle.brd_reach.specs.Reaching.{bounds_of};
ghost use Rattle.brd_reach.specs.Rounds.{IsAt, IsMore, IsPaid, IsPlace, TriedSo, VisitedSo, paid, sharing_for};

use crate::block::{Block, go};
use crate::stop::stop_at;
use crate::unknown::Unknown;
use crate::ways::Ways;
use brd_base::NoMemory;
use brd_blocks::Sharing;
use brd_board::{Board, Event};
use brd_explore::{Bounds, Wanted};
use brd_places::{Left, Places, copy_over, memory_of};
use std::alloc::Global;

/// What was tried at a place came to.
#[derive(Clone, Copy, PartialEq, Eq)]
pub(crate) enum Tried {
    /// It was gone through.
    Done,
    /// The place fails.
    Fails,
    /// After so many steps of a processor there is one that doesn't keep to who may touch what.
    Strays(u8, u32),
    /// It isn't known.
    Unknown(Unknown),
}

/// Visits the place of an index: looks whether it fails, and tries all events that may come there. `words` are the
/// addresses of the words by whose values places are told from each other at first sight. The boards in `here` and `last`
/// become other ones.
pub(crate) fn visit(
    alloc: Global,
    places: &mut Places,
    ways: &mut Ways,
    at: usize,
    sharing: &Sharing,
    words: &[u32],
    among: &[Event],
    wanted: &Wanted,
    here: &mut Board,
    last: &mut Board,
) -> Result<Tried, NoMemory>
    ensures more { (place : Place) → slice_get places.old at ≡ Some place → IsMore places.old places.new }
    ensures so { (place : Place) → slice_get places.old at ≡ Some place →
        IfOk result (VisitedSo (sharing_for sharing.now wanted.now) among.now wanted.now places.new place) }
{
    places.put(at, here)?;
    let left = places.left(at);
    if wanted.fails_at(here, bounds_of(left))? {
        return Ok(Tried::Fails);
    }
    ways.come(alloc, stop_at(here, left)?, here)?;
    for event in among {
        match try_event(
            places, ways, at, here, left, sharing, words, wanted, *event, last,
        )? {
            Tried::Done => {}
            Tried::Fails => return Ok(Tried::Fails),
            Tried::Strays(cpu, count) => return Ok(Tried::Strays(cpu, count)),
            Tried::Unknown(why) => return Ok(Tried::Unknown(why)),
        }
    }
    Ok(Tried::Done)
}

/// The bounds with so much left, and nothing else.
pub(crate) fn bounds_of(left: Left) -> Bounds
    ensures { result ≡ bounds_of left 0 0 }
{
    Bounds {
        events: 0,
        preemptions: 0,
        ticks: left.ticks,
        raises: left.raises,
        owed: left.owed,
    }
}

/// Tries an event at the place of an index: this board, where so much is left.
fn try_event(
    places: &mut Places,
    ways: &mut Ways,
    at: usize,
    board: &Board,
    left: Left,
    sharing: &Sharing,
    words: &[u32],
    wanted: &Wanted,
    event: Event,
    last: &mut Board,
) -> Result<Tried, NoMemory>
    ensures more { IsAt places.old at left board.now → IsMore places.old places.new }
    ensures so { (among : ListOf EventOf) → IsAt places.old at left board.now →
        IfOk result (TriedSo (sharing_for sharing.now wanted.now) among places.new left board.now event) }
{
    match event {
        Event::Step(cpu) => try_step(
            places, ways, at, board, left, sharing, words, wanted, cpu, last,
        ),
        Event::Tick => try_other(places, ways, at, board, left, words, event, last),
        Event::Raise(_) => try_other(places, ways, at, board, left, words, event, last),
    }
}

/// Tries a step of a processor.
fn try_step(
    places: &mut Places,
    ways: &mut Ways,
    at: usize,
    board: &Board,
    left: Left,
    sharing: &Sharing,
    words: &[u32],
    wanted: &Wanted,
    cpu: u8,
    last: &mut Board,
) -> Result<Tried, NoMemory>
    ensures more { IsAt places.old at left board.now → IsMore places.old places.new }
    ensures so { (among : ListOf EventOf) → IsAt places.old at left board.now →
        IfOk result (TriedSo (sharing_for sharing.now wanted.now) among places.new left board.now (Step cpu)) }
{
    if cpu == 0 || cpu > 8 {
        return Ok(Tried::Unknown(Unknown::Waits));
    }
    copy_over(last, board)?;
    match go(sharing, wanted, board, last, cpu)? {
        Block::Stays => Ok(Tried::Done),
        Block::Leads(count) => {
            note(places, ways, at, words, Event::Step(cpu), count, last, left)?;
            Ok(Tried::Done)
        }
        Block::Strays(count) => Ok(Tried::Strays(cpu, count)),
        Block::Unknown(why) => Ok(Tried::Unknown(why)),
    }
}

/// Tries a tick, or a raise.
fn try_other(
    places: &mut Places,
    ways: &mut Ways,
    at: usize,
    board: &Board,
    left: Left,
    words: &[u32],
    event: Event,
    last: &mut Board,
) -> Result<Tried, NoMemory>
    ensures more { IsAt places.old at left board.now → IsMore places.old places.new }
    ensures so { IsAt places.old at left board.now → IfOk result (IsPaid places.new left board.now event) }
{
    let Some(rest) = paid(left, event) else {
        return Ok(Tried::Done);
    };
    copy_over(last, board)?;
    let _ = last.event_apart(event);
    note(places, ways, at, words, event, 1, last, rest)?;
    Ok(Tried::Done)
}

/// What is left after an event, if enough is.
fn paid(left: Left, event: Event) -> Option<Left>
    ensures { result ≡ paid left event }
{
    match event {
        Event::Step(_) => Some(left),
        Event::Tick => {
            if left.ticks == 0 {
                return None;
            }
            Some(Left {
                ticks: left.ticks - 1,
                ..left
            })
        }
        Event::Raise(_) => {
            if left.raises == 0 {
                return None;
            }
            Some(Left {
                raises: left.raises - 1,
                owed: left.owed.saturating_sub(1),
                ..left
            })
        }
    }
}

/// Adds a place, unless it is there: the board to which one event n times leads from the place of an index. The way to
/// it is noted.
fn note(
    places: &mut Places,
    ways: &mut Ways,
    at: usize,
    words: &[u32],
    event: Event,
    count: u32,
    board: &Board,
    left: Left,
) -> Result<(), NoMemory>
    ensures more { (place : Place) → slice_get places.old at ≡ Some place → IsMore places.old places.new }
    ensures there { (place : Place) → slice_get places.old at ≡ Some place →
        board.now ≡ after place.board (replicate count event) → OnOk result (IsPlace places.new left board.now) }
{
    let mark = places.mark_of(board, left, memory_of(board, words));
    if let Some(to) = places.find(board, left, mark)? {
        return ways.add(at, to);
    }
    ways.add(at, places.len())?;
    places.add(at, event, count, left, mark)
}
