//! The events that lead to a place.

ghost use Rattle.std.specs.Prelude.{◌≡◌, ◌++◌, replicate, IfOk, OnOk};
ghost use Rattle.brd_board.specs.Board.{BoardState as BoardOf, after};
ghost use Rattle.brd_places.specs.Places.{board_at, places_of, events_back};

use crate::entry::{Entry, entry_at};
use brd_base::{List, NoMemory};
use brd_board::Event;
use std::alloc::Global;

/// The events that lead from the start to the place of an index; none where there is no such place.
#[tactic(auto, using(crate::proofs::PathLemmas::path_goes_on, crate::proofs::PathLemmas::path_ends))]
pub(crate) fn path_to(alloc: Global, entries: &[Entry], i: usize) -> Result<List<Event>, NoMemory>
    ensures { (start : BoardOf) → IfOk result
        (λ events. after start events ≡ board_at start (places_of start entries.now) i) }
{
    let mut back = way_back(alloc, entries, i)?;
    let mut events = List::new(alloc);
    while let Some(entry) = back.pop() {
        put_events(&mut events, entry.event, entry.count)?;
    }
    Ok(events)
}

/// The entries by which the place of an index comes from the start, the last one first.
#[tactic(auto, using(crate::proofs::PathLemmas::goes_back, crate::proofs::PathLemmas::begins_back, crate::proofs::PathLemmas::came_back))]
fn way_back(alloc: Global, entries: &[Entry], i: usize) -> Result<Vec<Entry>, NoMemory>
    ensures { (start : BoardOf) → IfOk result
        (λ back. after start (events_back back.items) ≡ board_at start (places_of start entries.now) i) }
{
    let mut back = Vec::new(alloc);
    let mut at = i;
    while let Some(entry) = entry_at(entries, at) {
        back.push(entry)?;
        let parent = entry.parent as usize;
        if parent >= at {
            return Ok(back);
        }
        at = parent;
    }
    Ok(back)
}

/// Puts an event at the end n times.
fn put_events(events: &mut List<Event>, event: Event, count: u32) -> Result<(), NoMemory>
    ensures { OnOk result (events.new ≡ events.old ++ replicate count event) }
{
    for _ in 0..count {
        events.push(event)?;
    }
    Ok(())
}
