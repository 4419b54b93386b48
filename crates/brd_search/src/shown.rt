//! The events after which a board shows what fails.

ghost use Rattle.std.specs.Prelude.{◌≡◌, ◌++◌, IfOk, OnOk};
ghost use Rattle.brd_board.specs.Board.{after};
ghost use Rattle.brd_search.specs.Shown.{fair_end, shown, stops};

use brd_base::NoMemory;
use brd_board::{Board, Event};
use brd_explore::{Wanted, is_at_rest};
use std::alloc::Global;

/// The events after which a board shows what fails: these, or if the board after them shows nothing and isn't at rest,
/// these and the fair end.
#[tactic(auto, unfolding(crate::specs::Shown::shown))]
pub fn shown_events(
    alloc: Global,
    wanted: &Wanted,
    board: &Board,
    events: &[Event],
) -> Result<Vec<Event>, NoMemory>
    ensures { IfOk result (λ all. all.items ≡ shown wanted.now board.now events.now) }
{
    let mut all = Vec::from_slice(alloc, events)?;
    if !stops(wanted, board, events)? {
        add_fair_end(&mut all, wanted)?;
    }
    Ok(all)
}

/// Whether the board after events shows what fails, or is at rest.
pub(crate) fn stops(wanted: &Wanted, board: &Board, events: &[Event]) -> Result<bool, NoMemory>
    ensures { IfOk result (λ it. it ≡ stops wanted.now (after board.now events.now)) }
{
    let mut copy = board.try_copy()?;
    copy.play(events);
    if wanted.fails_now(&copy)? {
        return Ok(true);
    }
    is_at_rest(&copy)
}

/// Adds the events of the fair end.
fn add_fair_end(events: &mut Vec<Event>, wanted: &Wanted) -> Result<(), NoMemory>
    ensures { OnOk result (events.new.items ≡ events.old.items ++ fair_end wanted.now) }
{
    for _ in 0..wanted.rounds {
        events.extend_from_slice(wanted.round.as_slice())?;
    }
    Ok(())
}
