//! The interrupt lines that a tick raises: those of the time handlers that are due at it.

ghost use Rattle.std.specs.Prelude.{◌≡◌, ◌<◌, ◌++◌, [], IfOk, OnOk};
ghost use Rattle.std.specs.List.{cons_option};
ghost use Rattle.brd_happening.specs.Rung.{all_due, due_at, due_in, is_due};

use brd_base::{List, NoMemory};
use brd_board::{Board, Event};
use std::alloc::Global;

/// The line of the time handler at place 0.
const FIRST: u8 = 32;

/// An interrupt line that a tick raises, since its time handler is due.
#[derive(Clone, Copy)]
pub struct Rung {
    /// The line.
    pub line: u8,
    /// Whether it was pending already, so that its handler runs once for both times.
    pub pending: bool,
}

/// The lines that an event raises where it is a tick that is counted, by ascending number.
pub(crate) fn due_in(alloc: Global, board: &Board, event: Event) -> Result<List<Rung>, NoMemory>
    ensures { IfOk result (λ due. due ≡ due_in board.now event) }
{
    match event {
        Event::Tick => all_due(alloc, board),
        Event::Step(_) | Event::Raise(_) => Ok(List::new(alloc)),
    }
}

/// The lines of the time handlers that are due at the next tick.
fn all_due(alloc: Global, board: &Board) -> Result<List<Rung>, NoMemory>
    ensures { IfOk result (λ due. due ≡ all_due board.now) }
{
    let mut due = List::new(alloc);
    for place in 0..128u8 {
        put_if(&mut due, due_at(board, place))?;
    }
    Ok(due)
}

/// Puts a line at the end, if there is one.
fn put_if(due: &mut List<Rung>, rung: Option<Rung>) -> Result<(), NoMemory>
    ensures { OnOk result (due.new ≡ due.old ++ cons_option rung []) }
{
    match rung {
        Some(rung) => due.push(rung),
        None => Ok(()),
    }
}

/// The line of the time handler at a place, if that is due at the next tick.
fn due_at(board: &Board, place: u8) -> Option<Rung>
    requires { place < 128 }
    ensures { result ≡ due_at board.now place }
{
    if !is_due(board, place) {
        return None;
    }
    let line = place + FIRST;
    Some(Rung {
        line,
        pending: board.is_pending(line),
    })
}

/// Whether the time handler at a place is due at the next tick.
#[tactic(auto, using(crate::proofs::RungLemmas::due_by))]
fn is_due(board: &Board, place: u8) -> bool
    ensures { result ≡ is_due board.now place }
{
    match board.timer_due(place) {
        Some(due) => due.saturating_sub(1) <= board.now(),
        None => false,
    }
}
