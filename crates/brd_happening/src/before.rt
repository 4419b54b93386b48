//! What has to be read of a board before an event.

ghost use Rattle.std.specs.Prelude.{◌≡◌, IfOk};
ghost use Rattle.brd_happening.specs.Before.{
  who_of,
  found_in,
  is_pending,
  may_release,
  finds_call,
  is_call,
  waiters_in,
  before_of,
};

use crate::found::Found;
use crate::release::{Waiter, waiters_of};
use crate::rung::{Rung, due_in};
use brd_base::{List, NoMemory};
use brd_board::{Board, Event, Standing};
use brd_isa::Insn;
use std::alloc::Global;

/// What has to be read of a board before an event.
pub struct Before {
    /// The event.
    pub event: Event,
    /// What its processor does, if it is a step of one that is there.
    pub who: Option<Standing>,
    /// What that processor finds, if somebody executes there.
    pub found: Option<Found>,
    /// Whether the line is pending that it raises.
    pub pending: bool,
    /// Whether there is the profile.
    pub standard: bool,
    /// The tasks that wait, if it may release some.
    pub waiters: List<Waiter>,
    /// The lines that it raises, if it is a tick that is counted.
    pub due: List<Rung>,
    /// Whether the board is off.
    pub off: bool,
}

/// Written out, so that a function that lets one go is proved with a call, and not with the end of each part.
impl Drop for Before {
    fn drop(self) {
        let Before {
            event: _,
            who: _,
            found: _,
            pending: _,
            standard: _,
            waiters: _,
            due: _,
            off: _,
        } = self;
    }
}

impl Before {
    /// What has to be read of a board before an event.
    pub fn of(alloc: Global, board: &Board, event: Event) -> Result<Before, NoMemory>
        ensures { IfOk result (λ before. before ≡ before_of board.now event) }
    {
        let found = found_in(board, event);
        let waiters = waiters_in(alloc, board, may_release(board, event, &found))?;
        Ok(Before {
            event,
            who: who_of(board, event),
            found,
            pending: is_pending(board, event),
            standard: board.is_standard(),
            waiters,
            due: due_in(alloc, board, event)?,
            off: board.is_off(),
        })
    }
}

/// What the processor does whose step an event is.
fn who_of(board: &Board, event: Event) -> Option<Standing>
    ensures { result ≡ who_of board.now event }
{
    match event {
        Event::Step(cpu) => board.standing(cpu),
        Event::Tick | Event::Raise(_) => None,
    }
}

/// What the processor finds whose step an event is.
fn found_in(board: &Board, event: Event) -> Option<Found>
    ensures { result ≡ found_in board.now event }
{
    match event {
        Event::Step(cpu) => Found::on(board, cpu),
        Event::Tick | Event::Raise(_) => None,
    }
}

/// Whether the line is pending that an event raises.
fn is_pending(board: &Board, event: Event) -> bool
    ensures { result ≡ is_pending board.now event }
{
    match event {
        Event::Raise(line) => board.is_pending(line),
        Event::Step(_) | Event::Tick => false,
    }
}

/// Whether an event may release tasks: a tick, a step that finds a SYSCALL, and with the profile each step, since an
/// exception gives back what its task has of mutexes.
fn may_release(board: &Board, event: Event, found: &Option<Found>) -> bool
    ensures { result ≡ may_release board.now event found.now }
{
    match event {
        Event::Tick => true,
        Event::Step(_) => board.is_standard() || finds_call(found),
        Event::Raise(_) => false,
    }
}

/// Whether what is found is a SYSCALL.
fn finds_call(found: &Option<Found>) -> bool
    ensures { result ≡ finds_call found.now }
{
    match *found {
        Some(found) => is_call(found.insn),
        None => false,
    }
}

/// Whether an instruction is a SYSCALL.
fn is_call(insn: Option<Insn>) -> bool
    ensures { result ≡ is_call insn }
{
    matches!(insn, Some(Insn::Syscall(_)))
}

/// The tasks that wait, where they are asked for.
fn waiters_in(alloc: Global, board: &Board, asked: bool) -> Result<List<Waiter>, NoMemory>
    ensures { IfOk result (λ waiters. waiters ≡ waiters_in board.now asked) }
{
    if asked {
        return waiters_of(alloc, board);
    }
    Ok(List::new(alloc))
}
