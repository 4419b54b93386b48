//! What happens in an event.

ghost use Rattle.std.specs.Prelude.{◌≡◌, IfOk};
ghost use Rattle.brd_board.specs.Board.{BoardState, happens};
ghost use Rattle.brd_happening.specs.Before.{before_of};
ghost use Rattle.brd_happening.specs.Happening.{
  processor_of,
  place_of,
  no_such,
  was_raised,
  instruction_by,
  exception_by,
  executed_by,
  executed_in,
  what_of,
  releases,
  released_in,
  rung_in,
  happening_from,
  happening_of,
};

use crate::before::Before;
use crate::call::CallMade;
use crate::cause::{Cause, cause_of};
use crate::found::{Found, word_around};
use crate::instruction::Instruction;
use crate::release::{Release, released};
use crate::rung::Rung;
use brd_base::{List, NoMemory};
use brd_board::{Board, Event, Fault, Report, Standing};
use brd_isa::Insn;
use std::alloc::Global;

/// An exception.
#[derive(Clone, Copy)]
pub struct Exception {
    /// What its processor keeps of it.
    pub fault: Fault,
    /// The instruction that raised it, as it was fetched; None where none could be, or its word stands for none.
    pub insn: Option<Insn>,
    /// Why.
    pub cause: Cause,
}

/// Why nothing happens in an event.
#[derive(Clone, Copy, PartialEq, Eq)]
pub enum Why {
    /// The board is off.
    Off,
    /// It is a step of a processor that the board doesn't have.
    NoProcessor,
    /// It raises this line, which has no handler.
    NoHandler(u8),
    /// It is a step of a processor that is stopped.
    Stopped,
    /// It is a step of a processor that has nothing to run.
    Idle,
    /// It is a tick after the last one.
    TimeOver,
}

/// What an event is to the board.
#[derive(Clone, Copy)]
pub enum What {
    /// An instruction was done.
    Instruction(Instruction),
    /// A service call was made.
    Call(CallMade),
    /// An instruction raised an exception.
    Exception(Exception),
    /// The interrupt of this line was raised, and is pending.
    Raised(u8),
    /// The interrupt of this line was raised while it was pending, and is lost.
    Lost(u8),
    /// The interrupt of this line was accepted.
    Accepted(u8),
    /// The tick of this number passed.
    Tick(u64),
    /// Nothing.
    Nothing(Why),
    /// No event comes to this.
    Untold,
}

/// What happens in an event.
pub struct Happening {
    /// The processor, of a step.
    pub cpu: Option<u8>,
    /// What that processor did before it.
    pub who: Option<Standing>,
    /// The address of the instruction at which it was.
    pub place: Option<u32>,
    /// What the event is.
    pub what: What,
    /// The tasks that it releases, by ascending number.
    pub released: List<Release>,
    /// The interrupt lines that it raises, of a tick: of the time handlers that are due, by ascending number.
    pub rung: List<Rung>,
    /// Whether it turns the board off.
    pub goes_off: bool,
}

/// Written out, so that a function that lets one go is proved with a call, and not with the end of each part.
impl Drop for Happening {
    fn drop(self) {
        let Happening {
            cpu: _,
            who: _,
            place: _,
            what: _,
            released: _,
            rung: _,
            goes_off: _,
        } = self;
    }
}

impl Before {
    /// What happened in the event, which reported this and left this board.
    pub fn happening(
        &self,
        alloc: Global,
        report: Report,
        after: &Board,
    ) -> Result<Happening, NoMemory>
        ensures is { IfOk result (λ told. told ≡ happening_from self.now report after.now) }
        // of every board of which this was read before the event, and to which it did that
        ensures exactly { (board : BoardState) →
            self.now ≡ before_of board self.now.event →
            record { board = after.now; report = report } ≡ happens board self.now.event →
            IfOk result (λ told. told ≡ happening_of board self.now.event) }
    {
        let released = self.released(alloc, report, after)?;
        let rung = self.rung(alloc, report)?;
        Ok(Happening {
            cpu: processor_of(self.event),
            who: self.who,
            place: place_of(&self.found),
            what: self.what(report, after),
            released,
            rung,
            goes_off: after.is_off() && !self.off,
        })
    }

    /// Whom the event released.
    fn released(
        &self,
        alloc: Global,
        report: Report,
        after: &Board,
    ) -> Result<List<Release>, NoMemory>
        ensures { IfOk result (λ released. released ≡ released_in self.now report after.now) }
    {
        if !releases(self.standard, report) {
            return Ok(List::new(alloc));
        }
        released(alloc, self.waiters.as_slice(), after)
    }

    /// The lines of time handlers that the event raised.
    fn rung(&self, alloc: Global, report: Report) -> Result<List<Rung>, NoMemory>
        ensures { IfOk result (λ rung. rung ≡ rung_in self.now report) }
    {
        match report {
            Report::Ticked => List::from_slice(alloc, self.due.as_slice()),
            _ => Ok(List::new(alloc)),
        }
    }

    /// What the event was.
    fn what(&self, report: Report, after: &Board) -> What
        ensures { result ≡ what_of self.now report after.now }
    {
        match report {
            Report::Off => What::Nothing(Why::Off),
            Report::NoSuch => no_such(self.event),
            Report::Stopped => What::Nothing(Why::Stopped),
            Report::Accepted(line) => What::Accepted(line),
            Report::Ran(_) | Report::Called(_) | Report::Faulted(_) => {
                executed_in(&self.found, report, after)
            }
            Report::Idle => What::Nothing(Why::Idle),
            Report::Ticked => What::Tick(after.now()),
            Report::TimeOver => What::Nothing(Why::TimeOver),
            Report::Raised => was_raised(self.event, self.pending),
        }
    }
}

/// An instruction that was found, if one was, and reported this.
fn executed_in(found: &Option<Found>, report: Report, after: &Board) -> What
    ensures { result ≡ executed_in found.now report after.now }
{
    match *found {
        Some(found) => executed_by(&found, report, after),
        None => What::Untold,
    }
}

/// An instruction that was found, and reported this.
fn executed_by(found: &Found, report: Report, after: &Board) -> What
    ensures { result ≡ executed_by found.now report after.now }
{
    match report {
        Report::Ran(_) => instruction_by(found, after),
        Report::Called(_) => What::Call(CallMade::new(found, after)),
        Report::Faulted(_) => exception_by(found, after.last_fault(found.cpu)),
        _ => What::Untold,
    }
}

/// An instruction that was found and done.
fn instruction_by(found: &Found, after: &Board) -> What
    ensures { result ≡ instruction_by found.now after.now }
{
    match (found.insn, after.registers(found.cpu)) {
        (Some(insn), Some(context)) => {
            let held = word_around(after, found.address);
            What::Instruction(Instruction::new(insn, found, &context, held))
        }
        _ => What::Untold,
    }
}

/// An exception of what was found.
fn exception_by(found: &Found, fault: Option<Fault>) -> What
    ensures { result ≡ exception_by found.now fault }
{
    match fault {
        Some(fault) => What::Exception(Exception {
            fault,
            insn: found.insn,
            cause: cause_of(fault.code, found),
        }),
        None => What::Untold,
    }
}

/// The processor whose step an event is.
fn processor_of(event: Event) -> Option<u8>
    ensures { result ≡ processor_of event }
{
    match event {
        Event::Step(cpu) => Some(cpu),
        Event::Tick | Event::Raise(_) => None,
    }
}

/// The address of the instruction that was found.
fn place_of(found: &Option<Found>) -> Option<u32>
    ensures { result ≡ place_of found.now }
{
    match *found {
        Some(found) => Some(found.context.pc()),
        None => None,
    }
}

/// An event of a processor or of a line that isn't there.
fn no_such(event: Event) -> What
    ensures { result ≡ no_such event }
{
    match event {
        Event::Step(_) => What::Nothing(Why::NoProcessor),
        Event::Raise(line) => What::Nothing(Why::NoHandler(line)),
        Event::Tick => What::Untold,
    }
}

/// An interrupt that was raised, of a line that was pending or not.
fn was_raised(event: Event, pending: bool) -> What
    ensures { result ≡ was_raised event pending }
{
    match event {
        Event::Raise(line) if pending => What::Lost(line),
        Event::Raise(line) => What::Raised(line),
        Event::Step(_) | Event::Tick => What::Untold,
    }
}

/// Whether an event that reports this may release tasks, with the profile or without it.
fn releases(standard: bool, report: Report) -> bool
    ensures { result ≡ releases standard report }
{
    match report {
        Report::Called(_) | Report::Ticked => true,
        Report::Faulted(_) => standard,
        _ => false,
    }
}
