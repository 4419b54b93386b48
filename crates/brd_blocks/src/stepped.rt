//! A step of a processor, and what it was.

ghost use Rattle.std.specs.Prelude.{◌≡◌};
ghost use Rattle.brd_link.specs.LinkSet.{IsLinkSet};
ghost use Rattle.brd_board.specs.declared.event.Event.TheVariants.{Step};
ghost use Rattle.brd_board.specs.Board.{happens};
ghost use Rattle.brd_blocks.specs.Owning.{sharing_of};
ghost use Rattle.brd_blocks.specs.Looking.{look_of, ran_of, done_of, stepped_of};
ghost use Rattle.brd_blocks.specs.Stepping.{IsStepped};

use crate::look::{Look, look_at};
use crate::sharing::Sharing;
use brd_board::{Board, Event, Report};

/// What a step of a processor was.
#[derive(Clone, Copy, PartialEq, Eq)]
pub enum Stepped {
    /// The board is off: nothing.
    Off,
    /// Nobody executes on the processor: nothing.
    Nothing,
    /// The processor accepted an interrupt.
    Accepted,
    /// An instruction that nobody else can see.
    Invisible,
    /// An instruction that others may see or that may see others, and terminates mortal tasks alone.
    Visible,
    /// An instruction that doesn't keep to who may touch what, ends the link of another processor unseen, or asks for
    /// ter_tsk of a task that isn't mortal: more has to be shared, or more tasks are mortal. (Or one at address 0
    /// without a stack, which isn't looked at.)
    Strays,
}

impl Sharing {
    /// Lets a processor do its next step, and answers what that was. (The links of a board that came from a boot are a
    /// set, `laws::links_stay_a_set`.)
    pub fn step(&self, board: &mut Board, cpu: u8) -> Stepped
        ensures board { board.new ≡ (happens board.old (Step cpu)).board }
        ensures is { IsLinkSet board.old.links → IsStepped (sharing_of self.now) board.old cpu result }
        ensures exactly { result ≡ stepped_of (look_of self.now board.old cpu) (happens board.old (Step cpu)).report }
    {
        let look = look_at(self, board, cpu);
        let report = board.event_apart(Event::Step(cpu));
        stepped_of(look, report)
    }
}

/// What a step was that was looked at before it, and reported this.
fn stepped_of(look: Option<Look>, report: Report) -> Stepped
    ensures { result ≡ stepped_of look report }
{
    match report {
        Report::Off => Stepped::Off,
        Report::NoSuch | Report::Stopped | Report::Idle => Stepped::Nothing,
        Report::Accepted(_) => Stepped::Accepted,
        Report::Ran(_) => done_of(look, false, true),
        Report::Called(_) => done_of(look, true, false),
        Report::Faulted(_) => done_of(look, false, false),
        Report::Ticked | Report::TimeOver | Report::Raised => Stepped::Strays,
    }
}

/// What an instruction was that was looked at before it: whether it was a call, and whether it went on.
fn done_of(look: Option<Look>, calls: bool, goes_on: bool) -> Stepped
    ensures { result ≡ done_of look calls goes_on }
{
    match look {
        None => Stepped::Strays,
        Some(look) if !look.keeps || calls && look.surprises => Stepped::Strays,
        Some(look) if goes_on && look.hidden => ran_of(look.unlinked),
        Some(_) => Stepped::Visible,
    }
}

/// What an instruction was that nobody else can see, by whether it leaves the links of others.
fn ran_of(unlinked: bool) -> Stepped
    ensures { result ≡ ran_of unlinked }
{
    if unlinked {
        return Stepped::Invisible;
    }
    Stepped::Strays
}
