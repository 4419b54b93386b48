//! What bounds leave for a schedule's next event.

ghost use Rattle.std.specs.Prelude.{◌≡◌, true, if◌then◌else◌, is_some, None, Some};
ghost use Rattle.brd_board.specs.Board.{registers_of};
ghost use Rattle.brd_journal.specs.Still.{did_nothing};
ghost use Rattle.brd_explore.specs.Schedules.{affords, is_last, preempts, spent, stepper};
ghost use Rattle.brd_explore.specs.Shards.{choices};

use brd_board::{Board, Event, Report};

/// How much a schedule may have.
#[derive(Clone, Copy, Debug, PartialEq, Eq)]
pub struct Bounds {
    /// Events that do something.
    pub events: u32,
    /// Steps that leave another processor on which somebody executes.
    pub preemptions: u32,
    /// Ticks.
    pub ticks: u32,
    /// Interrupt lines that are raised.
    pub raises: u32,
    /// How many raises have to come before a board at rest is an end.
    pub owed: u32,
}

impl Bounds {
    /// Whether an event may come next: something is left for it. A step of another processor than `last` preempts it.
    #[tactic(auto, unfolding(crate::specs::Schedules::affords))]
    pub fn affords(&self, last: Option<u8>, event: Event) -> bool
        ensures { result ≡ affords self.now last event }
    {
        if self.events == 0 {
            return false;
        }
        match event {
            Event::Step(cpu) => self.preemptions > 0 || !preempts(last, cpu),
            Event::Tick => self.ticks > 0,
            Event::Raise(_) => self.raises > 0,
        }
    }

    /// How many choices that cost are left: preemptions, ticks and raises.
    pub(crate) fn choices(&self) -> u64
        ensures { result ≡ choices self.now }
    {
        u64::from(self.preemptions) + u64::from(self.ticks) + u64::from(self.raises)
    }

    /// What is left after an event for which something was left.
    #[tactic(auto, unfolding(crate::specs::Schedules::spent))]
    pub fn spent(&self, last: Option<u8>, event: Event) -> Bounds
        ensures { result ≡ spent self.now last event }
    {
        let events = self.events.saturating_sub(1);
        match event {
            Event::Step(cpu) => {
                Bounds {
                    events,
                    preemptions: self
                        .preemptions
                        .saturating_sub(u32::from(preempts(last, cpu))),
                    ..*self
                }
            }
            Event::Tick => {
                Bounds {
                    events,
                    ticks: self.ticks.saturating_sub(1),
                    ..*self
                }
            }
            Event::Raise(_) => {
                Bounds {
                    events,
                    raises: self.raises.saturating_sub(1),
                    owed: self.owed.saturating_sub(1),
                    ..*self
                }
            }
        }
    }
}

/// Whether a step of a processor preempts the one that was left, if one was.
fn preempts(last: Option<u8>, cpu: u8) -> bool
    ensures { result ≡ preempts last cpu }
{
    match last {
        Some(last) => last != cpu,
        None => false,
    }
}

/// Whether a processor is the one that a step of another one would preempt.
pub(crate) fn is_last(last: Option<u8>, cpu: u8) -> bool
    ensures { result ≡ is_last last cpu }
{
    match last {
        Some(last) => last == cpu,
        None => false,
    }
}

/// Which processor a step of another one would preempt, after an event that has led to a board.
pub fn stepper(board: &Board, last: Option<u8>, event: Event) -> Option<u8>
    ensures { result ≡ stepper board.now last event }
{
    match event {
        Event::Step(cpu) => left_by(board, cpu),
        Event::Tick | Event::Raise(_) => last,
    }
}

/// A processor, if somebody executes there.
fn left_by(board: &Board, cpu: u8) -> Option<u8>
    ensures { result ≡ (if is_some (registers_of board.now cpu) then Some cpu else None) }
{
    if board.registers(cpu).is_some() {
        Some(cpu)
    } else {
        None
    }
}

/// Whether a report says that nothing was done.
pub fn did_nothing(report: Report) -> bool
    ensures { result ≡ did_nothing report }
{
    match report {
        Report::Off | Report::NoSuch | Report::Stopped | Report::Idle | Report::TimeOver => true,
        Report::Accepted(_)
        | Report::Ran(_)
        | Report::Called(_)
        | Report::Faulted(_)
        | Report::Ticked
        | Report::Raised => false,
    }
}
