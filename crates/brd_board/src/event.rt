//! What can happen to the board, and what it reports.

/// One thing that happens to the board.
#[derive(Clone, Copy, Debug, PartialEq, Eq)]
pub enum Event {
    /// A processor, counted from 1, does its next step: mostly one instruction.
    Step(u8),
    /// A tick passes.
    Tick,
    /// An interrupt line is raised.
    Raise(u8),
}

/// What an event did.
#[derive(Clone, Copy, Debug, PartialEq, Eq)]
pub enum Report {
    /// The board is off: nothing.
    Off,
    /// There is no such processor, or no such line with a handler: nothing.
    NoSuch,
    /// The processor is stopped: nothing.
    Stopped,
    /// The processor accepted an interrupt of this line.
    Accepted(u8),
    /// It executed the instruction at this address.
    Ran(u32),
    /// It executed the SYSCALL at this address.
    Called(u32),
    /// The instruction at this address raised an exception.
    Faulted(u32),
    /// The processor has no task to run: nothing.
    Idle,
    /// A tick was counted.
    Ticked,
    /// The last tick was counted before: nothing.
    TimeOver,
    /// The line is pending.
    Raised,
}
