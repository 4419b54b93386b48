//! Where a service call may come from.

use brd_kernel::Call;

/// From where a call may come, and when (own choice).
#[derive(Clone, Copy, PartialEq, Eq)]
pub enum Place {
    /// From a task that isn't CPU-locked.
    Task,
    /// From a task, also a CPU-locked one.
    LockedTask,
    /// As `LockedTask`, but not while the task's processor holds a spin lock.
    NotHolding,
    /// From a task that is neither CPU-locked nor has dispatching disabled: the call may wait.
    Waiting,
    /// As `Task`, but with dispatching disabled not of oneself.
    OnTask,
    /// From a handler that isn't CPU-locked.
    Handler,
    /// From a handler, also a CPU-locked one.
    LockedHandler,
    /// As `LockedHandler`, but not while the handler's processor holds a spin lock.
    NotHoldingHandler,
    /// From every task and every handler.
    Anywhere,
}

/// A service call, and from where it may come.
#[derive(Clone, Copy)]
pub struct Asked {
    /// From where it may come.
    pub place: Place,
    /// The call with its arguments.
    pub call: Call,
}

/// A service: its name and its arguments beside the call that it is.
#[derive(Clone, Copy)]
pub struct Service {
    /// Its name (uITRON 4.0 specification; TOPPERS/FMP).
    pub name: &'static [u8],
    /// How many arguments it takes: $a0 and the registers after it.
    pub takes: u8,
    /// What it is with the arguments that it is asked for with.
    pub asked: Asked,
}
