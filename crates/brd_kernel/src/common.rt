//! What a kernel and what is saved of one have in common.

ghost use Rattle.std.specs.Prelude.{◌≤◌, IfOk, vec_capacity};
ghost use Rattle.brd_kernel.specs.Common.{IsCopy};

use crate::processor::{InterruptLine, Processor};
use brd_base::{NoMemory, copy_with_room};
use brd_exec::Context;
use brd_tasks::{TaskId, Tasks};
use brd_time::Timeouts;
use brd_timers::Timers;

/// A kernel without the objects for which tasks wait.
#[derive(Drop)]
pub struct Common {
    /// Whether the board is off.
    pub off: bool,
    /// Whether the kernel has the profile.
    pub standard: bool,
    /// What the system time was before the first tick.
    pub clock: u32,
    /// The ticks so far, and when waits end.
    pub time: Timeouts,
    /// By place: the time handlers.
    pub timers: Timers,
    /// The tasks.
    pub tasks: Tasks,
    /// By ID: whether there is a spin lock.
    pub spin_locks: Vec<bool>,
    /// By number: the processors.
    pub processors: [Option<Processor>; 9],
    /// The task that executes on each of them, if one does, so that a step needn't find it out.
    pub executing: [Option<TaskId>; 9],
    /// By the processor's number: the context of the handler that runs there.
    pub handler_contexts: Vec<Context>,
    /// By number: the interrupt lines.
    pub lines: Vec<InterruptLine>,
    /// The bytes that were written to the console.
    pub console: Vec<u8>,
    /// Whether a line may be pending.
    pub pending: bool,
}

impl Common {
    /// A copy, with room for `room` bytes of console.
    pub fn copy(&self, room: usize) -> Result<Common, NoMemory>
        ensures is { IfOk result (IsCopy self.now) }
        ensures room { IfOk result (λ copy. room ≤ vec_capacity copy.console) }
    {
        Ok(Common {
            off: self.off,
            standard: self.standard,
            clock: self.clock,
            time: self.time.try_copy()?,
            timers: self.timers.try_copy()?,
            tasks: self.tasks.try_copy()?,
            spin_locks: copy_with_room(&self.spin_locks, 0)?,
            processors: self.processors,
            executing: self.executing,
            handler_contexts: copy_with_room(&self.handler_contexts, 0)?,
            lines: copy_with_room(&self.lines, 0)?,
            console: copy_with_room(&self.console, room)?,
            pending: self.pending,
        })
    }
}
