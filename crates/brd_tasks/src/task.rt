//! What is known of one task.

ghost use Rattle.std.specs.Prelude.{◌≡◌};
ghost use Rattle.brd_tasks.specs.Tasks.{unstarted, opening_of, started, processor_of};

use crate::status::{Status, TaskId, TaskState, WaitReason};
use brd_base::Same;
use brd_exec::Context;

/// What is fixed of a task when the board is made.
#[derive(Clone, Copy, PartialEq, Eq)]
pub struct TaskSetup {
    /// Its number, from 1 to 255.
    pub id: TaskId,
    /// The processor that it is assigned to at first.
    pub cpu: u8,
    /// The priority with which it starts, 1 to 16; 1 is the highest.
    pub priority: u8,
    /// Its argument, which it finds in $a0.
    pub exinf: u32,
    /// Where it starts.
    pub address: u32,
    /// The stack pointer with which it starts.
    pub sp: u32,
}

/// A request to start a task (TOPPERS/FMP, act_tsk and mact_tsk).
#[derive(Clone, Copy, PartialEq, Eq)]
pub enum Request {
    /// On the processor that it is assigned to.
    Assigned,
    /// On this processor, to which it is assigned from then on.
    On(u8),
}

/// A task but for its context.
#[derive(Clone, Copy, PartialEq, Eq)]
pub struct Task {
    /// What was fixed when the board was made.
    pub setup: TaskSetup,
    /// Its state, with what it waits for.
    pub status: Status,
    /// Its present priority.
    pub priority: u8,
    /// Its priority where nothing lifts it.
    pub base: u8,
    /// The processor that it is assigned to.
    pub cpu: u8,
    /// The request that is queued, if one is: it is met when the task ends.
    pub activation: Option<Request>,
    /// Whether a wake-up is queued.
    pub wakeup: bool,
}

impl Same for TaskSetup {
    fn same(&self, other: &Self) -> bool {
        *self == *other
    }
}

impl Same for Request {
    fn same(&self, other: &Self) -> bool {
        *self == *other
    }
}

impl Same for Task {
    fn same(&self, other: &Self) -> bool {
        self.setup.same(&other.setup)
            && self.status.same(&other.status)
            && self.priority == other.priority
            && self.base == other.base
            && self.cpu == other.cpu
            && self.activation.same(&other.activation)
            && self.wakeup == other.wakeup
    }
}

/// A task as it stands.
#[derive(Clone, Copy, PartialEq, Eq)]
pub struct TaskView {
    /// Its state.
    pub state: TaskState,
    /// Its present priority, 1 to 16; 1 is the highest.
    pub priority: u8,
    /// The processor that it is assigned to.
    pub cpu: u8,
    /// What it waits for, if it does.
    pub waiting: Option<WaitReason>,
    /// The tick at which its wait ends, if it has an end.
    pub due: Option<u64>,
    /// How many activations are queued.
    pub activations: u8,
    /// How many wake-ups are queued.
    pub wakeups: u8,
    /// Its context; of a dormant task the last one, or that of a start where it hasn't started yet.
    pub context: Context,
}

impl TaskSetup {
    /// The task before its first start.
    pub fn unstarted(self) -> Task
        ensures { result ≡ unstarted self }
    {
        Task {
            setup: self,
            status: Status::Dormant,
            priority: self.priority,
            base: self.priority,
            cpu: self.cpu,
            activation: None,
            wakeup: false,
        }
    }

    /// The context with which the task starts.
    pub fn opening(self) -> Context
        ensures { result ≡ opening_of self }
    {
        Context::opening(self.address, self.exinf, self.sp)
    }
}

impl Task {
    /// The task as it starts on a processor.
    pub fn started(self, cpu: u8) -> Task
        ensures { result ≡ started cpu self }
    {
        Task {
            setup: self.setup,
            status: Status::Ready,
            priority: self.setup.priority,
            base: self.setup.priority,
            cpu,
            activation: None,
            wakeup: false,
        }
    }
}

impl Request {
    /// The processor on which a task starts by this request.
    pub fn processor(self, task: Task) -> u8
        ensures { result ≡ processor_of self task }
    {
        match self {
            Request::Assigned => task.cpu,
            Request::On(cpu) => cpu,
        }
    }
}
