//! The kernel: service calls, dispatch, interrupts.
//!
//! `specs/Services.antt` has the service table, `specs/Row.antt` the order of refusals, `specs/Dispatch.antt` which
//! task runs, `specs/Kernel.antt` everything else. No call takes memory but those that make a kernel, copy, save or
//! restore one.
#![tactic(auto)]

mod call;
mod common;
mod kernel;
pub mod laws;
mod lines;
mod making;
mod processor;

pub use brd_tasks::{Request, TaskId, TaskSetup, TaskState, TaskView, WaitKind, WaitReason};
pub use call::{Call, Ercd, Reply, Sensed};
pub use kernel::{Kernel, SavedKernel};
pub use lines::{alarm_line, cyclic_line};
pub use processor::{
    Executor, Handler, InterruptLine, LineSetup, Marks, Processor, Spin, Standing,
};
