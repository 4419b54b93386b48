//! The kernel's tasks: their states, who is ready on each processor, and their contexts.
//!
//! `specs/Tasks.antt` says what each call makes of them, `specs/Status.antt` which states there are and which
//! transitions lead from one to another, `specs/Ready.antt` what is always true.
#![tactic(auto)]

mod lists;
mod making;
mod marks;
mod reply;
mod status;
mod task;
mod tasks;

pub use making::are_setups;
pub use reply::answer;
pub use status::{Status, TaskId, TaskState, WaitKind, WaitReason};
pub use task::{Request, Task, TaskSetup, TaskView};
pub use tasks::Tasks;
