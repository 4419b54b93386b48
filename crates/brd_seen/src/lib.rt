//! What is seen of a board after an event: its tasks, how each stands and what an event changed of it, what service
//! calls ask for and are answered, and whether the event changed nothing.
#![tactic(auto)]

mod answer;
mod quiet;
mod service;
mod tasks;

pub use answer::{Answered, error_name, refusal_advice};
pub use quiet::{quiet_of, tick_of};
pub use service::{EXT_KER, EXT_TSK, RET_INT, SaidCall, Shown, TER_TSK, put_value};
pub use tasks::{Cause, TaskSeen, follow_tasks, task_seen, tasks_seen};
