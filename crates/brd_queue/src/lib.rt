//! Queues of tasks: lists of those that wait. (Ready lists, which brd_rings keeps, are spoken of in the same words.)
//!
//! `specs/Queue.antt` says what each call makes of a queue, `specs/Rule.antt` by which rule a queue in the order of
//! priority serves.
#![tactic(auto)]

mod entry;
pub mod laws;
mod queue;
mod room;

pub use entry::{QueueEntry, QueueOrder};
pub use queue::{Queue, SavedQueue};
pub use room::{MOST_TASKS, insert_within};
