//! The board: RAM, processors, tasks and the kernel, and what events do to them.
//!
//! `specs/Board.antt` says what one event does and what a list of events does; `Board::event` and `Board::play` do
//! exactly that.
#![tactic(auto)]

mod board;
mod boot;
mod event;
mod executing;
pub mod laws;
mod lease;
mod links;
mod load;
mod pools;
mod setup;
mod snapshot;
mod time_handlers;
mod view;

pub use board::Board;
pub use boot::BootFault;
pub use brd_kernel::{Executor, Spin, Standing, TaskId, TaskState, TaskView, WaitKind, WaitReason};
pub use brd_lent::Decoded;
pub use event::{Event, Report};
pub use lease::{Lease, MOST_LENT, Stale};
pub use snapshot::Snapshot;
pub use view::Fault;
