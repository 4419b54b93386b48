//! Objects that tasks wait for: semaphores, event flags, data queues, mutexes, fixed memory pools and mailboxes.
//!
//! `specs/` says what each call makes of them. No call takes memory but those that make a table, copy, save or restore
//! one.
#![tactic(auto)]

mod block;
mod data_queue;
mod flag;
mod flags;
pub mod laws;
mod mailbox;
mod mailboxes;
mod message;
mod mutex;
mod mutexes;
mod object;
mod objects;
mod pool;
mod pools;
mod queues;
mod semaphore;
mod semaphores;
mod sent;
mod waiters;
mod want;

pub use block::{Block, PoolSetup, distance_of};
pub use data_queue::DataQueue;
pub use flag::Flag;
pub use flags::{Flags, SavedFlags};
pub use mailbox::Mailbox;
pub use mailboxes::{Mailboxes, SavedMailboxes};
pub use message::Message;
pub use mutex::Mutex;
pub use mutexes::{Mutexes, SavedMutexes};
pub use object::Object;
pub use objects::{Objects, SavedObjects};
pub use pool::Pool;
pub use pools::{Pools, SavedPools};
pub use queues::{Queues, SavedQueues};
pub use semaphore::Semaphore;
pub use semaphores::{SavedSemaphores, Semaphores};
pub use sent::{Received, Sent};
pub use want::{Mode, Want};
