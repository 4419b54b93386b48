//! What is kept in the course of a run: a timeline with its slices, marks, spin locks and mutexes.
#![tactic(auto)]

mod locks;
mod mutexes;
mod recording;
mod turns;

pub use locks::{Locks, LocksSeen};
pub use recording::{Doing, Known, Open, Recording};
pub use turns::turns_of;
