//! Cyclic handlers and alarm handlers: at which ticks they are due.
//!
//! `specs/Timers.antt` says what each call makes of them. No call but `Timers::push` and `try_copy` takes memory.
#![tactic(auto)]

mod course;
pub mod laws;
mod timer;
mod timers;

pub use course::{Course, Cycle};
pub use timer::Timer;
pub use timers::Timers;
