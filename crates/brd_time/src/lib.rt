//! Time as the kernel counts it: ticks, and when the waits of tasks end.
//!
//! `specs/Time.antt` says what each call makes of it. No call but `Timeouts::new` and `try_copy` takes
//! memory.
#![tactic(auto)]

pub mod laws;
mod timeouts;

pub use timeouts::Timeouts;
