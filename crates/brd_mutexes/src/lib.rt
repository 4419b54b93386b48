//! Priorities that tasks are lifted to, by who waits for what they hold.
#![tactic(auto)]

pub mod laws;
mod lifting;

pub use lifting::lift;
