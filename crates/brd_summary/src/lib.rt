//! What stands at the end of a run, in words: what each processor does and each task is, whether the board is
//! deadlocked, which tasks wait for each other, which calls were refused, and which raises had no effect.
#![tactic(auto)]

mod findings;
mod summary;

pub use summary::{put_end, put_summary};
