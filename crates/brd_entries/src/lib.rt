//! Instructions that are decoded once and done many times: entries of 8 bytes.
//!
//! An entry says what a word does: its operation is the variant, its registers are single bytes, and its immediate or
//! offset is a word that is extended already. `specs/Means.antt` relates an entry to the instruction that the word
//! stands for.
#![tactic(auto)]

mod decode;
mod entry;
mod forms;
mod register;

pub use decode::entry_of;
pub use entry::CodeEntry;
pub use register::{Destination, Source};
