//! What a request comes to with data: files whose bytes lie in memory before the board starts.
//!
//! `--data` makes another object file of the one that a command reads, and the command does with that what it does with
//! any. `specs/Data.antt` says which object file, and of which files; `specs/Laid.antt` how the command comes to read
//! it; `specs/Performing.antt` how the request ends.
#![tactic(auto)]

mod fault;
mod laid;
mod object;
mod part;
mod performing;
mod pieces;

pub use fault::{DataFault, DataProblem};
pub use laid::{Laid, LaidInput, Text, TextReader};
pub use performing::perform_with_data;
