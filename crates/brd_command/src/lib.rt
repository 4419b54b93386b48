//! The commands of the program `board`, over readers, writers and files: those that tell of runs in words, `journal`,
//! and what a request comes to. The others are brd_running's.
//!
//! `specs/TraceCommand.antt`, `specs/JournalCommand.antt`, `specs/GdbCommand.antt` and `specs/TryCommand.antt` say what
//! a command writes for what it reads, and which faults keep it from that; `specs/TraceFiles.antt` (the others
//! themselves) which files are opened, and in which order.
#![tactic(auto)]

mod gdb_command;
mod gdb_history;
mod gdb_input;
mod gdb_server;
mod journal_command;
mod journal_options;
pub mod laws;
mod odd_ends;
mod races_command;
mod request;
mod stacks_command;
mod trace_command;
mod trace_counts;
mod trace_lines;
mod trace_options;
mod trace_pages;
mod try_command;

pub use brd_inputs::{CommandFault, Files, Inputs, Pair};
pub use brd_progress::{Progress, Quiet};
pub use brd_running::{
    ShrinkOptions, asm, asm_files, debug, debug_files, explore, explore_files, race, race_files,
    run, run_files, shrink, shrink_files, words,
};
pub use brd_search::{Looks, SearchOptions, Sizes};
pub use brd_threads::{Blanks, Race};
pub use brd_try::TryOptions;
pub use brd_word::Order;
pub use gdb_command::{gdb, gdb_files};
pub use journal_command::journal;
pub use journal_options::JournalOptions;
pub use request::{Request, perform};
pub use trace_command::{trace, trace_files};
pub use trace_options::{TraceFormat, TraceOptions};
pub use try_command::try_files;
