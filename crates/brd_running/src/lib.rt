//! The commands that tell nothing of runs in words, over readers, writers and files: `words`, `asm`, `run`, `race`,
//! `debug`, `explore` and `shrink`.
//!
//! `specs/WordsCommand.antt`, `specs/AsmCommand.antt`, `specs/RunCommand.antt`, `specs/RaceCommand.antt`,
//! `specs/Debugging.antt`, `specs/ExploreCommand.antt` and `specs/ShrinkCommand.antt` say what a command writes for
//! what it reads, and which faults keep it from that; `specs/Files.antt` (the last two themselves) which files are
//! opened, and in which order.
#![tactic(auto)]

mod asm_command;
mod debug_answer;
mod debug_command;
mod debug_line;
mod explore_command;
mod idling;
pub mod laws;
mod lines;
mod meter;
mod mistakes;
mod progress;
mod race_command;
mod run_command;
mod saving;
mod shrink_command;
mod turns;
mod warnings;
mod word_text;
mod words_command;

pub use asm_command::{asm, asm_files, object_file};
pub use debug_command::{debug, debug_files};
pub use explore_command::{explore, explore_files};
pub use lines::{Taken, next_byte};
pub use mistakes::with_others;
pub use progress::PIECE;
pub use race_command::{race, race_files};
pub use run_command::{run, run_files};
pub use saving::save;
pub use shrink_command::{ShrinkOptions, shrink, shrink_files};
pub use warnings::warn_of_source;
pub use words_command::words;
