//! What the commands of the program `board` read: files that are opened by their names, inputs that are read whole,
//! what a command over a board starts with, and the faults with which a command ends.
//!
//! `specs/Opening.antt` says which files are opened, and in which order; `specs/Input.antt` and `specs/Start.antt` what
//! is read, and what keeps it from that; `specs/Faults.antt` the status of each fault.
#![tactic(auto)]

mod clue;
mod diagnosis;
mod excerpt;
mod fault;
mod file_kind;
mod files;
mod growing;
mod input;
mod input_name;
mod inputs;
mod schedule_fault;
mod start;
mod trace_fault;
mod words_fault;

pub use brd_hints::{
    end_warning, mended_source, overflow_warning, run_warning, runaway_warning, source_hint,
    source_warnings,
};
pub use brd_image::Loaded;
pub use clue::Clue;
pub use excerpt::Excerpt;
pub use fault::CommandFault;
pub use file_kind::{FileKind, is_object_file, other_kind};
pub use files::Files;
pub use growing::{put, put_all};
pub use input::{MOST_BYTES, MOST_READS, read_whole};
pub use input_name::InputName;
pub use inputs::{Inputs, Pair, Texts, open_inputs, open_pair, read_inputs};
pub use schedule_fault::ScheduleFault;
pub use start::{
    RaceStart, Start, make_start, read_board, read_race_start, read_sourced_start, read_start,
};
pub use trace_fault::TraceFault;
pub use words_fault::WordsFault;
