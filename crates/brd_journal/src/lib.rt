//! Journals: lists of events, kept as runs of equal events, and their text.
//!
//! A contract sees a journal as its limit and its list of events (`specs/Journal.antt`). `specs/Runs.antt` says which
//! runs a list of events has, `specs/Text.antt` what the text of a journal is, and `specs/Reading.antt` how a text is
//! read: line by line, up to the first line that has a fault. `specs/Meaning.antt` says what a text means without
//! reading it. `specs/Playing.antt` says what it is for a board to play a journal.
#![tactic(auto)]

mod fault;
mod journal;
pub mod laws;
mod line;
mod playback;
mod reading;
mod run;
mod runs;
mod writing;

pub use fault::JournalFault;
pub use journal::{Journal, MOST_RUNS};
pub use line::{order_of_line, run_of_line, split_field};
pub use playback::{Moved, Playback};
pub use reading::read_text;
pub use run::Run;
