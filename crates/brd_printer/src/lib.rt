//! The lines of a trace: what an instruction did, or why it raised an exception, whose links an event ended, and which
//! lines are shown.
//!
//! `specs/Telling.antt` says what is told of each event of a journal.
#![tactic(auto)]

mod cause;
mod concerns;
mod effect;
mod links;
mod printer;
mod words;

pub use cause::{Raised, exception_name};
pub use concerns::{chosen_standing, does_other};
pub use effect::{Form, Part, put_done};
pub use links::{Links, linked_on};
pub use printer::{Manner, Options, Printer};
pub use words::{WordsFault, add_words};
