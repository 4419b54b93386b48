//! Diagnoses: what is wrong with the line that a fault names, in words that say what to write.
//!
//! Which fault an input has, and in which line, is said by the definitions of who reads it. A diagnosis looks at that
//! line again, by what the readers export, and makes the text of a message. Nothing rests on it: where it finds
//! nothing, or is refused memory, the message is the fault's own. Its own tables say what to write in the place of what
//! isn't there. It takes time in proportion to the input.
#![tactic(auto)]

mod boot;
mod configuration;
mod ended;
mod finding;
mod hint;
mod idle;
mod instead;
mod journal;
mod keywords;
mod mending;
mod names;
mod object_file;
mod operands;
mod operations;
mod places;
mod registers;
mod scan;
mod source;
mod statements;
mod values_of;
mod warnings;

pub use boot::boot_hint;
pub use configuration::config_hint;
pub use ended::{end_warning, overflow_warning, runaway_warning};
pub use hint::FaultHint;
pub use idle::run_warning;
pub use journal::{journal_hint, script_hint};
pub use mending::mended_source;
pub use object_file::object_file_hint;
pub use source::source_hint;
pub use warnings::source_warnings;
