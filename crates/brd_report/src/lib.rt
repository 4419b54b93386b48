//! What is written of a board: registers, words of memory, a fault, and the report.
//!
//! `specs/Report.antt` and `specs/Shown.antt` say the bytes, `specs/Output.antt` what was written of them where writing
//! fails.
#![tactic(auto)]

mod output;
mod reporting;
mod shown;

pub use output::write_whole;
pub use reporting::{report, show_number};
pub use shown::{show_context, show_fault};
