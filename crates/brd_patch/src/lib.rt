//! Object files with data in memory: other bytes stand in places of what they load.
//!
//! `specs/Data.antt` says what data makes of a memory and of an image, and which object file has data; the law says
//! that the board of such a file is the board of the file without, with its memory as the data makes it.
#![tactic(auto)]

mod fault;
mod file;
pub mod laws;
mod pieces;
mod same;
mod sections;

pub use fault::PatchFault;
pub use file::patched;
pub use sections::{holds_instructions, size_of_symbol};
