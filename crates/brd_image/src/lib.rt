//! From source to board: a source is assembled, its object file written and read again, a configuration parsed, and the
//! board booted.
//!
//! `specs/Building.antt` says which board a source, an object file and a configuration make, or which fault comes
//! first; `specs/Headline.antt` joins the source's instructions, the file's words and the board after any events. The
//! laws of brd_command say it of the program's commands.
#![tactic(auto)]

mod building;
mod fault;

pub use building::{Loaded, build, load, load_with_parts};
pub use fault::BuildFault;
