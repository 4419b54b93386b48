//! What a debugger of the board answers to each request of GDB.
//!
//! `specs/Registers.antt` and `specs/Reading.antt` say what is read of the board, `specs/Hits.antt` and
//! `specs/Moving.antt` where a move ends, `specs/Reasons.antt` why, and whose thread that is, and
//! `specs/Selecting.antt` which threads requests are of.
#![tactic(auto)]

mod answer;
mod exceptions;
mod halt;
pub mod laws;
mod marks;
mod memory;
mod monitor;
mod moves;
mod points;
mod registers;
mod seeking;
mod selection;
mod session;
mod stepping;
mod telling;
mod thread_texts;
mod threads;

pub use answer::Answer;
pub use session::Session;
