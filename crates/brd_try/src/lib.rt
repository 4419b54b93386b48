//! What `board try` does of an object file: it makes a configuration and a journal, lets the board take turns until
//! nothing is left to do, and tells what came of it.
//!
//! `specs/Config.antt` has the configuration, `specs/Turns.antt` the turns and where they end, `specs/Told.antt` the
//! text, and `specs/Tries.antt` how they stand together.
#![tactic(auto)]

mod arrivals;
mod config;
mod labels;
mod made;
mod options;
mod past;
mod summary;
mod told;
mod trying;
mod turning;
mod words;

pub use options::TryOptions;
pub use trying::{Tried, try_object};
