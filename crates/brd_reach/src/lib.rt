//! Whether a schedule of a board fails, however many events and preemptions it has: by a search through all boards to
//! which events lead, but for those on which only some instruction is done that nobody else can see.
//!
//! `specs/Reaching.antt` says of which trees of boards it follows that no schedule fails; `specs/Endless.antt` what it
//! means that none comes to an end; `specs/Rounds.antt` what a search has done at a place.
#![tactic(auto)]

mod block;
mod endless;
mod held;
pub mod laws;
mod round;
mod searching;
pub mod step;
mod stop;
mod unknown;
mod visit;
mod ways;

pub use endless::{never_ends, rest_of, show_all};
pub use held::{Final, Held};
pub use searching::{Reached, guarded, learn, owned_words, ram_len, reach};
pub use unknown::Unknown;
