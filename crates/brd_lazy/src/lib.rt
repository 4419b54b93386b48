//! Lazy schedules within bounds: if one fails, a lazy one does, on which agents do what nobody else can see only when
//! they go on to what others may see.
//!
//! `specs/Blocks.antt` says what blocks are, `specs/Lazy.antt` which schedules are lazy, `specs/Trees.antt` through
//! which places a search has to go, and which it may leave out.
#![tactic(auto)]

mod block;
mod crew;
mod finding;
mod finds;
pub mod laws;
mod part;
mod round;
mod settle;
mod stops;
mod twins;
mod visit;

pub use finding::{Gone, Lazily, find_lazily};
pub use stops::Stops;
