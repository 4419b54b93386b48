//! The debugger: shows the board after any number of a journal's events, and searches forward and backward for the
//! events at which it stops.
//!
//! `specs/Debugger.antt` says what it shows, `specs/Stops.antt` where it stops.
#![tactic(auto)]

mod debugger;
mod fault;
mod look;
mod marks;
mod playback;
mod search;
mod snapshots;
mod spare;
mod stops;
mod touching;

pub use debugger::Debugger;
pub use fault::DebugFault;
pub use look::Look;
pub use stops::{Only, Stepper, stepped_on};
pub use touching::{read_on, written_on};
