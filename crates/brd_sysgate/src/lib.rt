//! The gate of service calls: which call the registers ask for, whether it may come from there, and how its answer is
//! written.
//!
//! `specs/Gate.antt` has the table of numbers, names, arguments and places.
#![tactic(auto)]

mod gate;
pub mod laws;
mod place;
mod syscall;

pub use gate::{Agent, Caller, read, service, write};
pub use place::{Asked, Place, Service};
pub use syscall::call;
