//! What happens in an event, as a value between the board and the text that is told of it.
//!
//! `specs/Happening.antt` says what happens, by the board before the event and the one after it. `Before::of` reads
//! what is needed before the event, and `Before::happening` tells exactly that after it.
#![tactic(auto)]

mod before;
mod call;
mod cause;
mod found;
mod happening;
mod instruction;
pub mod laws;
mod release;
mod rung;

pub use before::Before;
pub use call::{Answer, CallMade};
pub use cause::Cause;
pub use found::Found;
pub use happening::{Exception, Happening, What, Why};
pub use instruction::{Access, AccessKind, Change, Instruction, Jump, Written};
pub use release::{AskedCall, Release, Waiter};
pub use rung::Rung;
