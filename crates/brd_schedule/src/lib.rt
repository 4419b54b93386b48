//! Journals that are made by a rule: who takes the next step, and when a tick or an interrupt line comes.
//!
//! `specs/Schedule.antt` says which lists of events a plan allows, and which one it makes; `specs/Steps.antt` who takes
//! the steps by the plan's rule: in turns, drawn at random, or by priorities that are lowered at random places.
#![tactic(auto)]

mod chooser;
mod drawn;
mod lowered;
mod making;
mod plan;

pub use making::make;
pub use plan::{MOST_CHANGES, Plan, Raise, Rule};
