//! Schedules within bounds that keep to regions of instructions: a step preempts another processor only if the next
//! instruction of that lies in some of them, a line is raised only while that of some processor does. If one fails, it
//! is found.
//!
//! `specs/Only.antt` says which schedules keep to the regions, and what it means that none of them fails.
#![tactic(auto)]

mod finding;
mod region;
mod visit;
mod walk;
mod words;

pub use finding::{Inside, Unknown, find_inside};
pub use region::{Region, Regions};
