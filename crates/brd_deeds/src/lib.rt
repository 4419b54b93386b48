//! What the events of a run do to each other's order, as deeds: who does them, which words they touch, and what they
//! acquire and release.
//!
//! `specs/Acts.antt` has the table of what orders tasks and handlers, and `specs/Deeds.antt` says which deeds an event
//! comes to, by what happens in it and what is remembered of those before it. `Racing` plays a journal and takes them
//! in their order, so that the races that it tells are those of the run.
#![tactic(auto)]

mod acts;
mod calls;
mod deeds;
mod log;
mod past;
mod places;
mod racing;
mod table;
mod thing;
mod touch;
mod trails;

pub use log::Log;
pub use past::{Hold, Past, Ring, Stamp, Trail};
pub use racing::Racing;
pub use thing::{Thing, ThingKind};
