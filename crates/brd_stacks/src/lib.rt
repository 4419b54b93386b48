//! How deep a run's stacks became: where the stacks of a board's tasks and handlers lie, what each event does to them,
//! and the deepest point of each, in words.
//!
//! `specs/Points.antt` says which point an event comes to, and `specs/Laid.antt` where stacks lie. `Following` plays a
//! journal and takes its points in their order, so that what it tells of each stack is what `specs/Depths.antt` says of
//! the run.
#![tactic(auto)]

mod following;
mod laid;
mod point;
mod stack;
mod text;
mod track;

pub use following::Following;
pub use laid::stacks_of;
pub use point::point_of;
pub use stack::{Point, Stack, Store};
pub use text::put_stacks;
pub use track::{Track, follow, has_overflow, tracks_of};
