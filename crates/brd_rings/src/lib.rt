//! Rings of nodes that are linked by index: a node enters at the end of a ring, leaves it, and the head goes to the
//! end, each by a few writes, however many nodes there are.
//!
//! `specs/Rings.antt` says what each call makes of the rings.
#![tactic(auto)]

mod link;
mod rings;

pub use rings::Rings;
