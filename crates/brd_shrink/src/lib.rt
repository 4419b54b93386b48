//! Fewer events of a list that fails, and then fewer switches: turns of a processor are moved next to others.
#![tactic(auto)]

mod moving;
mod settling;
mod turns;

pub use settling::shrink;
pub use turns::switches;
