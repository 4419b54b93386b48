//! Blocks: who may touch which word of RAM, which tasks are mortal, and what a step of a processor is by that: one that
//! nobody else can see, or one at which others may come between.
//!
//! `specs/Owning.antt` says who may touch a word, and `specs/Stepping.antt` what a step is.
#![tactic(auto)]

mod footprint;
pub mod laws;
mod learning;
mod look;
mod mortals;
mod owner;
mod owners;
mod sharing;
mod standing;
mod stepped;

pub use owner::Owner;
pub use sharing::Sharing;
pub use standing::stands_well;
pub use stepped::Stepped;
