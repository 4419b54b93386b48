//! Which processors of a board spin after a journal's events: left alone, such a processor does the same few
//! instructions for ever, and they change nothing, or its task or handler asks again and again for a spin lock that is
//! held.
//!
//! `specs/Spins.antt` says what it is to spin, and `specs/Since.antt` since when. `spins` lets each processor go on
//! alone on a copy of a board that has played a journal, and plays the journal once more where some spin.
#![tactic(auto)]

mod looping;
mod spin;
mod spinning;
mod text;
mod turn;
mod watching;

pub use spin::{Spin, SpinKind};
pub use spinning::spins;
pub use text::put_spins;
