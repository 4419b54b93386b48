//! A search by several threads of the host. A shard is dealt out to parts; each thread searches one part after the other,
//! always the next one that nobody has taken.
//!
//! `specs/Parts.antt` says what a part is, and `laws` that the parts are the whole.
#![tactic(auto)]

mod crew;
pub mod laws;
mod part;
mod sharing;

pub use crew::find_by_threads;
