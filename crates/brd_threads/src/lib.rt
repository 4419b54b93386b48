//! Boards on which a thread of the host works for each processor, and one for what comes from outside.
//!
//! What the threads share is a `Station` under one lock: a board, the journal of all that has happened to it, and a
//! script of ticks and interrupts. Its type says that the board is what its boot and its journal make, whichever way
//! the threads took their turns (`IsReplay` in `specs/Station.antt`). `race` lets them run; `specs/Races.antt` says
//! what it answers. `specs/Script.antt` says how the text of a script is read.
#![tactic(auto)]

mod boards;
mod ended;
mod fault;
mod gate;
pub mod laws;
mod outer;
mod races;
mod script;
mod station;
mod workers;

pub use boards::processors;
pub use brd_ledgers::{Blanks, Race, Share};
pub use fault::{CommitFault, RaceFault, ScriptFault, StationFault};
pub use gate::{Gate, Open};
pub use outer::Outer;
pub use races::race;
pub use script::{MOST_ENTRIES, read_script};
pub use station::Station;
pub use workers::{driver, worker};
