//! What is found of how a board stands after a run: whether it is deadlocked, which tasks wait for each other, which
//! step of each processor was the last that did something, which calls were refused, and which raises had no effect.
//!
//! `specs/Deadlock.antt` says what a deadlock is, `specs/Circle.antt` what a circular wait, `specs/Steps.antt` what a
//! last step, and `specs/Accounts.antt` what is counted.
#![tactic(auto)]

mod accounts;
mod answers;
mod changed;
mod circle;
mod deadlock;
mod did_nothing;
mod losses;
mod refusals;
mod steps;
mod units;

pub use accounts::Accounts;
pub use circle::{Wait, circular_wait};
pub use deadlock::is_deadlocked;
pub use losses::{Losses, LostRaises};
pub use refusals::{Refusals, Refused};
pub use steps::{Findings, findings_of};
pub use units::{Lock, Unit, Units, is_same};
