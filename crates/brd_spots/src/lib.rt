//! Places through which searches within bounds go, and which of them cover others; and schedules that are played event
//! by event.
//!
//! `specs/Spots.antt` says what a place is, and when another one covers it, `specs/Playing.antt` what it means that an
//! event is played.
#![tactic(auto)]

mod playing;
mod seats;
mod spots;

pub use playing::{is_found, play};
pub use seats::Seats;
pub use spots::{Margin, Spots, is_enough};
