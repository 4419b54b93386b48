//! What happens on a board under a journal, in words: a line for each event that is more than an ordinary instruction,
//! and a summary of what stands at the end.
//!
//! Its board plays a journal as `specs/Playing.antt` of brd_journal says: no event is left out, none comes in between.
#![tactic(auto)]

mod marks;
mod notes;
mod playback;
mod source;
mod told;
mod tracer;

pub use notes::{LastFault, Notes};
pub use tracer::Tracer;
