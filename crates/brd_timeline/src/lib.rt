//! A run as a timeline, without regard to what made it, and its two pictures: `json` in the trace event format, which
//! Perfetto and chrome://tracing read, and `svg`.
#![tactic(auto)]

mod axis;
mod cpus;
mod escape;
mod fault;
mod layout;
mod legend;
mod locks;
mod mark;
mod mutexes;
mod number;
mod picture;
mod slice;
mod timeline;
mod trace_events;
mod turns;

pub use fault::PictureFault;
pub use layout::MOST_DRAWN;
pub use picture::svg;
pub use timeline::{
    Group, Hold, Kind, Lane, Mark, MarkKind, Owning, Slice, Spinning, Timeline, Turn,
};
pub use trace_events::json;
