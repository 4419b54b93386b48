//! What several layers of the board share: lists that contracts see as lists, lack of memory, copies with room, exact
//! comparisons, and the bounds of the address space.
#![tactic(auto)]

mod list;
mod no_memory;
mod room;
mod same;
mod space;

pub use list::List;
pub use no_memory::NoMemory;
pub use room::copy_with_room;
pub use same::{Same, same_slices};
pub use space::{BASE, TOP, is_ram_size};
