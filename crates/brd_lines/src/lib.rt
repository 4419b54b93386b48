//! What an object file says of its source: by its line table which line of which file the code at an address stands
//! for, and by its symbols where its functions lie.
//!
//! Line tables are those of DWARF 2 to 5 in their 32-bit form (`.debug_line`), as GCC and Clang make them. Nobody
//! vouches for a file: one whose table is damaged is read as if it had none.
#![tactic(auto)]

mod cursor;
mod flaw;
mod functions;
mod gathered;
mod lines;
mod program;
mod reading;
mod sections;
mod unit;

pub use functions::{Function, read_functions};
pub use lines::{Lines, Place, Stretch};
pub use reading::{Source, read_lines};
