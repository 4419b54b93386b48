//! Lent steps by words that are decoded once: a processor's local instructions, done apart from memory.
//!
//! A `Window` has the 64 words of code round an address as they lie in RAM. `Decoded` keeps the entries of words for
//! the next time, and does by them what `run_local` of brd_exec does by the words (`specs/Lent.antt` of brd_exec).
#![tactic(auto)]

mod decoded;
mod entries;
mod known;
mod registers;
mod window;

pub use decoded::Decoded;
pub use window::Window;
