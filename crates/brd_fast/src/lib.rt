//! Many steps of one processor, by a loop over words that are decoded once.
//!
//! `go` does what as many steps would do one after the other, and leaves to others whatever isn't ordinary.
#![tactic(auto)]

mod branches;
mod entries;
mod known;
mod line;
mod memory;
mod registers;
mod steps;
mod table;

pub use steps::go;
pub use table::Table;
