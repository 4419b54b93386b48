//! The places through which a search goes: of each it is kept how it came from an earlier one, and now and then the
//! pages of RAM in which it differs from the start.
//!
//! `specs/Places.antt` says which board and what is left each place is. `Places::find` compares exactly; by its mark
//! alone no place is taken for another one.
#![tactic(auto)]

mod entry;
mod kept;
mod left;
mod marks;
mod path;
mod places;
mod seat;
mod table;

pub use left::Left;
pub use marks::{memory_of, mix};
pub use places::Places;
pub use seat::copy_over;
