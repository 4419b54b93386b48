//! What text calls the things of a board: addresses by their symbols, the lines of their source and what is loaded
//! there, who executes, the states and waits of tasks; what stands before the text of a line; many events that change
//! nothing as one line; and data races.
#![tactic(auto)]

mod line;
mod names;
mod races;
mod standings;
mod stretch;
mod text;
mod waits;

pub use line::{HEAD, Heading, put_who};
pub use names::Names;
pub use races::put_races;
pub use standings::{Standings, put_standing};
pub use stretch::{Quiet, Spinner, Stretch};
pub use text::{
    printable, put, put_blanks, put_called, put_comma, put_count, put_named, put_number,
    put_signed, put_word,
};
pub use waits::{put_wait, state_name};
