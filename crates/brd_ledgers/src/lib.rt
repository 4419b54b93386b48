//! Counts that threads share: for each of up to eight processors a tally, which lies under a lock, and the one share of
//! it, which that processor's thread keeps. Whoever holds both knows that they have counted the same.
//!
//! A processor's tally and share are of one ledger of std's, and a ledger is a type. `Race` stands for the eight of one
//! station: all that counts for it is generic in `K: Race`. Who calls such a function at `Brand` picks the ledgers'
//! names in its proof, as those of the blanks that it gives (`names_of` in `specs/Blanks.antt`).
#![tactic(auto)]

mod blanks;
mod books;
mod ledger;
mod share;
mod tally;

pub use blanks::Blanks;
pub use books::{Books, open_books};
pub use ledger::{Eighth, Fifth, First, Fourth, Race, Second, Seventh, Sixth, Third};
pub use share::Share;
pub use tally::{Hold, Tally, opened};
