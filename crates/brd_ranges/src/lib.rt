//! Ranges of addresses that lie apart, by which it is seen at once whether one more would lie over one of them.
#![tactic(auto)]

mod range;
mod ranges;

pub use range::Range;
pub use ranges::Ranges;
