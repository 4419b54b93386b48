//! All schedules of a board within bounds: one that fails, or the answer that there is none.
#![tactic(auto)]

mod asleep;
mod bounds;
mod condition;
mod known;
pub mod laws;
mod order;
mod search;
mod shard;
mod shrinking;
mod wanted;

pub use bounds::{Bounds, did_nothing, stepper};
pub use condition::{Comparison, Condition, Term};
pub use search::{Counts, Found, Halt, Nobody, Watch, find};
pub use shard::{Shard, find_in_shard};
pub use shrinking::{fails, shrink};
pub use wanted::{Ending, Failure, Wanted, is_at_rest, is_cut, is_end, some_are_due};
