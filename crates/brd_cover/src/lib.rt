//! How often a run executed what: counts of addresses, and the calls of each task and handler, told by lines, functions
//! and branches in lcov's format (`lcov`), and by functions in Callgrind's (`callgrind`).
#![tactic(auto)]

mod callgrind;
mod calls;
mod code;
mod counting;
mod counts;
mod edges;
mod found;
mod lcov;
mod record;
mod stacks;
mod text;
mod whole;

pub use callgrind::put_callgrind;
pub use counting::Counting;
pub use counts::{Count, Counts};
pub use lcov::put_lcov;
pub use whole::Sources;
