//! The order of what is done in a run, and the words of memory of which two touches have none: data races.
//!
//! `specs/Order.antt` says what comes before what in a list of deeds, and what a race is. `Order` takes deeds one after
//! the other and finds exactly the races that `specs/Races.antt` calls first, by vector clocks.
#![tactic(auto)]

mod clock;
mod deed;
mod fault;
mod marks;
mod order;
mod races;
mod strands;
mod things;

pub use deed::{Act, Deed, Mark, Race, Touch};
pub use fault::OrderFault;
pub use order::Order;
