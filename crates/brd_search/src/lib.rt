//! What is asked of a search through schedules, and what is told of it.
//!
//! `specs/Plans.antt` says which search options ask for, and what may be wrong with them; `specs/Searches.antt` what a
//! search answers; `specs/Shown.antt` after which events a board shows what fails.
#![tactic(auto)]

mod coming;
mod conditions;
mod console;
mod fault;
mod goals;
pub mod laws;
mod options;
mod plan;
mod raises;
mod regions;
mod searching;
mod shown;
mod told;
mod values;
mod wanting;

pub use fault::{RegionFault, SearchFault};
pub use options::{Looks, SearchOptions, Sizes};
pub use plan::{Plan, plan_of};
pub use raises::Raises;
pub use searching::{NoAnswer, Searched, search};
pub use shown::shown_events;
pub use told::{
    Extent, put_all_hold, put_failure, put_final, put_final_count, put_found, put_hung, put_none,
    put_schedule,
};
pub use wanting::wanted_of;
