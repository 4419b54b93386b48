//! A run as a page: one file of HTML that shows the board at each position of a journal, in a browser, without a
//! network.
//!
//! The page has the picture of the run, and its data as JSON; its script makes the states of the board from them.
//! `specs/Data.antt` says how text stands among the data, so that no name becomes a part of the page itself.
#![tactic(auto)]

mod changes;
mod data;
mod event;
mod fault;
mod listing;
mod picture;
mod recorder;
mod run_page;
mod seen;
mod template;
mod told;
mod verdicts;
mod words;

pub use fault::PageFault;
pub use picture::draw;
pub use run_page::{ALWAYS_SHOWN, MOST_BYTES, MOST_EVENTS, Part, page};
