//! What an event reads and writes of a board, and so which events may change places.
#![tactic(auto)]

pub mod laws;
