//! Tests of runs from a source to a board, and of journals: brd_image, brd_journal.
#![tactic(auto)]

#[cfg(test)]
mod tests;
