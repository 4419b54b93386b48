//! Tests of brd_threads.
#![tactic(auto)]

#[cfg(test)]
mod tests;
