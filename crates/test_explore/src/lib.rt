//! Tests of searches through schedules: brd_explore.
#![tactic(auto)]

#[cfg(test)]
mod tests;
