//! Tests of brd_spins.
#![tactic(auto)]

#[cfg(test)]
mod tests;
