//! Tests of instructions and addresses as text.
//!
//! A function answers the first row that isn't right, by its number from 0 on, and a test fails by `none_wrong`, which
//! says it.
#![tactic(auto)]

#[cfg(test)]
mod tests;
