//! Tests of brd_command: its commands over readers, writers and files that fail where they are told to.
#![tactic(auto)]

#[cfg(test)]
mod tests;
