//! Tests of the machine and its kernel: brd_exec, brd_objects, brd_tasks, brd_timers, brd_kernel, brd_sysgate,
//! brd_board.
#![tactic(auto)]

#[cfg(test)]
mod tests;
