//! Tests of the crates below the machine: brd_base, brd_lanes, brd_link, brd_mem, brd_queue, brd_ranges, brd_text and
//! brd_time.
#![tactic(auto)]

#[cfg(test)]
mod tests;
