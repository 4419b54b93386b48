//! The lane-wise scans beside plain loops.
//!
//! Without an argument it prints what both answer on a few inputs. With the argument `time` it
//! prints how long each takes.
#![tactic(auto)]

mod bed;
mod plain;
mod timing;

use std::{env, io};

fn main(rt: HostRuntime) -> io::Result<()> {
    let wants_times = env::args(&rt)?.skip(1).any(|word| word.as_str() == "time");
    if wants_times {
        timing::print_times(&rt)
    } else {
        bed::print_answers(&rt)
    }
}
