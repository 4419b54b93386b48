//! What is told of searches.

use super::sources::{APART, DEADLOCK, LOST_UPDATE, REPAIRED, TWO};
use brd_base::NoMemory;
use brd_board::Board;
use brd_explore::Nobody;
use brd_image::build;
use brd_search::{
    Looks, Plan, SearchOptions, Searched, Sizes, plan_of, put_found, put_none, search,
};
use std::alloc::Global;
use std::test::Fail;
use std::thread::Threads;
use test_help::none_wrong;

/// A search and what is told of it.
struct Case {
    source: &'static str,
    config: &'static str,
    events: u32,
    preemptions: u32,
    fair: u32,
    looks: Looks<'static>,
    told: &'static str,
}

const NOTHING: Looks = Looks {
    exception: false,
    deadlock: false,
    on: false,
    words: None,
    console: None,
    reach: None,
    never: None,
};

const LOST: Looks = Looks {
    words: Some("0x80000000=2"),
    ..NOTHING
};

const DEAD: Looks = Looks {
    deadlock: true,
    ..NOTHING
};

const NEVER: Looks = Looks {
    never: Some("1 + 0x2 == 3, 4294967295 + 4294967295 < 4294967295"),
    ..NOTHING
};

const UNSEEN: Looks = Looks {
    never: Some("1 + 2 != 3,4294967295 + 1 <= 0"),
    ..NOTHING
};

const CASES: &[Case] = &[
    Case {
        source: LOST_UPDATE,
        config: TWO,
        events: 60,
        preemptions: 2,
        fair: 0,
        looks: NEVER,
        told: "after 0 events: 1 + 2 == 3, as 1 + 2 == 3
",
    },
    Case {
        source: REPAIRED,
        config: TWO,
        events: 60,
        preemptions: 1,
        fair: 0,
        looks: UNSEEN,
        told: "24 schedules fails: at most 60 events, 1 preemption, 0 ticks and 0 raises
looked for: 1 + 2 != 3, 4294967295 + 1 <= 0
24 came to an end, none was cut short
",
    },
    Case {
        source: LOST_UPDATE,
        config: TWO,
        events: 60,
        preemptions: 2,
        fair: 0,
        looks: LOST,
        told: "after 20 events: the word at 80000000 is 1, not 2
       0  processor 1 goes on at 80000010
       3  processor 1 stops before addiu $t0, $t0, 1 at 8000001c; processor 2 goes on at 80000010
      13  processor 1 goes on at 8000001c
",
    },
    Case {
        source: LOST_UPDATE,
        config: TWO,
        events: 60,
        preemptions: 2,
        fair: 1,
        looks: LOST,
        told: "after 0 events and the fair end: the word at 80000000 is 1, not 2
",
    },
    Case {
        source: REPAIRED,
        config: TWO,
        events: 60,
        preemptions: 1,
        fair: 0,
        looks: LOST,
        told: "24 schedules fails: at most 60 events, 1 preemption, 0 ticks and 0 raises
looked for: 80000000 that isn't 2 at the end
24 came to an end, none was cut short
",
    },
    Case {
        source: DEADLOCK,
        config: APART,
        events: 60,
        preemptions: 2,
        fair: 0,
        looks: DEAD,
        told: "after 12 events: a deadlock: nobody goes on, and a task waits
       0  processor 1 goes on at 80000000
       3  processor 1 stops before addiu $a0, $zero, 2 at 8000000c; processor 2 goes on at 80000020
       9  processor 1 goes on at 8000000c
",
    },
];

/// What is told of the search of a case.
fn told_of<T: Threads + Sync>(rt: &T, alloc: Global, case: &Case) -> Option<Vec<u8>> {
    let board = build(alloc, case.source.as_bytes(), case.config.as_bytes()).ok()?;
    let plan = plan_of(alloc, &options_of(case), &board, 2, &[]).ok()?;
    let searched = search(rt, alloc, &board, &plan, &mut Nobody).ok()?;
    let mut out = Vec::new(alloc);
    told(alloc, &board, &plan, &searched, &mut out).ok()?;
    Some(out)
}

/// The options of a case.
fn options_of(case: &Case) -> SearchOptions<'static> {
    SearchOptions {
        sizes: Sizes {
            events: case.events,
            preemptions: case.preemptions,
            ticks: 0,
            fair: case.fair,
        },
        raises: None,
        lines: None,
        looks: case.looks,
        shortest: true,
        shard: None,
        remember: 0,
        time: 0,
        threads: 0,
        places: 0,
        livelock: false,
        finals: false,
        lazy: 0,
        memory: 0,
        values: None,
        only: None,
        raises_at: None,
    }
}

/// Tells of a search: what fails, and the switches of the schedule that it has found; or that there is none.
fn told(
    alloc: Global,
    board: &Board,
    plan: &Plan,
    searched: &Searched,
    out: &mut Vec<u8>,
) -> Result<(), NoMemory> {
    let Some(events) = &searched.schedule else {
        return put_none(alloc, &[], plan, searched.lazily, searched.counts, out);
    };
    put_found(alloc, &[], board, &plan.wanted, events, out)
}

/// The first case of which something else is told.
fn first_wrong<T: Threads + Sync>(rt: &T, alloc: Global) -> Option<usize> {
    for (row, case) in CASES.iter().enumerate() {
        let told = told_of(rt, alloc, case);
        if told.as_deref() != Some(case.told.as_bytes()) {
            return Some(row);
        }
    }
    None
}

/// The lost update and the deadlock are told by their switches, and by what fails; where nothing fails, the bounds are.
#[test]
fn searches_are_told(rt: HostRuntime) -> Result<(), Fail> {
    none_wrong(first_wrong(&rt, rt.alloc()))
}
