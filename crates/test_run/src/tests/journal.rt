mod changed;
mod large;

use brd_board::Event;
use brd_journal::{Journal, JournalFault, Run};
use brd_word::Order;
use std::alloc::Global;
use std::test::Fail;
use test_help::{first_wrong_text, none_wrong};

/// The greatest count of a run.
const MOST: u32 = 4_294_967_295;

const EVENTS: &[Event] = &[
    Event::Step(1),
    Event::Step(1),
    Event::Step(1),
    Event::Tick,
    Event::Step(2),
    Event::Raise(4),
];

/// Appends events one by one, and returns how many were taken before the first that had no room.
fn push_all(journal: &mut Journal, events: &[Event]) -> usize {
    for (n, event) in events.iter().enumerate() {
        if journal.push(*event).is_err() {
            return n;
        }
    }
    events.len()
}

/// Whether the events of a journal are these.
fn has_events(journal: &Journal, events: &[Event]) -> bool {
    for (n, event) in events.iter().enumerate() {
        if journal.event_at(n as u64) != Some(*event) {
            return false;
        }
    }
    let len = events.len() as u64;
    journal.len() == len
        && journal.event_at(len).is_none()
        && journal.event_at(u64::MAX).is_none()
        && journal.is_empty() == events.is_empty()
}

/// Whether a journal is written as this text.
fn is_written(alloc: Global, journal: &Journal, text: &[u8]) -> bool {
    match journal.write_text(alloc) {
        Ok(written) => written.as_slice() == text,
        Err(_) => false,
    }
}

#[test]
fn appended(rt: HostRuntime) {
    let mut journal = Journal::new(rt.alloc(), 4, Order::Big);
    let text = b"board-journal 2 big\nS 1 3\nT 1\nS 2 1\nR 4 1\n";
    assert!(rt;
        has_events(&journal, &[])
            && push_all(&mut journal, EVENTS) == 6
            && has_events(&journal, EVENTS)
            && is_written(rt.alloc(), &journal, text)
    );
}

/// Whether an answer is that there is no room, or else that there was.
fn is_answer(answer: Result<(), JournalFault>, is_full: bool) -> bool {
    match answer {
        Ok(()) => !is_full,
        Err(fault) => is_full && fault == JournalFault::Full,
    }
}

/// The runs of the first four of `EVENTS`.
const FOUR: &[Run] = &[
    Run {
        event: Event::Step(1),
        count: 3,
    },
    Run {
        event: Event::Tick,
        count: 1,
    },
];

#[test]
fn appended_up_to_the_limit(rt: HostRuntime) {
    let mut journal = Journal::new(rt.alloc(), 2, Order::Big);
    assert!(rt;
        push_all(&mut journal, EVENTS) == 4
            && is_answer(journal.push(Event::Step(2)), true)
            && is_answer(journal.push(Event::Raise(4)), true)
            && journal.len() == 4
            && has_runs(&journal, FOUR)
    );
}

/// Whether a journal has these runs.
fn has_runs(journal: &Journal, runs: &[Run]) -> bool {
    journal.runs() == runs
}

/// A run that is appended, whether there is no room for it, and the runs of the journal then.
type Appended = (Event, u32, bool, &'static [Run]);

/// Appends runs. The first that is answered otherwise than it should, or leaves other runs.
fn first_other(journal: &mut Journal, rows: &[Appended]) -> Option<usize> {
    for (n, (event, count, is_full, runs)) in rows.iter().enumerate() {
        if !is_answer(journal.push_run(*event, *count), *is_full) || !has_runs(journal, runs) {
            return Some(n);
        }
    }
    None
}

const MOST_TICKS: Run = Run {
    event: Event::Tick,
    count: MOST,
};

const ONE_LESS: Run = Run {
    event: Event::Tick,
    count: MOST - 1,
};

const ONE_TICK: Run = Run {
    event: Event::Tick,
    count: 1,
};

const FULL_RUNS: &[Appended] = &[
    (Event::Tick, MOST - 1, false, &[ONE_LESS]),
    (Event::Tick, 0, false, &[ONE_LESS]),
    (Event::Tick, 1, false, &[MOST_TICKS]),
    (Event::Tick, 1, false, &[MOST_TICKS, ONE_TICK]),
    (Event::Tick, MOST - 2, false, &[MOST_TICKS, ONE_LESS]),
    (Event::Tick, 2, true, &[MOST_TICKS, ONE_LESS]),
    (Event::Step(0), 0, false, &[MOST_TICKS, ONE_LESS]),
    (Event::Step(0), 1, true, &[MOST_TICKS, ONE_LESS]),
];

/// Whether a journal has n events, of which the last is a tick.
fn ends_with_a_tick(journal: &Journal, len: u64) -> bool {
    journal.len() == len
        && len != 0
        && journal.event_at(len - 1) == Some(Event::Tick)
        && journal.event_at(len).is_none()
}

/// A run that has no room left, and what goes after it.
#[test]
fn full_runs(rt: HostRuntime) {
    let mut journal = Journal::new(rt.alloc(), 2, Order::Big);
    assert!(rt;
        first_other(&mut journal, FULL_RUNS).is_none() && ends_with_a_tick(&journal, 8_589_934_589)
    );
}

const MOST_RAISES: Run = Run {
    event: Event::Raise(7),
    count: MOST,
};

const FIVE: Run = Run {
    event: Event::Raise(7),
    count: 5,
};

const OF_ANOTHER: Run = Run {
    event: Event::Raise(6),
    count: MOST,
};

const RUNS_ACROSS: &[Appended] = &[
    (Event::Raise(7), 5, false, &[FIVE]),
    (Event::Raise(7), MOST, false, &[MOST_RAISES, FIVE]),
    (
        Event::Raise(6),
        MOST,
        false,
        &[MOST_RAISES, FIVE, OF_ANOTHER],
    ),
];

/// A run that goes past the room of the last one.
#[test]
fn runs_across(rt: HostRuntime) -> Result<(), Fail> {
    let mut journal = Journal::new(rt.alloc(), 3, Order::Big);
    none_wrong(first_other(&mut journal, RUNS_ACROSS))
}

const NO_RUNS: &[Appended] = &[(Event::Tick, 1, true, &[]), (Event::Tick, 0, false, &[])];

/// A journal that takes nothing.
#[test]
fn no_runs(rt: HostRuntime) {
    let mut journal = Journal::new(rt.alloc(), 0, Order::Little);
    assert!(rt;
        first_other(&mut journal, NO_RUNS).is_none()
            && is_written(rt.alloc(), &journal, b"board-journal 2 little\n")
    );
}

/// Each fault, as it reads.
const TEXTS: &[(JournalFault, &str)] = &[
    (JournalFault::NoMemory, "out of memory"),
    (
        JournalFault::Full,
        "its events need more runs than its limit",
    ),
    (
        JournalFault::Syntax { line: 3 },
        "line 3: expected `board-journal 2 big` or `board-journal 2 little` first, then lines `S CPU COUNT`, `T COUNT` and `R LINE COUNT`",
    ),
];

#[test]
fn faults(rt: HostRuntime) -> Result<(), Fail> {
    none_wrong(first_wrong_text(rt.alloc(), TEXTS))
}
