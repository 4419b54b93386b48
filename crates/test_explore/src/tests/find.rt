//! What a search answers, and how many schedules it tries.

ghost use Rattle.std.specs.Prelude.{◌<◌};

use super::sources::{
    APART, DEADLOCK, LONG, LOOP, LOST_UPDATE, PETERSON, PETERSON_SWAPPED, REPAIRED, SAMPLED,
    STARTED, STOPPED, TWO,
};
use brd_base::List;
use brd_board::{Board, Event};
use brd_crew::find_by_threads;
use brd_explore::{Bounds, Failure, Nobody, Shard, Wanted, find, find_in_shard};
use brd_image::build;
use brd_lazy::{Lazily, find_lazily};
use std::alloc::Global;
use std::test::Fail;
use std::thread::Threads;
use test_help::none_wrong;

/// What is not to happen.
#[derive(Clone, Copy)]
enum Wrong {
    Exception,
    Deadlock,
    /// The word at 0x80000000 isn't this at the end.
    Count(u32),
    /// The word at 0x8000000c is more than this.
    Inside(u32),
    On,
}

/// A search.
struct Case {
    source: &'static str,
    config: &'static str,
    /// Events, preemptions, ticks.
    bounds: (u32, u32, u32),
    among: &'static [Event],
    wrong: Wrong,
    /// How many rounds of `FAIR` the end has.
    rounds: u32,
    answer: Told,
}

/// What is told of a search.
#[derive(Clone, Copy, PartialEq, Eq)]
enum Told {
    Fails,
    NoneFails,
    /// None of so many.
    NoneOf(u64),
    /// A fault.
    Nothing,
}

const BOTH: &[Event] = &[Event::Step(1), Event::Step(2)];

const TIMED: &[Event] = &[Event::Step(1), Event::Step(2), Event::Tick];

const ONE: &[Event] = &[Event::Step(1)];

const FAIR: &[Event] = &[Event::Step(1), Event::Step(2), Event::Tick];

/// The lost update and the deadlock are found with one preemption, and not with none; that two tasks are inside a lock
/// that each takes once needs two: one leaves the first task before its flag is set, the other one the second inside.
/// (By turns, step for step, the update is lost too: both load before either stores.) Of n steps of two processors that
/// both go on for ever by local instructions 2 n schedules are tried with at most two preemptions: the first processor,
/// and the place of the only switch, since that processor sleeps then. With one tick, at one of n places, n - 1 steps
/// are left, and with one preemption no schedule is left out. While a time handler is due, who waits isn't in a
/// deadlock, and the tick does something that raises the handler's line.
const CASES: &[Case] = &[
    Case {
        source: LOST_UPDATE,
        config: TWO,
        bounds: (60, 0, 0),
        among: BOTH,
        wrong: Wrong::Count(2),
        rounds: 0,
        answer: Told::NoneOf(2),
    },
    Case {
        source: LOST_UPDATE,
        config: TWO,
        bounds: (60, 1, 0),
        among: BOTH,
        wrong: Wrong::Count(2),
        rounds: 0,
        answer: Told::Fails,
    },
    Case {
        source: LOST_UPDATE,
        config: TWO,
        bounds: (0, 0, 0),
        among: BOTH,
        wrong: Wrong::Count(2),
        rounds: 60,
        answer: Told::Fails,
    },
    Case {
        source: REPAIRED,
        config: TWO,
        bounds: (6, 1, 0),
        among: BOTH,
        wrong: Wrong::Count(2),
        rounds: 60,
        answer: Told::NoneFails,
    },
    Case {
        source: REPAIRED,
        config: TWO,
        bounds: (60, 2, 0),
        among: BOTH,
        wrong: Wrong::Count(2),
        rounds: 0,
        answer: Told::NoneFails,
    },
    Case {
        source: DEADLOCK,
        config: APART,
        bounds: (60, 0, 0),
        among: BOTH,
        wrong: Wrong::Deadlock,
        rounds: 0,
        answer: Told::NoneOf(2),
    },
    Case {
        source: DEADLOCK,
        config: APART,
        bounds: (60, 1, 0),
        among: BOTH,
        wrong: Wrong::Deadlock,
        rounds: 0,
        answer: Told::Fails,
    },
    Case {
        source: DEADLOCK,
        config: APART,
        bounds: (60, 1, 0),
        among: BOTH,
        wrong: Wrong::Exception,
        rounds: 0,
        answer: Told::NoneFails,
    },
    Case {
        source: PETERSON_SWAPPED,
        config: TWO,
        bounds: (60, 2, 0),
        among: BOTH,
        wrong: Wrong::Inside(1),
        rounds: 0,
        answer: Told::Fails,
    },
    Case {
        source: PETERSON_SWAPPED,
        config: TWO,
        bounds: (60, 1, 0),
        among: BOTH,
        wrong: Wrong::Inside(1),
        rounds: 0,
        answer: Told::NoneFails,
    },
    Case {
        source: PETERSON,
        config: TWO,
        bounds: (40, 2, 0),
        among: BOTH,
        wrong: Wrong::Inside(1),
        rounds: 0,
        answer: Told::NoneFails,
    },
    Case {
        source: LOOP,
        config: TWO,
        bounds: (0, 0, 0),
        among: BOTH,
        wrong: Wrong::Exception,
        rounds: 0,
        answer: Told::NoneOf(1),
    },
    Case {
        source: LOOP,
        config: TWO,
        bounds: (0, 0, 0),
        among: BOTH,
        wrong: Wrong::On,
        rounds: 0,
        answer: Told::NoneOf(1),
    },
    Case {
        source: LOOP,
        config: TWO,
        bounds: (0, 0, 0),
        among: BOTH,
        wrong: Wrong::On,
        rounds: 1,
        answer: Told::Fails,
    },
    Case {
        source: LOOP,
        config: TWO,
        bounds: (6, 0, 0),
        among: BOTH,
        wrong: Wrong::Exception,
        rounds: 0,
        answer: Told::NoneOf(2),
    },
    Case {
        source: LOOP,
        config: TWO,
        bounds: (6, 2, 0),
        among: BOTH,
        wrong: Wrong::Exception,
        rounds: 0,
        answer: Told::NoneOf(12),
    },
    Case {
        source: LOOP,
        config: TWO,
        bounds: (6, 1, 1),
        among: TIMED,
        wrong: Wrong::Exception,
        rounds: 0,
        answer: Told::NoneOf(72),
    },
    Case {
        source: SAMPLED,
        config: STARTED,
        bounds: (40, 0, 0),
        among: ONE,
        wrong: Wrong::Deadlock,
        rounds: 0,
        answer: Told::NoneFails,
    },
    Case {
        source: SAMPLED,
        config: STOPPED,
        bounds: (40, 0, 0),
        among: ONE,
        wrong: Wrong::Deadlock,
        rounds: 0,
        answer: Told::Fails,
    },
    Case {
        source: SAMPLED,
        config: STARTED,
        bounds: (40, 0, 0),
        among: TIMED,
        wrong: Wrong::Inside(1),
        rounds: 0,
        answer: Told::NoneFails,
    },
    Case {
        source: SAMPLED,
        config: STARTED,
        bounds: (40, 0, 1),
        among: TIMED,
        wrong: Wrong::Inside(1),
        rounds: 0,
        answer: Told::Fails,
    },
];

/// Peterson's lock, of which no schedule fails.
const LOCK: &Case = &Case {
    source: PETERSON,
    config: TWO,
    bounds: (40, 2, 0),
    among: BOTH,
    wrong: Wrong::Inside(1),
    rounds: 0,
    answer: Told::NoneFails,
};

/// A million steps in a row.
const DEEP: &Case = &Case {
    source: LOOP,
    config: TWO,
    bounds: (1_000_000, 0, 0),
    among: ONE,
    wrong: Wrong::Exception,
    rounds: 0,
    answer: Told::NoneOf(1),
};

/// The failure of a case.
fn failure_of(wrong: Wrong) -> Failure {
    match wrong {
        Wrong::Exception => Failure::Exception,
        Wrong::Deadlock => Failure::Deadlock,
        Wrong::Count(value) => {
            Failure::Word {
                address: 0x8000_0000,
                value,
            }
        }
        Wrong::Inside(most) => {
            Failure::Outside {
                address: 0x8000_000c,
                least: 0,
                most,
            }
        }
        Wrong::On => Failure::On,
    }
}

/// What a case's search wants.
fn wanted_of(alloc: Global, case: &Case) -> Option<Wanted> {
    let mut failures = List::new(alloc);
    let round = List::from_slice(alloc, FAIR).ok()?;
    failures.push(failure_of(case.wrong)).ok()?;
    Some(Wanted {
        failures,
        round,
        rounds: case.rounds,
    })
}

/// The bounds of a case.
fn bounds_of(case: &Case) -> Bounds {
    let (events, preemptions, ticks) = case.bounds;
    Bounds {
        events,
        preemptions,
        ticks,
        raises: 0,
        owed: 0,
    }
}

/// What is told of the search of a case at a board, of which so many places are remembered.
fn search_of(alloc: Global, board: &Board, case: &Case, remember: usize) -> Told {
    let Some(wanted) = wanted_of(alloc, case) else {
        return Told::Nothing;
    };
    match find(
        alloc,
        board,
        bounds_of(case),
        case.among,
        &wanted,
        remember,
        &mut Nobody,
    ) {
        Ok(found) => told_of(found.schedule.is_some(), found.counts.tried),
        Err(_) => Told::Nothing,
    }
}

/// What is told of a search that has found a schedule, or none.
fn told_of(found: bool, tried: u64) -> Told {
    if found {
        Told::Fails
    } else {
        Told::NoneOf(tried)
    }
}

/// Whether the search of a case comes to what it should.
fn goes_well(alloc: Global, case: &Case) -> bool {
    match build(alloc, case.source.as_bytes(), case.config.as_bytes()) {
        Ok(board) => agree(search_of(alloc, &board, case, 0), case.answer),
        Err(_) => false,
    }
}

/// Whether what is told is what is wanted, where that may leave the number open.
fn agree(told: Told, wanted: Told) -> bool {
    match told {
        Told::NoneOf(_) => wanted == Told::NoneFails || told == wanted,
        _ => told == wanted,
    }
}

/// The first case that comes to something else.
fn first_wrong(alloc: Global) -> Option<usize> {
    for (row, case) in CASES.iter().enumerate() {
        if !goes_well(alloc, case) {
            return Some(row);
        }
    }
    None
}

/// What the lazy search of a case at a board comes to, by so many threads.
fn lazy_search_of<T: Threads + Sync>(
    rt: &T,
    alloc: Global,
    threads: u32,
    board: &Board,
    case: &Case,
) -> Option<Lazily> {
    let wanted = wanted_of(alloc, case)?;
    let bounds = bounds_of(case);
    find_lazily(
        rt,
        alloc,
        threads,
        board,
        bounds,
        case.among,
        &wanted,
        100_000,
        usize::MAX,
        &mut Nobody,
    )
    .ok()
}

/// What is told of it.
fn lazily_told(searched: &Option<Lazily>) -> Told {
    match searched {
        Some(Lazily::Found(_)) => Told::Fails,
        Some(Lazily::NoneFails(_)) => Told::NoneFails,
        Some(Lazily::Unknown(_)) | None => Told::Nothing,
    }
}

/// Whether two searches have come to the very same.
fn are_same(one: &Option<Lazily>, other: &Option<Lazily>) -> bool {
    match (one, other) {
        (Some(Lazily::Found(one)), Some(Lazily::Found(other))) => one.as_slice()
            == other.as_slice(),
        (Some(Lazily::NoneFails(one)), Some(Lazily::NoneFails(other))) => one == other,
        _ => false,
    }
}

/// Whether the lazy search of a case comes to what the other one does, and by three threads to the very same as by one.
fn goes_well_lazily<T: Threads + Sync>(rt: &T, alloc: Global, case: &Case) -> bool {
    let Ok(board) = build(alloc, case.source.as_bytes(), case.config.as_bytes()) else {
        return false;
    };
    let one = lazy_search_of(rt, alloc, 1, &board, case);
    let three = lazy_search_of(rt, alloc, 3, &board, case);
    agree_lazily(lazily_told(&one), case.answer) && are_same(&one, &three)
}

/// Whether what is told of a lazy search is what is wanted.
fn agree_lazily(told: Told, wanted: Told) -> bool {
    match told {
        Told::NoneFails => wanted != Told::Fails,
        _ => told == wanted,
    }
}

/// The first case that comes to something else by a lazy search, of those without a fair end.
fn first_wrong_lazily<T: Threads + Sync>(rt: &T, alloc: Global) -> Option<usize> {
    for (row, case) in CASES.iter().enumerate() {
        if case.rounds == 0 && !goes_well_lazily(rt, alloc, case) {
            return Some(row);
        }
    }
    None
}

/// Lazy searches come to the same answers.
#[test]
fn lazy_searches_agree(rt: HostRuntime) -> Result<(), Fail> {
    none_wrong(first_wrong_lazily(&rt, rt.alloc()))
}

/// Schedules of some 1,100 events a task with two preemptions, of which there are more than 600,000.
const LONG_ONE: &Case = &Case {
    source: LONG,
    config: TWO,
    bounds: (2_500, 2, 0),
    among: BOTH,
    wrong: Wrong::Count(20),
    rounds: 0,
    answer: Told::NoneFails,
};

/// Both go on for ever by instructions that nobody else can see.
const ENDLESS: &Case = &Case {
    source: LOOP,
    config: TWO,
    bounds: (1_000_000, 2, 0),
    among: BOTH,
    wrong: Wrong::Deadlock,
    rounds: 0,
    answer: Told::NoneFails,
};

/// Lazy searches come to an answer where others would take minutes, or days.
#[test]
fn long_programs_are_searched_lazily(rt: HostRuntime) {
    assert!(rt; goes_well_lazily(&rt, rt.alloc(), LONG_ONE));
    assert!(rt; goes_well_lazily(&rt, rt.alloc(), ENDLESS));
}

/// The stack doesn't grow with the events of a schedule.
#[test]
fn a_million_events(rt: HostRuntime) {
    assert!(rt; goes_well(rt.alloc(), DEEP));
}

/// Races are found, and where none is found so many schedules were tried.
#[test]
fn races_are_found(rt: HostRuntime) -> Result<(), Fail> {
    none_wrong(first_wrong(rt.alloc()))
}

/// What is told of the searches of all shards: that one fails, or none of so many.
fn search_of_shards(alloc: Global, board: &Board, case: &Case, of: u32) -> Told {
    let mut all = Told::NoneOf(0);
    for number in 0..of {
        all = together(
            all,
            search_of_shard(alloc, board, case, Shard { number, of }, 0),
        );
    }
    all
}

/// What is told of a search and of the next one.
fn together(all: Told, next: Told) -> Told {
    match (all, next) {
        (Told::NoneOf(tried), Told::NoneOf(more)) => Told::NoneOf(tried.saturating_add(more)),
        (Told::Fails, Told::NoneOf(_)) => Told::Fails,
        _ => next,
    }
}

/// What is told of the search of one shard of a case at a board, of which so many places are remembered.
fn search_of_shard(alloc: Global, board: &Board, case: &Case, shard: Shard, remember: usize) -> Told
    requires { 0 < shard.of }
{
    let Some(wanted) = wanted_of(alloc, case) else {
        return Told::Nothing;
    };
    let bounds = bounds_of(case);
    match find_in_shard(
        alloc,
        board,
        bounds,
        case.among,
        shard,
        &wanted,
        remember,
        &mut Nobody,
    ) {
        Ok(found) => told_of(found.schedule.is_some(), found.counts.tried),
        Err(_) => Told::Nothing,
    }
}

/// Whether several shards of a case come together to what the whole search does.
fn goes_well_in_shards(alloc: Global, case: &Case) -> bool {
    match build(alloc, case.source.as_bytes(), case.config.as_bytes()) {
        Ok(board) => {
            let whole = search_of(alloc, &board, case, 0);
            search_of_shards(alloc, &board, case, 1) == whole
                && search_of_shards(alloc, &board, case, 3) == whole
                && search_of_shards(alloc, &board, case, 16) == whole
        }
        Err(_) => false,
    }
}

/// The first case whose shards come to something else.
fn first_wrong_in_shards(alloc: Global) -> Option<usize> {
    for (row, case) in CASES.iter().enumerate() {
        if !goes_well_in_shards(alloc, case) {
            return Some(row);
        }
    }
    None
}

/// Some shard finds a race that the whole search finds, and however many shards there are, they try the same schedules.
#[test]
fn shards_find_the_same(rt: HostRuntime) -> Result<(), Fail> {
    none_wrong(first_wrong_in_shards(rt.alloc()))
}

/// What is told of the search of a case at a board by three threads.
fn search_by_threads<T: Threads + Sync>(rt: &T, alloc: Global, board: &Board, case: &Case) -> Told {
    let Some(wanted) = wanted_of(alloc, case) else {
        return Told::Nothing;
    };
    let bounds = bounds_of(case);
    match find_by_threads(
        rt,
        alloc,
        3,
        board,
        bounds,
        case.among,
        WHOLE,
        &wanted,
        0,
        &mut Nobody,
    ) {
        Ok(found) => told_of(found.schedule.is_some(), found.counts.tried),
        Err(_) => Told::Nothing,
    }
}

/// The shard that is the whole.
const WHOLE: Shard = Shard { number: 0, of: 1 };

/// Whether the search of a case by several threads comes to what that of one shard does.
fn goes_well_by_threads<T: Threads + Sync>(rt: &T, alloc: Global, case: &Case) -> bool {
    match build(alloc, case.source.as_bytes(), case.config.as_bytes()) {
        Ok(board) => {
            let one = search_of_shards(alloc, &board, case, 1);
            search_by_threads(rt, alloc, &board, case) == one
        }
        Err(_) => false,
    }
}

/// The first case whose search by several threads comes to something else.
fn first_wrong_by_threads<T: Threads + Sync>(rt: &T, alloc: Global) -> Option<usize> {
    for (row, case) in CASES.iter().enumerate() {
        if !goes_well_by_threads(rt, alloc, case) {
            return Some(row);
        }
    }
    None
}

/// Several threads find a race that one finds, and else try the same schedules together.
#[test]
fn threads_find_the_same(rt: HostRuntime) -> Result<(), Fail> {
    none_wrong(first_wrong_by_threads(&rt, rt.alloc()))
}

/// How many places are remembered.
const MANY: usize = 10_000;

/// Whether the search of a case comes to the same where places are remembered, and tries no more schedules.
fn goes_well_with_memory(alloc: Global, case: &Case) -> bool {
    match build(alloc, case.source.as_bytes(), case.config.as_bytes()) {
        Ok(board) => {
            let whole = search_of(alloc, &board, case, 0);
            is_no_more(search_of(alloc, &board, case, MANY), whole)
        }
        Err(_) => false,
    }
}

/// Whether what is told is the same, but for fewer schedules.
fn is_no_more(told: Told, whole: Told) -> bool {
    match (told, whole) {
        (Told::NoneOf(tried), Told::NoneOf(all)) => tried <= all,
        _ => told == whole,
    }
}

/// The first case that comes to something else where places are remembered.
fn first_wrong_with_memory(alloc: Global) -> Option<usize> {
    for (row, case) in CASES.iter().enumerate() {
        if !goes_well_with_memory(alloc, case) {
            return Some(row);
        }
    }
    None
}

/// Where places are remembered a search finds the same.
#[test]
fn what_is_remembered_changes_no_answer(rt: HostRuntime) -> Result<(), Fail> {
    none_wrong(first_wrong_with_memory(rt.alloc()))
}

/// Whether the search of the first of two shards of a case tries fewer schedules where places are remembered.
fn saves_schedules(alloc: Global, case: &Case) -> bool {
    let first = Shard { number: 0, of: 2 };
    match build(alloc, case.source.as_bytes(), case.config.as_bytes()) {
        Ok(board) => {
            let whole = search_of_shard(alloc, &board, case, first, 0);
            is_fewer(search_of_shard(alloc, &board, case, first, MANY), whole)
        }
        Err(_) => false,
    }
}

/// Whether none fails of fewer schedules.
fn is_fewer(told: Told, whole: Told) -> bool {
    match (told, whole) {
        (Told::NoneOf(tried), Told::NoneOf(all)) => tried < all,
        _ => false,
    }
}

/// Where places are remembered a search of Peterson's lock tries fewer schedules: many of them meet again.
#[test]
fn what_is_remembered_saves_schedules(rt: HostRuntime) {
    assert!(rt; saves_schedules(rt.alloc(), LOCK));
}
