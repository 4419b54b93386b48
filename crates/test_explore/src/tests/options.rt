//! What searches are asked for by their options, and what may be wrong with these.

use super::sources::{HANDLED, LOST_UPDATE, TWO};
use brd_base::List;
use brd_board::{Board, Event};
use brd_explore::{Comparison, Failure};
use brd_image::build;
use brd_mem::Symbol;
use brd_search::{
    Looks, RegionFault, SearchFault, SearchOptions, Sizes, plan_of, shown_events, wanted_of,
};
use std::alloc::Global;
use std::test::Fail;
use test_help::none_wrong;

const SIZES: Sizes = Sizes {
    events: 10,
    preemptions: 1,
    ticks: 1,
    fair: 0,
};

const LOOKS: Looks = Looks {
    exception: false,
    deadlock: false,
    on: false,
    words: None,
    console: None,
    reach: None,
    never: None,
};

const OPTIONS: SearchOptions = SearchOptions {
    sizes: SIZES,
    raises: None,
    lines: None,
    looks: LOOKS,
    shortest: false,
    shard: None,
    remember: 0,
    time: 0,
    threads: 0,
    places: 0,
    livelock: false,
    finals: false,
    lazy: 0,
    memory: 0,
    values: None,
    only: None,
    raises_at: None,
};

/// Options, and what is wrong with them.
const FAULTS: &[(SearchOptions<'static>, SearchFault)] = &[
    (
        SearchOptions {
            sizes: Sizes {
                events: 1_000_001,
                ..SIZES
            },
            ..OPTIONS
        },
        SearchFault::Events,
    ),
    (
        SearchOptions {
            sizes: Sizes {
                fair: 20_001,
                ..SIZES
            },
            ..OPTIONS
        },
        SearchFault::Fair,
    ),
    (
        SearchOptions {
            remember: 4_097,
            ..OPTIONS
        },
        SearchFault::Remember,
    ),
    (
        SearchOptions {
            threads: 65,
            ..OPTIONS
        },
        SearchFault::Threads,
    ),
    (
        SearchOptions {
            places: 1,
            threads: 2,
            ..OPTIONS
        },
        SearchFault::Places,
    ),
    (
        SearchOptions {
            places: 1,
            remember: 1,
            ..OPTIONS
        },
        SearchFault::Places,
    ),
    (
        SearchOptions {
            places: 1,
            time: 1,
            ..OPTIONS
        },
        SearchFault::Places,
    ),
    (
        SearchOptions {
            shortest: true,
            time: 1,
            ..OPTIONS
        },
        SearchFault::Time,
    ),
    (
        SearchOptions {
            lazy: 1,
            remember: 1,
            ..OPTIONS
        },
        SearchFault::Lazy,
    ),
    (
        SearchOptions {
            lazy: 1,
            places: 1,
            ..OPTIONS
        },
        SearchFault::Lazy,
    ),
    (
        SearchOptions {
            livelock: true,
            ..OPTIONS
        },
        SearchFault::Ends,
    ),
    (
        SearchOptions {
            finals: true,
            ..OPTIONS
        },
        SearchFault::Ends,
    ),
    (
        SearchOptions {
            places: 1,
            values: Some("0x80000000"),
            ..OPTIONS
        },
        SearchFault::NoFinals,
    ),
    (
        SearchOptions {
            places: 1,
            finals: true,
            values: Some("count"),
            ..OPTIONS
        },
        SearchFault::Values,
    ),
    (
        SearchOptions {
            places: 1,
            finals: true,
            values: Some("0x80000000,0x80000004,0x80000000"),
            ..OPTIONS
        },
        SearchFault::ValuesTwice,
    ),
    (
        SearchOptions {
            places: 1,
            finals: true,
            values: Some("0x80000004,0x80000002"),
            ..OPTIONS
        },
        SearchFault::NoWord,
    ),
    (
        SearchOptions {
            raises: Some("1"),
            ..OPTIONS
        },
        SearchFault::NoLines,
    ),
    (
        SearchOptions {
            lines: Some("3"),
            ..OPTIONS
        },
        SearchFault::NoLines,
    ),
    (
        SearchOptions {
            raises: Some("0..0"),
            lines: Some("3"),
            ..OPTIONS
        },
        SearchFault::NoLines,
    ),
    (
        SearchOptions {
            raises: Some("2..1"),
            lines: Some("3"),
            ..OPTIONS
        },
        SearchFault::Raises,
    ),
    (
        SearchOptions {
            raises: Some("1.2"),
            lines: Some("3"),
            ..OPTIONS
        },
        SearchFault::Raises,
    ),
    (
        SearchOptions {
            raises: Some("..2"),
            lines: Some("3"),
            ..OPTIONS
        },
        SearchFault::Raises,
    ),
    (
        SearchOptions {
            raises: Some("1.."),
            lines: Some("3"),
            ..OPTIONS
        },
        SearchFault::Raises,
    ),
    (
        SearchOptions {
            raises: Some(""),
            lines: Some("3"),
            ..OPTIONS
        },
        SearchFault::Raises,
    ),
    (
        SearchOptions {
            raises: Some("2"),
            lines: Some("3,31,3"),
            ..OPTIONS
        },
        SearchFault::Twice,
    ),
    (
        SearchOptions {
            raises: Some("2"),
            lines: Some("3,4"),
            ..OPTIONS
        },
        SearchFault::NoHandler,
    ),
    (
        SearchOptions {
            raises: Some("1"),
            lines: Some("3,32"),
            ..OPTIONS
        },
        SearchFault::Lines,
    ),
    (
        SearchOptions {
            raises: Some("1"),
            lines: Some(""),
            ..OPTIONS
        },
        SearchFault::Lines,
    ),
    (
        SearchOptions {
            shard: Some("0/4"),
            ..OPTIONS
        },
        SearchFault::Shard,
    ),
    (
        SearchOptions {
            shard: Some("5/4"),
            ..OPTIONS
        },
        SearchFault::Shard,
    ),
    (
        SearchOptions {
            shard: Some("1"),
            ..OPTIONS
        },
        SearchFault::Shard,
    ),
    (
        SearchOptions {
            only: Some("0x80000010"),
            ..OPTIONS
        },
        SearchFault::Only(RegionFault::Form),
    ),
    (
        SearchOptions {
            only: Some("0x80000010.0x80000020"),
            ..OPTIONS
        },
        SearchFault::Only(RegionFault::Form),
    ),
    (
        SearchOptions {
            only: Some("0x80000010.."),
            ..OPTIONS
        },
        SearchFault::Only(RegionFault::NoSymbol),
    ),
    (
        SearchOptions {
            only: Some("..0x80000010"),
            ..OPTIONS
        },
        SearchFault::Only(RegionFault::NoSymbol),
    ),
    (
        SearchOptions {
            only: Some("main..0x80000020"),
            ..OPTIONS
        },
        SearchFault::Only(RegionFault::NoSymbol),
    ),
    (
        SearchOptions {
            only: Some("0x80000010..0x80000020,"),
            ..OPTIONS
        },
        SearchFault::Only(RegionFault::Form),
    ),
    (
        SearchOptions {
            only: Some("0x80000010..0x80000010"),
            ..OPTIONS
        },
        SearchFault::Only(RegionFault::Empty),
    ),
    (
        SearchOptions {
            only: Some("0x80000010..0x80000020,0x80000010..0x80000020"),
            ..OPTIONS
        },
        SearchFault::Only(RegionFault::Twice),
    ),
    (
        SearchOptions {
            only: Some("0x80000010..0x80000020"),
            lazy: 1,
            ..OPTIONS
        },
        SearchFault::OnlyAlone,
    ),
    (
        SearchOptions {
            only: Some("0x80000010..0x80000020"),
            remember: 1,
            ..OPTIONS
        },
        SearchFault::OnlyAlone,
    ),
    (
        SearchOptions {
            only: Some("0x80000010..0x80000020"),
            threads: 1,
            ..OPTIONS
        },
        SearchFault::OnlyAlone,
    ),
    (
        SearchOptions {
            only: Some("0x80000010..0x80000020"),
            shard: Some("1/2"),
            ..OPTIONS
        },
        SearchFault::OnlyAlone,
    ),
    (
        SearchOptions {
            raises: Some("1"),
            lines: Some("3"),
            raises_at: Some("0x80000010"),
            ..OPTIONS
        },
        SearchFault::RaisesAt(RegionFault::Form),
    ),
    (
        SearchOptions {
            raises: Some("1"),
            lines: Some("3"),
            raises_at: Some("0x80000010..0x80000020,"),
            ..OPTIONS
        },
        SearchFault::RaisesAt(RegionFault::Form),
    ),
    (
        SearchOptions {
            raises: Some("1"),
            lines: Some("3"),
            raises_at: Some("main..0x80000020"),
            ..OPTIONS
        },
        SearchFault::RaisesAt(RegionFault::NoSymbol),
    ),
    (
        SearchOptions {
            raises: Some("1"),
            lines: Some("3"),
            raises_at: Some("0x80000010..0x80000010"),
            ..OPTIONS
        },
        SearchFault::RaisesAt(RegionFault::Empty),
    ),
    (
        SearchOptions {
            raises: Some("1"),
            lines: Some("3"),
            raises_at: Some("0x80000010..0x80000020,0x80000010..0x80000020"),
            ..OPTIONS
        },
        SearchFault::RaisesAt(RegionFault::Twice),
    ),
    (
        SearchOptions {
            raises: Some("1"),
            lines: Some("3"),
            only: Some("0x80000010..0x80000020"),
            raises_at: Some("0x80000010"),
            ..OPTIONS
        },
        SearchFault::RaisesAt(RegionFault::Form),
    ),
    (
        SearchOptions {
            raises: Some("1"),
            lines: Some("3"),
            raises_at: Some("0x80000010..0x80000020"),
            lazy: 1,
            ..OPTIONS
        },
        SearchFault::OnlyAlone,
    ),
    (
        SearchOptions {
            raises: Some("1"),
            lines: Some("3"),
            raises_at: Some("0x80000010..0x80000020"),
            threads: 1,
            ..OPTIONS
        },
        SearchFault::OnlyAlone,
    ),
    (
        SearchOptions {
            raises_at: Some("0x80000010..0x80000020"),
            ..OPTIONS
        },
        SearchFault::NoRaises,
    ),
    (
        SearchOptions {
            raises: Some("0"),
            raises_at: Some("0x80000010..0x80000020"),
            ..OPTIONS
        },
        SearchFault::NoRaises,
    ),
];

/// Texts of words, and what is wrong with them.
const WORDS: &[(&str, SearchFault)] = &[
    ("", SearchFault::Word),
    ("0x80000000", SearchFault::Word),
    ("0x80000000=", SearchFault::Word),
    ("0x80000000=1,", SearchFault::Word),
    ("0x80000000=1.2", SearchFault::Word),
    ("0x80000000=1..", SearchFault::Word),
    ("0x8000000g=1", SearchFault::Word),
    ("count=1", SearchFault::NoSymbol),
];

/// Texts of conditions, and of those that are ones the comparison and how many terms the sums have.
const CONDITIONS: &[(&str, Option<(usize, Comparison, usize)>)] = &[
    ("count<2", Some((1, Comparison::Less, 1))),
    (" count <= 2 ", Some((1, Comparison::AtMost, 1))),
    (
        "count+ 1 >other + count+other",
        Some((2, Comparison::More, 3)),
    ),
    ("0x10 >= 16", Some((1, Comparison::AtLeast, 1))),
    ("count == 4294967295", Some((1, Comparison::Same, 1))),
    ("0!=other", Some((1, Comparison::Other, 1))),
    ("", None),
    ("count", None),
    ("count < ", None),
    ("< 2", None),
    ("count = 2", None),
    ("count ! 2", None),
    ("count =< 2", None),
    ("count <> 2", None),
    ("count < 1 < 2", None),
    ("count + < 2", None),
    ("count ++ count < 2", None),
    ("count count < 2", None),
    ("nothing < 2", None),
    ("count < 4294967296", None),
    ("count < 2,", None),
];

/// Texts of a console, and the bytes for which they stand.
const CONSOLES: &[(&str, Option<&[u8]>)] = &[
    ("", Some(b"")),
    ("done", Some(b"done")),
    ("a\\n", Some(b"a\n")),
    ("\\r\\t\\\\n", Some(b"\r\t\\n")),
    ("\\x00\\xfF\\x2c", Some(b"\x00\xff,")),
    ("a\\", None),
    ("\\N", None),
    ("\\x", None),
    ("\\x4", None),
    ("\\x4g", None),
    ("\\\\\\", None),
];

/// A board of which lines 3 and 31 have a handler.
fn handled(alloc: Global) -> Option<Board> {
    build(alloc, LOST_UPDATE.as_bytes(), HANDLED.as_bytes()).ok()
}

/// What is wrong with options, if something is.
fn fault_of(alloc: Global, board: &Board, options: &SearchOptions<'_>) -> Option<SearchFault> {
    match plan_of(alloc, options, board, 2, &[]) {
        Ok(_) => None,
        Err(fault) => Some(fault),
    }
}

/// The first row of options that have another fault.
fn first_wrong_fault(alloc: Global, board: &Board) -> Option<usize> {
    for (row, (options, fault)) in FAULTS.iter().enumerate() {
        if fault_of(alloc, board, options) != Some(*fault) {
            return Some(row);
        }
    }
    None
}

/// The first row of words that have another fault.
fn first_wrong_word(alloc: Global, board: &Board) -> Option<usize> {
    for (row, (words, fault)) in WORDS.iter().enumerate() {
        let looks = Looks {
            words: Some(*words),
            ..LOOKS
        };
        let options = SearchOptions { looks, ..OPTIONS };
        if fault_of(alloc, board, &options) != Some(*fault) {
            return Some(row);
        }
    }
    None
}

/// Whether a text stands for these bytes, or for none.
fn stands_for(alloc: Global, text: &str, bytes: Option<&[u8]>) -> bool {
    let looks = Looks {
        console: Some(text),
        ..LOOKS
    };
    match wanted_of(alloc, &looks, 0, 2, &[]) {
        Ok(wanted) => {
            match wanted.failures.as_slice() {
                [Failure::Console(console)] => Some(console.as_slice()) == bytes,
                _ => false,
            }
        }
        Err(fault) => fault == SearchFault::Console && bytes.is_none(),
    }
}

/// The first row of a console whose text stands for something else.
fn first_wrong_console(alloc: Global) -> Option<usize> {
    for (row, (text, bytes)) in CONSOLES.iter().enumerate() {
        if !stands_for(alloc, *text, *bytes) {
            return Some(row);
        }
    }
    None
}

/// Two symbols.
fn symbols(alloc: Global) -> Option<List<Symbol>> {
    let mut symbols = List::new(alloc);
    for (name, value) in [("count", 0x8000_0000), ("other", 0x8000_0004)] {
        let name = List::from_slice(alloc, name.as_bytes()).ok()?;
        symbols.push(Symbol { name, value }).ok()?;
    }
    Some(symbols)
}

/// Whether a text says such a condition, or none.
fn says(
    alloc: Global,
    text: &str,
    symbols: &[Symbol],
    condition: Option<(usize, Comparison, usize)>,
) -> bool {
    let looks = Looks {
        never: Some(text),
        ..LOOKS
    };
    match wanted_of(alloc, &looks, 0, 2, symbols) {
        Ok(wanted) => {
            match wanted.failures.as_slice() {
                [Failure::Holds(it)] => {
                    condition == Some((it.left.len(), it.order, it.right.len()))
                }
                _ => false,
            }
        }
        Err(fault) => fault == SearchFault::Never && condition.is_none(),
    }
}

/// The first row of conditions whose text says something else.
fn first_wrong_condition(alloc: Global) -> Option<usize> {
    let symbols = symbols(alloc);
    let symbols = match &symbols {
        Some(symbols) => symbols.as_slice(),
        None => &[],
    };
    for (row, (text, condition)) in CONDITIONS.iter().enumerate() {
        if !says(alloc, *text, symbols, *condition) {
            return Some(row);
        }
    }
    None
}

/// How many events a board shows what fails after, of none and a fair end of two rounds of 33 events.
fn shown_after(alloc: Global, words: &str) -> Option<usize> {
    let board = build(alloc, LOST_UPDATE.as_bytes(), TWO.as_bytes()).ok()?;
    let looks = Looks {
        words: Some(words),
        ..LOOKS
    };
    let wanted = wanted_of(alloc, &looks, 2, 2, &[]).ok()?;
    let all = shown_events(alloc, &wanted, &board, &[]).ok()?;
    Some(all.len())
}

/// The events that may come are a step of each processor, a tick, and a raise of each line.
fn may_come(alloc: Global, board: &Board) -> bool {
    let options = SearchOptions {
        raises: Some("1..2"),
        lines: Some("3,31"),
        shard: Some("2/4"),
        remember: 1,
        ..OPTIONS
    };
    let Ok(plan) = plan_of(alloc, &options, board, 2, &[]) else {
        return false;
    };
    let events = [
        Event::Step(1),
        Event::Step(2),
        Event::Tick,
        Event::Raise(3),
        Event::Raise(31),
    ];
    plan.among.as_slice() == events.as_slice()
        && plan.bounds.raises == 2
        && plan.bounds.owed == 1
        && plan.shard.number == 1
        && plan.shard.of == 4
        && plan.remember == 1
        && plan.wanted.failures.len() == 2
}

#[test]
fn options_have_faults(rt: HostRuntime) -> Result<(), Fail> {
    let alloc = rt.alloc();
    none_wrong(match handled(alloc) {
        Some(board) => first_wrong_fault(alloc, &board),
        None => Some(0),
    })
}

#[test]
fn words_have_faults(rt: HostRuntime) -> Result<(), Fail> {
    let alloc = rt.alloc();
    none_wrong(match handled(alloc) {
        Some(board) => first_wrong_word(alloc, &board),
        None => Some(0),
    })
}

#[test]
fn consoles_are_read(rt: HostRuntime) -> Result<(), Fail> {
    none_wrong(first_wrong_console(rt.alloc()))
}

#[test]
fn conditions_are_read(rt: HostRuntime) -> Result<(), Fail> {
    none_wrong(first_wrong_condition(rt.alloc()))
}

#[test]
fn events_may_come(rt: HostRuntime) -> Result<(), Fail> {
    let alloc = rt.alloc();
    let are_so = match handled(alloc) {
        Some(board) => may_come(alloc, &board),
        None => false,
    };
    none_wrong(if are_so { None } else { Some(0) })
}

#[test]
fn fair_ends_are_shown(rt: HostRuntime) -> Result<(), Fail> {
    let alloc = rt.alloc();
    let at_once = shown_after(alloc, "0x80000000=1..2");
    let later = shown_after(alloc, "0x80000000=3");
    none_wrong(if at_once == Some(0) && later == Some(66) {
        None
    } else {
        Some((at_once, later))
    })
}
