//! Searches that preempt in regions alone, and in which lines are raised in regions alone.

use super::sources::{
    INTERRUPTED, LINED, LOST_UPDATE, PETERSON, PETERSON_SWAPPED, REPAIRED, SAMPLED, STARTED, TWO,
};
use brd_base::{List, NoMemory};
use brd_board::{Board, Event};
use brd_explore::{Bounds, Failure, Nobody, Wanted, did_nothing, stepper};
use brd_image::build;
use brd_only::{Inside, Region, Regions, find_inside};
use std::alloc::Global;
use std::test::Fail;
use test_help::none_wrong;

/// A search.
struct Case {
    source: &'static str,
    config: &'static str,
    /// Events, preemptions, ticks, raises.
    bounds: (u32, u32, u32, u32),
    among: &'static [Event],
    /// The word at this address isn't this at the end.
    wrong: (u32, u32),
    /// In which a processor may be preempted; none: anywhere.
    switches: &'static [Region],
    /// In which somebody is while a line is raised; none: anywhere.
    raises: &'static [Region],
    fails: bool,
}

const BOTH: &[Event] = &[Event::Step(1), Event::Step(2)];

const TIMED: &[Event] = &[Event::Step(1), Event::Step(2), Event::Tick];

const RAISED: &[Event] = &[Event::Step(1), Event::Raise(3)];

/// The word that both add to.
const COUNT: (u32, u32) = (0x8000_0000, 2);

/// Behind the load, up to the store: there an update is lost.
const BEHIND: Region = Region {
    from: 0x8000_001c,
    upto: 0x8000_0024,
};

/// The store alone.
const STORE: Region = Region {
    from: 0x8000_0020,
    upto: 0x8000_0024,
};

/// Before the load.
const BEFORE: Region = Region {
    from: 0x8000_0010,
    upto: 0x8000_001c,
};

/// Behind the store.
const AFTER: Region = Region {
    from: 0x8000_0024,
    upto: 0x8000_0040,
};

const ALL: Region = Region {
    from: 0x8000_0000,
    upto: 0x8001_0000,
};

/// The task's instructions up to its load, and the load.
const LOADS: Region = Region {
    from: 0x8000_0010,
    upto: 0x8000_0018,
};

/// Behind the load, up to the store: there a raise takes an update away.
const ADDS: Region = Region {
    from: 0x8000_0018,
    upto: 0x8000_0020,
};

/// Behind the store, up to the end of the task.
const ENDS: Region = Region {
    from: 0x8000_0020,
    upto: 0x8000_0028,
};

/// The handler's instructions: nobody is there before a raise.
const HANDLES: Region = Region {
    from: 0x8000_0028,
    upto: 0x8000_0040,
};

/// An update is lost only by a preemption between the load and the store, or with a handler by a raise there. Who
/// preempts is about to execute the first instruction, which lies in none of the regions but the one before the load.
const CASES: &[Case] = &[
    Case {
        source: LOST_UPDATE,
        config: TWO,
        bounds: (60, 1, 0, 0),
        among: BOTH,
        wrong: COUNT,
        switches: &[BEHIND],
        raises: &[],
        fails: true,
    },
    Case {
        source: LOST_UPDATE,
        config: TWO,
        bounds: (60, 1, 0, 0),
        among: BOTH,
        wrong: COUNT,
        switches: &[STORE],
        raises: &[],
        fails: true,
    },
    Case {
        source: LOST_UPDATE,
        config: TWO,
        bounds: (60, 2, 0, 0),
        among: BOTH,
        wrong: COUNT,
        switches: &[BEFORE],
        raises: &[],
        fails: false,
    },
    Case {
        source: LOST_UPDATE,
        config: TWO,
        bounds: (60, 2, 0, 0),
        among: BOTH,
        wrong: COUNT,
        switches: &[BEFORE, AFTER],
        raises: &[],
        fails: false,
    },
    Case {
        source: LOST_UPDATE,
        config: TWO,
        bounds: (60, 2, 0, 0),
        among: BOTH,
        wrong: COUNT,
        switches: &[BEFORE, STORE],
        raises: &[],
        fails: true,
    },
    Case {
        source: LOST_UPDATE,
        config: TWO,
        bounds: (60, 2, 0, 0),
        among: BOTH,
        wrong: COUNT,
        switches: &[],
        raises: &[],
        fails: true,
    },
    Case {
        source: LOST_UPDATE,
        config: TWO,
        bounds: (60, 1, 0, 0),
        among: BOTH,
        wrong: COUNT,
        switches: &[],
        raises: &[BEFORE],
        fails: true,
    },
    Case {
        source: LOST_UPDATE,
        config: TWO,
        bounds: (60, 2, 0, 0),
        among: BOTH,
        wrong: COUNT,
        switches: &[BEFORE],
        raises: &[BEHIND],
        fails: false,
    },
    Case {
        source: SAMPLED,
        config: STARTED,
        bounds: (40, 0, 1, 0),
        among: TIMED,
        wrong: (0x8000_000c, 0),
        switches: &[],
        raises: &[],
        fails: true,
    },
    Case {
        source: INTERRUPTED,
        config: LINED,
        bounds: (60, 0, 0, 1),
        among: RAISED,
        wrong: COUNT,
        switches: &[],
        raises: &[],
        fails: true,
    },
    Case {
        source: INTERRUPTED,
        config: LINED,
        bounds: (60, 0, 0, 1),
        among: RAISED,
        wrong: COUNT,
        switches: &[],
        raises: &[ADDS],
        fails: true,
    },
    Case {
        source: INTERRUPTED,
        config: LINED,
        bounds: (60, 0, 0, 1),
        among: RAISED,
        wrong: COUNT,
        switches: &[HANDLES],
        raises: &[LOADS, ADDS],
        fails: true,
    },
    Case {
        source: INTERRUPTED,
        config: LINED,
        bounds: (60, 0, 0, 1),
        among: RAISED,
        wrong: COUNT,
        switches: &[],
        raises: &[LOADS],
        fails: false,
    },
    Case {
        source: INTERRUPTED,
        config: LINED,
        bounds: (60, 0, 0, 1),
        among: RAISED,
        wrong: COUNT,
        switches: &[ADDS],
        raises: &[LOADS, ENDS],
        fails: false,
    },
    Case {
        source: INTERRUPTED,
        config: LINED,
        bounds: (60, 0, 0, 1),
        among: RAISED,
        wrong: COUNT,
        switches: &[],
        raises: &[HANDLES],
        fails: false,
    },
];

/// Programs with two tasks, all of whose schedules are tried one by one.
const SOURCES: &[&str] = &[LOST_UPDATE, REPAIRED, PETERSON, PETERSON_SWAPPED];

/// The bounds of a case. All raises are owed.
fn bounds_of(bounds: (u32, u32, u32, u32)) -> Bounds {
    let (events, preemptions, ticks, raises) = bounds;
    Bounds {
        events,
        preemptions,
        ticks,
        raises,
        owed: raises,
    }
}

/// Regions of both kinds.
fn regions_of(alloc: Global, switches: &[Region], raises: &[Region]) -> Option<Regions> {
    let switches = List::from_slice(alloc, switches).ok()?;
    let raises = List::from_slice(alloc, raises).ok()?;
    Some(Regions { switches, raises })
}

/// A word that is to have a value at the end, and one that is never to be more than 1.
fn wanted_of(alloc: Global, (address, value): (u32, u32)) -> Option<Wanted> {
    let mut failures = List::new(alloc);
    failures.push(Failure::Word { address, value }).ok()?;
    let inside = Failure::Outside {
        address: 0x8000_000c,
        least: 0,
        most: 1,
    };
    failures.push(inside).ok()?;
    Some(Wanted {
        failures,
        round: List::new(alloc),
        rounds: 0,
    })
}

/// Whether a search finds that a schedule fails, if it comes to an answer.
fn finds(
    alloc: Global,
    board: &Board,
    bounds: Bounds,
    among: &[Event],
    regions: &Regions,
    wanted: &Wanted,
) -> Option<bool> {
    match find_inside(
        alloc,
        board,
        bounds,
        among,
        regions,
        wanted,
        100_000,
        &mut Nobody,
    ) {
        Ok(Inside::Found(_)) => Some(true),
        Ok(Inside::NoneFails(_)) => Some(false),
        Ok(Inside::Unknown(_)) | Err(_) => None,
    }
}

/// Whether the search of a case comes to what it should.
fn goes_well(alloc: Global, case: &Case) -> bool {
    let Ok(board) = build(alloc, case.source.as_bytes(), case.config.as_bytes()) else {
        return false;
    };
    let Some(wanted) = wanted_of(alloc, case.wrong) else {
        return false;
    };
    let Some(regions) = regions_of(alloc, case.switches, case.raises) else {
        return false;
    };
    let found = finds(
        alloc,
        &board,
        bounds_of(case.bounds),
        case.among,
        &regions,
        &wanted,
    );
    found == Some(case.fails)
}

/// The first case that comes to something else.
fn first_wrong(alloc: Global) -> Option<usize> {
    for (row, case) in CASES.iter().enumerate() {
        if !goes_well(alloc, case) {
            return Some(row);
        }
    }
    None
}

/// What fails only by a preemption or a raise inside a region is found with that region alone.
#[test]
fn events_come_in_regions(rt: HostRuntime) -> Result<(), Fail> {
    none_wrong(first_wrong(rt.alloc()))
}

/// Whether somebody executes on a processor whose next instruction lies in one of the regions.
fn is_at(board: &Board, cpu: u8, regions: &[Region]) -> bool {
    let Some(context) = board.registers(cpu) else {
        return false;
    };
    for region in regions {
        if region.from <= context.pc() && context.pc() < region.upto {
            return true;
        }
    }
    false
}

/// Whether an event keeps to regions.
fn keeps(board: &Board, last: Option<u8>, event: Event, regions: &Regions) -> bool {
    let switches = regions.switches.as_slice();
    let raises = regions.raises.as_slice();
    match (event, last) {
        (Event::Step(cpu), Some(last)) => {
            last == cpu || switches.is_empty() || is_at(board, last, switches)
        }
        (Event::Raise(_), _) => {
            raises.is_empty() || is_at(board, 1, raises) || is_at(board, 2, raises)
        }
        _ => true,
    }
}

/// Whether some schedule fails of those that keep to regions, of so many events at most: all of them are tried.
fn one_fails(
    board: &Board,
    left: Bounds,
    last: Option<u8>,
    depth: u32,
    among: &[Event],
    regions: &Regions,
    wanted: &Wanted,
) -> Result<bool, NoMemory> {
    if wanted.fails_at(board, left)? {
        return Ok(true);
    }
    if depth == 0 {
        return Ok(false);
    }
    for event in among {
        if left.affords(last, *event) && keeps(board, last, *event, regions) {
            let mut copy = board.try_copy()?;
            let did = !did_nothing(copy.event_apart(*event));
            let rest = left.spent(last, *event);
            let next = stepper(&copy, last, *event);
            if did && one_fails(&copy, rest, next, depth - 1, among, regions, wanted)? {
                return Ok(true);
            }
        }
    }
    Ok(false)
}

/// Whether a search comes to what all schedules come to, tried one by one.
fn agrees(
    alloc: Global,
    board: &Board,
    bounds: Bounds,
    among: &[Event],
    regions: &Regions,
    wanted: &Wanted,
) -> bool {
    match one_fails(board, bounds, None, bounds.events, among, regions, wanted) {
        Ok(fails) => finds(alloc, board, bounds, among, regions, wanted) == Some(fails),
        Err(_) => false,
    }
}

/// Whether it does so for a program of two tasks that may be preempted in a region.
fn agrees_inside(alloc: Global, source: &str, region: Region) -> bool {
    let Ok(board) = build(alloc, source.as_bytes(), TWO.as_bytes()) else {
        return false;
    };
    let Some(wanted) = wanted_of(alloc, COUNT) else {
        return false;
    };
    let Some(regions) = regions_of(alloc, &[region], &[]) else {
        return false;
    };
    agrees(
        alloc,
        &board,
        bounds_of((14, 2, 0, 0)),
        BOTH,
        &regions,
        &wanted,
    )
}

/// Whether it does so for the task with a handler, whose line is raised twice at most, in a region.
fn agrees_raised(alloc: Global, region: Region) -> bool {
    let Ok(board) = build(alloc, INTERRUPTED.as_bytes(), LINED.as_bytes()) else {
        return false;
    };
    let Some(wanted) = wanted_of(alloc, (0x8000_0000, 3)) else {
        return false;
    };
    let Some(regions) = regions_of(alloc, &[], &[region]) else {
        return false;
    };
    agrees(
        alloc,
        &board,
        bounds_of((24, 0, 0, 2)),
        RAISED,
        &regions,
        &wanted,
    )
}

/// Whether a search does so for a program, with regions of up to three instructions, and with all as one.
fn agrees_everywhere(alloc: Global, source: &str) -> bool {
    for place in 0..8u32 {
        let from = 0x8000_0010 + place * 8;
        let upto = from + 4 + place % 3 * 4;
        if !agrees_inside(alloc, source, Region { from, upto }) {
            return false;
        }
    }
    agrees_inside(alloc, source, ALL)
}

/// The first program of which a search comes to something else.
fn first_other(alloc: Global) -> Option<usize> {
    for (row, source) in SOURCES.iter().enumerate() {
        if !agrees_everywhere(alloc, source) {
            return Some(row);
        }
    }
    None
}

/// Searches come to what all schedules come to that keep to a region.
#[test]
fn all_schedules_agree(rt: HostRuntime) -> Result<(), Fail> {
    none_wrong(first_other(rt.alloc()))
}

/// The first region with which a search with raises comes to something else.
fn first_raised_otherwise(alloc: Global) -> Option<u32> {
    for place in 0..12u32 {
        let from = 0x8000_0010 + place * 4;
        let upto = from + 4 + place % 3 * 4;
        if !agrees_raised(alloc, Region { from, upto }) {
            return Some(place);
        }
    }
    if agrees_raised(alloc, ALL) {
        None
    } else {
        Some(12)
    }
}

/// So they do where lines are raised in a region alone.
#[test]
fn all_raises_agree(rt: HostRuntime) -> Result<(), Fail> {
    none_wrong(first_raised_otherwise(rt.alloc()))
}
