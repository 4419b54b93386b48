//! Stations in the hands of one thread.

ghost use Rattle.std.specs.Prelude.{◌≤◌};
ghost use Rattle.brd_ledgers.specs.Blanks.{AreOf};

use crate::tests::boards::{LOOP, TWO, board_of};
use brd_board::{Board, Event, Report};
use brd_journal::Run;
use brd_threads::{Blanks, CommitFault, Outer, Race, Share, Station, StationFault};
use std::alloc::Global;
use std::marker::Brand;

/// Whether a station that has no room refuses a step and its script's entry, and stays as it was.
fn refuses_all<K: Race>(station: &mut Station<K>, share: &mut Share<K>, boot: &Board) -> bool {
    let cpu = share.cpu();
    station.step(cpu, share) == Err(StationFault::JournalFull)
        && station.script_next() == Err(StationFault::JournalFull)
        && station.journal().is_empty()
        && station.board().same(boot)
        && station.steps(cpu) == Some(0)
        && share.count() == 0
        && !station.is_done()
}

/// Whether a station that has no room refuses a stale lease as stale: that of a board that has done a step more.
fn refuses_stale<K: Race>(station: &mut Station<K>, share: &mut Share<K>, boot: &Board) -> bool {
    let cpu = share.cpu();
    let Ok(mut later) = boot.try_copy() else {
        return false;
    };
    let _ = later.event(Event::Step(cpu));
    let (Some(mut stale), Some(mut good)) = (later.lend(cpu), station.lend(cpu)) else {
        return false;
    };
    if stale.run(5) != 5 || good.run(5) != 5 || stale.cpu() != cpu {
        return false;
    }
    station.commit(stale, share) == Err(CommitFault::Stale)
        && station.commit(good, share) == Err(CommitFault::JournalFull)
        && station.journal().is_empty()
        && station.board().same(boot)
        && share.count() == 0
}

/// Whether a station does a step and its script's entry, each once.
fn does_each<K: Race>(station: &mut Station<K>, share: &mut Share<K>) -> bool {
    let cpu = share.cpu();
    station.step(cpu, share) == Ok(Report::Ran(0x8000_0000))
        && station.script_next() == Ok(Some(Report::Ticked))
        && station.script_next() == Ok(None)
        && station.journal().len() == 2
        && station.steps(cpu) == Some(1)
        && share.count() == 1
        && station.is_done()
}

/// 64 steps of processor 1 in a row.
const LEASED: &[Run] = &[Run {
    event: Event::Step(1),
    count: 64,
}];

/// Whether a lease is good for 64 local instructions, and their commit for as many steps.
fn leases_all<K: Race>(station: &mut Station<K>, share: &mut Share<K>) -> bool {
    let cpu = share.cpu();
    let Some(mut lease) = station.lend(cpu) else {
        return false;
    };
    if lease.cpu() != cpu || station.lend(3).is_some() {
        return false;
    }
    if lease.run(5) != 5 || lease.run(100) != 59 || lease.len() != 64 {
        return false;
    }
    station.commit(lease, share) == Ok(64)
        && station.journal().runs() == LEASED
        && station.steps(cpu) == Some(64)
        && share.count() == 64
}

/// Whether a lease under which nothing is done commits as no step, and one that is stale not at all.
fn leases_none<K: Race>(station: &mut Station<K>, share: &mut Share<K>) -> bool {
    let cpu = share.cpu();
    let (Some(mut lease), Some(stale)) = (station.lend(cpu), station.lend(cpu)) else {
        return false;
    };
    lease.run(0) == 0
        && station.commit(lease, share) == Ok(0)
        && station.journal().is_empty()
        && station.step(cpu, share) == Ok(Report::Ran(0x8000_0000))
        && station.commit(stale, share) == Err(CommitFault::Stale)
        && station.journal().len() == 1
        && share.count() == 1
}

/// What a test does with a station.
#[derive(Clone, Copy)]
enum Scene {
    Refuses,
    RefusesStale,
    Does,
    LeasesAll,
    LeasesNone,
}

/// Whether a station of two processors does in a scene what it should.
fn does<K: Race>(
    station: &mut Station<K>,
    share: &mut Share<K>,
    scene: Scene,
    boot: &Board,
) -> bool {
    match scene {
        Scene::Refuses => refuses_all(station, share, boot),
        Scene::RefusesStale => refuses_stale(station, share, boot),
        Scene::Does => does_each(station, share),
        Scene::LeasesAll => leases_all(station, share),
        Scene::LeasesNone => leases_none(station, share),
    }
}

/// Whether a station with this limit does in a scene what it should.
fn is_so<K: Race>(alloc: Global, boot: &Board, limit: u32, scene: Scene, blanks: Blanks) -> bool
    requires limit { limit ≤ 2 }
    requires blanks { AreOf K.names blanks }
{
    let Ok((mut station, mut shares)) = Station::<K>::new(
        alloc,
        boot,
        &[Outer::Tick],
        limit,
        blanks,
    ) else {
        return false;
    };
    if shares.len() != 2 || station.steps(3).is_some() {
        return false;
    }
    match shares.first_mut() {
        None => false,
        Some(share) => does(&mut station, share, scene, boot),
    }
}

/// The same, on ledgers of its own.
fn goes_well(alloc: Global, boot: &Board, limit: u32, scene: Scene) -> bool
    requires { limit ≤ 2 }
{
    is_so::<Brand>(alloc, boot, limit, scene, Blanks::new())
}

/// What happens between a lease of processor 1 and its commit.
#[derive(Clone, Copy)]
struct Between {
    name: &'static str,
    /// The code of task 2, which runs on processor 2, from 0x80001000 on.
    code: &'static [u32],
    /// How many steps processor 2 does.
    steps: u32,
    /// What the commit answers.
    wanted: Result<u32, CommitFault>,
}

/// Task 1 is an endless loop on processor 1. Task 3, of a higher priority there, is started by nobody but task 2.
const THREE: &str = "BOARD(2, 0x10000);
CRE_TSK(1, {TA_ACT, 0, 0x80000000, 2, 256, NULL});
CRE_TSK(3, {0, 0, 0x80000000, 1, 256, NULL});
CLASS(TCL_2) { CRE_TSK(2, {TA_ACT, 0, 0x80001000, 1, 256, NULL}); }
";

const BETWEEN: &[Between] = &[
    Between {
        name: "nothing",
        code: &[],
        steps: 0,
        wanted: Ok(5),
    },
    Between {
        name: "a higher task is started",
        code: &[0x2404_0003, 0x2402_0001, 0x0000_000c], // addiu $a0, $0, 3; addiu $v0, $0, 1: act_tsk; syscall
        steps: 3,
        wanted: Err(CommitFault::Stale),
    },
    Between {
        name: "the last word of the window is stored to",
        code: &[0x3c10_8000, 0xae10_00fc], // lui $s0, 0x8000; sw $s0, 0xfc($s0)
        steps: 2,
        wanted: Err(CommitFault::Stale),
    },
    Between {
        name: "the word after the window is stored to",
        code: &[0x3c10_8000, 0xae10_0100], // lui $s0, 0x8000; sw $s0, 0x100($s0)
        steps: 2,
        wanted: Ok(5),
    },
    Between {
        name: "the last word of the window is stored to, and then its old value",
        code: &[0x3c10_8000, 0xae10_00fc, 0xae00_00fc], // .. and sw $0, 0xfc($s0)
        steps: 3,
        wanted: Ok(5),
    },
];

/// The board of a case.
fn board_between(alloc: Global, case: &Between) -> Option<Board> {
    let mut words = Vec::new(alloc);
    for word in LOOP {
        words.push(*word).ok()?;
    }
    for _ in LOOP.len()..1024 {
        words.push(0).ok()?;
    }
    for word in case.code {
        words.push(*word).ok()?;
    }
    board_of(alloc, words.as_slice(), THREE)
}

/// Whether a lease's commit answers what it should, and appends as many steps, or none.
fn commits<K: Race>(
    station: &mut Station<K>,
    first: &mut Share<K>,
    second: &mut Share<K>,
    case: &Between,
) -> bool {
    let Some(mut lease) = station.lend(1) else {
        return false;
    };
    if lease.run(5) != 5 || first.cpu() != 1 || second.cpu() != 2 {
        return false;
    }
    for _ in 0..case.steps {
        let cpu = second.cpu();
        if station.step(cpu, second).is_err() {
            return false;
        }
    }
    let answer = station.commit(lease, first);
    let steps = u64::from(answer.unwrap_or(0));
    answer == case.wanted
        && station.journal().len() == steps + u64::from(case.steps)
        && first.count() == steps
        && station.steps(2) == Some(u64::from(case.steps))
}

/// Whether that is so on a station of its own.
fn is_committed<K: Race>(alloc: Global, boot: &Board, case: &Between, blanks: Blanks) -> bool
    requires { AreOf K.names blanks }
{
    let Ok((mut station, mut shares)) = Station::<K>::new(alloc, boot, &[], 10, blanks) else {
        return false;
    };
    let Some((first, others)) = shares.as_mut_slice().split_first_mut() else {
        return false;
    };
    let Some(second) = others.first_mut() else {
        return false;
    };
    commits(&mut station, first, second, case)
}

/// The same, on ledgers of its own.
fn commits_well(alloc: Global, boot: &Board, case: &Between) -> bool {
    is_committed::<Brand>(alloc, boot, case, Blanks::new())
}

/// Whether a case goes as it should.
fn goes_as_wanted(alloc: Global, case: &Between) -> bool {
    match board_between(alloc, case) {
        Some(boot) => commits_well(alloc, &boot, case),
        None => false,
    }
}

/// A lease is stale by its values, whatever came between.
#[test]
fn commits_between(rt: HostRuntime) {
    for case in BETWEEN {
        assert!(rt; goes_as_wanted(rt.alloc(), case), "{}", case.name);
    }
}

#[test]
fn stations(rt: HostRuntime) {
    let alloc = rt.alloc();
    let Some(boot) = board_of(alloc, LOOP, TWO) else {
        return assert!(rt; false, "no board");
    };
    assert!(rt; goes_well(alloc, &boot, 0, Scene::Refuses), "no room");
    assert!(rt;
        goes_well(alloc, &boot, 0, Scene::RefusesStale),
        "a stale lease and no room"
    );
    assert!(rt;
        goes_well(alloc, &boot, 2, Scene::Does),
        "room for two runs"
    );
    assert!(rt;
        goes_well(alloc, &boot, 2, Scene::LeasesAll),
        "a lease of 64"
    );
    assert!(rt;
        goes_well(alloc, &boot, 2, Scene::LeasesNone),
        "a lease of none"
    );
}
