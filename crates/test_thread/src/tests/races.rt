//! Races, and what they leave.

ghost use Rattle.std.specs.Prelude.{◌≡◌, ◌≤◌, length};
ghost use Rattle.brd_journal.specs.Journal.{most_runs};
ghost use Rattle.brd_ledgers.specs.Blanks.{AreOf};
ghost use Rattle.brd_threads.specs.Processors.{processors_of};

use crate::tests::boards::{LOOP, TWO, board_of};
use brd_board::{Board, Event};
use brd_journal::{Journal, Playback};
use brd_threads::{
    Blanks, Gate, Open, Outer, Race, RaceFault, Station, driver, processors, race, worker,
};
use std::alloc::Global;
use std::marker::Brand;
use std::sync::{Mutex, Wait};
use std::thread::Threads;

/// What is seen of a station after a race.
#[derive(Clone, Copy, Debug, PartialEq, Eq)]
pub struct Totals {
    /// The steps of processor 1 in the journal.
    pub first: u64,
    /// Those of processor 2.
    pub second: u64,
    /// The steps of all processors.
    pub steps: u64,
    /// The ticks in the journal.
    pub ticks: u64,
    /// The ticks and raises.
    pub outers: u64,
    /// The runs of the journal.
    pub runs: usize,
    /// Whether the board is off.
    pub is_off: bool,
    /// Whether the journal, from the boot on, leads to the same board.
    pub is_replay: bool,
}

/// Whether the journal of a station makes its board of the boot.
fn is_replay<K: Race>(station: &Station<K>, boot: &Board) -> bool {
    let Ok(board) = boot.try_copy() else {
        return false;
    };
    let mut playback = Playback { board, at: 0 };
    let len = station.journal().len();
    playback.play_to(station.journal(), len, len);
    playback.board.same(station.board())
}

/// The steps of all processors.
fn steps_of<K: Race>(station: &Station<K>) -> u64 {
    let mut steps = 0u64;
    for cpu in 1..9u8 {
        steps = steps.saturating_add(station.steps(cpu).unwrap_or(0));
    }
    steps
}

/// How often an event is in a journal.
fn count_of(journal: &Journal, event: Event) -> u64 {
    let mut count = 0u64;
    for run in journal.runs() {
        if run.event == event {
            count = count.saturating_add(u64::from(run.count));
        }
    }
    count
}

/// What a race leaves, on ledgers of these blanks.
fn raced<K: Race + Send + Sync, G: Gate + Sync, R: Threads + Wait + Sync>(
    rt: &R,
    alloc: Global,
    boot: &Board,
    script: &[Outer],
    quotas: &[u64],
    limit: u32,
    gate: &G,
    blanks: Blanks,
) -> Result<Totals, RaceFault>
    requires limit { limit ≤ most_runs }
    requires each { length quotas.now ≡ processors_of boot.now }
    requires blanks { AreOf K.names blanks }
{
    let station = race::<K, G, R>(rt, alloc, boot, script, quotas, limit, gate, blanks)?;
    let steps = steps_of(&station);
    Ok(Totals {
        first: count_of(station.journal(), Event::Step(1)),
        second: count_of(station.journal(), Event::Step(2)),
        steps,
        ticks: count_of(station.journal(), Event::Tick),
        outers: station.journal().len().saturating_sub(steps),
        runs: station.journal().runs().len(),
        is_off: station.board().is_off(),
        is_replay: is_replay(&station, boot),
    })
}

/// What a race leaves. `Broken` also where there are more or fewer quotas than processors.
pub fn raced_on<G: Gate + Sync, R: Threads + Wait + Sync>(
    rt: &R,
    alloc: Global,
    boot: &Board,
    script: &[Outer],
    quotas: &[u64],
    limit: u32,
    gate: &G,
) -> Result<Totals, RaceFault>
    requires limit { limit ≤ most_runs }
{
    if quotas.len() != processors(boot) {
        return Err(RaceFault::Broken);
    }
    raced::<Brand, G, R>(rt, alloc, boot, script, quotas, limit, gate, Blanks::new())
}

/// Five ticks.
const TICKS: &[Outer] = &[
    Outer::Tick,
    Outer::Tick,
    Outer::Tick,
    Outer::Tick,
    Outer::Tick,
];

/// Eight processors with a task each, at the first word.
const EIGHT: &str = "BOARD(8, 0x10000);
CRE_TSK(1, {TA_ACT, 0, 0x80000000, 1, 256, NULL});
CLASS(TCL_2) { CRE_TSK(2, {TA_ACT, 0, 0x80000000, 1, 256, NULL}); }
CLASS(TCL_3) { CRE_TSK(3, {TA_ACT, 0, 0x80000000, 1, 256, NULL}); }
CLASS(TCL_4) { CRE_TSK(4, {TA_ACT, 0, 0x80000000, 1, 256, NULL}); }
CLASS(TCL_5) { CRE_TSK(5, {TA_ACT, 0, 0x80000000, 1, 256, NULL}); }
CLASS(TCL_6) { CRE_TSK(6, {TA_ACT, 0, 0x80000000, 1, 256, NULL}); }
CLASS(TCL_7) { CRE_TSK(7, {TA_ACT, 0, 0x80000000, 1, 256, NULL}); }
CLASS(TCL_8) { CRE_TSK(8, {TA_ACT, 0, 0x80000000, 1, 256, NULL}); }
";

/// Each task adds 1 to the word at 0x80001000 fifty times, each time while its processor holds spin lock 1
/// (`tests/locked/adders.s`).
const ADDERS: &[u32] = &[
    0x3c10_8000, // lui $s0, 0x8000
    0x2411_0032, // addiu $s1, $0, 50
    0x2404_0001, // addiu $a0, $0, 1
    0x2402_003c, // addiu $v0, $0, 60: loc_spn
    0x0000_000c, // syscall
    0x8e08_1000, // lw $t0, 0x1000($s0)
    0x2508_0001, // addiu $t0, $t0, 1
    0xae08_1000, // sw $t0, 0x1000($s0)
    0x2402_003e, // addiu $v0, $0, 62: unl_spn
    0x0000_000c, // syscall
    0x2631_ffff, // addiu $s1, $s1, -1
    0x1620_fff7, // bnez $s1, to the call of loc_spn
    0x0000_0000, // nop
    0x2402_0003, // addiu $v0, $0, 3: ext_tsk
    0x0000_000c, // syscall
];

/// Two processors with a task each, at the first word, and a spin lock.
const LOCKED: &str = "BOARD(2, 0x10000);
CRE_SPN(1, {TA_NULL});
CRE_TSK(1, {TA_ACT, 0, 0x80000000, 1, 256, NULL});
CLASS(TCL_2) { CRE_TSK(2, {TA_ACT, 0, 0x80000000, 1, 256, NULL}); }
";

/// Two processors: task 1 calls ext_ker with its second instruction, task 2 is a loop.
const OFF_WORDS: &[u32] = &[0x2402_0029, 0x0000_000c, 0x1000_ffff, 0];

const OFF: &str = "BOARD(2, 0x10000);
CRE_TSK(1, {TA_ACT, 0, 0x80000000, 1, 256, NULL});
CLASS(TCL_2) { CRE_TSK(2, {TA_ACT, 0, 0x80000008, 1, 256, NULL}); }
";

/// A race of two endless loops has done all, also with nothing to do.
#[test]
fn all_is_done(rt: HostRuntime) {
    let alloc = rt.alloc();
    let Some(boot) = board_of(alloc, LOOP, TWO) else {
        return assert!(rt; false, "no board");
    };
    let done = raced_on(&rt, alloc, &boot, TICKS, &[100, 100], 1000, &Open);
    assert!(rt;
        matches!(done, Ok(left) if left.first == 100
            && left.second == 100
            && left.steps == 200
            && left.ticks == 5
            && left.outers == 5
            && left.is_replay
            && !left.is_off),
        "{done:?}"
    );
    let nothing = raced_on(&rt, alloc, &boot, &[], &[0, 0], 0, &Open);
    assert!(rt;
        matches!(nothing, Ok(left) if left.steps == 0 && left.runs == 0),
        "{nothing:?}"
    );
}

/// A journal is full for two processors that take turns at least once, and has room for the steps of one.
#[test]
fn journal_of_one_run(rt: HostRuntime) {
    let alloc = rt.alloc();
    let Some(boot) = board_of(alloc, LOOP, TWO) else {
        return assert!(rt; false, "no board");
    };
    let both = raced_on(&rt, alloc, &boot, &[], &[10, 10], 1, &Open);
    let one = raced_on(&rt, alloc, &boot, &[], &[10, 0], 1, &Open);
    assert!(rt;
        both == Err(RaceFault::JournalFull)
            && matches!(one, Ok(left) if left.steps == 10 && left.runs == 1 && left.is_replay),
        "{both:?} {one:?}"
    );
}

/// A race in which no processor does a step, and the journal has no room for the script's first entry: the driver alone
/// has a fault.
#[test]
fn only_the_driver_has_a_fault(rt: HostRuntime) {
    let alloc = rt.alloc();
    let Some(boot) = board_of(alloc, LOOP, TWO) else {
        return assert!(rt; false, "no board");
    };
    let full = raced_on(&rt, alloc, &boot, TICKS, &[0, 0], 0, &Open);
    assert!(rt; full == Err(RaceFault::JournalFull), "{full:?}");
}

/// The words and the configuration of a board on which every quota is met, the quotas, and how many steps these are.
type Met = (&'static [u32], &'static str, &'static [u64], u64);

const MET: &[Met] = &[
    (LOOP, EIGHT, &[20, 20, 20, 20, 20, 20, 20, 20], 160),
    (ADDERS, LOCKED, &[1_000, 1_000], 2_000),
];

/// Whether a race does that, and its journal makes its board.
fn meets<R: Threads + Wait + Sync>(rt: &R, alloc: Global, row: &Met) -> bool {
    let (words, config, quotas, steps) = *row;
    match board_of(alloc, words, config) {
        Some(boot) => matches!(
            raced_on(rt, alloc, &boot, TICKS, quotas, 100_000, &Open),
            Ok(left) if left.steps == steps && left.outers == 5 && left.is_replay
        ),
        None => false,
    }
}

/// Eight processors; two that want one spin lock.
#[test]
fn quotas_are_met(rt: HostRuntime) {
    for row in MET {
        assert!(rt; meets(&rt, rt.alloc(), row), "{}", row.1);
    }
}

/// A board that goes off in the middle ends the race, which isn't broken.
#[test]
fn board_goes_off(rt: HostRuntime) {
    let alloc = rt.alloc();
    let Some(boot) = board_of(alloc, OFF_WORDS, OFF) else {
        return assert!(rt; false, "no board");
    };
    let done = raced_on(
        &rt,
        alloc,
        &boot,
        TICKS,
        &[1_000_000, 1_000_000],
        100_000,
        &Open,
    );
    assert!(rt;
        matches!(done, Ok(left) if left.is_off && left.is_replay && left.steps < 2_000_000 && left.outers <= 5),
        "{done:?}"
    );
}

/// Whether a driver and a worker do nothing on a board that is off, on ledgers of these blanks.
fn ends_at_once<K: Race + Send + Sync, R: Wait>(
    rt: &R,
    alloc: Global,
    off: &Board,
    blanks: Blanks,
) -> bool
    requires { AreOf K.names blanks }
{
    let Ok((station, mut shares)) = Station::<K>::new(alloc, off, TICKS, 10, blanks) else {
        return false;
    };
    let shared = Mutex::new(station);
    let Some(share) = shares.pop() else {
        return false;
    };
    if share.count() != 0 {
        return false;
    }
    let driven = driver(rt, alloc, &shared);
    let (share, worked) = worker(rt, alloc, &shared, 10, &Open, share);
    driven == Ok(())
        && worked == Ok(false)
        && share.count() == 0
        && shared.into_inner().journal().is_empty()
}

/// The same, on ledgers of its own.
fn does_nothing<R: Wait>(rt: &R, alloc: Global, off: &Board) -> bool {
    ends_at_once::<Brand, R>(rt, alloc, off, Blanks::new())
}

/// On a board that is off nothing is taken of the script, and no processor does a step.
#[test]
fn board_is_off(rt: HostRuntime) {
    let alloc = rt.alloc();
    let Some(mut board) = board_of(alloc, OFF_WORDS, OFF) else {
        return assert!(rt; false, "no board");
    };
    board.repeat(Event::Step(1), 2);
    assert!(rt; board.is_off() && does_nothing(&rt, alloc, &board));
}
