//! Lets stations do steps, ticks, interrupts and leases, and races, for two tests. One refuses each growth: then
//! station and share are as they were, and what was refused is done; a race, which gives its station up, is begun anew.
//! The other counts how often memory is asked for. Standard input has rows (docs/dev/GATE.md, "Rows"). What is printed
//! doesn't depend on the schedule.
//!
//! - `race N` reads a script, and lets a station do each event n times, and a race;
//! - `station N` makes that script, which asks for memory once, and lets a station alone do each event n times.
#![tactic(auto)]

ghost use Rattle.std.specs.Prelude.{◌≡◌, length};
ghost use Rattle.brd_ledgers.specs.Blanks.{AreOf};
ghost use Rattle.brd_threads.specs.Processors.{processors_of};

use anyhow::{Result, bail};
use brd_board::Board;
use brd_config::parse;
use brd_mem::Image;
use brd_threads::{
    Blanks, CommitFault, Open, Outer, Race, RaceFault, ScriptFault, Share, Station, StationFault,
    processors, race, read_script,
};
use std::alloc::Global;
use std::io::{BufRead, BufReader};
use std::marker::Brand;
use std::sync::Wait;
use std::thread::Threads;
use test_help::row_of;

/// Tasks 1 and 2: a loop of local instructions. The handler of line 4: it ends at once. Task 3: it starts task 4, over
/// and over. Task 4: it ends by an exception.
const WORDS: &[u32] = &[
    0x2508_0001, // addiu $t0, $t0, 1
    0x1000_fffe, // b to the first word
    0x0000_0000, // nop
    0x2402_003a, // addiu $v0, $0, 58: ret_int
    0x0000_000c, // syscall
    0x2404_0004, // addiu $a0, $0, 4
    0x2402_0001, // addiu $v0, $0, 1: act_tsk
    0x0000_000c, // syscall
    0x1000_fffc, // b to the first of these
    0x0000_0000, // nop
    0x0000_000d, // break
];

const CONFIG: &str = "BOARD(3, 0x10000);
CRE_TSK(1, {TA_ACT, 0, 0x80000000, 1, 256, NULL});
CLASS(TCL_2) {
    CRE_TSK(2, {TA_ACT, 0, 0x80000000, 1, 256, NULL});
    DEF_INH(4, {TA_HLNG, 0x8000000c});
}
CLASS(TCL_3) {
    CRE_TSK(3, {TA_ACT, 0, 0x80000014, 2, 256, NULL});
    CRE_TSK(4, {TA_HLNG, 0, 0x80000028, 1, 256, NULL});
}
";

/// How many runs a journal may have.
const LIMIT: u32 = 1_000_000;

/// The board of `WORDS` and `CONFIG`.
fn boot(alloc: Global) -> Result<Board> {
    let image = Image::from_words(alloc, WORDS)?;
    let config = parse(alloc, CONFIG.as_bytes())?;
    Ok(Board::boot(alloc, &image, &config)?)
}

/// What is seen of a station and a share.
#[derive(Clone, Copy, PartialEq)]
struct Seen {
    len: u64,
    runs: usize,
    steps: Option<u64>,
    count: u64,
    now: u64,
    pc: Option<u32>,
}

fn seen_of<K: Race>(station: &Station<K>, share: &Share<K>) -> Seen {
    Seen {
        len: station.journal().len(),
        runs: station.journal().runs().len(),
        steps: station.steps(share.cpu()),
        count: share.count(),
        now: station.board().now(),
        pc: station
            .board()
            .registers(share.cpu())
            .map(|context| context.pc()),
    }
}

/// What is done with a station.
#[derive(Clone, Copy)]
enum Deed {
    Step,
    Script,
    Lease,
}

/// Does a deed.
fn done<K: Race>(
    station: &mut Station<K>,
    share: &mut Share<K>,
    deed: Deed,
) -> Result<(), CommitFault> {
    let cpu = share.cpu();
    match deed {
        Deed::Step => {
            station.step(cpu, share)?;
        }
        Deed::Script => {
            station.script_next()?;
        }
        Deed::Lease => {
            if let Some(mut lease) = station.lend(cpu) {
                let _ = lease.run(64);
                station.commit(lease, share)?;
            }
        }
    }
    Ok(())
}

/// The same. Where memory is refused, nothing has changed, and it is done then.
fn done_surely<K: Race>(station: &mut Station<K>, share: &mut Share<K>, deed: Deed) -> Result<()> {
    let before = seen_of(station, share);
    match done(station, share, deed) {
        Ok(()) => return Ok(()),
        Err(CommitFault::NoMemory) => {}
        Err(fault) => bail!("{fault}"),
    }
    if seen_of(station, share) != before {
        bail!("what was refused has changed the station");
    }
    Ok(done(station, share, deed)?)
}

/// Does a deed n times.
fn done_often<K: Race>(
    station: &mut Station<K>,
    share: &mut Share<K>,
    deed: Deed,
    often: usize,
) -> Result<()> {
    for _ in 0..often {
        done_surely(station, share, deed)?;
    }
    Ok(())
}

/// Does each deed n times with each share: ticks with the first, raises with the second, ticks with the third.
fn all_done<K: Race>(
    station: &mut Station<K>,
    shares: &mut [Share<K>],
    often: usize,
) -> Result<()> {
    for share in shares.iter_mut() {
        done_often(station, share, Deed::Step, often)?;
        done_often(station, share, Deed::Script, often)?;
        done_often(station, share, Deed::Step, often)?;
        done_often(station, share, Deed::Lease, often)?;
    }
    Ok(())
}

/// What is left of a station.
#[derive(Clone, Copy)]
struct Left {
    steps: u64,
    outers: u64,
    runs: usize,
}

/// What is left of a station of this boot and script when all is done. None where there was no memory for it.
fn stationed<K: Race>(
    alloc: Global,
    boot: &Board,
    script: &[Outer],
    often: usize,
    blanks: Blanks,
) -> Result<Option<Left>>
    requires { AreOf K.names blanks }
{
    let (mut station, mut shares) = match Station::<K>::new(alloc, boot, script, LIMIT, blanks) {
        Ok(made) => made,
        Err(StationFault::NoMemory) => return Ok(None),
        Err(fault) => bail!("{fault}"),
    };
    all_done(&mut station, shares.as_mut_slice(), often)?;
    Ok(Some(left_of(&station)))
}

/// What is left of a station.
fn left_of<K: Race>(station: &Station<K>) -> Left {
    let mut steps = 0u64;
    for cpu in 1..4u8 {
        steps = steps.saturating_add(station.steps(cpu).unwrap_or(0));
    }
    Left {
        steps,
        outers: station.journal().len().saturating_sub(steps),
        runs: station.journal().runs().len(),
    }
}

/// The same, on ledgers of its own.
fn stationed_once(
    alloc: Global,
    boot: &Board,
    script: &[Outer],
    often: usize,
) -> Result<Option<Left>> {
    stationed::<Brand>(alloc, boot, script, often, Blanks::new())
}

/// The same; once more where there was no memory.
fn stationed_surely(alloc: Global, boot: &Board, script: &[Outer], often: usize) -> Result<Left> {
    if let Some(left) = stationed_once(alloc, boot, script, often)? {
        return Ok(left);
    }
    match stationed_once(alloc, boot, script, often)? {
        Some(left) => Ok(left),
        None => bail!("out of memory twice"),
    }
}

/// What a race leaves.
fn raced<K: Race + Send + Sync, R: Threads + Wait + Sync>(
    rt: &R,
    alloc: Global,
    boot: &Board,
    script: &[Outer],
    quotas: &[u64],
    blanks: Blanks,
) -> Result<Left, RaceFault>
    requires each { length quotas.now ≡ processors_of boot.now }
    requires blanks { AreOf K.names blanks }
{
    let station = race::<K, Open, R>(rt, alloc, boot, script, quotas, LIMIT, &Open, blanks)?;
    Ok(left_of(&station))
}

/// The same, on ledgers of its own.
fn raced_once<R: Threads + Wait + Sync>(
    rt: &R,
    alloc: Global,
    boot: &Board,
    script: &[Outer],
    quotas: &[u64],
) -> Result<Left, RaceFault>
    requires each { length quotas.now ≡ processors_of boot.now }
{
    raced::<Brand, R>(rt, alloc, boot, script, quotas, Blanks::new())
}

/// The same; once more where there was no memory.
fn raced_surely<R: Threads + Wait + Sync>(
    rt: &R,
    alloc: Global,
    boot: &Board,
    script: &[Outer],
) -> Result<Left> {
    let quotas = [200u64; 3];
    if processors(boot) != quotas.len() {
        bail!("another board");
    }
    match raced_once(rt, alloc, boot, script, &quotas) {
        Err(RaceFault::NoMemory) => Ok(raced_once(rt, alloc, boot, script, &quotas)?),
        answer => Ok(answer?),
    }
}

/// Ticks, raises and ticks, each n times. Asks for memory once, however many they are.
fn script_of_all(alloc: Global, often: usize) -> Result<Vec<Outer>> {
    let mut script = Vec::with_capacity(alloc, often.saturating_mul(3))?;
    for entry in [Outer::Tick, Outer::Raise(4), Outer::Tick] {
        for _ in 0..often {
            script.push(entry)?;
        }
    }
    Ok(script)
}

/// The script of a text; once more where there was no memory.
fn script_of(alloc: Global, text: &str) -> Result<Vec<Outer>> {
    match read_script(alloc, text.as_bytes()) {
        Err(ScriptFault::NoMemory) => Ok(read_script(alloc, text.as_bytes())?),
        answer => Ok(answer?),
    }
}

/// Tells what is left of a station of this script.
fn tell_station(
    rt: &impl Print,
    alloc: Global,
    boot: &Board,
    script: &[Outer],
    often: u32,
) -> Result<()> {
    let left = stationed_surely(alloc, boot, script, often as usize)?;
    let (steps, outers, runs) = (left.steps, left.outers, left.runs);
    println!(rt; "station: {steps} steps, {outers} of the script, {runs} runs")?;
    Ok(())
}

/// Tells of a station and of a race, whose script is read.
fn tell_all(
    rt: &(impl Print + Threads + Wait + Sync),
    alloc: Global,
    boot: &Board,
    often: u32,
) -> Result<()> {
    let text = format!(in alloc; "T {often}\nR 4 {often}\nT {often}\n")?;
    let script = script_of(alloc, text.as_str())?;
    tell_station(rt, alloc, boot, &script, often)?;
    let left = raced_surely(rt, alloc, boot, &script)?;
    let (steps, outers) = (left.steps, left.outers);
    println!(rt; "race: {steps} steps, {outers} of the script")?;
    Ok(())
}

/// The number that a text is.
fn number_of(text: &str) -> Result<u32> {
    match text.parse::<u32>() {
        Ok(number) => Ok(number),
        Err(_) => bail!("there is no number"),
    }
}

/// Does what a row says.
fn do_row(
    rt: &(impl Print + Threads + Wait + Sync),
    alloc: Global,
    boot: &Board,
    word: &str,
    text: &str,
) -> Result<()> {
    let often = number_of(text)?;
    match word {
        "race" => tell_all(rt, alloc, boot, often),
        "station" => {
            let script = script_of_all(alloc, often as usize)?;
            tell_station(rt, alloc, boot, &script, often)
        }
        _ => bail!("no row: {word} {text}"),
    }
}

fn run(rt: &(impl Input + Print + AllocGlobal + Threads + Wait + Sync)) -> Result<()> {
    let alloc = rt.alloc();
    let boot = boot(alloc)?;
    for line in BufReader::new(alloc, rt.reader())?.lines(alloc) {
        let line = line?;
        if let Some((word, text)) = row_of(line.as_str()) {
            do_row(rt, alloc, &boot, word, text)?;
        }
    }
    Ok(())
}

fn main(rt: HostRuntime) -> Result<()> {
    run(&rt)
}
