//! The command `race`.

ghost use Rattle.std.specs.Prelude.{◌≡◌, ◌≤◌, length, IfOk, IfSome, MatchResult};
ghost use Rattle.brd_journal.specs.Journal.{most_runs};
ghost use Rattle.brd_journal.specs.Runs.{runs_of};
ghost use Rattle.brd_ledgers.specs.Blanks.{AreOf};
ghost use Rattle.brd_running.specs.Files.{RaceFilesEnd};
ghost use Rattle.brd_running.specs.RaceCommand.{IsShown, KeepsFromRacing, RaceEnds, ShowsStation, unkept};

use crate::idling::idle_steps;
use crate::meter::Meter;
use crate::turns::Turns;
use brd_base::NoMemory;
use brd_inputs::{CommandFault, Files, Inputs, RaceStart, open_inputs, read_race_start};
use brd_journal::MOST_RUNS;
use brd_progress::Progress;
use brd_report::{report, write_whole};
use brd_threads::{Blanks, Race, Station, processors};
use std::alloc::Global;
use std::io::{self, Read, Write};
use std::marker::Brand;
use std::sync::Wait;
use std::thread::Threads;

/// What is shown of a station.
#[derive(Drop)]
struct Shown {
    /// The text of its journal.
    journal: Vec<u8>,
    /// The report of its board.
    report: Vec<u8>,
    /// How often its processors took turns.
    turns: Turns,
    /// How many of their steps did nothing, where that is asked for.
    idle: u64,
}

/// Reads an object file, a configuration and a script to their ends, in this order. Lets a thread of the host work for
/// each processor of the board that the first two make, until that has done `quota` steps or the board is off, and one
/// for the script. Then it writes the text of the journal of what happened on `out`, and the board's report on
/// `writer`. Nothing is written where memory or threads ran out, or where what was read or the race has a fault. How
/// far the race is, is told on the way, by one of its threads at a time; and before anything is written, whether its
/// processors hardly took turns. Its ledgers are made of the blanks.
pub fn race<
    K: Race + Send + Sync,
    I: Read,
    O: Write,
    W: Write,
    P: Progress + Send,
    R: Threads + Wait + Sync,
>(
    rt: &R,
    alloc: Global,
    inputs: &mut Inputs<I>,
    quota: u32,
    out: &mut O,
    writer: &mut W,
    progress: &mut P,
    blanks: Blanks,
) -> Result<(), CommandFault>
    requires { AreOf K.names blanks }
    ensures { IfSome (I.remaining inputs.old.image) (λ file. IfSome (I.remaining inputs.old.config) (λ statements.
        IfSome (I.remaining inputs.old.last) (λ text.
        RaceEnds result quota file statements text (O.contents out.old) (O.contents out.new)
        (W.contents writer.old) (W.contents writer.new)))) }
{
    let start = match read_race_start(alloc, inputs) {
        Ok(start) => start,
        Err(fault) => return Err(fault),
    };
    let shown = match raced::<K, P, R>(rt, alloc, &start, quota, progress, blanks) {
        Ok(shown) => shown,
        Err(fault) => return Err(fault),
    };
    progress.hide();
    shown.turns.tell(shown.idle, progress);
    match write_whole(out, &shown.journal) {
        Ok(()) => {}
        Err(error) => return Err(CommandFault::Write(error)),
    }
    match write_whole(writer, &shown.report) {
        Ok(()) => Ok(()),
        Err(error) => Err(CommandFault::Write(error)),
    }
}

/// Does `race` on its files: IMAGE is opened, then CONFIG, then SCRIPT, then OUT is created or emptied, and then the
/// three are read. The report is written, and OUT is let go as `race` left it: it gets the journal whole or not at all.
pub fn race_files<F: Files, W: Write, P: Progress + Send, R: Threads + Wait + Sync>(
    rt: &R,
    alloc: Global,
    files: &mut F,
    image: &str,
    config: &str,
    script: &str,
    quota: u32,
    out: &str,
    output: &mut W,
    progress: &mut P,
) -> Result<(), CommandFault>
    ensures { RaceFilesEnd F.opened F.created F.closed F.Input.remaining F.Output.contents
        files.old image.now config.now script.now quota out.now (W.contents output.old)
        (W.contents output.new) result files.new }
{
    let mut inputs = match open_inputs(alloc, files, image, config, script) {
        Ok(inputs) => inputs,
        Err(fault) => return Err(fault),
    };
    let mut journal = match files.renew(out) {
        Ok(journal) => journal,
        Err(error) => return Err(CommandFault::of_open(alloc, out, error)),
    };
    let ended = race_on(
        rt,
        alloc,
        &mut inputs,
        quota,
        &mut journal,
        output,
        progress,
    );
    match files.keep(journal) {
        Ok(()) => ended,
        Err(error) => unkept(ended, error),
    }
}

/// How `race` ends where the journal couldn't be put where it belongs.
fn unkept(ended: Result<(), CommandFault>, error: io::Error) -> Result<(), CommandFault>
    ensures { result ≡ unkept ended error }
{
    match ended {
        Ok(()) => Err(CommandFault::Write(error)),
        Err(fault) => Err(fault),
    }
}

/// Does `race` on files that are open, with ledgers of its own.
fn race_on<I: Read, O: Write, W: Write, P: Progress + Send, R: Threads + Wait + Sync>(
    rt: &R,
    alloc: Global,
    inputs: &mut Inputs<I>,
    quota: u32,
    out: &mut O,
    output: &mut W,
    progress: &mut P,
) -> Result<(), CommandFault>
    ensures { IfSome (I.remaining inputs.old.image) (λ file. IfSome (I.remaining inputs.old.config) (λ statements.
        IfSome (I.remaining inputs.old.last) (λ text.
        RaceEnds result quota file statements text (O.contents out.old) (O.contents out.new)
        (W.contents output.old) (W.contents output.new)))) }
{
    race::<Brand, I, O, W, P, R>(
        rt,
        alloc,
        inputs,
        quota,
        out,
        output,
        progress,
        Blanks::new(),
    )
}

/// What is shown of the station that a race leaves.
fn raced<K: Race + Send + Sync, P: Progress + Send, R: Threads + Wait + Sync>(
    rt: &R,
    alloc: Global,
    start: &RaceStart,
    quota: u32,
    progress: &mut P,
    blanks: Blanks,
) -> Result<Shown, CommandFault>
    requires { AreOf K.names blanks }
    ensures { MatchResult result (λ shown. ShowsStation quota start.now shown.journal.items shown.report.items)
        (KeepsFromRacing quota start.now) }
{
    let Ok(quotas) = vec![in alloc; quota as u64; processors(&start.board)] else {
        return Err(CommandFault::NoMemory);
    };
    let steps = u64::from(quota).saturating_mul(processors(&start.board) as u64);
    let shows = progress.shows_turns();
    let meter = Meter::new(steps, progress);
    let raced = brd_threads::race::<K, Meter<'_, P>, R>(
        rt,
        alloc,
        &start.board,
        &start.script,
        &quotas,
        MOST_RUNS,
        &meter,
        blanks,
    );
    match raced {
        Ok(station) => Ok(shown_of(alloc, start, &station, shows)?),
        Err(fault) => Err(CommandFault::of_race(fault)),
    }
}

/// What is shown of a station that a race from this start has left. How many steps did nothing is looked at only where
/// it is shown.
fn shown_of<K: Race>(
    alloc: Global,
    start: &RaceStart,
    station: &Station<K>,
    shows: bool,
) -> Result<Shown, NoMemory>
    requires { length (runs_of station.now.journal.events) ≤ most_runs }
    ensures { IfOk result (λ shown. IsShown station.now shown.journal.items shown.report.items) }
{
    let journal = station.journal().write_text(alloc)?;
    let report = report(alloc, station.board(), station.journal().len())?;
    let turns = Turns::of(station);
    let idle = idle_of(start, station, turns, shows)?;
    Ok(Shown {
        journal,
        report,
        turns,
        idle,
    })
}

/// How many steps of a race from this start did nothing, if that is shown.
fn idle_of<K: Race>(
    start: &RaceStart,
    station: &Station<K>,
    turns: Turns,
    shows: bool,
) -> Result<u64, NoMemory> {
    if shows && turns.are_few() {
        return Ok(idle_steps(start.board.try_copy()?, station.journal()));
    }
    Ok(0)
}
