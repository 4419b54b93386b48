//! What stands at the end, in words.

use crate::arrivals::Arrivals;
use crate::turning::Turned;
use brd_base::{BASE, NoMemory};
use brd_board::{Board, Event, TaskState, TaskView};
use brd_config::Config;
use brd_happening::Before;
use brd_journal::Journal;
use brd_listing::Places;
use brd_mem::{Image, Segment};
use brd_names::Names;
use brd_printer::{Manner, Options};
use brd_spins::{put_spins, spins};
use brd_stacks::{Following, put_stacks, stacks_of};
use brd_text::hex_digits;
use brd_trace::Tracer;
use brd_verdicts::{Refused, findings_of};
use std::alloc::Global;

/// What stands at the end of a journal, as a summary of its trace tells it, how tasks came to where they ended by
/// exceptions, which stacks have overflowed, and which tasks have run off the end of the program.
pub(crate) fn summary(
    alloc: Global,
    image: &Image,
    config: &Config,
    boot: Board,
    turned: &Turned,
    tasks: u8,
) -> Result<Vec<u8>, NoMemory> {
    let mut out = Vec::new(alloc);
    let start = boot.try_copy()?;
    let first = boot.try_copy()?;
    put_summary(alloc, image, boot, &turned.journal, &mut out)?;
    if has_faults(&turned.board) {
        put_arrivals(alloc, image, first, &turned.journal, &mut out)?;
    }
    put_overflow(alloc, image, config, start, &turned.journal, &mut out)?;
    for before in 0..tasks {
        put_runaway(alloc, image, &turned.board, before as u16 + 1, &mut out)?;
    }
    Ok(out)
}

/// Puts at the end what a trace tells of a board after a journal.
fn put_summary(
    alloc: Global,
    image: &Image,
    boot: Board,
    journal: &Journal,
    out: &mut Vec<u8>,
) -> Result<(), NoMemory> {
    let symbols = Places::new(alloc, image.symbols.as_slice())?;
    let manner = Manner {
        names: Names::new(&symbols, image.segments.as_slice()),
        order: image.order,
        words: &[],
    };
    let options = Options {
        cpu: None,
        instructions: false,
        touching: false,
        shown: false,
        lines: [0; 160],
    };
    let first = boot.try_copy()?;
    let mut tracer = Tracer::new(alloc, boot, options)?;
    let len = journal.len();
    while tracer.playback.at < len {
        let mut lines = Vec::new(alloc);
        tracer.advance_far(alloc, manner, journal, len, &mut lines)?;
    }
    let found = findings_of(alloc, first.try_copy()?, journal, len)?;
    brd_summary::put_summary(&tracer, alloc, manner.names, &found, out)?;
    put_meant(found.accounts.refused.as_slice(), out)?;
    let spinning = spins(alloc, first, journal, &tracer.playback)?;
    put_spins(
        alloc,
        image.symbols.as_slice(),
        None,
        spinning.as_slice(),
        out,
    )
}

/// The calls of MARS and SPIM whose numbers are calls that take an ID or a priority here: they print an integer and a
/// string, read both, and end the program.
const OTHERS: [u32; 5] = [1, 4, 5, 8, 10];

/// Puts a line at the end, where a call was refused that has another meaning on MARS and SPIM.
fn put_meant(refused: &[Refused], out: &mut Vec<u8>) -> Result<(), NoMemory> {
    for kind in refused {
        if OTHERS.contains(&kind.call.number) {
            out.extend_from_slice(MEANT)?;
            return Ok(());
        }
    }
    Ok(())
}

/// What is said of such a call.
const MEANT: &[u8] =
    b"  (on MARS and SPIM 1 prints an integer, 4 a string, 11 a character, 10 ends: here 40 is \
put_chr, which writes a character, 3 ext_tsk and 41 ext_ker, which end a task and the board)\n";

/// Whether a processor of a board has had an exception.
fn has_faults(board: &Board) -> bool {
    for cpu in 1..9u8 {
        if board.last_fault(cpu).is_some() {
            return true;
        }
    }
    false
}

/// Puts lines at the end that say by which branch or jump somebody came to where the last exception of a processor was
/// raised, if that was of a fetch or of a word that stands for no instruction.
fn put_arrivals(
    alloc: Global,
    image: &Image,
    boot: Board,
    journal: &Journal,
    out: &mut Vec<u8>,
) -> Result<(), NoMemory> {
    let arrivals = arrivals_of(alloc, boot, journal)?;
    let symbols = Places::new(alloc, image.symbols.as_slice())?;
    let names = Names::new(&symbols, image.segments.as_slice());
    arrivals.put_all(names, alloc, out)
}

/// How the tasks and handlers of a journal came where they came.
fn arrivals_of(alloc: Global, boot: Board, journal: &Journal) -> Result<Arrivals, NoMemory> {
    let mut board = boot;
    let mut arrivals = Arrivals::new(alloc);
    for others in 0..journal.len() {
        if let Some(event) = journal.event_at(others) {
            follow(alloc, &mut board, event, &mut arrivals)?;
        }
    }
    Ok(arrivals)
}

/// Lets a board do an event, and follows it.
fn follow(
    alloc: Global,
    board: &mut Board,
    event: Event,
    arrivals: &mut Arrivals,
) -> Result<(), NoMemory> {
    let before = Before::of(alloc, board, event)?;
    let report = board.event_apart(event);
    let told = before.happening(alloc, report, board)?;
    arrivals.follow(&told)
}

/// Puts lines at the end that say how deep each stack became, where one has overflowed.
fn put_overflow(
    alloc: Global,
    image: &Image,
    config: &Config,
    boot: Board,
    journal: &Journal,
    out: &mut Vec<u8>,
) -> Result<(), NoMemory> {
    let symbols = image.symbols.as_slice();
    let stacks = stacks_of(alloc, symbols, config)?;
    let mut following = Following::new(alloc, boot, stacks.as_slice())?;
    let len = journal.len();
    while following.playback.at < len {
        following.advance_far(alloc, journal, len)?;
        if following.has_overflow() {
            return put_stacks(alloc, symbols, following.tracks(), out);
        }
    }
    Ok(())
}

/// Puts a line at the end where a task goes on, or has stopped by an exception, at an address at which nothing of the
/// program lies, nor before it. Of one below RAM, as of a return from a task's function, the exception says enough.
fn put_runaway(
    alloc: Global,
    image: &Image,
    board: &Board,
    id: u16,
    out: &mut Vec<u8>,
) -> Result<(), NoMemory> {
    let Some(place) = place_of(board.task(id)) else {
        return Ok(());
    };
    let segments = image.segments.as_slice();
    if place < BASE {
        return Ok(());
    }
    if lies_in(segments, place) || lies_in(segments, place.wrapping_sub(4)) {
        return Ok(());
    }
    let front = format!(in alloc;
        "task {id} has run off the end of the program: nothing of it lies at "
    )?;
    out.extend_from_slice(front.as_bytes())?;
    out.extend_from_slice(&hex_digits(place))?;
    out.push(b'\n')?;
    Ok(())
}

/// Where a task goes on, or has ended.
fn place_of(task: Option<TaskView>) -> Option<u32> {
    let task = task?;
    match task.state {
        TaskState::Ready | TaskState::Dormant => Some(task.context.pc()),
        _ => None,
    }
}

/// Whether an address lies in one of some segments.
fn lies_in(segments: &[Segment], address: u32) -> bool {
    for segment in segments {
        let is_behind = segment.address <= address;
        if is_behind && ((address - segment.address) as usize) < segment.bytes.len() {
            return true;
        }
    }
    false
}
