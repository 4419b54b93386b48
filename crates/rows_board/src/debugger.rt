//! A journal that is appended to, and a debugger that moves over it. Where memory is refused, the journal, or the
//! position and the board, are as they were, and what was refused is done then.

use anyhow::{Result, bail};
use brd_board::{Board, Event};
use brd_debug::{DebugFault, Debugger};
use brd_journal::{Journal, JournalFault, Run};
use brd_word::Order;
use std::alloc::Global;

/// A move of a debugger.
#[derive(Clone, Copy)]
enum Move {
    Goto(u64),
    Next,
    Back,
}

/// Moves to and fro, over events near each other and far apart, so that snapshots are taken and played from.
const MOVES: &[Move] = &[
    Move::Goto(10),
    Move::Next,
    Move::Back,
    Move::Goto(30_000),
    Move::Back,
    Move::Goto(9_000),
    Move::Next,
    Move::Goto(29_000),
    Move::Goto(0),
    Move::Back,
];

/// What is seen of a journal.
#[derive(Clone, Copy, PartialEq)]
struct Seen {
    len: u64,
    runs: usize,
    last: Option<Run>,
}

fn seen_of(journal: &Journal) -> Seen {
    Seen {
        len: journal.len(),
        runs: journal.runs().len(),
        last: journal.runs().last().copied(),
    }
}

/// Appends a run: one event by `push`, more by `push_run`.
fn append(journal: &mut Journal, event: Event, count: u32) -> Result<(), JournalFault> {
    if count == 1 {
        return journal.push(event);
    }
    journal.push_run(event, count)
}

/// The same. Where memory is refused the journal is as it was, and it is done then.
fn appended(journal: &mut Journal, event: Event, count: u32) -> Result<()> {
    let before = seen_of(journal);
    match append(journal, event, count) {
        Ok(()) => return Ok(()),
        Err(JournalFault::NoMemory) => {}
        Err(fault) => bail!("{fault}"),
    }
    if seen_of(journal) != before {
        bail!("what was refused has changed the journal");
    }
    Ok(append(journal, event, count)?)
}

/// A big-endian journal of steps of three processors, ticks and interrupts.
fn journal_of_all(alloc: Global) -> Result<Journal> {
    let mut journal = Journal::new(alloc, 4096, Order::Big);
    for _ in 0..700u16 {
        appended(&mut journal, Event::Step(1), 20)?;
        appended(&mut journal, Event::Step(2), 15)?;
        appended(&mut journal, Event::Tick, 1)?;
        appended(&mut journal, Event::Step(3), 7)?;
        appended(&mut journal, Event::Raise(4), 1)?;
    }
    Ok(journal)
}

/// Does a move, and answers the position.
fn moved(debugger: &mut Debugger, how: Move) -> Result<Option<u64>, DebugFault> {
    match how {
        Move::Goto(position) => {
            debugger.goto(position)?;
            Ok(Some(position))
        }
        Move::Next => Ok(debugger.next_stop()?),
        Move::Back => Ok(debugger.last_stop()?),
    }
}

/// The same. Where memory is refused the debugger is at `at` and shows `board`, as before, and moves then.
fn moved_from(debugger: &mut Debugger, how: Move, at: u64, board: &Board) -> Result<Option<u64>> {
    match moved(debugger, how) {
        Ok(found) => return Ok(found),
        Err(DebugFault::NoMemory) => {}
        Err(fault) => bail!("{fault}"),
    }
    if debugger.position() != at || !debugger.show().same(board) {
        bail!("what was refused has moved the debugger");
    }
    Ok(moved(debugger, how)?)
}

/// Does all moves, and tells where they lead.
fn told_of_moves(alloc: Global, debugger: &mut Debugger) -> Result<String> {
    let mut text = String::new(alloc);
    for how in MOVES {
        let board = debugger.show().try_copy()?;
        let at = debugger.position();
        match moved_from(debugger, *how, at, &board)? {
            Some(position) => write!(text, "\n  at {position}")?,
            None => text.push_str("\n  none")?,
        }
    }
    Ok(text)
}

/// Where the moves of a debugger lead, over a journal of steps, ticks and interrupts from this board on, and how many
/// runs the journal has.
pub fn told_of_debugger(alloc: Global, board: Board) -> Result<String> {
    let journal = journal_of_all(alloc)?;
    let mut text = format!(in alloc; "runs {}", journal.runs().len())?;
    if board.order() != journal.order() {
        bail!("the board isn't big-endian");
    }
    let mut debugger = Debugger::new(alloc, board, journal)?;
    let _ = debugger.add_break(0x8000_001c);
    let _ = debugger.add_watch(0x8000_8003);
    text.push_str(told_of_moves(alloc, &mut debugger)?.as_str())?;
    if let Err(fault) = debugger.goto(u64::MAX) {
        write!(text, "\n  {fault}")?;
    }
    Ok(text)
}
