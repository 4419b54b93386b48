//! What is odd about a board and a journal for it.

use crate::finding::{Finding, told};
use crate::hint::FaultHint;
use brd_board::{Board, Event, TaskState};
use brd_journal::Journal;

/// What is odd about a board to which nothing has happened, and a journal for it: that it steps a processor that isn't
/// there; or that no task is started, no interrupt comes, and no time handler is due.
pub fn run_warning(board: &Board, journal: &Journal) -> FaultHint {
    if let Some(cpu) = absent(board, journal) {
        let template = b"it steps processor ?, and the board has &: these steps do nothing";
        let found = Finding::at(&[], template, &[])
            .with_number(cpu as u64)
            .with_second(processors(board));
        return told(b"the journal", None, None, Some(found));
    }
    if !journal.is_empty() && !has_raises(journal) && !has_started(board) && !has_due(board) {
        let template = b"no task is started: one that begins at once has the attribute TA_ACT";
        let found = Finding::at(&[], template, &[]);
        return told(b"the configuration", None, None, Some(found));
    }
    FaultHint::none()
}

/// The first processor that a journal steps and that isn't there.
fn absent(board: &Board, journal: &Journal) -> Option<u8> {
    for run in journal.runs() {
        if let Event::Step(cpu) = run.event {
            if board.standing(cpu).is_none() {
                return Some(cpu);
            }
        }
    }
    None
}

/// How many processors a board has.
fn processors(board: &Board) -> u64 {
    let mut count = 0u64;
    for cpu in 1..9u8 {
        if board.standing(cpu).is_some() {
            count = cpu as u64;
        }
    }
    count
}

/// Whether a journal raises an interrupt line.
fn has_raises(journal: &Journal) -> bool {
    for run in journal.runs() {
        if let Event::Raise(_) = run.event {
            return true;
        }
    }
    false
}

/// Whether a task is ready.
fn has_started(board: &Board) -> bool {
    for id in 1..256u16 {
        if let Some(task) = board.task(id) {
            if matches!(task.state, TaskState::Ready) {
                return true;
            }
        }
    }
    false
}

/// Whether a time handler is due at a tick.
fn has_due(board: &Board) -> bool {
    for place in 0..128u8 {
        if board.timer_due(place).is_some() {
            return true;
        }
    }
    false
}
