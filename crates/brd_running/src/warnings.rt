//! What is odd about the input of a command, which is done all the same.

use brd_board::Board;
use brd_inputs::{end_warning, run_warning, source_warnings};
use brd_journal::Journal;
use brd_progress::Progress;
use std::alloc::Global;

/// Tells what is odd about a source. Where there is no memory for that, nothing is told.
pub fn warn_of_source<P: Progress>(alloc: Global, source: &[u8], progress: &mut P) {
    let Ok(warnings) = source_warnings(alloc, source) else {
        return;
    };
    for warning in warnings.as_slice() {
        progress.warn(warning);
    }
}

/// Tells what is odd about a board to which nothing has happened, and a journal for it.
pub fn warn_of_run<P: Progress>(board: &Board, journal: &Journal, progress: &mut P) {
    let warning = run_warning(board, journal);
    if !warning.is_none() {
        progress.warn(&warning);
    }
}

/// Tells which tasks of a board have ended by an exception, and which processors have stopped by one: the last of each
/// processor.
pub fn warn_of_end<P: Progress>(board: &Board, progress: &mut P) {
    for cpu in 1..9u8 {
        let warning = end_warning(board, cpu);
        if !warning.is_none() {
            progress.warn(&warning);
        }
    }
}
