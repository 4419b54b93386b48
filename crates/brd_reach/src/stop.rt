//! Whether schedules stop at a place.

use crate::visit::bounds_of;
use brd_base::NoMemory;
use brd_board::Board;
use brd_explore::{is_end, some_are_due};
use brd_places::Left;

/// Whether schedules stop at a place.
#[derive(Clone, Copy, PartialEq, Eq)]
pub(crate) enum Stop {
    /// They go on.
    No,
    /// It is an end.
    End,
    /// No tick is left for a wait that would end by one, or for a time handler.
    Cut,
}

/// Whether schedules stop at a place: this board, where so much is left.
pub(crate) fn stop_at(board: &Board, left: Left) -> Result<Stop, NoMemory> {
    if is_end(board, bounds_of(left))? {
        return Ok(Stop::End);
    }
    if left.ticks == 0 && some_are_due(board) {
        return Ok(Stop::Cut);
    }
    Ok(Stop::No)
}
