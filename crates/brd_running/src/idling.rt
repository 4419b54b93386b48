//! How many steps of a race did nothing.

use brd_board::{Board, Event, Report};
use brd_journal::{Journal, Moved, Playback};

/// How many steps of a journal do nothing on a board: their processor has no task to run or is stopped, or the board is
/// off.
pub fn idle_steps(board: Board, journal: &Journal) -> u64 {
    let len = journal.len();
    let mut playback = Playback { board, at: 0 };
    let mut near = 0;
    let mut idle = 0u64;
    while playback.at < len {
        let at = playback.at;
        let Some(rest) = journal.rest_at(at, &mut near) else {
            return idle;
        };
        if playback.go_on(rest, len) == 0 {
            let moved = playback.advance(rest, at + 1, len);
            idle = idle.saturating_add(idle_of(moved));
        }
    }
    idle
}

/// How many of these events are steps that did nothing.
fn idle_of(moved: Moved) -> u64 {
    match (moved.event, moved.report) {
        (Event::Step(_), Report::Off | Report::NoSuch | Report::Stopped | Report::Idle) => {
            moved.count
        }
        _ => 0,
    }
}
