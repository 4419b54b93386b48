//! Schedules that are played event by event.

ghost use Rattle.std.specs.Prelude.{◌≡◌, IfOk, IfSome, true};
ghost use Rattle.brd_explore.specs.Schedules.{IsAmong, start};
ghost use Rattle.brd_explore.specs.Searching.{IsFound};
ghost use Rattle.brd_spots.specs.Playing.{IsPlayed};
ghost use Rattle.brd_spots.specs.Spots.{spot_of};

use crate::spots::Margin;
use brd_base::NoMemory;
use brd_board::{Board, Event};
use brd_explore::{Bounds, Wanted, did_nothing, stepper};

/// Whether these events are a schedule within the bounds that fails.
pub fn is_found(
    board: &Board,
    bounds: Bounds,
    among: &[Event],
    wanted: &Wanted,
    events: &[Event],
) -> Result<bool, NoMemory>
    ensures { IfOk result (λ found. found ≡ true → IsFound wanted.now among.now (start board.now bounds) events.now) }
{
    let mut there = board.try_copy()?;
    let mut margin = Margin {
        left: bounds,
        last: None,
    };
    for event in events {
        let Some(rest) = play(&mut there, margin, among, *event) else {
            return Ok(false);
        };
        margin = rest;
    }
    wanted.fails_at(&there, margin.left)
}

/// Plays an event at the place of a board and this margin, and answers what the place has beside its board to which it
/// leads. None: it is none of these events, or nothing is left for it, or it did nothing.
pub fn play(board: &mut Board, margin: Margin, among: &[Event], event: Event) -> Option<Margin>
    ensures { IfSome result (λ rest. IsPlayed among.now (spot_of board.old margin) event (spot_of board.new rest)) }
{
    if !is_among(among, event) || !margin.left.affords(margin.last, event) {
        return None;
    }
    let left = margin.left.spent(margin.last, event);
    if did_nothing(board.event_apart(event)) {
        return None;
    }
    Some(Margin {
        left,
        last: stepper(board, margin.last, event),
    })
}

/// Whether an event is one of these.
fn is_among(among: &[Event], event: Event) -> bool
    ensures { result ≡ true → IsAmong among.now event }
{
    for other in among {
        if *other == event {
            return true;
        }
    }
    false
}
