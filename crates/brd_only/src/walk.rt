//! Walks: the same event again and again, where no other one may come.

ghost use Rattle.std.specs.Prelude.{◌≡◌, true, false, IfOk};
ghost use Rattle.brd_only.specs.Finding.{IsAlone, WalkedSo, may_go};
ghost use Rattle.brd_spots.specs.Spots.{spot_of};

use crate::region::{Regions, keeps_to};
use brd_base::NoMemory;
use brd_board::{Board, Event};
use brd_explore::{Wanted, did_nothing, stepper};
use brd_spots::Margin;

/// How many events a walk has at most (own choice).
const MOST: u32 = 10_000;

/// Where a walk has come.
#[derive(Clone, Copy)]
pub(crate) struct Walk {
    /// What the place there has beside its board.
    pub margin: Margin,
    /// How many events the walk had.
    pub count: u32,
}

/// Goes on from a place by an event, as long as no other one may come, the place doesn't fail, and somebody executes;
/// so far at most. None: the event did nothing, so nothing comes there any more.
pub(crate) fn go_on(
    board: &mut Board,
    margin: Margin,
    event: Event,
    among: &[Event],
    regions: &Regions,
    wanted: &Wanted,
) -> Result<Option<Walk>, NoMemory>
    ensures { IfOk result
        (WalkedSo among.now regions.now wanted.now (spot_of board.old margin) event board.new) }
{
    let mut here = margin;
    for count in 0..MOST {
        if stops(board, here, event, among, regions) {
            return Ok(Some(Walk {
                margin: here,
                count,
            }));
        }
        if wanted.fails_at(board, here.left)? {
            return Ok(Some(Walk {
                margin: here,
                count,
            }));
        }
        let left = here.left.spent(here.last, event);
        if did_nothing(board.event_apart(event)) {
            return Ok(None);
        }
        here = Margin {
            left,
            last: stepper(board, here.last, event),
        };
    }
    Ok(Some(Walk {
        margin: here,
        count: MOST,
    }))
}

/// Whether a walk stops at a place: another event may come there, or the same one may not, or nobody executes who has
/// stepped last.
fn stops(board: &Board, here: Margin, event: Event, among: &[Event], regions: &Regions) -> bool
    ensures { result ≡ false → IsAlone among.now regions.now (spot_of board.now here) event }
{
    board.is_off()
        || here.last.is_none()
        || !may_go(board, here, event, regions)
        || !is_alone(board, here, event, among, regions)
}

/// Whether no other event may come at a place than this one.
fn is_alone(board: &Board, here: Margin, event: Event, among: &[Event], regions: &Regions) -> bool
    ensures { result ≡ true → IsAlone among.now regions.now (spot_of board.now here) event }
{
    for other in among {
        if *other != event && may_go(board, here, *other, regions) {
            return false;
        }
    }
    true
}

/// Whether an event may come at a place: something is left for it, and it keeps to the regions.
pub(crate) fn may_go(board: &Board, here: Margin, event: Event, regions: &Regions) -> bool
    ensures { result ≡ may_go regions.now (spot_of board.now here) event }
{
    here.left.affords(here.last, event) && keeps_to(regions, board, here.last, event)
}
