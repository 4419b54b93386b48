//! The picture of a run.

ghost use Rattle.std.specs.Prelude.{◌≡◌, ℕ, List as ListOf, MatchResult, filter, length, nat_lt};
ghost use Rattle.brd_board.specs.declared.event.Event.{Event as EventOf};
ghost use Rattle.brd_board.specs.Board.{BoardState as BoardOf};
ghost use Rattle.brd_recording.specs.Slices.{AreSlices};
ghost use Rattle.brd_page.specs.Picture.{IsPicture, KeepsFromDrawing};

use brd_timeline::{PictureFault, Timeline, svg};
use std::alloc::Global;

/// The picture of a timeline. The marks are left out where there would be more than a picture shows with them.
///
/// # Errors
///
/// `TooMuch` where there are more lanes and slices than a picture shows; `NoMemory` where memory runs out.
pub fn draw(alloc: Global, timeline: Timeline) -> Result<Vec<u8>, PictureFault>
    ensures { (boot : BoardOf) (events : ListOf EventOf) (from to : ℕ) → AreSlices boot events from to timeline
        → MatchResult result (λ text. IsPicture boot events from to text.items)
        (KeepsFromDrawing boot events from to) }
{
    let mut timeline = timeline;
    leave_out_strays(&mut timeline);
    let mut text = Vec::new(alloc);
    match svg(&timeline, &mut text) {
        Ok(()) => return Ok(text),
        Err(PictureFault::NoMemory) => return Err(PictureFault::NoMemory),
        Err(PictureFault::TooMuch) => {}
    }
    timeline.marks.clear();
    match svg(&timeline, &mut text) {
        Ok(()) => Ok(text),
        Err(fault) => Err(fault),
    }
}

/// Leaves out the slices that have no lane: no picture shows them.
fn leave_out_strays(timeline: &mut Timeline)
    ensures from { timeline.new.from ≡ timeline.old.from }
    ensures to { timeline.new.to ≡ timeline.old.to }
    ensures lanes { timeline.new.lanes ≡ timeline.old.lanes }
    ensures slices { timeline.new.slices.items
        ≡ filter (λ it. nat_lt it.lane (length timeline.old.lanes.items)) timeline.old.slices.items }
{
    let lanes = timeline.lanes.len();
    timeline.slices.retain(|slice| slice.lane < lanes);
}
