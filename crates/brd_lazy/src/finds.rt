//! What visits to places come to, before it is added to the places.

ghost use Rattle.std.specs.Prelude.{◌≡◌, replicate, slice_get, OnOk, Some};
ghost use Rattle.brd_board.specs.Board.{after};
ghost use Rattle.brd_explore.specs.Schedules.{Place as PlaceOf};
ghost use Rattle.brd_lazy.specs.Finds.{with_finds};
ghost use Rattle.brd_spots.specs.Spots.{spot_of, IsKnown, IsMore};

use brd_base::NoMemory;
use brd_board::{Board, Event};
use brd_spots::{Margin, Spots};

/// A place to which one event n times leads from another one.
#[derive(Clone, Copy)]
pub(crate) struct Find {
    /// The index of that other place.
    pub from: usize,
    /// The event.
    pub event: Event,
    /// How often it comes.
    pub count: u32,
    /// What the place has beside its board.
    pub margin: Margin,
    /// The place's mark.
    pub mark: u64,
}

/// Notes a place, which has this board, unless one that was added with its mark covers it. The board in `spare` may
/// become another one.
pub(crate) fn note(
    spots: &Spots,
    finds: &mut Vec<Find>,
    find: Find,
    board: &Board,
    spare: &mut Board,
) -> Result<(), NoMemory>
    ensures more { IsMore (with_finds spots.now finds.old.items) (with_finds spots.now finds.new.items) }
    ensures known { (p : PlaceOf) → slice_get spots.now find.from ≡ Some p →
        board.now ≡ after p.board (replicate find.count find.event) →
        OnOk result (IsKnown (with_finds spots.now finds.new.items) (spot_of board.now find.margin)) }
{
    if spots.is_known(board, find.margin, find.mark, spare)? {
        return Ok(());
    }
    finds.push(find)?;
    Ok(())
}
