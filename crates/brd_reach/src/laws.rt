//! What is true of trees of boards in which no place fails.

ghost use Rattle.std.specs.Prelude.{List};
ghost use Rattle.brd_board.specs.declared.event.Event.{Event as EventOf};
ghost use Rattle.brd_board.specs.Board.{BoardState};
ghost use Rattle.brd_explore.specs.declared.wanted.Wanted.{Wanted as WantedOf};
ghost use Rattle.brd_frames.specs.Lagging.{Sharing};
ghost use Rattle.brd_places.specs.declared.left.Left.{Left};
ghost use Rattle.brd_reach.specs.Reaching.{ShowsNone};

/// Which boards are places of a tree.
pub trait Places {
    /// Whether a board is a place where so much is left.
    ghost is_place: { Left → BoardState → Type 0 };
}

/// Where no place of a tree fails, no schedule from a place fails that has no more ticks and raises than are left
/// there, however many events and preemptions it has.
pub fn a_closed_tree_shows_that_none_fails<P: Places>()
    ensures { (by : Sharing) (among : List EventOf) (wanted : WantedOf) → ShowsNone by among wanted P.is_place }
{}
