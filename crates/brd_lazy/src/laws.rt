//! What is true of lazy schedules, and of searches through them.

ghost use Rattle.std.specs.Prelude.{List};
ghost use Rattle.brd_board.specs.declared.event.Event.{Event as EventOf};
ghost use Rattle.brd_explore.specs.Schedules.{Place};
ghost use Rattle.brd_explore.specs.declared.wanted.Wanted.{Wanted as WantedOf};
ghost use Rattle.brd_frames.specs.Lagging.{Sharing};
ghost use Rattle.brd_lazy.specs.Trees.{ReachesAll, ShowsNone};
ghost use Rattle.brd_lazy.specs.Lazy.{ScheduleLaw};

/// Which places are those of a tree.
pub trait Places {
    /// Whether a place is one of them.
    ghost is_place: { Place → Type 0 };
}

/// Behind each place to which a schedule within bounds leads there is a place of the tree through which a lazy search
/// goes: invisible instructions lead from there to the same board, and enough is left for them.
pub fn a_lazy_tree_lags_behind_every_schedule<P: Places>()
    ensures { (by : Sharing) (among : List EventOf) → ReachesAll by among P.is_place }
{}

/// Where no place of such a tree fails, no schedule within the bounds does.
pub fn a_fine_tree_shows_that_none_fails<P: Places>()
    ensures { (by : Sharing) (among : List EventOf) (wanted : WantedOf) → ShowsNone by among wanted P.is_place }
{}

/// Where a schedule within bounds fails, a lazy one does, by no more events, preemptions, ticks and raises.
pub fn what_fails_fails_lazily()
    ensures { ScheduleLaw }
{}
