//! What is true of all schedules.

ghost use Rattle.std.specs.Prelude.{◌≡◌, ◌++◌, ◌<◌, ℕ, List};
ghost use Rattle.brd_board.specs.declared.event.Event.{Event as EventOf};
ghost use Rattle.brd_board.specs.Board.{after};
ghost use Rattle.brd_explore.specs.Schedules.{IsRicher, Place, place_after, IsWithin};
ghost use Rattle.brd_explore.specs.Searching.{NoneFails};
ghost use Rattle.brd_explore.specs.Shards.{NoneFailsInShard};
ghost use Rattle.brd_explore.specs.declared.shard.Shard.{Shard as ShardOf};
ghost use Rattle.brd_explore.specs.declared.wanted.Wanted.{Wanted as WantedOf};

/// The board at the end of a schedule is the one after its events, also of those that do nothing.
pub fn a_schedule_is_its_events()
    ensures { (place : Place) (events : List EventOf) → (place_after place events).board ≡ after place.board events }
{}

/// Whatever a schedule within bounds begins with is within them too. So a failure that a board shows on the way counts:
/// the schedule up to there fails.
pub fn beginnings_are_within()
    ensures { (among : List EventOf) (place : Place) (events more : List EventOf) →
        IsWithin among place (events ++ more) → IsWithin among place events }
{}

/// What is found stays so with larger bounds, if nothing goes on to a fair end, and as many raises are owed: where none
/// fails with more left, none does with less.
pub fn larger_bounds_find_as_much()
    ensures { (wanted : WantedOf) (among : List EventOf) (rich poor : Place) → wanted.rounds ≡ 0 → IsRicher rich poor →
        NoneFails wanted among rich → NoneFails wanted among poor }
{}

/// The shards of a number of them are the whole: where none of their schedules fails, none within the bounds does.
pub fn shards_are_the_whole()
    ensures { (of : ℕ) → 0 < of → (wanted : WantedOf) (among : List EventOf) (place : Place) →
        ((shard : ShardOf) → shard.of ≡ of → shard.number < of → NoneFailsInShard wanted shard among place) →
        NoneFails wanted among place }
{}
