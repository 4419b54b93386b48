//! What is true of all searches.

ghost use Rattle.std.specs.Prelude.{◌≡◌, ◌<◌, ℕ, None, Some, true, false};
ghost use Rattle.brd_board.specs.Board.{BoardState};
ghost use Rattle.brd_explore.specs.Schedules.{start};
ghost use Rattle.brd_explore.specs.Searching.{NoneFails};
ghost use Rattle.brd_explore.specs.declared.bounds.Bounds.{Bounds as BoundsOf};
ghost use Rattle.brd_explore.specs.declared.shard.Shard.{Shard as ShardOf};
ghost use Rattle.brd_only.specs.Only.{NoneFailsInside, are_none};
ghost use Rattle.brd_search.specs.Plans.{shard_of};
ghost use Rattle.brd_search.specs.Searches.{NoneWithin};
ghost use Rattle.brd_search.specs.declared.plan.Plan.{Plan as PlanOf};

use brd_explore::laws::shards_are_the_whole;

/// Without `--shard` and regions the whole is searched: if no schedule of the plan's shard within bounds fails, none
/// within them does.
pub fn one_shard_is_the_whole()
    ensures { (plan : PlanOf) (b : BoardState) (bounds : BoundsOf) → shard_of None ≡ Some plan.shard →
        are_none plan.regions ≡ true → NoneWithin plan b bounds → NoneFails plan.wanted plan.among (start b bounds) }
{
    shards_are_the_whole();
}

/// The plans of all shards of a number of them are the whole: if no schedule of theirs within bounds fails, none within
/// them does.
pub fn plans_of_all_shards_are_the_whole()
    ensures { (of : ℕ) → 0 < of → (plan : PlanOf) (b : BoardState) (bounds : BoundsOf) → are_none plan.regions ≡ true →
        ((shard : ShardOf) → shard.of ≡ of → shard.number < of → NoneWithin (record plan { shard = shard }) b bounds) →
        NoneFails plan.wanted plan.among (start b bounds) }
{
    shards_are_the_whole();
}

/// With `--only` or `--raises-at` none of the schedules within bounds that keep to the regions fails, if that is the
/// answer.
pub fn none_inside_the_regions()
    ensures { (plan : PlanOf) (b : BoardState) (bounds : BoundsOf) → are_none plan.regions ≡ false →
        NoneWithin plan b bounds → NoneFailsInside plan.wanted plan.among plan.regions (start b bounds) }
{}
