//! What is true of all parts.

ghost use Rattle.std.specs.Prelude.{◌<◌, ℕ, List};
ghost use Rattle.brd_board.specs.declared.event.Event.{Event as EventOf};
ghost use Rattle.brd_crew.specs.Parts.{NoneInPart};
ghost use Rattle.brd_explore.specs.Schedules.{Place};
ghost use Rattle.brd_explore.specs.Shards.{NoneFailsInShard};
ghost use Rattle.brd_explore.specs.declared.shard.Shard.{Shard as ShardOf};
ghost use Rattle.brd_explore.specs.declared.wanted.Wanted.{Wanted as WantedOf};

/// The parts of a shard are the whole of it: where none of their schedules fails, none of the shard does.
pub fn parts_are_the_whole()
    ensures { (shard : ShardOf) (parts : ℕ) → 0 < shard.of → 0 < parts →
        (wanted : WantedOf) (among : List EventOf) (place : Place) →
        ((part : ℕ) → part < parts → NoneInPart wanted shard parts among place part) →
        NoneFailsInShard wanted shard among place }
{}
