//! Parts of a shard.

ghost use Rattle.std.specs.Prelude.{◌≡◌, ◌<◌, IfSome};
ghost use Rattle.brd_crew.specs.Parts.{Fits, part_of};

use brd_explore::Shard;

/// Into how many parts a shard is dealt for so many threads: one for each, since each part goes through the schedules
/// again that are in every shard. `None`: it isn't dealt, since one thread is enough, or the numbers of the parts would
/// be too large.
pub(crate) fn parts_for(shard: Shard, threads: u32) -> Option<u32>
    ensures { IfSome result (λ parts. Fits shard parts) }
{
    if threads < 2 || shard.number >= shard.of {
        return None;
    }
    threads.checked_mul(shard.of)?;
    Some(threads)
}

/// A part of a shard, as a shard.
pub(crate) fn part_of(shard: Shard, parts: u32, part: u32) -> Shard
    requires fits { Fits shard parts }
    requires below { part < parts }
    ensures { result ≡ part_of shard parts part }
{
    Shard {
        number: part * shard.of + shard.number,
        of: parts * shard.of,
    }
}
