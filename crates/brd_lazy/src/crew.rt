//! Visits by several threads of the host.

ghost use Rattle.std.specs.Prelude.{IfOk};
ghost use Rattle.std.specs.List.{All};
ghost use Rattle.brd_lazy.specs.Finds.{PartSo};
ghost use Rattle.brd_reach.specs.Rounds.{sharing_for};

use crate::part::{Part, visit_part};
use brd_base::NoMemory;
use brd_blocks::Sharing;
use brd_board::Event;
use brd_explore::Wanted;
use brd_spots::{Seats, Spots};
use std::alloc::Global;
use std::thread::{Threads, map_indices};

/// Lets so many threads visit the places of some indices, each of them as many in a row.
pub(crate) fn visit_by_threads<T: Threads + Sync>(
    rt: &T,
    alloc: Global,
    threads: u32,
    spots: &Spots,
    from: usize,
    upto: usize,
    sharing: &Sharing,
    words: &[u32],
    among: &[Event],
    wanted: &Wanted,
) -> Result<Vec<Result<Part, NoMemory>>, NoMemory>
    ensures { IfOk result (λ parts.
        All (λ part. IfOk part (PartSo (sharing_for sharing.now wanted.now) among.now wanted.now spots.now))
        parts.items) }
{
    let each = upto.saturating_sub(from).div_ceil(threads.max(1) as usize);
    let parts = map_indices(
        rt,
        alloc,
        threads as usize,
        &|thread: usize| -> Result<Part, NoMemory>
            ensures { IfOk result (PartSo (sharing_for sharing.entry.now wanted.entry.now) among.entry.now
                wanted.entry.now spots.entry.now) }
        {
            let first = from.saturating_add(thread.saturating_mul(each)).min(upto);
            let behind = first.saturating_add(each).min(upto);
            visit_alone(alloc, spots, first, behind, sharing, words, among, wanted)
        },
    )?;
    Ok(parts)
}

/// Visits the places of some indices, with boards of its own.
fn visit_alone(
    alloc: Global,
    spots: &Spots,
    from: usize,
    upto: usize,
    sharing: &Sharing,
    words: &[u32],
    among: &[Event],
    wanted: &Wanted,
) -> Result<Part, NoMemory>
    ensures { IfOk result (PartSo (sharing_for sharing.now wanted.now) among.now wanted.now spots.now) }
{
    let mut seats = Seats::new(spots)?;
    visit_part(
        alloc, spots, from, upto, sharing, words, among, wanted, &mut seats,
    )
}
