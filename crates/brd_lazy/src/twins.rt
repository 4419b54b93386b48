//! Places that were found more than once.

ghost use Rattle.std.specs.Prelude.{◌≡◌, replicate, slice_get, true, IfOk, IfSome, List as ListOf, OnOk, Some};
ghost use Rattle.std.specs.List.{All};
ghost use Rattle.brd_board.specs.Board.{after};
ghost use Rattle.brd_explore.specs.Schedules.{Place as PlaceOf};
ghost use Rattle.brd_lazy.specs.Finds.{Covers, IsTwin, LeadAlike};
ghost use Rattle.brd_lazy.specs.declared.finds.Find.{Find as FindOf};

use crate::finds::Find;
use brd_base::NoMemory;
use brd_board::Board;
use brd_spots::{Seats, Spots, is_enough};
use std::alloc::Global;
use std::thread::{Threads, map_indices};

/// A find that an earlier one covers.
#[derive(Clone, Copy)]
pub(crate) struct Twin {
    /// Its index.
    pub at: usize,
    /// That of the earlier one.
    pub by: usize,
}

/// The finds that earlier ones cover, as so many threads find them, by ascending indices.
pub(crate) fn twins_by_threads<T: Threads + Sync>(
    rt: &T,
    alloc: Global,
    threads: u32,
    spots: &Spots,
    finds: &[Find],
) -> Result<Vec<Twin>, NoMemory>
    ensures { IfOk result (λ twins. All (IsTwin spots.now finds.now) twins.items) }
{
    let each = finds.len().div_ceil(threads.max(1) as usize);
    let rows = map_indices(
        rt,
        alloc,
        threads as usize,
        &|thread: usize| -> Result<Vec<Twin>, NoMemory>
            ensures { IfOk result (λ twins. All (IsTwin spots.entry.now finds.entry.now) twins.items) }
        {
            let first = thread.saturating_mul(each).min(finds.len());
            let behind = first.saturating_add(each).min(finds.len());
            twins_alone(alloc, spots, finds, first, behind)
        },
    )?;
    in_one(alloc, rows)
}

/// All of them, one row after the other.
fn in_one(alloc: Global, rows: Vec<Result<Vec<Twin>, NoMemory>>) -> Result<Vec<Twin>, NoMemory>
    ensures { (spots : ListOf PlaceOf) (finds : ListOf FindOf) →
        All (λ row. IfOk row (λ twins. All (IsTwin spots finds) twins.items)) rows.items →
        IfOk result (λ twins. All (IsTwin spots finds) twins.items) }
{
    let mut twins = Vec::new(alloc);
    for row in rows {
        let row = row?;
        twins.extend_from_slice(row.as_slice())?;
    }
    Ok(twins)
}

/// Those of some indices, with boards of their own.
fn twins_alone(
    alloc: Global,
    spots: &Spots,
    finds: &[Find],
    from: usize,
    upto: usize,
) -> Result<Vec<Twin>, NoMemory>
    ensures { IfOk result (λ twins. All (IsTwin spots.now finds.now) twins.items) }
{
    let mut seats = Seats::new(spots)?;
    twins_row(
        alloc,
        spots,
        finds,
        from,
        upto,
        &mut seats.here,
        &mut seats.spare,
    )
}

/// Those of some indices.
fn twins_row(
    alloc: Global,
    spots: &Spots,
    finds: &[Find],
    from: usize,
    upto: usize,
    here: &mut Board,
    spare: &mut Board,
) -> Result<Vec<Twin>, NoMemory>
    ensures { IfOk result (λ twins. All (IsTwin spots.now finds.now) twins.items) }
{
    let mut twins = Vec::new(alloc);
    for at in from..upto {
        if let Some(twin) = twin_of(spots, finds, at, here, spare)? {
            twins.push(twin)?;
        }
    }
    Ok(twins)
}

/// The find of an index, if an earlier one with its mark covers it.
fn twin_of(
    spots: &Spots,
    finds: &[Find],
    at: usize,
    here: &mut Board,
    spare: &mut Board,
) -> Result<Option<Twin>, NoMemory>
    ensures { IfOk result (λ twin. IfSome twin (IsTwin spots.now finds.now)) }
{
    if at >= finds.len() {
        return Ok(None);
    }
    for by in 0..at {
        if covers(spots, finds[by], finds[at], here, spare)? {
            return Ok(Some(Twin { at, by }));
        }
    }
    Ok(None)
}

/// Whether a find with its mark covers another one.
fn covers(
    spots: &Spots,
    one: Find,
    other: Find,
    here: &mut Board,
    spare: &mut Board,
) -> Result<bool, NoMemory>
    ensures { IfOk result (λ covers. covers ≡ true → Covers spots.now one other) }
{
    if one.mark != other.mark || !is_enough(one.margin, other.margin) {
        return Ok(false);
    }
    lead_alike(spots, one, other, here, spare)
}

/// Whether two finds are of one board.
fn lead_alike(
    spots: &Spots,
    one: Find,
    other: Find,
    here: &mut Board,
    spare: &mut Board,
) -> Result<bool, NoMemory>
    ensures { IfOk result (λ alike. alike ≡ true → LeadAlike spots.now one other) }
{
    if one.from >= spots.len() {
        return Ok(false);
    }
    lead(spots, one, here)?;
    lead(spots, other, spare)?;
    Ok(here.same(spare))
}

/// Makes a board that of a find.
pub(crate) fn lead(spots: &Spots, find: Find, board: &mut Board) -> Result<(), NoMemory>
    ensures { (p : PlaceOf) → slice_get spots.now find.from ≡ Some p →
        OnOk result (board.new ≡ after p.board (replicate find.count find.event)) }
{
    spots.put(find.from, board)?;
    board.repeat(find.event, find.count);
    Ok(())
}
