//! Visits to places: each event that may come there is tried.

ghost use Rattle.std.specs.Prelude.{◌≡◌, ◌<◌, length, slice_get, IfOk, OnOk, Some, true};
ghost use Rattle.brd_explore.specs.Schedules.{Place as PlaceOf, does, next};
ghost use Rattle.brd_only.specs.Finding.{HaveGone, IsHeld, VisitedSo};
ghost use Rattle.brd_spots.specs.Spots.{spot_of, IsMore};

use crate::region::Regions;
use crate::walk::{go_on, may_go};
use brd_base::NoMemory;
use brd_board::{Board, Event};
use brd_explore::{Bounds, Counts, Wanted, did_nothing, is_cut, is_end, stepper};
use brd_places::{copy_over, memory_of};
use brd_spots::{Margin, Seats, Spots};

/// What a visit came to.
#[derive(Clone, Copy, PartialEq, Eq)]
pub(crate) enum Visited {
    /// The place was gone through.
    Done,
    /// It fails.
    Fails,
    /// There is none.
    Lost,
}

/// Visits the place of an index: looks whether it fails, and tries all events that may come there. `words` are the
/// addresses of the words by whose values places are told from each other at first sight. Where schedules stop is
/// counted.
pub(crate) fn visit(
    spots: &mut Spots,
    counts: &mut Counts,
    at: usize,
    words: &[u32],
    among: &[Event],
    regions: &Regions,
    wanted: &Wanted,
    seats: &mut Seats,
) -> Result<Visited, NoMemory>
    requires { at < length spots.old }
    ensures more { IsMore spots.old spots.new }
    ensures so { (p : PlaceOf) → slice_get spots.old at ≡ Some p →
        IfOk result (VisitedSo among.now regions.now wanted.now spots.new p) }
{
    spots.put(at, &mut seats.here)?;
    let Some(margin) = spots.margin(at) else {
        return Ok(Visited::Lost);
    };
    if wanted.fails_at(&seats.here, margin.left)? {
        return Ok(Visited::Fails);
    }
    come(counts, &seats.here, margin.left)?;
    try_all(
        spots,
        at,
        &seats.here,
        margin,
        words,
        among,
        regions,
        wanted,
        &mut seats.last,
        &mut seats.spare,
    )?;
    Ok(Visited::Done)
}

/// Tries all events that may come at the place of an index, which has this board and this margin.
fn try_all(
    spots: &mut Spots,
    at: usize,
    board: &Board,
    margin: Margin,
    words: &[u32],
    among: &[Event],
    regions: &Regions,
    wanted: &Wanted,
    last: &mut Board,
    spare: &mut Board,
) -> Result<(), NoMemory>
    requires { slice_get spots.old at ≡ Some (spot_of board.now margin) }
    ensures more { IsMore spots.old spots.new }
    ensures gone { OnOk result
        (HaveGone among.now regions.now wanted.now spots.new (spot_of board.now margin) (length among.now)) }
{
    for event in among {
        if !may_go(board, margin, *event, regions) {
            continue;
        }
        try_event(
            spots, at, board, margin, words, among, regions, wanted, *event, last, spare,
        )?;
    }
    Ok(())
}

/// Counts where schedules stop: they come to this board, where so much is left.
fn come(counts: &mut Counts, board: &Board, left: Bounds) -> Result<(), NoMemory> {
    if is_end(board, left)? {
        counts.ended = counts.ended.saturating_add(1);
    } else if is_cut(board, left)? {
        lack(counts, left);
    }
    Ok(())
}

/// They can't go on, since nothing is left of something.
fn lack(counts: &mut Counts, left: Bounds) {
    if left.events == 0 {
        counts.out_of_events = counts.out_of_events.saturating_add(1);
    } else {
        counts.out_of_ticks = counts.out_of_ticks.saturating_add(1);
    }
}

/// Tries an event that may come at the place of an index.
fn try_event(
    spots: &mut Spots,
    at: usize,
    board: &Board,
    margin: Margin,
    words: &[u32],
    among: &[Event],
    regions: &Regions,
    wanted: &Wanted,
    event: Event,
    last: &mut Board,
    spare: &mut Board,
) -> Result<(), NoMemory>
    requires { slice_get spots.old at ≡ Some (spot_of board.now margin) }
    ensures more { IsMore spots.old spots.new }
    ensures held { does board.now event ≡ true → OnOk result
        (IsHeld among.now regions.now wanted.now spots.new (next (spot_of board.now margin) event)) }
{
    copy_over(last, board)?;
    go_by(
        spots, at, last, margin, words, among, regions, wanted, event, spare,
    )
}

/// Goes by an event from the place of an index, which has this board, and adds the place to which that leads, unless it
/// is known.
fn go_by(
    spots: &mut Spots,
    at: usize,
    board: &mut Board,
    margin: Margin,
    words: &[u32],
    among: &[Event],
    regions: &Regions,
    wanted: &Wanted,
    event: Event,
    spare: &mut Board,
) -> Result<(), NoMemory>
    requires { slice_get spots.old at ≡ Some (spot_of board.old margin) }
    ensures more { IsMore spots.old spots.new }
    ensures held { does board.old event ≡ true → OnOk result
        (IsHeld among.now regions.now wanted.now spots.new (next (spot_of board.old margin) event)) }
{
    if did_nothing(board.event_apart(event)) {
        return Ok(());
    }
    let rest = Margin {
        left: margin.left.spent(margin.last, event),
        last: stepper(board, margin.last, event),
    };
    match go_on(board, rest, event, among, regions, wanted)? {
        None => Ok(()),
        Some(walk) => {
            let mark = spots.mark_of(board, walk.margin, memory_of(board, words));
            spots.note(at, event, walk.count + 1, board, walk.margin, mark, spare)
        }
    }
}
