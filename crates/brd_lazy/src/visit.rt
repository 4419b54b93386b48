//! Visits to places: each event that may come there is tried.

ghost use Rattle.std.specs.Prelude.{◌≡◌, ◌<◌, suc, slice_get, IfOk, OnOk, Some, true, false};
ghost use Rattle.brd_board.specs.declared.event.Event.TheVariants.{Step};
ghost use Rattle.brd_board.specs.Board.{happens};
ghost use Rattle.brd_explore.specs.Schedules.{Place as PlaceOf, does, next};
ghost use Rattle.brd_lazy.specs.Blocks.{after_steps, end_of};
ghost use Rattle.brd_lazy.specs.Finding.{HasTriedAll, TriedSo, VisitedSo};
ghost use Rattle.brd_lazy.specs.Finds.{with_finds};
ghost use Rattle.brd_reach.specs.Rounds.{sharing_for};
ghost use Rattle.brd_spots.specs.Spots.{spot_of, IsKnown, IsMore};

use crate::block::{Block, go};
use crate::finds::{Find, note};
use crate::stops::Stops;
use brd_base::NoMemory;
use brd_blocks::{Sharing, stands_well};
use brd_board::{Board, Event};
use brd_explore::{Bounds, Wanted, did_nothing, stepper};
use brd_places::{copy_over, memory_of};
use brd_reach::Unknown;
use brd_spots::{Margin, Seats, Spots};

/// What was tried at a place came to.
#[derive(Clone, Copy, PartialEq, Eq)]
pub(crate) enum Tried {
    /// It was gone through.
    Done,
    /// The place fails.
    Fails,
    /// After so many steps of a processor there is one that doesn't keep to who may touch what.
    Strays(u8, u32),
    /// It isn't known.
    Unknown(Unknown),
}

/// Visits the place of an index: looks whether it fails, and tries all events that may come there. The places to which
/// they lead are noted, but for those that are known. `words` are the addresses of the words by whose values places are
/// told from each other at first sight. Where schedules stop is counted.
pub(crate) fn visit(
    spots: &Spots,
    finds: &mut Vec<Find>,
    stops: &mut Stops,
    at: usize,
    sharing: &Sharing,
    words: &[u32],
    among: &[Event],
    wanted: &Wanted,
    seats: &mut Seats,
) -> Result<Tried, NoMemory>
    ensures more { IsMore (with_finds spots.now finds.old.items) (with_finds spots.now finds.new.items) }
    ensures so { (p : PlaceOf) → slice_get spots.now at ≡ Some p →
        IfOk result (VisitedSo (sharing_for sharing.now wanted.now) among.now wanted.now
        (with_finds spots.now finds.new.items) p) }
{
    spots.put(at, &mut seats.here)?;
    let Some(margin) = spots.margin(at) else {
        return Ok(Tried::Unknown(Unknown::Waits));
    };
    if wanted.fails_at(&seats.here, margin.left)? {
        return Ok(Tried::Fails);
    }
    stops.come(&seats.here, margin.left)?;
    try_all(
        spots,
        finds,
        stops,
        at,
        &seats.here,
        margin,
        sharing,
        words,
        among,
        wanted,
        &mut seats.last,
        &mut seats.spare,
    )
}

/// Tries all events that may come at the place of an index, for which something is left there.
fn try_all(
    spots: &Spots,
    finds: &mut Vec<Find>,
    stops: &mut Stops,
    at: usize,
    board: &Board,
    margin: Margin,
    sharing: &Sharing,
    words: &[u32],
    among: &[Event],
    wanted: &Wanted,
    last: &mut Board,
    spare: &mut Board,
) -> Result<Tried, NoMemory>
    ensures more { IsMore (with_finds spots.now finds.old.items) (with_finds spots.now finds.new.items) }
    ensures so { slice_get spots.now at ≡ Some (spot_of board.now margin) →
        IfOk result (HasTriedAll (sharing_for sharing.now wanted.now) among.now
        (with_finds spots.now finds.new.items) (spot_of board.now margin)) }
{
    for event in among {
        if !margin.left.affords(margin.last, *event) {
            continue;
        }
        match try_event(
            spots, finds, stops, at, board, margin, sharing, words, wanted, *event, last, spare,
        )? {
            Tried::Done => {}
            Tried::Fails => return Ok(Tried::Fails),
            Tried::Strays(cpu, count) => return Ok(Tried::Strays(cpu, count)),
            Tried::Unknown(why) => return Ok(Tried::Unknown(why)),
        }
    }
    Ok(Tried::Done)
}

/// Tries an event at the place of an index, for which something is left there.
fn try_event(
    spots: &Spots,
    finds: &mut Vec<Find>,
    stops: &mut Stops,
    at: usize,
    board: &Board,
    margin: Margin,
    sharing: &Sharing,
    words: &[u32],
    wanted: &Wanted,
    event: Event,
    last: &mut Board,
    spare: &mut Board,
) -> Result<Tried, NoMemory>
    ensures more { IsMore (with_finds spots.now finds.old.items) (with_finds spots.now finds.new.items) }
    ensures so { slice_get spots.now at ≡ Some (spot_of board.now margin) →
        IfOk result (TriedSo (sharing_for sharing.now wanted.now) (with_finds spots.now finds.new.items)
        (spot_of board.now margin) event) }
{
    match event {
        Event::Step(cpu) => try_step(
            spots, finds, stops, at, board, margin, sharing, words, wanted, cpu, last, spare,
        ),
        Event::Tick => {
            try_other(spots, finds, at, board, margin, words, event, last, spare)?;
            Ok(Tried::Done)
        }
        Event::Raise(_) => {
            try_other(spots, finds, at, board, margin, words, event, last, spare)?;
            Ok(Tried::Done)
        }
    }
}

/// Tries a block of a processor.
fn try_step(
    spots: &Spots,
    finds: &mut Vec<Find>,
    stops: &mut Stops,
    at: usize,
    board: &Board,
    margin: Margin,
    sharing: &Sharing,
    words: &[u32],
    wanted: &Wanted,
    cpu: u8,
    last: &mut Board,
    spare: &mut Board,
) -> Result<Tried, NoMemory>
    ensures more { IsMore (with_finds spots.now finds.old.items) (with_finds spots.now finds.new.items) }
    ensures so { slice_get spots.now at ≡ Some (spot_of board.now margin) →
        IfOk result (TriedSo (sharing_for sharing.now wanted.now) (with_finds spots.now finds.new.items)
        (spot_of board.now margin) (Step cpu)) }
{
    if cpu == 0 || cpu > 8 || !stands_well(board, cpu) {
        return Ok(Tried::Unknown(Unknown::Waits));
    }
    copy_over(last, board)?;
    match go(sharing, wanted, last, cpu, margin.left.events)? {
        Block::Idle => {
            if does_nothing(last, cpu) {
                return Ok(Tried::Done);
            }
            Ok(Tried::Unknown(Unknown::Waits))
        }
        Block::Alone => {
            note_one(
                spots,
                finds,
                at,
                margin,
                words,
                Event::Step(cpu),
                last,
                spare,
            )?;
            Ok(Tried::Done)
        }
        Block::Ends(count) => {
            note_block(spots, finds, at, margin, words, cpu, count, last, spare)?;
            Ok(Tried::Done)
        }
        Block::Cut => {
            stops.cut();
            Ok(Tried::Done)
        }
        Block::Strays(count) => Ok(Tried::Strays(cpu, count)),
        Block::Unknown => Ok(Tried::Unknown(Unknown::Waits)),
    }
}

/// Whether the next step of a processor does nothing. It is done.
fn does_nothing(board: &mut Board, cpu: u8) -> bool
    ensures { result ≡ true → does board.old (Step cpu) ≡ false }
{
    did_nothing(board.event_apart(Event::Step(cpu)))
}

/// Tries a tick, or a raise.
fn try_other(
    spots: &Spots,
    finds: &mut Vec<Find>,
    at: usize,
    board: &Board,
    margin: Margin,
    words: &[u32],
    event: Event,
    last: &mut Board,
    spare: &mut Board,
) -> Result<(), NoMemory>
    ensures more { IsMore (with_finds spots.now finds.old.items) (with_finds spots.now finds.new.items) }
    ensures known { slice_get spots.now at ≡ Some (spot_of board.now margin) → does board.now event ≡ true →
        OnOk result (IsKnown (with_finds spots.now finds.new.items) (next (spot_of board.now margin) event)) }
{
    copy_over(last, board)?;
    if did_nothing(last.event_apart(event)) {
        return Ok(());
    }
    note_one(spots, finds, at, margin, words, event, last, spare)
}

/// Adds the place after one event at the place of an index, unless it is known.
fn note_one(
    spots: &Spots,
    finds: &mut Vec<Find>,
    at: usize,
    margin: Margin,
    words: &[u32],
    event: Event,
    board: &Board,
    spare: &mut Board,
) -> Result<(), NoMemory>
    ensures more { IsMore (with_finds spots.now finds.old.items) (with_finds spots.now finds.new.items) }
    ensures known { (p : PlaceOf) → slice_get spots.now at ≡ Some p → p ≡ spot_of p.board margin →
        board.now ≡ (happens p.board event).board →
        OnOk result (IsKnown (with_finds spots.now finds.new.items) (next p event)) }
{
    let rest = Margin {
        left: margin.left.spent(margin.last, event),
        last: stepper(board, margin.last, event),
    };
    let find = Find {
        from: at,
        event,
        count: 1,
        margin: rest,
        mark: spots.mark_of(board, rest, memory_of(board, words)),
    };
    note(spots, finds, find, board, spare)
}

/// Adds the place after a block at the place of an index, unless it is known: so many instructions that nobody else can
/// see, and one that others may see.
fn note_block(
    spots: &Spots,
    finds: &mut Vec<Find>,
    at: usize,
    margin: Margin,
    words: &[u32],
    cpu: u8,
    count: u32,
    board: &Board,
    spare: &mut Board,
) -> Result<(), NoMemory>
    requires { count < margin.left.events }
    ensures more { IsMore (with_finds spots.now finds.old.items) (with_finds spots.now finds.new.items) }
    ensures known { (p : PlaceOf) → slice_get spots.now at ≡ Some p → p ≡ spot_of p.board margin →
        board.now ≡ after_steps p.board cpu (suc count) →
        OnOk result (IsKnown (with_finds spots.now finds.new.items) (end_of p cpu count)) }
{
    let event = Event::Step(cpu);
    let one = margin.left.spent(margin.last, event);
    let rest = Margin {
        left: Bounds {
            events: margin.left.events - count - 1,
            ..one
        },
        last: stepper(board, margin.last, event),
    };
    let find = Find {
        from: at,
        event,
        count: count + 1,
        margin: rest,
        mark: spots.mark_of(board, rest, memory_of(board, words)),
    };
    note(spots, finds, find, board, spare)
}
