//! What visits have come to is added to the places.

ghost use Rattle.std.specs.Prelude.{◌≡◌, ◌+◌, ◌<◌, length, slice_get, true, IfOk, OnOk, Some, List as ListOf};
ghost use Rattle.std.specs.List.{All};
ghost use Rattle.brd_board.specs.declared.event.Event.{Event as EventOf};
ghost use Rattle.brd_explore.specs.Schedules.{Place as PlaceOf};
ghost use Rattle.brd_explore.specs.declared.wanted.Wanted.{Wanted as WantedOf};
ghost use Rattle.brd_frames.specs.Lagging.{Sharing as SharingOf};
ghost use Rattle.brd_lazy.specs.Finds.{AreSettled, GoneSo, IsTwin, PartSo, led_to};
ghost use Rattle.brd_spots.specs.Spots.{IsKnown, IsMore};

use crate::finds::Find;
use crate::part::Part;
use crate::round::Round;
use crate::stops::Stops;
use crate::twins::{Twin, lead};
use brd_base::NoMemory;
use brd_board::Board;
use brd_spots::{Seats, Spots};

/// Adds what visits came to, which went through all of their places, but for finds that earlier ones cover.
pub(crate) fn join_many(
    spots: &mut Spots,
    stops: &mut Stops,
    part: Part,
    twins: &[Twin],
) -> Result<Round, NoMemory>
    requires { All (IsTwin spots.old part.finds.items) twins.now }
    ensures more { IsMore spots.old spots.new }
    ensures so { (by : SharingOf) (among : ListOf EventOf) (wanted : WantedOf) → PartSo by among wanted spots.old part →
        IfOk result (GoneSo by among wanted spots.old spots.new part.from part.upto) }
{
    settle_all(spots, part.finds.as_slice(), twins)?;
    stops.add(part.stops);
    Ok(part.came)
}

/// Adds what visits came to, which were made when there were so many places.
pub(crate) fn join_one(
    spots: &mut Spots,
    stops: &mut Stops,
    part: Part,
    since: usize,
    seats: &mut Seats,
) -> Result<Round, NoMemory>
    ensures more { IsMore spots.old spots.new }
    ensures so { (by : SharingOf) (among : ListOf EventOf) (wanted : WantedOf) → PartSo by among wanted spots.old part →
        IfOk result (GoneSo by among wanted spots.old spots.new part.from part.upto) }
{
    settle(spots, part.finds.as_slice(), since, seats)?;
    stops.add(part.stops);
    Ok(part.came)
}

/// Adds finds, but for those that earlier ones cover.
fn settle_all(spots: &mut Spots, finds: &[Find], twins: &[Twin]) -> Result<(), NoMemory>
    requires { All (IsTwin spots.old finds.now) twins.now }
    ensures more { IsMore spots.old spots.new }
    ensures known { OnOk result (AreSettled spots.old finds.now (length finds.now) spots.new) }
{
    let mut next = 0;
    for at in 0..finds.len() {
        next = settle_next(spots, finds, twins, at, next)?;
    }
    Ok(())
}

/// Adds the find of an index, unless it is that of the next twin. Answers which twin is the next one then.
fn settle_next(
    spots: &mut Spots,
    finds: &[Find],
    twins: &[Twin],
    at: usize,
    next: usize,
) -> Result<usize, NoMemory>
    requires { at < length finds.now }
    ensures more { IsMore spots.old spots.new }
    ensures known { (early : ListOf PlaceOf) → IsMore early spots.old → All (IsTwin early finds.now) twins.now →
        AreSettled early finds.now at spots.old → OnOk result (AreSettled early finds.now (at + 1) spots.new) }
{
    if next >= twins.len() {
        add_find(spots, finds[at])?;
        return Ok(next);
    }
    if twins[next].at == at {
        return Ok(next.saturating_add(1));
    }
    add_find(spots, finds[at])?;
    Ok(next)
}

/// Adds finds that were made when there were so many places, each unless it is known by now.
fn settle(
    spots: &mut Spots,
    finds: &[Find],
    since: usize,
    seats: &mut Seats,
) -> Result<(), NoMemory>
    ensures more { IsMore spots.old spots.new }
    ensures known { OnOk result (AreSettled spots.old finds.now (length finds.now) spots.new) }
{
    for find in finds {
        settle_one(spots, *find, since, &mut seats.here, &mut seats.spare)?;
    }
    Ok(())
}

/// Adds a find, unless it is known by now.
fn settle_one(
    spots: &mut Spots,
    find: Find,
    since: usize,
    here: &mut Board,
    spare: &mut Board,
) -> Result<(), NoMemory>
    ensures more { IsMore spots.old spots.new }
    ensures known { (p : PlaceOf) → slice_get spots.old find.from ≡ Some p →
        OnOk result (IsKnown spots.new (led_to find p)) }
{
    if is_there(spots, find, since, here, spare)? {
        return Ok(());
    }
    add_find(spots, find)
}

/// Whether a find is known by now.
fn is_there(
    spots: &Spots,
    find: Find,
    since: usize,
    here: &mut Board,
    spare: &mut Board,
) -> Result<bool, NoMemory>
    ensures { (p : PlaceOf) → slice_get spots.now find.from ≡ Some p →
        IfOk result (λ there. there ≡ true → IsKnown spots.now (led_to find p)) }
{
    if !spots.has_since(find.mark, since) {
        return Ok(false);
    }
    lead(spots, find, here)?;
    spots.is_known(here, find.margin, find.mark, spare)
}

/// Adds a find. (None comes from a place that isn't there.)
fn add_find(spots: &mut Spots, find: Find) -> Result<(), NoMemory>
    ensures more { IsMore spots.old spots.new }
    ensures known { (p : PlaceOf) → slice_get spots.old find.from ≡ Some p →
        OnOk result (IsKnown spots.new (led_to find p)) }
{
    if find.from >= spots.len() {
        return Ok(());
    }
    spots.add(find.from, find.event, find.count, find.margin, find.mark)
}
