//! The search: all places, and a schedule that fails if one of them does.

ghost use Rattle.std.specs.Prelude.{◌≡◌, IfErr, IfOk, true};
ghost use Rattle.brd_explore.specs.Schedules.{start};
ghost use Rattle.brd_explore.specs.Searching.{HaltsSo};
ghost use Rattle.brd_only.specs.Only.{FoundSo, IsFoundInside};
ghost use Rattle.brd_only.specs.Finding.{RoundSo};
ghost use Rattle.brd_spots.specs.Spots.{IsMore};

use crate::region::{Regions, keeps_to};
use crate::visit::{Visited, visit};
use crate::words::busy_words;
use brd_base::NoMemory;
use brd_board::{Board, Event};
use brd_explore::{Bounds, Counts, Halt, Wanted, Watch};
use brd_spots::{Margin, Seats, Spots, play};
use std::alloc::Global;

/// What a search came to.
#[derive(Drop)]
pub enum Inside {
    /// A schedule within the bounds that keeps to the regions and fails.
    Found(Vec<Event>),
    /// None fails. How many places were gone through, at how many of them schedules stop and why, and how many
    /// preemptions were left at each.
    NoneFails(Counts),
    /// It isn't known.
    Unknown(Unknown),
}

/// Why it isn't known.
#[derive(Clone, Copy, Debug, PartialEq, Eq)]
pub enum Unknown {
    /// There are more places than may be gone through.
    Places,
    /// Schedules go on to a fair end, of which nothing can be said.
    Fair,
    /// The way to a place that fails isn't known, which is not to be expected.
    Lost,
}

/// What a round came to.
#[derive(Clone, Copy, PartialEq, Eq)]
pub(crate) enum Round {
    /// No place fails, and there are no others.
    Holds,
    /// The place of this index fails.
    Fails(usize),
    /// It isn't known.
    Unknown(Unknown),
}

/// No place was gone through.
const NONE: Counts = Counts {
    tried: 0,
    ended: 0,
    out_of_events: 0,
    out_of_ticks: 0,
    spare: 0,
};

/// Searches the schedules of a board within bounds, of which each event is one of these, for one that fails: among
/// those that keep to the regions. It goes through so many places at most. Who watches is told through how many it has
/// gone.
pub fn find_inside<W: Watch>(
    alloc: Global,
    board: &Board,
    bounds: Bounds,
    among: &[Event],
    regions: &Regions,
    wanted: &Wanted,
    most: usize,
    watch: &mut W,
) -> Result<Inside, Halt>
    ensures is { IfOk result (FoundSo wanted.now among.now regions.now (start board.now bounds)) }
    ensures halts { IfErr result (HaltsSo W.may_stop) }
{
    if wanted.rounds != 0 {
        return Ok(Inside::Unknown(Unknown::Fair));
    }
    let words = busy_words(alloc, board, among)?;
    let mut spots = Spots::new(alloc, board, bounds)?;
    let mut seats = Seats::new(&spots)?;
    let mut counts = NONE;
    match visit_all(
        &mut spots,
        &mut counts,
        words.as_slice(),
        among,
        regions,
        wanted,
        most,
        &mut seats,
        watch,
    )? {
        Round::Holds => Ok(Inside::NoneFails(Counts {
            tried: spots.len() as u64,
            spare: spots.spare(),
            ..counts
        })),
        Round::Fails(at) => Ok(found(alloc, board, bounds, among, regions, wanted, &spots, at)?),
        Round::Unknown(why) => Ok(Inside::Unknown(why)),
    }
}

/// Visits places, and those to which events lead from them, until all have been visited or one fails; at most so many.
fn visit_all<W: Watch>(
    spots: &mut Spots,
    counts: &mut Counts,
    words: &[u32],
    among: &[Event],
    regions: &Regions,
    wanted: &Wanted,
    most: usize,
    seats: &mut Seats,
    watch: &mut W,
) -> Result<Round, Halt>
    ensures more { IsMore spots.old spots.new }
    ensures so { IfOk result (RoundSo among.now regions.now wanted.now spots.new) }
    ensures halts { IfErr result (HaltsSo W.may_stop) }
{
    for at in 0..most {
        if at >= spots.len() {
            return Ok(Round::Holds);
        }
        if !watch.gone_through(at as u64) {
            return Err(Halt::Stopped);
        }
        match visit(spots, counts, at, words, among, regions, wanted, seats)? {
            Visited::Done => {}
            Visited::Fails => return Ok(Round::Fails(at)),
            Visited::Lost => return Ok(Round::Unknown(Unknown::Lost)),
        }
    }
    if spots.len() <= most {
        return Ok(Round::Holds);
    }
    Ok(Round::Unknown(Unknown::Places))
}

/// The schedule that leads to the place of an index, if it fails.
fn found(
    alloc: Global,
    board: &Board,
    bounds: Bounds,
    among: &[Event],
    regions: &Regions,
    wanted: &Wanted,
    spots: &Spots,
    at: usize,
) -> Result<Inside, NoMemory>
    ensures { IfOk result (FoundSo wanted.now among.now regions.now (start board.now bounds)) }
{
    let path = spots.path(at)?;
    let events = Vec::from_slice(alloc, path.as_slice())?;
    if is_found(board, bounds, among, regions, wanted, events.as_slice())? {
        return Ok(Inside::Found(events));
    }
    Ok(Inside::Unknown(Unknown::Lost))
}

/// Whether these events are a schedule within the bounds that keeps to the regions and fails.
fn is_found(
    board: &Board,
    bounds: Bounds,
    among: &[Event],
    regions: &Regions,
    wanted: &Wanted,
    events: &[Event],
) -> Result<bool, NoMemory>
    ensures { IfOk result (λ found. found ≡ true →
        IsFoundInside wanted.now among.now regions.now (start board.now bounds) events.now) }
{
    let mut there = board.try_copy()?;
    let mut margin = Margin {
        left: bounds,
        last: None,
    };
    for event in events {
        if !keeps_to(regions, &there, margin.last, *event) {
            return Ok(false);
        }
        let Some(rest) = play(&mut there, margin, among, *event) else {
            return Ok(false);
        };
        margin = rest;
    }
    wanted.fails_at(&there, margin.left)
}
