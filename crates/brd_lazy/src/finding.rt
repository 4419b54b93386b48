//! The search: all places of a lazy tree, and a schedule that fails if one of them does.

ghost use Rattle.std.specs.Prelude.{IfErr, IfOk};
ghost use Rattle.brd_explore.specs.Schedules.{start};
ghost use Rattle.brd_explore.specs.Searching.{HaltsSo};
ghost use Rattle.brd_lazy.specs.Finding.{FoundSo};

use crate::round::{Round, visit_all};
use crate::stops::Stops;
use brd_base::NoMemory;
use brd_board::{Board, Event};
use brd_explore::{Bounds, Halt, Wanted, Watch};
use brd_reach::{Unknown, guarded, learn, owned_words, ram_len};
use brd_spots::{Spots, is_found};
use std::alloc::Global;
use std::thread::Threads;

/// Through how many places a search went, and what was left there.
#[derive(Clone, Copy, Debug, PartialEq, Eq)]
pub struct Gone {
    /// Through how many.
    pub places: usize,
    /// At how many of them schedules stop, and why.
    pub stops: Stops,
    /// How many preemptions were left at each. If any were, the bound on them has left nothing out.
    pub spare: u32,
}

/// What a lazy search came to.
#[derive(Drop)]
pub enum Lazily {
    /// A schedule within the bounds that fails.
    Found(Vec<Event>),
    /// No schedule within them fails.
    NoneFails(Gone),
    /// It isn't known.
    Unknown(Unknown),
}

/// How often a search begins anew at most (own choice).
const MOST_ROUNDS: u32 = 10_000;

/// Searches the schedules of a board within bounds, of which each event is one of these, for one that fails: by the
/// lazy ones. It goes through so many places at most, which take so many bytes at most, about. Who watches is told
/// through how many it has gone. So many threads of the host visit places, if there are many; what is found doesn't
/// depend on that.
pub fn find_lazily<T: Threads + Sync, W: Watch>(
    rt: &T,
    alloc: Global,
    threads: u32,
    board: &Board,
    bounds: Bounds,
    among: &[Event],
    wanted: &Wanted,
    most: usize,
    room: usize,
    watch: &mut W,
) -> Result<Lazily, Halt>
    ensures is { IfOk result (FoundSo wanted.now among.now (start board.now bounds)) }
    ensures halts { IfErr result (HaltsSo W.may_stop) }
{
    if wanted.rounds != 0 {
        return Ok(Lazily::Unknown(Unknown::Fair));
    }
    board.links_are_a_set();
    let size = ram_len(board);
    let mut sharing = guarded(alloc, size, wanted)?;
    for _ in 0..MOST_ROUNDS {
        let words = owned_words(alloc, &sharing, size)?;
        let mut spots = Spots::new(alloc, board, bounds)?;
        let mut stops = Stops::none();
        match visit_all(
            rt,
            alloc,
            threads,
            &mut spots,
            &mut stops,
            &sharing,
            words.as_slice(),
            among,
            wanted,
            most,
            room,
            watch,
        )? {
            Round::Holds => return Ok(Lazily::NoneFails(how_far(&spots, stops))),
            Round::Fails(at) => return Ok(found(alloc, board, bounds, among, wanted, &spots, at)?),
            Round::Strays(at, cpu, count) => {
                let place = spots.board(at)?;
                learn(&mut sharing, place, cpu, count, among);
            }
            Round::Unknown(why) => return Ok(Lazily::Unknown(why)),
        }
    }
    Ok(Lazily::Unknown(Unknown::Rounds))
}

/// Through how many places a search went, and what was left there.
fn how_far(spots: &Spots, stops: Stops) -> Gone {
    Gone {
        places: spots.len(),
        stops,
        spare: spots.spare(),
    }
}

/// The schedule that leads to the place of an index, if it fails.
fn found(
    alloc: Global,
    board: &Board,
    bounds: Bounds,
    among: &[Event],
    wanted: &Wanted,
    spots: &Spots,
    at: usize,
) -> Result<Lazily, NoMemory>
    ensures { IfOk result (FoundSo wanted.now among.now (start board.now bounds)) }
{
    let path = spots.path(at)?;
    let events = Vec::from_slice(alloc, path.as_slice())?;
    if is_found(board, bounds, among, wanted, events.as_slice())? {
        return Ok(Lazily::Found(events));
    }
    Ok(Lazily::Unknown(Unknown::Waits))
}
