//! Rounds: all places are visited, and those to which events lead from them.

ghost use Rattle.std.specs.Prelude.{◌<◌, ◌≤◌, IfErr, IfOk};
ghost use Rattle.brd_explore.specs.Searching.{HaltsSo};
ghost use Rattle.brd_lazy.specs.Finding.{RoundSo};
ghost use Rattle.brd_lazy.specs.Finds.{GoneSo};
ghost use Rattle.brd_reach.specs.Rounds.{sharing_for};
ghost use Rattle.brd_spots.specs.Spots.{IsMore};

use crate::crew::visit_by_threads;
use crate::part::{in_one, visit_part};
use crate::settle::{join_many, join_one};
use crate::stops::Stops;
use crate::twins::twins_by_threads;
use brd_base::NoMemory;
use brd_blocks::Sharing;
use brd_board::Event;
use brd_explore::{Halt, Wanted, Watch};
use brd_reach::Unknown;
use brd_spots::{Seats, Spots};
use std::alloc::Global;
use std::thread::Threads;

/// What a round came to.
#[derive(Clone, Copy, PartialEq, Eq)]
pub(crate) enum Round {
    /// No place fails, and there are no others.
    Holds,
    /// The place of this index fails.
    Fails(usize),
    /// At the place of this index, after so many steps of a processor, there is one that doesn't keep to who may touch
    /// what, and who is mortal.
    Strays(usize, u8, u32),
    /// It isn't known.
    Unknown(Unknown),
}

/// For how many places in a row it pays to let a thread visit them (own choice).
const FEW: usize = 32;

/// How many each thread visits at most before what they came to is added (own choice).
const MANY: usize = 256;

/// Visits places, and those to which events lead from them, until all have been visited or one fails; at most so many,
/// and as long as they take no more than so many bytes. So many threads visit them, if there are many; what they come
/// to doesn't depend on that.
pub(crate) fn visit_all<T: Threads + Sync, W: Watch>(
    rt: &T,
    alloc: Global,
    threads: u32,
    spots: &mut Spots,
    stops: &mut Stops,
    sharing: &Sharing,
    words: &[u32],
    among: &[Event],
    wanted: &Wanted,
    most: usize,
    room: usize,
    watch: &mut W,
) -> Result<Round, Halt>
    ensures more { IsMore spots.old spots.new }
    ensures so { IfOk result (RoundSo (sharing_for sharing.now wanted.now) among.now wanted.now spots.new) }
    ensures halts { IfErr result (HaltsSo W.may_stop) }
{
    let mut seats = Seats::new(spots)?;
    let mut at = 0;
    while at < spots.len() {
        if at >= most || spots.weight() > room {
            return Ok(Round::Unknown(Unknown::Places));
        }
        if !watch.gone_through(at as u64) {
            return Err(Halt::Stopped);
        }
        let upto = behind(at, spots.len().min(most), threads);
        match visit_some(
            rt, alloc, threads, spots, stops, at, upto, sharing, words, among, wanted, &mut seats,
        )? {
            Round::Holds => at = upto,
            Round::Fails(at) => return Ok(Round::Fails(at)),
            Round::Strays(at, cpu, count) => return Ok(Round::Strays(at, cpu, count)),
            Round::Unknown(why) => return Ok(Round::Unknown(why)),
        }
    }
    Ok(Round::Holds)
}

/// Up to which index the places from one on are visited together, of those below an end: one, or if there are enough of
/// them for all threads, many.
fn behind(at: usize, end: usize, threads: u32) -> usize
    requires { at < end }
    ensures some { at < result }
    ensures few { result ≤ end }
{
    let threads = threads as usize;
    let left = end - at;
    if threads < 2 || left / threads < FEW {
        return at + 1;
    }
    at + left.min(threads.saturating_mul(MANY))
}

/// Visits the places of some indices, and adds those to which events lead from them, unless they are known.
fn visit_some<T: Threads + Sync>(
    rt: &T,
    alloc: Global,
    threads: u32,
    spots: &mut Spots,
    stops: &mut Stops,
    from: usize,
    upto: usize,
    sharing: &Sharing,
    words: &[u32],
    among: &[Event],
    wanted: &Wanted,
    seats: &mut Seats,
) -> Result<Round, NoMemory>
    ensures more { IsMore spots.old spots.new }
    ensures so { IfOk result (GoneSo (sharing_for sharing.now wanted.now) among.now wanted.now spots.old spots.new
        from upto) }
{
    if upto.saturating_sub(from) > 1 {
        return visit_many(
            rt, alloc, threads, spots, stops, from, upto, sharing, words, among, wanted,
        );
    }
    let since = spots.len();
    let part = visit_part(
        alloc, spots, from, upto, sharing, words, among, wanted, seats,
    )?;
    if part.from != from || part.upto != upto {
        return Ok(Round::Unknown(Unknown::Waits));
    }
    join_one(spots, stops, part, since, seats)
}

/// Lets threads visit the places of some indices, and adds those to which events lead from them, unless they are known.
fn visit_many<T: Threads + Sync>(
    rt: &T,
    alloc: Global,
    threads: u32,
    spots: &mut Spots,
    stops: &mut Stops,
    from: usize,
    upto: usize,
    sharing: &Sharing,
    words: &[u32],
    among: &[Event],
    wanted: &Wanted,
) -> Result<Round, NoMemory>
    ensures more { IsMore spots.old spots.new }
    ensures so { IfOk result (GoneSo (sharing_for sharing.now wanted.now) among.now wanted.now spots.old spots.new
        from upto) }
{
    let parts = visit_by_threads(
        rt, alloc, threads, spots, from, upto, sharing, words, among, wanted,
    )?;
    let part = in_one(alloc, parts, from)?;
    match part.came {
        Round::Holds => {}
        Round::Fails(at) => return Ok(Round::Fails(at)),
        Round::Strays(at, cpu, count) => return Ok(Round::Strays(at, cpu, count)),
        Round::Unknown(why) => return Ok(Round::Unknown(why)),
    }
    if part.from != from || part.upto != upto {
        return Ok(Round::Unknown(Unknown::Waits));
    }
    let twins = twins_by_threads(rt, alloc, threads, spots, part.finds.as_slice())?;
    join_many(spots, stops, part, twins.as_slice())
}
