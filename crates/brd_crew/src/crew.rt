//! The search by several threads.

ghost use Rattle.std.specs.Prelude.{◌≡◌, ◌<◌, ℕ, All, Contains, IfErr, IfOk, IfSome, option_map, true};
ghost use Rattle.brd_crew.specs.Parts.{Fits, HasSearched};
ghost use Rattle.brd_explore.specs.Schedules.{start};
ghost use Rattle.brd_explore.specs.Searching.{HaltsSo};
ghost use Rattle.brd_explore.specs.Shards.{AnswersInShard};

use crate::part::{part_of, parts_for};
use crate::sharing::{Lookout, Sharing};
use brd_base::{List, NoMemory};
use brd_board::{Board, Event};
use brd_explore::{Bounds, Counts, Found, Halt, Shard, Wanted, Watch, find_in_shard};
use std::alloc::Global;
use std::thread::{Threads, map_indices};

/// Searches those schedules of a board within bounds that are in a shard, for one that fails, by so many threads of the
/// host. At most `remember` places are kept by all of them together. Where several fail, it depends on the threads which
/// one is found.
pub fn find_by_threads<T: Threads + Sync, W: Watch + Send>(
    rt: &T,
    alloc: Global,
    threads: u32,
    board: &Board,
    bounds: Bounds,
    among: &[Event],
    shard: Shard,
    wanted: &Wanted,
    remember: usize,
    watch: &mut W,
) -> Result<Found, Halt>
    requires { 0 < shard.of }
    ensures is { IfOk result
        (λ found.
        AnswersInShard wanted.now shard among.now (start board.now bounds)
        (option_map (λ events. events.items) found.schedule)) }
    ensures halts { IfErr result (HaltsSo W.may_stop) }
{
    let Some(parts) = parts_for(shard, threads) else {
        return find_in_shard(alloc, board, bounds, among, shard, wanted, remember, watch);
    };
    let shares = all_shares(
        rt, alloc, threads, parts, board, bounds, among, shard, wanted, remember, watch,
    )?;
    if let Some(found) = joined(alloc, parts, board, bounds, among, shard, wanted, shares)? {
        return Ok(found);
    }
    find_in_shard(alloc, board, bounds, among, shard, wanted, remember, watch)
}

/// What one thread has found.
#[derive(Drop)]
struct Share {
    /// A schedule that fails, if it has found one.
    schedule: Option<Vec<Event>>,
    /// The parts of which it has searched all schedules, and none fails.
    done: List<u32>,
    /// The schedules that it has searched.
    counts: Counts,
}

/// Lets the threads search the parts, and waits until all have ended.
fn all_shares<T: Threads + Sync, W: Watch + Send>(
    rt: &T,
    alloc: Global,
    threads: u32,
    parts: u32,
    board: &Board,
    bounds: Bounds,
    among: &[Event],
    shard: Shard,
    wanted: &Wanted,
    remember: usize,
    watch: &mut W,
) -> Result<Vec<Result<Share, NoMemory>>, NoMemory>
    requires fits { Fits shard parts }
    ensures { IfOk result (λ shares.
        All (λ share. IfOk share (λ share. HasSearched wanted.now shard parts among.now (start board.now bounds)
        (option_map (λ events. events.items) share.schedule) share.done)) shares.items) }
{
    let sharing = Sharing::new(watch);
    let each = remember / threads.max(1) as usize;
    let shares = map_indices(
        rt,
        alloc,
        threads as usize,
        &|_thread: usize| -> Result<Share, NoMemory>
            requires { Fits shard parts }
            ensures { IfOk result (λ share. HasSearched wanted.entry.now shard parts among.entry.now
                (start board.entry.now bounds) (option_map (λ events. events.items) share.schedule) share.done) }
        {
            search_parts(
                alloc, parts, board, bounds, among, shard, wanted, each, &sharing,
            )
        },
    )?;
    Ok(shares)
}

/// Searches one part after the other, whichever nobody has taken, until something is found or all are taken.
fn search_parts<W: Watch>(
    alloc: Global,
    parts: u32,
    board: &Board,
    bounds: Bounds,
    among: &[Event],
    shard: Shard,
    wanted: &Wanted,
    remember: usize,
    sharing: &Sharing<'_, W>,
) -> Result<Share, NoMemory>
    requires fits { Fits shard parts }
    ensures { IfOk result (λ share. HasSearched wanted.now shard parts among.now (start board.now bounds)
        (option_map (λ events. events.items) share.schedule) share.done) }
{
    let mut share = Share {
        schedule: None,
        done: List::new(alloc),
        counts: Counts::new(bounds),
    };
    for _ in 0..parts {
        let Some(part) = sharing.take(parts) else {
            return Ok(share);
        };
        let shard = part_of(shard, parts, part);
        let Some(found) = search_part(
            alloc, board, bounds, among, shard, wanted, remember, sharing,
        )?
        else {
            return Ok(share);
        };
        share.counts = plus(share.counts, found.counts);
        if found.schedule.is_some() {
            sharing.end();
            share.schedule = found.schedule;
            return Ok(share);
        }
        share.done.push(part)?;
    }
    Ok(share)
}

/// Searches a part. `None`: the threads were to go on no more.
fn search_part<W: Watch>(
    alloc: Global,
    board: &Board,
    bounds: Bounds,
    among: &[Event],
    part: Shard,
    wanted: &Wanted,
    remember: usize,
    sharing: &Sharing<'_, W>,
) -> Result<Option<Found>, NoMemory>
    requires { 0 < part.of }
    ensures { IfOk result (λ found. IfSome found (λ found.
        AnswersInShard wanted.now part among.now (start board.now bounds)
        (option_map (λ events. events.items) found.schedule))) }
{
    let mut lookout = Lookout::new(sharing);
    match find_in_shard(
        alloc,
        board,
        bounds,
        among,
        part,
        wanted,
        remember,
        &mut lookout,
    ) {
        Ok(found) => Ok(Some(found)),
        Err(Halt::Stopped) => Ok(None),
        Err(Halt::NoMemory) => Err(NoMemory),
    }
}

/// What the threads have found together. `None`: a part is left, since who watches wanted no more of the search.
fn joined(
    alloc: Global,
    parts: u32,
    board: &Board,
    bounds: Bounds,
    among: &[Event],
    shard: Shard,
    wanted: &Wanted,
    shares: Vec<Result<Share, NoMemory>>,
) -> Result<Option<Found>, NoMemory>
    requires fits { Fits shard parts }
    requires shares { All (λ share. IfOk share (λ share. HasSearched wanted.now shard parts among.now
        (start board.now bounds) (option_map (λ events. events.items) share.schedule) share.done)) shares.items }
    ensures { IfOk result (λ found. IfSome found (λ found.
        AnswersInShard wanted.now shard among.now (start board.now bounds)
        (option_map (λ events. events.items) found.schedule))) }
{
    let mut done = List::new(alloc);
    let mut counts = Counts::new(bounds);
    for share in shares {
        let Share {
            schedule,
            done: mine,
            counts: some,
        } = share?;
        counts = plus(counts, some);
        if schedule.is_some() {
            return Ok(Some(Found { schedule, counts }));
        }
        done.append(mine.as_slice())?;
    }
    if !are_all(parts, done.as_slice()) {
        return Ok(None);
    }
    Ok(Some(Found {
        schedule: None,
        counts,
    }))
}

/// Whether these are all of so many parts.
fn are_all(parts: u32, done: &[u32]) -> bool
    ensures { result ≡ true → (part : ℕ) → part < parts → Contains done.now part }
{
    for part in 0..parts {
        if !is_among(done, part) {
            return false;
        }
    }
    true
}

/// Whether this is one of some parts.
fn is_among(parts: &[u32], part: u32) -> bool
    ensures { result ≡ true → Contains parts.now part }
{
    parts.contains(&part)
}

/// The schedules of both.
fn plus(some: Counts, others: Counts) -> Counts {
    Counts {
        tried: some.tried.saturating_add(others.tried),
        ended: some.ended.saturating_add(others.ended),
        out_of_events: some.out_of_events.saturating_add(others.out_of_events),
        out_of_ticks: some.out_of_ticks.saturating_add(others.out_of_ticks),
        spare: some.spare.min(others.spare),
    }
}
