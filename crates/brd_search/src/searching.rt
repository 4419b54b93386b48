//! The search itself: with few preemptions first, and then shorter.

ghost use Rattle.std.specs.Prelude.{option_map, ◌≡◌, ◌≤◌, ◌<◌, Bool, true, false, IfErr, IfOk, IfSome, IfNone};
ghost use Rattle.brd_only.specs.Only.{are_none};
ghost use Rattle.brd_search.specs.Searches.{Answers, AnswersWithin, IsFewer, IsFewest, IsLeast, IsShortest, NoneBelow};
ghost use Rattle.brd_search.specs.Searches.{AnswersWhole, StopsSo};
ghost use Rattle.brd_search.specs.declared.plan.Plan.{Plan as PlanOf};
ghost use Rattle.brd_board.specs.Board.{BoardState as BoardOf};
ghost use Rattle.brd_explore.specs.Searching.{HaltsSo};

use crate::plan::Plan;
use brd_base::NoMemory;
use brd_board::{Board, Event};
use brd_crew::find_by_threads;
use brd_explore::{Bounds, Counts, Found, Halt, Watch};
use brd_lazy::{Gone, Lazily, find_lazily};
use brd_only::{Inside, find_inside};
use brd_reach::Unknown;
use std::alloc::Global;
use std::thread::{Threads, available_parallelism};

/// What a search came to.
#[derive(Drop)]
pub struct Searched {
    /// A schedule that fails, if one was found.
    pub schedule: Option<Vec<Event>>,
    /// The bounds within which it was found; those of the whole search where none was.
    pub bounds: Bounds,
    /// The schedules that were searched: all of those within the bounds if none was found. By the lazy ones alone, or by
    /// those that keep to regions, the places.
    pub counts: Counts,
    /// Whether places were gone through: of the lazy ones alone, or of those that keep to regions.
    pub lazily: bool,
}

/// Why a search has come to no answer.
#[derive(Clone, Copy, Debug, PartialEq, Eq)]
pub enum NoAnswer {
    /// A growth was refused: there is no memory left.
    NoMemory,
    /// Who watches wanted no more of it, and of no schedule it is known whether it fails.
    Stopped,
    /// Who watches wanted no more of it: none fails with up to so many preemptions, which are fewer than were asked
    /// for.
    StoppedAfter(u32),
    /// By the lazy schedules alone it isn't known, for this reason.
    Unknown(Unknown),
    /// By the schedules that keep to the plan's regions it isn't known: there are more places than are remembered.
    UnknownInside,
}

impl From<NoMemory> for NoAnswer {
    ghost use Rattle.std.specs.Prelude.{◌≡◌};
    ghost use Rattle.brd_search.specs.declared.searching.NoAnswer.TheVariants.{NoMemory as no_memory};

    ghost from_gives = { λ _ why. why ≡ no_memory };

    fn from(_e: NoMemory) -> Self {
        NoAnswer::NoMemory
    }
}

/// Searches the schedules of a board for one that fails: those without preemptions first, then those with one, and so
/// on; and then, if that is asked for, for one with fewer events, until there is none. As many threads of the host
/// search as the plan has.
pub fn search<T: Threads + Sync, W: Watch + Send>(
    rt: &T,
    alloc: Global,
    board: &Board,
    plan: &Plan,
    watch: &mut W,
) -> Result<Searched, NoAnswer>
    requires { 0 < plan.now.shard.of }
    ensures is { IfOk result
        (λ found. Answers plan.now board.now found.bounds (option_map (λ events. events.items) found.schedule)) }
    ensures stops { IfErr result (StopsSo plan.now board.now W.may_stop) }
    ensures short { plan.now.shortest ≡ true →
        IfOk result
        (λ found. IsShortest plan.now board.now found.bounds (option_map (λ events. events.items) found.schedule)) }
    ensures fewest { plan.now.shortest ≡ false →
        IfOk result
        (λ found. IsFewest plan.now board.now found.bounds (option_map (λ events. events.items) found.schedule)) }
{
    let searched = with_fewest(rt, alloc, board, plan, watch)?;
    if plan.shortest {
        return shortest(rt, alloc, board, plan, searched, watch);
    }
    Ok(searched)
}

/// Searches the schedules without preemptions first, then those with one, and so on.
fn with_fewest<T: Threads + Sync, W: Watch + Send>(
    rt: &T,
    alloc: Global,
    board: &Board,
    plan: &Plan,
    watch: &mut W,
) -> Result<Searched, NoAnswer>
    requires { 0 < plan.now.shard.of }
    ensures is { IfOk result
        (λ found. Answers plan.now board.now found.bounds (option_map (λ events. events.items) found.schedule)) }
    ensures stops { IfErr result (StopsSo plan.now board.now W.may_stop) }
    ensures fewest { IfOk result
        (λ found. IsFewest plan.now board.now found.bounds (option_map (λ events. events.items) found.schedule)) }
{
    let mut lazily = true;
    for preemptions in 0..plan.bounds.preemptions {
        let bounds = Bounds {
            preemptions,
            ..plan.bounds
        };
        let searched = match within(rt, alloc, board, plan, lazily, bounds, watch) {
            Ok(searched) => searched,
            Err(why) => return Err(no_answer(why, preemptions)),
        };
        lazily = searched.lazily;
        if searched.schedule.is_some() {
            return Ok(searched);
        }
        // More preemptions make no difference then.
        if searched.counts.spare > 0 {
            let whole = match within(rt, alloc, board, plan, lazily, plan.bounds, watch) {
                Ok(whole) => whole,
                Err(why) => return Err(no_answer(why, preemptions + 1)),
            };
            if whole.schedule.is_none() {
                return Ok(whole);
            }
        }
    }
    match within(rt, alloc, board, plan, lazily, plan.bounds, watch) {
        Ok(searched) => Ok(searched),
        Err(halt) => Err(no_answer(halt, plan.bounds.preemptions)),
    }
}

/// Why there is no answer, if it is known that none fails with fewer preemptions than these.
fn no_answer(why: NoAnswer, preemptions: u32) -> NoAnswer
    ensures { (plan : PlanOf) (b : BoardOf) (may : Bool) → StopsSo plan b may why →
        preemptions ≤ plan.bounds.preemptions → NoneBelow plan b preemptions → StopsSo plan b may result }
{
    match why {
        NoAnswer::Stopped if preemptions > 0 => NoAnswer::StoppedAfter(preemptions - 1),
        _ => why,
    }
}

/// Searches the schedules within bounds; if the plan has regions, those that keep to them.
fn within<T: Threads + Sync, W: Watch + Send>(
    rt: &T,
    alloc: Global,
    board: &Board,
    plan: &Plan,
    lazily: bool,
    bounds: Bounds,
    watch: &mut W,
) -> Result<Searched, NoAnswer>
    requires { 0 < plan.now.shard.of }
    ensures is { IfOk result
        (λ found. AnswersWithin plan.now board.now bounds (option_map (λ events. events.items) found.schedule)) }
    ensures bounds { IfOk result (λ found. found.bounds ≡ bounds) }
    ensures stops { IfErr result (StopsSo plan.now board.now W.may_stop) }
{
    if !plan.regions.are_none() {
        return within_regions(alloc, board, plan, bounds, watch);
    }
    within_whole(rt, alloc, board, plan, lazily, bounds, watch)
}

/// Searches those that keep to the plan's regions.
fn within_regions<W: Watch>(
    alloc: Global,
    board: &Board,
    plan: &Plan,
    bounds: Bounds,
    watch: &mut W,
) -> Result<Searched, NoAnswer>
    requires { are_none plan.now.regions ≡ false }
    ensures is { IfOk result
        (λ found. AnswersWithin plan.now board.now bounds (option_map (λ events. events.items) found.schedule)) }
    ensures bounds { IfOk result (λ found. found.bounds ≡ bounds) }
    ensures stops { IfErr result (StopsSo plan.now board.now W.may_stop) }
{
    let found = match find_inside(
        alloc,
        board,
        bounds,
        plan.among.as_slice(),
        &plan.regions,
        &plan.wanted,
        plan.memory as usize * PLACES,
        watch,
    ) {
        Ok(found) => found,
        Err(halt) => return Err(stopped(halt)),
    };
    match found {
        Inside::Found(events) => {
            let schedule = Some(events);
            Ok(Searched {
                schedule,
                bounds,
                counts: UNTOLD,
                lazily: true,
            })
        }
        Inside::NoneFails(counts) => Ok(Searched {
            schedule: None,
            bounds,
            counts,
            lazily: true,
        }),
        Inside::Unknown(_) => Err(NoAnswer::UnknownInside),
    }
}

/// What stands for the counts of a search that has found a schedule: they aren't told.
const UNTOLD: Counts = Counts {
    tried: 0,
    ended: 0,
    out_of_events: 0,
    out_of_ticks: 0,
    spare: 0,
};

/// Searches the schedules within bounds: the lazy ones alone if that is asked for; or first these, if they may be, and if
/// it isn't known by them, all.
fn within_whole<T: Threads + Sync, W: Watch + Send>(
    rt: &T,
    alloc: Global,
    board: &Board,
    plan: &Plan,
    lazily: bool,
    bounds: Bounds,
    watch: &mut W,
) -> Result<Searched, NoAnswer>
    requires { 0 < plan.now.shard.of }
    ensures is { IfOk result
        (λ found. AnswersWhole plan.now board.now bounds (option_map (λ events. events.items) found.schedule)) }
    ensures bounds { IfOk result (λ found. found.bounds ≡ bounds) }
    ensures stops { IfErr result (StopsSo plan.now board.now W.may_stop) }
{
    let Some(room) = room_for(plan, lazily) else {
        return within_all(rt, alloc, board, plan, bounds, watch);
    };
    match within_lazily(rt, alloc, board, plan, room, bounds, watch) {
        Ok(Ok(searched)) => Ok(searched),
        Ok(Err(why)) if plan.lazy > 0 => Err(NoAnswer::Unknown(why)),
        Ok(Err(_)) => within_all(rt, alloc, board, plan, bounds, watch),
        Err(Halt::NoMemory) if plan.lazy == 0 => within_all(rt, alloc, board, plan, bounds, watch),
        Err(halt) => Err(stopped(halt)),
    }
}

/// How many places of a search that keeps to regions a MiB holds, about (own choice).
const PLACES: usize = 1_024;

/// The room for the places of a search by the lazy schedules alone.
#[derive(Clone, Copy)]
struct Room {
    /// How many places.
    most: usize,
    /// How many bytes.
    bytes: usize,
}

/// The room for such a search, if it may be made.
fn room_for(plan: &Plan, lazily: bool) -> Option<Room> {
    if plan.lazy > 0 {
        return Some(Room {
            most: plan.lazy as usize,
            bytes: usize::MAX,
        });
    }
    if !lazily || plan.memory == 0 {
        return None;
    }
    Some(Room {
        most: usize::MAX,
        bytes: plan.memory as usize * MEBIBYTE,
    })
}

/// Searches them one by one.
fn within_all<T: Threads + Sync, W: Watch + Send>(
    rt: &T,
    alloc: Global,
    board: &Board,
    plan: &Plan,
    bounds: Bounds,
    watch: &mut W,
) -> Result<Searched, NoAnswer>
    requires { 0 < plan.now.shard.of }
    ensures is { IfOk result
        (λ found. AnswersWhole plan.now board.now bounds (option_map (λ events. events.items) found.schedule)) }
    ensures bounds { IfOk result (λ found. found.bounds ≡ bounds) }
    ensures stops { IfErr result (StopsSo plan.now board.now W.may_stop) }
{
    match find_by_threads(
        rt,
        alloc,
        plan.threads,
        board,
        bounds,
        plan.among.as_slice(),
        plan.shard,
        &plan.wanted,
        places(board, plan.remember),
        watch,
    ) {
        Ok(Found { schedule, counts }) => Ok(Searched {
            schedule,
            bounds,
            counts,
            lazily: false,
        }),
        Err(halt) => Err(stopped(halt)),
    }
}

/// Searches the lazy ones alone, as far as there is room for places: what that came to, or why it isn't known.
fn within_lazily<T: Threads + Sync, W: Watch>(
    rt: &T,
    alloc: Global,
    board: &Board,
    plan: &Plan,
    room: Room,
    bounds: Bounds,
    watch: &mut W,
) -> Result<Result<Searched, Unknown>, Halt>
    ensures is { IfOk result (λ known. IfOk known
        (λ found. AnswersWhole plan.now board.now bounds (option_map (λ events. events.items) found.schedule))) }
    ensures bounds { IfOk result (λ known. IfOk known (λ found. found.bounds ≡ bounds)) }
    ensures halts { IfErr result (HaltsSo W.may_stop) }
{
    let found = find_lazily(
        rt,
        alloc,
        threads_of(rt, plan.threads),
        board,
        bounds,
        plan.among.as_slice(),
        &plan.wanted,
        room.most,
        room.bytes,
        watch,
    )?;
    match found {
        Lazily::Found(events) => Ok(Ok(Searched {
            schedule: Some(events),
            bounds,
            counts: UNTOLD,
            lazily: true,
        })),
        Lazily::NoneFails(gone) => Ok(Ok(Searched {
            schedule: None,
            bounds,
            counts: counts_of(gone),
            lazily: true,
        })),
        Lazily::Unknown(why) => Ok(Err(why)),
    }
}

/// How many threads of the host visit places: as many as was asked for, or if nothing was, as the host has processors.
/// What they come to doesn't depend on it.
fn threads_of<T: Threads>(rt: &T, asked: u32) -> u32 {
    if asked > 0 {
        return asked;
    }
    match available_parallelism(rt) {
        Ok(count) => u32::try_from(count.get()).unwrap_or(1).min(MOST_THREADS),
        Err(_) => 1,
    }
}

/// As how many threads visit places at most if it isn't said how many (own choice).
const MOST_THREADS: u32 = 64;

/// Places that were gone through, as schedules are counted.
fn counts_of(gone: Gone) -> Counts {
    Counts {
        tried: gone.places as u64,
        ended: gone.stops.ends as u64,
        out_of_events: gone.stops.out_of_events as u64,
        out_of_ticks: gone.stops.out_of_ticks as u64,
        spare: gone.spare,
    }
}

/// Why there is no answer where a search was halted.
fn stopped(halt: Halt) -> NoAnswer
    ensures { (plan : PlanOf) (b : BoardOf) (may : Bool) → HaltsSo may halt → StopsSo plan b may result }
{
    match halt {
        Halt::NoMemory => NoAnswer::NoMemory,
        Halt::Stopped => NoAnswer::Stopped,
    }
}

/// How many bytes a place takes beside its RAM, about (own choice).
const BESIDE: usize = 8_192;

/// How many bytes a MiB has.
const MEBIBYTE: usize = 1_048_576;

/// How many places of a board so many MiB hold.
fn places(board: &Board, mebibytes: u32) -> usize {
    let place = ram_len(board).saturating_add(BESIDE).max(1);
    mebibytes as usize * MEBIBYTE / place
}

/// How many bytes of RAM a board has, in whole pages.
fn ram_len(board: &Board) -> usize {
    for page in 0..PAGES {
        if board.memory(RAM + page * PAGE).is_none() {
            return (page * PAGE) as usize;
        }
    }
    (PAGES * PAGE) as usize
}

/// Where RAM begins.
const RAM: u32 = 0x8000_0000;

/// How many bytes a page has, of which a RAM has some.
const PAGE: u32 = 4_096;

/// How many pages a RAM has at most.
const PAGES: u32 = 4_096;

/// Searches for a schedule with fewer events as long as there is one.
fn shortest<T: Threads + Sync, W: Watch + Send>(
    rt: &T,
    alloc: Global,
    board: &Board,
    plan: &Plan,
    found: Searched,
    watch: &mut W,
) -> Result<Searched, NoAnswer>
    requires of { 0 < plan.now.shard.of }
    requires is { Answers plan.now board.now found.bounds (option_map (λ events. events.items) found.schedule) }
    ensures is { IfOk result
        (λ found. Answers plan.now board.now found.bounds (option_map (λ events. events.items) found.schedule)) }
    ensures short { IfOk result
        (λ found. IsShortest plan.now board.now found.bounds (option_map (λ events. events.items) found.schedule)) }
    ensures stops { IfErr result (StopsSo plan.now board.now W.may_stop) }
{
    let mut best = found;
    while let Some(bounds) = fewer(plan, &best) {
        let searched = match within(rt, alloc, board, plan, best.lazily, bounds, watch) {
            Ok(searched) => searched,
            Err(why) => return Err(no_answer(why, 0)),
        };
        if searched.schedule.is_none() {
            return Ok(best);
        }
        best = searched;
    }
    Ok(best)
}

/// The bounds of a schedule with fewer events than the one that was found.
fn fewer(plan: &Plan, found: &Searched) -> Option<Bounds>
    ensures some { IfSome result
        (λ bounds. IsFewer plan.now found.now.bounds (option_map (λ events. events.items) found.now.schedule) bounds) }
    ensures none { IfNone result (IsLeast found.now.bounds (option_map (λ events. events.items) found.now.schedule)) }
{
    let len = found.schedule.as_ref()?.len();
    let most = u32::try_from(len)
        .unwrap_or(u32::MAX)
        .min(found.bounds.events);
    if most == 0 {
        return None;
    }
    Some(Bounds {
        events: most - 1,
        ..plan.bounds
    })
}
