//! What is searched, and for what.

ghost use Rattle.std.specs.Prelude.{MatchResult};
ghost use Rattle.std.specs.Prelude.{◌≡◌, true, false};
ghost use Rattle.brd_search.specs.Plans.{IsPlan, KeepsFromPlanning, IsSized, IsOfSizes, IsShard, IsNoShard, text_of};
ghost use Rattle.brd_search.specs.Plans.{DontFit, IsOfEnds, IsOfTime, is_plain, places_fit, time_fits};
ghost use Rattle.brd_search.specs.Plans.{IsOfLazy, is_simple, lazy_fits, memory_of};
ghost use Rattle.brd_search.specs.Plans.{IsOfOnly, has_regions, is_bare, only_fits};
ghost use Rattle.brd_search.specs.Plans.{AreNotSaid, AreSaid, IsOfNoRaises, raises_fit};

use crate::coming::{check_lines, may_come};
use crate::fault::SearchFault;
use crate::options::{SearchOptions, Sizes};
use crate::raises::{Raises, raises_of};
use crate::regions::regions_of;
use crate::values::values_of;
use crate::wanting::wanted_of;
use brd_base::List;
use brd_board::{Board, Event};
use brd_explore::{Bounds, Shard, Wanted};
use brd_mem::Symbol;
use brd_only::Regions;
use brd_text::{parted, plain_decimal};
use std::alloc::Global;

/// The most events of a schedule (own choice).
const MOST_EVENTS: u32 = 1_000_000;

/// How many MiB of states are remembered at most (own choice).
const MOST_REMEMBERED: u32 = 4_096;

/// How many threads of the host search at most (own choice).
const MOST_THREADS: u32 = 64;

/// How many shards there are at most (own choice).
const MOST_SHARDS: u64 = 1_000_000;

/// A search.
pub struct Plan {
    /// What a schedule may have.
    pub bounds: Bounds,
    /// The events that may come.
    pub among: List<Event>,
    /// What is looked for.
    pub wanted: Wanted,
    /// Which part of the schedules is searched.
    pub shard: Shard,
    /// Whether a schedule that is found is to have as few events as it can.
    pub shortest: bool,
    /// How many MiB of places are remembered at most.
    pub remember: u32,
    /// How many seconds the search may take; 0: any number.
    pub time: u32,
    /// How many threads of the host search; 0: none but that of the command.
    pub threads: u32,
    /// Through how many places a search goes at most for which events and preemptions have no bound; 0: they have.
    pub places: u32,
    /// Whether such a search also looks for a board from which no schedule comes to an end.
    pub livelock: bool,
    /// Whether such a search, if none fails, lists the consoles of all ends.
    pub finals: bool,
    /// Through how many places a search goes at most within bounds, by the lazy schedules alone; 0: it isn't said.
    pub lazy: u32,
    /// If it isn't said: how many MiB of places it remembers at most before it goes on by all schedules; 0: it goes by
    /// all at once.
    pub memory: u32,
    /// The addresses of the words whose values such a list has beside the consoles.
    pub values: List<u32>,
    /// The regions of instructions to which schedules keep.
    pub regions: Regions,
}

/// Written out, so that a function that lets one go is proved with a call.
impl Drop for Plan {
    fn drop(self) {
        let Plan {
            bounds: _,
            among: _,
            wanted: _,
            shard: _,
            shortest: _,
            remember: _,
            time: _,
            threads: _,
            places: _,
            livelock: _,
            finals: _,
            lazy: _,
            memory: _,
            values: _,
            regions: _,
        } = self;
    }
}

/// The search that options ask for, of this board, which has so many processors, and whose image has these symbols.
///
/// # Errors
///
/// What is wrong with the options, or `NoMemory`.
pub fn plan_of(
    alloc: Global,
    options: &SearchOptions<'_>,
    board: &Board,
    cpus: u8,
    symbols: &[Symbol],
) -> Result<Plan, SearchFault>
    ensures { MatchResult result (IsPlan options.now board.now cpus symbols.now)
        (KeepsFromPlanning options.now board.now cpus symbols.now) }
{
    check_places(options)?;
    check_time(options)?;
    check_lazy(options)?;
    check_only(options)?;
    let raises = raises_of(options.raises)?;
    check_raises_at(options, raises.most)?;
    let bounds = bounds_of(options, raises)?;
    let shard = shard_of(options.shard)?;
    let among = may_come(alloc, options, raises.most, cpus)?;
    check_lines(board, among.as_slice())?;
    let wanted = wanted_of(alloc, &options.looks, options.sizes.fair, cpus, symbols)?;
    let values = values_of(alloc, options, board, symbols)?;
    let regions = regions_said(alloc, options, symbols)?;
    Ok(Plan {
        bounds,
        among,
        wanted,
        shard,
        shortest: options.shortest,
        remember: options.remember,
        time: options.time,
        threads: options.threads,
        places: options.places,
        livelock: options.livelock,
        finals: options.finals,
        lazy: options.lazy,
        memory: memory_of(options),
        values,
        regions,
    })
}

/// A search without bounds goes through the whole, and to no fair end; it finds what it finds, and remembers all
/// places. It alone knows of boards from which no schedule comes to an end, and of all ends.
fn check_places(options: &SearchOptions<'_>) -> Result<(), SearchFault>
    ensures { MatchResult result (λ _. places_fit options.now ≡ true) (DontFit options.now) }
{
    if options.places == 0 {
        return check_bounded(options.livelock || options.finals);
    }
    if is_plain(options) {
        return Ok(());
    }
    Err(SearchFault::Places)
}

/// A search with bounds knows neither.
fn check_bounded(asked: bool) -> Result<(), SearchFault>
    ensures { MatchResult result (λ _. asked ≡ false) (IsOfEnds asked) }
{
    if asked {
        return Err(SearchFault::Ends);
    }
    Ok(())
}

/// A search that may take so many seconds answers with the first schedule that it finds.
fn check_time(options: &SearchOptions<'_>) -> Result<(), SearchFault>
    ensures { MatchResult result (λ _. time_fits options.now ≡ true) (IsOfTime (time_fits options.now)) }
{
    if options.shortest && options.time != 0 {
        return Err(SearchFault::Time);
    }
    Ok(())
}

/// A search by the lazy schedules alone goes through the whole within bounds, and to no fair end.
fn check_lazy(options: &SearchOptions<'_>) -> Result<(), SearchFault>
    ensures { MatchResult result (λ _. lazy_fits options.now ≡ true) (IsOfLazy (lazy_fits options.now)) }
{
    if lazy_fits(options) {
        return Ok(());
    }
    Err(SearchFault::Lazy)
}

/// Whether options ask for no such search, or for nothing that it doesn't know.
fn lazy_fits(options: &SearchOptions<'_>) -> bool
    ensures { result ≡ lazy_fits options.now }
{
    options.lazy == 0 || is_simple(options)
}

/// The regions that both options say.
fn regions_said(
    alloc: Global,
    options: &SearchOptions<'_>,
    symbols: &[Symbol],
) -> Result<Regions, SearchFault>
    ensures { MatchResult result (AreSaid options.now symbols.now) (AreNotSaid options.now symbols.now) }
{
    let switches = match regions_of(alloc, options.only, symbols)? {
        Ok(switches) => switches,
        Err(fault) => return Err(SearchFault::Only(fault)),
    };
    let raises = match regions_of(alloc, options.raises_at, symbols)? {
        Ok(raises) => raises,
        Err(fault) => return Err(SearchFault::RaisesAt(fault)),
    };
    Ok(Regions { switches, raises })
}

/// It is said where lines may be raised only if some may be.
fn check_raises_at(options: &SearchOptions<'_>, most: u32) -> Result<(), SearchFault>
    ensures { MatchResult result (λ _. raises_fit options.now most ≡ true)
        (IsOfNoRaises (raises_fit options.now most)) }
{
    if options.raises_at.is_none() || most != 0 {
        return Ok(());
    }
    Err(SearchFault::NoRaises)
}

/// A search that keeps to regions goes through the whole within bounds, by one thread, and to no fair end.
fn check_only(options: &SearchOptions<'_>) -> Result<(), SearchFault>
    ensures { MatchResult result (λ _. only_fits options.now ≡ true) (IsOfOnly (only_fits options.now)) }
{
    if !has_regions(options) || is_bare(options) {
        return Ok(());
    }
    Err(SearchFault::OnlyAlone)
}

/// Whether options say regions.
fn has_regions(options: &SearchOptions<'_>) -> bool
    ensures { result ≡ has_regions options.now }
{
    options.only.is_some() || options.raises_at.is_some()
}

/// Whether options ask for nothing that such a search doesn't know.
fn is_bare(options: &SearchOptions<'_>) -> bool
    ensures { result ≡ is_bare options.now }
{
    options.shard.is_none()
        && options.sizes.fair == 0
        && options.remember == 0
        && options.threads == 0
        && options.places == 0
        && options.lazy == 0
}

/// How many MiB of places a search remembers that isn't told whether to go by the lazy schedules alone: none if it is to
/// do what such a search doesn't know.
fn memory_of(options: &SearchOptions<'_>) -> u32
    ensures { result ≡ memory_of options.now }
{
    if options.lazy == 0 && is_simple(options) {
        return options.memory;
    }
    0
}

/// Whether options ask for nothing that such a search doesn't know.
fn is_simple(options: &SearchOptions<'_>) -> bool
    ensures { result ≡ is_simple options.now }
{
    options.shard.is_none()
        && options.sizes.fair == 0
        && options.remember == 0
        && options.places == 0
}

/// Whether options ask for nothing that a search without bounds doesn't know.
fn is_plain(options: &SearchOptions<'_>) -> bool
    ensures { result ≡ is_plain options.now }
{
    options.sizes.fair == 0
        && options.remember == 0
        && options.time == 0
        && options.threads == 0
        && !options.shortest
        && options.shard.is_none()
}

/// The bounds that options give, with these raises. They ask neither for too many events or threads nor for too much
/// that is remembered.
fn bounds_of(options: &SearchOptions<'_>, raises: Raises) -> Result<Bounds, SearchFault>
    ensures { MatchResult result (IsSized options.now raises) (IsOfSizes options.now) }
{
    let Sizes {
        events,
        preemptions,
        ticks,
        fair: _,
    } = options.sizes;
    if events > MOST_EVENTS {
        return Err(SearchFault::Events);
    }
    if options.remember > MOST_REMEMBERED {
        return Err(SearchFault::Remember);
    }
    if options.threads > MOST_THREADS {
        return Err(SearchFault::Threads);
    }
    Ok(Bounds {
        events,
        preemptions,
        ticks,
        raises: raises.most,
        owed: raises.owed,
    })
}

/// The shard that `K/M` says; the whole where nothing is said.
fn shard_of(text: Option<&str>) -> Result<Shard, SearchFault>
    ensures { MatchResult result (IsShard (text_of text.entry)) (IsNoShard (text_of text.entry)) }
{
    match text {
        Some(text) => shard_in(text.as_bytes()),
        None => Ok(Shard { number: 0, of: 1 }),
    }
}

/// The shard that `K/M` says.
#[tactic(auto, unfolding(crate::specs::Plans::parts_of))]
fn shard_in(text: &[u8]) -> Result<Shard, SearchFault>
    ensures { MatchResult result (IsShard (Some text.now)) (IsNoShard (Some text.now)) }
{
    let (number, Some(count)) = parted(text, b'/') else {
        return Err(SearchFault::Shard);
    };
    let Some(number) = plain_decimal(number, MOST_SHARDS) else {
        return Err(SearchFault::Shard);
    };
    let Some(count) = plain_decimal(count, MOST_SHARDS) else {
        return Err(SearchFault::Shard);
    };
    if number == 0 || count < number {
        return Err(SearchFault::Shard);
    }
    Ok(Shard {
        number: (number - 1) as u32,
        of: count as u32,
    })
}
