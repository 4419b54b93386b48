//! The command `explore`.

ghost use Rattle.std.specs.Prelude.{◌≡◌, ◌++◌, ◌<◌, ◌==◌, codes, not, option_map, true, false};
ghost use Rattle.std.specs.Prelude.{IfErr, IfOk, IfSome, MatchResult, None, Some};
ghost use Rattle.brd_running.specs.ExploreCommand.{ExploreFilesEnd, IsExplored, IsTold, KeepsFromSearching};
ghost use Rattle.brd_running.specs.ExploreCommand.{Begins, KeepsFromExploring, Tells, failed};
ghost use Rattle.brd_running.specs.ExploreCommand.{lazy_fault_of, no_answer_of};
ghost use Rattle.brd_search.specs.Searches.{Answers, IsFewest, IsShortest, StopsSo};
ghost use Rattle.brd_running.specs.ExploreCommand.{IsReached, IsUnknown, IsUntoldOfAll, left_by};
ghost use Rattle.brd_running.specs.ExploreCommand.{AreAllEnds, IsHopeless, TellsHeld, TellsHung, endings_of};
ghost use Rattle.brd_running.specs.Saving.{IsOfJournal};
ghost use Rattle.brd_search.specs.Shown.{shown};
ghost use Rattle.brd_board.specs.Board.{BoardState};

use crate::saving::{is_over, journal_text, save, tell, try_out};
use brd_base::{List, NoMemory};
use brd_board::{Board, Event};
use brd_explore::{Bounds, Counts, Ending, Watch};
use brd_inputs::{CommandFault, Files, Loaded, Pair, open_pair, read_board};
use brd_mem::Symbol;
use brd_places::Left;
use brd_progress::Progress;
use brd_reach::{Final, Held, Reached, Unknown, never_ends, reach, rest_of, show_all};
use brd_search::{
    Extent, NoAnswer, Plan, SearchFault, SearchOptions, Searched, plan_of, put_all_hold, put_final,
    put_final_count, put_found, put_hung, put_none, search, shown_events,
};
use brd_threads::processors;
use std::alloc::Global;
use std::io::{Read, Write};
use std::thread::Threads;

/// With what the text begins that tells of a schedule that fails.
const FAILS: &[u8] = b"fails ";

/// With what the text begins that says that none fails.
const NONE: &[u8] = b"none of ";

/// With what it begins where events and preemptions have no bound.
const ALL_HOLD: &[u8] = b"none ";

/// What is told of a search.
#[derive(Drop)]
pub struct Told {
    /// What it came to, in words.
    pub text: Vec<u8>,
    /// The text of the journal after which a board fails, if there is one.
    pub journal: Option<Vec<u8>>,
}

/// Reads an object file and a configuration to their ends, in this order, and searches the schedules of the board that
/// they make for one that fails. Answers what that came to, in words, and the text of the journal of one that fails, if
/// there is one. How many schedules were tried is told on the way.
pub fn explore<R: Read, P: Progress + Send, T: Threads + Sync>(
    rt: &T,
    alloc: Global,
    pair: &mut Pair<R>,
    options: SearchOptions<'_>,
    progress: &mut P,
) -> Result<Told, CommandFault>
    ensures { IfSome (R.remaining pair.old.image) (λ file. IfSome (R.remaining pair.old.config) (λ statements.
        MatchResult result
        (λ told. IsExplored options.entry file statements told.text.items
        (option_map (λ text. text.items) told.journal))
        (KeepsFromExploring options.entry file statements))) }
{
    let loaded = match read_board(alloc, pair) {
        Ok(loaded) => loaded,
        Err(fault) => return Err(fault),
    };
    told_of(rt, alloc, &loaded, options, progress)
}

/// Does `explore` on its files: IMAGE is opened, then CONFIG, and both are read. OUT may be neither, and is refused
/// before the search where it couldn't be created. If a schedule was found that fails, OUT, if it is named, gets the
/// journal, whole or not at all, before that is told; the command then ends as one that has found a failure does.
pub fn explore_files<F: Files, W: Write, P: Progress + Send, T: Threads + Sync>(
    rt: &T,
    alloc: Global,
    files: &mut F,
    image: &str,
    config: &str,
    options: SearchOptions<'_>,
    out: Option<&str>,
    output: &mut W,
    progress: &mut P,
) -> Result<(), CommandFault>
    ensures { ExploreFilesEnd F.opened F.created F.closed F.Input.remaining F.Output.contents
        files.old image.now config.now options.entry (option_map (λ name. name.now) out.entry)
        (W.contents output.old) (W.contents output.new) result files.new }
{
    if is_over(out, image, config) {
        return Err(CommandFault::Search(SearchFault::OverInput));
    }
    let mut pair = match open_pair(alloc, files, image, config) {
        Ok(pair) => pair,
        Err(fault) => return Err(fault),
    };
    match try_out(alloc, files, out, image, config) {
        Ok(()) => {}
        Err(fault) => return Err(fault),
    }
    let Told { text, journal } = match explore(rt, alloc, &mut pair, options, progress) {
        Ok(told) => told,
        Err(fault) => return Err(fault),
    };
    progress.hide();
    let Some(journal) = journal else {
        return tell(output, &text);
    };
    let saved = save(alloc, files, out, &journal);
    failed(saved, tell(output, &text))
}

/// How a search ends that has found a failure: as saving its journal did, or telling it; else as one that has found
/// one.
fn failed(
    saved: Result<(), CommandFault>,
    told: Result<(), CommandFault>,
) -> Result<(), CommandFault>
    ensures { result ≡ failed saved told }
{
    match saved {
        Ok(()) => match told {
            Ok(()) => Err(CommandFault::Fails),
            Err(fault) => Err(fault),
        },
        Err(fault) => Err(fault),
    }
}

/// What is told of the search that options ask for.
fn told_of<P: Progress + Send, T: Threads + Sync>(
    rt: &T,
    alloc: Global,
    loaded: &Loaded,
    options: SearchOptions<'_>,
    progress: &mut P,
) -> Result<Told, CommandFault>
    ensures { MatchResult result
        (λ told. IsTold options.entry loaded.now told.text.items (option_map (λ text. text.items) told.journal))
        (KeepsFromSearching options.entry loaded.now) }
{
    let symbols = loaded.image.symbols.as_slice();
    let cpus = processors(&loaded.board) as u8;
    let plan = match plan_of(alloc, &options, &loaded.board, cpus, symbols) {
        Ok(plan) => plan,
        Err(fault) => return Err(CommandFault::of_search(fault)),
    };
    if plan.places > 0 {
        return told_of_all(alloc, &loaded.board, symbols, &plan);
    }
    let searched = match searched_by(rt, alloc, &loaded.board, &plan, progress) {
        Ok(searched) => searched,
        Err(why) => return Err(no_answer_of(why)),
    };
    match searched.schedule {
        Some(events) => told_found(alloc, &loaded.board, symbols, &plan, &events),
        None => Ok(told_none(alloc, symbols, &plan, searched.lazily, searched.counts)?),
    }
}

/// Searches the schedules within bounds, for so many seconds at most if that is asked for.
fn searched_by<P: Progress + Send, T: Threads + Sync>(
    rt: &T,
    alloc: Global,
    board: &Board,
    plan: &Plan,
    progress: &mut P,
) -> Result<Searched, NoAnswer>
    requires { 0 < plan.now.shard.of }
    ensures is { IfOk result
        (λ found. Answers plan.now board.now found.bounds (option_map (λ events. events.items) found.schedule)) }
    ensures short { plan.now.shortest ≡ true →
        IfOk result
        (λ found. IsShortest plan.now board.now found.bounds (option_map (λ events. events.items) found.schedule)) }
    ensures fewest { plan.now.shortest ≡ false →
        IfOk result
        (λ found. IsFewest plan.now board.now found.bounds (option_map (λ events. events.items) found.schedule)) }
    ensures stops { IfErr result (StopsSo plan.now board.now (not (plan.now.time == 0))) }
{
    if plan.time == 0 {
        return search(rt, alloc, board, plan, &mut Searching::new(progress));
    }
    search(rt, alloc, board, plan, &mut Timed::new(progress, plan.time))
}

/// The fault of a search that has come to no answer.
fn no_answer_of(why: NoAnswer) -> CommandFault
    ensures { result ≡ no_answer_of why }
{
    match why {
        NoAnswer::NoMemory => CommandFault::NoMemory,
        NoAnswer::Stopped => CommandFault::Search(SearchFault::OutOfTime),
        NoAnswer::StoppedAfter(preemptions) => {
            CommandFault::Search(SearchFault::OutOfTimeAfter { preemptions })
        }
        NoAnswer::Unknown(why) => CommandFault::Search(lazy_fault_of(why)),
        NoAnswer::UnknownInside => CommandFault::Search(SearchFault::MoreOnly),
    }
}

/// The fault of a search by lazy schedules that hasn't found whether one fails.
fn lazy_fault_of(why: Unknown) -> SearchFault
    ensures { result ≡ lazy_fault_of why }
{
    match why {
        Unknown::Places => SearchFault::MoreLazy,
        Unknown::Long => SearchFault::LongBlock,
        Unknown::Rounds | Unknown::Fair | Unknown::Waits => SearchFault::Unlearned,
    }
}

/// What is told of a search for which events and preemptions have no bound.
fn told_of_all(
    alloc: Global,
    board: &Board,
    symbols: &[Symbol],
    plan: &Plan,
) -> Result<Told, CommandFault>
    ensures { MatchResult result
        (λ told. IsReached plan.now board.now told.text.items (option_map (λ text. text.items) told.journal))
        IsUntoldOfAll }
{
    let left = left_of(plan.bounds);
    let most = plan.places as usize;
    match reach(
        alloc,
        board,
        left,
        plan.among.as_slice(),
        &plan.wanted,
        plan.values.as_slice(),
        most,
    )? {
        Reached::Holds(held) => told_held(alloc, board, symbols, plan, held),
        Reached::Fails(events) => told_found(alloc, board, symbols, plan, events.as_slice()),
        Reached::Unknown(why) => Err(CommandFault::Search(fault_of(why))),
    }
}

/// What is told where no schedule fails, however many events and preemptions it has: a board from which none comes to
/// an end, if that is looked for and there is one.
fn told_held(
    alloc: Global,
    board: &Board,
    symbols: &[Symbol],
    plan: &Plan,
    held: Held,
) -> Result<Told, CommandFault>
    ensures { MatchResult result
        (λ told. TellsHeld plan.now board.now held told.text.items (option_map (λ text. text.items) told.journal))
        IsUntoldOfAll }
{
    let Held {
        places,
        ends,
        hopeless,
        first,
        finals,
        more,
    } = held;
    let extent = Extent {
        places: places as u64,
        ends: ends as u64,
        hopeless: hopeless as u64,
    };
    if let Some(events) = first {
        if plan.livelock {
            return told_hung(alloc, board, symbols, plan, events.as_slice());
        }
    }
    let listed = if plan.finals {
        finals_text(alloc, board, symbols, plan, finals.as_slice(), more)?
    } else {
        Vec::new(alloc)
    };
    Ok(told_hold(alloc, symbols, plan, extent, &listed)?)
}

/// All ends, in words: that there is no other is found by one more search.
fn finals_text(
    alloc: Global,
    board: &Board,
    symbols: &[Symbol],
    plan: &Plan,
    finals: &[Final],
    more: bool,
) -> Result<Vec<u8>, CommandFault>
    ensures { MatchResult result (λ text. more ≡ false → AreAllEnds plan.now board.now finals.now) IsUntoldOfAll }
{
    if !more && !are_all(alloc, board, plan, finals)? {
        return Err(CommandFault::Search(SearchFault::Unlearned));
    }
    Ok(text_of_finals(alloc, board, symbols, plan, finals, more)?)
}

/// Whether it is found that these are all ends, by the console and the words that are asked for.
fn are_all(alloc: Global, board: &Board, plan: &Plan, finals: &[Final]) -> Result<bool, NoMemory>
    ensures { IfOk result (λ all. all ≡ true → AreAllEnds plan.now board.now finals.now) }
{
    let endings = endings_of(alloc, finals)?;
    let words = List::from_slice(alloc, plan.values.as_slice())?;
    show_all(
        alloc,
        board,
        left_of(plan.bounds),
        plan.among.as_slice(),
        plan.places as usize,
        words,
        endings,
    )
}

/// What the console and the words are at some ends.
fn endings_of(alloc: Global, finals: &[Final]) -> Result<List<Ending>, NoMemory>
    ensures { IfOk result (λ endings. endings ≡ endings_of finals.now) }
{
    let mut endings = List::new(alloc);
    for each in finals {
        endings.push(each.ending.try_copy(alloc)?)?;
    }
    Ok(endings)
}

/// Ends, in words.
fn text_of_finals(
    alloc: Global,
    board: &Board,
    symbols: &[Symbol],
    plan: &Plan,
    finals: &[Final],
    more: bool,
) -> Result<Vec<u8>, NoMemory> {
    let words = plan.values.as_slice();
    let mut out = Vec::new(alloc);
    put_final_count(
        alloc,
        finals.len() as u64,
        !words.is_empty(),
        more,
        &mut out,
    )?;
    for each in finals {
        let events = each.events.as_slice();
        put_final(alloc, symbols, board, words, &each.ending, events, &mut out)?;
    }
    Ok(out)
}

/// What is told of events that lead to a board from which no schedule comes to an end, and their journal.
fn told_hung(
    alloc: Global,
    board: &Board,
    symbols: &[Symbol],
    plan: &Plan,
    events: &[Event],
) -> Result<Told, CommandFault>
    ensures { MatchResult result
        (λ told. TellsHung plan.now board.now events.now told.text.items (option_map (λ text. text.items) told.journal))
        IsUntoldOfAll }
{
    if !is_hopeless(alloc, board, plan, events)? {
        return Err(CommandFault::Search(SearchFault::Unlearned));
    }
    let text = text_hung(alloc, board, symbols, events)?;
    match journal_text(alloc, board.order(), events) {
        Ok(journal) => Ok(Told {
            text,
            journal: Some(journal),
        }),
        Err(fault) => Err(fault),
    }
}

/// Whether it is found that no schedule comes to an end from the board after events.
fn is_hopeless(
    alloc: Global,
    board: &Board,
    plan: &Plan,
    events: &[Event],
) -> Result<bool, NoMemory>
    ensures { IfOk result (λ hopeless. hopeless ≡ true → IsHopeless plan.now board.now events.now) }
{
    let mut last = board.try_copy()?;
    last.play(events);
    let left = rest_of(left_of(plan.bounds), events);
    never_ends(
        alloc,
        &last,
        left,
        plan.among.as_slice(),
        plan.places as usize,
    )
}

/// A board from which no schedule comes to an end, in words.
fn text_hung(
    alloc: Global,
    board: &Board,
    symbols: &[Symbol],
    events: &[Event],
) -> Result<Vec<u8>, NoMemory>
    ensures { IfOk result (λ text. Begins (codes "fails ") text.items) }
{
    let mut hung = Vec::new(alloc);
    put_hung(alloc, symbols, board, events, &mut hung)?;
    joined(alloc, FAILS, &hung)
}

/// What is left of ticks and raises, by bounds.
fn left_of(bounds: Bounds) -> Left
    ensures { result ≡ left_by bounds }
{
    Left {
        ticks: bounds.ticks,
        raises: bounds.raises,
        owed: bounds.owed,
    }
}

/// What is told where something isn't known.
fn fault_of(why: Unknown) -> SearchFault
    ensures { IsUnknown result }
{
    match why {
        Unknown::Places => SearchFault::MorePlaces,
        Unknown::Long => SearchFault::LongBlock,
        Unknown::Rounds | Unknown::Fair | Unknown::Waits => SearchFault::Unlearned,
    }
}

/// What is told where no schedule fails, however many events and preemptions it has, and what is listed below it.
fn told_hold(
    alloc: Global,
    symbols: &[Symbol],
    plan: &Plan,
    extent: Extent,
    listed: &[u8],
) -> Result<Told, NoMemory>
    ensures { IfOk result
        (λ told. Begins (codes "none ") told.text.items × (option_map (λ text. text.items) told.journal ≡ None)) }
{
    let mut rest = Vec::new(alloc);
    put_all_hold(alloc, symbols, plan, extent, &mut rest)?;
    rest.extend_from_slice(listed)?;
    let text = joined(alloc, ALL_HOLD, &rest)?;
    Ok(Told {
        text,
        journal: None,
    })
}

/// What is told where no schedule fails.
fn told_none(
    alloc: Global,
    symbols: &[Symbol],
    plan: &Plan,
    lazily: bool,
    counts: Counts,
) -> Result<Told, NoMemory>
    ensures { (board : BoardState) → IfOk result
        (λ told. Tells plan.now board None told.text.items (option_map (λ text. text.items) told.journal)) }
{
    let mut rest = Vec::new(alloc);
    put_none(alloc, symbols, plan, lazily, counts, &mut rest)?;
    let text = joined(alloc, NONE, &rest)?;
    Ok(Told {
        text,
        journal: None,
    })
}

/// What is told of a schedule that fails, and its journal.
fn told_found(
    alloc: Global,
    board: &Board,
    symbols: &[Symbol],
    plan: &Plan,
    events: &[Event],
) -> Result<Told, CommandFault>
    ensures { MatchResult result
        (λ told. Tells plan.now board.now (Some events.now) told.text.items
        (option_map (λ text. text.items) told.journal))
        (IsOfJournal (shown plan.now.wanted board.now events.now)) }
{
    let text = text_found(alloc, board, symbols, plan, events)?;
    let shown = shown_events(alloc, &plan.wanted, board, events)?;
    match journal_text(alloc, board.order(), &shown) {
        Ok(journal) => Ok(Told {
            text,
            journal: Some(journal),
        }),
        Err(fault) => Err(fault),
    }
}

/// A schedule that fails, in words.
fn text_found(
    alloc: Global,
    board: &Board,
    symbols: &[Symbol],
    plan: &Plan,
    events: &[Event],
) -> Result<Vec<u8>, NoMemory>
    ensures { IfOk result (λ text. Begins (codes "fails ") text.items) }
{
    let mut rest = Vec::new(alloc);
    put_found(alloc, symbols, board, &plan.wanted, events, &mut rest)?;
    joined(alloc, FAILS, &rest)
}

/// A text after another one.
fn joined(alloc: Global, front: &[u8], rest: &[u8]) -> Result<Vec<u8>, NoMemory>
    ensures { IfOk result (λ text. text.items ≡ front.now ++ rest.now) }
{
    let mut text = Vec::from_slice(alloc, front)?;
    text.extend_from_slice(rest)?;
    Ok(text)
}

/// How many schedules are tried, or places gone through, before it is told anew how many (own choice).
const PIECE: u64 = 256;

/// Whether it is time to tell how many there are, where so many were told last. They are told then.
fn is_told(told: &mut u64, count: u64) -> bool {
    if count / PIECE == *told / PIECE {
        return false;
    }
    *told = count;
    true
}

/// What tells a progress how far a search is.
#[derive(Drop)]
struct Searching<'a, P> {
    progress: &'a mut P,
    /// How many schedules or places were told last.
    told: u64,
}

impl<'a, P: Progress> Searching<'a, P> {
    /// A search that begins.
    fn new(progress: &'a mut P) -> Searching<'a, P> {
        Searching { progress, told: 0 }
    }
}

impl<'a, P: Progress> Watch for Searching<'a, P> {
    ghost use Rattle.std.specs.Prelude.{false};

    ghost may_stop = { false };

    fn tried(&mut self, schedules: u64) -> bool {
        if is_told(&mut self.told, schedules) {
            self.progress.tried(schedules);
        }
        true
    }

    fn gone_through(&mut self, places: u64) -> bool {
        if is_told(&mut self.told, places) {
            self.progress.gone_through(places);
        }
        true
    }
}

/// How many turns a search takes before it is asked anew whether its time is over (own choice).
const TURNS: u32 = 128;

/// The same, for so many seconds at most.
#[derive(Drop)]
struct Timed<'a, P> {
    progress: &'a mut P,
    /// How many schedules or places were told last.
    told: u64,
    /// How many seconds the search may take.
    seconds: u32,
    /// How many turns it takes before it is asked anew.
    turns: u32,
}

impl<'a, P: Progress> Timed<'a, P> {
    /// A search that begins.
    fn new(progress: &'a mut P, seconds: u32) -> Timed<'a, P> {
        Timed {
            progress,
            told: 0,
            seconds,
            turns: TURNS,
        }
    }

    /// Whether its time isn't over, which is asked anew after some turns.
    fn has_time(&mut self) -> bool {
        if self.turns > 0 {
            self.turns -= 1;
            return true;
        }
        self.turns = TURNS;
        !self.progress.is_over(self.seconds)
    }
}

impl<'a, P: Progress> Watch for Timed<'a, P> {
    ghost use Rattle.std.specs.Prelude.{true};

    ghost may_stop = { true };

    fn tried(&mut self, schedules: u64) -> bool {
        if is_told(&mut self.told, schedules) {
            self.progress.tried(schedules);
        }
        self.has_time()
    }

    fn gone_through(&mut self, places: u64) -> bool {
        if is_told(&mut self.told, places) {
            self.progress.gone_through(places);
        }
        self.has_time()
    }
}
