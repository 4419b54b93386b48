//! The search: depth first, by a stack of places to go back to.

ghost use Rattle.std.specs.Prelude.{option_map, ◌≡◌, ◌&&◌, take, ◌∷◌, ◌++◌, ◌+◌, ◌≤◌, ◌<◌, [], ℕ, true, false, length};
ghost use Rattle.std.specs.Prelude.{List as ListOf, IfErr, IfOk, OnOk, IfSome, IfNone, All, Some, None};
ghost use Rattle.brd_board.specs.declared.event.Event.{Event as EventOf};
ghost use Rattle.brd_board.specs.Board.{happens};
ghost use Rattle.brd_explore.specs.Schedules.{does, Place, is_left, next, IsWithin, IsAmong, start};
ghost use Rattle.brd_explore.specs.Ordering.{event_tried};
ghost use Rattle.brd_explore.specs.Sleeping.{is_left_out};
ghost use Rattle.brd_explore.specs.declared.search.Search.{Search as SearchOf};
ghost use Rattle.brd_explore.specs.declared.wanted.Wanted.{Wanted as WantedOf};
ghost use Rattle.brd_explore.specs.Knowing.{Knows, KnowsOn, AreDone, AreOver, ArePending, Leaves};
ghost use Rattle.brd_explore.specs.Searching.{
  AreAlike,
  Begins,
  Fails,
  HaltsSo,
  IsOnPath,
  IsSized,
  IsTooMuch,
  NoneFails,
  NoneLeft,
  Tries,
  TriesOr,
  GoesBack,
  HasPassed,
  Takes,
  IsSame,
  LeavesOut,
  LeadsOn,
  Answers,
  Finds,
  HasLess,
  ended_by,
  place_of,
  place_of_saved,
  spot_of,
};

use crate::asleep::{Asleep, executes, happen, sleeps};
use crate::bounds::{Bounds, did_nothing, is_last, stepper};
use crate::known::{Known, may_have_more};
use crate::order::event_tried;
use crate::wanted::{Wanted, is_end};
use brd_base::NoMemory;
use brd_board::{Board, Event};
use std::alloc::Global;
use std::mem::replace;

/// A place to which a search goes back.
pub struct Saved {
    board: Board,
    left: Bounds,
    last: Option<u8>,
    /// Who sleeps there.
    asleep: Option<Asleep>,
    /// The position of the first event that is still to be tried there.
    at: usize,
    /// How many events lead there.
    len: usize,
}

/// Where a search is.
pub struct Search {
    pub(crate) board: Board,
    pub(crate) left: Bounds,
    pub(crate) last: Option<u8>,
    /// Who sleeps here: whose next step is left out.
    pub(crate) asleep: Option<Asleep>,
    /// The position of the first event that is still to be tried here.
    pub(crate) at: usize,
    /// Whether no event that was tried here has done anything, and none was left out.
    pub(crate) fresh: bool,
    /// The events that lead here.
    pub(crate) path: Vec<Event>,
    /// The places to go back to, the last one first.
    pub(crate) saved: Vec<Saved>,
    /// Boards that are needed no more.
    pub(crate) spare: Vec<Board>,
    /// The schedules that were searched up to where nothing more may come.
    pub(crate) counts: Counts,
}

/// What a turn of a search came to.
#[derive(Clone, Copy, PartialEq, Eq)]
pub(crate) enum Turn {
    /// The search goes on.
    On,
    /// The path fails.
    Found,
    /// Nothing is left.
    Over,
}

impl Drop for Saved {
    fn drop(self) {
        let Saved {
            board: _,
            left: _,
            last: _,
            asleep: _,
            at: _,
            len: _,
        } = self;
    }
}

impl Drop for Search {
    fn drop(self) {
        let Search {
            board: _,
            left: _,
            last: _,
            asleep: _,
            at: _,
            fresh: _,
            path: _,
            saved: _,
            spare: _,
            counts: _,
        } = self;
    }
}

impl Saved {
    /// Its board.
    fn into_board(self) -> Board
        ensures { result ≡ self.board }
    {
        let Saved {
            board,
            left: _,
            last: _,
            asleep: _,
            at: _,
            len: _,
        } = self;
        board
    }
}

impl Search {
    /// The position of the first event, from this one on, for which something is left here.
    fn choice(&self, among: &[Event], from: usize) -> Option<usize>
        ensures some { IfSome result
            (λ at. (from ≤ at) × (at < length among.now)
            × (is_left (place_of self.now) (event_tried among.now self.now.last at) ≡ true)
            × IsTooMuch among.now (place_of self.now) from at) }
        ensures none { IfNone result (IsTooMuch among.now (place_of self.now) from (length among.now)) }
    {
        for at in from..among.len() {
            let event = event_tried(among, self.last, at);
            if self.left.affords(self.last, event) {
                return Some(at);
            }
        }
        None
    }

    /// A copy of the board, in place of a spare one if there is one.
    pub(crate) fn copy(&mut self) -> Result<Board, NoMemory>
        requires { IsSized self.old }
        ensures board { IfOk result (λ board. board ≡ self.old.board) }
        ensures rest { IsSame self.old self.new }
        ensures sized { IsSized self.new }
    {
        let Some(mut board) = self.spare.pop() else {
            return self.board.try_copy();
        };
        board.copy_from(&self.board)?;
        Ok(board)
    }

    /// A copy of this place, where the events from a position on are still to be tried.
    fn saved(&mut self, at: usize) -> Result<Saved, NoMemory>
        requires { IsSized self.old }
        ensures saved { IfOk result
            (λ f. (place_of_saved f ≡ place_of self.old) × (f.at ≡ at) × (f.len ≡ length self.old.path.items)
            × (f.asleep ≡ self.old.asleep)) }
        ensures rest { IsSame self.old self.new }
        ensures sized { IsSized self.new }
    {
        let board = self.copy()?;
        Ok(Saved {
            board,
            left: self.left,
            last: self.last,
            asleep: self.asleep,
            at,
            len: self.path.len(),
        })
    }

    /// Does an event. Answers whether it has done something, and is at the place after it then.
    pub(crate) fn take(&mut self, event: Event) -> Result<bool, NoMemory>
        requires { IsSized self.old }
        ensures is { IfOk result (λ done. Takes self.old event self.new done) }
        ensures saved { self.new.saved.items ≡ self.old.saved.items }
        ensures sized { IsSized self.new }
    {
        let left = self.left.spent(self.last, event);
        let (report, asleep) = happen(&mut self.board, self.asleep, event);
        if did_nothing(report) {
            return Ok(false);
        }
        self.path.push(event)?;
        self.left = left;
        self.counts = self.counts.with_left(left);
        self.asleep = asleep;
        self.last = stepper(&self.board, self.last, event);
        self.at = 0;
        self.fresh = true;
        Ok(true)
    }

    /// Does the last event that is to be tried here. Answers whether it has done something.
    pub(crate) fn try_last(&mut self, among: &[Event], at: usize) -> Result<bool, NoMemory>
        requires sized { IsSized self.old }
        requires within { at < length among.now }
        ensures is { IfOk result (λ done. TriesOr (Unit {0}) among.now self.old at self.new done) }
        ensures sized { IsSized self.new }
    {
        let done = self.take(event_tried(among, self.last, at))?;
        if !done {
            self.at = at + 1;
        }
        Ok(done)
    }

    /// Does an event, while others are still to be tried here. Answers whether it has done something.
    pub(crate) fn try_one(&mut self, among: &[Event], at: usize) -> Result<bool, NoMemory>
        requires sized { IsSized self.old }
        requires within { at < length among.now }
        ensures is { IfOk result (λ done. TriesOr ⊥ among.now self.old at self.new done) }
        ensures sized { IsSized self.new }
    {
        let saved = self.saved(at + 1)?;
        self.try_from(among, at, saved)
    }

    /// Does an event at a place of which this is a copy. Answers whether it has done something.
    fn try_from(&mut self, among: &[Event], at: usize, saved: Saved) -> Result<bool, NoMemory>
        requires sized { IsSized self.old }
        requires within { at < length among.now }
        requires saved { (place_of_saved saved ≡ place_of self.old) × (saved.at ≡ at + 1)
            × (saved.len ≡ length self.old.path.items) × (saved.asleep ≡ self.old.asleep) }
        ensures is { IfOk result (λ done. TriesOr ⊥ among.now self.old at self.new done) }
        ensures sized { IsSized self.new }
    {
        let done = self.take(event_tried(among, self.last, at))?;
        if done {
            self.saved.push(saved)?;
        } else {
            self.at = at + 1;
        }
        Ok(done)
    }

    /// Tries an event here, for which something is left. Answers whether it has done something.
    fn try_event(&mut self, among: &[Event], at: usize) -> Result<bool, NoMemory>
        requires sized { IsSized self.old }
        requires within { at < length among.now }
        ensures is { IfOk result (λ done. Tries among.now self.old at self.new done) }
        ensures sized { IsSized self.new }
    {
        match self.choice(among, at + 1) {
            Some(_) => self.try_one(among, at),
            None => self.try_last(among, at),
        }
    }

    /// Goes on by an event for which something is left. Answers what that came to.
    fn go_on(
        &mut self,
        among: &[Event],
        at: usize,
        wanted: &Wanted,
        known: &mut Known,
    ) -> Result<Turn, NoMemory>
        requires sized { IsSized self.old }
        requires known { Knows wanted.now among.now self.old known.old }
        requires within { (self.old.at ≤ at) × (at < length among.now) }
        requires left { is_left (place_of self.old) (event_tried among.now self.old.last at) ≡ true }
        requires before { IsTooMuch among.now (place_of self.old) self.old.at at }
        ensures out { IfOk result (LeavesOut wanted.now among.now self.old self.new) }
        ensures on { (from : Place) → IsOnPath among.now from self.old
            → IfOk result (LeadsOn wanted.now among.now from self.new) }
        ensures known { IfOk result (KnowsOn wanted.now among.now self.new known.new) }
        ensures falls { IfOk result (HasLess among.now self.old self.new) }
        ensures sized { IsSized self.new }
    {
        if self.is_left_out(among, at, wanted) {
            self.pass(among, at);
            return Ok(Turn::On);
        }
        if !self.try_event(among, at)? {
            return Ok(Turn::On);
        }
        if wanted.fails_at(&self.board, self.left)? {
            return Ok(Turn::Found);
        }
        if known.knows(self, may_have_more(wanted)) {
            return Ok(self.leave(known));
        }
        Ok(Turn::On)
    }

    /// Whether an event is left out here.
    #[tactic(auto, unfolding(crate::specs::Sleeping::is_left_out))]
    pub(crate) fn is_left_out(&self, among: &[Event], at: usize, wanted: &Wanted) -> bool
        requires { at < length among.now }
        ensures { result ≡ is_left_out wanted.now (spot_of self.now) (event_tried among.now self.now.last at) }
    {
        match event_tried(among, self.last, at) {
            Event::Step(cpu) => {
                sleeps(self.asleep, cpu)
                    && !is_last(self.last, cpu)
                    && executes(&self.board, cpu)
                    && wanted.rounds == 0
            }
            Event::Tick | Event::Raise(_) => false,
        }
    }

    /// Leaves an event out. This is no end then.
    pub(crate) fn pass(&mut self, among: &[Event], at: usize)
        requires { at < length among.now }
        ensures passed { HasPassed self.old at self.new }
        ensures spare { self.new.spare.items ≡ self.old.spare.items }
    {
        // For the proof alone: a length fits into a word, and so does the place of the next event.
        let _ = among.len();
        self.at = at + 1;
        self.fresh = false;
    }

    /// Goes back from a place of which nothing is left to be searched. Answers what that came to.
    fn leave(&mut self, known: &mut Known) -> Turn
        requires { IsSized self.old }
        ensures is { Leaves self.old self.new result }
        ensures done { (wanted : WantedOf) (among : ListOf EventOf) → AreDone wanted among known.old →
            AreOver wanted among (length self.old.saved.items) known.old → AreDone wanted among known.new }
        ensures pending { (wanted : WantedOf) (among : ListOf EventOf) (search : SearchOf) →
            ArePending wanted among search known.old → ArePending wanted among search known.new }
        ensures sized { IsSized self.new }
    {
        known.settle(self.saved.len());
        if self.go_back() { Turn::On } else { Turn::Over }
    }

    /// Goes back to the place that was saved last. Answers whether there was one.
    pub(crate) fn go_back(&mut self) -> bool
        requires { IsSized self.old }
        ensures is { GoesBack self.old self.new result }
        ensures sized { IsSized self.new }
    {
        let Some(saved) = self.saved.pop() else {
            return false;
        };
        self.put_back(saved);
        true
    }

    /// Is at a place that was saved.
    fn put_back(&mut self, saved: Saved)
        requires sized { IsSized self.old }
        requires alike { AreAlike saved.board self.old.board }
        ensures place { (place_of self.new ≡ place_of_saved saved) × (self.new.at ≡ saved.at)
            × (self.new.fresh ≡ false) × (self.new.asleep ≡ saved.asleep) }
        ensures path { self.new.path.items ≡ take saved.len self.old.path.items }
        ensures saved { self.new.saved.items ≡ self.old.saved.items }
        ensures sized { IsSized self.new }
    {
        self.left = saved.left;
        self.last = saved.last;
        self.asleep = saved.asleep;
        self.at = saved.at;
        self.fresh = false;
        self.path.truncate(saved.len);
        let before = replace(&mut self.board, saved.into_board());
        let _ = self.spare.push(before);
    }

    /// Counts the schedule that has led here, where nothing more may come, unless something came here.
    pub(crate) fn count(&mut self) -> Result<(), NoMemory>
        requires { IsSized self.old }
        ensures rest { IsSame self.old self.new }
        ensures sized { IsSized self.new }
    {
        if !self.fresh {
            return Ok(());
        }
        let ended = is_end(&self.board, self.left)?;
        self.counts = self.counts.with_one(ended, self.left);
        Ok(())
    }

    /// Goes back, since nothing is left for any event here. Answers what that came to.
    fn turn_back(
        &mut self,
        among: &[Event],
        wanted: &Wanted,
        known: &mut Known,
    ) -> Result<Turn, NoMemory>
        requires sized { IsSized self.old }
        requires known { Knows wanted.now among.now self.old known.old }
        requires rest { IsTooMuch among.now (place_of self.old) self.old.at (length among.now) }
        ensures out { IfOk result (LeavesOut wanted.now among.now self.old self.new) }
        ensures on { (from : Place) → IsOnPath among.now from self.old
            → IfOk result (LeadsOn wanted.now among.now from self.new) }
        ensures known { IfOk result (KnowsOn wanted.now among.now self.new known.new) }
        ensures falls { IfOk result (HasLess among.now self.old self.new) }
        ensures sized { IsSized self.new }
    {
        // For the proof alone: what it says names both, and else it would take neither.
        let _ = (among.len(), wanted.rounds);
        self.count()?;
        Ok(self.leave(known))
    }

    /// Takes a turn of the search. Answers what that came to.
    fn turn(
        &mut self,
        among: &[Event],
        wanted: &Wanted,
        known: &mut Known,
    ) -> Result<Turn, NoMemory>
        requires sized { IsSized self.old }
        requires known { Knows wanted.now among.now self.old known.old }
        ensures out { IfOk result (LeavesOut wanted.now among.now self.old self.new) }
        ensures on { (from : Place) → IsOnPath among.now from self.old
            → IfOk result (LeadsOn wanted.now among.now from self.new) }
        ensures known { IfOk result (KnowsOn wanted.now among.now self.new known.new) }
        ensures falls { IfOk result (HasLess among.now self.old self.new) }
        ensures sized { IsSized self.new }
    {
        match self.choice(among, self.at) {
            Some(at) => self.go_on(among, at, wanted, known),
            None => self.turn_back(among, wanted, known),
        }
    }

    /// Takes turns until something is found, or nothing is left. Answers whether something is found.
    pub(crate) fn run<W: Watch>(
        &mut self,
        among: &[Event],
        wanted: &Wanted,
        known: &mut Known,
        watch: &mut W,
    ) -> Result<bool, Halt>
        requires sized { IsSized self.old }
        requires known { Knows wanted.now among.now self.old known.old }
        ensures out { IfOk result (λ found. LeavesOut wanted.now among.now self.old self.new (ended_by found)) }
        ensures on { (from : Place) → IsOnPath among.now from self.old
            → IfOk result (λ found. LeadsOn wanted.now among.now from self.new (ended_by found)) }
        ensures known { IfOk result (λ found. KnowsOn wanted.now among.now self.new known.new (ended_by found)) }
        ensures sized { IsSized self.new }
        ensures halts { IfErr result (HaltsSo W.may_stop) }
    {
        loop {
            match self.turn(among, wanted, known)? {
                Turn::Found => return Ok(true),
                Turn::Over => return Ok(false),
                Turn::On => {
                    if !watch.tried(self.counts.tried) {
                        return Err(Halt::Stopped);
                    }
                }
            }
        }
    }

    /// A search that begins at a board.
    pub(crate) fn new(alloc: Global, board: &Board, bounds: Bounds) -> Result<Search, NoMemory>
        ensures begins { IfOk result (Begins (start board.now bounds)) }
        ensures sized { IfOk result IsSized }
    {
        let board = board.try_copy()?;
        Ok(Search {
            board,
            left: bounds,
            last: None,
            asleep: None,
            at: 0,
            fresh: true,
            path: Vec::new(alloc),
            saved: Vec::new(alloc),
            spare: Vec::new(alloc),
            counts: Counts::new(bounds),
        })
    }

    /// Its path, and its board.
    pub(crate) fn into_parts(self) -> (Vec<Event>, Board)
        ensures path { result.0 ≡ self.path }
        ensures board { result.1 ≡ self.board }
    {
        let Search {
            board,
            left: _,
            last: _,
            asleep: _,
            at: _,
            fresh: _,
            path,
            saved: _,
            spare: _,
            counts: _,
        } = self;
        (path, board)
    }

    /// What it came to, and how many schedules it has tried.
    pub(crate) fn into_found(self, found: bool) -> Found
        ensures { Finds self found (option_map (λ events. events.items) result.schedule) }
    {
        let counts = self.counts;
        let (path, _) = self.into_parts();
        let schedule = if found { Some(path) } else { None };
        Found { schedule, counts }
    }
}

/// How many schedules were searched up to where nothing more may come. A schedule isn't counted on which a step is left
/// out, since another one comes to the same, nor one that was left at a place from which every schedule was searched
/// before.
#[derive(Clone, Copy, Debug, PartialEq, Eq)]
pub struct Counts {
    /// All of them.
    pub tried: u64,
    /// Those of them that are at an end there.
    pub ended: u64,
    /// Those that are cut short: no event is left.
    pub out_of_events: u64,
    /// Those that are cut short though events are left: no tick is left for a wait that would end by one, or for a time
    /// handler.
    pub out_of_ticks: u64,
    /// How many preemptions were left everywhere. If any were, the bound on them has left nothing out.
    pub spare: u32,
}

impl Counts {
    /// None, where a search begins for which so much is left.
    pub fn new(left: Bounds) -> Counts {
        Counts {
            tried: 0,
            ended: 0,
            out_of_events: 0,
            out_of_ticks: 0,
            spare: left.preemptions,
        }
    }

    /// These, after having come to a place for which so much is left.
    fn with_left(self, left: Bounds) -> Counts {
        let mut counts = self;
        counts.spare = counts.spare.min(left.preemptions);
        counts
    }

    /// These, and one more, which is at an end or isn't, and has so much left of the bounds.
    fn with_one(self, ended: bool, left: Bounds) -> Counts {
        let mut counts = self;
        counts.tried = counts.tried.saturating_add(1);
        if ended {
            counts.ended = counts.ended.saturating_add(1);
        } else if left.events == 0 {
            counts.out_of_events = counts.out_of_events.saturating_add(1);
        } else {
            counts.out_of_ticks = counts.out_of_ticks.saturating_add(1);
        }
        counts
    }
}

/// What is told how far a search is.
pub trait Watch {
    ghost use Rattle.std.specs.Prelude.{◌≡◌, Bool, true, false};

    // whether it may want no more of a search
    ghost may_stop: { Bool };

    /// So many schedules were searched up to where nothing more may come, as `Found` counts them. Answers whether the
    /// search is to go on.
    fn tried(&mut self, schedules: u64) -> bool
        ensures { result ≡ false → Self.may_stop ≡ true };

    /// So many places were gone through. Answers whether the search is to go on. What doesn't say otherwise lets it.
    fn gone_through(&mut self, _places: u64) -> bool
        ensures { result ≡ false → Self.may_stop ≡ true }
    {
        true
    }
}

/// Who doesn't watch.
#[derive(Clone, Copy)]
pub struct Nobody;

impl Watch for Nobody {
    ghost use Rattle.std.specs.Prelude.{false};

    ghost may_stop = { false };

    fn tried(&mut self, _schedules: u64) -> bool {
        true
    }
}

/// Why a search has come to no answer.
#[derive(Clone, Copy, Debug, PartialEq, Eq)]
pub enum Halt {
    /// A growth was refused: there is no memory left.
    NoMemory,
    /// Who watches wanted no more of it.
    Stopped,
}

impl From<NoMemory> for Halt {
    ghost use Rattle.std.specs.Prelude.{◌≡◌};
    ghost use Rattle.brd_explore.specs.declared.search.Halt.TheVariants.{NoMemory as no_memory};

    ghost from_gives = { λ _ halt. halt ≡ no_memory };

    fn from(_e: NoMemory) -> Self {
        Halt::NoMemory
    }
}

/// What a search came to.
#[derive(Drop)]
pub struct Found {
    /// A schedule within the bounds that fails. `None`: no schedule that was to be searched fails.
    pub schedule: Option<Vec<Event>>,
    /// The schedules that were searched.
    pub counts: Counts,
}

/// Searches the schedules of a board within bounds, of which each event is one of these, for one that fails. At most
/// `remember` places are kept, so that none of them is searched a second time.
pub fn find<W: Watch>(
    alloc: Global,
    board: &Board,
    bounds: Bounds,
    among: &[Event],
    wanted: &Wanted,
    remember: usize,
    watch: &mut W,
) -> Result<Found, Halt>
    ensures is { IfOk result
        (λ found.
        Answers wanted.now among.now (start board.now bounds) (option_map (λ events. events.items) found.schedule)) }
    ensures halts { IfErr result (HaltsSo W.may_stop) }
{
    if wanted.fails_at(board, bounds)? {
        return Ok(Found {
            schedule: Some(Vec::new(alloc)),
            counts: Counts::new(bounds),
        });
    }
    let mut search = Search::new(alloc, board, bounds)?;
    let mut known = Known::new(alloc, remember);
    let found = search.run(among, wanted, &mut known, watch)?;
    Ok(search.into_found(found))
}
