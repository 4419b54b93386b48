//! A search that several machines share: the schedules are dealt out to them by the second choice that costs.

ghost use Rattle.std.specs.List.{list_any};
ghost use Rattle.std.specs.Prelude.{option_map, ◌≡◌, ◌≤◌, ◌<◌, ℕ, true, false, length, IfErr, IfOk, IfSome, IfNone};
ghost use Rattle.brd_explore.specs.Ordering.{event_tried};
ghost use Rattle.brd_explore.specs.Schedules.{Place, start};
ghost use Rattle.brd_explore.specs.Knowing.{AreDone, KnowsIn, Leaves};
ghost use Rattle.brd_explore.specs.Searching.{
  HaltsSo,
  HasLess,
  IsOnPath,
  IsSame,
  IsSized,
  LeadsOn,
  ended_by,
  place_of,
  spot_of,
};
ghost use Rattle.brd_explore.specs.Shards.{AnswersInShard, is_dealt, undealt};
ghost use Rattle.brd_explore.specs.Sharing.{
  AreOthers,
  BeginsHere,
  LeavesOutIn,
  NoneLeftIn,
  SearchesAll,
  SearchesFrom,
  TriesIn,
  goes_in,
  is_choice,
  may_come,
};

use crate::bounds::{Bounds, did_nothing};
use crate::known::{Known, may_have_more};
use crate::order::event_tried;
use crate::search::{Counts, Found, Halt, Search, Turn, Watch, find};
use crate::wanted::Wanted;
use brd_base::NoMemory;
use brd_board::{Board, Event};
use std::alloc::Global;

/// One of the shards of a search.
#[derive(Clone, Copy, Debug, PartialEq, Eq)]
pub struct Shard {
    /// Its number, from 0.
    pub number: u32,
    /// How many shards there are.
    pub of: u32,
}

/// How schedules are dealt out to a shard.
#[derive(Clone, Copy)]
struct Deal {
    shard: Shard,
    /// A schedule is dealt out as soon as fewer choices that cost are left.
    least: u64,
}

impl Deal {
    /// How schedules within bounds are dealt out.
    fn new(shard: Shard, bounds: Bounds) -> Deal
        ensures shard { result.shard ≡ shard }
        ensures least { result.least ≡ undealt bounds }
    {
        let choices = bounds.choices();
        let least = if choices > 1 { choices - 1 } else { choices };
        Deal { shard, least }
    }

    /// Whether a schedule is dealt out that has so much left of the bounds.
    fn is_dealt(self, left: Bounds) -> bool
        ensures { result ≡ is_dealt self.least left }
    {
        left.choices() < self.least
    }

    /// Whether a schedule that has so much left of the bounds is dealt to nobody yet, or to the shard.
    fn goes_in(self, left: Bounds) -> bool
        requires { 0 < self.shard.of }
        ensures { result ≡ goes_in self left }
    {
        !self.is_dealt(left) || left.events % self.shard.of == self.shard.number
    }
}

/// Searches those schedules of a board within bounds that are in a shard, for one that fails. At most `remember` places
/// are kept, so that none of them is searched a second time. A schedule that is in every shard is counted in the first.
pub fn find_in_shard<W: Watch>(
    alloc: Global,
    board: &Board,
    bounds: Bounds,
    among: &[Event],
    shard: Shard,
    wanted: &Wanted,
    remember: usize,
    watch: &mut W,
) -> Result<Found, Halt>
    requires { 0 < shard.of }
    ensures is { IfOk result
        (λ found.
        AnswersInShard wanted.now shard among.now (start board.now bounds)
        (option_map (λ events. events.items) found.schedule)) }
    ensures halts { IfErr result (HaltsSo W.may_stop) }
{
    if shard.of == 1 {
        return find(alloc, board, bounds, among, wanted, remember, watch);
    }
    if wanted.fails_at(board, bounds)? {
        return Ok(Found {
            schedule: Some(Vec::new(alloc)),
            counts: Counts::new(bounds),
        });
    }
    let mut search = Search::new(alloc, board, bounds)?;
    let mut known = Known::new(alloc, remember);
    let deal = Deal::new(shard, bounds);
    let found = search.run_in_shard(among, deal, wanted, &mut known, watch)?;
    Ok(search.into_found(found))
}

impl Search {
    /// Takes turns until something is found, or nothing of the shard is left. Answers whether something is found.
    fn run_in_shard<W: Watch>(
        &mut self,
        among: &[Event],
        deal: Deal,
        wanted: &Wanted,
        known: &mut Known,
        watch: &mut W,
    ) -> Result<bool, Halt>
        requires of { 0 < deal.shard.of }
        requires sized { IsSized self.old }
        requires known { AreDone wanted.now among.now known.old }
        ensures out { IfOk result (λ found. LeavesOutIn wanted.now deal among.now self.old self.new (ended_by found)) }
        ensures on { (from : Place) → IsOnPath among.now from self.old
            → IfOk result (λ found. LeadsOn wanted.now among.now from self.new (ended_by found)) }
        ensures halts { IfErr result (HaltsSo W.may_stop) }
    {
        loop {
            match self.turn_in_shard(among, deal, wanted, known, watch)? {
                Turn::Found => return Ok(true),
                Turn::Over => return Ok(false),
                Turn::On => {
                    if !watch.tried(self.counts.tried) {
                        return Err(Halt::Stopped);
                    }
                }
            }
        }
    }

    /// Takes a turn where no schedule is dealt out yet. Answers what that came to.
    fn turn_in_shard<W: Watch>(
        &mut self,
        among: &[Event],
        deal: Deal,
        wanted: &Wanted,
        known: &mut Known,
        watch: &mut W,
    ) -> Result<Turn, Halt>
        requires of { 0 < deal.shard.of }
        requires sized { IsSized self.old }
        requires known { AreDone wanted.now among.now known.old }
        ensures out { IfOk result (LeavesOutIn wanted.now deal among.now self.old self.new) }
        ensures on { (from : Place) → IsOnPath among.now from self.old
            → IfOk result (LeadsOn wanted.now among.now from self.new) }
        ensures known { IfOk result (KnowsIn wanted.now among.now known.new) }
        ensures falls { IfOk result (HasLess among.now self.old self.new) }
        ensures sized { IsSized self.new }
        ensures halts { IfErr result (HaltsSo W.may_stop) }
    {
        match self.choice_in_shard(among, self.at, deal) {
            Some(at) => self.go_on_in_shard(among, at, deal, wanted, known, watch),
            None => {
                self.count_for_all(among, deal.shard)?;
                Ok(self.turn_from())
            }
        }
    }

    /// Goes on by an event of the shard, where no schedule is dealt out yet. Answers what that came to.
    fn go_on_in_shard<W: Watch>(
        &mut self,
        among: &[Event],
        at: usize,
        deal: Deal,
        wanted: &Wanted,
        known: &mut Known,
        watch: &mut W,
    ) -> Result<Turn, Halt>
        requires of { 0 < deal.shard.of }
        requires sized { IsSized self.old }
        requires known { AreDone wanted.now among.now known.old }
        requires within { (self.old.at ≤ at) × (at < length among.now) }
        requires choice { is_choice deal (place_of self.old) (event_tried among.now self.old.last at) ≡ true }
        requires before { AreOthers deal among.now (place_of self.old) self.old.at at }
        ensures out { IfOk result (LeavesOutIn wanted.now deal among.now self.old self.new) }
        ensures on { (from : Place) → IsOnPath among.now from self.old
            → IfOk result (LeadsOn wanted.now among.now from self.new) }
        ensures known { IfOk result (KnowsIn wanted.now among.now known.new) }
        ensures falls { IfOk result (HasLess among.now self.old self.new) }
        ensures sized { IsSized self.new }
        ensures halts { IfErr result (HaltsSo W.may_stop) }
    {
        if self.is_left_out(among, at, wanted) {
            self.pass(among, at);
            return Ok(Turn::On);
        }
        if !self.try_in_shard(among, at, deal)? {
            return Ok(Turn::On);
        }
        if !deal.is_dealt(self.left) {
            let fails = wanted.fails_at(&self.board, self.left)?;
            return Ok(if fails { Turn::Found } else { Turn::On });
        }
        if self.search_all(among, wanted, known, watch)? {
            return Ok(Turn::Found);
        }
        Ok(self.turn_from())
    }

    /// The position of the first event, from this one on, that may be chosen here.
    fn choice_in_shard(&self, among: &[Event], from: usize, deal: Deal) -> Option<usize>
        requires { 0 < deal.shard.of }
        ensures some { IfSome result
            (λ at. (from ≤ at) × (at < length among.now)
            × (is_choice deal (place_of self.now) (event_tried among.now self.now.last at) ≡ true)
            × AreOthers deal among.now (place_of self.now) from at) }
        ensures none { IfNone result (AreOthers deal among.now (place_of self.now) from (length among.now)) }
    {
        for at in from..among.len() {
            if self.is_choice(event_tried(among, self.last, at), deal) {
                return Some(at);
            }
        }
        None
    }

    /// Whether something is left for an event, and it deals the schedule to no other shard.
    fn is_choice(&self, event: Event, deal: Deal) -> bool
        requires { 0 < deal.shard.of }
        ensures { result ≡ is_choice deal (place_of self.now) event }
    {
        self.left.affords(self.last, event) && deal.goes_in(self.left.spent(self.last, event))
    }

    /// Tries an event here, for which something is left. Answers whether it has done something.
    fn try_in_shard(&mut self, among: &[Event], at: usize, deal: Deal) -> Result<bool, NoMemory>
        requires of { 0 < deal.shard.of }
        requires sized { IsSized self.old }
        requires within { at < length among.now }
        ensures is { IfOk result (λ done. TriesIn deal among.now self.old at self.new done) }
        ensures sized { IsSized self.new }
    {
        match self.choice_in_shard(among, at + 1, deal) {
            Some(_) => self.try_one(among, at),
            None => self.try_last(among, at),
        }
    }

    /// Searches all schedules from here. Answers whether something is found.
    fn search_all<W: Watch>(
        &mut self,
        among: &[Event],
        wanted: &Wanted,
        known: &mut Known,
        watch: &mut W,
    ) -> Result<bool, Halt>
        requires sized { IsSized self.old }
        requires begins { (self.old.at ≡ 0) × (self.old.fresh ≡ true) }
        requires known { AreDone wanted.now among.now known.old }
        ensures is { IfOk result (SearchesAll wanted.now among.now self.old self.new) }
        ensures known { IfOk result (λ found. found ≡ false → AreDone wanted.now among.now known.new) }
        ensures sized { IsSized self.new }
        ensures halts { IfErr result (HaltsSo W.may_stop) }
    {
        let mut branch = self.branch()?;
        let found = branch.fails(among, wanted, known, watch)?;
        self.counts = branch.counts;
        let (path, board) = branch.into_parts();
        if found {
            self.path = path;
        } else {
            self.keep(board);
        }
        Ok(found)
    }

    /// Keeps a board that is needed no more, if it can become that of another place.
    fn keep(&mut self, board: Board)
        requires { IsSized self.old }
        ensures rest { IsSame self.old self.new }
        ensures sized { IsSized self.new }
    {
        if self.board.is_alike(&board) {
            let _ = self.spare.push(board);
        }
    }

    /// Whether the board fails, or a search from here finds something.
    fn fails<W: Watch>(
        &mut self,
        among: &[Event],
        wanted: &Wanted,
        known: &mut Known,
        watch: &mut W,
    ) -> Result<bool, Halt>
        requires sized { IsSized self.old }
        requires begins { BeginsHere self.old }
        requires known { AreDone wanted.now among.now known.old }
        ensures is { IfOk result (SearchesFrom wanted.now among.now self.old self.new) }
        ensures known { IfOk result (λ found. found ≡ false → AreDone wanted.now among.now known.new) }
        ensures halts { IfErr result (HaltsSo W.may_stop) }
    {
        if wanted.fails_at(&self.board, self.left)? {
            return Ok(true);
        }
        known.begin();
        if known.knows(self, may_have_more(wanted)) {
            return Ok(false);
        }
        self.run(among, wanted, known, watch)
    }

    /// A search that begins here.
    fn branch(&mut self) -> Result<Search, NoMemory>
        requires sized { IsSized self.old }
        requires begins { (self.old.at ≡ 0) × (self.old.fresh ≡ true) }
        ensures spot { IfOk result (λ s. spot_of s ≡ spot_of self.old) }
        ensures path { IfOk result (λ s. s.path.items ≡ self.old.path.items) }
        ensures begins { IfOk result BeginsHere }
        ensures own { IfOk result IsSized }
        ensures rest { IsSame self.old self.new }
        ensures sized { IsSized self.new }
    {
        let alloc = *self.path.allocator();
        let path = Vec::from_slice(alloc, self.path.as_slice())?;
        let board = self.copy()?;
        Ok(Search {
            board,
            left: self.left,
            last: self.last,
            asleep: self.asleep,
            at: 0,
            fresh: true,
            path,
            saved: Vec::new(alloc),
            spare: Vec::new(alloc),
            counts: self.counts,
        })
    }

    /// Goes back to the place that was saved last. Answers what that came to.
    fn turn_from(&mut self) -> Turn
        requires { IsSized self.old }
        ensures is { Leaves self.old self.new result }
        ensures sized { IsSized self.new }
    {
        if self.go_back() { Turn::On } else { Turn::Over }
    }

    /// Counts the schedule that has led here if nothing may come here. It is in every shard, and the first one counts it.
    fn count_for_all(&mut self, among: &[Event], shard: Shard) -> Result<(), NoMemory>
        requires { IsSized self.old }
        ensures rest { IsSame self.old self.new }
        ensures sized { IsSized self.new }
    {
        if shard.number == 0 && self.fresh && !self.some_come(among)? {
            self.count()?;
        }
        Ok(())
    }

    /// Whether one of some events may come here.
    fn some_come(&self, among: &[Event]) -> Result<bool, NoMemory>
        ensures { IfOk result (λ some. some ≡ list_any (may_come (place_of self.now)) among.now) }
    {
        for event in among {
            if self.comes(*event)? {
                return Ok(true);
            }
        }
        Ok(false)
    }

    /// Whether an event may come here.
    fn comes(&self, event: Event) -> Result<bool, NoMemory>
        ensures { IfOk result (λ comes. comes ≡ may_come (place_of self.now) event) }
    {
        if !self.left.affords(self.last, event) {
            return Ok(false);
        }
        let mut copy = self.board.try_copy()?;
        Ok(!did_nothing(copy.event_apart(event)))
    }
}
