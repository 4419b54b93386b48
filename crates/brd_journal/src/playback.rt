//! A board that plays a journal.

ghost use Rattle.std.specs.Prelude.{◌≡◌, ◌+◌, ◌≤◌, ◌<◌, List as ListOf, length, IfOk, true, false};
ghost use Rattle.brd_board.specs.declared.event.Event.{Event as EventOf};
ghost use Rattle.brd_board.specs.Board.{BoardState as BoardOf, after, happens};
ghost use Rattle.brd_journal.specs.Playing.{IsPlayed, AreStill, AllGoOn};
ghost use Rattle.brd_journal.specs.Runs.{ComesBehind, copies};
ghost use Rattle.brd_journal.specs.Still.{does_no_more, Rests};

use crate::journal::Journal;
use crate::run::{Run, does_no_more};
use brd_base::NoMemory;
use brd_board::{Board, Event, Report};

/// How many events of a run are done at most between two of which is seen whether they do anything (own choice).
const STRETCH: u64 = 65_537;

/// A board that plays a journal, and how many events it has played.
#[derive(Drop)]
pub struct Playback {
    /// The board.
    pub board: Board,
    /// How many events have happened to it.
    pub at: u64,
}

/// An event that a board has done, with those of its run that it has done after it.
#[derive(Clone, Copy)]
pub struct Moved {
    /// The event.
    pub event: Event,
    /// What it reported.
    pub report: Report,
    /// How many events there were, with those after it.
    pub count: u64,
}

impl Playback {
    /// An equal one.
    pub fn try_copy(&self) -> Result<Playback, NoMemory>
        ensures { IfOk result (λ copy. copy ≡ self.now) }
    {
        Ok(Playback {
            board: self.board.try_copy()?,
            at: self.at,
        })
    }

    /// Plays on up to a position, and past it, as far as the other one, while a run's events do nothing.
    pub fn play_to(&mut self, journal: &Journal, end: u64, to: u64)
        requires on { self.old.at ≤ end }
        requires past { end ≤ to }
        requires within { to ≤ length journal.now.events }
        ensures at { (end ≤ self.new.at) × (self.new.at ≤ to) }
        ensures played { (boot : BoardOf) → IsPlayed boot journal.now.events self.old
            → IsPlayed boot journal.now.events self.new }
        ensures still { (boot : BoardOf) → IsPlayed boot journal.now.events self.old
            → AreStill boot journal.now.events end self.new.at }
    {
        let mut near = 0;
        while self.at < end {
            let Some(rest) = journal.rest_at(self.at, &mut near) else {
                return;
            };
            self.advance(rest, end, to);
        }
    }

    /// Goes on with steps of a run, up to a position, each of which executes an instruction and no more. It is given
    /// what is left of that run. Answers how many it did: mostly all up to the next one that does more, and none where
    /// the board has no decoded instructions.
    pub fn go_on(&mut self, rest: Run, to: u64) -> u64
        requires on { self.old.at ≤ to }
        ensures few { result ≤ rest.count }
        ensures at { self.new.at ≡ self.old.at + result }
        ensures to { self.new.at ≤ to }
        ensures board { self.new.board ≡ after self.old.board (copies rest.event result) }
        ensures ran { AllGoOn self.old.board rest.event result }
        ensures played { (boot : BoardOf) (events : ListOf EventOf) → to ≤ length events
            → ComesBehind events self.old.at rest → IsPlayed boot events self.old → IsPlayed boot events self.new }
    {
        let Event::Step(cpu) = rest.event else {
            return 0;
        };
        let most = (to - self.at).min(rest.count as u64);
        let went = self.board.go_on(cpu, most as u32) as u64;
        self.at += went;
        went
    }

    /// Does the next event, and events of its run after it: some up to a position, or, where they do nothing, all up to
    /// the other one. It is given what is left of that run.
    #[inline(always)]
    pub fn advance(&mut self, rest: Run, end: u64, to: u64) -> Moved
        requires some { 1 ≤ rest.count }
        requires on { self.old.at < end }
        requires past { end ≤ to }
        // It goes on by as many events as it says, at least one, and not past the position.
        ensures goes { (1 ≤ result.count) × (result.count ≤ rest.count) × (self.new.at ≡ self.old.at + result.count) }
        ensures to { self.new.at ≤ to }
        ensures event { result.event ≡ rest.event }
        ensures report { result.report ≡ (happens self.old.board rest.event).report }
        ensures board { self.new.board ≡ after self.old.board (copies rest.event result.count) }
        ensures over { end < self.new.at → does_no_more rest.event result.report ≡ true }
        // Where the run is that of a list of events, the board is that of the definition after n events, and those from
        // the first position on did nothing.
        ensures played { (boot : BoardOf) (events : ListOf EventOf) → to ≤ length events
            → ComesBehind events self.old.at rest → IsPlayed boot events self.old → IsPlayed boot events self.new }
        ensures still { (boot : BoardOf) (events : ListOf EventOf) → ComesBehind events self.old.at rest
            → IsPlayed boot events self.old
            → AreStill boot events end self.new.at }
    {
        if is_one_step(rest) {
            let report = self.board.event_apart(rest.event);
            self.at += 1;
            return Moved {
                event: rest.event,
                report,
                count: 1,
            };
        }
        self.advance_run(rest, end, to)
    }

    /// Does the next event of a run, as `advance` does, and maybe more.
    #[inline(always)]
    fn advance_run(&mut self, rest: Run, end: u64, to: u64) -> Moved
        requires some { 1 ≤ rest.count }
        requires on { self.old.at < end }
        requires past { end ≤ to }
        ensures goes { (1 ≤ result.count) × (result.count ≤ rest.count) × (self.new.at ≡ self.old.at + result.count) }
        ensures to { self.new.at ≤ to }
        ensures event { result.event ≡ rest.event }
        ensures report { result.report ≡ (happens self.old.board rest.event).report }
        ensures board { self.new.board ≡ after self.old.board (copies rest.event result.count) }
        ensures over { end < self.new.at → does_no_more rest.event result.report ≡ true }
        ensures played { (boot : BoardOf) (events : ListOf EventOf) → to ≤ length events
            → ComesBehind events self.old.at rest → IsPlayed boot events self.old → IsPlayed boot events self.new }
        ensures still { (boot : BoardOf) (events : ListOf EventOf) → ComesBehind events self.old.at rest
            → IsPlayed boot events self.old
            → AreStill boot events end self.new.at }
    {
        let event = rest.event;
        let report = self.board.event_apart(event);
        let over = does_no_more(event, report);
        let count = count_of(rest.count, over, end - self.at, to - self.at);
        repeat(&mut self.board, event, (count - 1) as u32, over);
        self.at += count;
        Moved {
            event,
            report,
            count,
        }
    }
}

/// Whether a run is of one step, as most runs of most journals with turns are.
#[inline(always)]
fn is_one_step(run: Run) -> bool {
    matches!(run.event, Event::Step(_)) && run.count == 1
}

/// How many events of a run are done: all where they do nothing.
#[inline(always)]
fn count_of(count: u32, over: bool, few: u64, all: u64) -> u64
    requires some { 1 ≤ count }
    requires one { 1 ≤ few }
    requires past { few ≤ all }
    ensures all { result ≤ all }
    ensures few { over ≡ false → result ≤ few }
    ensures some { 1 ≤ result }
    ensures run { result ≤ count }
{
    let most = if over { all } else { few.min(STRETCH) };
    most.min(u64::from(count))
}

/// Lets a board do an event n times more, which is mostly not at all; nor where that does nothing.
#[inline(always)]
fn repeat(board: &mut Board, event: Event, count: u32, over: bool)
    ensures { (over ≡ true → Rests board.old event) → board.new ≡ after board.old (copies event count) }
{
    if over {
        return;
    }
    if count > 0 {
        board.repeat(event, count);
    }
}
