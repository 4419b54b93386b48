//! Counting what a board does under a journal.

ghost use Rattle.std.specs.Prelude.{◌≡◌, ◌≤◌, ◌<◌, List as ListOf, length, IfOk, OnOk};
ghost use Rattle.brd_board.specs.declared.event.Event.{Event as EventOf};
ghost use Rattle.brd_board.specs.Board.{BoardState as BoardOf};
ghost use Rattle.brd_journal.specs.Playing.{IsPlayed};
ghost use Rattle.brd_journal.specs.Runs.{ComesBehind};
ghost use Rattle.brd_cover.specs.Counts.{CountsAt, executed_by, if_fetched, place_by, place_in};

use crate::calls::Calls;
use crate::counts::Counts;
use crate::edges::{has_ended, is_taken, lead_in, owner_of};
use crate::stacks::Stack;
use brd_base::NoMemory;
use brd_board::Report;
use brd_happening::{Before, Found, Happening};
use brd_journal::{Journal, Playback, Run};
use std::alloc::Global;

/// A board that plays a journal, and what was counted of it.
#[derive(Drop)]
pub struct Counting {
    /// The board.
    pub playback: Playback,
    /// How often what was executed.
    pub counts: Counts,
    pub(crate) calls: Calls,
    stacks: Vec<Stack>,
    near: usize,
}

impl Counting {
    /// Nothing was counted yet of a board that has come to a position.
    pub fn new(alloc: Global, playback: Playback) -> Counting
        ensures { result.playback ≡ playback }
    {
        Counting {
            playback,
            counts: Counts::new(alloc),
            calls: Calls::new(alloc),
            stacks: Vec::new(alloc),
            near: 0,
        }
    }

    /// Plays the next events up to a position, and counts what they execute.
    pub fn advance_far(&mut self, alloc: Global, journal: &Journal, to: u64) -> Result<(), NoMemory>
        requires on { self.old.playback.at ≤ to }
        requires within { to ≤ length journal.now.events }
        ensures at { IfOk result (λ _. self.new.playback.at ≡ to) }
        ensures within { self.new.playback.at ≤ to }
        ensures played { (boot : BoardOf) → IsPlayed boot journal.now.events self.old.playback
            → IsPlayed boot journal.now.events self.new.playback }
    {
        while self.playback.at < to {
            let Some(rest) = journal.rest_at(self.playback.at, &mut self.near) else {
                break;
            };
            self.advance(alloc, rest, to)?;
        }
        Ok(())
    }

    /// Plays the next event of what is left of a run, and those after it that do nothing, up to a position.
    fn advance(&mut self, alloc: Global, rest: Run, to: u64) -> Result<(), NoMemory>
        requires on { self.old.playback.at < to }
        requires some { 1 ≤ rest.count }
        ensures at { self.new.playback.at ≤ to }
        ensures goes { OnOk result (self.old.playback.at < self.new.playback.at) }
        // what the first of them executed is counted
        ensures counted { OnOk result (CountsAt self.old.counts.words.items self.new.counts.words.items
            (place_in self.old.playback.board rest.event)) }
        ensures played { (boot : BoardOf) (events : ListOf EventOf) → to ≤ length events
            → ComesBehind events self.old.playback.at rest → IsPlayed boot events self.old.playback
            → IsPlayed boot events self.new.playback }
    {
        let before = Before::of(alloc, &self.playback.board, rest.event)?;
        let position = self.playback.at;
        let moved = self.playback.advance(rest, position + 1, to);
        let Some(address) = executed_by(moved.report) else {
            return Ok(());
        };
        let happening = before.happening(alloc, moved.report, &self.playback.board)?;
        let executed = if_fetched(&before.found, address);
        self.count(executed, is_taken(&happening.what))?;
        self.note(alloc, &happening, executed)
    }

    /// Counts that an instruction was executed, if one was, and whether it was a branch that was taken.
    fn count(&mut self, executed: Option<u32>, taken: bool) -> Result<(), NoMemory>
        ensures playback { self.new.playback ≡ self.old.playback }
        ensures counts { OnOk result (CountsAt self.old.counts.words.items self.new.counts.words.items
            (place_by executed)) }
    {
        match executed {
            Some(address) => self.counts.note(address, taken),
            None => Ok(()),
        }
    }

    /// Counts a step to whom it is: the instruction that it executed, if there is one, and whether he has ended by it.
    fn note(
        &mut self,
        alloc: Global,
        happening: &Happening,
        executed: Option<u32>,
    ) -> Result<(), NoMemory>
        ensures playback { self.new.playback ≡ self.old.playback }
        ensures counts { self.new.counts ≡ self.old.counts }
    {
        let owner = owner_of(happening.cpu.unwrap_or(0), happening.who);
        let place = self.stack_of(alloc, owner)?;
        let Some(stack) = self.stacks.get_mut(place) else {
            return Ok(());
        };
        if let Some(address) = executed {
            stack.step(&mut self.calls, address, lead_in(happening, address))?;
        }
        if has_ended(&happening.what) {
            stack.close(&mut self.calls);
        }
        Ok(())
    }

    /// The place of the calls of an owner.
    fn stack_of(&mut self, alloc: Global, owner: u32) -> Result<usize, NoMemory>
        ensures playback { self.new.playback ≡ self.old.playback }
        ensures counts { self.new.counts ≡ self.old.counts }
    {
        for (place, stack) in self.stacks.iter().enumerate() {
            if stack.owner == owner {
                return Ok(place);
            }
        }
        let place = self.stacks.len();
        self.stacks.push(Stack::new(alloc, owner))?;
        Ok(place)
    }

    /// Ends all calls, as the part does.
    pub(crate) fn close(&mut self) {
        for stack in self.stacks.as_mut_slice() {
            stack.close(&mut self.calls);
        }
    }
}

/// The address of the instruction that a step was at, if it reports one.
fn executed_by(report: Report) -> Option<u32>
    ensures { result ≡ executed_by report }
{
    match report {
        Report::Ran(address) | Report::Called(address) | Report::Faulted(address) => Some(address),
        _ => None,
    }
}

/// The address of an instruction that a step was at, if it found a word there.
fn if_fetched(found: &Option<Found>, address: u32) -> Option<u32>
    ensures { result ≡ if_fetched found.now address }
{
    match found {
        Some(found) if found.word.is_some() => Some(address),
        _ => None,
    }
}
