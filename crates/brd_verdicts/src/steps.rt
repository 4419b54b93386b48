//! What is found of a run: the last step of each processor that did something, and what is counted.

ghost use Rattle.std.specs.Prelude.{◌≡◌, ◌-◌, ◌≤◌, ◌<◌, List as ListOf, length, take, if◌then◌else◌, IfOk, OnOk};
ghost use Rattle.brd_board.specs.declared.event.Event.{Event as EventOf};
ghost use Rattle.brd_board.specs.Board.{BoardState as BoardOf};
ghost use Rattle.brd_journal.specs.Runs.{ComesBehind};
ghost use Rattle.brd_verdicts.specs.Accounts.{accounts_of_run};
ghost use Rattle.brd_verdicts.specs.Steps.{AreFollowed, AreLastSteps, kept};

use crate::accounts::Accounts;
use crate::did_nothing::did_nothing;
use brd_base::NoMemory;
use brd_board::{Board, Event};
use brd_happening::Before;
use brd_journal::{Journal, Playback, Run};
use std::alloc::Global;

/// What is found of a run.
#[derive(Drop)]
pub struct Findings {
    /// Of each processor, by its number, the position of its last step that did something.
    pub steps: [Option<u64>; 9],
    /// Who has units of semaphores, which calls were refused, and which raises had no effect.
    pub accounts: Accounts,
}

/// What is found of a journal's first events, on a board to which nothing has happened.
pub fn findings_of(
    alloc: Global,
    boot: Board,
    journal: &Journal,
    n: u64,
) -> Result<Findings, NoMemory>
    requires { n ≤ length journal.now.events }
    ensures steps { IfOk result (λ found. AreLastSteps boot journal.now.events n found.steps) }
    ensures accounts { IfOk result
        (λ found. found.accounts ≡ accounts_of_run boot (take n journal.now.events)) }
{
    let mut following = Following {
        playback: Playback { board: boot, at: 0 },
        steps: [None; 9],
        accounts: Accounts::new(alloc),
    };
    let mut near = 0;
    while following.playback.at < n {
        let Some(rest) = journal.rest_at(following.playback.at, &mut near) else {
            break;
        };
        following.advance(alloc, rest, n)?;
    }
    let Following {
        playback: _,
        steps,
        accounts,
    } = following;
    Ok(Findings { steps, accounts })
}

/// A board that plays a journal, and what is found up to there.
#[derive(Drop)]
struct Following {
    playback: Playback,
    steps: [Option<u64>; 9],
    accounts: Accounts,
}

impl Following {
    /// Does the next event of what is left of a run, and maybe more of it, up to a position. After a fault nothing is
    /// known any more.
    fn advance(&mut self, alloc: Global, rest: Run, to: u64) -> Result<(), NoMemory>
        requires on { self.old.playback.at < to }
        requires some { 1 ≤ rest.count }
        ensures at { OnOk result (self.new.playback.at ≤ to) }
        ensures goes { OnOk result (self.old.playback.at < self.new.playback.at) }
        ensures followed { (boot : BoardOf) (events : ListOf EventOf) → to ≤ length events
            → ComesBehind events self.old.playback.at rest → AreFollowed boot events self.old
            → OnOk result (AreFollowed boot events self.new) }
    {
        if self.playback.go_on(rest, to) > 0 {
            self.keep(rest.event);
            return Ok(());
        }
        self.advance_in(alloc, rest, to)
    }

    /// Does the next event of what is left of a run, and those after it that do nothing, up to a position.
    fn advance_in(&mut self, alloc: Global, rest: Run, to: u64) -> Result<(), NoMemory>
        requires on { self.old.playback.at < to }
        requires some { 1 ≤ rest.count }
        ensures at { OnOk result (self.new.playback.at ≤ to) }
        ensures goes { OnOk result (self.old.playback.at < self.new.playback.at) }
        ensures followed { (boot : BoardOf) (events : ListOf EventOf) → to ≤ length events
            → ComesBehind events self.old.playback.at rest → AreFollowed boot events self.old
            → OnOk result (AreFollowed boot events self.new) }
    {
        let position = self.playback.at;
        let before = Before::of(alloc, &self.playback.board, rest.event)?;
        let moved = self.playback.advance(rest, position + 1, to);
        let told = before.happening(alloc, moved.report, &self.playback.board)?;
        self.accounts.count(alloc, position, &told)?;
        self.accounts
            .count_again(position + 1, moved.count - 1, told.what)?;
        self.keep_if(!did_nothing(moved.report), rest.event);
        Ok(())
    }

    /// Keeps the event before the position, if that did something, and it is a step of a processor.
    fn keep_if(&mut self, did: bool, event: Event)
        requires { 1 ≤ self.old.playback.at }
        ensures same { self.new.playback ≡ self.old.playback }
        ensures accounts { self.new.accounts ≡ self.old.accounts }
        ensures kept { self.new.steps
            ≡ (if did then kept event (self.old.playback.at - 1) self.old.steps else self.old.steps) }
    {
        if did {
            self.keep(event);
        }
    }

    /// Keeps the event before the position, if it is a step of a processor.
    fn keep(&mut self, event: Event)
        requires { 1 ≤ self.old.playback.at }
        ensures same { self.new.playback ≡ self.old.playback }
        ensures accounts { self.new.accounts ≡ self.old.accounts }
        ensures kept { self.new.steps ≡ kept event (self.old.playback.at - 1) self.old.steps }
    {
        match event {
            Event::Step(cpu) if cpu < 9 => self.steps[cpu as usize] = Some(self.playback.at - 1),
            _ => {}
        }
    }
}
