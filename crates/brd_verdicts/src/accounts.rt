//! What is counted of a run: which tasks have units of semaphores, and mutexes, which calls were refused, and which
//! raises had no effect.

ghost use Rattle.std.specs.Prelude.{◌≡◌, OnOk};
ghost use Rattle.brd_verdicts.specs.Accounts.{accounts_of, all_answered, answered, nothing};
ghost use Rattle.brd_verdicts.specs.Again.{again};

use crate::answers::{Answered, answers_in, call_in, is_error, keep_begun};
use crate::losses::{Losses, lost_again};
use crate::refusals::{Refusals, refused_by};
use crate::units::Units;
use brd_base::NoMemory;
use brd_happening::{Happening, What};
use std::alloc::Global;

/// What is counted of a run.
#[derive(Drop)]
pub struct Accounts {
    /// Where the last wait of each task began, by its ID.
    pub(crate) begun: [u32; 256],
    /// Which tasks have units of semaphores, and mutexes.
    pub units: Units,
    /// The calls that were refused.
    pub refused: Refusals,
    /// The raises that had no effect.
    pub lost: Losses,
}

impl Accounts {
    /// Nothing is counted yet.
    pub(crate) fn new(alloc: Global) -> Accounts
        ensures { result ≡ nothing }
    {
        Accounts {
            begun: [0; 256],
            units: Units::new(alloc),
            refused: Refusals::new(alloc),
            lost: Losses::new(alloc),
        }
    }

    /// Counts what happened in the event of a position.
    pub(crate) fn count(
        &mut self,
        alloc: Global,
        position: u64,
        told: &Happening,
    ) -> Result<(), NoMemory>
        ensures { OnOk result (self.new ≡ accounts_of position told.now self.old) }
    {
        let answers = answers_in(alloc, &self.begun, told)?;
        self.count_answers(alloc, position, answers.as_slice())?;
        keep_begun(&mut self.begun, told, told.what);
        self.lost.count_all(position, told)
    }

    /// Counts the same event so many times more, from a position on, after one in which this happened: all of these do
    /// nothing more.
    pub(crate) fn count_again(
        &mut self,
        position: u64,
        count: u64,
        what: What,
    ) -> Result<(), NoMemory>
        ensures { OnOk result (self.new ≡ again position count what self.old) }
    {
        self.lost.count(lost_again(position, count, what))
    }

    /// Counts calls that were answered in the event of a position, one after the other.
    fn count_answers(
        &mut self,
        alloc: Global,
        position: u64,
        answers: &[Answered],
    ) -> Result<(), NoMemory>
        ensures { OnOk result (self.new ≡ all_answered position answers.now self.old) }
    {
        for answer in answers {
            self.count_answer(alloc, position, *answer)?;
        }
        Ok(())
    }

    /// Counts a call that was answered in the event of a position.
    fn count_answer(&mut self, alloc: Global, position: u64, it: Answered) -> Result<(), NoMemory>
        ensures { OnOk result (self.new ≡ answered position it self.old) }
    {
        if is_error(it.code) {
            return self.refused.count(refused_by(position, it));
        }
        if it.code == 0 {
            return self.units.keep(alloc, position, it.task, call_in(it.call));
        }
        Ok(())
    }
}
