//! The races that are found.

ghost use Rattle.std.specs.Prelude.{◌≡◌, [], OnOk};
ghost use Rattle.brd_order.specs.After.{AreTold, TellsRace};

use crate::deed::{Mark, Race};
use brd_base::NoMemory;
use std::alloc::Global;
use std::collections::HashSet;

/// The first race of each word that has one, and those words.
pub(crate) struct Races {
    pub(crate) told: Vec<Race>,
    pub(crate) words: HashSet<u32>,
}

impl Drop for Races {
    fn drop(self) {
        let Races { told: _, words: _ } = self;
    }
}

impl Races {
    /// No race is told.
    pub(crate) fn new(alloc: Global) -> Races
        ensures none { result.told.items ≡ [] }
        ensures words { AreTold result.told.items result.words.keys }
    {
        Races {
            told: Vec::new(alloc),
            words: HashSet::new(alloc),
        }
    }

    /// Tells the race of a new mark with the one that was found, if none of its word is told.
    pub(crate) fn tell(&mut self, found: Option<Mark>, new: Mark) -> Result<(), NoMemory>
        ensures tells { AreTold self.old.told.items self.old.words.keys →
            OnOk result (TellsRace found new self.old.told.items self.new.told.items) }
        ensures words { AreTold self.old.told.items self.old.words.keys →
            OnOk result (AreTold self.new.told.items self.new.words.keys) }
    {
        let Some(earlier) = found else {
            return Ok(());
        };
        if self.words.insert(new.touch.word)? {
            self.told.push(Race {
                earlier,
                later: new,
            })?;
        }
        Ok(())
    }
}
