//! How often the instructions at addresses were executed.

ghost use Rattle.std.specs.Prelude.{◌≡◌, ◌+◌, ◌<◌, ◌^◌, ℕ, Some, length, OnOk};
ghost use Rattle.brd_cover.specs.Counts.{CountsAt, at_place, count_in, executed_in, place_of};

use brd_base::{BASE, NoMemory, TOP};
use std::alloc::Global;

/// What was counted of the instruction at an address.
#[derive(Clone, Copy)]
pub struct Count {
    /// How often it was executed.
    pub executed: u64,
    /// How often it was a branch that was taken.
    pub taken: u64,
}

/// What is counted of what was never executed.
const NEVER: Count = Count {
    executed: 0,
    taken: 0,
};

/// Counts by address.
#[derive(Drop)]
pub struct Counts {
    /// Of the words of RAM from its first address on.
    words: Vec<Count>,
}

impl Counts {
    /// Nothing was executed.
    pub fn new(alloc: Global) -> Counts
        ensures { (address : ℕ) → executed_in result.words.items address ≡ 0 }
    {
        Counts {
            words: Vec::new(alloc),
        }
    }

    /// Counts that the instruction at an address was executed, and whether it was a branch that was taken. What lies
    /// outside RAM isn't counted, nor what begins within a word.
    pub(crate) fn note(&mut self, address: u32, taken: bool) -> Result<(), NoMemory>
        ensures { OnOk result (CountsAt self.old.words.items self.new.words.items (place_of address)) }
    {
        let Some(place) = place_of(address) else {
            return Ok(());
        };
        self.grow(place)?;
        self.add(place, taken);
        Ok(())
    }

    /// Sees to it that there is a place.
    fn grow(&mut self, place: usize) -> Result<(), NoMemory>
        requires { place + 1 < 2 ^ 64 }
        ensures there { OnOk result (place < length self.new.words.items) }
        ensures same { OnOk result ((other : ℕ) → at_place self.new.words.items other
            ≡ at_place self.old.words.items other) }
    {
        if place >= self.words.len() {
            self.words.resize(place + 1, NEVER)?;
        }
        Ok(())
    }

    /// Counts at a place.
    fn add(&mut self, place: usize, taken: bool)
        requires { place < length self.old.words.items }
        ensures { CountsAt self.old.words.items self.new.words.items (Some place) }
    {
        let count = self.words[place];
        self.words[place] = Count {
            executed: count.executed.saturating_add(1),
            taken: count.taken.saturating_add(u64::from(taken)),
        };
    }

    /// What was counted of an address.
    pub fn at(&self, address: u32) -> Count
        ensures { result ≡ count_in self.now.words.items address }
    {
        let Some(place) = place_of(address) else {
            return NEVER;
        };
        if place >= self.words.len() {
            return NEVER;
        }
        self.words[place]
    }

    /// The address behind the last one of which something was counted.
    pub(crate) fn end(&self) -> u32 {
        let words = self.words.len().min(((TOP - BASE) / 4) as usize);
        BASE + 4 * words as u32
    }
}

/// Which word of RAM lies at an address.
fn place_of(address: u32) -> Option<usize>
    ensures { result ≡ place_of address }
{
    if address < BASE || address >= TOP || address % 4 != 0 {
        return None;
    }
    Some(((address - BASE) / 4) as usize)
}
