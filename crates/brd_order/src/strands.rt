//! The clocks of strands.

ghost use Rattle.std.specs.Prelude.{◌≡◌, ◌<◌, ℕ, [], length, OnOk};
ghost use Rattle.brd_order.specs.Clocks.{Joins, Puts};
ghost use Rattle.brd_order.specs.Tables.{counts_of, counts_at, counts_given};

use crate::clock::Clock;
use crate::things::Things;
use brd_base::NoMemory;
use std::alloc::Global;

/// The clock of each strand, empty for those past the end.
#[derive(Drop)]
pub(crate) struct Strands {
    pub(crate) clocks: Vec<Clock>,
}

impl Strands {
    /// No strand has done anything.
    pub(crate) fn new(alloc: Global) -> Strands
        ensures { result.clocks.items ≡ [] }
    {
        Strands {
            clocks: Vec::new(alloc),
        }
    }

    /// Makes room for a strand.
    pub(crate) fn extend(&mut self, alloc: Global, strand: u16) -> Result<(), NoMemory>
        ensures same { OnOk result ((other : ℕ) →
            (t : ℕ) → counts_at self.new.clocks.items other t ≡ counts_at self.old.clocks.items other t) }
        ensures len { OnOk result (strand < length self.new.clocks.items) }
    {
        for _ in self.clocks.len()..strand as usize + 1 {
            self.clocks.push(Clock::new(alloc))?;
        }
        Ok(())
    }

    /// The clock of a strand takes in what was released into a thing.
    pub(crate) fn acquire(
        &mut self,
        strand: u16,
        things: &Things,
        thing: u64,
    ) -> Result<(), NoMemory>
        requires { strand < length self.old.clocks.items }
        ensures joins { OnOk result (Joins (counts_at self.old.clocks.items strand)
            (counts_given things.now.given.entries thing) (counts_at self.new.clocks.items strand)) }
        ensures others { OnOk result ((other : ℕ) → (other ≡ strand → ⊥) →
            (t : ℕ) → counts_at self.new.clocks.items other t ≡ counts_at self.old.clocks.items other t) }
        ensures len { OnOk result (length self.new.clocks.items ≡ length self.old.clocks.items) }
    {
        things.put_into(thing, &mut self.clocks[strand as usize])
    }

    /// The clock of a strand.
    pub(crate) fn clock(&self, strand: u16) -> &Clock
        requires { strand < length self.now.clocks.items }
        ensures { (t : ℕ) → counts_of result.now t ≡ counts_at self.now.clocks.items strand t }
    {
        &self.clocks[strand as usize]
    }

    /// The clock of a strand gets another count of the strand itself.
    pub(crate) fn put(&mut self, strand: u16, count: u64) -> Result<(), NoMemory>
        requires { strand < length self.old.clocks.items }
        ensures puts { OnOk result (Puts strand count (counts_at self.old.clocks.items strand)
            (counts_at self.new.clocks.items strand)) }
        ensures others { OnOk result ((other : ℕ) → (other ≡ strand → ⊥) →
            (t : ℕ) → counts_at self.new.clocks.items other t ≡ counts_at self.old.clocks.items other t) }
        ensures len { OnOk result (length self.new.clocks.items ≡ length self.old.clocks.items) }
    {
        self.clocks[strand as usize].put(strand, count)
    }

    /// The clock of a strand takes in another clock.
    pub(crate) fn join(&mut self, strand: u16, clock: &Clock) -> Result<(), NoMemory>
        requires { strand < length self.old.clocks.items }
        ensures joins { OnOk result (Joins (counts_at self.old.clocks.items strand)
            (counts_of clock.now) (counts_at self.new.clocks.items strand)) }
        ensures others { OnOk result ((other : ℕ) → (other ≡ strand → ⊥) →
            (t : ℕ) → counts_at self.new.clocks.items other t ≡ counts_at self.old.clocks.items other t) }
        ensures len { OnOk result (length self.new.clocks.items ≡ length self.old.clocks.items) }
    {
        self.clocks[strand as usize].join(clock)
    }

    /// The clock of a strand becomes what was released into a thing.
    pub(crate) fn hear(&mut self, strand: u16, things: &Things, thing: u64) -> Result<(), NoMemory>
        requires { strand < length self.old.clocks.items }
        ensures hears { OnOk result ((t : ℕ) →
            counts_at self.new.clocks.items strand t ≡ counts_given things.now.given.entries thing t) }
        ensures others { OnOk result ((other : ℕ) → (other ≡ strand → ⊥) →
            (t : ℕ) → counts_at self.new.clocks.items other t ≡ counts_at self.old.clocks.items other t) }
    {
        things.copy_into(thing, &mut self.clocks[strand as usize])
    }
}
