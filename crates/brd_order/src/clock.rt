//! Clocks: for each strand a count.

ghost use Rattle.std.specs.Prelude.{◌≡◌, ◌≤◌, ℕ, [], length, IfOk, OnOk};
ghost use Rattle.brd_order.specs.Clocks.{Joins, Puts, count_in};

use brd_base::NoMemory;
use std::alloc::Global;

/// For each strand a count, 0 for those past the end.
pub(crate) struct Clock {
    pub(crate) counts: Vec<u64>,
}

impl Drop for Clock {
    fn drop(self) {
        let Clock { counts: _ } = self;
    }
}

impl Clock {
    /// Every count is 0.
    pub(crate) fn new(alloc: Global) -> Clock
        ensures { result.counts.items ≡ [] }
    {
        Clock {
            counts: Vec::new(alloc),
        }
    }

    /// A strand's count.
    pub(crate) fn count(&self, strand: u16) -> u64
        ensures { result ≡ count_in self.now.counts.items strand }
    {
        let strand = strand as usize;
        if strand < self.counts.len() {
            return self.counts[strand];
        }
        0
    }

    /// Gives a strand another count.
    pub(crate) fn put(&mut self, strand: u16, count: u64) -> Result<(), NoMemory>
        ensures { OnOk result
            (Puts strand count (count_in self.old.counts.items) (count_in self.new.counts.items)) }
    {
        let strand = strand as usize;
        self.extend(strand + 1)?;
        self.counts[strand] = count;
        Ok(())
    }

    /// Makes room for so many strands.
    fn extend(&mut self, len: usize) -> Result<(), NoMemory>
        ensures same { OnOk result
            ((strand : ℕ) → count_in self.new.counts.items strand ≡ count_in self.old.counts.items strand) }
        ensures len { OnOk result (len ≤ length self.new.counts.items) }
    {
        for _ in self.counts.len()..len {
            self.counts.push(0)?;
        }
        Ok(())
    }

    /// Knows from here on what another clock knows.
    pub(crate) fn join(&mut self, other: &Clock) -> Result<(), NoMemory>
        ensures { OnOk result (Joins (count_in self.old.counts.items) (count_in other.now.counts.items)
            (count_in self.new.counts.items)) }
    {
        self.extend(other.counts.len())?;
        for strand in 0..other.counts.len() {
            if self.counts[strand] < other.counts[strand] {
                self.counts[strand] = other.counts[strand];
            }
        }
        Ok(())
    }

    /// Every count is another clock's.
    pub(crate) fn copy(&self) -> Result<Clock, NoMemory>
        ensures { IfOk result (λ copy. copy.counts.items ≡ self.now.counts.items) }
    {
        Ok(Clock {
            counts: Vec::from_slice(*self.counts.allocator(), self.counts.as_slice())?,
        })
    }

    /// Every count is another clock's from here on.
    pub(crate) fn assign(&mut self, other: &Clock) -> Result<(), NoMemory>
        ensures { OnOk result (self.new.counts.items ≡ other.now.counts.items) }
    {
        self.counts.clear();
        self.counts.extend_from_slice(other.counts.as_slice())?;
        Ok(())
    }

    /// Every count is 0 from here on.
    pub(crate) fn clear(&mut self)
        ensures { self.new.counts.items ≡ [] }
    {
        self.counts.clear();
    }
}
