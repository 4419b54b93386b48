//! Ranges that lie apart.

ghost use Rattle.std.specs.Prelude.{◌≡◌, ◌-◌, ◌^◌, ◌<◌, false, [], ◌∷◌, OnOk, OnErr, IfSome, IfNone};
ghost use Rattle.brd_ranges.specs.Ranges.{overlaps, with_range, total_size, AreApart};

use crate::range::Range;
use brd_base::NoMemory;
use std::alloc::Global;
use std::collections::BTreeMap;
use std::marker::Model;

/// Ranges of at least one address each, none over another. Contracts see the list of them by ascending address.
pub struct Ranges<T> {
    /// By its first address, where each ends and its item.
    ends: BTreeMap<u32, (u32, T)>,
    /// How many addresses they have together.
    size: u32,
}

impl<T> Model for Ranges<T> {
    ghost use Rattle.std.specs.Prelude.{List};
    ghost use Rattle.brd_ranges.specs.declared.range.Range.{Range as RangeOf};
    ghost use Rattle.brd_ranges.specs.Entries.{ranges_of, AreEntries};

    ghost Value = { List (RangeOf T) };

    ghost view = { λ all. ranges_of all.ends.entries };

    ghost invariant = { λ all. AreEntries all.size all.ends.entries };
}

/// Written out, so that a function that lets one go is proved with a call, and not with the end of each part.
impl<T: Drop> Drop for Ranges<T> {
    fn drop(self) {
        let Ranges { ends: _, size: _ } = self;
    }
}

impl<T> Ranges<T> {
    /// No ranges. It takes no memory.
    pub fn new(alloc: Global) -> Self
        ensures { result ≡ [] }
    {
        Ranges {
            ends: BTreeMap::new(alloc),
            size: 0,
        }
    }

    /// How many addresses the ranges have together. It is no more than there are.
    pub fn size(&self) -> u32
        ensures is { result ≡ total_size self.now }
        ensures apart { AreApart 0 (2 ^ 32 - 1) self.now }
    {
        self.size
    }

    /// Whether some range begins below `high` and ends above `low`. It is one search in a tree, however many ranges
    /// there are.
    pub fn overlaps(&self, low: u32, high: u32) -> bool
        ensures { result ≡ overlaps self.now low high }
    {
        match self.ends.range(..high).next_back() {
            Some((_, (end, _))) => low < *end,
            None => false,
        }
    }
}

impl<T: Drop> Ranges<T> {
    /// Adds a range at its place. A refusal changes nothing, and the range is given up.
    pub fn insert(&mut self, range: Range<T>) -> Result<(), NoMemory>
        requires filled { range.start < range.end }
        requires free { overlaps self.old range.start range.end ≡ false }
        ensures ok { OnOk result (self.new ≡ with_range self.old range) }
        ensures err { OnErr result (self.new ≡ self.old) }
    {
        let Range { start, end, item } = range;
        self.ends.insert(start, (end, item))?;
        self.size += end - start;
        Ok(())
    }

    /// Takes out the range with the lowest addresses.
    pub fn pop_first(&mut self) -> Option<Range<T>>
        ensures some { IfSome result (λ range. self.old ≡ range ∷ self.new) }
        ensures none { IfNone result (self.old ≡ []) }
        ensures apart { AreApart 0 (2 ^ 32 - 1) self.old }
    {
        let (start, (end, item)) = self.ends.pop_first()?;
        self.size -= end - start;
        Some(Range { start, end, item })
    }
}
