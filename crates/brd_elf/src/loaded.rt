//! The segments that are loaded, and the ranges of addresses that they fill.

ghost use Rattle.std.specs.Prelude.{◌≡◌, ℕ, ◌+◌, ◌<◌, ◌^◌, List, [], ◌∷◌, ◌++◌, false, length, OnOk, OnErr};
ghost use Rattle.brd_elf.specs.Segments.{lies_in};

use brd_base::NoMemory;
use brd_mem::{Segment, Segments};
use brd_ranges::{Range, Ranges};
use std::alloc::Global;
use std::marker::Model;

/// Segments in the order in which they were loaded, none over another.
#[derive(Drop)]
pub struct Loaded {
    segments: Vec<Segment>,
    /// The addresses of each.
    ranges: Ranges<()>,
}

impl Model for Loaded {
    ghost use Rattle.std.specs.Prelude.{List};
    ghost use Rattle.brd_mem.specs.declared.image.Segment.{Segment};
    ghost use Rattle.brd_elf.specs.Loaded.{AreRangesOf};

    ghost Value = { List Segment };

    ghost view = { λ loaded. loaded.segments.items };

    ghost invariant = { λ loaded. AreRangesOf loaded.ranges loaded.segments.items };
}

impl Loaded {
    /// No segments.
    pub fn new(alloc: Global) -> Self
        ensures { result ≡ [] }
    {
        Loaded {
            segments: Vec::new(alloc),
            ranges: Ranges::new(alloc),
        }
    }

    /// Whether a segment has bytes at addresses from `low` up to, not including, `high`.
    pub fn lies_in(&self, low: u32, high: u32) -> bool
        ensures { result ≡ lies_in self.now low high }
    {
        self.ranges.overlaps(low, high)
    }

    /// Puts a segment at the end. A refusal changes nothing, and the segment is given up.
    pub fn push(&mut self, segment: Segment, end: u32) -> Result<(), NoMemory>
        requires is_end { end ≡ segment.address + length segment.bytes }
        requires filled { segment.address < end }
        requires apart { lies_in self.old segment.address end ≡ false }
        ensures ok { OnOk result (self.new ≡ self.old ++ segment ∷ []) }
        ensures err { OnErr result (self.new ≡ self.old) }
    {
        let range = Range {
            start: segment.address,
            end,
            item: (),
        };
        self.segments.push(segment)?;
        if let Err(refused) = self.ranges.insert(range) {
            self.segments.pop();
            return Err(refused);
        }
        Ok(())
    }

    /// The segments.
    pub fn into_segments(self) -> Segments
        ensures { result ≡ self }
    {
        let Loaded {
            segments,
            ranges: _,
        } = self;
        Segments::from_vec(segments)
    }
}
