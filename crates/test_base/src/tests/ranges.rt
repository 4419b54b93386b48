//! Ranges that come in any order.

use brd_base::NoMemory;
use brd_ranges::{Range, Ranges};
use std::test::Fail;

/// Puts 100,000 ranges of five addresses each into a set, in another order than that of their addresses. Answers
/// whether each found its place free.
fn fill(ranges: &mut Ranges<u32>) -> Result<bool, NoMemory> {
    for i in 0..100_000u32 {
        let start = 0x8000_0000 + 10 * (i * 7 % 100_000);
        let end = start + 5;
        if ranges.overlaps(start, end) {
            return Ok(false);
        }
        ranges.insert(Range {
            start,
            end,
            item: i,
        })?;
    }
    Ok(true)
}

/// From where to where, and whether one of those ranges is there.
const OVERLAPS: &[(u32, u32, bool)] = &[
    (0x8000_0004, 0x8000_0005, true),
    (0x8000_0005, 0x8000_000a, false),
    (0x8000_0005, 0x8000_000b, true),
    (0, 0x8000_0000, false),
    (0, 0xffff_ffff, true),
];

/// Whether these rows are as they say.
fn overlap(ranges: &Ranges<u32>) -> bool {
    for (low, high, expected) in OVERLAPS {
        if ranges.overlaps(*low, *high) != *expected {
            return false;
        }
    }
    true
}

/// Whether those ranges, and no others, come out by ascending address.
fn come_out(ranges: &mut Ranges<u32>) -> bool {
    for i in 0..100_000u32 {
        let Some(range) = ranges.pop_first() else {
            return false;
        };
        let start = 0x8000_0000 + 10 * i;
        let item = u64::from(range.item) * 7 % 100_000;
        if range.start != start || range.end != start + 5 || item != u64::from(i) {
            return false;
        }
    }
    ranges.pop_first().is_none() && ranges.size() == 0
}

#[test]
fn ranges_ascend(rt: HostRuntime) -> Result<(), Fail> {
    let mut ranges = Ranges::new(rt.alloc());
    let is_filled = fill(&mut ranges)? && ranges.size() == 500_000;
    assert!(rt; is_filled && overlap(&ranges) && come_out(&mut ranges));
    Ok(())
}
