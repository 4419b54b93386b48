//! One block of eight elements of each scan, by lanes.
ghost use Rattle.std.specs.Prelude.{◌≡◌, ◌≢◌, ℕ, ◌+◌, ◌-◌, ◌%◌, ◌^◌, ◌<◌, ◌≤◌, ◌==◌, if◌then◌else◌, length};
ghost use Rattle.std.specs.Prelude.{slice_index, slice_range, MatchBool, Contains};
ghost use Rattle.std.specs.Int.{bit_at};
ghost use Rattle.brd_lanes.specs.Scan.{IsLeast, NoneBetween, is_satisfied_at, is_due_at, is_address_at, is_in_block};

use std::simd::prelude::*;

pub(crate) const LANES: usize = 8;

/// The least of the eight indices from `at` on whose wait is satisfied.
#[inline(always)]
pub(crate) fn first_satisfied(
    pats: &[u32],
    or_modes: &[u32],
    current: u32,
    at: usize,
) -> Option<usize>
    requires patterns { at + LANES ≤ length pats.now }
    requires modes { at + LANES ≤ length or_modes.now }
    ensures { IsLeast (is_satisfied_at pats.now or_modes.now current) at (at + LANES) result }
{
    let wanted = u32x8::from_slice(&pats[at..]);
    let modes = u32x8::from_slice(&or_modes[at..]);
    let zero = u32x8::splat(0);
    let shared = u32x8::splat(current) & wanted;
    let all_set = modes.simd_eq(zero) & shared.simd_eq(wanted);
    let some_set = modes.simd_ne(zero) & shared.simd_ne(zero);
    first_lane((all_set | some_set).to_bitmask(), at)
}

/// The least of the eight indices from `at` on whose tick has come.
#[inline(always)]
pub(crate) fn first_due(dues: &[u64], now: u64, at: usize) -> Option<usize>
    requires { at + LANES ≤ length dues.now }
    ensures { IsLeast (is_due_at dues.now now) at (at + LANES) result }
{
    let due = u64x8::from_slice(&dues[at..]).simd_le(u64x8::splat(now));
    first_lane(due.to_bitmask(), at)
}

/// Bit j says whether the address `words[j]` lies in the block.
#[inline(always)]
pub(crate) fn in_block(words: &[u32; 8], block: u32) -> u8
    requires { block % 16 ≡ 0 }
    ensures { (j : ℕ) → j < 8 →
        bit_at result j ≡ (if is_in_block block (slice_index words.now j) then 1 else 0) }
{
    let blocks = u32x8::from_array(*words) >> u32x8::splat(4);
    blocks.simd_eq(u32x8::splat(block >> 4)).to_bitmask() as u8
}

/// Whether the eight words from `at` on are the same.
#[inline(always)]
pub(crate) fn are_same(a: &[u32], b: &[u32], at: usize) -> bool
    requires first { at + LANES ≤ length a.now }
    requires second { at + LANES ≤ length b.now }
    ensures { MatchBool result
        (slice_range a.now at (at + LANES) ≡ slice_range b.now at (at + LANES))
        (a.now ≢ b.now) }
{
    let differ = u32x8::from_slice(&a[at..]).simd_ne(u32x8::from_slice(&b[at..]));
    differ.to_bitmask() == 0
}

/// Whether `address` is one of the eight from `at` on.
#[inline(always)]
pub(crate) fn has(addresses: &[u32], address: u32, at: usize) -> bool
    requires { at + LANES ≤ length addresses.now }
    ensures { MatchBool result
        (Contains addresses.now address)
        (NoneBetween (is_address_at addresses.now address) at (at + LANES)) }
{
    let same = u32x8::from_slice(&addresses[at..]).simd_eq(u32x8::splat(address));
    same.to_bitmask() != 0
}

/// The index of the lowest bit that is set, where bit 0 is of index `at`.
#[inline(always)]
fn first_lane(mask: u64, at: usize) -> Option<usize>
    requires eight { mask < 2 ^ 8 }
    requires room { at + LANES < 2 ^ 64 }
    ensures { IsLeast (λ i. bit_at mask (i - at) == 1) at (at + LANES) result }
{
    if mask == 0 {
        None
    } else {
        Some(at + mask.trailing_zeros() as usize)
    }
}
