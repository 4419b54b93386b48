//! Scans over plain slices, eight lanes at a time with a plain loop for the rest.
//!
//! Each takes no memory and answers on every input that meets its conditions. The loops here know
//! nothing of vectors: `eight` has one block of eight of each scan, and `plain` the rest.
#![tactic(auto)]

ghost use Rattle.std.specs.Prelude.{◌≡◌, ℕ, ◌+◌, ◌%◌, ◌<◌, ◌≤◌, ◌↔◌, if◌then◌else◌, IsTrue, length, Contains};
ghost use Rattle.std.specs.Int.{bit_at};
ghost use Rattle.brd_lanes.specs.Scan.{IsLeast, is_satisfied_at, is_due_at, is_broken_at};

mod eight;
mod plain;

use eight::LANES;

/// The least index from `from` on whose wait is satisfied by the pattern `current`, and `None`
/// where there is none.
///
/// A wait for the bits `pats[i]` is satisfied where all of them are set, if `or_modes[i]` is 0, and
/// where at least one is set otherwise: TWF_ANDW and TWF_ORW of the uITRON 4.0 specification, event
/// flags. That each mode but 0 is TWF_ORW is an own choice.
///
/// The slices are of equal length, and `from` is at most that length.
pub fn first_match(pats: &[u32], or_modes: &[u32], current: u32, from: usize) -> Option<usize>
    requires same_length { length pats.now ≡ length or_modes.now }
    requires start { from ≤ length pats.now }
    ensures { IsLeast (is_satisfied_at pats.now or_modes.now current) from (length pats.now) result }
{
    let mut at = from;
    while pats.len() - at >= LANES {
        if let Some(found) = eight::first_satisfied(pats, or_modes, current, at) {
            return Some(found);
        }
        at += LANES;
    }
    plain::first_satisfied(pats, or_modes, current, at)
}

/// The least index from `from` on whose tick is at most `now`, and `None` where there is none.
///
/// `from` is at most the length.
pub fn next_due(dues: &[u64], now: u64, from: usize) -> Option<usize>
    requires { from ≤ length dues.now }
    ensures { IsLeast (is_due_at dues.now now) from (length dues.now) result }
{
    let mut at = from;
    while dues.len() - at >= LANES {
        if let Some(found) = eight::first_due(dues, now, at) {
            return Some(found);
        }
        at += LANES;
    }
    plain::first_due(dues, now, at)
}

/// `valid` without the bits other than `except` whose address lies in the block.
///
/// This is what a store leaves of the links of LL and SC: bit j says that processor j + 1 has one, to
/// the word at the address `words[j]`, and `except` is the bit of the processor that stores. `block`
/// is the first address of the block of 16 bytes, a multiple of 16 (the size is an own choice, which
/// the MIPS32 manual MD00086 leaves open at SC).
pub fn break_links(words: &[u32; 8], valid: u8, block: u32, except: u8) -> u8
    requires aligned { block % 16 ≡ 0 }
    requires processor { except < 8 }
    ensures { (j : ℕ) → j < 8 →
        bit_at result j ≡ (if is_broken_at words.now block except j then 0 else bit_at valid j) }
{
    valid & (!eight::in_block(words, block) | (1 << except))
}

/// Whether the slices, of equal length, hold the same words.
pub fn same_words(a: &[u32], b: &[u32]) -> bool
    requires { length a.now ≡ length b.now }
    ensures { IsTrue result ↔ (a.now ≡ b.now) }
{
    let mut at = 0;
    while a.len() - at >= LANES {
        if !eight::are_same(a, b, at) {
            return false;
        }
        at += LANES;
    }
    plain::are_same(a, b, at)
}

/// Whether `address` is one of the addresses.
pub fn hits(addresses: &[u32], address: u32) -> bool
    ensures { IsTrue result ↔ Contains addresses.now address }
{
    let mut at = 0;
    while addresses.len() - at >= LANES {
        if eight::has(addresses, address, at) {
            return true;
        }
        at += LANES;
    }
    plain::has(addresses, address, at)
}
