//! Worked examples, and each scan against a plain loop.
ghost use Rattle.std.specs.Prelude.{◌<◌, ◌≤◌, length};

use brd_lanes::{break_links, first_match, hits, next_due, same_words};
use std::test::Fail;
use test_help::none_wrong;

/// Patterns, their modes, the bits that are set, where the scan begins, and the first wait that is satisfied.
const WAITS: &[(&[u32], &[u32], u32, usize, Option<usize>)] = &[
    (&[1, 1, 1, 1, 1, 1, 1, 1, 2], &[0; 9], 2, 0, Some(8)),
    (&[1, 1, 1, 1, 1, 1, 1, 1, 2], &[0; 9], 2, 9, None),
    (&[3, 3, 3], &[0, 1, 0], 1, 0, Some(1)),
    (&[3, 3, 3], &[0, 1, 0], 1, 2, None),
    // All of no bits, and one of no bits.
    (&[0], &[0], 5, 0, Some(0)),
    (&[0], &[1], 5, 0, None),
    (&[], &[], 5, 0, None),
];

/// The first row of waits that isn't as it says.
fn first_wrong_wait() -> Option<usize> {
    WAITS.iter().position(|(patterns, modes, current, from, expected)| patterns.len() != modes.len()
        || *from > patterns.len()
        || first_match(*patterns, *modes, *current, *from) != *expected)
}

#[test]
fn finds_the_first_satisfied_wait(_rt: HostRuntime) -> Result<(), Fail> {
    none_wrong(first_wrong_wait())
}

/// Ticks, the present one, and the first place whose tick has come.
const DUES: &[(&[u64], u64, Option<usize>)] = &[
    (&[9, 9, 9, 9, 9, 9, 9, 9, 9, 4], 4, Some(9)),
    (&[9, 9, 9, 9, 9, 9, 9, 9, 9, 4], 3, None),
    (&[u64::MAX; 8], u64::MAX - 1, None),
    (&[1 << 63; 8], 1 << 63, Some(0)),
];

/// The first row of ticks that isn't as it says.
fn first_wrong_due() -> Option<usize> {
    DUES.iter().position(|(dues, now, expected)| next_due(*dues, *now, 0) != *expected)
}

#[test]
fn finds_the_first_due_tick(_rt: HostRuntime) -> Result<(), Fail> {
    none_wrong(first_wrong_due())
}

const LINKED: [u32; 8] = [0x8000_1000, 0x8000_100c, 0x8000_1010, 0, 0, 0, 0, 0];

/// The last block doesn't wrap.
#[test]
fn breaks_the_links_of_others(rt: HostRuntime) {
    let others = break_links(&LINKED, 7, 0x8000_1000, 0) == 5;
    let own = break_links(&[0; 8], 0xff, 0, 7) == 0x80;
    let low = break_links(&[15; 8], 0xff, 0xffff_fff0, 0) == 0xff;
    let high = break_links(&[0xffff_ffff; 8], 0x5a, 0xffff_fff0, 1) == 2;
    assert!(rt; others && own && low && high);
}

const NINE: [u32; 9] = [1, 2, 3, 4, 5, 6, 7, 8, 9];

const OTHER_NINE: [u32; 9] = [1, 2, 3, 4, 5, 6, 7, 8, 0];

#[test]
fn compares_and_looks_up_words(rt: HostRuntime) {
    assert!(rt;
        same_words(&[], &[]) && same_words(&NINE, &NINE) && !same_words(&NINE, &OTHER_NINE)
    );
    assert!(rt; !hits(&[], 0) && hits(&NINE, 9) && !hits(&NINE, 0));
}

const LONGEST: usize = 40;

/// The plain loop: the least place from `from` on that is marked.
fn first_marked(marks: &[bool], from: usize) -> Option<usize> {
    (from..marks.len()).find(|i| marks[*i])
}

/// Waits for all (mode 0) and for some (other modes) of their bits in turn, of which the pattern 5 satisfies those that
/// are marked, and ticks, of which those have come.
fn finds_first(marks: &[bool], from: usize) -> bool
    requires { (length marks.now ≤ LONGEST) × (from ≤ length marks.now) }
{
    let now = 0x1_0000_0000;
    let mut pats = [0b1010; LONGEST];
    let mut modes = [0; LONGEST];
    let mut dues = [now + 1; LONGEST];
    for (i, marked) in marks.iter().enumerate() {
        modes[i] = i as u32 % 2 * 7;
        if *marked {
            pats[i] = if i % 2 == 0 { 0b0101 } else { 0b0110 };
            dues[i] = now - i as u64;
        }
    }
    let len = marks.len();
    let first = first_marked(marks, from);
    first_match(&pats[..len], &modes[..len], 5, from) == first
        && next_due(&dues[..len], now, from) == first
}

/// Words that differ from others, and are one that is looked for, where they are marked.
fn compares_words(marks: &[bool]) -> bool
    requires { length marks.now ≤ LONGEST }
{
    let mut words = [0; LONGEST];
    let mut others = [0; LONGEST];
    for (i, marked) in marks.iter().enumerate() {
        words[i] = if *marked { 0x8000_0000 } else { i as u32 };
        others[i] = i as u32;
    }
    let len = marks.len();
    let is_marked = first_marked(marks, 0).is_some();
    hits(&words[..len], 0x8000_0000) == is_marked
        && same_words(&words[..len], &others[..len]) != is_marked
}

/// Whether all scans agree with plain loops, from each start.
fn agree(marks: &[bool]) -> bool
    requires { length marks.now ≤ LONGEST }
{
    for from in 0..marks.len() + 1 {
        if !finds_first(marks, from) {
            return false;
        }
    }
    compares_words(marks)
}

/// Whether they agree on n places with one mark, and with a second one at the end.
fn agree_with_mark(len: usize, place: usize) -> bool
    requires { (len ≤ LONGEST) × (place < len) }
{
    let mut marks = [false; LONGEST];
    marks[place] = true;
    if !agree(&marks[..len]) {
        return false;
    }
    marks[len - 1] = true;
    agree(&marks[..len])
}

/// The first length at which they don't agree: with no mark, and with one at each place.
fn first_wrong_length() -> Option<usize> {
    for len in 0..LONGEST + 1 {
        if !agree(&[false; LONGEST][..len]) {
            return Some(len);
        }
        for place in 0..len {
            if !agree_with_mark(len, place) {
                return Some(len);
            }
        }
    }
    None
}

/// Each length, each single mark and none, and the same with a second mark at the end.
#[test]
fn agrees_with_a_plain_loop(_rt: HostRuntime) -> Result<(), Fail> {
    none_wrong(first_wrong_length())
}

/// Whether the links of a set, to words in the block, end, but for one, and the others, to words before it and after
/// it, don't.
fn breaks_a_set(set: u8, except: u8, valid: u8) -> bool
    requires { except < 8 }
{
    let block = 0x8000_1000;
    let inside = [0, 4, 8, 12, 15, 1, 0, 12];
    let mut words = [0; 8];
    let mut kept = valid;
    for j in 0..8u8 {
        let place = j as usize;
        if set >> j & 1 == 0 {
            words[place] = if j % 2 == 0 { block - 1 } else { block + 16 };
        } else {
            words[place] = block + inside[place];
            if j != except {
                kept &= !(1 << j);
            }
        }
    }
    break_links(&words, valid, block, except) == kept
}

/// The first set that isn't broken so, with each exception.
fn first_wrong_set() -> Option<u8> {
    for set in 0..=255u8 {
        for except in 0..8u8 {
            if !breaks_a_set(set, except, 0xff)
                || !breaks_a_set(set, except, 0x5a)
                || !breaks_a_set(set, except, 0)
            {
                return Some(set);
            }
        }
    }
    None
}

/// Each set, and each exception.
#[test]
fn breaks_each_set_of_links(_rt: HostRuntime) -> Result<(), Fail> {
    none_wrong(first_wrong_set())
}
