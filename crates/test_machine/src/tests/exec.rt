//! LL and SC by several processors, and the parts of unaligned words, with values that were worked out by hand.

ghost use Rattle.std.specs.Prelude.{◌≤◌};

use brd_exec::{Context, ExceptionCode, Outcome, run};
use brd_isa::Register;
use brd_link::Links;
use brd_mem::{Ram, RamFault};
use brd_word::Order;
use std::alloc::Global;
use std::test::Fail;
use test_help::none_wrong;

/// Where each instruction stands.
const CODE: u32 = 0x8000_0000;

/// What $a0 holds: a word at the start of a block.
const BLOCK: u32 = 0x8000_1000;

/// What $sp holds before each instruction but the last SC.
const BEFORE: u32 = 7;

/// What it holds before that one.
const LAST: u32 = 9;

// Each with $sp as rt, where the name doesn't say $0, and an offset from $a0, or from $0, where RAM isn't.
const LL: u32 = 0xc09d_0000;

const LL_OUTSIDE: u32 = 0xc01d_0000;

const LL_TO_ZERO: u32 = 0xc080_0000;

const SC: u32 = 0xe09d_0000;

const SC_FROM_ZERO: u32 = 0xe080_0000;

const SC_OUTSIDE: u32 = 0xe01d_0000;

const SB: u32 = 0xa09d_0000;

const SH: u32 = 0xa49d_0000;

const SWL: u32 = 0xa89d_0000;

const SW: u32 = 0xac9d_0000;

const SWR: u32 = 0xb89d_0000;

const SYSCALL: u32 = 0x0000_000c;

const BREAK: u32 = 0x0000_000d;

const RESERVED: u32 = 0xffff_ffff;

/// The exceptions that instructions raise outside a delay slot.
const ADEL: Outcome = Outcome::Exception {
    code: ExceptionCode::AdEL,
    epc: CODE,
    bd: false,
};

const ADES: Outcome = Outcome::Exception {
    code: ExceptionCode::AdES,
    epc: CODE,
    bd: false,
};

const DBE: Outcome = Outcome::Exception {
    code: ExceptionCode::DBE,
    epc: CODE,
    bd: false,
};

const BP: Outcome = Outcome::Exception {
    code: ExceptionCode::Bp,
    epc: CODE,
    bd: false,
};

const RI: Outcome = Outcome::Exception {
    code: ExceptionCode::RI,
    epc: CODE,
    bd: false,
};

/// Does one instruction of a fresh context with this in $sp. Says what $sp is then, where the instruction ends so.
fn done(
    ram: &mut Ram,
    links: &mut Links,
    cpu: u8,
    word: u32,
    stack: u32,
    ending: Outcome,
) -> Option<u32>
    requires { (1 ≤ cpu) × (cpu ≤ 8) }
{
    if ram.store32(CODE, word).is_err() {
        return None;
    }
    let mut context = Context::opening(CODE, BLOCK, stack);
    if run(&mut context, cpu, ram, links) != ending {
        return None;
    }
    Some(context.read(Register::low(29)))
}

/// An instruction of a processor, and how it ends.
type Ended = (u8, u32, Outcome);

/// Instructions before an SC of processor 1, and the word that lies at `BLOCK` after it.
type Case = (&'static [Ended], u32);

/// Whether instructions end as they say.
fn all_end(ram: &mut Ram, links: &mut Links, before: &[Ended]) -> bool {
    for (cpu, word, ending) in before {
        let cpu = *cpu;
        if cpu < 1 || cpu > 8 || done(ram, links, cpu, *word, BEFORE, *ending).is_none() {
            return false;
        }
    }
    true
}

/// Whether this word lies at `BLOCK`.
fn holds(ram: &Ram, word: u32) -> bool {
    match ram.load32(BLOCK) {
        Ok(found) => found == word,
        Err(_) => false,
    }
}

/// Does these instructions, each of which has to end as it says, and then an SC of processor 1 with `LAST`. That has to
/// be done and to end the link, and to leave this word; where that is `LAST` it has to answer 1, and else 0.
fn leaves(ram: &mut Ram, before: &[Ended], left: u32) -> bool {
    let mut links = Links::new();
    if ram.store32(BLOCK, 0).is_err() || !all_end(ram, &mut links, before) {
        return false;
    }
    let answer = done(ram, &mut links, 1, SC, LAST, Outcome::Done);
    answer == Some(u32::from(left == LAST)) && links.state(1).is_none() && holds(ram, left)
}

/// The first of these cases that leaves another word.
fn first_wrong(ram: &mut Ram, cases: &[Case]) -> Option<usize> {
    for (n, (before, left)) in cases.iter().enumerate() {
        if !leaves(ram, before, *left) {
            return Some(n);
        }
    }
    None
}

/// Stores of another processor after an LL, and the word that the SC leaves.
const STORES: &[(u32, u32)] = &[
    // A word of the block, and one after it.
    (SW + 4, 0),
    (SW + 0x10, LAST),
    // The block's last byte, and the byte after it.
    (SB + 0xf, 0),
    (SB + 0x10, LAST),
    // A halfword of the block.
    (SH + 0xe, 0),
    // Parts of a word.
    (SWL + 0xd, 0),
    (SWR + 0x5, 0),
    // The right part after the block.
    (SWR + 0x11, LAST),
];

/// The first of `STORES` after which an SC leaves another word.
fn first_wrong_store(ram: &mut Ram, cpu: u8) -> Option<usize> {
    for (n, (store, left)) in STORES.iter().enumerate() {
        let before = [(1, LL, Outcome::Done), (cpu, *store, Outcome::Done)];
        if !leaves(ram, &before, *left) {
            return Some(n);
        }
    }
    None
}

/// The SC of processor 1 stores, unless another processor has stored into the block since its LL.
#[test]
fn stores_of_another(rt: HostRuntime) -> Result<(), Fail> {
    let mut ram = Ram::new(rt.alloc(), 0x1_0000, Order::Big)?;
    assert!(rt;
        first_wrong_store(&mut ram, 2).is_none() && first_wrong_store(&mut ram, 8).is_none()
    );
    Ok(())
}

const LINKED: Ended = (1, LL, Outcome::Done);

const OTHER_LINKED: Ended = (2, LL + 4, Outcome::Done);

const OTHER_SC: Ended = (2, SC + 4, Outcome::Done);

/// What another processor does between.
const OF_ANOTHER: &[Case] = &[
    // Nothing.
    (&[LINKED], LAST),
    // An LL of the other alone.
    (&[OTHER_LINKED], 0),
    // An LL.
    (&[LINKED, OTHER_LINKED], LAST),
    // An SC without LL, and one after it.
    (&[LINKED, OTHER_SC], LAST),
    (&[LINKED, OTHER_LINKED, OTHER_SC], 0),
    // A store that raises.
    (&[LINKED, (2, SW + 2, ADES)], LAST),
];

/// Which of the instructions that a processor does itself leave its link.
const OF_ONESELF: &[Case] = &[
    // A store into the block, and one of the word.
    (&[LINKED, (1, SW + 4, Outcome::Done)], LAST),
    (&[LINKED, (1, SW, Outcome::Done)], LAST),
    // An SC, one to another word, one from register 0.
    (&[LINKED, (1, SC, Outcome::Done)], BEFORE),
    (&[LINKED, (1, SC + 4, Outcome::Done)], 0),
    (&[LINKED, (1, SC_FROM_ZERO, Outcome::Done)], 0),
    // A later LL of another word, one to register 0, and this one alone.
    (&[LINKED, (1, LL + 4, Outcome::Done)], 0),
    (&[LINKED, (1, LL_TO_ZERO, Outcome::Done)], LAST),
    (&[(1, LL_TO_ZERO, Outcome::Done)], LAST),
];

/// An exception ends the link only where an SC raises it. The board ends it too, as at a SYSCALL.
const OF_EXCEPTIONS: &[Case] = &[
    (&[LINKED, (1, SW + 2, ADES)], LAST),
    (&[LINKED, (1, SC + 1, ADES)], 0),
    (&[LINKED, (1, SC_OUTSIDE, DBE)], 0),
    (&[LINKED, (1, LL + 2, ADEL)], LAST),
    (&[LINKED, (1, LL_OUTSIDE, DBE)], LAST),
    (&[LINKED, (1, BREAK, BP)], LAST),
    (&[LINKED, (1, RESERVED, RI)], LAST),
    (&[LINKED, (1, SYSCALL, Outcome::Syscall)], LAST),
];

/// Another processor's stores that don't store leave the link, and so do its LLs; what a processor does itself, and
/// what it raises, may end it.
#[test]
fn what_ends_a_link(rt: HostRuntime) -> Result<(), Fail> {
    let mut ram = Ram::new(rt.alloc(), 0x1_0000, Order::Big)?;
    assert!(rt;
        first_wrong(&mut ram, OF_ANOTHER).is_none()
            && first_wrong(&mut ram, OF_ONESELF).is_none()
            && first_wrong(&mut ram, OF_EXCEPTIONS).is_none()
    );
    Ok(())
}

/// What LL and SC raise, what $sp is then, and what becomes of the link.
const RAISED: &[(u32, Outcome, u32, Option<u32>)] = &[
    (LL, Outcome::Done, 0, Some(BLOCK)),
    (LL + 1, ADEL, BEFORE, Some(BLOCK)),
    (LL_OUTSIDE, DBE, BEFORE, Some(BLOCK)),
    (SC + 2, ADES, BEFORE, None),
    (LL + 8, Outcome::Done, 0, Some(BLOCK + 8)),
    (SC_OUTSIDE, DBE, BEFORE, None),
];

/// The first row of `RAISED` that doesn't come so, one after the other.
fn first_other_raised(ram: &mut Ram) -> Option<u32> {
    let mut links = Links::new();
    for (word, ending, stack, link) in RAISED {
        let found = done(ram, &mut links, 1, *word, BEFORE, *ending);
        if found != Some(*stack) || links.state(1) != *link {
            return Some(*word);
        }
    }
    None
}

/// Whether an SC from register 0 stores, and leaves that register 0.
fn stores_zero(ram: &mut Ram) -> bool {
    let mut links = Links::new();
    ram.store32(BLOCK, 5).is_ok()
        && done(ram, &mut links, 1, LL_TO_ZERO, BEFORE, Outcome::Done) == Some(BEFORE)
        && done(ram, &mut links, 1, SC_FROM_ZERO, BEFORE, Outcome::Done) == Some(BEFORE)
        && holds(ram, 0)
        && links.state(1).is_none()
}

#[test]
fn what_is_raised(rt: HostRuntime) -> Result<(), Fail> {
    let mut ram = Ram::new(rt.alloc(), 0x1_0000, Order::Big)?;
    assert!(rt; first_other_raised(&mut ram).is_none() && stores_zero(&mut ram));
    Ok(())
}

const LWL: u32 = 0x889d_0000;

const LWR: u32 = 0x989d_0000;

/// What $sp holds before an LWL, LWR, SWL or SWR.
const OLD: u32 = 0xaabb_ccdd;

/// The bytes of the aligned word before it, from the lowest address on.
const WORD: [u8; 4] = [0x11, 0x22, 0x33, 0x44];

/// What a load of a part of the word leaves in $sp, by the order and the place of its address in the word.
const PARTS_LOADED: &[(Order, u32, [u32; 4])] = &[
    (
        Order::Big,
        LWL,
        [0x1122_3344, 0x2233_44dd, 0x3344_ccdd, 0x44bb_ccdd],
    ),
    (
        Order::Big,
        LWR,
        [0xaabb_cc11, 0xaabb_1122, 0xaa11_2233, 0x1122_3344],
    ),
    (
        Order::Little,
        LWL,
        [0x11bb_ccdd, 0x2211_ccdd, 0x3322_11dd, 0x4433_2211],
    ),
    (
        Order::Little,
        LWR,
        [0x4433_2211, 0xaa44_3322, 0xaabb_4433, 0xaabb_cc44],
    ),
];

/// The bytes that a store of a part of $sp leaves, likewise.
const PARTS_STORED: &[(Order, u32, [[u8; 4]; 4])] = &[
    (
        Order::Big,
        SWL,
        [
            [0xaa, 0xbb, 0xcc, 0xdd],
            [0x11, 0xaa, 0xbb, 0xcc],
            [0x11, 0x22, 0xaa, 0xbb],
            [0x11, 0x22, 0x33, 0xaa],
        ],
    ),
    (
        Order::Big,
        SWR,
        [
            [0xdd, 0x22, 0x33, 0x44],
            [0xcc, 0xdd, 0x33, 0x44],
            [0xbb, 0xcc, 0xdd, 0x44],
            [0xaa, 0xbb, 0xcc, 0xdd],
        ],
    ),
    (
        Order::Little,
        SWL,
        [
            [0xaa, 0x22, 0x33, 0x44],
            [0xbb, 0xaa, 0x33, 0x44],
            [0xcc, 0xbb, 0xaa, 0x44],
            [0xdd, 0xcc, 0xbb, 0xaa],
        ],
    ),
    (
        Order::Little,
        SWR,
        [
            [0xdd, 0xcc, 0xbb, 0xaa],
            [0x11, 0xdd, 0xcc, 0xbb],
            [0x11, 0x22, 0xdd, 0xcc],
            [0x11, 0x22, 0x33, 0xdd],
        ],
    ),
];

/// Whether these bytes lie at `BLOCK`.
fn has_bytes(ram: &Ram, bytes: &[u8; 4]) -> bool {
    for (place, byte) in bytes.iter().enumerate() {
        if ram.byte(BLOCK + place as u32) != Some(*byte) {
            return false;
        }
    }
    true
}

/// Whether an instruction leaves this in $sp and these bytes of the word, which holds `WORD` before.
fn does_part(ram: &mut Ram, word: u32, register: u32, bytes: &[u8; 4]) -> bool {
    if !ram.contains(BLOCK, 4) {
        return false;
    }
    ram.copy_in(BLOCK, &WORD);
    let mut links = Links::new();
    done(ram, &mut links, 1, word, OLD, Outcome::Done) == Some(register) && has_bytes(ram, bytes)
}

/// The first row and place of `PARTS_LOADED` that is another one.
fn first_wrong_load(alloc: Global) -> Result<Option<(usize, usize)>, RamFault> {
    for (row, (order, word, parts)) in PARTS_LOADED.iter().enumerate() {
        let mut ram = Ram::new(alloc, 0x1_0000, *order)?;
        for (place, part) in parts.iter().enumerate() {
            if !does_part(&mut ram, *word + place as u32, *part, &WORD) {
                return Ok(Some((row, place)));
            }
        }
    }
    Ok(None)
}

/// The first row and place of `PARTS_STORED` that is another one.
fn first_wrong_part(alloc: Global) -> Result<Option<(usize, usize)>, RamFault> {
    for (row, (order, word, parts)) in PARTS_STORED.iter().enumerate() {
        let mut ram = Ram::new(alloc, 0x1_0000, *order)?;
        for (place, part) in parts.iter().enumerate() {
            if !does_part(&mut ram, *word + place as u32, OLD, part) {
                return Ok(Some((row, place)));
            }
        }
    }
    Ok(None)
}

/// LWL and LWR at each place of a word, in both byte orders.
#[test]
fn parts_loaded(rt: HostRuntime) -> Result<(), Fail> {
    none_wrong(first_wrong_load(rt.alloc())?)
}

/// SWL and SWR at each place of a word, in both byte orders.
#[test]
fn parts_stored(rt: HostRuntime) -> Result<(), Fail> {
    none_wrong(first_wrong_part(rt.alloc())?)
}
