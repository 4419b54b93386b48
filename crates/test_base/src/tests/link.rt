//! Worked examples: which links a change leaves.

use brd_link::Links;
use std::test::Fail;
use test_help::none_wrong;

const WORD: u32 = 0x8000_1000;

/// What processor 1 links, whether it stores itself, to which address, and whether its link stays.
const STORES: &[(u32, bool, u32, bool)] = &[
    // The word itself, another word of the block, and its last byte.
    (WORD, false, WORD, false),
    (WORD, false, WORD + 4, false),
    (WORD, false, WORD + 15, false),
    // The first byte of the next block, and the last one of the block before.
    (WORD, false, WORD + 16, true),
    (WORD, false, WORD - 1, true),
    // The last word of the block is linked: its first byte, and the word after it.
    (WORD + 12, false, WORD, false),
    (WORD + 12, false, WORD + 16, true),
    // Stores of its own.
    (WORD, true, WORD, true),
    (WORD, true, WORD + 15, true),
    // The first block and the last one, which do not wrap.
    (0, false, 0, false),
    (0xffff_fff0, false, 0xffff_ffff, false),
    (0xffff_fffc, false, 0, true),
    // An address that is no multiple of 4, and one of the same low bits.
    (WORD + 3, false, WORD, false),
    (0x0000_1000, false, WORD, true),
];

/// Whether processor 1 still has its link to `linked` after a store to `stored`.
fn stays(linked: u32, is_own: bool, stored: u32) -> bool {
    let mut links = Links::new();
    links.set(1, linked);
    links.stored(if is_own { 1 } else { 2 }, stored);
    links.state(1) == Some(linked)
}

/// The first row of stores that isn't as it says.
fn first_wrong_store() -> Option<usize> {
    STORES.iter().position(|(linked, is_own, stored, expected)| stays(*linked, *is_own, *stored)
        != *expected)
}

#[test]
fn ends_by_a_store_of_another_into_the_block(_rt: HostRuntime) -> Result<(), Fail> {
    none_wrong(first_wrong_store())
}

/// What processor 1 links in turn, where its SC stores then, and whether it may.
const TAKES: &[(&[u32], u32, bool)] = &[
    (&[], WORD, false),
    (&[], 0, false),
    (&[WORD], WORD, true),
    // Another word of the block.
    (&[WORD], WORD + 4, false),
    // Of two, the last one counts.
    (&[WORD, WORD + 64], WORD, false),
    (&[WORD, WORD + 64], WORD + 64, true),
];

/// Whether an SC to an address may store after these LLs, where a second one after it may not.
fn takes(linked: &[u32], address: u32) -> bool {
    let mut links = Links::new();
    for word in linked {
        links.set(1, *word);
    }
    links.take(1, address) && !links.take(1, address)
}

/// The first row of SCs that isn't as it says.
fn first_wrong_take() -> Option<usize> {
    TAKES.iter().position(|(linked, address, expected)| takes(*linked, *address) != *expected)
}

#[test]
fn takes_a_link_once(_rt: HostRuntime) -> Result<(), Fail> {
    none_wrong(first_wrong_take())
}

fn address_of(cpu: u8) -> u32 {
    WORD + 4 * cpu as u32
}

/// Each processor links its word: 1 to 3 of one block, 4 to 7 of the next, and 8 of a third.
fn link_all(links: &mut Links) {
    for cpu in 1..9u8 {
        links.set(cpu, address_of(cpu));
    }
}

/// A bit for each processor that has a link to its word, the lowest for processor 1.
fn linked(links: &Links) -> u8 {
    let mut mask = 0u8;
    for cpu in 1..9u8 {
        if links.state(cpu) == Some(address_of(cpu)) {
            mask |= 1 << (cpu - 1);
        }
    }
    mask
}

/// A store of processor 5 ends the links of 4, 6 and 7, and an SC of 1 its own link and no other of its block.
#[test]
fn holds_a_link_for_each_processor(rt: HostRuntime) {
    let mut links = Links::new();
    link_all(&mut links);
    let all = linked(&links);
    links.stored(5, address_of(7));
    let stored = linked(&links);
    let is_taken = links.take(1, address_of(1));
    assert!(rt; all == 0xff && stored == 0x97 && is_taken && linked(&links) == 0x96);
}
