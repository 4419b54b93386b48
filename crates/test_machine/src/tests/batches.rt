use brd_board::{Board, Event};
use std::alloc::Global;
use std::test::Fail;
use test_help::none_wrong;

/// Programs of one task.
const PROGRAMS: &[&[u32]] = &[
    COUNTS,
    LOADS_AND_STORES,
    WIDE,
    CHANGES_ITSELF,
    CALLS,
    LINKS,
    STAYS_AT_THE_END,
    LEAVES_RAM,
    TRAPS,
    BRANCH_IN_A_SLOT,
];

/// It counts.
const COUNTS: &[u32] = &[
    0x2529_0001, // addiu $t1, $t1, 1
    0x1520_fffe, // bne $t1, $0, -2: to the addiu
    0x0000_0000, // sll $0, $0, 0
];

/// It loads and stores, also in slots, and a branch of it isn't always taken.
const LOADS_AND_STORES: &[u32] = &[
    0x3c04_8000, // lui $a0, 0x8000
    0x8c88_0100, // lw $t0, 0x100($a0)
    0x2508_0003, // addiu $t0, $t0, 3
    0xac88_0100, // sw $t0, 0x100($a0)
    0x9089_0103, // lbu $t1, 0x103($a0)
    0x312a_0004, // andi $t2, $t1, 4
    0x1140_0002, // beq $t2, $0, 2: to the xor
    0xa489_0106, // sh $t1, 0x106($a0), in the slot
    0xa088_0105, // sb $t0, 0x105($a0)
    0x0149_5826, // xor $t3, $t2, $t1
    0x1000_fff6, // beq $0, $0, -10: to the lw
    0xac8b_0108, // sw $t3, 0x108($a0), in the slot
];

/// Unaligned loads and stores, a product, and a branch-likely.
const WIDE: &[u32] = &[
    0x3c04_8000, // lui $a0, 0x8000
    0x8888_0101, // lwl $t0, 0x101($a0)
    0x9888_0104, // lwr $t0, 0x104($a0)
    0x0128_0018, // mult $t1, $t0
    0x0000_5012, // mflo $t2
    0x2529_0001, // addiu $t1, $t1, 1
    0xa889_0106, // swl $t1, 0x106($a0)
    0x5520_fff9, // bnel $t1, $0, -7: to the lwl
    0x0149_5826, // xor $t3, $t2, $t1, in the slot
];

/// It makes another instruction of its first one each time.
const CHANGES_ITSELF: &[u32] = &[
    0x2529_0001, // addiu $t1, $t1, 1, and then 2, 3 and so on
    0x3c04_8000, // lui $a0, 0x8000
    0x8c88_0000, // lw $t0, 0($a0)
    0x2508_0001, // addiu $t0, $t0, 1
    0x1000_fffb, // beq $0, $0, -5: to the first
    0xac88_0000, // sw $t0, 0($a0), in the slot
];

/// It writes to the console, which is full at last.
const CALLS: &[u32] = &[
    0x2402_0028, // addiu $v0, $0, 40
    0x0000_000c, // syscall
    0x1000_fffd, // beq $0, $0, -3: to the first
    0x2484_0001, // addiu $a0, $a0, 1, in the slot
];

/// It counts by LL and SC.
const LINKS: &[u32] = &[
    0x3c04_8000, // lui $a0, 0x8000
    0xc088_0100, // ll $t0, 0x100($a0)
    0x2508_0001, // addiu $t0, $t0, 1
    0xe088_0100, // sc $t0, 0x100($a0)
    0x1100_fffc, // beq $t0, $0, -4: to the ll
    0x0000_0000, // sll $0, $0, 0
    0x1000_fffa, // beq $0, $0, -6: to the ll
    0xac80_0140, // sw $0, 0x140($a0), in the slot
];

/// It writes its last two instructions to the end of RAM, and stays there.
const STAYS_AT_THE_END: &[u32] = &[
    0x3c04_8001, // lui $a0, 0x8001
    0x3c08_1000, // lui $t0, 0x1000
    0x3508_ffff, // ori $t0, $t0, 0xffff: beq $0, $0, -1, to itself
    0x3c09_254a, // lui $t1, 0x254a
    0x3529_0001, // ori $t1, $t1, 1: addiu $t2, $t2, 1
    0xac88_fff8, // sw $t0, -8($a0)
    0xac89_fffc, // sw $t1, -4($a0)
    0x2484_fff8, // addiu $a0, $a0, -8
    0x0080_0008, // jr $a0
    0x254a_0005, // addiu $t2, $t2, 5, in the slot
];

/// It goes on at the end of RAM, after some rounds.
const LEAVES_RAM: &[u32] = &[
    0x2529_0001, // addiu $t1, $t1, 1
    0x2d28_3000, // sltiu $t0, $t1, 0x3000
    0x1500_fffd, // bne $t0, $0, -3: to the addiu
    0x3c04_8001, // lui $a0, 0x8001, in the slot
    0x0080_0008, // jr $a0
];

/// It raises an overflow after some rounds, in a slot.
const TRAPS: &[u32] = &[
    0x3c0a_7fff, // lui $t2, 0x7fff
    0x354a_0000, // ori $t2, $t2, 0
    0x1000_ffff, // beq $0, $0, -1: to itself
    0x214a_0004, // addi $t2, $t2, 4, in the slot
];

/// A branch whose slot has a branch.
const BRANCH_IN_A_SLOT: &[u32] = &[
    0x2529_0001, // addiu $t1, $t1, 1
    0x2d28_2801, // sltiu $t0, $t1, 0x2801
    0x1500_fffd, // bne $t0, $0, -3: to the addiu
    0x0000_0000, // sll $0, $0, 0
    0x1000_0000, // beq $0, $0, 0: to the next
    0x1000_fffa, // beq $0, $0, -6: to the first, in the slot
];

/// How many steps a board does at once. The first of these are more than RAM has words.
const COUNTED: &[u32] = &[
    16_500, 1, 20_000, 2, 3, 4, 5, 6, 7, 8, 9, 10, 11, 63, 64, 65, 66, 67, 1_000, 1_001, 4_099,
    9_999,
];

/// Whether two equal boards are equal again, after the one has done n steps at once, and the other one by one.
fn are_same_after(board: &mut Board, copy: &mut Board, count: u32) -> bool {
    board.repeat(Event::Step(1), count);
    for _ in 0..count {
        let _ = copy.event(Event::Step(1));
    }
    board.same(copy)
}

/// Whether they are so, however many steps they do at once.
fn are_always_same(board: &mut Board, copy: &mut Board) -> bool {
    for count in COUNTED {
        if !are_same_after(board, copy, *count) {
            return false;
        }
    }
    true
}

/// Whether a board and its copy are so.
fn goes_like_its_copy(board: &mut Board) -> bool {
    match board.try_copy() {
        Ok(mut copy) => are_always_same(board, &mut copy),
        Err(_) => false,
    }
}

/// Whether the board of these words is so.
fn goes_like_its_steps(alloc: Global, words: &[u32]) -> bool {
    match Board::from_words(alloc, words) {
        Ok(mut board) => goes_like_its_copy(&mut board),
        Err(_) => false,
    }
}

/// The first program whose board isn't.
fn first_other(alloc: Global) -> Option<usize> {
    for (program, words) in PROGRAMS.iter().enumerate() {
        if !goes_like_its_steps(alloc, words) {
            return Some(program);
        }
    }
    None
}

/// Steps at once are steps one by one.
#[test]
fn batches_of_steps(rt: HostRuntime) -> Result<(), Fail> {
    none_wrong(first_other(rt.alloc()))
}

/// Whether a board of `CALLS` goes on by one to three steps before each of its calls, with leave for very many.
fn goes_from_call_to_call(board: &mut Board) -> bool {
    for _ in 0..1_000u32 {
        let went = board.go_on(1, 4_000_000_000);
        if went < 1 || went > 3 {
            return false;
        }
        let _ = board.event(Event::Step(1));
    }
    board.console().len() == 1_000
}

/// Steps at once that come to a call end there without more work, however many were asked for: a loop that went on to
/// look for what it knows already would take longer than a test may.
#[test]
fn batches_end_at_calls(rt: HostRuntime) {
    let goes = match Board::from_words(rt.alloc(), CALLS) {
        Ok(mut board) => goes_from_call_to_call(&mut board),
        Err(_) => false,
    };
    assert!(rt; goes);
}
