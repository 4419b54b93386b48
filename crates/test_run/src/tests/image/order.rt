//! Boards of sources and of object files in either byte order.

use super::files::file_of;
use super::runs::{REPORTS as OF_A_LETTER, SHOWN as AFTER_A_LETTER};
use super::{ONE_TASK, Shown, shows, tells};
use brd_board::{Board, Event, Report};
use brd_image::{BuildFault, build, load};
use brd_word::Order;
use std::alloc::Global;
use std::test::Fail;

/// What steps report that do the instructions from the first address on.
const REPORTS: &[Report] = &[
    Report::Ran(0x8000_0000),
    Report::Ran(0x8000_0004),
    Report::Ran(0x8000_0008),
    Report::Ran(0x8000_000c),
    Report::Ran(0x8000_0010),
    Report::Ran(0x8000_0014),
    Report::Ran(0x8000_0018),
];

/// Whether a source reports that it goes on from one instruction to the next, n times, and shows this then.
fn goes_on(alloc: Global, source: &str, count: usize, shown: &Shown) -> bool {
    match REPORTS.get(..count) {
        Some(reports) => tells(alloc, source, ONE_TASK, reports, shown),
        None => false,
    }
}

/// A word that begins at 0x80000011, by LWR and LWL.
const LITTLE_UNALIGNED: &str = ".byteorder little
_start: lui $a0, 0x8000
        lwr $t0, 0x11($a0)
        lwl $t0, 0x14($a0)
        nop
        .byte 0x11, 0x22, 0x33, 0x44, 0x55, 0x66, 0x77, 0x88
";

const LITTLE_WORD: Shown = Shown {
    is_off: false,
    pc: 0x8000_000c,
    words: &[(4, 0x8000_0000), (8, 0x5544_3322), (29, 0x8001_0000)],
    console: b"",
};

/// The same by LWL and LWR, on a big-endian board.
const BIG_UNALIGNED: &str = ".byteorder big
_start: lui $a0, 0x8000
        lwl $t0, 0x11($a0)
        lwr $t0, 0x14($a0)
        nop
        .byte 0x11, 0x22, 0x33, 0x44, 0x55, 0x66, 0x77, 0x88
";

const BIG_WORD: Shown = Shown {
    is_off: false,
    pc: 0x8000_000c,
    words: &[(4, 0x8000_0000), (8, 0x2233_4455), (29, 0x8001_0000)],
    console: b"",
};

#[test]
fn an_unaligned_word(rt: HostRuntime) {
    assert!(rt; goes_on(rt.alloc(), LITTLE_UNALIGNED, 3, &LITTLE_WORD));
    assert!(rt; goes_on(rt.alloc(), BIG_UNALIGNED, 3, &BIG_WORD));
}

/// Loads of a word, of its halfwords and of its first byte, and a store of the word, whose first byte is loaded.
const LITTLE_PARTS: &str = ".byteorder little
_start: lui $a0, 0x8000
        lw  $t0, 0x20($a0)
        lh  $t1, 0x20($a0)
        lh  $t2, 0x22($a0)
        lbu $t3, 0x20($a0)
        sw  $t0, 0x24($a0)
        lbu $t4, 0x24($a0)
        nop
        .byte 0x11, 0x22, 0x33, 0x84
";

const OF_LITTLE_PARTS: Shown = Shown {
    is_off: false,
    pc: 0x8000_001c,
    words: &[
        (4, 0x8000_0000),
        (8, 0x8433_2211),
        (9, 0x2211),
        (10, 0xffff_8433),
        (11, 0x11),
        (12, 0x11),
        (29, 0x8001_0000),
    ],
    console: b"",
};

/// The same on a big-endian board, which needs no directive.
const BIG_PARTS: &str = "_start: lui $a0, 0x8000
        lw  $t0, 0x20($a0)
        lh  $t1, 0x20($a0)
        lh  $t2, 0x22($a0)
        lbu $t3, 0x20($a0)
        sw  $t0, 0x24($a0)
        lbu $t4, 0x24($a0)
        nop
        .byte 0x11, 0x22, 0x33, 0x84
";

const OF_BIG_PARTS: Shown = Shown {
    is_off: false,
    pc: 0x8000_001c,
    words: &[
        (4, 0x8000_0000),
        (8, 0x1122_3384),
        (9, 0x1122),
        (10, 0x3384),
        (11, 0x11),
        (12, 0x11),
        (29, 0x8001_0000),
    ],
    console: b"",
};

#[test]
fn parts_of_a_word(rt: HostRuntime) {
    assert!(rt; goes_on(rt.alloc(), LITTLE_PARTS, 7, &OF_LITTLE_PARTS));
    assert!(rt; goes_on(rt.alloc(), BIG_PARTS, 7, &OF_BIG_PARTS));
}

/// Writes `H` by service 40, and turns the board off by service 41.
const LITTLE_LETTER: &str = ".byteorder little
_start: addiu $v0, $0, 40
        addiu $a0, $0, 72
        syscall
        addiu $v0, $0, 41
        syscall
";

/// A little-endian board does what a big-endian one does.
#[test]
fn a_letter(rt: HostRuntime) {
    assert!(rt;
        tells(
            rt.alloc(),
            LITTLE_LETTER,
            ONE_TASK,
            OF_A_LETTER,
            &AFTER_A_LETTER
        )
    );
}

/// Whether a source makes a board of this byte order.
fn is_built(alloc: Global, source: &str, order: Order) -> bool {
    match build(alloc, source.as_bytes(), ONE_TASK.as_bytes()) {
        Ok(board) => board.order() == order,
        Err(_) => false,
    }
}

/// The byte order is the source's.
#[test]
fn of_a_source(rt: HostRuntime) {
    assert!(rt; is_built(rt.alloc(), LITTLE_UNALIGNED, Order::Little));
    assert!(rt; is_built(rt.alloc(), BIG_UNALIGNED, Order::Big));
    assert!(rt; is_built(rt.alloc(), BIG_PARTS, Order::Big));
}

/// Four words, whose file has 348 bytes.
const FOUR_WORDS: &str =
    ".byteorder little\n_start: lui $t0, %hi(d)\nlw $t1, %lo(d)($t0)\nnop\nd: .word 7\n";

/// What the board of `FOUR_WORDS` shows after three steps.
const SHOWN: Shown = Shown {
    is_off: false,
    pc: 0x8000_000c,
    words: &[(8, 0x8000_0000), (9, 7), (29, 0x8001_0000)],
    console: b"",
};

/// Whether a board is little-endian, and shows this after three steps.
fn goes_little(board: &mut Board) -> bool {
    board.play(&[Event::Step(1), Event::Step(1), Event::Step(1)]);
    board.order() == Order::Little && shows(board, &SHOWN)
}

/// Whether the board of a file is so.
fn is_loaded(alloc: Global, file: &[u8]) -> bool {
    match load(alloc, file, ONE_TASK.as_bytes()) {
        Ok(mut board) => goes_little(&mut board),
        Err(_) => false,
    }
}

/// Whether a file is as long as that, says that it is little-endian, and has the first word so.
fn has_little_words(file: &[u8]) -> bool {
    let begins = match file.get(84..) {
        Some(words) => words.starts_with(b"\x00\x80\x08\x3c"),
        None => false,
    };
    file.len() == 348 && file.get(5) == Some(&1) && begins
}

/// The byte order goes with the file.
#[test]
fn of_a_file(rt: HostRuntime) -> Result<(), Fail> {
    let alloc = rt.alloc();
    let file = file_of(alloc, FOUR_WORDS)?;
    assert!(rt; has_little_words(file.as_slice()) && is_loaded(alloc, file.as_slice()));
    assert!(rt;
        tells(
            alloc,
            FOUR_WORDS,
            ONE_TASK,
            &[
                Report::Ran(0x8000_0000),
                Report::Ran(0x8000_0004),
                Report::Ran(0x8000_0008),
            ],
            &SHOWN
        )
    );
    Ok(())
}

/// The board of a source without instructions.
fn empty_board(alloc: Global, source: &str) -> Result<Board, BuildFault> {
    let config = "BOARD(1, 0x10000); CRE_TSK(1, {TA_ACT, 0, 0x80000000, 1, 256, NULL});";
    build(alloc, source.as_bytes(), config.as_bytes())
}

/// Boards that differ in nothing but the order are not the same.
#[test]
fn same_in_order(rt: HostRuntime) -> Result<(), Fail> {
    let big = empty_board(rt.alloc(), "")?;
    let little = empty_board(rt.alloc(), ".byteorder little\n")?;
    let copy = little.try_copy()?;
    assert!(rt; !big.same(&little) && !little.same(&big) && little.same(&copy));
    Ok(())
}

/// The board of `LITTLE_LETTER`.
fn letter_board(alloc: Global) -> Result<Board, BuildFault> {
    build(alloc, LITTLE_LETTER.as_bytes(), ONE_TASK.as_bytes())
}

/// Two steps under a lease are two steps.
#[test]
fn lent_steps(rt: HostRuntime) -> Result<(), Fail> {
    let mut lending = letter_board(rt.alloc())?;
    let mut stepping = letter_board(rt.alloc())?;
    stepping.play(&[Event::Step(1), Event::Step(1)]);
    let Some(mut lease) = lending.lend(1) else {
        assert!(rt; false);
        return Ok(());
    };
    let done = lease.run(64);
    let committed = lending.commit(lease);
    assert!(rt; done == 2 && committed == Ok(2) && lending.same(&stepping));
    Ok(())
}
