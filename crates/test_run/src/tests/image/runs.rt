//! Boards from their source to their state after events.

use super::{ONE_LETTER, ONE_TASK, Shown, tells};
use brd_board::{Board, Event, Report};
use brd_image::build;
use std::alloc::Global;

/// What the board of `ONE_LETTER` reports in six steps.
pub const REPORTS: &[Report] = &[
    Report::Ran(0x8000_0000),
    Report::Ran(0x8000_0004),
    Report::Called(0x8000_0008),
    Report::Ran(0x8000_000c),
    Report::Called(0x8000_0010),
    Report::Off,
];

/// What it shows after them.
pub const SHOWN: Shown = Shown {
    is_off: true,
    pc: 0x8000_0014,
    words: &[(2, 0x29), (4, 0x48), (29, 0x8001_0000)],
    console: b"H",
};

/// A greeting, and the end of the board: the files of examples/hello.
const HELLO: &str =
    "# Writes \"Hi\" and a newline by put_chr (service 40), and turns the board off by ext_ker (41).
        .equ    put_chr, 40
        .equ    ext_ker, 41
_start: lui     $s0, %hi(text)
        addiu   $s0, $s0, %lo(text)
next:   lbu     $a0, ($s0)
        beqz    $a0, done
        addiu   $v0, $0, put_chr    # in the slot
        syscall
        b       next
        addiu   $s0, $s0, 1         # in the slot
done:   addiu   $v0, $0, ext_ker
        syscall
text:   .asciiz \"Hi\\n\"
";

const HELLO_CONFIG: &str = "/* One task, which begins at _start. */
BOARD(1, 0x10000);              // one processor, 64 KiB of RAM
CRE_TSK(1, {TA_ACT, 0, _start, 1, 256, NULL});
";

#[test]
fn a_letter_and_the_end(rt: HostRuntime) {
    assert!(rt; tells(rt.alloc(), ONE_LETTER, ONE_TASK, REPORTS, &SHOWN));
}

/// Whether a board reports that it is off from its 26th step on, and not before, and has said `Hi` after these steps.
fn has_greeted(board: &mut Board, count: u32) -> bool {
    for n in 0..count {
        if (board.event(Event::Step(1)) == Report::Off) != (n >= 25) {
            return false;
        }
    }
    board.is_off() && board.console() == b"Hi\n".as_slice()
}

/// Whether the board of a source and a configuration greets in so many steps.
fn greets(alloc: Global, source: &str, config: &str, count: u32) -> bool {
    match build(alloc, source.as_bytes(), config.as_bytes()) {
        Ok(mut board) => has_greeted(&mut board, count),
        Err(_) => false,
    }
}

/// Two instructions, six for each of three letters, five for the end: off from the 26th step on.
#[test]
fn a_greeting(rt: HostRuntime) {
    assert!(rt; greets(rt.alloc(), HELLO, HELLO_CONFIG, 40));
}

/// Each of 100,000 events has its report.
#[test]
fn a_long_run(rt: HostRuntime) {
    assert!(rt; greets(rt.alloc(), HELLO, HELLO_CONFIG, 100_000));
}

const EMPTY: Shown = Shown {
    is_off: false,
    pc: 0x8000_0008,
    words: &[(29, 0x8001_0000)],
    console: b"",
};

/// A source without an instruction: the task meets zeros, each of which is `sll $0, $0, 0`.
#[test]
fn an_empty_source(rt: HostRuntime) {
    let config = "BOARD(1, 0x10000); CRE_TSK(1, {TA_ACT, 0, 0x80000000, 1, 256, NULL});";
    let reports = [Report::Ran(0x8000_0000), Report::Ran(0x8000_0004)];
    assert!(rt; tells(rt.alloc(), "", config, &reports, &EMPTY));
}
