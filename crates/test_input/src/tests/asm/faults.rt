//! Which fault a source has, which one comes first, and sources that have none.

use super::{Row, first_wrong};
use brd_asm::AsmFault;
use std::test::Fail;
use test_help::{first_wrong_text, none_wrong};

/// One fault of each kind, each with a line.
const ONE_OF_EACH_KIND: &[Row] = &[
    ("addiu $t0, $t0", "Syntax { line: 1 }"),
    ("a: nop\na: nop", "Twice { line: 2 }"),
    (".word q", "UnknownName { line: 1 }"),
    (".word q\nzzz", "Syntax { line: 2 }"),
    (".byte 256", "Range { line: 1 }"),
    (".org 0x7FFFFFFC\nnop", "Range { line: 2 }"),
    (".byte 1\nnop", "Misaligned { line: 2 }"),
    ("nop\n.org 0x80000000\nnop", "Overlap { line: 3 }"),
];

#[test]
fn one_of_each_kind(rt: HostRuntime) -> Result<(), Fail> {
    none_wrong(first_wrong(rt.alloc(), ONE_OF_EACH_KIND))
}

/// Nothing at all, and what has no bytes.
const NOTHING_AT_ALL: &[Row] = &[
    ("", "80000000"),
    ("\n\n # nothing\n", "80000000"),
    (
        ".org 0\na: .space 0\n.ascii \"\"\n.align 0",
        "80000000 a=00000000",
    ),
    (
        ".org 1\n.align 0\nb: .equ c, -1",
        "80000000 b=00000001 c=ffffffff",
    ),
];

#[test]
fn nothing_at_all(rt: HostRuntime) -> Result<(), Fail> {
    none_wrong(first_wrong(rt.alloc(), NOTHING_AT_ALL))
}

/// The order of faults on one line.
const ORDER_ON_ONE_LINE: &[Row] = &[
    ("a: a: nop", "Twice { line: 1 }"),
    ("a: a: nop $0", "Syntax { line: 1 }"),
    ("a: a: nop\nnop $0", "Twice { line: 1 }"),
    ("a: nop\n.equ a, zz", "Twice { line: 2 }"),
    ("a: .equ a, 5", "Twice { line: 1 }"),
    ("a: .org a", "UnknownName { line: 1 }"),
    ("a: .equ b, a", "UnknownName { line: 1 }"),
    (".equ a, a", "UnknownName { line: 1 }"),
    (".org q\na: .word a\n", "UnknownName { line: 1 }"),
    (".org 1\nnop", "Range { line: 2 }"),
    (".org 0x80000002\nnop", "Misaligned { line: 2 }"),
    (".half 1\n.word 1", "Misaligned { line: 2 }"),
    (".byte 1\n.half 1", "Misaligned { line: 2 }"),
    (".org 0x81000001\n.byte 1", "Range { line: 2 }"),
    ("nop\n.org 0x80000001\nnop", "Misaligned { line: 3 }"),
];

#[test]
fn order_on_one_line(rt: HostRuntime) -> Result<(), Fail> {
    none_wrong(first_wrong(rt.alloc(), ORDER_ON_ONE_LINE))
}

/// Two groups: places before meanings.
const TWO_GROUPS: &[Row] = &[
    (".word q\n.byte 1\nnop", "Misaligned { line: 3 }"),
    ("b q\na:\na:", "Twice { line: 3 }"),
    (".byte 256\n.byte q", "Range { line: 1 }"),
    (".word -2147483649, q", "UnknownName { line: 1 }"),
    ("pref 32, q($0)", "UnknownName { line: 1 }"),
    ("pref q, 40000($0)", "UnknownName { line: 1 }"),
    ("j 0x80000002", "Misaligned { line: 1 }"),
    ("j 0x90000002", "Range { line: 1 }"),
    ("j 0x70000000", "Range { line: 1 }"),
    (".equ a, 0x80000000\nj a+4294967295", "Range { line: 2 }"),
    ("a: j a+0", "80000000 80000000:08000000 a=80000000"),
];

#[test]
fn two_groups(rt: HostRuntime) -> Result<(), Fail> {
    none_wrong(first_wrong(rt.alloc(), TWO_GROUPS))
}

/// Ranges.
const RANGES: &[Row] = &[
    (
        ".word -2147483648, 4294967295",
        "80000000 80000000:80000000ffffffff",
    ),
    (".word -2147483649", "Range { line: 1 }"),
    (
        ".equ a, 2147483648\n.word a+2147483648",
        "Range { line: 2 }",
    ),
    (".half -32768, 65535", "80000000 80000000:8000ffff"),
    (".half -32769", "Range { line: 1 }"),
    (".half 65536", "Range { line: 1 }"),
    (".byte -128, 255", "80000000 80000000:80ff"),
    (".byte -129", "Range { line: 1 }"),
    (".equ a, -2147483649", "Range { line: 1 }"),
    (".equ a, 4294967295", "80000000 a=ffffffff"),
    (".equ a, 4294967295\n.equ b, a+1", "Range { line: 2 }"),
    (".org -1", "Range { line: 1 }"),
    (".org 4294967295\n.align 1", "Range { line: 2 }"),
    (".align 13", "Range { line: 1 }"),
    (".align -1", "Range { line: 1 }"),
    (".space 16777217", "Range { line: 1 }"),
    (".org 0x80000001\n.space 16777216", "Range { line: 2 }"),
    (
        ".org 0x80ffffff\n.space 1\na:",
        "80000000 80ffffff:00 a=81000000",
    ),
    (".org 0x80ffffff\n.half 1", "Range { line: 2 }"),
    ("addiu $1, $1, 32768", "Range { line: 1 }"),
    ("addiu $1, $1, -32769", "Range { line: 1 }"),
    ("addiu $t0, $t0, %hi(0x80000000)", "Range { line: 1 }"),
    ("addiu $1, $1, %lo(0x8000)", "80000000 80000000:24218000"),
    ("ori $1, $1, %lo(0x8000)", "80000000 80000000:34218000"),
    ("ori $1, $1, 65536", "Range { line: 1 }"),
    ("ori $1, $1, -1", "Range { line: 1 }"),
    ("lui $1, %hi(0x7fff8000)", "80000000 80000000:3c018000"),
    ("lui $1, %hi(0x7fff7fff)", "80000000 80000000:3c017fff"),
    ("lui $1, %hi(-1)", "80000000 80000000:3c010000"),
    ("sll $1, $1, 32", "Range { line: 1 }"),
    ("syscall 1048576", "Range { line: 1 }"),
    ("teq $1, $1, 1024", "Range { line: 1 }"),
    ("pref 32, 0($0)", "Range { line: 1 }"),
    (
        ".equ a, 5\nori $1, $1, %lo(a+4294967295)",
        "80000000 80000000:34210004 a=00000005",
    ),
];

#[test]
fn ranges(rt: HostRuntime) -> Result<(), Fail> {
    none_wrong(first_wrong(rt.alloc(), RANGES))
}

/// Places, segments, names and the entry.
const PLACES_AND_SEGMENTS: &[Row] = &[
    (
        "a: .byte 1\nb: .align 2\nc: nop",
        "80000000 80000000:0100000000000000 a=80000000 b=80000001 c=80000004",
    ),
    (".equ _start, -4", "fffffffc _start=fffffffc"),
    (
        ".org 0x80000008\n.byte 3\n.org 0x80000000\n.word 1, 2",
        "80000000 80000000:000000010000000203",
    ),
    (
        ".org 0x80000009\n.byte 3\n.org 0x80000000\n.word 1, 2",
        "80000000 80000000:0000000100000002 80000009:03",
    ),
    (
        ".org 0x80000004\n.space 0\n.org 0x80000000\n.word 1, 2",
        "80000000 80000000:0000000100000002",
    ),
    (
        ".org 0x80000008\n.word 1\n.org 0x80000000\n.space 9",
        "Overlap { line: 4 }",
    ),
];

#[test]
fn places_and_segments(rt: HostRuntime) -> Result<(), Fail> {
    none_wrong(first_wrong(rt.alloc(), PLACES_AND_SEGMENTS))
}

/// Each fault, as it reads.
const TEXTS: &[(AsmFault, &str)] = &[
    (AsmFault::NoMemory, "out of memory"),
    (
        AsmFault::Syntax { line: 1 },
        "line 1: found what no line has, expected labels, then an instruction or a directive with its operands",
    ),
    (
        AsmFault::UnknownName { line: 2 },
        "line 2: found a name without a value, expected one that is defined, for .org, .align, .space and .equ on an earlier line",
    ),
    (
        AsmFault::Twice { line: 3 },
        "line 3: found a name that is defined already, expected each once",
    ),
    (
        AsmFault::Range { line: 4 },
        "line 4: found a value or an address out of range, expected a value that its operand holds, an address from 0x80000000 to 0x80ffffff",
    ),
    (
        AsmFault::Misaligned { line: 5 },
        "line 5: found an unaligned place or target, expected a multiple of 4 for instructions, words and targets, of 2 for halfwords",
    ),
    (
        AsmFault::Overlap { line: 6 },
        "line 6: found bytes at an address that is filled already, expected each once",
    ),
];

#[test]
fn texts(rt: HostRuntime) -> Result<(), Fail> {
    none_wrong(first_wrong_text(rt.alloc(), TEXTS))
}
