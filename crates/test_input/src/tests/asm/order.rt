//! The byte order of a source: what lies at its addresses, and where a source may say it.

use super::{Row, first_wrong};
use std::test::Fail;
use test_help::none_wrong;

/// Sources that say their byte order.
const SAID: &[Row] = &[
    (
        ".byteorder little\n_start: lui $t0, %hi(d)\nlw $t1, %lo(d)($t0)\nnop\nd: .word 7\n",
        "little 80000000 80000000:0080083c0c00098d0000000007000000 _start=80000000 d=8000000c",
    ),
    (
        ".byteorder big\n_start: lui $t0, %hi(d)\nlw $t1, %lo(d)($t0)\nnop\nd: .word 7\n",
        "80000000 80000000:3c0880008d09000c0000000000000007 _start=80000000 d=8000000c",
    ),
    (
        ".byteorder little\n.half 1, -2, 0x8000\n.byte 1, -2\n.word 0x11223344, -2\n.ascii \"abc\"\n",
        "little 80000000 80000000:0100feff008001fe44332211feffffff616263",
    ),
    (
        ".byteorder little\n.org 0x80000004\na: .word a, b\n.org 0x80000000\nb: .space 2\n.half b-0x80000004\n",
        "little 80000000 80000000:0000fcff0400008000000080 a=80000004 b=80000000",
    ),
    (".byteorder little", "little 80000000"),
    (".byteorder big", "80000000"),
];

#[test]
fn said(rt: HostRuntime) -> Result<(), Fail> {
    none_wrong(first_wrong(rt.alloc(), SAID))
}

/// Empty lines and comments may come before, and the directive's name is in any case.
const FIRST: &[Row] = &[
    (
        "\n # first\n\t// second\r\n\n \t.ByteOrder little # third\n.half 258",
        "little 80000000 80000000:0201",
    ),
    ("#\n.BYTEORDER\tbig\n.half 258", "80000000 80000000:0102"),
];

#[test]
fn first(rt: HostRuntime) -> Result<(), Fail> {
    none_wrong(first_wrong(rt.alloc(), FIRST))
}

/// It stands nowhere else.
const ELSEWHERE: &[Row] = &[
    ("_start: .byteorder little", "Syntax { line: 1 }"),
    ("_start:\n.byteorder little", "Syntax { line: 2 }"),
    ("nop\n.byteorder big", "Syntax { line: 2 }"),
    (".set noreorder\n.byteorder little", "Syntax { line: 2 }"),
    (".globl a\n.byteorder little", "Syntax { line: 2 }"),
    (".equ a, 5\n.byteorder little", "Syntax { line: 2 }"),
    (".org 0x80000000\n.byteorder little", "Syntax { line: 2 }"),
    (".align 0\n.byteorder little", "Syntax { line: 2 }"),
    (".space 0\n.byteorder little", "Syntax { line: 2 }"),
    (".byte 1\n.byteorder little", "Syntax { line: 2 }"),
    (".ascii \"\"\n.byteorder little", "Syntax { line: 2 }"),
    (".byteorder little\n.byteorder little", "Syntax { line: 2 }"),
    (".byteorder big\n\n.byteorder little", "Syntax { line: 3 }"),
    // The order of faults: on a line before a name that stands twice, and before the second group.
    ("a: nop\na: .byteorder little", "Syntax { line: 2 }"),
    ("a: nop\na: nop\n.byteorder little", "Twice { line: 2 }"),
    (".word q\n.byteorder little", "Syntax { line: 2 }"),
];

#[test]
fn elsewhere(rt: HostRuntime) -> Result<(), Fail> {
    none_wrong(first_wrong(rt.alloc(), ELSEWHERE))
}

/// What names no byte order.
const UNNAMED: &[Row] = &[
    (".byteorder", "Syntax { line: 1 }"),
    (".byteorder LITTLE", "Syntax { line: 1 }"),
    (".byteorder Big", "Syntax { line: 1 }"),
    (".byteorder middle", "Syntax { line: 1 }"),
    (".byteorder littl", "Syntax { line: 1 }"),
    (".byteorder little.", "Syntax { line: 1 }"),
    (".byteorder little big", "Syntax { line: 1 }"),
    (".byteorder little, big", "Syntax { line: 1 }"),
    (".byteorder little,", "Syntax { line: 1 }"),
    (".byteorder \"little\"", "Syntax { line: 1 }"),
    (".byteorder 1", "Syntax { line: 1 }"),
    ("byteorder little", "Syntax { line: 1 }"),
];

#[test]
fn unnamed(rt: HostRuntime) -> Result<(), Fail> {
    none_wrong(first_wrong(rt.alloc(), UNNAMED))
}
