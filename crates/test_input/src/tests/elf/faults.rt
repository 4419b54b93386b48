//! Which fault a file has, and which one comes first.

use super::{ASSEMBLED, Row, SHORT, first_wrong};
use brd_elf::ElfFault;
use std::test::Fail;
use test_help::{first_wrong_text, none_wrong, put_byte};

/// A change of `SHORT`, and what is read then.
const SHORT_FAULTS: &[Row] = &[
    (&[(4, 2)], "Unsupported { at: 4 }"),
    (&[(5, 0)], "Unsupported { at: 5 }"),
    (&[(5, 3)], "Unsupported { at: 5 }"),
    (&[(5, 0xff)], "Unsupported { at: 5 }"),
    // The fields are in the other order: e_type is 0x0200. No flag says otherwise.
    (&[(5, 1)], "Unsupported { at: 16 }"),
    (&[(5, 1), (36, 1), (39, 1)], "Unsupported { at: 16 }"),
    (&[(4, 2), (5, 3)], "Unsupported { at: 4 }"),
    (&[(5, 3), (6, 0)], "Unsupported { at: 5 }"),
    (&[(6, 0)], "Unsupported { at: 6 }"),
    (&[(17, 1)], "Unsupported { at: 16 }"),
    (&[(19, 9)], "Unsupported { at: 18 }"),
    (&[(23, 2)], "Unsupported { at: 20 }"),
    (
        &[(44, 0xff), (45, 0xff), (43, 31)],
        "Unsupported { at: 44 }",
    ),
    (&[(44, 0xff), (45, 0xff)], "Unsupported { at: 44 }"),
    (&[(55, 2)], "Unsupported { at: 52 }"),
    (&[(55, 3)], "Unsupported { at: 52 }"),
    (&[(43, 31)], "Sizes { at: 42 }"),
    (&[(75, 2)], "Sizes { at: 52 }"),
    (&[(45, 3)], "Truncated { at: 28 }"),
    (&[(28, 0xff)], "Truncated { at: 28 }"),
    (&[(59, 0x75)], "Truncated { at: 52 }"),
    // Offsets next to 2^32: of the program headers, of a segment's bytes, of the section headers.
    (
        &[(28, 0xff), (29, 0xff), (30, 0xff), (31, 0xff)],
        "Truncated { at: 28 }",
    ),
    (
        &[(56, 0xff), (57, 0xff), (58, 0xff), (59, 0xff)],
        "Truncated { at: 52 }",
    ),
    (
        &[
            (32, 0xff),
            (33, 0xff),
            (34, 0xff),
            (35, 0xff),
            (47, 40),
            (49, 1),
        ],
        "Truncated { at: 32 }",
    ),
    (&[(60, 0x7f)], "Outside { at: 52 }"),
    // Bytes up to 2^32 - 1 and up to 2^32 exactly, and one more.
    (
        &[(60, 0xff), (61, 0xff), (62, 0xff), (63, 0xf7)],
        "Outside { at: 52 }",
    ),
    (
        &[(60, 0xff), (61, 0xff), (62, 0xff), (63, 0xf8)],
        "Outside { at: 52 }",
    ),
    (
        &[(60, 0xff), (61, 0xff), (62, 0xff), (63, 0xf9)],
        "Sizes { at: 52 }",
    ),
    // The last address, and one more.
    (
        &[(61, 0xff), (62, 0xff), (63, 0xf8)],
        "80000000 80fffff8:aabbcc0000000000",
    ),
    (&[(61, 0xff), (62, 0xff), (63, 0xf9)], "Outside { at: 52 }"),
    // Each program header whole: the first one's address comes before the second one's type.
    (&[(60, 0x7f), (84, 0), (87, 2)], "Outside { at: 52 }"),
    (&[(84, 0), (87, 2)], "Unsupported { at: 84 }"),
];

#[test]
fn of_the_short_file(rt: HostRuntime) -> Result<(), Fail> {
    none_wrong(first_wrong(rt.alloc(), &SHORT, SHORT_FAULTS))
}

/// The same of `ASSEMBLED`.
const ASSEMBLED_FAULTS: &[Row] = &[
    (&[(267, 15)], "Symbols { at: 228 }"),
    (&[(251, 49)], "Symbols { at: 228 }"),
    (&[(255, 1)], "Symbols { at: 228 }"),
    (&[(255, 4)], "Symbols { at: 228 }"),
    (&[(244, 0xff)], "Symbols { at: 228 }"),
    (&[(284, 0xff)], "Symbols { at: 228 }"),
    (&[(157, 0x78)], "Symbols { at: 132 }"),
    (&[(135, 10)], "Symbols { at: 132 }"),
    (&[(132, 0xff)], "Symbols { at: 132 }"),
    (&[(47, 39)], "Sizes { at: 46 }"),
    // 65,535 section headers.
    (&[(48, 0xff), (49, 0xff)], "Truncated { at: 32 }"),
    // Offsets next to 2^32: of the symbols, of the strings, of a name.
    (
        &[(244, 0xff), (245, 0xff), (246, 0xff), (247, 0xff)],
        "Symbols { at: 228 }",
    ),
    (
        &[(284, 0xff), (285, 0xff), (286, 0xff), (287, 0xff)],
        "Symbols { at: 228 }",
    ),
    (
        &[(132, 0xff), (133, 0xff), (134, 0xff), (135, 0xff)],
        "Symbols { at: 132 }",
    ),
    // Section 0 is the symbol table, with its strings in section 0.
    (
        &[(195, 2), (207, 0x64), (211, 0x30), (215, 0), (227, 16)],
        "Symbols { at: 188 }",
    ),
];

#[test]
fn of_the_assembled_file(rt: HostRuntime) -> Result<(), Fail> {
    none_wrong(first_wrong(rt.alloc(), &ASSEMBLED, ASSEMBLED_FAULTS))
}

/// Where the second header's segment begins, and what is read then.
const OVERLAPS: &[Row] = &[
    (&[(95, 0)], "Overlap { at: 84 }"),
    (&[(95, 7)], "Overlap { at: 84 }"),
    (
        &[(95, 8)],
        "80000000 80000100:aabbcc0000000000 80000108:aabbcc0000000000",
    ),
    (&[(94, 0), (95, 0xf9)], "Overlap { at: 84 }"),
    (
        &[(94, 0), (95, 0xf8)],
        "80000000 80000100:aabbcc0000000000 800000f8:aabbcc0000000000",
    ),
];

/// Puts the first program header of `SHORT` in the place of the second one, too.
fn double(file: &mut [u8]) {
    for (place, byte) in SHORT[52..84].iter().enumerate() {
        put_byte(file, place + 84, *byte);
    }
}

/// A second header that loads what the first one does, or next to it: below, and above by one byte too little.
#[test]
fn overlaps(rt: HostRuntime) -> Result<(), Fail> {
    let mut file = SHORT;
    double(&mut file);
    none_wrong(first_wrong(rt.alloc(), &file, OVERLAPS))
}

/// Each fault, as it reads.
const TEXTS: &[(ElfFault, &str)] = &[
    (ElfFault::NoMemory, "out of memory"),
    (
        ElfFault::NotElf,
        "no ELF file: it doesn't begin with the bytes 7F 45 4C 46",
    ),
    (
        ElfFault::Unsupported { at: 18 },
        "offset 18: a value that isn't supported; wanted is a static ELF32 executable for MIPS",
    ),
    (
        ElfFault::Truncated { at: 52 },
        "offset 52: the header or field here needs bytes past the end of the file",
    ),
    (
        ElfFault::Sizes { at: 42 },
        "offset 42: a size given here is wrong: of a table's headers, or of a segment",
    ),
    (
        ElfFault::Overlap { at: 84 },
        "offset 84: the segment of this program header overlaps an earlier one",
    ),
    (
        ElfFault::Outside { at: 84 },
        "offset 84: the segment of this program header isn't within 0x80000000 to 0x80ffffff",
    ),
    (
        ElfFault::Symbols { at: 228 },
        "offset 228: this symbol table, or the name of this symbol, is wrong",
    ),
];

#[test]
fn texts(rt: HostRuntime) -> Result<(), Fail> {
    none_wrong(first_wrong_text(rt.alloc(), TEXTS))
}
