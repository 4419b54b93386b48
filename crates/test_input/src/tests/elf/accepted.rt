//! Files that look odd and are accepted.

use super::{
    ASSEMBLED, ASSEMBLED_SHOWN, Row, SHORT, SHORT_SHOWN, UNNAMED_SHOWN, first_wrong, is_read_as,
    put_changes,
};
use std::alloc::{AllocError, Global};
use std::test::Fail;
use test_help::none_wrong;

/// A change of `SHORT` that looks odd and is accepted, and what is read then.
const SHORT_ACCEPTED: &[Row] = &[
    // No program headers, whatever their size; section headers of a wrong size, but none.
    (&[(45, 0), (43, 31)], "80000000"),
    (&[(47, 39), (32, 1)], SHORT_SHOWN),
    // Skipped: the table begins at the ELF header, whose first word is no type that is known.
    (&[(31, 0), (45, 1)], "80000000"),
    // No bytes in the file, at an offset after its end.
    (&[(56, 0xff), (71, 0)], "80000000 80000100:0000000000000000"),
    // Nothing in memory either.
    (&[(71, 0), (75, 0)], "80000000"),
];

#[test]
fn changes_of_the_short_file(rt: HostRuntime) -> Result<(), Fail> {
    none_wrong(first_wrong(rt.alloc(), &SHORT, SHORT_ACCEPTED))
}

/// What is read from `ASSEMBLED` where its second symbol is none.
const START_SHOWN: &str = "80000000 80000000:3c0880008d09000c0000000000000007 _start=80000000";

/// The same of `ASSEMBLED`.
const ASSEMBLED_ACCEPTED: &[Row] = &[
    // A symbol of no section, also with a bad name; a second one of the same name; an empty name.
    (&[(146, 0), (147, 0), (132, 0xff)], START_SHOWN),
    (&[(135, 1)], START_SHOWN),
    (&[(135, 9)], START_SHOWN),
    (&[(135, 0)], START_SHOWN),
    // The end of another name is a name.
    (
        &[(135, 6)],
        "80000000 80000000:3c0880008d09000c0000000000000007 _start=80000000 t=8000000c",
    ),
    // No sections, no symbol table, an empty one after the end of the file.
    (&[(49, 0)], UNNAMED_SHOWN),
    (&[(34, 0), (35, 0)], UNNAMED_SHOWN),
    (&[(235, 11)], UNNAMED_SHOWN),
    (&[(251, 0), (244, 0xff)], UNNAMED_SHOWN),
    // Of two symbol tables the first counts: section 1 before section 3, and section 0, with one symbol less,
    // before section 1.
    (&[(315, 2)], ASSEMBLED_SHOWN),
    (
        &[(195, 2), (207, 0x64), (211, 0x20), (215, 2), (227, 16)],
        START_SHOWN,
    ),
    // The strings are section 0.
    (
        &[(195, 3), (207, 0x94), (211, 10), (255, 0)],
        ASSEMBLED_SHOWN,
    ),
    // The strings begin where the symbols do, and all names lie after the symbols.
    (
        &[(287, 0x64), (291, 0x3a), (119, 0x31), (135, 0x38)],
        ASSEMBLED_SHOWN,
    ),
];

#[test]
fn changes_of_the_assembled_file(rt: HostRuntime) -> Result<(), Fail> {
    none_wrong(first_wrong(rt.alloc(), &ASSEMBLED, ASSEMBLED_ACCEPTED))
}

/// The strings begin where the symbols do, and a name lies among the symbols.
const AMONG_SYMBOLS: &[(usize, u8)] = &[
    (287, 0x64),
    (291, 0x3a),
    (119, 28),
    (128, b'x'),
    (135, 0x38),
];

#[test]
fn a_name_among_the_symbols(rt: HostRuntime) {
    let mut file = ASSEMBLED;
    put_changes(&mut file, AMONG_SYMBOLS);
    assert!(rt;
        is_read_as(
            rt.alloc(),
            &file,
            "80000000 80000000:3c0880008d09000c0000000000000007 x=80000000 d=8000000c",
        )
    );
}

/// The strings `ab`, `xab` and again `ab` in the place of those of `ASSEMBLED`.
const STRINGS: &[(usize, u8)] = &[
    (149, b'a'),
    (150, b'b'),
    (151, 0),
    (152, b'x'),
    (153, b'a'),
    (154, b'b'),
    (155, 0),
];

/// Where the names of two symbols begin in them, and what is read then. Equal strings are one name, wherever they stand
/// or begin.
const NAMES: &[Row] = &[
    (
        &[(119, 1), (135, 1)],
        "80000000 80000000:3c0880008d09000c0000000000000007 ab=80000000",
    ),
    (
        &[(119, 1), (135, 5)],
        "80000000 80000000:3c0880008d09000c0000000000000007 ab=80000000",
    ),
    (
        &[(119, 5), (135, 1)],
        "80000000 80000000:3c0880008d09000c0000000000000007 ab=80000000",
    ),
    (
        &[(119, 4), (135, 5)],
        "80000000 80000000:3c0880008d09000c0000000000000007 xab=80000000 ab=8000000c",
    ),
    (
        &[(119, 5), (135, 4)],
        "80000000 80000000:3c0880008d09000c0000000000000007 ab=80000000 xab=8000000c",
    ),
    (
        &[(119, 6), (135, 2)],
        "80000000 80000000:3c0880008d09000c0000000000000007 b=80000000",
    ),
    (
        &[(119, 2), (135, 1)],
        "80000000 80000000:3c0880008d09000c0000000000000007 b=80000000 ab=8000000c",
    ),
    (
        &[(119, 1), (135, 6)],
        "80000000 80000000:3c0880008d09000c0000000000000007 ab=80000000 b=8000000c",
    ),
    (
        &[(119, 3), (135, 7)],
        "80000000 80000000:3c0880008d09000c0000000000000007",
    ),
    (
        &[(119, 0), (135, 5)],
        "80000000 80000000:3c0880008d09000c0000000000000007 ab=8000000c",
    ),
];

#[test]
fn equal_names_at_other_places(rt: HostRuntime) -> Result<(), Fail> {
    let mut file = ASSEMBLED;
    put_changes(&mut file, STRINGS);
    none_wrong(first_wrong(rt.alloc(), &file, NAMES))
}

/// `ASSEMBLED` with as many section headers as there can be, all but the first four of zeros.
fn put_all_sections(file: &mut Vec<u8>) -> Result<(), AllocError> {
    file.extend_from_slice(&ASSEMBLED)?;
    put_changes(file.as_mut_slice(), &[(48, 0xff), (49, 0xff)]);
    file.resize(188 + 40 * 65_535, 0)
}

/// Whether a file is read as `ASSEMBLED` is, and without its last byte has too few section headers.
fn has_just_enough(alloc: Global, file: &[u8]) -> bool {
    match file.split_last() {
        Some((_, cut)) => {
            is_read_as(alloc, file, ASSEMBLED_SHOWN)
                && is_read_as(alloc, cut, "Truncated { at: 32 }")
        }
        None => false,
    }
}

/// 65,535 section headers are as many as that, and no mark of anything else; one byte less is too few.
#[test]
fn as_many_sections_as_there_can_be(rt: HostRuntime) {
    let mut file = Vec::new(rt.alloc());
    let is_put = put_all_sections(&mut file).is_ok();
    assert!(rt; is_put && has_just_enough(rt.alloc(), file.as_slice()));
}
