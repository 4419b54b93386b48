//! Every front of a source and of lines, and these with each byte changed: each has an answer. What single lines say
//! stands in tests/lines.table.

use super::super::changed::{Answer, Language, answer_of, changes, fronts};
use super::every::SOURCE;
use std::alloc::Global;
use std::test::Fail;
use test_help::none_wrong;

/// The bytes that each byte of the source is changed to.
const IN_SOURCE: &[u8] = &[b':', b',', b'"', b'#', b'\n', 0, 0xff];

#[test]
fn cut_and_changed_source(rt: HostRuntime) -> Result<(), Fail> {
    let source = SOURCE.as_bytes();
    none_wrong(fronts(rt.alloc(), Language::Source, source).err())?;
    none_wrong(changes(rt.alloc(), Language::Source, source, IN_SOURCE).err())
}

/// Lines, each of which has a form.
const LINES: &[&str] = &[
    "a: b1 :\taddiu $t0, $s8, %lo ( data+-0x1f ) // all of it",
    "loop: PREF 30 , 4 ( $31 )# all of it",
    ".word 1, -2, a+3,b-0x0,0xFFFFFFFF # values",
    "text: .asciiz \"a\\n\\t\\0\\\\\\\" # // \" // text",
];

/// The bytes that each byte of a line is changed to.
const IN_LINES: &[u8] = &[b':', b',', b'"', b'#', 0, 0xFF];

/// Whether a line has a form, and each of its fronts an answer.
fn is_answered_cut(alloc: Global, line: &[u8]) -> bool {
    matches!(answer_of(alloc, Language::Source, line), Answer::Fine)
        && fronts(alloc, Language::Source, line).is_ok()
}

/// Whether each change of a line has an answer, and more than 20 leave it a form: changes in comments and strings do,
/// and comments in front of what may be left out.
fn is_answered_changed(alloc: Global, line: &[u8]) -> bool {
    match changes(alloc, Language::Source, line, IN_LINES) {
        Ok(fine) => fine > 20,
        Err(_) => false,
    }
}

/// The first of `LINES` that isn't answered rightly when it is cut, or changed.
fn first_wrong(alloc: Global) -> Option<usize> {
    for (row, line) in LINES.iter().enumerate() {
        let text = line.as_bytes();
        if !is_answered_cut(alloc, text) || !is_answered_changed(alloc, text) {
            return Some(row);
        }
    }
    None
}

#[test]
fn cut_and_changed_lines(rt: HostRuntime) -> Result<(), Fail> {
    none_wrong(first_wrong(rt.alloc()))
}
