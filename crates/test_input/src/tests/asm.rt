//! Sources.

use super::shown::{is_called, shows};
use brd_asm::assemble;
use std::alloc::{AllocError, Global};
use std::test::Fail;
use test_help::none_wrong;

mod changed;
mod every;
mod faults;
mod large;
mod order;

/// A source, and its answer: the fault, or what its image holds.
type Row = (&'static str, &'static str);

/// Whether a source has this answer.
fn has_answer(alloc: Global, source: &str, answer: &str) -> bool {
    match assemble(alloc, source.as_bytes()) {
        Ok(image) => shows(alloc, &image, answer),
        Err(fault) => is_called(alloc, &fault, answer),
    }
}

/// The first of these rows whose source has another answer.
fn first_wrong(alloc: Global, rows: &[Row]) -> Option<usize> {
    for (row, (source, answer)) in rows.iter().enumerate() {
        if !has_answer(alloc, *source, *answer) {
            return Some(row);
        }
    }
    None
}

/// Four words: `%hi` and `%lo` of a label, a load, a value.
const HIGH_AND_LOW: &[Row] = &[(
    "_start: lui $t0, %hi(d)\nlw $t1, %lo(d)($t0)\nnop\nd: .word 7\n",
    "80000000 80000000:3c0880008d09000c0000000000000007 _start=80000000 d=8000000c",
)];

#[test]
fn high_and_low(rt: HostRuntime) -> Result<(), Fail> {
    none_wrong(first_wrong(rt.alloc(), HIGH_AND_LOW))
}

/// The farthest targets of branches, and those past them.
const BRANCHES: &[Row] = &[
    (
        ".org 0x80800000\nb 0x80820000",
        "80000000 80800000:10007fff",
    ),
    (".org 0x80800000\nb 0x80820004", "Range { line: 2 }"),
    (
        ".org 0x80800000\nb 0x807e0004",
        "80000000 80800000:10008000",
    ),
    (".org 0x80800000\nb 0x807e0000", "Range { line: 2 }"),
    (".org 0x80800000\nb 0x80820001", "Range { line: 2 }"),
    (".org 0x80800000\nb 0x80820003", "Range { line: 2 }"),
    (".org 0x80800000\nb 0x8081ffff", "Misaligned { line: 2 }"),
    (".org 0x80800000\nb 0x807e0005", "Misaligned { line: 2 }"),
    (".org 0x80800000\nb 0x807e0003", "Range { line: 2 }"),
];

#[test]
fn branches(rt: HostRuntime) -> Result<(), Fail> {
    none_wrong(first_wrong(rt.alloc(), BRANCHES))
}

/// Puts each word at the end, as eight digits.
fn put_words(text: &mut String, words: &[u32]) -> Result<(), AllocError> {
    for word in words {
        write!(text, "{word:08x}")?;
    }
    Ok(())
}

/// Puts what the image of `every::SOURCE` holds at the end.
fn put_every(text: &mut String) -> Result<(), AllocError> {
    text.push_str("80000800 80000000:")?;
    put_words(text, &every::WORDS)?;
    text.push_str(" 80000800:")?;
    put_words(text, &every::FAR)?;
    text.push_str(every::SYMBOLS)
}

/// Every mnemonic, one-word form and directive.
#[test]
fn every_statement(rt: HostRuntime) {
    let mut answer = String::new(rt.alloc());
    let is_put = put_every(&mut answer).is_ok();
    assert!(rt; is_put && has_answer(rt.alloc(), every::SOURCE, answer.as_str()));
}

/// What stands at a word of `every::WORDS` where the source is little-endian, most significant byte first.
fn little_word(number: usize, word: u32) -> u32 {
    let [a, b, c, d] = word.to_be_bytes();
    if number < every::HALVES_AT {
        u32::from_be_bytes([d, c, b, a])
    } else if number < every::BYTES_AT {
        u32::from_be_bytes([b, a, d, c])
    } else {
        word
    }
}

/// Puts what each word is where the source is little-endian at the end, as eight digits.
fn put_little_words(text: &mut String, words: &[u32]) -> Result<(), AllocError> {
    for (number, word) in words.iter().enumerate() {
        let word = little_word(number, *word);
        write!(text, "{word:08x}")?;
    }
    Ok(())
}

/// Puts what the image of `every::SOURCE` holds at the end, where it is little-endian.
fn put_little_every(text: &mut String) -> Result<(), AllocError> {
    text.push_str("little 80000800 80000000:")?;
    put_little_words(text, &every::WORDS)?;
    text.push_str(" 80000800:")?;
    put_little_words(text, &every::FAR)?;
    text.push_str(every::SYMBOLS)
}

/// Puts `every::SOURCE` at the end, after a line that says that it is little-endian.
fn put_little_source(text: &mut String) -> Result<(), AllocError> {
    text.push_str(".byteorder little\n")?;
    text.push_str(every::SOURCE)
}

/// The same of a little-endian source.
#[test]
fn every_little_statement(rt: HostRuntime) {
    let mut source = String::new(rt.alloc());
    let mut answer = String::new(rt.alloc());
    let is_put = put_little_source(&mut source).is_ok() && put_little_every(&mut answer).is_ok();
    assert!(rt; is_put && has_answer(rt.alloc(), source.as_str(), answer.as_str()));
}
