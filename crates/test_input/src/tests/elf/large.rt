//! Large files, which a reader that gives up too early would refuse.

use super::put_segment;
use brd_elf::{fits, read};
use brd_mem::{Image, Segments, Symbol};
use std::alloc::{AllocError, Global};
use std::test::Fail;
use test_help::{none_wrong, put_words};

/// How many symbols there are, each with a name of its own of five digits.
const COUNT: u32 = 100_000;

/// Puts the header of a file of no segments and three sections at the end.
fn put_header(out: &mut Vec<u8>) -> Result<(), AllocError> {
    put_words(out, &[0x7f45_4c46, 0x0102_0100, 0, 0, 0x0002_0008, 1])?;
    put_words(out, &[0x8000_0000, 52, 69 + 22 * COUNT, 0])?;
    put_words(out, &[0x0034_0020, 0x0000_0028, 0x0003_0003])
}

/// Puts the symbols at the end, that of zeros first.
fn put_symbols(out: &mut Vec<u8>) -> Result<(), AllocError> {
    put_words(out, &[0, 0, 0, 0])?;
    for i in 0..COUNT {
        put_words(out, &[1 + 6 * i, i, 0, 0x1000_fff1])?;
    }
    Ok(())
}

/// The last digit of a number.
fn digit(number: u32) -> u8 {
    b'0' + (number % 10) as u8
}

/// Puts the last five digits of a number at the end, and a zero.
fn put_name(out: &mut Vec<u8>, number: u32) -> Result<(), AllocError> {
    out.extend_from_slice(&[
        digit(number / 10_000),
        digit(number / 1_000),
        digit(number / 100),
        digit(number / 10),
        digit(number),
        0,
    ])
}

/// Puts the strings of the symbols at the end.
fn put_strings(out: &mut Vec<u8>) -> Result<(), AllocError> {
    out.push(0)?;
    for i in 0..COUNT {
        put_name(out, i)?;
    }
    Ok(())
}

/// Puts the headers of three sections at the end.
fn put_sections(out: &mut Vec<u8>) -> Result<(), AllocError> {
    put_words(out, &[0; 10])?;
    put_words(out, &[0, 2, 0, 0, 52, 16 + 16 * COUNT, 2, 1, 4, 16])?;
    put_words(
        out,
        &[0, 3, 0, 0, 68 + 16 * COUNT, 1 + 6 * COUNT, 0, 0, 1, 0],
    )
}

/// Puts a file without segments at the end: a header, the symbols, their strings, and the headers of three sections.
fn put_file(out: &mut Vec<u8>) -> Result<(), AllocError> {
    put_header(out)?;
    put_symbols(out)?;
    put_strings(out)?;
    put_sections(out)
}

/// Symbols by their places, which are their values, and their names.
const NAMES: &[(usize, &[u8])] = &[(0, b"00000"), (65_536, b"65536"), (99_999, b"99999")];

/// The first of `NAMES` that these symbols don't have.
fn first_wrong_name(symbols: &[Symbol]) -> Option<usize> {
    for (row, (place, name)) in NAMES.iter().enumerate() {
        let Some(symbol) = symbols.get(*place) else {
            return Some(row);
        };
        if symbol.name.as_slice() != *name || symbol.value as usize != *place {
            return Some(row);
        }
    }
    None
}

/// Whether a file has `COUNT` symbols, and among them those of `NAMES`.
fn has_names(alloc: Global, file: &[u8]) -> bool {
    match read(alloc, file) {
        Ok(image) => {
            image.symbols.len() == 100_000 && first_wrong_name(image.symbols.as_slice()).is_none()
        }
        Err(_) => false,
    }
}

#[test]
fn as_many_names_as_symbols(rt: HostRuntime) {
    let mut file = Vec::new(rt.alloc());
    let is_put = put_file(&mut file).is_ok();
    assert!(rt; is_put && has_names(rt.alloc(), file.as_slice()));
}

/// How many segments an image has, and whether it fits: one more than a file can have is too many, while the file is
/// short by far.
const COUNTS: &[(u32, bool)] = &[(0, true), (65_534, true), (65_535, false)];

/// Puts n segments of one byte each at the end. Says whether there was memory for them.
fn put_segments(alloc: Global, out: &mut Segments, count: u32) -> bool {
    for i in 0..count {
        if !put_segment(alloc, out, 0x8000_0000 + i % 0x100_0000, b"a") {
            return false;
        }
    }
    true
}

/// Whether an image of n segments fits or doesn't, as it should.
fn is_right(alloc: Global, count: u32, is_fit: bool) -> bool {
    match Image::from_words(alloc, &[]) {
        Ok(mut image) => {
            put_segments(alloc, &mut image.segments, count) && fits(&image) == is_fit
        }
        Err(_) => false,
    }
}

/// The first of `COUNTS` that isn't so.
fn first_wrong_count(alloc: Global) -> Option<u32> {
    for (count, is_fit) in COUNTS {
        if !is_right(alloc, *count, *is_fit) {
            return Some(*count);
        }
    }
    None
}

#[test]
fn as_many_segments_as_fit(rt: HostRuntime) -> Result<(), Fail> {
    none_wrong(first_wrong_count(rt.alloc()))
}
