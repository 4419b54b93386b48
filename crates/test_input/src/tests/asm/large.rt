//! Sources that are larger than what any list, map or tree begins with.

use super::super::numbered::put_all;
use brd_asm::assemble;
use brd_mem::{Image, Segment, Symbol};
use std::alloc::{AllocError, Global};

/// How many names, and how many stretches of bytes.
const MANY: u32 = 100_000;

/// The address of a stretch by its number: each is of a byte, with a gap after it.
fn place_of(number: u32) -> u32 {
    0x8000_0000u32.wrapping_add(number.wrapping_mul(2))
}

/// Whether each segment is one byte in its place.
fn are_single_bytes(segments: &[Segment]) -> bool {
    let mut number = 0u32;
    for segment in segments {
        if segment.address != place_of(number) || segment.bytes.as_slice() != [1].as_slice() {
            return false;
        }
        number = number.wrapping_add(1);
    }
    true
}

/// Whether a symbol is called `n` and this number.
fn has_number(alloc: Global, symbol: &Symbol, number: u32) -> bool {
    match format!(in alloc; "n{number}") {
        Ok(name) => symbol.name.as_slice() == name.as_bytes(),
        Err(_) => false,
    }
}

/// Whether each symbol is called by its number, and its place is its value.
fn are_places(alloc: Global, symbols: &[Symbol]) -> bool {
    let mut number = 0u32;
    for symbol in symbols {
        if symbol.value != place_of(number) || !has_number(alloc, symbol, number) {
            return false;
        }
        number = number.wrapping_add(1);
    }
    true
}

/// Whether an image has `MANY` segments and symbols, each as it should be.
fn has_many(alloc: Global, image: &Image) -> bool {
    image.segments.len() == MANY as usize
        && image.symbols.len() == MANY as usize
        && are_single_bytes(image.segments.as_slice())
        && are_places(alloc, image.symbols.as_slice())
}

/// Whether a source is that of `MANY` names.
fn is_of_many(alloc: Global, source: &str) -> bool {
    match assemble(alloc, source.as_bytes()) {
        Ok(image) => has_many(alloc, &image),
        Err(_) => false,
    }
}

/// 100,000 names, each of a byte with a gap after it.
#[test]
fn many_names(rt: HostRuntime) {
    let mut source = String::new(rt.alloc());
    let is_put = put_all(&mut source, "n#: .byte 1\n.org n#+2\n", 0, MANY - 1).is_ok();
    assert!(rt; is_put && is_of_many(rt.alloc(), source.as_str()));
}

/// Puts a word at the end, and one after 1,000 labels of its line.
fn put_line(source: &mut String) -> Result<(), AllocError> {
    source.push_str("nop\n")?;
    put_all(source, "l#:", 0, 999)?;
    source.push_str(" .word l999\n")
}

/// Whether each symbol has this value.
fn have_value(symbols: &[Symbol], value: u32) -> bool {
    for symbol in symbols {
        if symbol.value != value {
            return false;
        }
    }
    true
}

/// Whether an image has two words and 1,000 names of the second one.
fn has_labels(image: &Image) -> bool {
    let [segment] = image.segments.as_slice() else {
        return false;
    };
    image.symbols.len() == 1_000
        && have_value(image.symbols.as_slice(), 0x8000_0004)
        && segment.bytes.as_slice() == [0, 0, 0, 0, 0x80, 0, 0, 4].as_slice()
}

/// Whether a source is that of two words and 1,000 names.
fn is_of_labels(alloc: Global, source: &str) -> bool {
    match assemble(alloc, source.as_bytes()) {
        Ok(image) => has_labels(&image),
        Err(_) => false,
    }
}

/// 1,000 labels on one line.
#[test]
fn many_labels_on_a_line(rt: HostRuntime) {
    let mut source = String::new(rt.alloc());
    let is_put = put_line(&mut source).is_ok();
    assert!(rt; is_put && is_of_labels(rt.alloc(), source.as_str()));
}

/// How many values stand on a line.
const VALUES: u32 = 10_000;

/// Puts `VALUES` halfwords on one line: 0, 1, 2 and so on.
fn put_values(source: &mut String) -> Result<(), AllocError> {
    source.push_str(".half 0")?;
    put_all(source, ", #", 1, VALUES - 1)?;
    source.push_str("\n")
}

/// Whether bytes are the halfwords 0, 1, 2 and so on, the high byte first.
fn count_up(bytes: &[u8]) -> bool {
    for (place, byte) in bytes.iter().enumerate() {
        let [high, low] = ((place / 2 % 65_536) as u16).to_be_bytes();
        if *byte != (if place % 2 == 0 { high } else { low }) {
            return false;
        }
    }
    true
}

/// Whether an image is one segment of `VALUES` halfwords that count up.
fn has_values(image: &Image) -> bool {
    let [segment] = image.segments.as_slice() else {
        return false;
    };
    segment.bytes.len() == 2 * VALUES as usize && count_up(segment.bytes.as_slice())
}

/// Whether a source is that of `VALUES` halfwords.
fn is_of_values(alloc: Global, source: &str) -> bool {
    match assemble(alloc, source.as_bytes()) {
        Ok(image) => has_values(&image),
        Err(_) => false,
    }
}

/// 10,000 values on one line.
#[test]
fn many_values_on_a_line(rt: HostRuntime) {
    let mut source = String::new(rt.alloc());
    let is_put = put_values(&mut source).is_ok();
    assert!(rt; is_put && is_of_values(rt.alloc(), source.as_str()));
}

/// Puts a string of 100,000 letters, with a byte 0 after it.
fn put_text(source: &mut String) -> Result<(), AllocError> {
    source.push_str(".asciiz \"")?;
    put_all(source, "a", 1, MANY)?;
    source.push_str("\"\n")
}

/// Whether bytes are `MANY` letters and a 0.
fn are_letters(bytes: &[u8]) -> bool {
    for (place, byte) in bytes.iter().enumerate() {
        if *byte != (if place < MANY as usize { b'a' } else { 0 }) {
            return false;
        }
    }
    bytes.len() == MANY as usize + 1
}

/// Whether a source is that of `MANY` letters.
fn is_of_letters(alloc: Global, source: &str) -> bool {
    match assemble(alloc, source.as_bytes()) {
        Ok(image) => match image.segments.as_slice() {
            [segment] => are_letters(segment.bytes.as_slice()),
            _ => false,
        },
        Err(_) => false,
    }
}

/// A string of 100,000 bytes.
#[test]
fn a_long_string(rt: HostRuntime) {
    let mut source = String::new(rt.alloc());
    let is_put = put_text(&mut source).is_ok();
    assert!(rt; is_put && is_of_letters(rt.alloc(), source.as_str()));
}
