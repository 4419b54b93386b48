//! What the tests of several crates share.
#![tactic(auto)]

mod rows;

pub use rows::{put_line, put_unescaped, row_of, unescaped};
use std::alloc::{AllocError, Global};
use std::fmt::{Debug, Display};
use std::test::Fail;

/// A test's failure where something is wrong, which says what: a row by its number from 0 on, or a value.
pub fn none_wrong<T: Debug + Drop>(wrong: Option<T>) -> Result<(), Fail> {
    match wrong {
        None => Ok(()),
        Some(what) => Err(Fail::from(what)),
    }
}

/// Whether a value reads so.
pub fn reads<F: Display>(alloc: Global, value: &F, wanted: &str) -> bool {
    match format!(in alloc; "{value}") {
        Ok(text) => text.as_str() == wanted,
        Err(_) => false,
    }
}

/// The first of these values that reads otherwise.
pub fn first_wrong_text<F: Display>(alloc: Global, rows: &[(F, &str)]) -> Option<usize> {
    for (row, (value, text)) in rows.iter().enumerate() {
        if !reads(alloc, value, *text) {
            return Some(row);
        }
    }
    None
}

/// Whether a text has a line of this number. Lines are counted from 1.
pub fn has_line(text: &[u8], line: usize) -> bool {
    let mut lines = 1usize;
    for byte in text {
        if *byte == b'\n' {
            lines = lines.saturating_add(1);
        }
    }
    1 <= line && line <= lines
}

/// Puts a byte into a place of a text, if it has that place.
pub fn put_byte(text: &mut [u8], place: usize, byte: u8) {
    if let Some(slot) = text.get_mut(place) {
        *slot = byte;
    }
}

/// Puts words at the end, the highest byte of each first.
pub fn put_words(out: &mut Vec<u8>, words: &[u32]) -> Result<(), AllocError> {
    for word in words {
        out.extend_from_slice(&word.to_be_bytes())?;
    }
    Ok(())
}
