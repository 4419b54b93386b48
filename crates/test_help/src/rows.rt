//! Rows, which programs read from their file `stdin` (docs/dev/GATE.md, "Rows").

use brd_text::hex_value;
use std::alloc::{AllocError, Global};

/// The word of the row that a line is, and the text after it as it stands. `None` for a comment.
pub fn row_of(line: &str) -> Option<(&str, &str)> {
    if line.is_empty() || line.starts_with("#") {
        return None;
    }
    Some(line.split_once(" ").unwrap_or((line, "")))
}

/// What the byte before has begun.
#[derive(Clone, Copy)]
enum Escape {
    Nothing,
    Backslash,
    Hexadecimal,
    HexadecimalDigit(u8),
}

/// The byte of two hexadecimal digits, or 0.
fn byte_of(high: u8, low: u8) -> u8 {
    match (hex_value(high), hex_value(low)) {
        (Some(high), Some(low)) => (16 * high + low) as u8,
        _ => 0,
    }
}

/// What a byte after a backslash begins, and the byte that both stand for, if they do.
fn escaped(byte: u8) -> (Escape, Option<u8>) {
    match byte {
        b'n' => (Escape::Nothing, Some(b'\n')),
        b'r' => (Escape::Nothing, Some(b'\r')),
        b't' => (Escape::Nothing, Some(b'\t')),
        b'0' => (Escape::Nothing, Some(0)),
        b'x' => (Escape::Hexadecimal, None),
        _ => (Escape::Nothing, Some(byte)),
    }
}

/// The same of a byte after what the one before has begun.
fn read_byte(escape: Escape, byte: u8) -> (Escape, Option<u8>) {
    match escape {
        Escape::Nothing if byte == b'\\' => (Escape::Backslash, None),
        Escape::Nothing => (Escape::Nothing, Some(byte)),
        Escape::Backslash => escaped(byte),
        Escape::Hexadecimal => (Escape::HexadecimalDigit(byte), None),
        Escape::HexadecimalDigit(high) => (Escape::Nothing, Some(byte_of(high, byte))),
    }
}

/// Puts the bytes that a row's text stands for at the end.
pub fn put_unescaped(bytes: &mut Vec<u8>, text: &str) -> Result<(), AllocError> {
    let mut escape = Escape::Nothing;
    for byte in text.as_bytes() {
        let (begun, stands_for) = read_byte(escape, *byte);
        escape = begun;
        if let Some(byte) = stands_for {
            bytes.push(byte)?;
        }
    }
    Ok(())
}

/// The bytes that a row's text stands for.
pub fn unescaped(alloc: Global, text: &str) -> Result<Vec<u8>, AllocError> {
    let mut bytes = Vec::new(alloc);
    put_unescaped(&mut bytes, text)?;
    Ok(bytes)
}

/// Puts the bytes that a row's text stands for and a newline at the end.
pub fn put_line(bytes: &mut Vec<u8>, text: &str) -> Result<(), AllocError> {
    put_unescaped(bytes, text)?;
    bytes.push(b'\n')?;
    Ok(())
}
