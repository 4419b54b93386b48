//! What an image holds, as a line of text, and what faults are called.

use brd_mem::{Image, Segment, Symbol};
use brd_word::Order;
use std::alloc::{AllocError, Global};
use std::fmt::Debug;

/// Puts each byte at the end, as two digits.
fn put_bytes(text: &mut String, bytes: &[u8]) -> Result<(), AllocError> {
    for byte in bytes {
        write!(text, "{byte:02x}")?;
    }
    Ok(())
}

/// Puts a name at the end.
fn put_name(text: &mut String, name: &[u8]) -> Result<(), AllocError> {
    for byte in name {
        text.push(char::from(*byte))?;
    }
    Ok(())
}

/// Puts each segment's address and bytes at the end.
fn put_segments(text: &mut String, segments: &[Segment]) -> Result<(), AllocError> {
    for segment in segments {
        let address = segment.address;
        write!(text, " {address:08x}:")?;
        put_bytes(text, segment.bytes.as_slice())?;
    }
    Ok(())
}

/// Puts each symbol's name and value at the end.
fn put_symbols(text: &mut String, symbols: &[Symbol]) -> Result<(), AllocError> {
    for symbol in symbols {
        let value = symbol.value;
        text.push(' ')?;
        put_name(text, symbol.name.as_slice())?;
        write!(text, "={value:08x}")?;
    }
    Ok(())
}

/// Puts the byte order at the end, unless it is big-endian.
fn put_order(text: &mut String, order: Order) -> Result<(), AllocError> {
    match order {
        Order::Big => Ok(()),
        Order::Little => text.push_str("little "),
    }
}

/// Puts what an image holds at the end.
fn put_image(text: &mut String, image: &Image) -> Result<(), AllocError> {
    let entry = image.entry;
    write!(text, "{entry:08x}")?;
    put_segments(text, image.segments.as_slice())?;
    put_symbols(text, image.symbols.as_slice())
}

/// Whether a segment has more bytes than that, so that a text as long as this doesn't show it. Large ones take long.
fn has_more_bytes(image: &Image, len: usize) -> bool {
    for segment in image.segments.as_slice() {
        if segment.bytes.len() > len {
            return true;
        }
    }
    false
}

/// Whether an image holds what this says: `little` where it is little-endian, the entry, each segment's address and
/// bytes, and each symbol with its value; numbers are hexadecimal.
pub fn shows(alloc: Global, image: &Image, wanted: &str) -> bool {
    if has_more_bytes(image, wanted.len()) {
        return false;
    }
    let mut text = String::new(alloc);
    put_order(&mut text, image.order).is_ok()
        && put_image(&mut text, image).is_ok()
        && text.as_str() == wanted
}

/// Whether an image is little-endian, and else holds what this says.
pub fn shows_little(alloc: Global, image: &Image, wanted: &str) -> bool {
    if image.order == Order::Big || has_more_bytes(image, wanted.len()) {
        return false;
    }
    let mut text = String::new(alloc);
    put_image(&mut text, image).is_ok() && text.as_str() == wanted
}

/// Whether a fault is called so, as `Range { line: 2 }`.
pub fn is_called<F: Debug>(alloc: Global, fault: &F, wanted: &str) -> bool {
    match format!(in alloc; "{fault:?}") {
        Ok(text) => text.as_str() == wanted,
        Err(_) => false,
    }
}
