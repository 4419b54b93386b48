//! What is said of an event, without the columns that stand before it in a line of a trace.

use brd_base::NoMemory;
use brd_listing::Places;
use itoa::Buffer;
use std::alloc::Global;

/// How wide the columns before the place are, with the position's least width.
const COLUMNS: usize = 26;

/// The least width of a position.
const POSITION: usize = 10;

/// What a line of a trace says of the event of a position, which was at a place.
pub(crate) fn words_of(
    alloc: Global,
    line: &[u8],
    symbols: &Places,
    position: u64,
    place: Option<u32>,
) -> Result<Vec<u8>, NoMemory> {
    let rest = without_front(line, columns_before(position));
    let rest = match place {
        Some(place) => {
            let mut name = Vec::new(alloc);
            symbols.write(place, &mut name)?;
            without_name(rest, &name)
        }
        None => rest,
    };
    Ok(Vec::from_slice(alloc, trimmed(rest))?)
}

/// How wide the columns before the place are.
fn columns_before(position: u64) -> usize {
    let mut buffer = Buffer::new();
    let digits = buffer.format(position).len();
    COLUMNS.saturating_add(digits.saturating_sub(POSITION))
}

/// A text without so many bytes at its beginning.
fn without_front(text: &[u8], len: usize) -> &[u8] {
    match text.get(len..) {
        Some(rest) => rest,
        None => text,
    }
}

/// A text without the name with which it may begin.
fn without_name<'a>(text: &'a [u8], name: &[u8]) -> &'a [u8] {
    match text.strip_prefix(name) {
        Some(rest) => rest,
        None => text,
    }
}

/// A text without the blanks before it, and the newline behind it.
fn trimmed(text: &[u8]) -> &[u8] {
    let text = match text.strip_suffix(b"\n".as_slice()) {
        Some(rest) => rest,
        None => text,
    };
    let mut left = text;
    while let Some((first, after)) = left.split_first() {
        if *first != b' ' {
            return left;
        }
        left = after;
    }
    left
}
