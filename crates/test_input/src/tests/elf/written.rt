//! Files that are written.

use super::{ASSEMBLED, ASSEMBLED_SHOWN, is_read_as, put_segment};
use brd_elf::write;
use brd_mem::{Bytes, Image, Segments, Symbol, Symbols, is_plain};
use std::alloc::Global;
use std::test::Fail;
use test_help::none_wrong;

/// An image of words, of further segments and of symbols, and what its file has: n bytes, these among them from a
/// place on, and that is read from it.
struct Written {
    words: &'static [u32],
    segments: &'static [(u32, &'static [u8])],
    symbols: &'static [(&'static [u8], u32)],
    len: usize,
    at: usize,
    part: &'static [u8],
    shown: &'static str,
}

const WRITTEN: &[Written] = &[
    // The whole file of `ASSEMBLED`.
    Written {
        words: &[0x3c08_8000, 0x8d09_000c, 0, 7],
        segments: &[],
        symbols: &[(b"_start", 0x8000_0000), (b"d", 0x8000_000c)],
        len: 348,
        at: 0,
        part: &ASSEMBLED,
        shown: ASSEMBLED_SHOWN,
    },
    // Nothing to load and nothing named: header, the symbol of zeros, 28 bytes of strings and names, four section
    // headers.
    Written {
        words: &[],
        segments: &[],
        symbols: &[],
        len: 256,
        at: 28,
        part: b"\0\0\0\0\0\0\0\x60\0\0\0\0\x004\0\x20\0\0\0\x28",
        shown: "80000000",
    },
    // Segments of one to five bytes, the last two touching, each from a multiple of 4 on.
    Written {
        words: &[],
        segments: &[
            (0x8000_0001, b"a"),
            (0x8000_0010, b"bcdef"),
            (0x80ff_fff8, b"ghi"),
            (0x80ff_fffb, b"jklmn"),
        ],
        symbols: &[],
        len: 180 + 24 + 16 + 28 + 160,
        at: 180,
        part: b"a\0\0\0bcdef\0\0\0ghi\0jklmn\0\0\0",
        shown: "80000000 80000001:61 80000010:6263646566 80fffff8:676869 80fffffb:6a6b6c6d6e",
    },
];

/// Whether a file is so.
fn is_so(alloc: Global, file: &[u8], written: &Written) -> bool {
    let has_part = match file.get(written.at..) {
        Some(rest) => rest.starts_with(written.part),
        None => false,
    };
    file.len() == written.len && has_part && is_read_as(alloc, file, written.shown)
}

/// Whether an image is plain, and its file is so.
fn is_written(alloc: Global, image: &Image, written: &Written) -> bool {
    if !is_plain(image) {
        return false;
    }
    match write(alloc, image) {
        Ok(file) => is_so(alloc, file.as_slice(), written),
        Err(_) => false,
    }
}

/// Puts segments at the end. Says whether there was memory for them.
fn put_segments(alloc: Global, out: &mut Segments, rows: &[(u32, &[u8])]) -> bool {
    for (address, bytes) in rows {
        if !put_segment(alloc, out, *address, *bytes) {
            return false;
        }
    }
    true
}

/// Puts a symbol at the end. Says whether there was memory for it.
fn put_symbol(alloc: Global, out: &mut Symbols, name: &[u8], value: u32) -> bool {
    match Bytes::from_slice(alloc, name) {
        Ok(name) => out.push(Symbol { name, value }).is_ok(),
        Err(_) => false,
    }
}

/// Puts symbols at the end. Says whether there was memory for them.
fn put_symbols(alloc: Global, out: &mut Symbols, rows: &[(&[u8], u32)]) -> bool {
    for (name, value) in rows {
        if !put_symbol(alloc, out, *name, *value) {
            return false;
        }
    }
    true
}

/// Whether the image of a row is written so.
fn is_right(alloc: Global, row: &Written) -> bool {
    match Image::from_words(alloc, row.words) {
        Ok(mut image) => {
            put_segments(alloc, &mut image.segments, row.segments)
                && put_symbols(alloc, &mut image.symbols, row.symbols)
                && is_written(alloc, &image, row)
        }
        Err(_) => false,
    }
}

/// The first of `WRITTEN` that is written otherwise.
fn first_wrong(alloc: Global) -> Option<usize> {
    for (number, row) in WRITTEN.iter().enumerate() {
        if !is_right(alloc, row) {
            return Some(number);
        }
    }
    None
}

#[test]
fn images_are_written(rt: HostRuntime) -> Result<(), Fail> {
    none_wrong(first_wrong(rt.alloc()))
}
