//! The file of a little-endian source.

use super::super::shown::shows;
use super::{ASSEMBLED, turn};
use brd_asm::assemble;
use brd_elf::{read, write};
use brd_mem::is_plain;
use std::alloc::Global;
use test_help::put_byte;

/// The source of `ASSEMBLED`, after a line that says that it is little-endian.
const SOURCE: &str =
    ".byteorder little\n_start: lui $t0, %hi(d)\nlw $t1, %lo(d)($t0)\nnop\nd: .word 7\n";

/// What is read from its file.
const SHOWN: &str =
    "little 80000000 80000000:0080083c0c00098d0000000007000000 _start=80000000 d=8000000c";

/// The bytes of its words.
const WORDS: [u8; 16] = [
    0x00, 0x80, 0x08, 0x3c, 0x0c, 0x00, 0x09, 0x8d, 0x00, 0x00, 0x00, 0x00, 0x07, 0x00, 0x00, 0x00,
];

/// Puts the bytes of `WORDS` into a file, from 84 on.
fn put_words(file: &mut [u8]) {
    for (place, byte) in WORDS.iter().enumerate() {
        put_byte(file, place.wrapping_add(84), *byte);
    }
}

/// Whether a file means that image.
fn is_read(alloc: Global, file: &[u8]) -> bool {
    match read(alloc, file) {
        Ok(image) => shows(alloc, &image, SHOWN),
        Err(_) => false,
    }
}

/// Whether the source has that image, and this file, which means the image again.
fn is_written(alloc: Global, source: &str, wanted: &[u8]) -> bool {
    let Ok(image) = assemble(alloc, source.as_bytes()) else {
        return false;
    };
    if !shows(alloc, &image, SHOWN) || !is_plain(&image) {
        return false;
    }
    match write(alloc, &image) {
        Ok(file) => file.as_slice() == wanted && is_read(alloc, file.as_slice()),
        Err(_) => false,
    }
}

/// Each byte of the file is that of `ASSEMBLED`, where it lies with the other byte order: 348 bytes, the sixth a 1,
/// from 84 on the words.
#[test]
fn of_a_little_endian_source(rt: HostRuntime) {
    let mut file = ASSEMBLED;
    turn(&ASSEMBLED, &mut file);
    put_words(&mut file);
    assert!(rt; is_written(rt.alloc(), SOURCE, &file));
}
