//! The files cut off anywhere, and with any byte changed.

use super::{
    ASSEMBLED, ASSEMBLED_SHOWN, SHORT, SHORT_SHOWN, is_read_as, shows, shows_little, turn,
};
use brd_elf::{ElfFault, read};
use brd_mem::Image;
use std::alloc::Global;
use std::test::Fail;
use test_help::{none_wrong, put_byte};

/// What is answered where one byte of `SHORT` is set to 0, 1, 0x7F, 0x80 or 0xFF: 0 the same image, 9 another, else the
/// fault by its place in `ElfFault`. Worked out by a reader in another language.
const SHORT_CHANGED: &[(u8, &[u8])] = &[
    (
        0x00,
        b"22223330000000000303000390000009000000000005090000000009000970900000000900050000000030000000000000000000000000000000999",
    ),
    (
        0x01,
        b"22220300000000003333333099994449000000000055400000009990444979090000555979950000000000000000000000000000000000000000999",
    ),
    (
        0x7f,
        b"02223330000000003333333399994444000000000055440000009999444479990000555579990000000000000000000000000000000000000000999",
    ),
    (
        0x80,
        b"22223330000000003333333309994444000000000055440000009999444409990000555559990000000000000000000000000000000000000000999",
    ),
    (
        0xff,
        b"22223330000000003333333399994444000000000055440000009999444479990000555559990000000000000000000000000000000000000000999",
    ),
];

/// The same of `ASSEMBLED`.
const ASSEMBLED_CHANGED: &[(u8, &[u8])] = &[
    (
        0x00,
        b"222233300000000003030003900000090009000000050905090000090009700000000009000500000000999099090000000900000000000000000009900000000000000990090000000009999990900000000000000000000000000000000000000000000000000000000000000000000000000000090000000000080009000800000000000800000008000000000009000800000000000000000000000000000000000000000000000000000000",
    ),
    (
        0x01,
        b"222203000000000033333330999944994449000000554055490099904449799900005559799500000000999999999999999900000000000000008880999900000000888999990000000009999999980000000000000000000000000000000000000000000000000000000000000000000000000099990000000088888888888800000000888800008888000000008889888800000000000000000000000000000000000000000000000000000000",
    ),
    (
        0x7f,
        b"022233300000000033333333999944494449000000554455440099994449799900005555799900000000999999999999999900000000000000008888999900000000888899990000000009999999980000000000000000000000000000000000000000000000000000000000000000000000000099990000000088888888888800000000888800008888000000008888888000000000000000000000000000000000000000000000000000000000",
    ),
    (
        0x80,
        b"222233300000000033333333099944494448000000554455440099994449099900005555599900000000990999999999999900000000000000008888099900000000888809990000000009999999980000000000000000000000000000000000000000000000000000000000000000000000000099990000000088888888888800000000888800008888000000008889888000000000000000000000000000000000000000000000000000000000",
    ),
    (
        0xff,
        b"222233300000000033333333999944494444000000554455440099994449799900005555599900000000999999999999999900000000000000008888999900000000888899990000000009999999980000000000000000000000000000000000000000000000000000000000000000000000000099990000000088898888888800000000888800008888000000008889888800000000000000000000000000000000000000000000000000000000",
    ),
];

/// The digit of a fault: its place in `ElfFault`, from 1 on.
fn digit_of(fault: ElfFault) -> u8 {
    match fault {
        ElfFault::NoMemory => b'1',
        ElfFault::NotElf => b'2',
        ElfFault::Unsupported { .. } => b'3',
        ElfFault::Truncated { .. } => b'4',
        ElfFault::Sizes { .. } => b'5',
        ElfFault::Overlap { .. } => b'6',
        ElfFault::Outside { .. } => b'7',
        ElfFault::Symbols { .. } => b'8',
    }
}

/// The digit of an image: whether it holds this, or something else.
fn digit_of_image(alloc: Global, image: &Image, same: &str) -> u8 {
    if shows(alloc, image, same) {
        b'0'
    } else {
        b'9'
    }
}

/// The digit of what is answered for a file.
fn digit(alloc: Global, file: &[u8], same: &str) -> u8 {
    match read(alloc, file) {
        Ok(image) => digit_of_image(alloc, &image, same),
        Err(fault) => digit_of(fault),
    }
}

/// The same of a file in the other byte order.
fn turned_digit(alloc: Global, file: &[u8], same: &str) -> Option<u8> {
    let mut copy = Vec::from_slice(alloc, file).ok()?;
    turn(file, copy.as_mut_slice());
    Some(match read(alloc, copy.as_slice()) {
        Ok(image) => {
            if shows_little(alloc, &image, same) {
                b'0'
            } else {
                b'9'
            }
        }
        Err(fault) => digit_of(fault),
    })
}

/// The digit that a file in the other byte order has. With 0x7F at 287 the strings begin among the symbols, whose bytes
/// lie in that order, and names end there.
fn wanted_turned(byte: u8, place: usize, wanted: u8) -> u8 {
    if byte == 0x7f && place == 287 {
        b'9'
    } else {
        wanted
    }
}

/// The first place of a file where this byte isn't answered by the digit of the place, in both byte orders. The file is
/// left as it was.
fn first_wrong_digit(
    alloc: Global,
    file: &mut [u8],
    byte: u8,
    digits: &[u8],
    same: &str,
) -> Option<usize> {
    for (place, wanted) in digits.iter().enumerate() {
        let Some(before) = file.get(place).copied() else {
            return Some(place);
        };
        put_byte(file, place, byte);
        let found = digit(alloc, file, same);
        let turned = turned_digit(alloc, file, same);
        put_byte(file, place, before);
        if found != *wanted || turned != Some(wanted_turned(byte, place, *wanted)) {
            return Some(place);
        }
    }
    None
}

/// The first byte of these rows, and place of a file, for which the digit is wrong. Digits that are too few or too many
/// for the file are wrong after the last one.
fn first_wrong(
    alloc: Global,
    file: &mut [u8],
    rows: &[(u8, &[u8])],
    same: &str,
) -> Option<(u8, usize)> {
    for (byte, digits) in rows {
        if digits.len() != file.len() {
            return Some((*byte, digits.len()));
        }
        if let Some(place) = first_wrong_digit(alloc, file, *byte, *digits, same) {
            return Some((*byte, place));
        }
    }
    None
}

#[test]
fn each_byte_of_the_short_file(rt: HostRuntime) -> Result<(), Fail> {
    let mut file = SHORT;
    none_wrong(first_wrong(rt.alloc(), &mut file, SHORT_CHANGED, SHORT_SHOWN))
}

#[test]
fn each_byte_of_the_assembled_file(rt: HostRuntime) -> Result<(), Fail> {
    let mut file = ASSEMBLED;
    none_wrong(first_wrong(rt.alloc(), &mut file, ASSEMBLED_CHANGED, ASSEMBLED_SHOWN))
}

/// What is missing from a file of n bytes, by the header that describes it. `table` and `segment` are where the
/// program headers end, and the bytes that they load.
fn fault_of_cut(len: usize, table: usize, segment: usize) -> &'static str {
    if len < 4 {
        "NotElf"
    } else if len < 52 {
        "Truncated { at: 0 }"
    } else if len < table {
        "Truncated { at: 28 }"
    } else if len < segment {
        "Truncated { at: 52 }"
    } else {
        "Truncated { at: 32 }"
    }
}

/// The first length of a file, cut off there, from which something else is read.
fn first_wrong_cut(alloc: Global, file: &[u8], table: usize, segment: usize) -> Option<usize> {
    for len in 0..file.len() {
        if !is_read_as(alloc, &file[..len], fault_of_cut(len, table, segment)) {
            return Some(len);
        }
    }
    None
}

/// Each file cut to each length: which header describes what is missing.
#[test]
fn cut_files(rt: HostRuntime) -> Result<(), Fail> {
    none_wrong(first_wrong_cut(rt.alloc(), &SHORT, 116, 119))?;
    none_wrong(first_wrong_cut(rt.alloc(), &ASSEMBLED, 84, 100))
}

/// The same in the other byte order.
#[test]
fn cut_little_files(rt: HostRuntime) -> Result<(), Fail> {
    let mut short = SHORT;
    turn(&SHORT, &mut short);
    none_wrong(first_wrong_cut(rt.alloc(), &short, 116, 119))?;
    let mut assembled = ASSEMBLED;
    turn(&ASSEMBLED, &mut assembled);
    none_wrong(first_wrong_cut(rt.alloc(), &assembled, 84, 100))
}
