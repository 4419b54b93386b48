//! How long the file of an image is. Sums are made in 128 bits, which none of them fills.

ghost use Rattle.std.specs.Prelude.{◌≡◌, ◌↔◌, ◌^◌, length, min, IsTrue};
ghost use Rattle.brd_elf.specs.File.{data_of, strings, file, Fits};

use crate::parts::{HEADER_LEN, PROGRAM_LEN, SECTION_NAMES, padding};
use brd_mem::{Image, Segment, Symbol};

/// The length that a file has to stay below: offsets have 32 bits.
const LIMIT: u128 = 0x1_0000_0000;

/// Whether the file of an image can be read again: there are at most 65,534 segments, and it is shorter than 2^32
/// bytes.
pub fn fits(image: &Image) -> bool
    ensures { IsTrue result ↔ Fits image.now }
{
    image.segments.len() <= 65_534 && file_len(image) < LIMIT
}

/// How many bytes the file of an image has, or 2^32 if there are more.
fn file_len(image: &Image) -> u128
    ensures { result ≡ min (length (file image.now)) (2 ^ 32) }
{
    let segments = image.segments.as_slice();
    let symbols = image.symbols.as_slice();
    let headers = HEADER_LEN as u128 + PROGRAM_LEN as u128 * segments.len() as u128;
    let table = 16 + 16 * symbols.len() as u128;
    let texts = strings_len(symbols) + SECTION_NAMES.len() as u128;
    let gap = padding(texts as usize) as u128;
    LIMIT.min(headers + data_len(segments) + table + texts + gap + 160)
}

/// How many bytes segments have in a file, or 2^32 if there are more.
fn data_len(segments: &[Segment]) -> u128
    ensures { result ≡ min (length (data_of segments.now)) (2 ^ 32) }
{
    let mut len = 0;
    for segment in segments {
        let bytes = segment.bytes.len();
        len = LIMIT.min(len + bytes as u128 + padding(bytes) as u128);
    }
    len
}

/// How many bytes the strings of symbols have, or 2^32 if there are more.
fn strings_len(symbols: &[Symbol]) -> u128
    ensures { result ≡ min (length (strings symbols.now)) (2 ^ 32) }
{
    let mut len = 1;
    for symbol in symbols {
        len = LIMIT.min(len + symbol.name.len() as u128 + 1);
    }
    len
}
