//! The listing: the instructions that were executed, and those near them.

use crate::data::Json;
use brd_base::NoMemory;
use brd_isa::decode;
use brd_listing::{Places, write_instruction};
use brd_mem::{Image, Segment};
use brd_names::Names;
use brd_text::hex_digits;
use brd_word::word_of;
use std::alloc::Global;

/// How many instructions before and behind one that was executed are listed too.
const AROUND: u32 = 4;

/// Puts at the end a list of the instructions at some addresses, and of those near them, each with its address, the
/// name of that, the instruction, and the file and the line of its source, where they are known. The addresses ascend.
pub(crate) fn put_listing(
    json: &mut Json,
    alloc: Global,
    image: &Image,
    names: Names,
    places: &[u32],
) -> Result<(), NoMemory> {
    let mut next = 0;
    json.begin_list()?;
    for place in places {
        let first = place.saturating_sub(4 * AROUND).max(next);
        for turn in 0..2 * AROUND + 1 {
            let address = first.saturating_add(turn.saturating_mul(4));
            if address > place.saturating_add(4 * AROUND) {
                break;
            }
            put_row(json, alloc, image, names, address)?;
            next = address.saturating_add(4);
        }
    }
    json.end_list()
}

/// Puts an instruction at the end, where the image has one there.
fn put_row(
    json: &mut Json,
    alloc: Global,
    image: &Image,
    names: Names,
    address: u32,
) -> Result<(), NoMemory> {
    let Some(word) = word_at(image, address) else {
        return Ok(());
    };
    let mut name = Vec::new(alloc);
    names.put_place(&mut name, address)?;
    json.begin_line()?;
    json.begin_list()?;
    json.word(address)?;
    json.string(&name)?;
    json.string(&text_of(alloc, word, address)?)?;
    put_source(json, alloc, names, address)?;
    json.end_list()
}

/// Puts the file and the line of the source of an address at the end, where they are known.
fn put_source(json: &mut Json, alloc: Global, names: Names, address: u32) -> Result<(), NoMemory> {
    let mut source = Vec::new(alloc);
    names.put_source(alloc, "", address, &mut source)?;
    if source.is_empty() {
        return Ok(());
    }
    json.string(&source)
}

/// The instruction that a word at an address stands for, or the word where it stands for none.
pub(crate) fn text_of(alloc: Global, word: u32, address: u32) -> Result<Vec<u8>, NoMemory> {
    let mut text = Vec::new(alloc);
    match decode(word) {
        Some(insn) => write_instruction(&insn, address, &mut text)?,
        None => {
            text.extend_from_slice(b".word 0x")?;
            text.extend_from_slice(&hex_digits(word))?;
        }
    }
    Ok(text)
}

/// The word of an image at an address, where it has one.
pub(crate) fn word_at(image: &Image, address: u32) -> Option<u32> {
    for segment in image.segments.as_slice() {
        if let Some(bytes) = bytes_at(segment, address) {
            return Some(word_of(bytes, image.order));
        }
    }
    None
}

/// The four bytes of a segment at an address, where it has them.
fn bytes_at(segment: &Segment, address: u32) -> Option<[u8; 4]> {
    let bytes = segment.bytes.as_slice();
    let start = address.checked_sub(segment.address)? as usize;
    let [first, second, third, last, ..] = bytes.get(start..)? else {
        return None;
    };
    Some([*first, *second, *third, *last])
}

/// Puts a list of addresses at the end, each with its name.
pub(crate) fn put_names(
    json: &mut Json,
    alloc: Global,
    symbols: &Places,
    addresses: &[u32],
) -> Result<(), NoMemory> {
    json.begin_list()?;
    for address in addresses {
        let mut name = Vec::new(alloc);
        symbols.write(*address, &mut name)?;
        json.begin_line()?;
        json.begin_list()?;
        json.word(*address)?;
        json.string(&name)?;
        json.end_list()?;
    }
    json.end_list()
}
