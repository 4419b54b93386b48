//! What the sections of an object file say beside its image: how large symbols are, and where instructions lie.

use brd_elf::{half_at, word_at};
use brd_word::Order;

/// How many bytes a section header has, and how many an entry of a symbol table.
const SECTION_HEADER: usize = 40;

const SYMBOL: usize = 16;

/// What a section is that has symbols.
const SYMBOLS: u32 = 2;

/// The flag of a section that has instructions.
const INSTRUCTIONS: u32 = 4;

/// A section: what it is, and where it lies.
#[derive(Clone, Copy)]
struct Section {
    kind: u32,
    flags: u32,
    address: u32,
    offset: usize,
    size: usize,
    /// The number of the section with the names of its symbols.
    link: usize,
}

/// The number in the four bytes from a place on, where the file has them.
fn word_in(file: &[u8], at: usize, order: Order) -> Option<u32> {
    if file.len() < 4 || at > file.len() - 4 {
        return None;
    }
    Some(word_at(file, at, order))
}

/// How many sections a file has.
fn sections_in(file: &[u8], order: Order) -> usize {
    if file.len() < 52 {
        return 0;
    }
    half_at(file, 48, order) as usize
}

/// The section of a number.
fn section_at(file: &[u8], order: Order, number: usize) -> Option<Section> {
    let table = word_in(file, 32, order)? as usize;
    let at = table.checked_add(number.checked_mul(SECTION_HEADER)?)?;
    let kind = word_in(file, at.checked_add(4)?, order)?;
    let flags = word_in(file, at.checked_add(8)?, order)?;
    let address = word_in(file, at.checked_add(12)?, order)?;
    let offset = word_in(file, at.checked_add(16)?, order)? as usize;
    let size = word_in(file, at.checked_add(20)?, order)? as usize;
    let link = word_in(file, at.checked_add(24)?, order)? as usize;
    Some(Section {
        kind,
        flags,
        address,
        offset,
        size,
        link,
    })
}

/// Whether one of these bytes lies in a section that has instructions. (What `board asm` writes has no such sections.)
pub fn holds_instructions(file: &[u8], order: Order, address: u32, len: usize) -> bool {
    let low = address as u64;
    let high = low.saturating_add(len as u64);
    for number in 0..sections_in(file, order) {
        let Some(section) = section_at(file, order, number) else {
            return false;
        };
        let start = section.address as u64;
        let end = start.saturating_add(section.size as u64);
        if section.flags & INSTRUCTIONS != 0 && low < end && start < high {
            return true;
        }
    }
    false
}

/// How many bytes the symbol of a name has, where the file says so.
pub fn size_of_symbol(file: &[u8], order: Order, name: &[u8]) -> Option<u32> {
    for number in 0..sections_in(file, order) {
        let section = section_at(file, order, number)?;
        if section.kind == SYMBOLS {
            let names = section_at(file, order, section.link)?;
            if let Some(size) = size_in(file, order, section, names, name) {
                return Some(size);
            }
        }
    }
    None
}

/// The same, in a section of symbols whose names are in another section.
fn size_in(
    file: &[u8],
    order: Order,
    symbols: Section,
    names: Section,
    name: &[u8],
) -> Option<u32> {
    for number in 0..symbols.size / SYMBOL {
        let at = symbols.offset.checked_add(number.checked_mul(SYMBOL)?)?;
        let place = word_in(file, at, order)? as usize;
        let size = word_in(file, at.checked_add(8)?, order)?;
        let front = file.get(names.offset.checked_add(place)?..)?;
        if size != 0 && is_named(front, name) {
            return Some(size);
        }
    }
    None
}

/// Whether a name, and a byte 0 after it, stands here.
fn is_named(front: &[u8], name: &[u8]) -> bool {
    match front.strip_prefix(name) {
        Some([0, ..]) => true,
        _ => false,
    }
}
