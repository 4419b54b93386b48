//! Section headers: which section is the symbol table, and which has its strings.

ghost use Rattle.std.specs.Prelude.{◌≡◌, ℕ, ◌+◌, ◌*◌, ◌≤◌, ◌<◌, ◌^◌, length, drop, true, IfOk, IfSome, IsOk};
ghost use Rattle.brd_elf.specs.Faults.{Gives};
ghost use Rattle.brd_elf.specs.Symbols.{section_at, is_whole, section_bytes, symbol_table_from, is_symbol_table};
ghost use Rattle.brd_elf.specs.Symbols.{is_string_table, linked, strings_of};

use crate::fault::ElfFault;
use crate::fields::{has_bytes, word_at};
use crate::header::Table;
use brd_word::Order;

/// How many bytes a section header has.
pub const LEN: usize = 40;

/// A section header: what the section is, where its bytes lie in the file, and the section that goes with it.
#[derive(Clone, Copy)]
pub struct Section {
    /// What it is: 2 is a symbol table, 3 a string table.
    pub kind: u32,
    /// The offset of its bytes in the file.
    pub offset: u32,
    /// How many bytes it has.
    pub size: u32,
    /// The number of the section that goes with it: for a symbol table the one with its strings.
    pub link: u32,
    /// How many bytes each of its entries has.
    pub entry_size: u32,
}

/// The section header that bytes begin with.
pub fn section_at(bytes: &[u8], order: Order) -> Section
    requires { 40 ≤ length bytes.now }
    ensures { result ≡ section_at order bytes.now }
{
    Section {
        kind: word_at(bytes, 4, order),
        offset: word_at(bytes, 16, order),
        size: word_at(bytes, 20, order),
        link: word_at(bytes, 24, order),
        entry_size: word_at(bytes, 36, order),
    }
}

/// The offset of the first header of a symbol table, among as many as `count` from an offset on.
pub fn symbol_table_from(file: &[u8], order: Order, start: usize, count: usize) -> Option<usize>
    requires { start + 40 * count ≤ length file.now }
    ensures first { result ≡ symbol_table_from order file.now start count }
    ensures within { IfSome result (λ at. at + 40 ≤ length file.now) }
{
    let mut at = start;
    for _ in 0..count {
        if section_at(&file[at..], order).kind == 2 {
            return Some(at);
        }
        at += LEN;
    }
    None
}

/// The strings that go with the symbol table whose section header lies at an offset.
#[tactic(auto, unfolding(crate::specs::Symbols::strings_of))]
pub fn strings_of(file: &[u8], order: Order, table: Table, at: usize) -> Result<&[u8], ElfFault>
    requires table { table.offset + 40 * table.count ≤ length file.now }
    requires section { at + 40 ≤ length file.now }
    ensures strings { Gives (λ strings. strings.now) result (strings_of order file.now table at) }
    ensures short { IfOk result (λ strings. length strings.now < 2 ^ 32) }
    ensures whole { IsOk result → is_symbol_table file.now table (section_at order (drop at file.now)) ≡ true }
{
    let symbols = section_at(&file[at..], order);
    if !is_symbol_table(file, table, symbols) {
        return Err(ElfFault::Symbols { at });
    }
    let strings = linked(file, order, table, symbols);
    if !is_string_table(file, strings) {
        return Err(ElfFault::Symbols { at });
    }
    Ok(section_bytes(file, strings))
}

/// Whether it is a symbol table of whole symbols that lies in the file and is linked to a section.
pub fn is_symbol_table(file: &[u8], table: Table, section: Section) -> bool
    ensures { result ≡ is_symbol_table file.now table section }
{
    section.entry_size == 16
        && section.size % 16 == 0
        && is_whole(file, section)
        && section.link < table.count as u32
}

/// Whether it is a string table that lies in the file.
fn is_string_table(file: &[u8], section: Section) -> bool
    ensures { result ≡ is_string_table file.now section }
{
    section.kind == 3 && is_whole(file, section)
}

/// Whether all its bytes lie in the file.
fn is_whole(file: &[u8], section: Section) -> bool
    ensures { result ≡ is_whole file.now section }
{
    section.size == 0 || has_bytes(file, section.offset as usize, section.size as usize)
}

/// The section that a section is linked to.
fn linked(file: &[u8], order: Order, table: Table, section: Section) -> Section
    requires table { table.offset + 40 * table.count ≤ length file.now }
    requires link { section.link < table.count }
    ensures { result ≡ linked order file.now table section }
{
    let at = table.offset as usize + LEN * section.link as usize;
    section_at(&file[at..], order)
}

/// The bytes of a section that lie in the file.
fn section_bytes(file: &[u8], section: Section) -> &[u8]
    requires { is_whole file.now section ≡ true }
    ensures bytes { result.now ≡ section_bytes file.now section }
    ensures short { length result.now < 2 ^ 32 }
{
    if section.size == 0 {
        return &[];
    }
    let start = section.offset as usize;
    &file[start..start + section.size as usize]
}
