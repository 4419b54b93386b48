//! The symbol table.

ghost use Rattle.std.specs.Prelude.{◌≡◌, ℕ, ◌+◌, ◌*◌, ◌≤◌, ◌<◌, ◌^◌, [], length, drop, Some};
ghost use Rattle.brd_elf.specs.Faults.{Gives};
ghost use Rattle.brd_elf.specs.Symbols.{entry_at, kept_from, symbols_by, symbols_of};

use crate::fault::ElfFault;
use crate::fields::{half_at, has_bytes, word_at};
use crate::header::Table;
use crate::named::Named;
use crate::sections::{section_at, strings_of, symbol_table_from};
use brd_mem::Symbols;
use brd_word::Order;
use std::alloc::Global;

/// How many bytes a symbol has.
const LEN: usize = 16;

/// A symbol of a symbol table.
#[derive(Clone, Copy)]
pub struct Entry {
    /// The place of its name in the strings.
    pub name: u32,
    /// Its value.
    pub value: u32,
    /// The section that it belongs to, 0 for none.
    pub section: u16,
}

/// The symbols of the first symbol table of a table of section headers, or their first fault.
#[tactic(auto, unfolding(crate::specs::Symbols::symbols_of, crate::specs::Symbols::symbols_by))]
pub fn symbols_of(
    alloc: Global,
    file: &[u8],
    order: Order,
    table: Table,
) -> Result<Symbols, ElfFault>
    ensures { Gives (λ symbols. symbols) result (symbols_of order file.now table) }
{
    if table.offset == 0 || table.count == 0 {
        return Ok(Symbols::new(alloc));
    }
    if table.entry_size as usize != crate::sections::LEN {
        return Err(ElfFault::Sizes { at: 46 });
    }
    let start = table.offset as usize;
    let count = table.count as usize;
    if !has_bytes(file, start, crate::sections::LEN * count) {
        return Err(ElfFault::Truncated { at: 32 });
    }
    match symbol_table_from(file, order, start, count) {
        None => Ok(Symbols::new(alloc)),
        Some(at) => symbols_by(alloc, file, order, table, at),
    }
}

/// The symbols of the symbol table whose section header lies at an offset.
#[tactic(auto, unfolding(crate::specs::Symbols::symbols_by))]
fn symbols_by(
    alloc: Global,
    file: &[u8],
    order: Order,
    table: Table,
    at: usize,
) -> Result<Symbols, ElfFault>
    requires table { table.offset + 40 * table.count ≤ length file.now }
    requires section { at + 40 ≤ length file.now }
    ensures { Gives (λ symbols. symbols) result (symbols_by order file.now table (Some at)) }
{
    let strings = strings_of(file, order, table, at)?;
    let section = section_at(&file[at..], order);
    let count = section.size as usize / LEN;
    keep_all(alloc, file, order, strings, section.offset as usize, count)
}

/// The symbols of as many entries as `count`, from an offset on.
fn keep_all(
    alloc: Global,
    file: &[u8],
    order: Order,
    strings: &[u8],
    start: usize,
    count: usize,
) -> Result<Symbols, ElfFault>
    requires file { 0 < count → start + 16 * count ≤ length file.now }
    requires strings { length strings.now < 2 ^ 32 }
    ensures { Gives (λ symbols. symbols) result (kept_from order file.now strings.now start count []) }
{
    let mut symbols = Named::new(alloc, strings)?;
    let mut at = start;
    for _ in 0..count {
        symbols.keep(alloc, at, entry_at(&file[at..], order))?;
        at += LEN;
    }
    Ok(symbols.into_symbols())
}

/// The symbol that bytes begin with.
fn entry_at(bytes: &[u8], order: Order) -> Entry
    requires { 16 ≤ length bytes.now }
    ensures { result ≡ entry_at order bytes.now }
{
    Entry {
        name: word_at(bytes, 0, order),
        value: word_at(bytes, 4, order),
        section: half_at(bytes, 14, order),
    }
}
