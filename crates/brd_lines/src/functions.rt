//! Where the functions of an object file lie, by its symbols.

use crate::cursor::{Cursor, string_len};
use crate::flaw::Flaw;
use crate::sections::{Sections, sections_of};
use brd_base::{BASE, NoMemory, TOP};
use std::alloc::Global;

/// How many functions are read at most (own choice).
const MOST_FUNCTIONS: usize = 65_536;

/// How many bytes a name has at most (own choice).
const MOST_NAME: usize = 256;

/// A function.
#[derive(Drop)]
pub struct Function {
    /// The address of its first instruction.
    pub from: u32,
    /// The address after its last one.
    pub to: u32,
    /// What it is called.
    pub name: Vec<u8>,
    /// Whether the file says that it is a function; else it is a label, up to the next one.
    pub typed: bool,
}

/// A symbol that may stand for a function: by its address, first a function and then a label.
#[derive(Clone, Copy, PartialEq, Eq, PartialOrd, Ord)]
struct Symbol {
    address: u32,
    label: bool,
    size: u32,
    name: u32,
}

/// The functions of an object file by ascending address, none over another: what its symbols call so, and each label
/// in none of them, up to the next one. Where there are too many, there are none.
pub fn read_functions(alloc: Global, file: &[u8]) -> Result<Vec<Function>, NoMemory> {
    let mut functions = Vec::new(alloc);
    let Some(sections) = sections_of(file) else {
        return Ok(functions);
    };
    let mut symbols = symbols_of(alloc, &sections)?;
    symbols.sort()?;
    let mut end = 0;
    for symbol in symbols.iter() {
        if symbol.address < end || is_same(&functions, symbol.address) {
            continue;
        }
        if functions.len() >= MOST_FUNCTIONS {
            return Ok(Vec::new(alloc));
        }
        end = add(alloc, &mut functions, symbol, sections.names)?.unwrap_or(end);
    }
    Ok(functions)
}

/// Whether the last function begins at an address.
fn is_same(functions: &Vec<Function>, address: u32) -> bool {
    match functions.last() {
        Some(last) => last.from == address,
        None => false,
    }
}

/// Adds a function by its symbol, if that has a name. What has no size goes up to the next one. Answers where one with
/// a size ends.
fn add(
    alloc: Global,
    functions: &mut Vec<Function>,
    symbol: &Symbol,
    names: &[u8],
) -> Result<Option<u32>, NoMemory> {
    let name = name_at(names, symbol.name);
    if name.is_empty() {
        return Ok(None);
    }
    if let Some(last) = functions.last_mut() {
        last.to = last.to.min(symbol.address);
    }
    let mut copy = Vec::new(alloc);
    copy.extend_from_slice(name)?;
    let sized = symbol.size > 0 && !symbol.label;
    let to = if sized {
        symbol.address.saturating_add(symbol.size).min(TOP)
    } else {
        TOP
    };
    functions.push(Function {
        from: symbol.address,
        to,
        name: copy,
        typed: !symbol.label,
    })?;
    Ok(if sized { Some(to) } else { None })
}

/// The name that lies at an offset.
fn name_at(names: &[u8], offset: u32) -> &[u8] {
    let Some(bytes) = names.get(offset as usize..) else {
        return &[];
    };
    let near = bytes.get(..MOST_NAME).unwrap_or(bytes);
    near.get(..string_len(near)).unwrap_or(&[])
}

/// The symbols that may stand for functions.
fn symbols_of(alloc: Global, sections: &Sections) -> Result<Vec<Symbol>, NoMemory> {
    let mut symbols = Vec::new(alloc);
    let mut cursor = Cursor {
        rest: sections.symbols,
        order: sections.order,
    };
    for _ in 0..sections.symbols.len() / 16 {
        match next_symbol(&mut cursor) {
            Ok(Some(symbol)) => symbols.push(symbol)?,
            Ok(None) => {}
            Err(_) => break,
        }
    }
    Ok(symbols)
}

/// The next symbol. None where it stands for no function.
fn next_symbol(cursor: &mut Cursor) -> Result<Option<Symbol>, Flaw> {
    let name = cursor.word()?;
    let address = cursor.word()?;
    let size = cursor.word()?;
    let kind = cursor.byte()? & 0xf;
    let _other = cursor.byte()?;
    let section = cursor.half()?;
    if section == 0 || address < BASE || address >= TOP || address % 4 != 0 {
        return Ok(None);
    }
    if kind != 0 && kind != 2 {
        return Ok(None);
    }
    Ok(Some(Symbol {
        address,
        label: kind == 0,
        size,
        name,
    }))
}
