//! The parts of the file of an image.

ghost use Rattle.std.specs.Prelude.{◌∷◌, [], ◌≡◌, ℕ, ◌+◌, ◌*◌, ◌^◌, ◌<◌, ◌≤◌, ◌++◌, length, replicate, flat_map, OnOk};
ghost use Rattle.std.specs.Prelude.{IfOk};
ghost use Rattle.std.specs.List.{AllByRecursion};
ghost use Rattle.brd_elf.specs.File.{halves, words, padding, padded, program_header, program_headers_from, data_of};
ghost use Rattle.brd_elf.specs.File.{symbol_entry, symbol_entries_from, symbol_table, strings, section_names};
ghost use Rattle.brd_elf.specs.File.{section_headers, header_bytes, data_encoding, ident};

use crate::fields::{put_half, put_word};
use brd_base::NoMemory;
use brd_mem::{Segment, Symbol};
use brd_word::Order;
use std::alloc::Global;

/// How many bytes the ELF header has.
pub const HEADER_LEN: usize = 52;

/// How many bytes a program header has.
pub const PROGRAM_LEN: usize = 32;

/// The sections' names, at 1, 9 and 17.
pub const SECTION_NAMES: &[u8] = b"\0.symtab\0.strtab\0.shstrtab\0";

/// Puts e_ident at the end: magic, ELFCLASS32, the byte order, version 1, and nine zeros.
fn put_ident(out: &mut Vec<u8>, order: Order) -> Result<(), NoMemory>
    ensures { OnOk result (out.new.items ≡ out.old.items ++ ident order) }
{
    out.extend_from_slice(b"\x7fELF\x01")?;
    out.push(data_encoding(order))?;
    out.push(1)?;
    put_zeros(out, 9)
}

/// EI_DATA: ELFDATA2MSB or ELFDATA2LSB.
fn data_encoding(order: Order) -> u8
    ensures { result ≡ data_encoding order }
{
    match order {
        Order::Big => 2,
        Order::Little => 1,
    }
}

/// Puts fields of two bytes at the end.
fn put_halves(out: &mut Vec<u8>, numbers: &[usize], order: Order) -> Result<(), NoMemory>
    ensures { OnOk result (out.new.items ≡ out.old.items ++ halves order numbers.now) }
{
    for number in numbers {
        put_half(out, *number, order)?;
    }
    Ok(())
}

/// Puts fields of four bytes at the end.
fn put_words(out: &mut Vec<u8>, numbers: &[usize], order: Order) -> Result<(), NoMemory>
    ensures { OnOk result (out.new.items ≡ out.old.items ++ words order numbers.now) }
{
    for number in numbers {
        put_word(out, *number, order)?;
    }
    Ok(())
}

/// Puts a few bytes 0 at the end.
fn put_zeros(out: &mut Vec<u8>, count: usize) -> Result<(), NoMemory>
    requires { count < 2 ^ 16 }
    ensures { OnOk result (out.new.items ≡ out.old.items ++ replicate count 0) }
{
    let len = out.len() + count;
    out.resize(len, 0)?;
    Ok(())
}

/// How many bytes it is from a place to the next multiple of 4.
pub fn padding(place: usize) -> usize
    ensures is { result ≡ padding place }
    ensures small { result < 4 }
{
    (4 - place % 4) % 4
}

/// Puts the ELF header at the end.
pub fn put_header(
    out: &mut Vec<u8>,
    order: Order,
    entry: u32,
    programs_at: usize,
    sections_at: usize,
    count: usize,
) -> Result<(), NoMemory>
    ensures put { OnOk result
        (out.new.items ≡ out.old.items ++ header_bytes order entry programs_at sections_at count) }
    ensures word { entry < 2 ^ 32 }
{
    put_ident(out, order)?;
    put_halves(out, &[2, 8], order)?;
    put_words(
        out,
        &[1, entry as usize, programs_at, sections_at, 0],
        order,
    )?;
    put_halves(out, &[52, 32, count, 40, 4, 3], order)
}

/// The program headers of segments, and the bytes of the segments, which lie after them in the file.
pub fn lay_out_segments(
    alloc: Global,
    order: Order,
    segments: &[Segment],
) -> Result<(Vec<u8>, Vec<u8>), NoMemory>
    requires { length segments.now ≤ 2 ^ 24 }
    ensures programs { IfOk result
        (λ parts. parts.0.items ≡ program_headers_from order (52 + 32 * length segments.now) segments.now) }
    ensures bytes { IfOk result (λ parts. parts.1.items ≡ data_of segments.now) }
{
    let start = HEADER_LEN + PROGRAM_LEN * segments.len();
    let mut programs = Vec::new(alloc);
    let mut data = Vec::new(alloc);
    put_all_segments(&mut programs, &mut data, order, start, segments)?;
    Ok((programs, data))
}

/// Puts the program headers of segments at the end, and their bytes at the end of those that lie in the file from
/// `start` on.
#[tactic(auto, unfolding(crate::specs::File::program_headers_from))]
fn put_all_segments(
    programs: &mut Vec<u8>,
    loaded: &mut Vec<u8>,
    order: Order,
    start: usize,
    segments: &[Segment],
) -> Result<(), NoMemory>
    requires { start < 2 ^ 32 }
    ensures programs { OnOk result
        (programs.new.items
        ≡ programs.old.items ++ program_headers_from order (start + length loaded.old.items) segments.now) }
    ensures bytes { OnOk result (loaded.new.items ≡ loaded.old.items ++ data_of segments.now) }
{
    for segment in segments {
        put_segment(programs, loaded, order, start, segment)?;
    }
    Ok(())
}

/// Puts a segment's program header and its bytes after those of earlier segments, whose bytes lie in the file from
/// `start` on.
fn put_segment(
    programs: &mut Vec<u8>,
    loaded: &mut Vec<u8>,
    order: Order,
    start: usize,
    segment: &Segment,
) -> Result<(), NoMemory>
    requires { start + length loaded.old.items < 2 ^ 64 }
    ensures program { OnOk result
        (programs.new.items
        ≡ programs.old.items ++ program_header order (start + length loaded.old.items) segment.now) }
    ensures bytes { OnOk result (loaded.new.items ≡ loaded.old.items ++ padded segment.now.bytes) }
{
    put_program_header(programs, order, start + loaded.len(), segment)?;
    put_padded(loaded, segment.bytes.as_slice())
}

/// Puts the program header of a segment whose bytes lie at an offset at the end.
fn put_program_header(
    out: &mut Vec<u8>,
    order: Order,
    offset: usize,
    segment: &Segment,
) -> Result<(), NoMemory>
    ensures { OnOk result (out.new.items ≡ out.old.items ++ program_header order offset segment.now) }
{
    let address = segment.address as usize;
    let len = segment.bytes.len();
    put_words(out, &[1, offset, address, address, len, len, 7, 1], order)
}

/// Puts bytes at the end, and zero up to the next multiple of 4.
fn put_padded(out: &mut Vec<u8>, bytes: &[u8]) -> Result<(), NoMemory>
    ensures { OnOk result (out.new.items ≡ out.old.items ++ padded bytes.now) }
{
    out.extend_from_slice(bytes)?;
    put_zeros(out, padding(bytes.len()))
}

/// Puts the sections' names at the end, and zero up to the next multiple of 4 of these strings and the names together.
pub fn put_section_names(out: &mut Vec<u8>, strings: &[u8]) -> Result<(), NoMemory>
    ensures { OnOk result (out.new.items
        ≡ out.old.items ++ section_names ++ replicate (padding (length strings.now + length section_names)) 0) }
{
    out.extend_from_slice(SECTION_NAMES)?;
    put_zeros(out, padding(strings.len() + SECTION_NAMES.len()))
}

/// The symbol table and its strings.
pub fn lay_out_symbols(
    alloc: Global,
    order: Order,
    symbols: &[Symbol],
) -> Result<(Vec<u8>, Vec<u8>), NoMemory>
    ensures table { IfOk result (λ parts. parts.0.items ≡ symbol_table order symbols.now) }
    ensures strings { IfOk result (λ parts. parts.1.items ≡ strings symbols.now) }
    ensures words { IfOk result (λ _. AllByRecursion (λ symbol. symbol.value < 2 ^ 32) symbols.now) }
{
    let mut table = Vec::new(alloc);
    put_zeros(&mut table, 16)?;
    let mut strings = Vec::new(alloc);
    strings.push(0)?;
    put_all_named(&mut table, &mut strings, order, symbols)?;
    Ok((table, strings))
}

/// Puts symbols at the end of the table, and their names at the end of the strings.
#[tactic(auto, unfolding(crate::specs::File::symbol_entries_from))]
fn put_all_named(
    table: &mut Vec<u8>,
    strings: &mut Vec<u8>,
    order: Order,
    symbols: &[Symbol],
) -> Result<(), NoMemory>
    ensures entries { OnOk result
        (table.new.items ≡ table.old.items ++ symbol_entries_from order (length strings.old.items) symbols.now) }
    ensures strings { OnOk result
        (strings.new.items ≡ strings.old.items ++ flat_map (λ symbol. symbol.name ++ 0 ∷ []) symbols.now) }
    ensures words { OnOk result (AllByRecursion (λ symbol. symbol.value < 2 ^ 32) symbols.now) }
{
    for symbol in symbols {
        put_named(table, strings, order, symbol)?;
    }
    Ok(())
}

/// Puts a symbol at the end of the table, and its name at the end of the strings.
fn put_named(
    table: &mut Vec<u8>,
    strings: &mut Vec<u8>,
    order: Order,
    symbol: &Symbol,
) -> Result<(), NoMemory>
    ensures entry { OnOk result
        (table.new.items ≡ table.old.items ++ symbol_entry order (length strings.old.items) symbol.now.value) }
    ensures string { OnOk result (strings.new.items ≡ strings.old.items ++ symbol.now.name ++ 0 ∷ []) }
    ensures word { symbol.now.value < 2 ^ 32 }
{
    put_symbol(table, order, strings.len(), symbol.value)?;
    strings.extend_from_slice(symbol.name.as_slice())?;
    strings.push(0)?;
    Ok(())
}

/// Puts a symbol whose name lies at a place in the strings at the end.
fn put_symbol(out: &mut Vec<u8>, order: Order, name: usize, value: u32) -> Result<(), NoMemory>
    ensures put { OnOk result (out.new.items ≡ out.old.items ++ symbol_entry order name value) }
    ensures word { value < 2 ^ 32 }
{
    put_words(out, &[name, value as usize, 0], order)?;
    out.push(0x10)?;
    out.push(0)?;
    put_half(out, 0xfff1, order)
}

/// Puts the four section headers at the end.
pub fn put_section_headers(
    out: &mut Vec<u8>,
    order: Order,
    symbols_at: usize,
    symbols_size: usize,
    strings_at: usize,
    strings_size: usize,
    names_at: usize,
) -> Result<(), NoMemory>
    ensures { OnOk result (out.new.items
        ≡ out.old.items ++ section_headers order symbols_at symbols_size strings_at strings_size names_at) }
{
    put_zeros(out, 40)?;
    put_words(
        out,
        &[1, 2, 0, 0, symbols_at, symbols_size, 2, 1, 4, 16],
        order,
    )?;
    put_words(
        out,
        &[9, 3, 0, 0, strings_at, strings_size, 0, 0, 1, 0],
        order,
    )?;
    put_words(
        out,
        &[17, 3, 0, 0, names_at, SECTION_NAMES.len(), 0, 0, 1, 0],
        order,
    )
}
