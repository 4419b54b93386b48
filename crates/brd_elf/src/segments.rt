//! Program headers, and the segments that they load.

ghost use Rattle.std.specs.Prelude.{◌≡◌, ℕ, ◌+◌, ◌*◌, ◌≤◌, ◌<◌, ◌^◌, [], ◌∷◌, ◌++◌, length, drop, IfOk, OnOk, false};
ghost use Rattle.brd_elf.specs.Faults.{Gives};
ghost use Rattle.brd_elf.specs.Segments.{program_header_at, is_dynamic, is_skipped, has_bad_sizes, is_cut, is_outside};
ghost use Rattle.brd_elf.specs.Segments.{lies_in, loaded_bytes, load_fault, loaded, loaded_from, segments_of};

use crate::fault::ElfFault;
use crate::fields::{has_bytes, word_at};
use crate::header::Table;
use crate::loaded::Loaded;
use brd_base::{BASE, NoMemory, TOP};
use brd_mem::{Bytes, Segment, Segments};
use brd_word::Order;
use std::alloc::Global;

/// How many bytes a program header has.
const LEN: usize = 32;

/// A program header: what it describes, where its bytes lie in the file, and where they go.
#[derive(Clone, Copy)]
pub struct ProgramHeader {
    /// What it describes: 1 is a segment to load, 2 and 3 ask for a dynamic linker.
    pub kind: u32,
    /// The offset of its bytes in the file.
    pub offset: u32,
    /// The address of its first byte in memory.
    pub address: u32,
    /// How many bytes it has in the file.
    pub file_size: u32,
    /// How many bytes it has in memory.
    pub memory_size: u32,
}

/// The segments of a table of program headers, in the file's order, or its first fault.
#[tactic(auto, unfolding(crate::specs::Segments::segments_of))]
pub fn segments_of(
    alloc: Global,
    file: &[u8],
    order: Order,
    table: Table,
) -> Result<Segments, ElfFault>
    ensures { Gives (λ segments. segments) result (segments_of order file.now table) }
{
    if table.count == 0 {
        return Ok(Segments::new(alloc));
    }
    if table.entry_size as usize != LEN {
        return Err(ElfFault::Sizes { at: 42 });
    }
    let start = table.offset as usize;
    let count = table.count as usize;
    if !has_bytes(file, start, LEN * count) {
        return Err(ElfFault::Truncated { at: 28 });
    }
    load_all(alloc, file, order, start, count)
}

/// The segments of as many program headers as `count`, from an offset on.
fn load_all(
    alloc: Global,
    file: &[u8],
    order: Order,
    start: usize,
    count: usize,
) -> Result<Segments, ElfFault>
    requires { start + 32 * count ≤ length file.now }
    ensures { Gives (λ segments. segments) result (loaded_from order file.now start count []) }
{
    let mut segments = Loaded::new(alloc);
    let mut at = start;
    for _ in 0..count {
        load(alloc, file, order, at, &mut segments)?;
        at += LEN;
    }
    Ok(segments.into_segments())
}

/// Puts the segment of the program header at an offset after the others, if it has one.
#[tactic(auto, unfolding(crate::specs::Segments::loaded))]
fn load(
    alloc: Global,
    file: &[u8],
    order: Order,
    at: usize,
    segments: &mut Loaded,
) -> Result<(), ElfFault>
    requires { at + 32 ≤ length file.now }
    ensures { Gives (λ _. segments.new) result
        (loaded file.now at (program_header_at order (drop at file.now)) segments.old) }
{
    let header = program_header_at(&file[at..], order);
    if is_dynamic(header) {
        return Err(ElfFault::Unsupported { at });
    }
    if is_skipped(header) {
        return Ok(());
    }
    match load_fault(file, at, header, segments) {
        Some(fault) => Err(fault),
        None => Ok(load_segment(alloc, file, header, segments)?),
    }
}

/// Puts the segment of a program header that can be loaded after the others.
fn load_segment(
    alloc: Global,
    file: &[u8],
    header: ProgramHeader,
    segments: &mut Loaded,
) -> Result<(), NoMemory>
    requires skipped { is_skipped header ≡ false }
    requires sizes { has_bad_sizes header ≡ false }
    requires whole { is_cut file.now header ≡ false }
    requires inside { is_outside header ≡ false }
    requires apart { lies_in segments.old header.address (header.address + header.memory_size) ≡ false }
    ensures { OnOk result (segments.new
        ≡ segments.old ++ record { address = header.address; bytes = loaded_bytes file.now header } ∷ []) }
{
    let bytes = loaded_bytes(alloc, file, header)?;
    let segment = Segment {
        address: header.address,
        bytes,
    };
    segments.push(segment, header.address + header.memory_size)
}

/// The program header that bytes begin with.
fn program_header_at(bytes: &[u8], order: Order) -> ProgramHeader
    requires { 32 ≤ length bytes.now }
    ensures { result ≡ program_header_at order bytes.now }
{
    ProgramHeader {
        kind: word_at(bytes, 0, order),
        offset: word_at(bytes, 4, order),
        address: word_at(bytes, 8, order),
        file_size: word_at(bytes, 16, order),
        memory_size: word_at(bytes, 20, order),
    }
}

/// Whether it asks for a dynamic linker (PT_DYNAMIC, PT_INTERP).
fn is_dynamic(header: ProgramHeader) -> bool
    ensures { result ≡ is_dynamic header }
{
    header.kind == 2 || header.kind == 3
}

/// Whether nothing is loaded by it: it isn't PT_LOAD, or has no bytes.
fn is_skipped(header: ProgramHeader) -> bool
    ensures { result ≡ is_skipped header }
{
    header.kind != 1 || (header.memory_size == 0 && header.file_size == 0)
}

/// Why a segment can't be loaded after those that are.
#[tactic(auto, unfolding(crate::specs::Segments::load_fault))]
fn load_fault(file: &[u8], at: usize, header: ProgramHeader, before: &Loaded) -> Option<ElfFault>
    ensures { result ≡ load_fault file.now at header before.now }
{
    if has_bad_sizes(header) {
        return Some(ElfFault::Sizes { at });
    }
    if is_cut(file, header) {
        return Some(ElfFault::Truncated { at });
    }
    if is_outside(header) {
        return Some(ElfFault::Outside { at });
    }
    if before.lies_in(header.address, header.address + header.memory_size) {
        return Some(ElfFault::Overlap { at });
    }
    None
}

/// Whether it has more bytes in the file than in memory, or memory ends before it does.
fn has_bad_sizes(header: ProgramHeader) -> bool
    ensures { result ≡ has_bad_sizes header }
{
    header.memory_size < header.file_size
        || header.address as u64 + header.memory_size as u64 > 0x1_0000_0000
}

/// Whether the file ends before its bytes do.
fn is_cut(file: &[u8], header: ProgramHeader) -> bool
    ensures { result ≡ is_cut file.now header }
{
    header.file_size != 0 && !has_bytes(file, header.offset as usize, header.file_size as usize)
}

/// Whether not all of it is loaded to 0x80000000 to 0x80FFFFFF.
fn is_outside(header: ProgramHeader) -> bool
    ensures { result ≡ is_outside header }
{
    header.address < BASE || header.address as u64 + header.memory_size as u64 > TOP as u64
}

/// The bytes of the file, then zero up to the size in memory.
fn loaded_bytes(alloc: Global, file: &[u8], header: ProgramHeader) -> Result<Bytes, NoMemory>
    requires sizes { has_bad_sizes header ≡ false }
    requires whole { is_cut file.now header ≡ false }
    ensures { IfOk result (λ bytes. bytes ≡ loaded_bytes file.now header) }
{
    let mut bytes = Vec::with_capacity(alloc, header.memory_size as usize)?;
    if header.file_size != 0 {
        let start = header.offset as usize;
        bytes.extend_from_slice(&file[start..start + header.file_size as usize])?;
    }
    bytes.resize(header.memory_size as usize, 0)?;
    Ok(Bytes::from_vec(bytes))
}
