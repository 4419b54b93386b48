//! The object file with data.

ghost use Rattle.std.specs.Prelude.{◌≡◌, IfOk, Ok};
ghost use Rattle.brd_elf.specs.Meaning.{meaning};
ghost use Rattle.brd_patch.specs.Data.{AreWithin, HasData};

use crate::fault::PatchFault;
use crate::pieces::with_pieces;
use crate::same::is_with;
use brd_base::NoMemory;
use brd_elf::{ElfFault, read};
use brd_mem::{Image, Segment};
use brd_word::Order;
use byteorder::{BigEndian, ByteOrder, LittleEndian};
use std::alloc::Global;

/// How many bytes the header of an object file has.
const HEADER: usize = 52;

/// How many bytes a program header has.
const PROGRAM_HEADER: usize = 32;

/// How many program headers there may be.
const MOST_SEGMENTS: usize = 65_534;

/// How many bytes there may be.
const MOST_BYTES: usize = 0xffff_ffff;

/// An object file that has data beside another one, of which this is the image. All else in the file stays where it is.
/// It is read again before it is handed out, and so means what it should.
pub fn patched(
    alloc: Global,
    file: &[u8],
    image: &Image,
    pieces: &[Segment],
) -> Result<Vec<u8>, PatchFault>
    requires means { meaning file.now ≡ Ok image.now }
    requires within { AreWithin pieces.now }
    ensures { IfOk result (λ patched. HasData file.now pieces.now patched.items) }
{
    let segments = with_pieces(alloc, image.segments.as_slice(), pieces)?;
    if file.len() < HEADER || segments.len() > MOST_SEGMENTS {
        return Err(PatchFault::Misfit);
    }
    let patched = match file_with(alloc, file, image.order, segments.as_slice())? {
        Some(patched) => patched,
        None => return Err(PatchFault::Misfit),
    };
    let again = match read(alloc, &patched) {
        Ok(again) => again,
        Err(ElfFault::NoMemory) => return Err(PatchFault::NoMemory),
        Err(_) => return Err(PatchFault::Misfit),
    };
    if !is_with(&again, image, segments.as_slice()) {
        return Err(PatchFault::Misfit);
    }
    Ok(patched)
}

/// A file that loads these segments in place of its own: they lie at its end, and before them new program headers.
/// None where it is too long.
fn file_with(
    alloc: Global,
    file: &[u8],
    order: Order,
    segments: &[Segment],
) -> Result<Option<Vec<u8>>, NoMemory> {
    let mut whole = Vec::new(alloc);
    let padding = (4 - file.len() % 4) % 4;
    let table = file.len().saturating_add(padding);
    put_part(&mut whole, file, 0, 28)?;
    put_word(&mut whole, table, order)?;
    put_part(&mut whole, file, 32, 42)?;
    put_half(&mut whole, PROGRAM_HEADER, order)?;
    put_half(&mut whole, segments.len(), order)?;
    put_part(&mut whole, file, 46, file.len())?;
    put_part(&mut whole, &[0; 4], 0, padding)?;
    let mut at = table.saturating_add(PROGRAM_HEADER.saturating_mul(segments.len()));
    for segment in segments {
        put_program_header(&mut whole, segment, at, order)?;
        at = at.saturating_add(segment.bytes.len());
    }
    if at > MOST_BYTES {
        return Ok(None);
    }
    for segment in segments {
        whole.extend_from_slice(segment.bytes.as_slice())?;
    }
    Ok(Some(whole))
}

/// Puts the bytes of a file from one place to another at the end, where it has them.
fn put_part(whole: &mut Vec<u8>, file: &[u8], from: usize, to: usize) -> Result<(), NoMemory> {
    if let Some(part) = file.get(from..to) {
        whole.extend_from_slice(part)?;
    }
    Ok(())
}

/// Puts the program header of a segment whose bytes lie at an offset: one that is loaded, and may be read, written and
/// executed.
fn put_program_header(
    whole: &mut Vec<u8>,
    segment: &Segment,
    at: usize,
    order: Order,
) -> Result<(), NoMemory> {
    let address = segment.address as usize;
    let size = segment.bytes.len();
    for field in [1, at, address, address, size, size, 7, 1] {
        put_word(whole, field, order)?;
    }
    Ok(())
}

/// Puts a number of two bytes at the end, modulo 2^16.
fn put_half(whole: &mut Vec<u8>, number: usize, order: Order) -> Result<(), NoMemory> {
    let mut bytes = [0; 2];
    let half = (number % 0x1_0000) as u16;
    match order {
        Order::Big => BigEndian::write_u16(&mut bytes, half),
        Order::Little => LittleEndian::write_u16(&mut bytes, half),
    }
    whole.extend_from_slice(&bytes)?;
    Ok(())
}

/// Puts a number of four bytes at the end, modulo 2^32.
fn put_word(whole: &mut Vec<u8>, number: usize, order: Order) -> Result<(), NoMemory> {
    let mut bytes = [0; 4];
    let word = (number % 0x1_0000_0000) as u32;
    match order {
        Order::Big => BigEndian::write_u32(&mut bytes, word),
        Order::Little => LittleEndian::write_u32(&mut bytes, word),
    }
    whole.extend_from_slice(&bytes)?;
    Ok(())
}
