//! The pieces of memory that data comes to.

ghost use Rattle.std.specs.Prelude.{◌≡◌, ◌+◌, ◌≤◌, length, map, None, IfOk, OnOk};
ghost use Rattle.brd_base.specs.Space.{top};
ghost use Rattle.brd_patch.specs.Data.{AreWithin};
ghost use Rattle.brd_data.specs.Data.{AreRead, with_bytes};
ghost use Rattle.brd_data.specs.Reading.{IsFileRead, IsPiece};

use crate::fault::{DataFault, DataProblem};
use crate::part::{Part, address_of, part_of};
use brd_base::{BASE, TOP};
use brd_inputs::{CommandFault, Excerpt, Files, InputName, read_whole};
use brd_mem::{Bytes, Image, Segment, Segments};
use brd_patch::{holds_instructions, size_of_symbol};
use brd_progress::Progress;
use std::alloc::Global;
use std::fmt;

/// The object file into which data goes, and its image.
#[derive(Clone, Copy)]
pub(crate) struct Object<'a> {
    pub(crate) file: &'a [u8],
    pub(crate) image: &'a Image,
}

/// Reads the files of data, one after the other: the pieces that they come to. What lies over instructions is warned
/// of.
pub(crate) fn read_pieces<F: Files, P: Progress>(
    alloc: Global,
    files: &mut F,
    object: Object<'_>,
    texts: &[&str],
    progress: &mut P,
) -> Result<Segments, DataFault>
    ensures read { IfOk result (λ pieces. AreRead F.opened F.Input.remaining object.entry.image.now.symbols files.old
        (map (λ text. text.now) texts.now) pieces files.new) }
    ensures within { IfOk result AreWithin }
{
    let mut pieces = Segments::new(alloc);
    for text in texts {
        match read_piece(alloc, files, object, text, &mut pieces) {
            Ok(()) => {}
            Err(fault) => return Err(fault),
        }
        warn(alloc, object, text, pieces.as_slice(), progress);
    }
    Ok(pieces)
}

/// Reads the file of a text, and puts its piece after the others, if it has a byte.
fn read_piece<F: Files>(
    alloc: Global,
    files: &mut F,
    object: Object<'_>,
    text: &str,
    pieces: &mut Segments,
) -> Result<(), DataFault>
    requires { AreWithin pieces.old }
    ensures read { OnOk result (IsPiece F.opened F.Input.remaining object.entry.image.now.symbols files.old text.now
        pieces.old pieces.new files.new) }
    ensures within { OnOk result (AreWithin pieces.new) }
{
    let Some(part) = part_of(text) else {
        return Err(DataFault::of(alloc, text, DataProblem::Form));
    };
    let address = match address_of(part.place, object.image.symbols.as_slice()) {
        Ok(address) => address,
        Err(problem) => return Err(DataFault::of(alloc, text, problem)),
    };
    let bytes = match read_file(alloc, files, text, part.file) {
        Ok(bytes) => bytes,
        Err(fault) => return Err(fault),
    };
    if let Some(problem) = misfit(object, part, address, bytes.len(), pieces.as_slice()) {
        return Err(DataFault::of(alloc, text, problem));
    }
    put_piece(pieces, address, bytes)
}

/// Puts the piece of these bytes after the others, if there are any.
fn put_piece(pieces: &mut Segments, address: u32, bytes: Vec<u8>) -> Result<(), DataFault>
    requires within { AreWithin pieces.old }
    requires fits { address + length bytes.items ≤ top }
    ensures piece { OnOk result (pieces.new ≡ with_bytes pieces.old address bytes.items) }
    ensures within { OnOk result (AreWithin pieces.new) }
{
    if bytes.is_empty() {
        return Ok(());
    }
    let bytes = Bytes::from_vec(bytes);
    pieces.push(Segment { address, bytes })?;
    Ok(())
}

/// Opens and reads the file of a text to its end.
fn read_file<F: Files>(
    alloc: Global,
    files: &mut F,
    text: &str,
    name: &str,
) -> Result<Vec<u8>, DataFault>
    ensures { IfOk result (λ bytes. IsFileRead F.opened F.Input.remaining files.old name.now bytes.items files.new) }
{
    let mut reader = match files.open(name) {
        Ok(reader) => reader,
        Err(error) => return Err(DataFault::of(alloc, text, DataProblem::Open(error))),
    };
    match read_whole(alloc, InputName::StandardInput, &mut reader) {
        Ok(bytes) => Ok(bytes),
        Err(CommandFault::NoMemory) => Err(DataFault::Command(CommandFault::NoMemory)),
        Err(CommandFault::Read(_, error)) => {
            Err(DataFault::of(alloc, text, DataProblem::Read(error)))
        }
        Err(_) => Err(DataFault::of(alloc, text, DataProblem::TooLong)),
    }
}

/// Why so many bytes can't lie at an address; None where they can, and then they end where RAM may.
fn misfit(
    object: Object<'_>,
    part: Part<'_>,
    address: u32,
    len: usize,
    pieces: &[Segment],
) -> Option<DataProblem>
    ensures { result ≡ None → address + len ≤ top }
{
    if address < BASE || address >= TOP || len > (TOP - address) as usize {
        return Some(DataProblem::Outside(len));
    }
    if let Some(size) = size_of_symbol(object.file, object.image.order, part.place) {
        if len > size as usize {
            return Some(DataProblem::TooLarge(len, size));
        }
    }
    if lies_over(pieces, address, len) {
        return Some(DataProblem::Overlap);
    }
    None
}

/// Whether one of some pieces has one of so many bytes from an address on.
fn lies_over(pieces: &[Segment], address: u32, len: usize) -> bool {
    if len == 0 {
        return false;
    }
    let low = address as u64;
    let high = low.saturating_add(len as u64);
    for piece in pieces {
        let start = piece.address as u64;
        let end = start.saturating_add(piece.bytes.len() as u64);
        if low < end && start < high {
            return true;
        }
    }
    false
}

/// What is said of data of this text that lies over instructions.
#[derive(Drop)]
struct OverInstructions {
    text: Excerpt,
}

impl fmt::Display for OverInstructions {
    fn fmt<W: fmt::Write>(&self, f: &mut fmt::Formatter<W>) -> fmt::Result {
        f.write_str("--data ")?;
        self.text.fmt(f)?;
        f.write_str(": it lies over instructions")
    }
}

/// Warns where the last piece lies over instructions. Where there is no memory for that, nothing is told.
fn warn<P: Progress>(
    alloc: Global,
    object: Object<'_>,
    text: &str,
    pieces: &[Segment],
    progress: &mut P,
) {
    let Some(piece) = pieces.last() else {
        return;
    };
    let len = piece.bytes.len();
    if !holds_instructions(object.file, object.image.order, piece.address, len) {
        return;
    }
    if let Ok(text) = Excerpt::of_name(alloc, text) {
        progress.warn(&OverInstructions { text });
    }
}
