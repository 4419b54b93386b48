//! The command `asm`.

ghost use Rattle.std.specs.Prelude.{◌≡◌, ◌≢◌, Err as err, IfSome, MatchResult};
ghost use Rattle.brd_asm.specs.Image.{program_of};
ghost use Rattle.brd_asm.specs.declared.fault.AsmFault.TheVariants as asm_fault;
ghost use Rattle.brd_running.specs.Files.{AsmFilesEnd};
ghost use Rattle.brd_running.specs.AsmCommand.{AsmEnds, IsObjectFile, KeepsFromAssembling, faulty_line};
ghost use Rattle.brd_inputs.specs.FileKinds.{source_looks_like};

use crate::warnings::warn_of_source;
use brd_asm::{AsmFault, assemble};
use brd_base::NoMemory;
use brd_inputs::{
    Clue, CommandFault, Excerpt, FileKind, Files, InputName, other_kind, read_whole, source_hint,
};
use brd_progress::Progress;
use brd_report::write_whole;
use std::alloc::Global;
use std::io::{Read, Write};

/// Reads assembler source to its end and writes the object file of its image. Nothing is written before a fault of the
/// source is known. What is odd about a source that has an object file is told once that is written.
pub fn asm<R: Read, W: Write, P: Progress>(
    alloc: Global,
    reader: &mut R,
    writer: &mut W,
    progress: &mut P,
) -> Result<(), CommandFault>
    ensures { IfSome (R.remaining reader.old) (λ source.
        AsmEnds result source (W.contents writer.old) (W.contents writer.new)) }
{
    let source = match read_whole(alloc, InputName::Source, reader) {
        Ok(source) => source,
        Err(fault) => return Err(fault),
    };
    let file = match object_file(alloc, &source) {
        Ok(file) => file,
        Err(fault) => return Err(fault),
    };
    match write_whole(writer, &file) {
        Ok(()) => {
            warn_of_source(alloc, &source, progress);
            Ok(())
        }
        Err(error) => Err(CommandFault::Write(error)),
    }
}

/// Does `asm` on its files: SOURCE is opened, then OUT is created or emptied, then the source is read. OUT is let go as
/// `asm` left it.
pub fn asm_files<F: Files, P: Progress>(
    alloc: Global,
    files: &mut F,
    source: &str,
    out: &str,
    progress: &mut P,
) -> Result<(), CommandFault>
    ensures { AsmFilesEnd F.opened F.created F.closed F.Input.remaining F.Output.contents
        files.old source.now out.now result files.new }
{
    let mut reader = match files.open(source) {
        Ok(reader) => reader,
        Err(error) => return Err(CommandFault::of_open(alloc, source, error)),
    };
    let mut writer = match files.create(out) {
        Ok(writer) => writer,
        Err(error) => return Err(CommandFault::of_open(alloc, out, error)),
    };
    let ended = asm(alloc, &mut reader, &mut writer, progress);
    files.close(writer);
    ended
}

/// The object file of a source. An image that no file can hold is refused before its file is made.
pub fn object_file(alloc: Global, source: &[u8]) -> Result<Vec<u8>, CommandFault>
    ensures { MatchResult result (λ file. IsObjectFile source.now file.items) (KeepsFromAssembling source.now) }
{
    let image = match assemble(alloc, source) {
        Ok(image) => image,
        Err(AsmFault::NoMemory) => return Err(CommandFault::NoMemory),
        Err(fault) => return Err(source_fault(alloc, source, fault)),
    };
    if !brd_elf::fits(&image) {
        return Err(CommandFault::ImageTooLarge);
    }
    Ok(brd_elf::write(alloc, &image)?)
}

/// The fault of a source as a command ends with it.
pub fn source_fault(alloc: Global, source: &[u8], fault: AsmFault) -> CommandFault
    ensures { fault ≢ asm_fault.NoMemory → program_of source.now ≡ err fault → KeepsFromAssembling source.now result }
{
    match Excerpt::of_line(alloc, source, line_of(fault)) {
        Ok(excerpt) => CommandFault::Source(fault, excerpt, clue_of(alloc, fault, source)),
        Err(NoMemory) => CommandFault::NoMemory,
    }
}

/// The line that a fault is in, counted from 1.
pub fn line_of(fault: AsmFault) -> usize
    ensures { result ≡ faulty_line fault }
{
    match fault {
        AsmFault::NoMemory => 1,
        AsmFault::Syntax { line }
        | AsmFault::UnknownName { line }
        | AsmFault::Twice { line }
        | AsmFault::Range { line }
        | AsmFault::Misaligned { line }
        | AsmFault::Overlap { line } => line,
    }
}

/// The other kind of which a source looks that hasn't the form of one.
fn looks_like(fault: AsmFault, source: &[u8]) -> Option<FileKind>
    ensures { result ≡ source_looks_like source.now fault }
{
    match fault {
        AsmFault::Syntax { .. } => other_kind(FileKind::Source, source),
        _ => None,
    }
}

/// What is said beside the fault of a source: the other kind of which it looks, and the diagnosis of the faulty line.
fn clue_of(alloc: Global, fault: AsmFault, source: &[u8]) -> Clue
    ensures { result ≡ source_looks_like source.now fault }
{
    let kind = looks_like(fault, source);
    Clue::new(kind, source_hint(alloc, source, fault))
}
