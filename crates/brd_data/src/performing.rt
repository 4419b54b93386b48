//! What a request comes to with data.

ghost use Rattle.std.specs.Prelude.{◌≡◌, IfOk, map};
ghost use Rattle.brd_elf.specs.Meaning.{meaning};
ghost use Rattle.brd_data.specs.Performing as performing;
ghost use Rattle.brd_data.specs.Performing.{EndsWithData, IsLaid};

use crate::fault::DataFault;
use crate::laid::{Laid, Text};
use crate::object::{file_of, read_object};
use crate::pieces::{Object, read_pieces};
use brd_base::NoMemory;
use brd_command::{Request, perform};
use brd_elf::read;
use brd_image::BuildFault;
use brd_inputs::{CommandFault, Files};
use brd_mem::Image;
use brd_patch::{PatchFault, patched};
use brd_progress::Progress;
use std::alloc::Global;
use std::io::{Read, Write};
use std::sync::Wait;
use std::thread::Threads;

/// Does what was asked for, on files, standard input and standard output, with data: each text says a place and a file,
/// whose bytes lie there when the board starts. Where there is none, that is what `perform` does. Else the object file
/// is read first, then the files of the data; the command then reads the object file with the data.
pub fn perform_with_data<F: Files, R: Read, W: Write, P: Progress + Send, T: Threads + Wait + Sync>(
    rt: &T,
    alloc: Global,
    files: &mut Laid<F>,
    input: &mut R,
    output: &mut W,
    progress: &mut P,
    request: Request<'_>,
    texts: &[&str],
) -> Result<(), DataFault>
    ensures { EndsWithData F.opened F.created F.closed F.Input.remaining F.Output.contents R.remaining W.contents
        request.entry (map (λ text. text.now) texts.now) files.old files.new input.old input.new output.old output.new
        result }
{
    if texts.is_empty() {
        return of_command(perform(rt, alloc, files, input, output, progress, request));
    }
    match lay_data(alloc, files, request, texts, progress) {
        Ok(()) => of_command(perform(rt, alloc, files, input, output, progress, request)),
        Err(fault) => Err(fault),
    }
}

/// The end of a request, from its command's.
fn of_command(end: Result<(), CommandFault>) -> Result<(), DataFault>
    ensures { result ≡ performing.of_command end }
{
    match end {
        Ok(()) => Ok(()),
        Err(fault) => Err(DataFault::Command(fault)),
    }
}

/// Reads the object file of a request, then the files of its data, and lays the object file with the data over it.
fn lay_data<F: Files, P: Progress>(
    alloc: Global,
    files: &mut Laid<F>,
    request: Request<'_>,
    texts: &[&str],
    progress: &mut P,
) -> Result<(), DataFault>
    ensures { IfOk result (λ _. IsLaid F.opened F.Input.remaining request.entry (map (λ text. text.now) texts.now)
        files.old files.new) }
{
    let Some(named) = file_of(request) else {
        return Err(DataFault::Misfit);
    };
    let file = match read_object(alloc, &mut files.files, named) {
        Ok(file) => file,
        Err(fault) => return Err(fault),
    };
    let image = match image_of(alloc, &file) {
        Ok(image) => image,
        Err(fault) => return Err(fault),
    };
    let object = Object {
        file: &file,
        image: &image,
    };
    let pieces = match read_pieces(alloc, &mut files.files, object, texts, progress) {
        Ok(pieces) => pieces,
        Err(fault) => return Err(fault),
    };
    let name = bytes_of(alloc, named.name)?;
    match patched(alloc, &file, &image, pieces.as_slice()) {
        Ok(bytes) => {
            files.laid = Some(Text { name, bytes });
            Ok(())
        }
        Err(PatchFault::NoMemory) => Err(DataFault::Command(CommandFault::NoMemory)),
        Err(PatchFault::Misfit) => Err(DataFault::Misfit),
    }
}

/// A copy of a name's bytes.
fn bytes_of(alloc: Global, name: &str) -> Result<Vec<u8>, NoMemory>
    ensures { IfOk result (λ bytes. bytes.items ≡ name.now) }
{
    let bytes = Vec::from_slice(alloc, name.as_bytes())?;
    Ok(bytes)
}

/// The image that an object file means.
fn image_of(alloc: Global, file: &[u8]) -> Result<Image, DataFault>
    ensures { IfOk result (λ image. meaning file.now ≡ Ok image) }
{
    match read(alloc, file) {
        Ok(image) => Ok(image),
        Err(fault) => {
            let fault = BuildFault::from(fault);
            Err(DataFault::Command(CommandFault::of_build(alloc, fault, file, &[])))
        }
    }
}
