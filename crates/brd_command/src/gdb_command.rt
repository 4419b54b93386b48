//! The command `gdb`.

ghost use Rattle.std.specs.Prelude.{IfSome};
ghost use Rattle.brd_command.specs.GdbCommand.{EndsServing, GdbEnds, GdbFilesEnd, IsCutOff};

use crate::gdb_input::next_sent;
use crate::gdb_server::Server;
use brd_inputs::{CommandFault, Files, InputName, Inputs, open_inputs, read_start};
use brd_progress::Progress;
use brd_report::write_whole;
use std::alloc::Global;
use std::io::{self, ErrorKind, Read, Write};

/// Reads an object file, a configuration and a journal to their ends, in this order, and then serves GDB with a session
/// of the board that the first two make and of the journal: standard input has what GDB sends, and the answers are
/// written, each before more is read. It ends where GDB goes; an input that ends before is a fault. How far a move is,
/// is told on the way.
pub fn gdb<R: Read, C: Read, W: Write, P: Progress>(
    alloc: Global,
    inputs: &mut Inputs<R>,
    input: &mut C,
    writer: &mut W,
    progress: &mut P,
) -> Result<(), CommandFault>
    ensures { IfSome (R.remaining inputs.old.image) (λ file. IfSome (R.remaining inputs.old.config) (λ statements.
        IfSome (R.remaining inputs.old.last) (λ events.
        GdbEnds C.remaining file statements events input.old input.new result (W.contents writer.old)
        (W.contents writer.new)))) }
{
    let start = match read_start(alloc, inputs) {
        Ok(start) => start,
        Err(fault) => return Err(fault),
    };
    let mut server = Server::new(alloc, start)?;
    serve_all(alloc, &mut server, input, writer, progress)
}

/// Does `gdb` on its files: IMAGE is opened, then CONFIG, then JOURNAL, and then all are read. What GDB sends comes
/// from `input`, and the answers are written.
pub fn gdb_files<F: Files, R: Read, W: Write, P: Progress>(
    alloc: Global,
    files: &mut F,
    image: &str,
    config: &str,
    journal: &str,
    input: &mut R,
    output: &mut W,
    progress: &mut P,
) -> Result<(), CommandFault>
    ensures { GdbFilesEnd F.opened F.Input.remaining R.remaining files.old image.now config.now journal.now
        input.old input.new (W.contents output.old) (W.contents output.new) result files.new }
{
    let mut inputs = match open_inputs(alloc, files, image, config, journal) {
        Ok(inputs) => inputs,
        Err(fault) => return Err(fault),
    };
    gdb(alloc, &mut inputs, input, output, progress)
}

/// Serves GDB up to the packet with which it goes. Writes each answer before it reads on.
fn serve_all<R: Read, W: Write, P: Progress>(
    alloc: Global,
    server: &mut Server,
    input: &mut R,
    writer: &mut W,
    progress: &mut P,
) -> Result<(), CommandFault>
    ensures { IfSome (R.remaining input.old) (λ text.
        EndsServing result server.old text (R.remaining input.new) (W.contents writer.old)
        (W.contents writer.new)) }
{
    for _ in 0..u64::MAX {
        let byte = match next_sent(input) {
            Ok(Some(byte)) => byte,
            Ok(None) => return Err(cut_off()),
            Err(fault) => return Err(fault),
        };
        let served = server.serve(alloc, byte, progress)?;
        match write_whole(writer, &served.bytes) {
            Ok(()) => {}
            Err(error) => return Err(CommandFault::Write(error)),
        }
        if served.is_over {
            return Ok(());
        }
    }
    Err(CommandFault::TooManyReads(InputName::StandardInput))
}

/// That standard input has ended before GDB went.
fn cut_off() -> CommandFault
    ensures { IsCutOff result }
{
    CommandFault::Read(
        InputName::StandardInput,
        io::Error::from(ErrorKind::UnexpectedEof),
    )
}
