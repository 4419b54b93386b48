//! The command `debug`.

ghost use Rattle.std.specs.Prelude.{IfSome};
ghost use Rattle.brd_running.specs.Debugging.{EndsAnswering, DebugEnds};
ghost use Rattle.brd_running.specs.Files.{DebugFilesEnd};

use crate::debug_answer::answer;
use crate::debug_line::command_of;
use crate::lines::{Taken, next_line};
use brd_debug::Debugger;
use brd_inputs::{CommandFault, Files, Inputs, open_inputs, read_start};
use brd_progress::Progress;
use brd_report::write_whole;
use std::alloc::Global;
use std::io::{Read, Write};

/// Reads an object file, a configuration and a journal to their ends, in this order, and then does the commands of
/// standard input, one a line, with a debugger of the board that the first two make and of the journal. Each answer is
/// written before the next command is read. It ends with `quit`, and with the input. How far a command is, is told on
/// the way.
pub fn debug<R: Read, C: Read, W: Write, P: Progress>(
    alloc: Global,
    inputs: &mut Inputs<R>,
    input: &mut C,
    writer: &mut W,
    progress: &mut P,
) -> Result<(), CommandFault>
    ensures { IfSome (R.remaining inputs.old.image) (λ file. IfSome (R.remaining inputs.old.config) (λ statements.
        IfSome (R.remaining inputs.old.last) (λ events.
        DebugEnds C.remaining file statements events input.old input.new result (W.contents writer.old)
        (W.contents writer.new)))) }
{
    let start = match read_start(alloc, inputs) {
        Ok(start) => start,
        Err(fault) => return Err(fault),
    };
    let mut debugger = Debugger::new(alloc, start.board, start.journal)?;
    answer_all(alloc, &mut debugger, input, writer, progress)
}

/// Does `debug` on its files: IMAGE is opened, then CONFIG, then JOURNAL, and then all are read. The commands come from
/// `input`, and the answers are written.
pub fn debug_files<F: Files, R: Read, W: Write, P: Progress>(
    alloc: Global,
    files: &mut F,
    image: &str,
    config: &str,
    journal: &str,
    input: &mut R,
    output: &mut W,
    progress: &mut P,
) -> Result<(), CommandFault>
    ensures { DebugFilesEnd F.opened F.Input.remaining R.remaining files.old image.now config.now journal.now
        input.old input.new (W.contents output.old) (W.contents output.new) result files.new }
{
    let mut inputs = match open_inputs(alloc, files, image, config, journal) {
        Ok(inputs) => inputs,
        Err(fault) => return Err(fault),
    };
    debug(alloc, &mut inputs, input, output, progress)
}

/// Does the commands of standard input, one a line, up to `quit` or the end. Writes each answer before it reads on.
fn answer_all<R: Read, W: Write, P: Progress>(
    alloc: Global,
    debugger: &mut Debugger,
    input: &mut R,
    writer: &mut W,
    progress: &mut P,
) -> Result<(), CommandFault>
    ensures { IfSome (R.remaining input.old) (λ text.
        EndsAnswering result debugger.old text (R.remaining input.new) (W.contents writer.old)
        (W.contents writer.new)) }
{
    let mut taken = Taken {
        bytes: 0,
        reads: 0,
        ended: false,
    };
    loop {
        let line = match next_line(alloc, input, &mut taken) {
            Ok(Some(line)) => line,
            Ok(None) => return Ok(()),
            Err(fault) => return Err(fault),
        };
        progress.begin();
        let answer = match answer(alloc, debugger, command_of(&line), progress)? {
            Some(answer) => answer,
            None => return Ok(()),
        };
        progress.hide();
        match write_whole(writer, &answer) {
            Ok(()) => {}
            Err(error) => return Err(CommandFault::Write(error)),
        }
    }
}
