//! The command `run`.

ghost use Rattle.std.specs.Prelude.{◌≡◌, length, IfOk, IfSome};
ghost use Rattle.brd_board.specs.Board.{after};
ghost use Rattle.brd_report.specs.Report.{report_of};
ghost use Rattle.brd_running.specs.Files.{RunFilesEnd};
ghost use Rattle.brd_running.specs.RunCommand.{RunEnds};

use crate::progress::replay;
use crate::warnings::{warn_of_end, warn_of_run};
use brd_base::NoMemory;
use brd_inputs::{CommandFault, Files, Inputs, Start, open_inputs, read_start};
use brd_progress::Progress;
use brd_report::{report, write_whole};
use std::alloc::Global;
use std::io::{Read, Write};

/// Reads an object file, a configuration and a journal to their ends, in this order, lets the board that the first two
/// make do the journal's events, and writes its report. Nothing is written where what was read has a fault. What is odd
/// about it is told first, on the way how far it is, and then which exceptions have ended tasks.
pub fn run<R: Read, W: Write, P: Progress>(
    alloc: Global,
    inputs: &mut Inputs<R>,
    writer: &mut W,
    progress: &mut P,
) -> Result<(), CommandFault>
    ensures { IfSome (R.remaining inputs.old.image) (λ file. IfSome (R.remaining inputs.old.config) (λ statements.
        IfSome (R.remaining inputs.old.last) (λ events.
        RunEnds result file statements events (W.contents writer.old) (W.contents writer.new)))) }
{
    let start = match read_start(alloc, inputs) {
        Ok(start) => start,
        Err(fault) => return Err(fault),
    };
    let output = report_after(alloc, start, progress)?;
    match write_whole(writer, &output) {
        Ok(()) => Ok(()),
        Err(error) => Err(CommandFault::Write(error)),
    }
}

/// Does `run` on its files: IMAGE is opened, then CONFIG, then JOURNAL, and then all are read. The report is written.
pub fn run_files<F: Files, W: Write, P: Progress>(
    alloc: Global,
    files: &mut F,
    image: &str,
    config: &str,
    journal: &str,
    output: &mut W,
    progress: &mut P,
) -> Result<(), CommandFault>
    ensures { RunFilesEnd F.opened F.Input.remaining files.old image.now config.now journal.now
        (W.contents output.old) (W.contents output.new) result files.new }
{
    let mut inputs = match open_inputs(alloc, files, image, config, journal) {
        Ok(inputs) => inputs,
        Err(fault) => return Err(fault),
    };
    run(alloc, &mut inputs, output, progress)
}

/// The report of a board after the events of a journal.
fn report_after<P: Progress>(
    alloc: Global,
    start: Start,
    progress: &mut P,
) -> Result<Vec<u8>, NoMemory>
    ensures { IfOk result (λ output.
        output.items ≡ report_of (length start.journal.events) (after start.board start.journal.events)) }
{
    let Start {
        board,
        image: _,
        config: _,
        journal,
    } = start;
    warn_of_run(&board, &journal, progress);
    let board = replay(&journal, board, progress);
    warn_of_end(&board, progress);
    report(alloc, &board, journal.len())
}
