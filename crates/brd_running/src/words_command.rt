//! The command `words`.

ghost use Rattle.std.specs.Prelude.{◌≡◌, ◌≤◌, length, IfOk, IfSome};
ghost use Rattle.brd_report.specs.Shown.{board_shown};
ghost use Rattle.brd_running.specs.WordsCommand.{ShowsWords, WordsEnds};

use crate::word_text::parse_words;
use brd_base::NoMemory;
use brd_board::{Board, BootFault, Event};
use brd_inputs::{CommandFault, InputName, WordsFault, read_whole};
use brd_report::{show_context, show_fault, write_whole};
use std::alloc::Global;
use std::io::{Read, Write};

/// Reads words to the input's end, lets processor 1 of their board execute n instructions, and writes task 1's
/// context and the last fault. Nothing is written before a fault of the input is known.
pub fn words<R: Read, W: Write>(
    alloc: Global,
    reader: &mut R,
    writer: &mut W,
    steps: u32,
) -> Result<(), CommandFault>
    ensures { IfSome (R.remaining reader.old) (λ input.
        WordsEnds result input steps (W.contents writer.old) (W.contents writer.new)) }
{
    let text = match read_whole(alloc, InputName::StandardInput, reader) {
        Ok(text) => text,
        Err(fault) => return Err(fault),
    };
    let words = match parse_words(alloc, &text) {
        Ok(words) => words,
        Err(WordsFault::NoMemory) => return Err(CommandFault::NoMemory),
        Err(fault) => return Err(CommandFault::Words(fault)),
    };
    let output = output_of(alloc, &words, steps)?;
    match write_whole(writer, &output) {
        Ok(()) => Ok(()),
        Err(error) => Err(CommandFault::Write(error)),
    }
}

/// What is written for these words.
fn output_of(alloc: Global, words: &[u32], steps: u32) -> Result<Vec<u8>, NoMemory>
    requires { length words.now ≤ 16384 }
    ensures { IfOk result (λ output. ShowsWords words.now steps output.items) }
{
    let mut board = match Board::from_words(alloc, words) {
        Ok(board) => board,
        Err(BootFault::NoMemory) => return Err(NoMemory),
        Err(_) => unreachable!(),
    };
    board.repeat(Event::Step(1), steps);
    shown_board(alloc, &board)
}

/// What is written of a board.
fn shown_board(alloc: Global, board: &Board) -> Result<Vec<u8>, NoMemory>
    ensures { IfOk result (λ output. output.items ≡ board_shown board.now) }
{
    let mut output = Vec::new(alloc);
    if let Some(task) = board.task(1) {
        show_context(alloc, &mut output, &task.context)?;
    }
    show_fault(alloc, &mut output, board.last_fault(1))?;
    Ok(output)
}
