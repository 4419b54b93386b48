//! What the program does, on files and streams.

ghost use Rattle.std.specs.Prelude.{◌≡◌, map};
ghost use Rattle.brd_cli.specs.Program as program;
ghost use Rattle.brd_cli.specs.Program.{ProgramEnds};

use crate::end::EarlyEnd;
use crate::request::asked;
use crate::standard_input::input_fault;
use brd_command::{Files, Progress, Request};
use brd_data::{DataFault, Laid, perform_with_data};
use std::alloc::Global;
use std::convert::AsStr;
use std::io::{Read, Write};
use std::sync::Wait;
use std::thread::Threads;

/// Does what the words of a command line ask for, of which the first is the program's name, on files, standard input
/// and standard output. Nothing is touched where they are refused, or ask for help or for standard input twice. How far
/// a long command is, is told on the way. Answers the name of the page for a browser that was asked for, if one was.
pub fn carry_out<
    'a,
    S: AsStr,
    F: Files,
    R: Read,
    W: Write,
    P: Progress + Send,
    T: Threads + Wait + Sync,
>(
    rt: &T,
    alloc: Global,
    words: &'a [S],
    files: &mut Laid<F>,
    input: &mut R,
    output: &mut W,
    progress: &mut P,
) -> Result<Option<&'a str>, EarlyEnd>
    ensures { ProgramEnds F.opened F.created F.closed F.Input.remaining F.Output.contents R.remaining W.contents
        (map S.text words.entry.now) files.old files.new input.old input.new output.old output.new result }
{
    let asked = match asked(alloc, words) {
        Ok(asked) => asked,
        Err(stop) => return Err(stop),
    };
    if let Some(fault) = input_fault(asked.request, &asked.texts) {
        return Err(EarlyEnd::Input(fault));
    }
    match perform_with_data(
        rt,
        alloc,
        files,
        input,
        output,
        progress,
        asked.request,
        &asked.texts,
    ) {
        Ok(()) => Ok(page_of(asked.request)),
        Err(fault) => Err(of_fault(fault)),
    }
}

/// The name of the page for a browser that a request asks for.
fn page_of<'a>(request: Request<'a>) -> Option<&'a str>
    ensures { result ≡ program.page_of request.entry }
{
    match request {
        Request::Try { page, .. } => page,
        _ => None,
    }
}

/// The fault of a command, or of its data.
fn of_fault(fault: DataFault) -> EarlyEnd
    ensures { result ≡ program.of_fault fault }
{
    match fault {
        DataFault::Command(fault) => EarlyEnd::Fault(fault),
        _ => EarlyEnd::Data(fault),
    }
}
