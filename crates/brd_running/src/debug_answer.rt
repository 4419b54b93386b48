//! What `debug` answers.

ghost use Rattle.std.specs.Prelude.{◌≡◌, option_map, IfOk};
ghost use Rattle.brd_board.specs.Board.{registers_of};
ghost use Rattle.brd_mem.specs.Memory.{byte_at};
ghost use Rattle.brd_running.specs.Answers as answers;
ghost use Rattle.brd_report.specs.Report.{number_line};

use crate::debug_line::DebugCommand;
use brd_base::NoMemory;
use brd_board::Board;
use brd_debug::{DebugFault, Debugger};
use brd_progress::Progress;
use brd_report::{show_context, show_number};
use brd_text::hex_digits;
use std::alloc::Global;

/// What is said beside the answer to what is no command.
const COMMANDS: &str =
    "commands: goto N, next, back, break X, watch X, regs CPU, mem X, quit; X is an address of eight \
hexadecimal digits without 0x, as 80000010 (board trace and nm say where what lies)";

/// Does a command. What is answered to it; `None` to `quit`, which has no answer, and ends. How far a move is, is told
/// on the way.
pub fn answer<P: Progress>(
    alloc: Global,
    debugger: &mut Debugger,
    command: DebugCommand,
    progress: &mut P,
) -> Result<Option<Vec<u8>>, NoMemory>
    ensures { IfOk result (λ answer.
        answers.DoesOrQuits debugger.old command (option_map (λ bytes. bytes.items) answer) debugger.new) }
{
    let answer = match command {
        DebugCommand::Goto(position) => goto(alloc, debugger, position, progress)?,
        DebugCommand::Next => found(alloc, debugger.next_stop_telling(progress)?)?,
        DebugCommand::Back => found(alloc, debugger.last_stop_telling(progress)?)?,
        DebugCommand::Break(address) => set(alloc, debugger.add_break(address))?,
        DebugCommand::Watch(address) => set(alloc, debugger.add_watch(address))?,
        DebugCommand::Registers(cpu) => registers(alloc, debugger.show(), cpu)?,
        DebugCommand::Memory(address) => byte(alloc, debugger.show(), address)?,
        DebugCommand::Quit => return Ok(None),
        DebugCommand::Unknown => {
            progress.warn(&COMMANDS);
            line(alloc, b"unknown")?
        }
    };
    Ok(Some(answer))
}

/// Goes to a position, where there is one, and says so.
fn goto<P: Progress>(
    alloc: Global,
    debugger: &mut Debugger,
    position: u64,
    progress: &mut P,
) -> Result<Vec<u8>, NoMemory>
    ensures { IfOk result (λ text.
        (text.items ≡ answers.goto_text debugger.old position)
        × (debugger.new ≡ answers.after_goto debugger.old position)) }
{
    match debugger.goto_telling(position, progress) {
        Ok(()) => number(alloc, "at", position),
        Err(DebugFault::Past { len }) => number(alloc, "past", len),
        Err(DebugFault::NoMemory) => Err(NoMemory),
    }
}

/// The stop that was found.
fn found(alloc: Global, stop: Option<u64>) -> Result<Vec<u8>, NoMemory>
    ensures { IfOk result (λ text. text.items ≡ answers.found_text stop) }
{
    match stop {
        Some(position) => number(alloc, "at", position),
        None => line(alloc, b"none"),
    }
}

/// Whether an address is set.
fn set(alloc: Global, is_set: bool) -> Result<Vec<u8>, NoMemory>
    ensures { IfOk result (λ text. text.items ≡ answers.set_text is_set) }
{
    if is_set {
        line(alloc, b"ok")
    } else {
        line(alloc, b"full")
    }
}

/// The registers of a processor.
fn registers(alloc: Global, board: &Board, cpu: u8) -> Result<Vec<u8>, NoMemory>
    ensures { IfOk result (λ text. text.items ≡ answers.registers_text (registers_of board.now cpu)) }
{
    let Some(context) = board.registers(cpu) else {
        return line(alloc, b"none");
    };
    let mut text = Vec::new(alloc);
    show_context(alloc, &mut text, &context)?;
    Ok(text)
}

/// A byte of RAM.
fn byte(alloc: Global, board: &Board, address: u32) -> Result<Vec<u8>, NoMemory>
    ensures { IfOk result (λ text. text.items ≡ answers.byte_text (byte_at board.now.memory address)) }
{
    match board.memory(address) {
        Some(byte) => line(alloc, &hex_digits(byte as u32)[6..]),
        None => line(alloc, b"outside"),
    }
}

/// A line: a name and a number.
fn number(alloc: Global, name: &str, number: u64) -> Result<Vec<u8>, NoMemory>
    ensures { IfOk result (λ text. text.items ≡ number_line name.now number) }
{
    let mut text = Vec::new(alloc);
    show_number(alloc, &mut text, name, number)?;
    Ok(text)
}

/// These bytes and a newline.
fn line(alloc: Global, text: &[u8]) -> Result<Vec<u8>, NoMemory>
    ensures { IfOk result (λ line. line.items ≡ answers.ended text.now) }
{
    let mut line = Vec::new(alloc);
    line.extend_from_slice(text)?;
    line.push(b'\n')?;
    Ok(line)
}
