//! The lines that `debug` reads.

ghost use Rattle.std.specs.Prelude.{◌≡◌};
ghost use Rattle.brd_running.specs.DebugLine as line;

use brd_text::{hex_word, plain_decimal};

/// What a line asks of the debugger.
#[derive(Clone, Copy, PartialEq, Eq)]
pub enum DebugCommand {
    /// Goes to a position: shows the board after n events.
    Goto(u64),
    /// Goes to the next stop.
    Next,
    /// Goes to the last stop before the position.
    Back,
    /// Sets a break at the instruction at an address.
    Break(u32),
    /// Sets a watch on the byte at an address.
    Watch(u32),
    /// Shows the registers of a processor.
    Registers(u8),
    /// Shows the byte at an address.
    Memory(u32),
    /// Ends.
    Quit,
    /// Nothing that the debugger knows.
    Unknown,
}

/// The command that a line without its newline says.
pub fn command_of(text: &[u8]) -> DebugCommand
    ensures { result ≡ line.command_of text.now }
{
    if text == b"next".as_slice() {
        return DebugCommand::Next;
    }
    if text == b"back".as_slice() {
        return DebugCommand::Back;
    }
    if text == b"quit".as_slice() {
        return DebugCommand::Quit;
    }
    match with_argument(text) {
        Some(command) => command,
        None => DebugCommand::Unknown,
    }
}

/// The command of a line that has a word, one space and an argument; `None` for any other line.
fn with_argument(text: &[u8]) -> Option<DebugCommand>
    ensures { result ≡ line.with_argument text.now }
{
    if let Some(digits) = text.strip_prefix(b"goto ") {
        let position = plain_decimal(digits, u64::MAX)?;
        return Some(DebugCommand::Goto(position));
    }
    if let Some(digits) = text.strip_prefix(b"break ") {
        let address = hex_word(digits)?;
        return Some(DebugCommand::Break(address));
    }
    if let Some(digits) = text.strip_prefix(b"watch ") {
        let address = hex_word(digits)?;
        return Some(DebugCommand::Watch(address));
    }
    if let Some(digits) = text.strip_prefix(b"regs ") {
        let cpu = plain_decimal(digits, u8::MAX as u64)?;
        return Some(DebugCommand::Registers(cpu as u8));
    }
    if let Some(digits) = text.strip_prefix(b"mem ") {
        let address = hex_word(digits)?;
        return Some(DebugCommand::Memory(address));
    }
    None
}
