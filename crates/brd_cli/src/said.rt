//! What is shown of a command line that is wrong.

ghost use Rattle.std.specs.Prelude.{◌≡◌, ◌≤◌, IfOk, string_bytes};
ghost use Rattle.brd_cli.specs.Said.{ArePrintableLines};
ghost use Rattle.brd_cli.specs.Said as said;

use brd_base::NoMemory;
use std::alloc::Global;

/// What `clap` says of a command line, on its lines: a tab as a space, and what else isn't printable ASCII as `?`. So
/// nothing that an argument holds reaches a terminal as a command.
pub fn printable(alloc: Global, error: &clap::Error) -> Result<String, NoMemory>
    ensures { IfOk result (λ shown. ArePrintableLines (string_bytes shown)) }
{
    let text = format!(in alloc; "{error}")?;
    let mut shown = String::new(alloc);
    for byte in text.as_bytes() {
        shown.push(shown_byte(*byte) as char)?;
    }
    Ok(shown)
}

/// A byte as it is shown.
fn shown_byte(byte: u8) -> u8
    ensures is { result ≡ said.shown_byte byte }
    ensures most { result ≤ 126 }
{
    match byte {
        b'\n' | b' '..=b'~' => byte,
        b'\t' => b' ',
        _ => b'?',
    }
}
