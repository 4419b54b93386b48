//! What `words` prints of a board.

ghost use Rattle.std.specs.Prelude.{◌≡◌, ◌++◌, OnOk};
ghost use Rattle.brd_report.specs.Shown.{line_of, line_unless_zero, registers_shown, context_shown, bit_digit};
ghost use Rattle.brd_report.specs.Shown.{fault_shown};

use brd_base::NoMemory;
use brd_board::Fault;
use brd_exec::Context;
use brd_text::hex_digits;
use std::alloc::Global;

/// Puts a context's lines at the end: where it is, then what isn't 0.
pub fn show_context(alloc: Global, out: &mut Vec<u8>, context: &Context) -> Result<(), NoMemory>
    ensures { OnOk result (out.new.items ≡ out.old.items ++ context_shown context.now) }
{
    show_line(out, b"pc", context.pc())?;
    show_registers(alloc, out, context.registers())?;
    show_unless_zero(out, b"hi", context.hi())?;
    show_unless_zero(out, b"lo", context.lo())?;
    Ok(())
}

/// Puts the lines of the registers that aren't 0 at the end.
fn show_registers(alloc: Global, out: &mut Vec<u8>, registers: &[u32]) -> Result<(), NoMemory>
    ensures { OnOk result (out.new.items ≡ out.old.items ++ registers_shown 0 registers.now) }
{
    for (number, word) in registers.iter().enumerate() {
        let name = format!(in alloc; "${number}")?;
        show_unless_zero(out, name.as_bytes(), *word)?;
    }
    Ok(())
}

/// Puts a line at the end, unless the word is 0.
fn show_unless_zero(out: &mut Vec<u8>, name: &[u8], word: u32) -> Result<(), NoMemory>
    ensures { OnOk result (out.new.items ≡ out.old.items ++ line_unless_zero name.now word) }
{
    if word == 0 {
        return Ok(());
    }
    show_line(out, name, word)
}

/// Puts a line at the end: a name and a word.
fn show_line(out: &mut Vec<u8>, name: &[u8], word: u32) -> Result<(), NoMemory>
    ensures { OnOk result (out.new.items ≡ out.old.items ++ line_of name.now word) }
{
    out.extend_from_slice(name)?;
    out.push(b' ')?;
    out.extend_from_slice(&hex_digits(word))?;
    out.push(b'\n')?;
    Ok(())
}

/// Puts the line of the last fault at the end, if there was one.
pub fn show_fault(alloc: Global, out: &mut Vec<u8>, fault: Option<Fault>) -> Result<(), NoMemory>
    ensures { OnOk result (out.new.items ≡ out.old.items ++ fault_shown fault) }
{
    let Some(Fault { code, epc, bd }) = fault else {
        return Ok(());
    };
    let number = format!(in alloc; "fault {}", code.number())?;
    out.extend_from_slice(number.as_bytes())?;
    out.push(b' ')?;
    out.extend_from_slice(&hex_digits(epc))?;
    out.extend_from_slice(&[b' ', one_or_zero(bd), b'\n'])?;
    Ok(())
}

/// A bit as a digit.
fn one_or_zero(bit: bool) -> u8
    ensures { result ≡ bit_digit bit }
{
    if bit { b'1' } else { b'0' }
}
