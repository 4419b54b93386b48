//! The registers of a context on one line.

ghost use Rattle.std.specs.Prelude.{◌≡◌, ◌++◌, ◌<◌, [], codes, IfOk, OnOk, slice_index_or};
ghost use Rattle.brd_exec.specs.State.{read};
ghost use Rattle.brd_isa.specs.Registers.{register_names};
ghost use Rattle.brd_try.specs.Told as told;

use brd_base::NoMemory;
use brd_exec::Context;
use brd_isa::{Register, register_name};
use brd_text::hex_digits;
use std::alloc::Global;

/// The registers of a context that aren't 0, by their names, with two spaces between them.
#[tactic(auto, unfolding(crate::specs::Told::words_text))]
pub(crate) fn words_text(alloc: Global, context: &Context) -> Result<Vec<u8>, NoMemory>
    ensures { IfOk result (λ line. line.items ≡ told.words_text context.now) }
{
    let mut line = Vec::new(alloc);
    put_registers(&mut line, context)?;
    put_word(&mut line, b"", b"hi", context.hi())?;
    put_word(&mut line, b"", b"lo", context.lo())?;
    Ok(line)
}

/// Puts the registers of a context on an empty line that aren't 0.
fn put_registers(line: &mut Vec<u8>, context: &Context) -> Result<(), NoMemory>
    requires { line.old.items ≡ [] }
    ensures { OnOk result (line.new.items ≡ told.registers_to context.now 32) }
{
    for number in 0..32u8 {
        let name = register_name(Register::low(number as u32));
        put_word(line, b"$", name, context.word(number))?;
    }
    Ok(())
}

/// Puts a word at the end of a line by its name, unless it is 0.
fn put_word(line: &mut Vec<u8>, front: &[u8], name: &[u8], word: u32) -> Result<(), NoMemory>
    ensures { OnOk result (line.new.items ≡ told.with_word line.old.items front.now name.now word) }
{
    if word == 0 {
        return Ok(());
    }
    put_gap(line)?;
    line.extend_from_slice(front)?;
    line.extend_from_slice(name)?;
    line.extend_from_slice(b" 0x")?;
    put_trimmed(line, &hex_digits(word))
}

/// Puts two spaces at the end of what isn't empty.
fn put_gap(line: &mut Vec<u8>) -> Result<(), NoMemory>
    ensures { OnOk result (line.new.items ≡ told.behind line.old.items) }
{
    if line.is_empty() {
        return Ok(());
    }
    line.extend_from_slice(b"  ")?;
    Ok(())
}

/// Puts digits at the end without the zeros in front.
fn put_trimmed(line: &mut Vec<u8>, digits: &[u8]) -> Result<(), NoMemory>
    ensures { OnOk result (line.new.items ≡ line.old.items ++ told.trimmed digits.now) }
{
    for (i, digit) in digits.iter().enumerate() {
        if *digit != b'0' {
            let (_, rest) = digits.split_at(i);
            line.extend_from_slice(rest)?;
            return Ok(());
        }
    }
    Ok(())
}
