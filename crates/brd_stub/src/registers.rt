//! The registers of a thread, as GDB reads them.

ghost use Rattle.std.specs.Prelude.{◌≡◌, ◌≤◌, ◌+◌, ◌++◌, length, OnOk};
ghost use Rattle.brd_stub.specs.Threads.{context_at};
ghost use Rattle.brd_stub.specs.Registers.{
  context_or_rest,
  delay_bit,
  cause_of,
  address_of,
  registers_text,
  register_of,
  register_text,
  words_text,
  word_text,
  unavailable_text,
  word_or_unavailable,
};

use crate::threads::{Thread, context_at};
use brd_base::NoMemory;
use brd_board::{Board, Fault};
use brd_exec::Context;
use brd_gdb::put_hex;
use brd_word::{Order, bytes_of};

/// The context of a thread, else one in which all is 0.
pub fn context_of(board: &Board, thread: Thread) -> Context
    ensures { result ≡ context_or_rest (context_at board.now thread) }
{
    match context_at(board, thread) {
        Some(context) => context,
        None => Context::opening(0, 0, 0),
    }
}

/// Puts all registers of a context at the end, by their numbers in the target description.
pub fn show_registers(
    out: &mut Vec<u8>,
    order: Order,
    context: &Context,
    fault: Option<Fault>,
    bad: Option<u32>,
) -> Result<(), NoMemory>
    ensures is { OnOk result (out.new.items ≡ out.old.items ++ registers_text order context.now fault bad) }
    ensures size { OnOk result (length out.new.items ≤ length out.old.items + 304) }
{
    // For the proof alone: its contract says how many words they are.
    let _ = context.registers();
    show_context(out, order, context, fault, bad)
}

/// Puts the registers of a context at the end.
fn show_context(
    out: &mut Vec<u8>,
    order: Order,
    context: &Context,
    fault: Option<Fault>,
    bad: Option<u32>,
) -> Result<(), NoMemory>
    ensures { OnOk result (out.new.items ≡ out.old.items ++ registers_text order context.now fault bad) }
{
    show_words(out, order, context.registers())?;
    show_unavailable(out, 1)?;
    show_word(out, order, context.lo())?;
    show_word(out, order, context.hi())?;
    show_word_or_none(out, order, bad)?;
    show_word_or_none(out, order, cause_of(fault))?;
    show_word(out, order, context.pc())
}

/// Puts words at the end, as their bytes lie in memory.
fn show_words(out: &mut Vec<u8>, order: Order, words: &[u32]) -> Result<(), NoMemory>
    ensures { OnOk result (out.new.items ≡ out.old.items ++ words_text order words.now) }
{
    for word in words {
        show_word(out, order, *word)?;
    }
    Ok(())
}

/// Puts a word at the end, as its bytes lie in memory.
fn show_word(out: &mut Vec<u8>, order: Order, word: u32) -> Result<(), NoMemory>
    ensures { OnOk result (out.new.items ≡ out.old.items ++ word_text order word) }
{
    put_hex(out, &bytes_of(word, order))
}

/// Puts registers at the end that can't be read.
fn show_unavailable(out: &mut Vec<u8>, count: usize) -> Result<(), NoMemory>
    requires { count ≤ 2 }
    ensures { OnOk result (out.new.items ≡ out.old.items ++ unavailable_text count) }
{
    let digits = [b'x'; 16];
    out.extend_from_slice(&digits[..8 * count])?;
    Ok(())
}

/// Puts the register of a number at the end.
pub fn show_register(
    out: &mut Vec<u8>,
    order: Order,
    context: &Context,
    fault: Option<Fault>,
    bad: Option<u32>,
    number: u32,
) -> Result<(), NoMemory>
    ensures is { OnOk result (out.new.items ≡ out.old.items ++ register_text order context.now fault bad number) }
    ensures size { OnOk result (length out.new.items ≤ length out.old.items + 8) }
{
    show_word_or_none(out, order, register(context, fault, bad, number))
}

/// Puts a register at the end, where it can be read.
fn show_word_or_none(out: &mut Vec<u8>, order: Order, word: Option<u32>) -> Result<(), NoMemory>
    ensures { OnOk result (out.new.items ≡ out.old.items ++ word_or_unavailable order word) }
{
    match word {
        None => show_unavailable(out, 1),
        Some(word) => show_word(out, order, word),
    }
}

/// The word of the register of a number; None where it can't be read.
fn register(context: &Context, fault: Option<Fault>, bad: Option<u32>, number: u32) -> Option<u32>
    ensures { result ≡ register_of context.now fault bad number }
{
    match number {
        0..=31 => Some(context.word(number as u8)),
        33 => Some(context.lo()),
        34 => Some(context.hi()),
        35 => bad,
        36 => cause_of(fault),
        37 => Some(context.pc()),
        38..=71 => Some(0),
        72 => address_of(fault),
        _ => None,
    }
}

/// The cause of an exception, as coprocessor 0 has it.
fn cause_of(fault: Option<Fault>) -> Option<u32>
    ensures { result ≡ cause_of fault }
{
    match fault {
        Some(fault) => Some(delay_bit(fault.bd) + 4 * fault.code.number() as u32),
        None => None,
    }
}

/// The bit of a cause that says that the instruction was in a delay slot.
fn delay_bit(is_set: bool) -> u32
    ensures { result ≡ delay_bit is_set }
{
    if is_set { 0x8000_0000 } else { 0 }
}

/// The address of an exception.
fn address_of(fault: Option<Fault>) -> Option<u32>
    ensures { result ≡ address_of fault }
{
    match fault {
        Some(fault) => Some(fault.epc),
        None => None,
    }
}
