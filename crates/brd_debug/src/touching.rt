//! Which bytes of memory a processor's next instruction reads, and which it writes.

ghost use Rattle.std.specs.Prelude.{◌≡◌, ◌≤◌, IfSome, length};
ghost use Rattle.brd_board.specs.Board.{registers_of};
ghost use Rattle.brd_debug.specs.Marks.{most_addresses};
ghost use Rattle.brd_debug.specs.Touching.{holds, holds_some, insn_at, read_on, touches, written_on};

use crate::marks::Marks;
use brd_board::{Board, Event};
use brd_exec::{Span, reads_by, writes_by};
use brd_isa::{Insn, decode};

/// What the next instruction of a processor reads of memory, if it reads.
pub fn read_on(board: &Board, cpu: u8) -> Option<Span>
    ensures { result ≡ read_on board.now cpu }
{
    let context = board.registers(cpu)?;
    let insn = insn_at(board, context.pc())?;
    reads_by(board.order(), &insn, &context)
}

/// What the next instruction of a processor writes to memory, if it writes.
pub fn written_on(board: &Board, cpu: u8) -> Option<Span>
    ensures { result ≡ written_on board.now cpu }
{
    let context = board.registers(cpu)?;
    let insn = insn_at(board, context.pc())?;
    writes_by(board.order(), &insn, &context)
}

/// Whether an event is a step whose instruction reads a byte of the first set, or reads or writes one of the second.
pub(crate) fn touches(reads: &Marks, accesses: &Marks, board: &Board, event: Event) -> bool
    ensures { result ≡ touches reads.now accesses.now board.now event }
{
    match event {
        Event::Step(cpu) => {
            let read = read_on(board, cpu);
            holds_some(reads, read)
                || holds_some(accesses, read)
                || holds_some(accesses, written_on(board, cpu))
        }
        Event::Tick | Event::Raise(_) => false,
    }
}

/// Whether a byte of these, if there are any, is one of a set.
fn holds_some(marks: &Marks, span: Option<Span>) -> bool
    ensures { result ≡ holds_some marks.now span }
{
    match span {
        Some(span) => holds(marks, span),
        None => false,
    }
}

/// Whether one of up to four bytes is one of a set.
fn holds(marks: &Marks, span: Span) -> bool
    ensures { result ≡ holds marks.now span }
{
    marks.has(span.first)
        || span.count > 1 && marks.has(span.first.wrapping_add(1))
        || span.count > 2 && marks.has(span.first.wrapping_add(2))
        || span.count > 3 && marks.has(span.first.wrapping_add(3))
}

/// The instruction that stands at an address.
fn insn_at(board: &Board, address: u32) -> Option<Insn>
    ensures { result ≡ insn_at board.now.memory address }
{
    let word = board.word(address)?;
    decode(word)
}
