//! From a word to its entry.

ghost use Rattle.std.specs.Prelude.{Some};
ghost use Rattle.brd_isa.specs.Decoding.{decoded};
ghost use Rattle.brd_entries.specs.Means.{Means};

use crate::entry::CodeEntry;
use crate::forms::{
    accumulate, branch, branch_regimm, branch_zero, count, jump, jump_link_register, load,
    load_upper, move_from, move_to, multiply, product, shift, shift_variable, store,
    three_registers, with_immediate,
};
use crate::register::Source;
use brd_isa::{Insn, decode};

/// The entry of a word.
pub fn entry_of(word: u32) -> CodeEntry
    ensures { Means result (decoded word) }
{
    match decode(word) {
        None => CodeEntry::Slow,
        Some(insn) => entry_of_instruction(insn),
    }
}

/// The entry of an instruction, one line a form of operands.
fn entry_of_instruction(insn: Insn) -> CodeEntry
    ensures { Means result (Some insn) }
{
    match insn {
        Insn::Shift(op, rd, rt, amount) => shift(op, rd, rt, amount),
        Insn::ShiftVariable(op, rd, rt, rs) => shift_variable(op, rd, rt, rs),
        Insn::ThreeRegisters(op, rd, rs, rt) => three_registers(op, rd, rs, rt),
        Insn::Multiply(rd, rs, rt) => multiply(rd, rs, rt),
        Insn::JumpRegister(rs) => CodeEntry::Jr(Source::of(rs)),
        Insn::JumpLinkRegister(rd, rs) => jump_link_register(rd, rs),
        Insn::MoveFrom(op, rd) => move_from(op, rd),
        Insn::MoveTo(op, rs) => move_to(op, rs),
        Insn::Product(op, rs, rt) => product(op, rs, rt),
        Insn::Accumulate(op, rs, rt) => accumulate(op, rs, rt),
        Insn::Count(op, rd, rs) => count(op, rd, rs),
        Insn::Jump(op, index) => jump(op, index),
        Insn::Branch(op, rs, rt, offset) => branch(op, rs, rt, offset),
        Insn::BranchZero(op, rs, offset) => branch_zero(op, rs, offset),
        Insn::BranchRegimm(op, rs, offset) => branch_regimm(op, rs, offset),
        Insn::WithImmediate(op, rt, rs, immediate) => with_immediate(op, rt, rs, immediate),
        Insn::LoadUpper(rt, immediate) => load_upper(rt, immediate),
        Insn::Load(op, rt, base, offset) => load(op, rt, base, offset),
        Insn::Store(op, rt, base, offset) => store(op, rt, base, offset),
        Insn::Sync | Insn::Prefetch(_, _, _) => CodeEntry::Nop,
        Insn::Syscall(_)
        | Insn::Break(_)
        | Insn::Trap(_, _, _, _)
        | Insn::TrapImmediate(_, _, _)
        | Insn::Linked(_, _, _, _) => CodeEntry::Slow,
    }
}
