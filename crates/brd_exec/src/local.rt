//! Local instructions, done apart from memory.

ghost use Rattle.std.specs.Prelude.{◌≡◌, Some};
ghost use Rattle.brd_exec.specs.Lent.{word_in, lent_step, lent_word, lent_insn, DoesLent};

use crate::branch::{branch, branch_regimm, branch_zero, call_register, jump, jump_register};
use crate::compute::{
    accumulate, count, move_from, move_to, multiply, product, shift, shift_variable,
    three_registers, with_immediate,
};
use crate::context::Context;
use brd_isa::{Insn, decode, is_local};

/// Does the next instruction of a context by a window of code, the 64 words from the address `start` on: where the
/// window has its word, and the instruction is local and no branch or jump in a delay slot. Answers whether it did;
/// else the context stays as it was.
#[tactic(auto, unfolding(crate::specs::Lent::lent_step))]
#[inline(always)]
pub fn run_local(context: &mut Context, window: &[u32; 64], start: u32) -> bool
    ensures { DoesLent (lent_step context.old window.now start) context.old result context.new }
{
    let Some(word) = word_in(window, start, context.pc()) else {
        return false;
    };
    run_word(context, word)
}

/// The word at an address, where the window has it.
#[inline(always)]
fn word_in(window: &[u32; 64], start: u32, address: u32) -> Option<u32>
    ensures { result ≡ word_in window.now start address }
{
    let place = address.checked_sub(start)?;
    if address % 4 != 0 || place % 4 != 0 {
        return None;
    }
    window.get(place as usize / 4).copied()
}

/// Does the instruction of a word, where it is local and no branch or jump in a delay slot.
#[inline(always)]
fn run_word(context: &mut Context, word: u32) -> bool
    ensures { DoesLent (lent_word context.old (Some word)) context.old result context.new }
{
    match decode(word) {
        None => false,
        Some(insn) => execute_local(context, &insn),
    }
}

/// Does an instruction where it is local and no branch or jump in a delay slot, one line a form of operands. A branch
/// or a jump tests itself whether it is in one. (The lines stand in `execute` too, with those that access memory: if
/// one called the other, the compiler would bring all decoded instructions together before it.)
#[inline(always)]
fn execute_local(context: &mut Context, insn: &Insn) -> bool
    ensures { DoesLent (lent_insn context.old (Some insn.now)) context.old result context.new }
{
    if !is_local(*insn) {
        return false;
    }
    match *insn {
        Insn::Shift(op, rd, rt, sa) => shift(context, op, rd, rt, sa),
        Insn::ShiftVariable(op, rd, rt, rs) => shift_variable(context, op, rd, rt, rs),
        Insn::ThreeRegisters(op, rd, rs, rt) => {
            return three_registers(context, op, rd, rs, rt).is_ok();
        }
        Insn::Multiply(rd, rs, rt) => multiply(context, rd, rs, rt),
        Insn::JumpRegister(rs) => return jump_register(context, rs).is_ok(),
        Insn::JumpLinkRegister(rd, rs) => return call_register(context, rd, rs).is_ok(),
        Insn::MoveFrom(op, rd) => move_from(context, op, rd),
        Insn::MoveTo(op, rs) => move_to(context, op, rs),
        Insn::Product(op, rs, rt) => product(context, op, rs, rt),
        Insn::Accumulate(op, rs, rt) => accumulate(context, op, rs, rt),
        Insn::Count(op, rd, rs) => count(context, op, rd, rs),
        Insn::Jump(op, index) => return jump(context, op, index).is_ok(),
        Insn::Branch(op, rs, rt, offset) => return branch(context, op, rs, rt, offset).is_ok(),
        Insn::BranchZero(op, rs, offset) => return branch_zero(context, op, rs, offset).is_ok(),
        Insn::BranchRegimm(op, rs, offset) => return branch_regimm(context, op, rs, offset).is_ok(),
        Insn::WithImmediate(op, rt, rs, immediate) => {
            return with_immediate(context, op, rt, rs, immediate).is_ok();
        }
        Insn::LoadUpper(rt, immediate) => context.set(rt, u32::from(immediate) << 16),
        Insn::Sync | Insn::Prefetch(_, _, _) => context.advance(),
        _ => return false,
    }
    true
}
