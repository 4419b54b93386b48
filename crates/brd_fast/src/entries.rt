//! What an entry does.

ghost use Rattle.std.specs.Prelude.{◌≡◌, ◌≤◌, true};
ghost use Rattle.brd_fast.specs.Place.{state_of, Leaves};
ghost use Rattle.brd_fast.specs.Plans.{planned, CarriesOut};

use crate::branches::{
    branch, branch_likely, call, call_likely, call_register, is_at_most_zero, jump, jump_and_link,
    jump_register,
};
use crate::line::StraightLine;
use crate::memory::{load, store};
use crate::registers::{
    accumulate, add, count, pass, product, set, set_if, shift, shift_variable, subtract, word,
};
use brd_entries::CodeEntry;
use brd_exec::{Context, is_below_zero, is_signed_below, multiply_value};
use brd_isa::{AccumulateOp, CountOp, LoadOp, ProductOp, ShiftOp, ShiftVariableOp, StoreOp};
use brd_link::Links;
use brd_mem::Ram;

/// Does an entry in a context whose place is kept apart, for a processor, over memory and the processors' links.
/// Answers whether it did; else nothing has changed: the entry says nothing, its instruction would raise an exception,
/// or it is a branch or a jump in a delay slot, without room for its own slot, or to where the line can't go. Each arm
/// ends with its own answer.
#[inline(always)]
pub fn carry_out(
    entry: &CodeEntry,
    cpu: u8,
    context: &mut Context,
    line: &mut StraightLine,
    ram: &mut Ram,
    links: &mut Links,
) -> bool
    requires processor { (1 ≤ cpu) × (cpu ≤ 8) }
    requires on { line.old.on ≡ true }
    ensures is { CarriesOut cpu (planned entry.now (state_of context.old line.old)) (state_of context.old line.old)
        ram.old links.old result (state_of context.new line.new) ram.new links.new }
    ensures leaves { Leaves line.old result line.new }
{
    match *entry {
        CodeEntry::Slow => false,
        CodeEntry::Nop => pass(line),
        CodeEntry::Sll(rd, rt, sa) => shift(context, line, ShiftOp::Sll, rd, rt, sa),
        CodeEntry::Srl(rd, rt, sa) => shift(context, line, ShiftOp::Srl, rd, rt, sa),
        CodeEntry::Sra(rd, rt, sa) => shift(context, line, ShiftOp::Sra, rd, rt, sa),
        CodeEntry::Sllv(rd, rt, rs) => shift_variable(
            context,
            line,
            ShiftVariableOp::Sllv,
            rd,
            rt,
            rs,
        ),
        CodeEntry::Srlv(rd, rt, rs) => shift_variable(
            context,
            line,
            ShiftVariableOp::Srlv,
            rd,
            rt,
            rs,
        ),
        CodeEntry::Srav(rd, rt, rs) => shift_variable(
            context,
            line,
            ShiftVariableOp::Srav,
            rd,
            rt,
            rs,
        ),
        CodeEntry::Movz(rd, rs, rt) => set_if(context, line, word(context, rt) == 0, rd, rs),
        CodeEntry::Movn(rd, rs, rt) => set_if(context, line, word(context, rt) != 0, rd, rs),
        CodeEntry::Add(rd, rs, rt) => {
            let word = word(context, rt);
            add(context, line, rd, rs, word)
        }
        CodeEntry::Addu(rd, rs, rt) => {
            let word = word(context, rs).wrapping_add(word(context, rt));
            set(context, line, rd, word)
        }
        CodeEntry::Sub(rd, rs, rt) => subtract(context, line, rd, rs, rt),
        CodeEntry::Subu(rd, rs, rt) => {
            let word = word(context, rs).wrapping_sub(word(context, rt));
            set(context, line, rd, word)
        }
        CodeEntry::And(rd, rs, rt) => {
            let word = word(context, rs) & word(context, rt);
            set(context, line, rd, word)
        }
        CodeEntry::Or(rd, rs, rt) => {
            let word = word(context, rs) | word(context, rt);
            set(context, line, rd, word)
        }
        CodeEntry::Xor(rd, rs, rt) => {
            let word = word(context, rs) ^ word(context, rt);
            set(context, line, rd, word)
        }
        CodeEntry::Nor(rd, rs, rt) => {
            let word = !(word(context, rs) | word(context, rt));
            set(context, line, rd, word)
        }
        CodeEntry::Slt(rd, rs, rt) => {
            let word = u32::from(is_signed_below(word(context, rs), word(context, rt)));
            set(context, line, rd, word)
        }
        CodeEntry::Sltu(rd, rs, rt) => {
            let word = u32::from(word(context, rs) < word(context, rt));
            set(context, line, rd, word)
        }
        CodeEntry::Mul(rd, rs, rt) => {
            let word = multiply_value(word(context, rs), word(context, rt));
            set(context, line, rd, word)
        }
        CodeEntry::Addi(rt, rs, immediate) => add(context, line, rt, rs, immediate),
        CodeEntry::Addiu(rt, rs, immediate) => {
            let word = word(context, rs).wrapping_add(immediate);
            set(context, line, rt, word)
        }
        CodeEntry::Slti(rt, rs, immediate) => {
            let word = u32::from(is_signed_below(word(context, rs), immediate));
            set(context, line, rt, word)
        }
        CodeEntry::Sltiu(rt, rs, immediate) => {
            let word = u32::from(word(context, rs) < immediate);
            set(context, line, rt, word)
        }
        CodeEntry::Andi(rt, rs, immediate) => {
            let word = word(context, rs) & immediate;
            set(context, line, rt, word)
        }
        CodeEntry::Ori(rt, rs, immediate) => {
            let word = word(context, rs) | immediate;
            set(context, line, rt, word)
        }
        CodeEntry::Xori(rt, rs, immediate) => {
            let word = word(context, rs) ^ immediate;
            set(context, line, rt, word)
        }
        CodeEntry::Lui(rt, word) => set(context, line, rt, word),
        CodeEntry::Mfhi(rd) => {
            let word = context.hi();
            set(context, line, rd, word)
        }
        CodeEntry::Mflo(rd) => {
            let word = context.lo();
            set(context, line, rd, word)
        }
        CodeEntry::Mthi(rs) => {
            let word = word(context, rs);
            context.set_hi(word);
            line.advance();
            true
        }
        CodeEntry::Mtlo(rs) => {
            let word = word(context, rs);
            context.set_lo(word);
            line.advance();
            true
        }
        CodeEntry::Mult(rs, rt) => product(context, line, ProductOp::Mult, rs, rt),
        CodeEntry::Multu(rs, rt) => product(context, line, ProductOp::Multu, rs, rt),
        CodeEntry::Div(rs, rt) => product(context, line, ProductOp::Div, rs, rt),
        CodeEntry::Divu(rs, rt) => product(context, line, ProductOp::Divu, rs, rt),
        CodeEntry::Madd(rs, rt) => accumulate(context, line, AccumulateOp::Madd, rs, rt),
        CodeEntry::Maddu(rs, rt) => accumulate(context, line, AccumulateOp::Maddu, rs, rt),
        CodeEntry::Msub(rs, rt) => accumulate(context, line, AccumulateOp::Msub, rs, rt),
        CodeEntry::Msubu(rs, rt) => accumulate(context, line, AccumulateOp::Msubu, rs, rt),
        CodeEntry::Clz(rd, rs) => count(context, line, CountOp::Clz, rd, rs),
        CodeEntry::Clo(rd, rs) => count(context, line, CountOp::Clo, rd, rs),
        CodeEntry::Lb(rt, base, offset) => load(context, line, ram, LoadOp::Lb, rt, base, offset),
        CodeEntry::Lh(rt, base, offset) => load(context, line, ram, LoadOp::Lh, rt, base, offset),
        CodeEntry::Lwl(rt, base, offset) => load(context, line, ram, LoadOp::Lwl, rt, base, offset),
        CodeEntry::Lw(rt, base, offset) => load(context, line, ram, LoadOp::Lw, rt, base, offset),
        CodeEntry::Lbu(rt, base, offset) => load(context, line, ram, LoadOp::Lbu, rt, base, offset),
        CodeEntry::Lhu(rt, base, offset) => load(context, line, ram, LoadOp::Lhu, rt, base, offset),
        CodeEntry::Lwr(rt, base, offset) => load(context, line, ram, LoadOp::Lwr, rt, base, offset),
        CodeEntry::Sb(rt, base, offset) => store(
            context,
            line,
            cpu,
            ram,
            links,
            StoreOp::Sb,
            rt,
            base,
            offset,
        ),
        CodeEntry::Sh(rt, base, offset) => store(
            context,
            line,
            cpu,
            ram,
            links,
            StoreOp::Sh,
            rt,
            base,
            offset,
        ),
        CodeEntry::Swl(rt, base, offset) => store(
            context,
            line,
            cpu,
            ram,
            links,
            StoreOp::Swl,
            rt,
            base,
            offset,
        ),
        CodeEntry::Sw(rt, base, offset) => store(
            context,
            line,
            cpu,
            ram,
            links,
            StoreOp::Sw,
            rt,
            base,
            offset,
        ),
        CodeEntry::Swr(rt, base, offset) => store(
            context,
            line,
            cpu,
            ram,
            links,
            StoreOp::Swr,
            rt,
            base,
            offset,
        ),
        CodeEntry::J(index) => jump(line, index),
        CodeEntry::Jal(index) => jump_and_link(context, line, index),
        CodeEntry::Jr(rs) => jump_register(context, line, rs),
        CodeEntry::Jalr(rd, rs) => call_register(context, line, rd, rs),
        CodeEntry::Beq(rs, rt, reach) => branch(
            line,
            word(context, rs) == word(context, rt),
            reach,
        ),
        CodeEntry::Bne(rs, rt, reach) => branch(
            line,
            word(context, rs) != word(context, rt),
            reach,
        ),
        CodeEntry::Beql(rs, rt, reach) => branch_likely(
            line,
            word(context, rs) == word(context, rt),
            reach,
        ),
        CodeEntry::Bnel(rs, rt, reach) => branch_likely(
            line,
            word(context, rs) != word(context, rt),
            reach,
        ),
        CodeEntry::Blez(rs, reach) => branch(line, is_at_most_zero(word(context, rs)), reach),
        CodeEntry::Bgtz(rs, reach) => branch(line, !is_at_most_zero(word(context, rs)), reach),
        CodeEntry::Blezl(rs, reach) => branch_likely(
            line,
            is_at_most_zero(word(context, rs)),
            reach,
        ),
        CodeEntry::Bgtzl(rs, reach) => branch_likely(
            line,
            !is_at_most_zero(word(context, rs)),
            reach,
        ),
        CodeEntry::Bltz(rs, reach) => branch(line, is_below_zero(word(context, rs)), reach),
        CodeEntry::Bgez(rs, reach) => branch(line, !is_below_zero(word(context, rs)), reach),
        CodeEntry::Bltzl(rs, reach) => branch_likely(line, is_below_zero(word(context, rs)), reach),
        CodeEntry::Bgezl(rs, reach) => branch_likely(
            line,
            !is_below_zero(word(context, rs)),
            reach,
        ),
        CodeEntry::Bltzal(rs, reach) => {
            let taken = is_below_zero(word(context, rs));
            call(context, line, taken, reach)
        }
        CodeEntry::Bgezal(rs, reach) => {
            let taken = !is_below_zero(word(context, rs));
            call(context, line, taken, reach)
        }
        CodeEntry::Bltzall(rs, reach) => {
            let taken = is_below_zero(word(context, rs));
            call_likely(context, line, taken, reach)
        }
        CodeEntry::Bgezall(rs, reach) => {
            let taken = !is_below_zero(word(context, rs));
            call_likely(context, line, taken, reach)
        }
    }
}
