//! What an entry does in a context.

ghost use Rattle.std.specs.Prelude.{◌≡◌};
ghost use Rattle.brd_lent.specs.Plans.{planned, Acts};

use crate::registers::{accumulate, count, product, set, set_if, shift, shift_variable, word};
use brd_entries::CodeEntry;
use brd_exec::{Context, is_signed_below, multiply_value};
use brd_isa::{AccumulateOp, CountOp, ProductOp, ShiftOp, ShiftVariableOp};

/// Does an entry that computes in registers, HI and LO, or goes on. Answers whether it did; all others, branches and
/// jumps among them, are left to others, and nothing has changed. Each arm ends with its own answer.
#[inline(always)]
pub fn act(entry: &CodeEntry, context: &mut Context) -> bool
    ensures { Acts (planned entry.now context.old) context.old result context.new }
{
    match *entry {
        CodeEntry::Nop => {
            context.advance();
            true
        }
        CodeEntry::Sll(rd, rt, sa) => {
            shift(context, ShiftOp::Sll, rd, rt, sa);
            true
        }
        CodeEntry::Srl(rd, rt, sa) => {
            shift(context, ShiftOp::Srl, rd, rt, sa);
            true
        }
        CodeEntry::Sra(rd, rt, sa) => {
            shift(context, ShiftOp::Sra, rd, rt, sa);
            true
        }
        CodeEntry::Sllv(rd, rt, rs) => {
            shift_variable(context, ShiftVariableOp::Sllv, rd, rt, rs);
            true
        }
        CodeEntry::Srlv(rd, rt, rs) => {
            shift_variable(context, ShiftVariableOp::Srlv, rd, rt, rs);
            true
        }
        CodeEntry::Srav(rd, rt, rs) => {
            shift_variable(context, ShiftVariableOp::Srav, rd, rt, rs);
            true
        }
        CodeEntry::Movz(rd, rs, rt) => {
            let sets = word(context, rt) == 0;
            set_if(context, sets, rd, rs);
            true
        }
        CodeEntry::Movn(rd, rs, rt) => {
            let sets = word(context, rt) != 0;
            set_if(context, sets, rd, rs);
            true
        }
        CodeEntry::Addu(rd, rs, rt) => {
            let word = word(context, rs).wrapping_add(word(context, rt));
            set(context, rd, word);
            true
        }
        CodeEntry::Subu(rd, rs, rt) => {
            let word = word(context, rs).wrapping_sub(word(context, rt));
            set(context, rd, word);
            true
        }
        CodeEntry::And(rd, rs, rt) => {
            let word = word(context, rs) & word(context, rt);
            set(context, rd, word);
            true
        }
        CodeEntry::Or(rd, rs, rt) => {
            let word = word(context, rs) | word(context, rt);
            set(context, rd, word);
            true
        }
        CodeEntry::Xor(rd, rs, rt) => {
            let word = word(context, rs) ^ word(context, rt);
            set(context, rd, word);
            true
        }
        CodeEntry::Nor(rd, rs, rt) => {
            let word = !(word(context, rs) | word(context, rt));
            set(context, rd, word);
            true
        }
        CodeEntry::Slt(rd, rs, rt) => {
            let word = u32::from(is_signed_below(word(context, rs), word(context, rt)));
            set(context, rd, word);
            true
        }
        CodeEntry::Sltu(rd, rs, rt) => {
            let word = u32::from(word(context, rs) < word(context, rt));
            set(context, rd, word);
            true
        }
        CodeEntry::Mul(rd, rs, rt) => {
            let word = multiply_value(word(context, rs), word(context, rt));
            set(context, rd, word);
            true
        }
        CodeEntry::Addiu(rt, rs, immediate) => {
            let word = word(context, rs).wrapping_add(immediate);
            set(context, rt, word);
            true
        }
        CodeEntry::Slti(rt, rs, immediate) => {
            let word = u32::from(is_signed_below(word(context, rs), immediate));
            set(context, rt, word);
            true
        }
        CodeEntry::Sltiu(rt, rs, immediate) => {
            let word = u32::from(word(context, rs) < immediate);
            set(context, rt, word);
            true
        }
        CodeEntry::Andi(rt, rs, immediate) => {
            let word = word(context, rs) & immediate;
            set(context, rt, word);
            true
        }
        CodeEntry::Ori(rt, rs, immediate) => {
            let word = word(context, rs) | immediate;
            set(context, rt, word);
            true
        }
        CodeEntry::Xori(rt, rs, immediate) => {
            let word = word(context, rs) ^ immediate;
            set(context, rt, word);
            true
        }
        CodeEntry::Lui(rt, word) => {
            set(context, rt, word);
            true
        }
        CodeEntry::Mfhi(rd) => {
            let word = context.hi();
            set(context, rd, word);
            true
        }
        CodeEntry::Mflo(rd) => {
            let word = context.lo();
            set(context, rd, word);
            true
        }
        CodeEntry::Mthi(rs) => {
            let word = word(context, rs);
            context.set_hi(word);
            true
        }
        CodeEntry::Mtlo(rs) => {
            let word = word(context, rs);
            context.set_lo(word);
            true
        }
        CodeEntry::Mult(rs, rt) => {
            product(context, ProductOp::Mult, rs, rt);
            true
        }
        CodeEntry::Multu(rs, rt) => {
            product(context, ProductOp::Multu, rs, rt);
            true
        }
        CodeEntry::Div(rs, rt) => {
            product(context, ProductOp::Div, rs, rt);
            true
        }
        CodeEntry::Divu(rs, rt) => {
            product(context, ProductOp::Divu, rs, rt);
            true
        }
        CodeEntry::Madd(rs, rt) => {
            accumulate(context, AccumulateOp::Madd, rs, rt);
            true
        }
        CodeEntry::Maddu(rs, rt) => {
            accumulate(context, AccumulateOp::Maddu, rs, rt);
            true
        }
        CodeEntry::Msub(rs, rt) => {
            accumulate(context, AccumulateOp::Msub, rs, rt);
            true
        }
        CodeEntry::Msubu(rs, rt) => {
            accumulate(context, AccumulateOp::Msubu, rs, rt);
            true
        }
        CodeEntry::Clz(rd, rs) => {
            count(context, CountOp::Clz, rd, rs);
            true
        }
        CodeEntry::Clo(rd, rs) => {
            count(context, CountOp::Clo, rd, rs);
            true
        }
        CodeEntry::Slow => false,
        CodeEntry::Add(_, _, _) => false,
        CodeEntry::Sub(_, _, _) => false,
        CodeEntry::Addi(_, _, _) => false,
        CodeEntry::Lb(_, _, _) => false,
        CodeEntry::Lh(_, _, _) => false,
        CodeEntry::Lwl(_, _, _) => false,
        CodeEntry::Lw(_, _, _) => false,
        CodeEntry::Lbu(_, _, _) => false,
        CodeEntry::Lhu(_, _, _) => false,
        CodeEntry::Lwr(_, _, _) => false,
        CodeEntry::Sb(_, _, _) => false,
        CodeEntry::Sh(_, _, _) => false,
        CodeEntry::Swl(_, _, _) => false,
        CodeEntry::Sw(_, _, _) => false,
        CodeEntry::Swr(_, _, _) => false,
        CodeEntry::Beq(_, _, _) => false,
        CodeEntry::Bne(_, _, _) => false,
        CodeEntry::Beql(_, _, _) => false,
        CodeEntry::Bnel(_, _, _) => false,
        CodeEntry::Jalr(_, _) => false,
        CodeEntry::Blez(_, _) => false,
        CodeEntry::Bgtz(_, _) => false,
        CodeEntry::Blezl(_, _) => false,
        CodeEntry::Bgtzl(_, _) => false,
        CodeEntry::Bltz(_, _) => false,
        CodeEntry::Bgez(_, _) => false,
        CodeEntry::Bltzl(_, _) => false,
        CodeEntry::Bgezl(_, _) => false,
        CodeEntry::Bltzal(_, _) => false,
        CodeEntry::Bgezal(_, _) => false,
        CodeEntry::Bltzall(_, _) => false,
        CodeEntry::Bgezall(_, _) => false,
        CodeEntry::J(_) => false,
        CodeEntry::Jal(_) => false,
        CodeEntry::Jr(_) => false,
    }
}
