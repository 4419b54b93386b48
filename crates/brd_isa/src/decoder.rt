//! From a word to the instruction that it stands for.

ghost use Rattle.std.specs.Prelude.{◌≡◌, ◌↔◌, ◌/◌, ◌%◌, ◌^◌, Some};
ghost use Rattle.brd_isa.specs.Table.{StandsFor};
ghost use Rattle.brd_isa.specs.Decoding.{decoded, rt_of, special_of, regimm_of, special2_of, others_of, of_opcode};

use crate::fields::{Hint, LongCode};
use crate::forms::{
    accumulate, branch, branch_regimm, branch_zero, count, jump, jump_link_register, jump_register,
    linked, load, load_upper, move_from, move_to, multiply, product, shift, shift_variable, store,
    sync, three_registers, trap, trap_immediate, with_immediate,
};
use crate::instruction::{
    AccumulateOp, BranchOp, BranchRegimmOp, BranchZeroOp, CountOp, ImmediateOp, Insn, JumpOp,
    LinkedOp, LoadOp, MoveFromOp, MoveToOp, ProductOp, RegisterOp, ShiftOp, ShiftVariableOp,
    StoreOp, TrapImmediateOp, TrapOp,
};
use crate::word::{REGIMM, SPECIAL, SPECIAL2, low, rs};

/// The instruction that a word stands for; None where it stands for none (a reserved instruction).
#[tactic(auto, unfolding(crate::specs::Decoding::decoded))]
#[inline(always)]
pub fn decode(word: u32) -> Option<Insn>
    ensures is { result ≡ decoded word }
    ensures exactly { (insn : Insn) → (result ≡ Some insn) ↔ StandsFor word insn }
{
    by_opcode(word)
}

/// By the opcode, which names the instruction or another field that does.
#[inline(always)]
fn by_opcode(word: u32) -> Option<Insn>
    ensures { result ≡ of_opcode (word / 2 ^ 26) word }
{
    match word >> 26 {
        SPECIAL => special(word),
        REGIMM => regimm(word),
        SPECIAL2 => special2(word),
        _ => others(word),
    }
}

/// The opcode SPECIAL: the function field names the instruction.
#[inline(always)]
fn special(word: u32) -> Option<Insn>
    ensures { result ≡ special_of (word % 2 ^ 6) word }
{
    match word % 64 {
        0x00 => shift(ShiftOp::Sll, word),
        0x02 => shift(ShiftOp::Srl, word),
        0x03 => shift(ShiftOp::Sra, word),
        0x04 => shift_variable(ShiftVariableOp::Sllv, word),
        0x06 => shift_variable(ShiftVariableOp::Srlv, word),
        0x07 => shift_variable(ShiftVariableOp::Srav, word),
        0x08 => jump_register(word),
        0x09 => jump_link_register(word),
        0x0a => three_registers(RegisterOp::Movz, word),
        0x0b => three_registers(RegisterOp::Movn, word),
        0x0c => Some(Insn::Syscall(LongCode::low(word >> 6))),
        0x0d => Some(Insn::Break(LongCode::low(word >> 6))),
        0x0f => sync(word),
        0x10 => move_from(MoveFromOp::Mfhi, word),
        0x11 => move_to(MoveToOp::Mthi, word),
        0x12 => move_from(MoveFromOp::Mflo, word),
        0x13 => move_to(MoveToOp::Mtlo, word),
        0x18 => product(ProductOp::Mult, word),
        0x19 => product(ProductOp::Multu, word),
        0x1a => product(ProductOp::Div, word),
        0x1b => product(ProductOp::Divu, word),
        0x20 => three_registers(RegisterOp::Add, word),
        0x21 => three_registers(RegisterOp::Addu, word),
        0x22 => three_registers(RegisterOp::Sub, word),
        0x23 => three_registers(RegisterOp::Subu, word),
        0x24 => three_registers(RegisterOp::And, word),
        0x25 => three_registers(RegisterOp::Or, word),
        0x26 => three_registers(RegisterOp::Xor, word),
        0x27 => three_registers(RegisterOp::Nor, word),
        0x2a => three_registers(RegisterOp::Slt, word),
        0x2b => three_registers(RegisterOp::Sltu, word),
        0x30 => trap(TrapOp::Tge, word),
        0x31 => trap(TrapOp::Tgeu, word),
        0x32 => trap(TrapOp::Tlt, word),
        0x33 => trap(TrapOp::Tltu, word),
        0x34 => trap(TrapOp::Teq, word),
        0x36 => trap(TrapOp::Tne, word),
        _ => None,
    }
}

/// The opcode REGIMM: the field rt names the instruction.
#[inline(always)]
fn regimm(word: u32) -> Option<Insn>
    ensures { result ≡ regimm_of (rt_of word) word }
{
    match (word >> 16) % 32 {
        0x00 => branch_regimm(BranchRegimmOp::Bltz, word),
        0x01 => branch_regimm(BranchRegimmOp::Bgez, word),
        0x02 => branch_regimm(BranchRegimmOp::Bltzl, word),
        0x03 => branch_regimm(BranchRegimmOp::Bgezl, word),
        0x08 => trap_immediate(TrapImmediateOp::Tgei, word),
        0x09 => trap_immediate(TrapImmediateOp::Tgeiu, word),
        0x0a => trap_immediate(TrapImmediateOp::Tlti, word),
        0x0b => trap_immediate(TrapImmediateOp::Tltiu, word),
        0x0c => trap_immediate(TrapImmediateOp::Teqi, word),
        0x0e => trap_immediate(TrapImmediateOp::Tnei, word),
        0x10 => branch_regimm(BranchRegimmOp::Bltzal, word),
        0x11 => branch_regimm(BranchRegimmOp::Bgezal, word),
        0x12 => branch_regimm(BranchRegimmOp::Bltzall, word),
        0x13 => branch_regimm(BranchRegimmOp::Bgezall, word),
        _ => None,
    }
}

/// The opcode SPECIAL2: the function field names the instruction.
#[inline(always)]
fn special2(word: u32) -> Option<Insn>
    ensures { result ≡ special2_of (word % 2 ^ 6) word }
{
    match word % 64 {
        0x00 => accumulate(AccumulateOp::Madd, word),
        0x01 => accumulate(AccumulateOp::Maddu, word),
        0x02 => multiply(word),
        0x04 => accumulate(AccumulateOp::Msub, word),
        0x05 => accumulate(AccumulateOp::Msubu, word),
        0x20 => count(CountOp::Clz, word),
        0x21 => count(CountOp::Clo, word),
        _ => None,
    }
}

/// Every other opcode: the opcode itself names the instruction.
#[inline(always)]
fn others(word: u32) -> Option<Insn>
    ensures { result ≡ others_of (word / 2 ^ 26) word }
{
    match word >> 26 {
        0x02 => jump(JumpOp::J, word),
        0x03 => jump(JumpOp::Jal, word),
        0x04 => branch(BranchOp::Beq, word),
        0x05 => branch(BranchOp::Bne, word),
        0x06 => branch_zero(BranchZeroOp::Blez, word),
        0x07 => branch_zero(BranchZeroOp::Bgtz, word),
        0x08 => with_immediate(ImmediateOp::Addi, word),
        0x09 => with_immediate(ImmediateOp::Addiu, word),
        0x0a => with_immediate(ImmediateOp::Slti, word),
        0x0b => with_immediate(ImmediateOp::Sltiu, word),
        0x0c => with_immediate(ImmediateOp::Andi, word),
        0x0d => with_immediate(ImmediateOp::Ori, word),
        0x0e => with_immediate(ImmediateOp::Xori, word),
        0x0f => load_upper(word),
        0x14 => branch(BranchOp::Beql, word),
        0x15 => branch(BranchOp::Bnel, word),
        0x16 => branch_zero(BranchZeroOp::Blezl, word),
        0x17 => branch_zero(BranchZeroOp::Bgtzl, word),
        0x20 => load(LoadOp::Lb, word),
        0x21 => load(LoadOp::Lh, word),
        0x22 => load(LoadOp::Lwl, word),
        0x23 => load(LoadOp::Lw, word),
        0x24 => load(LoadOp::Lbu, word),
        0x25 => load(LoadOp::Lhu, word),
        0x26 => load(LoadOp::Lwr, word),
        0x28 => store(StoreOp::Sb, word),
        0x29 => store(StoreOp::Sh, word),
        0x2a => store(StoreOp::Swl, word),
        0x2b => store(StoreOp::Sw, word),
        0x2e => store(StoreOp::Swr, word),
        0x30 => linked(LinkedOp::Ll, word),
        0x33 => Some(Insn::Prefetch(Hint::low(word >> 16), rs(word), low(word))),
        0x38 => linked(LinkedOp::Sc, word),
        _ => None,
    }
}
