//! The instruction of a word, by the form of its operands. Some forms are reserved where a field isn't 0, or where two
//! fields differ.

ghost use Rattle.std.specs.Prelude.{◌≡◌};
ghost use Rattle.brd_isa.specs.Decoding as decoding;

use crate::fields::{JumpIndex, ShortCode};
use crate::instruction::{
    AccumulateOp, BranchOp, BranchRegimmOp, BranchZeroOp, CountOp, ImmediateOp, Insn, JumpOp,
    LinkedOp, LoadOp, MoveFromOp, MoveToOp, ProductOp, RegisterOp, ShiftOp, ShiftVariableOp,
    StoreOp, TrapImmediateOp, TrapOp,
};
use crate::word::{low, no_rd, no_rs, no_rt, no_sa, rd, rs, rt, rt_is_rd, sa};

/// `op rd, rt, sa`, where rs is 0.
#[inline(always)]
pub fn shift(op: ShiftOp, word: u32) -> Option<Insn>
    ensures { result ≡ decoding.shift op word }
{
    no_rs(word).then_some(Insn::Shift(op, rd(word), rt(word), sa(word)))
}

/// `op rd, rt, rs`, where sa is 0.
#[inline(always)]
pub fn shift_variable(op: ShiftVariableOp, word: u32) -> Option<Insn>
    ensures { result ≡ decoding.shift_variable op word }
{
    no_sa(word).then_some(Insn::ShiftVariable(op, rd(word), rt(word), rs(word)))
}

/// `op rd, rs, rt`, where sa is 0.
#[inline(always)]
pub fn three_registers(op: RegisterOp, word: u32) -> Option<Insn>
    ensures { result ≡ decoding.three_registers op word }
{
    no_sa(word).then_some(Insn::ThreeRegisters(op, rd(word), rs(word), rt(word)))
}

/// `mul rd, rs, rt`, where sa is 0.
#[inline(always)]
pub fn multiply(word: u32) -> Option<Insn>
    ensures { result ≡ decoding.multiply word }
{
    no_sa(word).then_some(Insn::Multiply(rd(word), rs(word), rt(word)))
}

/// `jr rs`, where rt and rd are 0.
#[inline(always)]
pub fn jump_register(word: u32) -> Option<Insn>
    ensures { result ≡ decoding.jump_register word }
{
    (no_rt(word) && no_rd(word)).then_some(Insn::JumpRegister(rs(word)))
}

/// `jalr rd, rs`, where rt is 0.
#[inline(always)]
pub fn jump_link_register(word: u32) -> Option<Insn>
    ensures { result ≡ decoding.jump_link_register word }
{
    no_rt(word).then_some(Insn::JumpLinkRegister(rd(word), rs(word)))
}

/// `sync`, where rs, rt and rd are 0.
#[inline(always)]
pub fn sync(word: u32) -> Option<Insn>
    ensures { result ≡ decoding.sync word }
{
    (no_rs(word) && no_rt(word) && no_rd(word)).then_some(Insn::Sync)
}

/// `op rd`, where rs, rt and sa are 0.
#[inline(always)]
pub fn move_from(op: MoveFromOp, word: u32) -> Option<Insn>
    ensures { result ≡ decoding.move_from op word }
{
    (no_rs(word) && no_rt(word) && no_sa(word)).then_some(Insn::MoveFrom(op, rd(word)))
}

/// `op rs`, where rt, rd and sa are 0.
#[inline(always)]
pub fn move_to(op: MoveToOp, word: u32) -> Option<Insn>
    ensures { result ≡ decoding.move_to op word }
{
    (no_rt(word) && no_rd(word) && no_sa(word)).then_some(Insn::MoveTo(op, rs(word)))
}

/// `op rs, rt`, where rd and sa are 0.
#[inline(always)]
pub fn product(op: ProductOp, word: u32) -> Option<Insn>
    ensures { result ≡ decoding.product op word }
{
    (no_rd(word) && no_sa(word)).then_some(Insn::Product(op, rs(word), rt(word)))
}

/// `op rs, rt`, where rd and sa are 0.
#[inline(always)]
pub fn accumulate(op: AccumulateOp, word: u32) -> Option<Insn>
    ensures { result ≡ decoding.accumulate op word }
{
    (no_rd(word) && no_sa(word)).then_some(Insn::Accumulate(op, rs(word), rt(word)))
}

/// `op rd, rs`, where rt is rd, and sa is 0.
#[inline(always)]
pub fn count(op: CountOp, word: u32) -> Option<Insn>
    ensures { result ≡ decoding.count op word }
{
    (rt_is_rd(word) && no_sa(word)).then_some(Insn::Count(op, rd(word), rs(word)))
}

/// `op rs, target`, where rt is 0.
#[inline(always)]
pub fn branch_zero(op: BranchZeroOp, word: u32) -> Option<Insn>
    ensures { result ≡ decoding.branch_zero op word }
{
    no_rt(word).then_some(Insn::BranchZero(op, rs(word), low(word)))
}

/// `lui rt, immediate`, where rs is 0.
#[inline(always)]
pub fn load_upper(word: u32) -> Option<Insn>
    ensures { result ≡ decoding.load_upper word }
{
    no_rs(word).then_some(Insn::LoadUpper(rt(word), low(word)))
}

/// `op rs, rt, code`
#[inline(always)]
pub fn trap(op: TrapOp, word: u32) -> Option<Insn>
    ensures { result ≡ decoding.trap op word }
{
    Some(Insn::Trap(op, rs(word), rt(word), ShortCode::low(word >> 6)))
}

/// `op rs, immediate`
#[inline(always)]
pub fn trap_immediate(op: TrapImmediateOp, word: u32) -> Option<Insn>
    ensures { result ≡ decoding.trap_immediate op word }
{
    Some(Insn::TrapImmediate(op, rs(word), low(word)))
}

/// `op rs, target`, under the opcode REGIMM
#[inline(always)]
pub fn branch_regimm(op: BranchRegimmOp, word: u32) -> Option<Insn>
    ensures { result ≡ decoding.branch_regimm op word }
{
    Some(Insn::BranchRegimm(op, rs(word), low(word)))
}

/// `op target`
#[inline(always)]
pub fn jump(op: JumpOp, word: u32) -> Option<Insn>
    ensures { result ≡ decoding.jump op word }
{
    Some(Insn::Jump(op, JumpIndex::low(word)))
}

/// `op rs, rt, target`
#[inline(always)]
pub fn branch(op: BranchOp, word: u32) -> Option<Insn>
    ensures { result ≡ decoding.branch op word }
{
    Some(Insn::Branch(op, rs(word), rt(word), low(word)))
}

/// `op rt, rs, immediate`
#[inline(always)]
pub fn with_immediate(op: ImmediateOp, word: u32) -> Option<Insn>
    ensures { result ≡ decoding.with_immediate op word }
{
    Some(Insn::WithImmediate(op, rt(word), rs(word), low(word)))
}

/// `op rt, offset(base)`
#[inline(always)]
pub fn load(op: LoadOp, word: u32) -> Option<Insn>
    ensures { result ≡ decoding.load op word }
{
    Some(Insn::Load(op, rt(word), rs(word), low(word)))
}

/// `op rt, offset(base)`
#[inline(always)]
pub fn store(op: StoreOp, word: u32) -> Option<Insn>
    ensures { result ≡ decoding.store op word }
{
    Some(Insn::Store(op, rt(word), rs(word), low(word)))
}

/// `op rt, offset(base)`
#[inline(always)]
pub fn linked(op: LinkedOp, word: u32) -> Option<Insn>
    ensures { result ≡ decoding.linked op word }
{
    Some(Insn::Linked(op, rt(word), rs(word), low(word)))
}
