//! From an instruction to the word that stands for it.

ghost use Rattle.std.specs.Prelude.{◌≡◌, Some};
ghost use Rattle.brd_isa.specs.Table.{StandsFor, IgnoresSa};
ghost use Rattle.brd_isa.specs.Decoding.{decoded, sa_of};

use crate::fields::Register;
use crate::formats::{
    i_type, j_type, long_code, regimm, shifted, short_code, special, special2, two_registers,
};
use crate::instruction::Insn;

/// The word that stands for an instruction; a field that the table ignores is 0. It is decoded to that instruction.
pub fn encode(insn: Insn) -> u32
    ensures related { StandsFor result insn }
    ensures plain { IgnoresSa insn → sa_of result ≡ 0 }
    ensures again { decoded result ≡ Some insn }
{
    word_of(insn)
}

/// The word that the table's line of the instruction's form makes, with 0 in an ignored field.
fn word_of(insn: Insn) -> u32
    ensures related { StandsFor result insn }
    ensures plain { IgnoresSa insn → sa_of result ≡ 0 }
{
    let none = Register::low(0);
    match insn {
        Insn::Shift(op, rd, rt, sa) => shifted(rt, rd, sa, op as u32),
        Insn::ShiftVariable(op, rd, rt, rs) => special(rs, rt, rd, op as u32),
        Insn::ThreeRegisters(op, rd, rs, rt) => special(rs, rt, rd, op as u32),
        Insn::Multiply(rd, rs, rt) => special2(rs, rt, rd, 0x02),
        Insn::JumpRegister(rs) => special(rs, none, none, 0x08),
        Insn::JumpLinkRegister(rd, rs) => special(rs, none, rd, 0x09),
        Insn::Syscall(code) => long_code(code, 0x0c),
        Insn::Break(code) => long_code(code, 0x0d),
        Insn::Sync => special(none, none, none, 0x0f),
        Insn::MoveFrom(op, rd) => special(none, none, rd, op as u32),
        Insn::MoveTo(op, rs) => special(rs, none, none, op as u32),
        Insn::Product(op, rs, rt) => special(rs, rt, none, op as u32),
        Insn::Accumulate(op, rs, rt) => special2(rs, rt, none, op as u32),
        Insn::Count(op, rd, rs) => special2(rs, rd, rd, op as u32),
        Insn::Trap(op, rs, rt, code) => short_code(rs, rt, code, op as u32),
        Insn::TrapImmediate(op, rs, immediate) => regimm(rs, op as u32, immediate),
        Insn::Jump(op, index) => j_type(op as u32, index),
        Insn::Branch(op, rs, rt, offset) => two_registers(op as u32, rs, rt, offset),
        Insn::BranchZero(op, rs, offset) => i_type(op as u32, rs, 0, offset),
        Insn::BranchRegimm(op, rs, offset) => regimm(rs, op as u32, offset),
        Insn::WithImmediate(op, rt, rs, immediate) => {
            two_registers(op as u32, rs, rt, immediate)
        }
        Insn::LoadUpper(rt, immediate) => two_registers(0x0f, none, rt, immediate),
        Insn::Load(op, rt, base, offset) => two_registers(op as u32, base, rt, offset),
        Insn::Store(op, rt, base, offset) => two_registers(op as u32, base, rt, offset),
        Insn::Linked(op, rt, base, offset) => two_registers(op as u32, base, rt, offset),
        Insn::Prefetch(hint, base, offset) => i_type(0x33, base, u32::from(hint.number()), offset),
    }
}
