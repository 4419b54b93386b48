//! Instructions with the numbers that their operands stand for.

ghost use Rattle.std.specs.Prelude.{◌≡◌};
ghost use Rattle.brd_source.specs.View as source;
ghost use Rattle.brd_asm.specs.Faults.{Gives};
ghost use Rattle.brd_asm.specs.Meaning.{instruction_of};

use crate::fault::AsmFault;
use crate::names::Names;
use crate::operand::Site;
use brd_isa::{Insn, Mnemonic};
use brd_source::Instruction;

/// The instruction that stands at a place: a line a form. A register is an operand or the base of an address.
#[tactic(auto, unfolding(crate::specs::Meaning::instruction_of))]
pub fn instruction_of(
    line: usize,
    place: u32,
    names: &Names,
    instruction: &Instruction,
) -> Result<Insn, AsmFault>
    ensures { Gives (λ i. i) result (instruction_of line place names.now (source.instruction_value instruction.now)) }
{
    let at = Site { line, place, names };
    let (a, b, c) = instruction.operands;
    let (x, y, z) = (a.register(), b.register(), c.register());
    Ok(match instruction.mnemonic {
        Mnemonic::Shift(op) => Insn::Shift(op, x, y, at.shift_amount(c)?),
        Mnemonic::ShiftVariable(op) => Insn::ShiftVariable(op, x, y, z),
        Mnemonic::ThreeRegisters(op) => Insn::ThreeRegisters(op, x, y, z),
        Mnemonic::Multiply => Insn::Multiply(x, y, z),
        Mnemonic::JumpRegister => Insn::JumpRegister(x),
        Mnemonic::JumpLinkRegister => Insn::JumpLinkRegister(x, y),
        Mnemonic::Syscall => Insn::Syscall(at.long_code(a)?),
        Mnemonic::Break => Insn::Break(at.long_code(a)?),
        Mnemonic::Sync => Insn::Sync,
        Mnemonic::MoveFrom(op) => Insn::MoveFrom(op, x),
        Mnemonic::MoveTo(op) => Insn::MoveTo(op, x),
        Mnemonic::Product(op) => Insn::Product(op, x, y),
        Mnemonic::Accumulate(op) => Insn::Accumulate(op, x, y),
        Mnemonic::Count(op) => Insn::Count(op, x, y),
        Mnemonic::Trap(op) => Insn::Trap(op, x, y, at.short_code(c)?),
        Mnemonic::TrapImmediate(op) => Insn::TrapImmediate(op, x, at.signed(b)?),
        Mnemonic::Jump(op) => Insn::Jump(op, at.index_to(a)?),
        Mnemonic::Branch(op) => Insn::Branch(op, x, y, at.offset_to(c)?),
        Mnemonic::BranchZero(op) => Insn::BranchZero(op, x, at.offset_to(b)?),
        Mnemonic::BranchRegimm(op) => Insn::BranchRegimm(op, x, at.offset_to(b)?),
        Mnemonic::WithImmediate(op) => Insn::WithImmediate(op, x, y, at.field(op, c)?),
        Mnemonic::LoadUpper => Insn::LoadUpper(x, at.unsigned(b)?),
        Mnemonic::Load(op) => Insn::Load(op, x, y, at.signed(b)?),
        Mnemonic::Store(op) => Insn::Store(op, x, y, at.signed(b)?),
        Mnemonic::Linked(op) => Insn::Linked(op, x, y, at.signed(b)?),
        Mnemonic::Prefetch => {
            let (hint, offset) = at.prefetch(a, b)?;
            Insn::Prefetch(hint, y, offset)
        }
    })
}
