//! What the operands of an instruction are, in the order in which they are written.

ghost use Rattle.std.specs.Prelude.{◌≡◌, ◌<◌, ◌^◌};
ghost use Rattle.brd_listing.specs.Listing as listing;

use brd_isa::{ImmediateOp, Insn, Mnemonic, Register};
use brd_word::sign16;

/// An operand as it is written.
#[derive(Clone, Copy)]
pub(crate) enum ListedOperand {
    /// There is none.
    Nothing,
    /// A register by its name.
    Register(Register),
    /// A number of sixteen bits that is read as signed, in decimal digits.
    Signed(u16),
    /// A number in hexadecimal digits, without leading zeros.
    Bits(u16),
    /// A number in decimal digits.
    Number(u32),
    /// An address in eight hexadecimal digits.
    Target(u32),
    /// An offset, read as signed, and the register that it is from.
    Address(u16, Register),
}

/// Which instruction it is, without its operands.
pub fn mnemonic_of(insn: &Insn) -> Mnemonic
    ensures { result ≡ listing.mnemonic_of insn.now }
{
    match *insn {
        Insn::Shift(op, _, _, _) => Mnemonic::Shift(op),
        Insn::ShiftVariable(op, _, _, _) => Mnemonic::ShiftVariable(op),
        Insn::ThreeRegisters(op, _, _, _) => Mnemonic::ThreeRegisters(op),
        Insn::Multiply(_, _, _) => Mnemonic::Multiply,
        Insn::JumpRegister(_) => Mnemonic::JumpRegister,
        Insn::JumpLinkRegister(_, _) => Mnemonic::JumpLinkRegister,
        Insn::Syscall(_) => Mnemonic::Syscall,
        Insn::Break(_) => Mnemonic::Break,
        Insn::Sync => Mnemonic::Sync,
        Insn::MoveFrom(op, _) => Mnemonic::MoveFrom(op),
        Insn::MoveTo(op, _) => Mnemonic::MoveTo(op),
        Insn::Product(op, _, _) => Mnemonic::Product(op),
        Insn::Accumulate(op, _, _) => Mnemonic::Accumulate(op),
        Insn::Count(op, _, _) => Mnemonic::Count(op),
        Insn::Trap(op, _, _, _) => Mnemonic::Trap(op),
        Insn::TrapImmediate(op, _, _) => Mnemonic::TrapImmediate(op),
        Insn::Jump(op, _) => Mnemonic::Jump(op),
        Insn::Branch(op, _, _, _) => Mnemonic::Branch(op),
        Insn::BranchZero(op, _, _) => Mnemonic::BranchZero(op),
        Insn::BranchRegimm(op, _, _) => Mnemonic::BranchRegimm(op),
        Insn::WithImmediate(op, _, _, _) => Mnemonic::WithImmediate(op),
        Insn::LoadUpper(_, _) => Mnemonic::LoadUpper,
        Insn::Load(op, _, _, _) => Mnemonic::Load(op),
        Insn::Store(op, _, _, _) => Mnemonic::Store(op),
        Insn::Linked(op, _, _, _) => Mnemonic::Linked(op),
        Insn::Prefetch(_, _, _) => Mnemonic::Prefetch,
    }
}

/// The operands of an instruction at an address; those that are absent stand after the others.
pub(crate) fn operands_of(insn: &Insn, address: u32) -> [ListedOperand; 3]
    ensures { result ≡ listing.operands_of insn.now address }
{
    use ListedOperand::{Address, Nothing, Number, Register, Signed, Target};
    match *insn {
        Insn::Shift(_, rd, rt, sa) => [Register(rd), Register(rt), Number(sa.bits() as u32)],
        Insn::ShiftVariable(_, rd, rt, rs) => [Register(rd), Register(rt), Register(rs)],
        Insn::ThreeRegisters(_, rd, rs, rt) => [Register(rd), Register(rs), Register(rt)],
        Insn::Multiply(rd, rs, rt) => [Register(rd), Register(rs), Register(rt)],
        Insn::JumpRegister(rs) => [Register(rs), Nothing, Nothing],
        Insn::JumpLinkRegister(rd, rs) => [Register(rd), Register(rs), Nothing],
        Insn::Syscall(code) => [code_of(code.code()), Nothing, Nothing],
        Insn::Break(code) => [code_of(code.code()), Nothing, Nothing],
        Insn::Sync => [Nothing, Nothing, Nothing],
        Insn::MoveFrom(_, rd) => [Register(rd), Nothing, Nothing],
        Insn::MoveTo(_, rs) => [Register(rs), Nothing, Nothing],
        Insn::Product(_, rs, rt) => [Register(rs), Register(rt), Nothing],
        Insn::Accumulate(_, rs, rt) => [Register(rs), Register(rt), Nothing],
        Insn::Count(_, rd, rs) => [Register(rd), Register(rs), Nothing],
        Insn::Trap(_, rs, rt, code) => [Register(rs), Register(rt), code_of(code.code() as u32)],
        Insn::TrapImmediate(_, rs, immediate) => [Register(rs), Signed(immediate), Nothing],
        Insn::Jump(_, index) => [
            Target(jump_target(address, index.words())),
            Nothing,
            Nothing,
        ],
        Insn::Branch(_, rs, rt, offset) => {
            [
                Register(rs),
                Register(rt),
                Target(branch_target(address, offset)),
            ]
        }
        Insn::BranchZero(_, rs, offset) => {
            [
                Register(rs),
                Target(branch_target(address, offset)),
                Nothing,
            ]
        }
        Insn::BranchRegimm(_, rs, offset) => {
            [
                Register(rs),
                Target(branch_target(address, offset)),
                Nothing,
            ]
        }
        Insn::WithImmediate(op, rt, rs, immediate) => {
            [Register(rt), Register(rs), immediate_of(op, immediate)]
        }
        Insn::LoadUpper(rt, immediate) => [Register(rt), ListedOperand::Bits(immediate), Nothing],
        Insn::Load(_, rt, base, offset) => [Register(rt), Address(offset, base), Nothing],
        Insn::Store(_, rt, base, offset) => [Register(rt), Address(offset, base), Nothing],
        Insn::Linked(_, rt, base, offset) => [Register(rt), Address(offset, base), Nothing],
        Insn::Prefetch(hint, base, offset) => {
            [Number(hint.number() as u32), Address(offset, base), Nothing]
        }
    }
}

/// A code, which is left out where it is 0.
fn code_of(code: u32) -> ListedOperand
    ensures { result ≡ listing.code_of code }
{
    if code == 0 {
        return ListedOperand::Nothing;
    }
    ListedOperand::Number(code)
}

/// The immediate of an operation: the logical ones read it as unsigned.
fn immediate_of(op: ImmediateOp, immediate: u16) -> ListedOperand
    ensures { result ≡ listing.immediate_of op immediate }
{
    match op {
        ImmediateOp::Andi | ImmediateOp::Ori | ImmediateOp::Xori => ListedOperand::Bits(immediate),
        _ => ListedOperand::Signed(immediate),
    }
}

/// Where a branch at an address leads: its offset counts words from the delay slot, and is signed.
fn branch_target(address: u32, offset: u16) -> u32
    ensures { result ≡ listing.branch_target address offset }
{
    address
        .wrapping_add(4)
        .wrapping_add(sign16(offset).wrapping_mul(4))
}

/// Where a jump at an address leads: in the region of 2 to the 28th bytes in which its delay slot lies.
fn jump_target(address: u32, words: u32) -> u32
    requires { words < 2 ^ 26 }
    ensures { result ≡ listing.jump_target address words }
{
    let slot = address.wrapping_add(4);
    (slot / 0x1000_0000) * 0x1000_0000 + 4 * words
}
