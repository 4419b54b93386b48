//! The instructions, by the form of their operands.

use crate::fields::{Hint, JumpIndex, LongCode, Register, ShiftAmount, ShortCode};

/// Shifts by an amount in the word: `op rd, rt, sa`.
#[derive(Clone, Copy, PartialEq, Eq)]
pub enum ShiftOp {
    /// Shift left.
    Sll = 0x00,
    /// Shift right, zeros come in.
    Srl = 0x02,
    /// Shift right, the sign comes in.
    Sra = 0x03,
}

/// Shifts by the low five bits of a register: `op rd, rt, rs`.
#[derive(Clone, Copy, PartialEq, Eq)]
pub enum ShiftVariableOp {
    /// Shift left.
    Sllv = 0x04,
    /// Shift right, zeros come in.
    Srlv = 0x06,
    /// Shift right, the sign comes in.
    Srav = 0x07,
}

/// Operations on two registers: `op rd, rs, rt`.
#[derive(Clone, Copy, PartialEq, Eq)]
pub enum RegisterOp {
    /// rs where rt is 0; else rd stays.
    Movz = 0x0a,
    /// rs where rt isn't 0; else rd stays.
    Movn = 0x0b,
    /// Sum; overflow raises Ov.
    Add = 0x20,
    /// Sum, which wraps.
    Addu = 0x21,
    /// Difference; overflow raises Ov.
    Sub = 0x22,
    /// Difference, which wraps.
    Subu = 0x23,
    /// Bitwise and.
    And = 0x24,
    /// Bitwise or.
    Or = 0x25,
    /// Bitwise exclusive or.
    Xor = 0x26,
    /// Complement of the bitwise or.
    Nor = 0x27,
    /// 1 where rs is below rt, read signed, else 0.
    Slt = 0x2a,
    /// 1 where rs is below rt, read unsigned, else 0.
    Sltu = 0x2b,
}

/// Moves from HI and LO: `op rd`.
#[derive(Clone, Copy, PartialEq, Eq)]
pub enum MoveFromOp {
    /// From HI.
    Mfhi = 0x10,
    /// From LO.
    Mflo = 0x12,
}

/// Moves to HI and LO: `op rs`.
#[derive(Clone, Copy, PartialEq, Eq)]
pub enum MoveToOp {
    /// To HI.
    Mthi = 0x11,
    /// To LO.
    Mtlo = 0x13,
}

/// Products and quotients in HI and LO: `op rs, rt`.
#[derive(Clone, Copy, PartialEq, Eq)]
pub enum ProductOp {
    /// Signed product.
    Mult = 0x18,
    /// Unsigned product.
    Multu = 0x19,
    /// Signed quotient in LO, remainder in HI.
    Div = 0x1a,
    /// Unsigned quotient in LO, remainder in HI.
    Divu = 0x1b,
}

/// Traps on two registers: `op rs, rt, code`.
#[derive(Clone, Copy, PartialEq, Eq)]
pub enum TrapOp {
    /// At or above, read signed.
    Tge = 0x30,
    /// At or above, read unsigned.
    Tgeu = 0x31,
    /// Below, read signed.
    Tlt = 0x32,
    /// Below, read unsigned.
    Tltu = 0x33,
    /// Equal.
    Teq = 0x34,
    /// Not equal.
    Tne = 0x36,
}

/// Branches that compare with 0, under the opcode REGIMM: `op rs, target`.
#[derive(Clone, Copy, PartialEq, Eq)]
pub enum BranchRegimmOp {
    /// Below 0.
    Bltz = 0x00,
    /// At or above 0.
    Bgez = 0x01,
    /// Below 0, likely.
    Bltzl = 0x02,
    /// At or above 0, likely.
    Bgezl = 0x03,
    /// Below 0, links.
    Bltzal = 0x10,
    /// At or above 0, links.
    Bgezal = 0x11,
    /// Below 0, links, likely.
    Bltzall = 0x12,
    /// At or above 0, links, likely.
    Bgezall = 0x13,
}

/// Traps on a register and an immediate, under the opcode REGIMM: `op rs, immediate`.
#[derive(Clone, Copy, PartialEq, Eq)]
pub enum TrapImmediateOp {
    /// At or above, read signed.
    Tgei = 0x08,
    /// At or above, read unsigned.
    Tgeiu = 0x09,
    /// Below, read signed.
    Tlti = 0x0a,
    /// Below, read unsigned.
    Tltiu = 0x0b,
    /// Equal.
    Teqi = 0x0c,
    /// Not equal.
    Tnei = 0x0e,
}

/// Products that HI and LO are changed by: `op rs, rt`.
#[derive(Clone, Copy, PartialEq, Eq)]
pub enum AccumulateOp {
    /// Plus the signed product.
    Madd = 0x00,
    /// Plus the unsigned product.
    Maddu = 0x01,
    /// Minus the signed product.
    Msub = 0x04,
    /// Minus the unsigned product.
    Msubu = 0x05,
}

/// Counts of leading bits: `op rd, rs`.
#[derive(Clone, Copy, PartialEq, Eq)]
pub enum CountOp {
    /// Leading zeros.
    Clz = 0x20,
    /// Leading ones.
    Clo = 0x21,
}

/// Jumps to an index: `op target`.
#[derive(Clone, Copy, PartialEq, Eq)]
pub enum JumpOp {
    /// Jump.
    J = 0x02,
    /// Jump and link.
    Jal = 0x03,
}

/// Branches that compare two registers: `op rs, rt, target`.
#[derive(Clone, Copy, PartialEq, Eq)]
pub enum BranchOp {
    /// Equal.
    Beq = 0x04,
    /// Not equal.
    Bne = 0x05,
    /// Equal, likely.
    Beql = 0x14,
    /// Not equal, likely.
    Bnel = 0x15,
}

/// Branches that compare with 0: `op rs, target`.
#[derive(Clone, Copy, PartialEq, Eq)]
pub enum BranchZeroOp {
    /// At or below 0.
    Blez = 0x06,
    /// Above 0.
    Bgtz = 0x07,
    /// At or below 0, likely.
    Blezl = 0x16,
    /// Above 0, likely.
    Bgtzl = 0x17,
}

/// Operations on a register and an immediate: `op rt, rs, immediate`.
#[derive(Clone, Copy, PartialEq, Eq)]
pub enum ImmediateOp {
    /// Sum with the sign-extended immediate; overflow raises Ov.
    Addi = 0x08,
    /// Sum with the sign-extended immediate, which wraps.
    Addiu = 0x09,
    /// 1 where rs is below the sign-extended immediate, read signed, else 0.
    Slti = 0x0a,
    /// 1 where rs is below the sign-extended immediate, read unsigned, else 0.
    Sltiu = 0x0b,
    /// Bitwise and with the zero-extended immediate.
    Andi = 0x0c,
    /// Bitwise or with the zero-extended immediate.
    Ori = 0x0d,
    /// Bitwise exclusive or with the zero-extended immediate.
    Xori = 0x0e,
}

/// Loads: `op rt, offset(base)`.
#[derive(Clone, Copy, PartialEq, Eq)]
pub enum LoadOp {
    /// A byte, sign-extended.
    Lb = 0x20,
    /// A halfword, sign-extended.
    Lh = 0x21,
    /// The left part of an unaligned word.
    Lwl = 0x22,
    /// A word.
    Lw = 0x23,
    /// A byte, zero-extended.
    Lbu = 0x24,
    /// A halfword, zero-extended.
    Lhu = 0x25,
    /// The right part of an unaligned word.
    Lwr = 0x26,
}

/// Stores: `op rt, offset(base)`.
#[derive(Clone, Copy, PartialEq, Eq)]
pub enum StoreOp {
    /// A byte.
    Sb = 0x28,
    /// A halfword.
    Sh = 0x29,
    /// The left part of an unaligned word.
    Swl = 0x2a,
    /// A word.
    Sw = 0x2b,
    /// The right part of an unaligned word.
    Swr = 0x2e,
}

/// Loads and stores of a word that another processor may want too: `op rt, offset(base)`.
#[derive(Clone, Copy, PartialEq, Eq)]
pub enum LinkedOp {
    /// Load, and link the processor to the word.
    Ll = 0x30,
    /// Store, if the processor's link is still to the word.
    Sc = 0x38,
}

/// An instruction of MIPS32 Release 1 (MD00086, chapter 3). Offsets of branches count words from the delay slot, those
/// of loads and stores bytes; both are signed.
#[derive(Clone, Copy)]
pub enum Insn {
    /// `op rd, rt, sa`
    Shift(ShiftOp, Register, Register, ShiftAmount),
    /// `op rd, rt, rs`
    ShiftVariable(ShiftVariableOp, Register, Register, Register),
    /// `op rd, rs, rt`
    ThreeRegisters(RegisterOp, Register, Register, Register),
    /// MUL: `mul rd, rs, rt`
    Multiply(Register, Register, Register),
    /// JR: `jr rs`
    JumpRegister(Register),
    /// JALR: `jalr rd, rs`
    JumpLinkRegister(Register, Register),
    /// SYSCALL: `syscall code`
    Syscall(LongCode),
    /// BREAK: `break code`
    Break(LongCode),
    /// SYNC: `sync`
    Sync,
    /// `op rd`
    MoveFrom(MoveFromOp, Register),
    /// `op rs`
    MoveTo(MoveToOp, Register),
    /// `op rs, rt`
    Product(ProductOp, Register, Register),
    /// `op rs, rt`
    Accumulate(AccumulateOp, Register, Register),
    /// `op rd, rs`
    Count(CountOp, Register, Register),
    /// `op rs, rt, code`
    Trap(TrapOp, Register, Register, ShortCode),
    /// `op rs, immediate`
    TrapImmediate(TrapImmediateOp, Register, u16),
    /// `op target`
    Jump(JumpOp, JumpIndex),
    /// `op rs, rt, target`
    Branch(BranchOp, Register, Register, u16),
    /// `op rs, target`
    BranchZero(BranchZeroOp, Register, u16),
    /// `op rs, target`
    BranchRegimm(BranchRegimmOp, Register, u16),
    /// `op rt, rs, immediate`
    WithImmediate(ImmediateOp, Register, Register, u16),
    /// LUI: `lui rt, immediate`
    LoadUpper(Register, u16),
    /// `op rt, offset(base)`: rt, base, offset
    Load(LoadOp, Register, Register, u16),
    /// `op rt, offset(base)`: rt, base, offset
    Store(StoreOp, Register, Register, u16),
    /// `op rt, offset(base)`: rt, base, offset
    Linked(LinkedOp, Register, Register, u16),
    /// PREF: `pref hint, offset(base)`: hint, base, offset
    Prefetch(Hint, Register, u16),
}
