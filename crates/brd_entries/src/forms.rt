//! The entry of an instruction, by the form of its operands. What writes to register 0 changes nothing, unless it jumps
//! or may raise an exception.

ghost use Rattle.std.specs.Prelude.{◌≡◌, if◌then◌else◌, Some};
ghost use Rattle.brd_isa.specs.declared.instruction.Insn.{Insn};
ghost use Rattle.brd_isa.specs.Local.{is_local};
ghost use Rattle.brd_entries.specs.declared.entry.CodeEntry.{CodeEntry};
ghost use Rattle.brd_entries.specs.Means.{Means, reach_of};

use crate::entry::CodeEntry;
use crate::register::{Destination, Source};
use brd_isa::{
    AccumulateOp, BranchOp, BranchRegimmOp, BranchZeroOp, CountOp, ImmediateOp, Insn, JumpIndex,
    JumpOp, LoadOp, MoveFromOp, MoveToOp, ProductOp, Register, RegisterOp, ShiftAmount, ShiftOp,
    ShiftVariableOp, StoreOp, is_local,
};
use brd_word::sign16;

/// The entry of an instruction that is no jump and would write to register 0: local ones do nothing, and the others may
/// raise an exception.
fn nop_if_local(insn: Insn) -> CodeEntry
    ensures { result ≡ (if is_local insn then CodeEntry.Nop else CodeEntry.Slow) }
{
    if is_local(insn) {
        CodeEntry::Nop
    } else {
        CodeEntry::Slow
    }
}

/// `op rd, rt, sa`
pub fn shift(op: ShiftOp, rd: Register, rt: Register, amount: ShiftAmount) -> CodeEntry
    ensures { Means result (Some (Insn.Shift op rd rt amount)) }
{
    let Some(to) = Destination::of(rd) else {
        return CodeEntry::Nop;
    };
    let from = Source::of(rt);
    match op {
        ShiftOp::Sll => CodeEntry::Sll(to, from, amount),
        ShiftOp::Srl => CodeEntry::Srl(to, from, amount),
        ShiftOp::Sra => CodeEntry::Sra(to, from, amount),
    }
}

/// `op rd, rt, rs`
pub fn shift_variable(op: ShiftVariableOp, rd: Register, rt: Register, rs: Register) -> CodeEntry
    ensures { Means result (Some (Insn.ShiftVariable op rd rt rs)) }
{
    let Some(to) = Destination::of(rd) else {
        return CodeEntry::Nop;
    };
    let (from, amount) = (Source::of(rt), Source::of(rs));
    match op {
        ShiftVariableOp::Sllv => CodeEntry::Sllv(to, from, amount),
        ShiftVariableOp::Srlv => CodeEntry::Srlv(to, from, amount),
        ShiftVariableOp::Srav => CodeEntry::Srav(to, from, amount),
    }
}

/// `op rd, rs, rt`
pub fn three_registers(op: RegisterOp, rd: Register, rs: Register, rt: Register) -> CodeEntry
    ensures { Means result (Some (Insn.ThreeRegisters op rd rs rt)) }
{
    let Some(to) = Destination::of(rd) else {
        return nop_if_local(Insn::ThreeRegisters(op, rd, rs, rt));
    };
    let (a, b) = (Source::of(rs), Source::of(rt));
    match op {
        RegisterOp::Movz => CodeEntry::Movz(to, a, b),
        RegisterOp::Movn => CodeEntry::Movn(to, a, b),
        RegisterOp::Add => CodeEntry::Add(to, a, b),
        RegisterOp::Addu => CodeEntry::Addu(to, a, b),
        RegisterOp::Sub => CodeEntry::Sub(to, a, b),
        RegisterOp::Subu => CodeEntry::Subu(to, a, b),
        RegisterOp::And => CodeEntry::And(to, a, b),
        RegisterOp::Or => CodeEntry::Or(to, a, b),
        RegisterOp::Xor => CodeEntry::Xor(to, a, b),
        RegisterOp::Nor => CodeEntry::Nor(to, a, b),
        RegisterOp::Slt => CodeEntry::Slt(to, a, b),
        RegisterOp::Sltu => CodeEntry::Sltu(to, a, b),
    }
}

/// `mul rd, rs, rt`
pub fn multiply(rd: Register, rs: Register, rt: Register) -> CodeEntry
    ensures { Means result (Some (Insn.Multiply rd rs rt)) }
{
    let Some(to) = Destination::of(rd) else {
        return CodeEntry::Nop;
    };
    CodeEntry::Mul(to, Source::of(rs), Source::of(rt))
}

/// `op rt, rs, immediate`
pub fn with_immediate(op: ImmediateOp, rt: Register, rs: Register, immediate: u16) -> CodeEntry
    ensures { Means result (Some (Insn.WithImmediate op rt rs immediate)) }
{
    let Some(to) = Destination::of(rt) else {
        return nop_if_local(Insn::WithImmediate(op, rt, rs, immediate));
    };
    let from = Source::of(rs);
    match op {
        ImmediateOp::Addi => CodeEntry::Addi(to, from, sign16(immediate)),
        ImmediateOp::Addiu => CodeEntry::Addiu(to, from, sign16(immediate)),
        ImmediateOp::Slti => CodeEntry::Slti(to, from, sign16(immediate)),
        ImmediateOp::Sltiu => CodeEntry::Sltiu(to, from, sign16(immediate)),
        ImmediateOp::Andi => CodeEntry::Andi(to, from, u32::from(immediate)),
        ImmediateOp::Ori => CodeEntry::Ori(to, from, u32::from(immediate)),
        ImmediateOp::Xori => CodeEntry::Xori(to, from, u32::from(immediate)),
    }
}

/// `lui rt, immediate`
pub fn load_upper(rt: Register, immediate: u16) -> CodeEntry
    ensures { Means result (Some (Insn.LoadUpper rt immediate)) }
{
    let Some(to) = Destination::of(rt) else {
        return CodeEntry::Nop;
    };
    CodeEntry::Lui(to, u32::from(immediate) << 16)
}

/// `op rd`
pub fn move_from(op: MoveFromOp, rd: Register) -> CodeEntry
    ensures { Means result (Some (Insn.MoveFrom op rd)) }
{
    let Some(to) = Destination::of(rd) else {
        return CodeEntry::Nop;
    };
    match op {
        MoveFromOp::Mfhi => CodeEntry::Mfhi(to),
        MoveFromOp::Mflo => CodeEntry::Mflo(to),
    }
}

/// `op rs`
pub fn move_to(op: MoveToOp, rs: Register) -> CodeEntry
    ensures { Means result (Some (Insn.MoveTo op rs)) }
{
    match op {
        MoveToOp::Mthi => CodeEntry::Mthi(Source::of(rs)),
        MoveToOp::Mtlo => CodeEntry::Mtlo(Source::of(rs)),
    }
}

/// `op rs, rt`
pub fn product(op: ProductOp, rs: Register, rt: Register) -> CodeEntry
    ensures { Means result (Some (Insn.Product op rs rt)) }
{
    let (a, b) = (Source::of(rs), Source::of(rt));
    match op {
        ProductOp::Mult => CodeEntry::Mult(a, b),
        ProductOp::Multu => CodeEntry::Multu(a, b),
        ProductOp::Div => CodeEntry::Div(a, b),
        ProductOp::Divu => CodeEntry::Divu(a, b),
    }
}

/// `op rs, rt`
pub fn accumulate(op: AccumulateOp, rs: Register, rt: Register) -> CodeEntry
    ensures { Means result (Some (Insn.Accumulate op rs rt)) }
{
    let (a, b) = (Source::of(rs), Source::of(rt));
    match op {
        AccumulateOp::Madd => CodeEntry::Madd(a, b),
        AccumulateOp::Maddu => CodeEntry::Maddu(a, b),
        AccumulateOp::Msub => CodeEntry::Msub(a, b),
        AccumulateOp::Msubu => CodeEntry::Msubu(a, b),
    }
}

/// `op rd, rs`
pub fn count(op: CountOp, rd: Register, rs: Register) -> CodeEntry
    ensures { Means result (Some (Insn.Count op rd rs)) }
{
    let Some(to) = Destination::of(rd) else {
        return CodeEntry::Nop;
    };
    match op {
        CountOp::Clz => CodeEntry::Clz(to, Source::of(rs)),
        CountOp::Clo => CodeEntry::Clo(to, Source::of(rs)),
    }
}

/// `op rt, offset(base)`: to register 0 it may raise an exception, and has no entry.
pub fn load(op: LoadOp, rt: Register, base: Register, offset: u16) -> CodeEntry
    ensures { Means result (Some (Insn.Load op rt base offset)) }
{
    let Some(to) = Destination::of(rt) else {
        return CodeEntry::Slow;
    };
    let (from, distance) = (Source::of(base), sign16(offset));
    match op {
        LoadOp::Lb => CodeEntry::Lb(to, from, distance),
        LoadOp::Lh => CodeEntry::Lh(to, from, distance),
        LoadOp::Lwl => CodeEntry::Lwl(to, from, distance),
        LoadOp::Lw => CodeEntry::Lw(to, from, distance),
        LoadOp::Lbu => CodeEntry::Lbu(to, from, distance),
        LoadOp::Lhu => CodeEntry::Lhu(to, from, distance),
        LoadOp::Lwr => CodeEntry::Lwr(to, from, distance),
    }
}

/// `op rt, offset(base)`
pub fn store(op: StoreOp, rt: Register, base: Register, offset: u16) -> CodeEntry
    ensures { Means result (Some (Insn.Store op rt base offset)) }
{
    let (word, to, distance) = (Source::of(rt), Source::of(base), sign16(offset));
    match op {
        StoreOp::Sb => CodeEntry::Sb(word, to, distance),
        StoreOp::Sh => CodeEntry::Sh(word, to, distance),
        StoreOp::Swl => CodeEntry::Swl(word, to, distance),
        StoreOp::Sw => CodeEntry::Sw(word, to, distance),
        StoreOp::Swr => CodeEntry::Swr(word, to, distance),
    }
}

/// `op target`
pub fn jump(op: JumpOp, index: JumpIndex) -> CodeEntry
    ensures { Means result (Some (Insn.Jump op index)) }
{
    match op {
        JumpOp::J => CodeEntry::J(index),
        JumpOp::Jal => CodeEntry::Jal(index),
    }
}

/// `jalr rd, rs`: with register 0 for the return address it has no entry.
pub fn jump_link_register(rd: Register, rs: Register) -> CodeEntry
    ensures { Means result (Some (Insn.JumpLinkRegister rd rs)) }
{
    let Some(to) = Destination::of(rd) else {
        return CodeEntry::Slow;
    };
    CodeEntry::Jalr(to, Source::of(rs))
}

/// How many words a branch's target is ahead of the branch, by its offset, which counts from the delay slot.
fn reach(offset: u16) -> u32
    ensures { result ≡ reach_of offset }
{
    sign16(offset).wrapping_add(1)
}

/// `op rs, rt, target`
pub fn branch(op: BranchOp, rs: Register, rt: Register, offset: u16) -> CodeEntry
    ensures { Means result (Some (Insn.Branch op rs rt offset)) }
{
    let (a, b, words) = (Source::of(rs), Source::of(rt), reach(offset));
    match op {
        BranchOp::Beq => CodeEntry::Beq(a, b, words),
        BranchOp::Bne => CodeEntry::Bne(a, b, words),
        BranchOp::Beql => CodeEntry::Beql(a, b, words),
        BranchOp::Bnel => CodeEntry::Bnel(a, b, words),
    }
}

/// `op rs, target`
pub fn branch_zero(op: BranchZeroOp, rs: Register, offset: u16) -> CodeEntry
    ensures { Means result (Some (Insn.BranchZero op rs offset)) }
{
    let (a, words) = (Source::of(rs), reach(offset));
    match op {
        BranchZeroOp::Blez => CodeEntry::Blez(a, words),
        BranchZeroOp::Bgtz => CodeEntry::Bgtz(a, words),
        BranchZeroOp::Blezl => CodeEntry::Blezl(a, words),
        BranchZeroOp::Bgtzl => CodeEntry::Bgtzl(a, words),
    }
}

/// `op rs, target`, under the opcode REGIMM
pub fn branch_regimm(op: BranchRegimmOp, rs: Register, offset: u16) -> CodeEntry
    ensures { Means result (Some (Insn.BranchRegimm op rs offset)) }
{
    let (a, words) = (Source::of(rs), reach(offset));
    match op {
        BranchRegimmOp::Bltz => CodeEntry::Bltz(a, words),
        BranchRegimmOp::Bgez => CodeEntry::Bgez(a, words),
        BranchRegimmOp::Bltzl => CodeEntry::Bltzl(a, words),
        BranchRegimmOp::Bgezl => CodeEntry::Bgezl(a, words),
        BranchRegimmOp::Bltzal => CodeEntry::Bltzal(a, words),
        BranchRegimmOp::Bgezal => CodeEntry::Bgezal(a, words),
        BranchRegimmOp::Bltzall => CodeEntry::Bltzall(a, words),
        BranchRegimmOp::Bgezall => CodeEntry::Bgezall(a, words),
    }
}
