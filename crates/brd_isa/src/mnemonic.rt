//! The names of the instructions in assembler source.

ghost use Rattle.std.specs.Prelude.{◌≡◌, ◌↔◌, ℕ, List, Some, map, option_map};
ghost use Rattle.std.specs.Str.{bytes_eq};
ghost use Rattle.brd_isa.specs.Names as names;

use crate::instruction::{
    AccumulateOp, BranchOp, BranchRegimmOp, BranchZeroOp, CountOp, ImmediateOp, JumpOp, LinkedOp,
    LoadOp, MoveFromOp, MoveToOp, ProductOp, RegisterOp, ShiftOp, ShiftVariableOp, StoreOp,
    TrapImmediateOp, TrapOp,
};

/// Which instruction it is, without its operands: as `Insn`.
#[derive(Clone, Copy, PartialEq, Eq)]
pub enum Mnemonic {
    /// `op rd, rt, sa`
    Shift(ShiftOp),
    /// `op rd, rt, rs`
    ShiftVariable(ShiftVariableOp),
    /// `op rd, rs, rt`
    ThreeRegisters(RegisterOp),
    /// MUL: `mul rd, rs, rt`
    Multiply,
    /// JR: `jr rs`
    JumpRegister,
    /// JALR: `jalr rd, rs`
    JumpLinkRegister,
    /// SYSCALL: `syscall code`
    Syscall,
    /// BREAK: `break code`
    Break,
    /// SYNC: `sync`
    Sync,
    /// `op rd`
    MoveFrom(MoveFromOp),
    /// `op rs`
    MoveTo(MoveToOp),
    /// `op rs, rt`
    Product(ProductOp),
    /// `op rs, rt`
    Accumulate(AccumulateOp),
    /// `op rd, rs`
    Count(CountOp),
    /// `op rs, rt, code`
    Trap(TrapOp),
    /// `op rs, immediate`
    TrapImmediate(TrapImmediateOp),
    /// `op target`
    Jump(JumpOp),
    /// `op rs, rt, target`
    Branch(BranchOp),
    /// `op rs, target`
    BranchZero(BranchZeroOp),
    /// `op rs, target`
    BranchRegimm(BranchRegimmOp),
    /// `op rt, rs, immediate`
    WithImmediate(ImmediateOp),
    /// LUI: `lui rt, immediate`
    LoadUpper,
    /// `op rt, offset(base)`
    Load(LoadOp),
    /// `op rt, offset(base)`
    Store(StoreOp),
    /// `op rt, offset(base)`
    Linked(LinkedOp),
    /// PREF: `pref hint, offset(base)`
    Prefetch,
}

/// Whether two names are the same without regard to case.
pub fn is_same_name(name: &[u8], other: &[u8]) -> bool
    ensures { result ≡ bytes_eq (names.lowered name.now) (names.lowered other.now) }
{
    name.eq_ignore_ascii_case(other)
}

/// The name of each mnemonic, in lower case.
pub const MNEMONIC_NAMES: &[(&[u8], Mnemonic)] = &[
    (b"sll", Mnemonic::Shift(ShiftOp::Sll)),
    (b"srl", Mnemonic::Shift(ShiftOp::Srl)),
    (b"sra", Mnemonic::Shift(ShiftOp::Sra)),
    (b"sllv", Mnemonic::ShiftVariable(ShiftVariableOp::Sllv)),
    (b"srlv", Mnemonic::ShiftVariable(ShiftVariableOp::Srlv)),
    (b"srav", Mnemonic::ShiftVariable(ShiftVariableOp::Srav)),
    (b"movz", Mnemonic::ThreeRegisters(RegisterOp::Movz)),
    (b"movn", Mnemonic::ThreeRegisters(RegisterOp::Movn)),
    (b"add", Mnemonic::ThreeRegisters(RegisterOp::Add)),
    (b"addu", Mnemonic::ThreeRegisters(RegisterOp::Addu)),
    (b"sub", Mnemonic::ThreeRegisters(RegisterOp::Sub)),
    (b"subu", Mnemonic::ThreeRegisters(RegisterOp::Subu)),
    (b"and", Mnemonic::ThreeRegisters(RegisterOp::And)),
    (b"or", Mnemonic::ThreeRegisters(RegisterOp::Or)),
    (b"xor", Mnemonic::ThreeRegisters(RegisterOp::Xor)),
    (b"nor", Mnemonic::ThreeRegisters(RegisterOp::Nor)),
    (b"slt", Mnemonic::ThreeRegisters(RegisterOp::Slt)),
    (b"sltu", Mnemonic::ThreeRegisters(RegisterOp::Sltu)),
    (b"mfhi", Mnemonic::MoveFrom(MoveFromOp::Mfhi)),
    (b"mflo", Mnemonic::MoveFrom(MoveFromOp::Mflo)),
    (b"mthi", Mnemonic::MoveTo(MoveToOp::Mthi)),
    (b"mtlo", Mnemonic::MoveTo(MoveToOp::Mtlo)),
    (b"mult", Mnemonic::Product(ProductOp::Mult)),
    (b"multu", Mnemonic::Product(ProductOp::Multu)),
    (b"div", Mnemonic::Product(ProductOp::Div)),
    (b"divu", Mnemonic::Product(ProductOp::Divu)),
    (b"madd", Mnemonic::Accumulate(AccumulateOp::Madd)),
    (b"maddu", Mnemonic::Accumulate(AccumulateOp::Maddu)),
    (b"msub", Mnemonic::Accumulate(AccumulateOp::Msub)),
    (b"msubu", Mnemonic::Accumulate(AccumulateOp::Msubu)),
    (b"clz", Mnemonic::Count(CountOp::Clz)),
    (b"clo", Mnemonic::Count(CountOp::Clo)),
    (b"addi", Mnemonic::WithImmediate(ImmediateOp::Addi)),
    (b"addiu", Mnemonic::WithImmediate(ImmediateOp::Addiu)),
    (b"slti", Mnemonic::WithImmediate(ImmediateOp::Slti)),
    (b"sltiu", Mnemonic::WithImmediate(ImmediateOp::Sltiu)),
    (b"andi", Mnemonic::WithImmediate(ImmediateOp::Andi)),
    (b"ori", Mnemonic::WithImmediate(ImmediateOp::Ori)),
    (b"xori", Mnemonic::WithImmediate(ImmediateOp::Xori)),
    (b"tge", Mnemonic::Trap(TrapOp::Tge)),
    (b"tgeu", Mnemonic::Trap(TrapOp::Tgeu)),
    (b"tlt", Mnemonic::Trap(TrapOp::Tlt)),
    (b"tltu", Mnemonic::Trap(TrapOp::Tltu)),
    (b"teq", Mnemonic::Trap(TrapOp::Teq)),
    (b"tne", Mnemonic::Trap(TrapOp::Tne)),
    (b"tgei", Mnemonic::TrapImmediate(TrapImmediateOp::Tgei)),
    (b"tgeiu", Mnemonic::TrapImmediate(TrapImmediateOp::Tgeiu)),
    (b"tlti", Mnemonic::TrapImmediate(TrapImmediateOp::Tlti)),
    (b"tltiu", Mnemonic::TrapImmediate(TrapImmediateOp::Tltiu)),
    (b"teqi", Mnemonic::TrapImmediate(TrapImmediateOp::Teqi)),
    (b"tnei", Mnemonic::TrapImmediate(TrapImmediateOp::Tnei)),
    (b"j", Mnemonic::Jump(JumpOp::J)),
    (b"jal", Mnemonic::Jump(JumpOp::Jal)),
    (b"beq", Mnemonic::Branch(BranchOp::Beq)),
    (b"bne", Mnemonic::Branch(BranchOp::Bne)),
    (b"beql", Mnemonic::Branch(BranchOp::Beql)),
    (b"bnel", Mnemonic::Branch(BranchOp::Bnel)),
    (b"blez", Mnemonic::BranchZero(BranchZeroOp::Blez)),
    (b"bgtz", Mnemonic::BranchZero(BranchZeroOp::Bgtz)),
    (b"blezl", Mnemonic::BranchZero(BranchZeroOp::Blezl)),
    (b"bgtzl", Mnemonic::BranchZero(BranchZeroOp::Bgtzl)),
    (b"bltz", Mnemonic::BranchRegimm(BranchRegimmOp::Bltz)),
    (b"bgez", Mnemonic::BranchRegimm(BranchRegimmOp::Bgez)),
    (b"bltzl", Mnemonic::BranchRegimm(BranchRegimmOp::Bltzl)),
    (b"bgezl", Mnemonic::BranchRegimm(BranchRegimmOp::Bgezl)),
    (b"bltzal", Mnemonic::BranchRegimm(BranchRegimmOp::Bltzal)),
    (b"bgezal", Mnemonic::BranchRegimm(BranchRegimmOp::Bgezal)),
    (b"bltzall", Mnemonic::BranchRegimm(BranchRegimmOp::Bltzall)),
    (b"bgezall", Mnemonic::BranchRegimm(BranchRegimmOp::Bgezall)),
    (b"lb", Mnemonic::Load(LoadOp::Lb)),
    (b"lh", Mnemonic::Load(LoadOp::Lh)),
    (b"lwl", Mnemonic::Load(LoadOp::Lwl)),
    (b"lw", Mnemonic::Load(LoadOp::Lw)),
    (b"lbu", Mnemonic::Load(LoadOp::Lbu)),
    (b"lhu", Mnemonic::Load(LoadOp::Lhu)),
    (b"lwr", Mnemonic::Load(LoadOp::Lwr)),
    (b"sb", Mnemonic::Store(StoreOp::Sb)),
    (b"sh", Mnemonic::Store(StoreOp::Sh)),
    (b"swl", Mnemonic::Store(StoreOp::Swl)),
    (b"sw", Mnemonic::Store(StoreOp::Sw)),
    (b"swr", Mnemonic::Store(StoreOp::Swr)),
    (b"ll", Mnemonic::Linked(LinkedOp::Ll)),
    (b"sc", Mnemonic::Linked(LinkedOp::Sc)),
    (b"mul", Mnemonic::Multiply),
    (b"jr", Mnemonic::JumpRegister),
    (b"jalr", Mnemonic::JumpLinkRegister),
    (b"syscall", Mnemonic::Syscall),
    (b"break", Mnemonic::Break),
    (b"sync", Mnemonic::Sync),
    (b"lui", Mnemonic::LoadUpper),
    (b"pref", Mnemonic::Prefetch),
];

/// What a table has for a name, without regard to case.
fn find(rows: &[(&[u8], Mnemonic)], name: &[u8]) -> Option<Mnemonic>
    ensures { let lowered_rows = map (λ row. (names.lowered row.0.now, row.1)) rows.now in
        result ≡ names.named_in lowered_rows (names.lowered name.now) }
{
    for (known, mnemonic) in rows {
        if is_same_name(name, known) {
            return Some(*mnemonic);
        }
    }
    None
}

/// The mnemonic of this name, without regard to case.
pub fn mnemonic_named(name: &[u8]) -> Option<Mnemonic>
    ensures { result ≡ names.mnemonic_named (names.lowered name.now) }
{
    find(MNEMONIC_NAMES, name)
}

/// The name that a table has for a mnemonic.
#[tactic(auto, unfolding(crate::specs::Names::name_in))]
fn name_in(rows: &'static [(&'static [u8], Mnemonic)], mnemonic: Mnemonic) -> Option<&'static [u8]>
    ensures { let named_rows = map (λ row. (row.0.now, row.1)) rows.now in
        option_map (λ name. name.now) result ≡ names.name_in named_rows mnemonic }
{
    for (name, known) in rows {
        if *known == mnemonic {
            return Some(name);
        }
    }
    None
}

/// The name of a mnemonic, in lower case: no other name is read as that mnemonic.
pub fn mnemonic_name(mnemonic: Mnemonic) -> &'static [u8]
    ensures { (name : List ℕ) → (names.mnemonic_named name ≡ Some mnemonic) ↔ (name ≡ result.now) }
{
    match name_in(MNEMONIC_NAMES, mnemonic) {
        Some(name) => name,
        None => unreachable!(),
    }
}
