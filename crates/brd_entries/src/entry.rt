//! The entries.

use crate::register::{Destination, Source};
use brd_isa::{JumpIndex, ShiftAmount};
use std::mem::size_of;

/// A decoded word. Each variant but the first two is one operation, with its operands in the order of the assembler, as
/// brd_isa's `Insn` has them. A `Destination` is the register that it writes, never register 0; a `Source` is one that
/// it reads. An entry takes 8 bytes: the operation, up to three bytes of registers or of a shift's amount, and a word.
///
/// An instruction that would write to register 0 is `Nop`, unless it jumps or may raise an exception: then it is
/// `Slow`.
#[derive(Clone, Copy)]
pub enum CodeEntry {
    /// Says nothing: a word that stands for no instruction, or for one without an entry. These are traps, SYSCALL,
    /// BREAK, LL, SC, a JALR whose return address goes to register 0, and loads, ADD, ADDI and SUB to register 0.
    Slow,
    /// Goes on to the next instruction, and changes nothing else, whatever the context is: SYNC, PREF, and what would
    /// write to register 0. Never a branch or a jump.
    Nop,

    /// `sll rd, rt, sa`
    Sll(Destination, Source, ShiftAmount),
    /// `srl rd, rt, sa`
    Srl(Destination, Source, ShiftAmount),
    /// `sra rd, rt, sa`
    Sra(Destination, Source, ShiftAmount),
    /// `sllv rd, rt, rs`: rs has the amount.
    Sllv(Destination, Source, Source),
    /// `srlv rd, rt, rs`
    Srlv(Destination, Source, Source),
    /// `srav rd, rt, rs`
    Srav(Destination, Source, Source),

    /// `movz rd, rs, rt`
    Movz(Destination, Source, Source),
    /// `movn rd, rs, rt`
    Movn(Destination, Source, Source),
    /// `add rd, rs, rt`: may overflow.
    Add(Destination, Source, Source),
    /// `addu rd, rs, rt`
    Addu(Destination, Source, Source),
    /// `sub rd, rs, rt`: may overflow.
    Sub(Destination, Source, Source),
    /// `subu rd, rs, rt`
    Subu(Destination, Source, Source),
    /// `and rd, rs, rt`
    And(Destination, Source, Source),
    /// `or rd, rs, rt`
    Or(Destination, Source, Source),
    /// `xor rd, rs, rt`
    Xor(Destination, Source, Source),
    /// `nor rd, rs, rt`
    Nor(Destination, Source, Source),
    /// `slt rd, rs, rt`
    Slt(Destination, Source, Source),
    /// `sltu rd, rs, rt`
    Sltu(Destination, Source, Source),
    /// `mul rd, rs, rt`
    Mul(Destination, Source, Source),

    /// `addi rt, rs, immediate`: may overflow. The immediate is sign-extended, as in the next three.
    Addi(Destination, Source, u32),
    /// `addiu rt, rs, immediate`
    Addiu(Destination, Source, u32),
    /// `slti rt, rs, immediate`
    Slti(Destination, Source, u32),
    /// `sltiu rt, rs, immediate`
    Sltiu(Destination, Source, u32),
    /// `andi rt, rs, immediate`. The immediate is extended by zeros, as in the next two.
    Andi(Destination, Source, u32),
    /// `ori rt, rs, immediate`
    Ori(Destination, Source, u32),
    /// `xori rt, rs, immediate`
    Xori(Destination, Source, u32),
    /// `lui rt, immediate`: the word that rt becomes.
    Lui(Destination, u32),

    /// `mfhi rd`
    Mfhi(Destination),
    /// `mflo rd`
    Mflo(Destination),
    /// `mthi rs`
    Mthi(Source),
    /// `mtlo rs`
    Mtlo(Source),
    /// `mult rs, rt`
    Mult(Source, Source),
    /// `multu rs, rt`
    Multu(Source, Source),
    /// `div rs, rt`
    Div(Source, Source),
    /// `divu rs, rt`
    Divu(Source, Source),
    /// `madd rs, rt`
    Madd(Source, Source),
    /// `maddu rs, rt`
    Maddu(Source, Source),
    /// `msub rs, rt`
    Msub(Source, Source),
    /// `msubu rs, rt`
    Msubu(Source, Source),
    /// `clz rd, rs`
    Clz(Destination, Source),
    /// `clo rd, rs`
    Clo(Destination, Source),

    /// `lb rt, offset(base)`: rt, base, and the offset in bytes, sign-extended, as in all loads and stores.
    Lb(Destination, Source, u32),
    /// `lh rt, offset(base)`
    Lh(Destination, Source, u32),
    /// `lwl rt, offset(base)`
    Lwl(Destination, Source, u32),
    /// `lw rt, offset(base)`
    Lw(Destination, Source, u32),
    /// `lbu rt, offset(base)`
    Lbu(Destination, Source, u32),
    /// `lhu rt, offset(base)`
    Lhu(Destination, Source, u32),
    /// `lwr rt, offset(base)`
    Lwr(Destination, Source, u32),
    /// `sb rt, offset(base)`
    Sb(Source, Source, u32),
    /// `sh rt, offset(base)`
    Sh(Source, Source, u32),
    /// `swl rt, offset(base)`
    Swl(Source, Source, u32),
    /// `sw rt, offset(base)`
    Sw(Source, Source, u32),
    /// `swr rt, offset(base)`
    Swr(Source, Source, u32),

    /// `j target`: the index, which counts words from the start of 256 MiB.
    J(JumpIndex),
    /// `jal target`
    Jal(JumpIndex),
    /// `jr rs`
    Jr(Source),
    /// `jalr rd, rs`
    Jalr(Destination, Source),
    /// `beq rs, rt, target`: how many words the target is ahead of the branch itself, modulo 2^32, as in all branches.
    Beq(Source, Source, u32),
    /// `bne rs, rt, target`
    Bne(Source, Source, u32),
    /// `beql rs, rt, target`
    Beql(Source, Source, u32),
    /// `bnel rs, rt, target`
    Bnel(Source, Source, u32),
    /// `blez rs, target`
    Blez(Source, u32),
    /// `bgtz rs, target`
    Bgtz(Source, u32),
    /// `blezl rs, target`
    Blezl(Source, u32),
    /// `bgtzl rs, target`
    Bgtzl(Source, u32),
    /// `bltz rs, target`
    Bltz(Source, u32),
    /// `bgez rs, target`
    Bgez(Source, u32),
    /// `bltzl rs, target`
    Bltzl(Source, u32),
    /// `bgezl rs, target`
    Bgezl(Source, u32),
    /// `bltzal rs, target`
    Bltzal(Source, u32),
    /// `bgezal rs, target`
    Bgezal(Source, u32),
    /// `bltzall rs, target`
    Bltzall(Source, u32),
    /// `bgezall rs, target`
    Bgezall(Source, u32),
}

const _: () = prove!(size_of::<CodeEntry>() == 8);
