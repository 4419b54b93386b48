//! A word of its fields: the formats of the CPU instructions.

ghost use Rattle.std.specs.Prelude.{◌<◌};
ghost use Rattle.brd_isa.specs.Fields.{RType, IType, JType, LongCodeType, ShortCodeType};

use crate::fields::{JumpIndex, LongCode, Register, ShiftAmount, ShortCode};
use crate::word::{REGIMM, SPECIAL, SPECIAL2};

/// A word under the opcode SPECIAL whose field sa is 0.
pub fn special(rs: Register, rt: Register, rd: Register, funct: u32) -> u32
    requires { funct < 64 }
    ensures { RType result 0x00 rs rt rd 0 funct }
{
    r_type(SPECIAL, rs, rt, rd, ShiftAmount::low(0), funct)
}

/// A word under the opcode SPECIAL whose field rs is 0.
pub fn shifted(rt: Register, rd: Register, sa: ShiftAmount, funct: u32) -> u32
    requires { funct < 64 }
    ensures { RType result 0x00 0 rt rd sa funct }
{
    r_type(SPECIAL, Register::low(0), rt, rd, sa, funct)
}

/// A word under the opcode SPECIAL2 whose field sa is 0.
pub fn special2(rs: Register, rt: Register, rd: Register, funct: u32) -> u32
    requires { funct < 64 }
    ensures { RType result 0x1c rs rt rd 0 funct }
{
    r_type(SPECIAL2, rs, rt, rd, ShiftAmount::low(0), funct)
}

/// A word under the opcode REGIMM, where the field rt is a code.
pub fn regimm(rs: Register, code: u32, low: u16) -> u32
    requires { code < 32 }
    ensures { IType result 0x01 rs code low }
{
    i_type(REGIMM, rs, code, low)
}

/// A word of the R-type format.
pub fn r_type(
    opcode: u32,
    rs: Register,
    rt: Register,
    rd: Register,
    sa: ShiftAmount,
    funct: u32,
) -> u32
    requires opcode_fits { opcode < 64 }
    requires funct_fits { funct < 64 }
    ensures { RType result opcode rs rt rd sa funct }
{
    (opcode << 26)
        + (u32::from(rs.number()) << 21)
        + (u32::from(rt.number()) << 16)
        + (u32::from(rd.number()) << 11)
        + (u32::from(sa.bits()) << 6)
        + funct
}

/// A word of the I-type format. The field rt is a register, a code or a hint.
pub fn i_type(opcode: u32, rs: Register, rt: u32, low: u16) -> u32
    requires opcode_fits { opcode < 64 }
    requires rt_fits { rt < 32 }
    ensures { IType result opcode rs rt low }
{
    (opcode << 26) + (u32::from(rs.number()) << 21) + (rt << 16) + u32::from(low)
}

/// A word of the I-type format with two registers.
pub fn two_registers(opcode: u32, rs: Register, rt: Register, low: u16) -> u32
    requires { opcode < 64 }
    ensures { IType result opcode rs rt low }
{
    i_type(opcode, rs, u32::from(rt.number()), low)
}

/// A word of the J-type format.
pub fn j_type(opcode: u32, index: JumpIndex) -> u32
    requires { opcode < 64 }
    ensures { JType result opcode index }
{
    (opcode << 26) + index.words()
}

/// A word with a code of 20 bits under the opcode SPECIAL.
pub fn long_code(code: LongCode, funct: u32) -> u32
    requires { funct < 64 }
    ensures { LongCodeType result 0x00 code funct }
{
    (code.code() << 6) + funct
}

/// A word with two registers and a code of 10 bits under the opcode SPECIAL.
pub fn short_code(rs: Register, rt: Register, code: ShortCode, funct: u32) -> u32
    requires { funct < 64 }
    ensures { ShortCodeType result 0x00 rs rt code funct }
{
    (u32::from(rs.number()) << 21)
        + (u32::from(rt.number()) << 16)
        + (u32::from(code.code()) << 6)
        + funct
}
