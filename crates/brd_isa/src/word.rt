//! The fields of a word.

ghost use Rattle.std.specs.Prelude.{◌≡◌, ◌==◌};
ghost use Rattle.brd_isa.specs.Decoding as decoding;

use crate::fields::{Register, ShiftAmount};

/// The opcode under which the function field names the instruction.
pub const SPECIAL: u32 = 0x00;

/// The opcode under which the field rt names the instruction.
pub const REGIMM: u32 = 0x01;

/// The second opcode under which the function field names the instruction.
pub const SPECIAL2: u32 = 0x1c;

/// The field rs.
pub fn rs(word: u32) -> Register
    ensures { result ≡ decoding.rs_of word }
{
    Register::low(word >> 21)
}

/// The field rt.
pub fn rt(word: u32) -> Register
    ensures { result ≡ decoding.rt_of word }
{
    Register::low(word >> 16)
}

/// The field rd.
pub fn rd(word: u32) -> Register
    ensures { result ≡ decoding.rd_of word }
{
    Register::low(word >> 11)
}

/// The field sa.
pub fn sa(word: u32) -> ShiftAmount
    ensures { result ≡ decoding.sa_of word }
{
    ShiftAmount::low(word >> 6)
}

/// The low half.
pub fn low(word: u32) -> u16
    ensures { result ≡ decoding.low_of word }
{
    (word % 0x1_0000) as u16
}

/// Whether the field rs is 0.
pub fn no_rs(word: u32) -> bool
    ensures { result ≡ (decoding.rs_of word == 0) }
{
    (word >> 21) % 32 == 0
}

/// Whether the field rt is 0.
pub fn no_rt(word: u32) -> bool
    ensures { result ≡ (decoding.rt_of word == 0) }
{
    (word >> 16) % 32 == 0
}

/// Whether the field rd is 0.
pub fn no_rd(word: u32) -> bool
    ensures { result ≡ (decoding.rd_of word == 0) }
{
    (word >> 11) % 32 == 0
}

/// Whether the field sa is 0.
pub fn no_sa(word: u32) -> bool
    ensures { result ≡ (decoding.sa_of word == 0) }
{
    (word >> 6) % 32 == 0
}

/// Whether the fields rt and rd are the same.
pub fn rt_is_rd(word: u32) -> bool
    ensures { result ≡ (decoding.rt_of word == decoding.rd_of word) }
{
    (word >> 16) % 32 == (word >> 11) % 32
}
