//! Words of 32 bits: what the instructions of MIPS32 compute with them.
//!
//! A word is a `u32`. Its signed reading subtracts 2^32 from values of 2^31 and above. In memory its bytes lie in one
//! of two orders.
#![tactic(auto)]

ghost use Rattle.std.specs.Prelude.{◌≡◌, ℤ, ◌*ℤ◌, int_div, int_rem};
ghost use Rattle.std.specs.Int.{w32, CanDivide};
ghost use Rattle.brd_word.specs.Words.{
  sign_extended8,
  sign_extended16,
  sum_overflows,
  difference_overflows,
  signed_product,
  unsigned_product,
  unsigned_quotient,
  signed_quotient,
};

mod order;

pub use order::{Order, bytes_of, half_bytes_of, half_of, word_of};

/// A byte's signed value as a word (MD00086, `sign_extend` of a loaded byte).
pub fn sign8(byte: u8) -> u32
    ensures { result ≡ sign_extended8 byte }
{
    i32::from(byte.cast_signed()).cast_unsigned()
}

/// A halfword's signed value as a word (MD00086, `sign_extend` of a 16-bit immediate).
pub fn sign16(half: u16) -> u32
    ensures { result ≡ sign_extended16 half }
{
    i32::from(half.cast_signed()).cast_unsigned()
}

/// Whether the sum of the signed readings isn't that of a word (MD00086, ADD).
pub fn add_overflows(a: u32, b: u32) -> bool
    ensures { result ≡ sum_overflows a b }
{
    a.cast_signed().checked_add(b.cast_signed()).is_none()
}

/// Whether the difference of the signed readings isn't that of a word (MD00086, SUB).
pub fn sub_overflows(a: u32, b: u32) -> bool
    ensures { result ≡ difference_overflows a b }
{
    a.cast_signed().checked_sub(b.cast_signed()).is_none()
}

/// The product of the signed readings, in 64 bits (MD00086, MULT).
pub fn mul_signed(a: u32, b: u32) -> u64
    ensures { result ≡ signed_product a b }
{
    product(a.cast_signed(), b.cast_signed()).cast_unsigned()
}

/// The product of two signed words.
fn product(a: i32, b: i32) -> i64
    ensures { result ≡ a *ℤ b }
{
    i64::from(a) * i64::from(b)
}

/// The product, in 64 bits (MD00086, MULTU).
pub fn mul_unsigned(a: u32, b: u32) -> u64
    ensures { result ≡ unsigned_product a b }
{
    u64::from(a) * u64::from(b)
}

/// What a division gives.
#[derive(Clone, Copy, PartialEq, Eq)]
pub struct Division {
    /// The quotient, rounded toward zero.
    pub quotient: u32,
    /// The remainder.
    pub remainder: u32,
}

/// Divides the signed readings (MD00086, DIV). Own choice: dividing by 0 gives all ones and the dividend; the least
/// number by -1 gives itself and 0.
pub fn div_signed(a: u32, b: u32) -> Division
    ensures { record { quotient = result.quotient; remainder = result.remainder } ≡ signed_quotient a b }
{
    if b == 0 {
        return Division {
            quotient: 0xffff_ffff,
            remainder: a,
        };
    }
    if a == 0x8000_0000 && b == 0xffff_ffff {
        return Division {
            quotient: 0x8000_0000,
            remainder: 0,
        };
    }
    let (quotient, remainder) = divided(a.cast_signed(), b.cast_signed());
    Division {
        quotient: quotient.cast_unsigned(),
        remainder: remainder.cast_unsigned(),
    }
}

/// The quotient, rounded toward zero, and the remainder of two signed words.
fn divided(a: i32, b: i32) -> (i32, i32)
    requires { CanDivide w32 a b }
    ensures quotient { result.0 ≡ int_div a b }
    ensures remainder { result.1 ≡ int_rem a b }
{
    (a / b, a % b)
}

/// Divides (MD00086, DIVU). Own choice: dividing by 0 gives all ones and the dividend.
pub fn div_unsigned(a: u32, b: u32) -> Division
    ensures { record { quotient = result.quotient; remainder = result.remainder } ≡ unsigned_quotient a b }
{
    if b == 0 {
        return Division {
            quotient: 0xffff_ffff,
            remainder: a,
        };
    }
    Division {
        quotient: a / b,
        remainder: a % b,
    }
}
