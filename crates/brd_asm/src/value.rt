//! The values of expressions, and the tests of their ranges.

ghost use Rattle.std.specs.Prelude.{◌≡◌, ◌<◌, ◌≤◌, ◌^◌, ℤ, pos, ◌≤ℤ◌, IfOk, IfSome, Some};
ghost use Rattle.brd_source.specs.View as source;
ghost use Rattle.brd_asm.specs.Faults.{Gives};
ghost use Rattle.brd_asm.specs.Values.{IsSmall, value_of, modulo, high_half, low_half, signed_half, signed_value};
ghost use Rattle.brd_asm.specs.Values.{unsigned_value, known, within, up_to};

use crate::fault::AsmFault;
use crate::names::Names;
use brd_source::{Expression, Immediate};

/// The value of an expression, unless it uses a name without one.
#[tactic(auto, unfolding(crate::specs::Values::value_of))]
pub fn value_of(names: &Names, expression: Expression) -> Option<i128>
    ensures is { result ≡ value_of names.now (source.expression_value expression.entry) }
    ensures small { IfSome result IsSmall }
{
    match expression.name {
        None => Some(expression.number as i128),
        Some(name) => match names.value(name) {
            None => None,
            Some(value) => Some(value as i128 + expression.number as i128),
        },
    }
}

/// A value modulo n.
pub fn modulo(value: i128, n: u64) -> u64
    requires { 0 < n }
    ensures is { result ≡ modulo value n }
    ensures below { result < n }
{
    value.rem_euclid(n as i128) as u64
}

/// A value modulo 2^32.
pub fn word(value: i64) -> u32
    ensures { result ≡ modulo value (2 ^ 32) }
{
    modulo(value as i128, 0x1_0000_0000) as u32
}

/// The value of an immediate that is read as signed, unless it uses a name without one.
#[tactic(auto, unfolding(crate::specs::Values::signed_value, crate::specs::Values::unsigned_value))]
pub fn signed_value(names: &Names, immediate: Immediate) -> Option<i128>
    ensures { result ≡ signed_value names.now (source.immediate_value immediate.entry) }
{
    match immediate {
        Immediate::Low(e) => value_of(names, e).map(|v| signed_half(low_half(v))),
        Immediate::Whole(_) | Immediate::High(_) => unsigned_value(names, immediate),
    }
}

/// The value of an immediate that isn't read as signed, unless it uses a name without one.
#[tactic(auto, unfolding(crate::specs::Values::unsigned_value))]
pub fn unsigned_value(names: &Names, immediate: Immediate) -> Option<i128>
    ensures { result ≡ unsigned_value names.now (source.immediate_value immediate.entry) }
{
    match immediate {
        Immediate::Whole(e) => value_of(names, e),
        Immediate::High(e) => value_of(names, e).map(|v| high_half(v) as i128),
        Immediate::Low(e) => value_of(names, e).map(|v| low_half(v) as i128),
    }
}

/// The value of `%hi`.
fn high_half(value: i128) -> u16
    requires { IsSmall value }
    ensures { result ≡ high_half value }
{
    modulo((value + 0x8000).div_euclid(0x1_0000), 0x1_0000) as u16
}

/// The value of `%lo`.
fn low_half(value: i128) -> u16
    ensures { result ≡ low_half value }
{
    modulo(value, 0x1_0000) as u16
}

/// Sixteen bits, read as signed.
fn signed_half(half: u16) -> i128
    ensures { result ≡ signed_half half }
{
    if half >= 0x8000 {
        return half as i128 - 0x1_0000;
    }
    half as i128
}

/// A value, which on this line has to be known.
pub fn known(line: usize, value: Option<i128>) -> Result<i128, AsmFault>
    ensures is { Gives (λ v. v) result (known line value) }
    ensures found { IfOk result (λ v. value ≡ Some v) }
{
    match value {
        None => Err(AsmFault::UnknownName { line }),
        Some(v) => Ok(v),
    }
}

/// A value from low to high.
#[tactic(auto, unfolding(crate::specs::Values::within))]
pub fn within(line: usize, low: i64, high: i64, value: i128) -> Result<i64, AsmFault>
    ensures is { Gives (λ v. v) result (within line low high value) }
    ensures above { IfOk result (λ v. low ≤ℤ v) }
    ensures below { IfOk result (λ v. v ≤ℤ high) }
{
    if value < low as i128 || value > high as i128 {
        return Err(AsmFault::Range { line });
    }
    Ok(value as i64)
}

/// A value from 0 to high.
#[tactic(auto, unfolding(crate::specs::Values::up_to))]
pub fn up_to(line: usize, high: u32, value: i128) -> Result<u32, AsmFault>
    ensures is { Gives (λ v. v) result (up_to line high value) }
    ensures below { IfOk result (λ v. v ≤ high) }
{
    if value < 0 || value > high as i128 {
        return Err(AsmFault::Range { line });
    }
    Ok(value as u32)
}
