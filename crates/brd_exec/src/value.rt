//! What the instructions compute.

ghost use Rattle.std.specs.Prelude.{◌≡◌};
ghost use Rattle.brd_word.specs.Words.{sum_overflows, difference_overflows};
ghost use Rattle.brd_exec.specs.State.{read};
ghost use Rattle.brd_exec.specs.Values.{
  is_negative,
  is_below,
  shifted_with_sign,
  sum_of,
  difference_of,
  unless_overflow,
  in_hi_lo,
  shift_gives,
  shift_variable_gives,
  register_gives,
  immediate_gives,
  multiply_gives,
  product_gives,
  accumulate_gives,
  count_gives,
  trap_of,
  traps,
  traps_immediate,
  is_taken,
  is_likely,
  is_zero_branch_taken,
  is_zero_branch_likely,
  is_regimm_branch_taken,
  is_regimm_branch_likely,
};
ghost use Rattle.brd_exec.specs.Effects.{result_of};

use crate::context::Context;
use crate::outcome::ExceptionCode;
use brd_isa::{
    AccumulateOp, BranchOp, BranchRegimmOp, BranchZeroOp, CountOp, ImmediateOp, ProductOp,
    Register, RegisterOp, ShiftAmount, ShiftOp, ShiftVariableOp, TrapImmediateOp, TrapOp,
};
use brd_word::{
    Division, add_overflows, div_signed, div_unsigned, mul_signed, mul_unsigned, sign16,
    sub_overflows,
};

/// rd of `op rd, rt, sa`.
#[inline(always)]
pub fn shift_value(op: ShiftOp, word: u32, amount: ShiftAmount) -> u32
    ensures { result ≡ shift_gives op word amount }
{
    match op {
        ShiftOp::Sll => word << amount.bits(),
        ShiftOp::Srl => word >> amount.bits(),
        ShiftOp::Sra => shift_with_sign(word, amount),
    }
}

/// rd of `op rd, rt, rs`; the amount is the low five bits of rs.
#[inline(always)]
pub fn shift_variable_value(op: ShiftVariableOp, word: u32, amount: ShiftAmount) -> u32
    ensures { result ≡ shift_variable_gives op word amount }
{
    match op {
        ShiftVariableOp::Sllv => word << amount.bits(),
        ShiftVariableOp::Srlv => word >> amount.bits(),
        ShiftVariableOp::Srav => shift_with_sign(word, amount),
    }
}

/// A word shifted right, the sign comes in.
#[inline(always)]
fn shift_with_sign(word: u32, amount: ShiftAmount) -> u32
    ensures { result ≡ shifted_with_sign word amount }
{
    if is_below_zero(word) {
        !(!word >> amount.bits())
    } else {
        word >> amount.bits()
    }
}

/// Whether the sign bit is set.
#[inline(always)]
pub fn is_below_zero(word: u32) -> bool
    ensures { result ≡ is_negative word }
{
    word >= 0x8000_0000
}

/// Whether one word is below another, read signed.
#[inline(always)]
pub fn is_signed_below(a: u32, b: u32) -> bool
    ensures { result ≡ is_below a b }
{
    a.cast_signed() < b.cast_signed()
}

/// rd of `op rd, rs, rt`. The registers are read in each arm, so that the compiler can lead an arm of the decoder
/// straight to its own.
#[inline(always)]
pub fn register_value(
    op: RegisterOp,
    context: &Context,
    rd: Register,
    rs: Register,
    rt: Register,
) -> Result<u32, ExceptionCode>
    ensures { result ≡ result_of (register_gives op (read context.now rd) (read context.now rs) (read context.now rt)) }
{
    match op {
        RegisterOp::Movz => Ok(context.read(if context.read(rt) == 0 { rs } else { rd })),
        RegisterOp::Movn => Ok(context.read(if context.read(rt) == 0 { rd } else { rs })),
        RegisterOp::Add => sum(context.read(rs), context.read(rt)),
        RegisterOp::Addu => Ok(context.read(rs).wrapping_add(context.read(rt))),
        RegisterOp::Sub => difference(context.read(rs), context.read(rt)),
        RegisterOp::Subu => Ok(context.read(rs).wrapping_sub(context.read(rt))),
        RegisterOp::And => Ok(context.read(rs) & context.read(rt)),
        RegisterOp::Or => Ok(context.read(rs) | context.read(rt)),
        RegisterOp::Xor => Ok(context.read(rs) ^ context.read(rt)),
        RegisterOp::Nor => Ok(!(context.read(rs) | context.read(rt))),
        RegisterOp::Slt => Ok(u32::from(is_signed_below(context.read(rs), context.read(rt)))),
        RegisterOp::Sltu => Ok(u32::from(context.read(rs) < context.read(rt))),
    }
}

/// The sum, unless it overflows.
#[inline(always)]
fn sum(a: u32, b: u32) -> Result<u32, ExceptionCode>
    ensures { result ≡ unless_overflow (sum_overflows a b) (sum_of a b) }
{
    if add_overflows(a, b) {
        return Err(ExceptionCode::Ov);
    }
    Ok(a.wrapping_add(b))
}

/// The difference, unless it overflows.
#[inline(always)]
fn difference(a: u32, b: u32) -> Result<u32, ExceptionCode>
    ensures { result ≡ unless_overflow (difference_overflows a b) (difference_of a b) }
{
    if sub_overflows(a, b) {
        return Err(ExceptionCode::Ov);
    }
    Ok(a.wrapping_sub(b))
}

/// rt of `op rt, rs, immediate`.
#[inline(always)]
pub fn immediate_value(op: ImmediateOp, a: u32, immediate: u16) -> Result<u32, ExceptionCode>
    ensures { result ≡ result_of (immediate_gives op a immediate) }
{
    match op {
        ImmediateOp::Addi => sum(a, sign16(immediate)),
        ImmediateOp::Addiu => Ok(a.wrapping_add(sign16(immediate))),
        ImmediateOp::Slti => Ok(u32::from(is_signed_below(a, sign16(immediate)))),
        ImmediateOp::Sltiu => Ok(u32::from(a < sign16(immediate))),
        ImmediateOp::Andi => Ok(a & u32::from(immediate)),
        ImmediateOp::Ori => Ok(a | u32::from(immediate)),
        ImmediateOp::Xori => Ok(a ^ u32::from(immediate)),
    }
}

/// rd of `mul rd, rs, rt`.
#[inline(always)]
pub fn multiply_value(a: u32, b: u32) -> u32
    ensures { result ≡ multiply_gives a b }
{
    (mul_signed(a, b) % 0x1_0000_0000) as u32
}

/// HI and LO after `op rs, rt`.
#[inline(always)]
pub fn product_value(op: ProductOp, a: u32, b: u32) -> u64
    ensures { result ≡ product_gives op a b }
{
    match op {
        ProductOp::Mult => mul_signed(a, b),
        ProductOp::Multu => mul_unsigned(a, b),
        ProductOp::Div => in_halves(div_signed(a, b)),
        ProductOp::Divu => in_halves(div_unsigned(a, b)),
    }
}

/// The remainder in the high half, the quotient in the low one.
#[inline(always)]
fn in_halves(division: Division) -> u64
    ensures { result ≡ in_hi_lo (record { quotient = division.quotient; remainder = division.remainder }) }
{
    (u64::from(division.remainder) << 32) + u64::from(division.quotient)
}

/// HI and LO after `op rs, rt`, which were `old`.
#[inline(always)]
pub fn accumulate_value(op: AccumulateOp, old: u64, a: u32, b: u32) -> u64
    ensures { result ≡ accumulate_gives op old a b }
{
    match op {
        AccumulateOp::Madd => old.wrapping_add(mul_signed(a, b)),
        AccumulateOp::Maddu => old.wrapping_add(mul_unsigned(a, b)),
        AccumulateOp::Msub => old.wrapping_sub(mul_signed(a, b)),
        AccumulateOp::Msubu => old.wrapping_sub(mul_unsigned(a, b)),
    }
}

/// rd of `op rd, rs`.
#[inline(always)]
pub fn count_value(op: CountOp, word: u32) -> u32
    ensures { result ≡ count_gives op word }
{
    match op {
        CountOp::Clz => word.leading_zeros(),
        CountOp::Clo => word.leading_ones(),
    }
}

/// Whether `op rs, rt` traps.
#[inline(always)]
pub fn is_trap(op: TrapOp, a: u32, b: u32) -> bool
    ensures { result ≡ traps op a b }
{
    match op {
        TrapOp::Tge => !is_signed_below(a, b),
        TrapOp::Tgeu => a >= b,
        TrapOp::Tlt => is_signed_below(a, b),
        TrapOp::Tltu => a < b,
        TrapOp::Teq => a == b,
        TrapOp::Tne => a != b,
    }
}

/// Whether `op rs, immediate` traps.
#[inline(always)]
pub fn is_immediate_trap(op: TrapImmediateOp, a: u32, immediate: u16) -> bool
    ensures { result ≡ traps_immediate op a immediate }
{
    is_trap(register_trap(op), a, sign16(immediate))
}

/// The same comparison on registers.
#[inline(always)]
fn register_trap(op: TrapImmediateOp) -> TrapOp
    ensures { result ≡ trap_of op }
{
    match op {
        TrapImmediateOp::Tgei => TrapOp::Tge,
        TrapImmediateOp::Tgeiu => TrapOp::Tgeu,
        TrapImmediateOp::Tlti => TrapOp::Tlt,
        TrapImmediateOp::Tltiu => TrapOp::Tltu,
        TrapImmediateOp::Teqi => TrapOp::Teq,
        TrapImmediateOp::Tnei => TrapOp::Tne,
    }
}

/// Whether `op rs, rt, target` is taken.
#[inline(always)]
pub fn is_branch_taken(op: BranchOp, context: &Context, rs: Register, rt: Register) -> bool
    ensures { result ≡ is_taken op (read context.now rs) (read context.now rt) }
{
    match op {
        BranchOp::Beq | BranchOp::Beql => context.read(rs) == context.read(rt),
        BranchOp::Bne | BranchOp::Bnel => context.read(rs) != context.read(rt),
    }
}

/// Whether `op rs, rt, target` is likely.
#[inline(always)]
pub fn is_branch_likely(op: BranchOp) -> bool
    ensures { result ≡ is_likely op }
{
    matches!(op, BranchOp::Beql | BranchOp::Bnel)
}

/// Whether `op rs, target` is taken.
#[inline(always)]
pub fn is_zero_branch_taken(op: BranchZeroOp, a: u32) -> bool
    ensures { result ≡ is_zero_branch_taken op a }
{
    match op {
        BranchZeroOp::Blez | BranchZeroOp::Blezl => is_below_zero(a) || a == 0,
        BranchZeroOp::Bgtz | BranchZeroOp::Bgtzl => !is_below_zero(a) && a != 0,
    }
}

/// Whether `op rs, target` is likely.
#[inline(always)]
pub fn is_zero_branch_likely(op: BranchZeroOp) -> bool
    ensures { result ≡ is_zero_branch_likely op }
{
    matches!(op, BranchZeroOp::Blezl | BranchZeroOp::Bgtzl)
}

/// Whether `op rs, target` under REGIMM is taken.
#[inline(always)]
pub fn is_regimm_branch_taken(op: BranchRegimmOp, a: u32) -> bool
    ensures { result ≡ is_regimm_branch_taken op a }
{
    match op {
        BranchRegimmOp::Bltz
        | BranchRegimmOp::Bltzl
        | BranchRegimmOp::Bltzal
        | BranchRegimmOp::Bltzall => { is_below_zero(a) }
        BranchRegimmOp::Bgez
        | BranchRegimmOp::Bgezl
        | BranchRegimmOp::Bgezal
        | BranchRegimmOp::Bgezall => { !is_below_zero(a) }
    }
}

/// Whether `op rs, target` under REGIMM is likely.
#[inline(always)]
pub fn is_regimm_branch_likely(op: BranchRegimmOp) -> bool
    ensures { result ≡ is_regimm_branch_likely op }
{
    matches!(
        op,
        BranchRegimmOp::Bltzl
            | BranchRegimmOp::Bgezl
            | BranchRegimmOp::Bltzall
            | BranchRegimmOp::Bgezall
    )
}
