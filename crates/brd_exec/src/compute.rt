//! The instructions that compute in registers, HI and LO, and the traps.

ghost use Rattle.std.specs.Prelude.{◌≡◌, ◌%◌, ◌^◌};
ghost use Rattle.brd_exec.specs.State.{read, write_product, product_in, advanced, with_register};
ghost use Rattle.brd_exec.specs.Values.{
  shift_gives,
  shift_variable_gives,
  register_gives,
  immediate_gives,
  multiply_gives,
  product_gives,
  accumulate_gives,
  count_gives,
};
ghost use Rattle.brd_exec.specs.Action.{with_word, unless_trap, moved_from, moved_to};
ghost use Rattle.brd_exec.specs.Effects.{Leads, result_of};

use crate::context::Context;
use crate::outcome::{ExceptionCode, Stop};
use crate::value::{
    accumulate_value, count_value, immediate_value, multiply_value, product_value, register_value,
    shift_value, shift_variable_value,
};
use brd_isa::{
    AccumulateOp, CountOp, ImmediateOp, MoveFromOp, MoveToOp, ProductOp, Register, RegisterOp,
    ShiftAmount, ShiftOp, ShiftVariableOp,
};

/// Does `op rd, rt, sa`.
#[inline(always)]
pub fn shift(context: &mut Context, op: ShiftOp, rd: Register, rt: Register, sa: ShiftAmount)
    ensures { context.new ≡ with_register context.old rd (shift_gives op (read context.old rt) sa) }
{
    let word = shift_value(op, context.read(rt), sa);
    context.set(rd, word);
}

/// Does `op rd, rt, rs`.
#[inline(always)]
pub fn shift_variable(
    context: &mut Context,
    op: ShiftVariableOp,
    rd: Register,
    rt: Register,
    rs: Register,
)
    ensures { context.new ≡
        with_register context.old rd (shift_variable_gives op (read context.old rt) (read context.old rs % 2 ^ 5)) }
{
    let amount = ShiftAmount::low(context.read(rs));
    let word = shift_variable_value(op, context.read(rt), amount);
    context.set(rd, word);
}

/// Does `op rd, rs, rt`.
#[inline(always)]
pub fn three_registers(
    context: &mut Context,
    op: RegisterOp,
    rd: Register,
    rs: Register,
    rt: Register,
) -> Result<(), Stop>
    ensures { Leads (with_word context.old rd
        (result_of (register_gives op (read context.old rd) (read context.old rs) (read context.old rt))))
        context.old result context.new }
{
    let word = register_value(op, context, rd, rs, rt)?;
    context.set(rd, word);
    Ok(())
}

/// Does `op rt, rs, immediate`.
#[inline(always)]
pub fn with_immediate(
    context: &mut Context,
    op: ImmediateOp,
    rt: Register,
    rs: Register,
    immediate: u16,
) -> Result<(), Stop>
    ensures { Leads (with_word context.old rt (result_of (immediate_gives op (read context.old rs) immediate)))
        context.old result context.new }
{
    let word = immediate_value(op, context.read(rs), immediate)?;
    context.set(rt, word);
    Ok(())
}

/// Does `mul rd, rs, rt`.
#[inline(always)]
pub fn multiply(context: &mut Context, rd: Register, rs: Register, rt: Register)
    ensures { context.new ≡ with_register context.old rd (multiply_gives (read context.old rs) (read context.old rt)) }
{
    let word = multiply_value(context.read(rs), context.read(rt));
    context.set(rd, word);
}

/// Does `op rd`, from HI or LO.
#[inline(always)]
pub fn move_from(context: &mut Context, op: MoveFromOp, rd: Register)
    ensures { context.new ≡ with_register context.old rd (moved_from op context.old) }
{
    let word = match op {
        MoveFromOp::Mfhi => context.hi(),
        MoveFromOp::Mflo => context.lo(),
    };
    context.set(rd, word);
}

/// Does `op rs`, to HI or LO.
#[inline(always)]
pub fn move_to(context: &mut Context, op: MoveToOp, rs: Register)
    ensures { context.new ≡ moved_to op (advanced context.old) (read context.old rs) }
{
    let word = context.read(rs);
    match op {
        MoveToOp::Mthi => context.set_hi(word),
        MoveToOp::Mtlo => context.set_lo(word),
    }
}

/// Does `op rs, rt`, to HI and LO.
#[inline(always)]
pub fn product(context: &mut Context, op: ProductOp, rs: Register, rt: Register)
    ensures { context.new ≡
        write_product (advanced context.old) (product_gives op (read context.old rs) (read context.old rt)) }
{
    let product = product_value(op, context.read(rs), context.read(rt));
    context.set_product(product);
}

/// Does `op rs, rt`, with what HI and LO are.
#[inline(always)]
pub fn accumulate(context: &mut Context, op: AccumulateOp, rs: Register, rt: Register)
    ensures { context.new ≡ write_product (advanced context.old)
        (accumulate_gives op (product_in context.old) (read context.old rs) (read context.old rt)) }
{
    let product = accumulate_value(op, context.product(), context.read(rs), context.read(rt));
    context.set_product(product);
}

/// Does `op rd, rs`.
#[inline(always)]
pub fn count(context: &mut Context, op: CountOp, rd: Register, rs: Register)
    ensures { context.new ≡ with_register context.old rd (count_gives op (read context.old rs)) }
{
    let word = count_value(op, context.read(rs));
    context.set(rd, word);
}

/// Raises a trap, or goes on to the next instruction.
#[inline(always)]
pub fn trap_if(context: &mut Context, traps: bool) -> Result<(), Stop>
    ensures { Leads (unless_trap context.old traps) context.old result context.new }
{
    if traps {
        return Err(Stop::Raise(ExceptionCode::Tr));
    }
    context.advance();
    Ok(())
}
