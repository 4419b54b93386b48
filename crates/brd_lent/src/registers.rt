//! The instructions that compute in registers, HI and LO, done in a context by an entry's registers.

ghost use Rattle.std.specs.Prelude.{◌≡◌, ◌%◌, ◌^◌, if◌then◌else◌};
ghost use Rattle.brd_exec.specs.State.{read, write_product, product_in, advanced, with_register};
ghost use Rattle.brd_exec.specs.Values.{
  shift_gives,
  shift_variable_gives,
  product_gives,
  accumulate_gives,
  count_gives,
};

use brd_entries::{Destination, Source};
use brd_exec::{
    Context, accumulate_value, count_value, product_value, shift_value, shift_variable_value,
};
use brd_isa::{AccumulateOp, CountOp, ProductOp, ShiftAmount, ShiftOp, ShiftVariableOp};

/// A register's word.
#[inline(always)]
pub fn word(context: &Context, source: Source) -> u32
    ensures { result ≡ read context.now source }
{
    context.word(source.number())
}

/// Goes on to the next instruction with this word in a register.
#[inline(always)]
pub fn set(context: &mut Context, rd: Destination, word: u32)
    ensures { context.new ≡ with_register context.old rd word }
{
    context.advance();
    context.put(rd.number(), word);
}

/// Goes on to the next instruction, with another register's word in a register where that is asked for.
#[inline(always)]
pub fn set_if(context: &mut Context, sets: bool, rd: Destination, rs: Source)
    ensures { context.new ≡
        with_register context.old rd (if sets then read context.old rs else read context.old rd) }
{
    let word = context.word(if sets { rs.number() } else { rd.number() });
    set(context, rd, word);
}

/// Does `op rd, rt, sa`.
#[inline(always)]
pub fn shift(context: &mut Context, op: ShiftOp, rd: Destination, rt: Source, sa: ShiftAmount)
    ensures { context.new ≡ with_register context.old rd (shift_gives op (read context.old rt) sa) }
{
    let word = shift_value(op, word(context, rt), sa);
    set(context, rd, word);
}

/// Does `op rd, rt, rs`.
#[inline(always)]
pub fn shift_variable(
    context: &mut Context,
    op: ShiftVariableOp,
    rd: Destination,
    rt: Source,
    rs: Source,
)
    ensures { context.new ≡
        with_register context.old rd (shift_variable_gives op (read context.old rt) (read context.old rs % 2 ^ 5)) }
{
    let amount = ShiftAmount::low(word(context, rs));
    let word = shift_variable_value(op, word(context, rt), amount);
    set(context, rd, word);
}

/// Does `op rd, rs`.
#[inline(always)]
pub fn count(context: &mut Context, op: CountOp, rd: Destination, rs: Source)
    ensures { context.new ≡ with_register context.old rd (count_gives op (read context.old rs)) }
{
    let word = count_value(op, word(context, rs));
    set(context, rd, word);
}

/// Does `op rs, rt`, to HI and LO.
#[inline(always)]
pub fn product(context: &mut Context, op: ProductOp, rs: Source, rt: Source)
    ensures { context.new ≡
        write_product (advanced context.old) (product_gives op (read context.old rs) (read context.old rt)) }
{
    let product = product_value(op, word(context, rs), word(context, rt));
    context.set_product(product);
}

/// Does `op rs, rt`, with what HI and LO are.
#[inline(always)]
pub fn accumulate(context: &mut Context, op: AccumulateOp, rs: Source, rt: Source)
    ensures { context.new ≡ write_product (advanced context.old)
        (accumulate_gives op (product_in context.old) (read context.old rs) (read context.old rt)) }
{
    let product = accumulate_value(op, context.product(), word(context, rs), word(context, rt));
    context.set_product(product);
}
