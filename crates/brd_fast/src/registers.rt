//! The instructions that compute in registers, HI and LO, done in a context whose place is kept apart.

ghost use Rattle.std.specs.Prelude.{◌≡◌, ◌+◌, ◌%◌, ◌^◌, true, false, if◌then◌else◌};
ghost use Rattle.brd_word.specs.Words.{sum_overflows, difference_overflows};
ghost use Rattle.brd_exec.specs.State.{read, write_product, product_in, advanced, with_register};
ghost use Rattle.brd_exec.specs.Values.{
  shift_gives,
  shift_variable_gives,
  product_gives,
  accumulate_gives,
  count_gives,
  sum_of,
  difference_of,
  unless_overflow,
};
ghost use Rattle.brd_exec.specs.Action.{with_word};
ghost use Rattle.brd_fast.specs.Place.{state_of, IsAt, Leaves};
ghost use Rattle.brd_fast.specs.Moves.{Moves, Leads};

use crate::line::StraightLine;
use brd_entries::{Destination, Source};
use brd_exec::{
    Context, accumulate_value, count_value, product_value, shift_value, shift_variable_value,
};
use brd_isa::{AccumulateOp, CountOp, ProductOp, ShiftAmount, ShiftOp, ShiftVariableOp};
use brd_word::{add_overflows, sub_overflows};

/// A register's word.
#[inline(always)]
pub fn word(context: &Context, source: Source) -> u32
    ensures { result ≡ read context.now source }
{
    context.word(source.number())
}

/// Goes on to the next instruction.
#[inline(always)]
pub fn pass(line: &mut StraightLine) -> bool
    requires { line.old.on ≡ true }
    ensures done { result ≡ true }
    ensures is { IsAt line.new line.old.npc ((line.old.npc + 4) % 2 ^ 32) false }
    ensures leaves { Leaves line.old result line.new }
{
    line.advance();
    true
}

/// Goes on to the next instruction with this word in a register.
#[inline(always)]
pub fn set(context: &mut Context, line: &mut StraightLine, rd: Destination, word: u32) -> bool
    requires { line.old.on ≡ true }
    ensures is { Moves (with_register (state_of context.old line.old) rd word) result (state_of context.new line.new) }
    ensures leaves { Leaves line.old result line.new }
{
    context.put(rd.number(), word);
    line.advance();
    true
}

/// Goes on to the next instruction, with another register's word in a register where that is asked for.
#[inline(always)]
pub fn set_if(
    context: &mut Context,
    line: &mut StraightLine,
    sets: bool,
    rd: Destination,
    rs: Source,
) -> bool
    requires { line.old.on ≡ true }
    ensures is { Moves
        (with_register (state_of context.old line.old) rd (if sets then read context.old rs else read context.old rd))
        result (state_of context.new line.new) }
    ensures leaves { Leaves line.old result line.new }
{
    let word = context.word(if sets { rs.number() } else { rd.number() });
    set(context, line, rd, word)
}

/// Does `op rd, rt, sa`.
#[inline(always)]
pub fn shift(
    context: &mut Context,
    line: &mut StraightLine,
    op: ShiftOp,
    rd: Destination,
    rt: Source,
    sa: ShiftAmount,
) -> bool
    requires { line.old.on ≡ true }
    ensures is { Moves (with_register (state_of context.old line.old) rd (shift_gives op (read context.old rt) sa))
        result (state_of context.new line.new) }
    ensures leaves { Leaves line.old result line.new }
{
    let word = shift_value(op, word(context, rt), sa);
    set(context, line, rd, word)
}

/// Does `op rd, rt, rs`.
#[inline(always)]
pub fn shift_variable(
    context: &mut Context,
    line: &mut StraightLine,
    op: ShiftVariableOp,
    rd: Destination,
    rt: Source,
    rs: Source,
) -> bool
    requires { line.old.on ≡ true }
    ensures is { Moves (with_register (state_of context.old line.old) rd
        (shift_variable_gives op (read context.old rt) (read context.old rs % 2 ^ 5)))
        result (state_of context.new line.new) }
    ensures leaves { Leaves line.old result line.new }
{
    let amount = ShiftAmount::low(word(context, rs));
    let word = shift_variable_value(op, word(context, rt), amount);
    set(context, line, rd, word)
}

/// Does `op rd, rs`.
#[inline(always)]
pub fn count(
    context: &mut Context,
    line: &mut StraightLine,
    op: CountOp,
    rd: Destination,
    rs: Source,
) -> bool
    requires { line.old.on ≡ true }
    ensures is { Moves (with_register (state_of context.old line.old) rd (count_gives op (read context.old rs)))
        result (state_of context.new line.new) }
    ensures leaves { Leaves line.old result line.new }
{
    let word = count_value(op, word(context, rs));
    set(context, line, rd, word)
}

/// Adds a word to a register's, unless the sum overflows.
#[inline(always)]
pub fn add(
    context: &mut Context,
    line: &mut StraightLine,
    rd: Destination,
    rs: Source,
    b: u32,
) -> bool
    requires { line.old.on ≡ true }
    ensures is { Leads (with_word (state_of context.old line.old) rd
        (unless_overflow (sum_overflows (read context.old rs) b) (sum_of (read context.old rs) b)))
        (state_of context.old line.old) result (state_of context.new line.new) }
    ensures leaves { Leaves line.old result line.new }
{
    let a = word(context, rs);
    if add_overflows(a, b) {
        return false;
    }
    set(context, line, rd, a.wrapping_add(b))
}

/// Subtracts a register's word from another's, unless the difference overflows.
#[inline(always)]
pub fn subtract(
    context: &mut Context,
    line: &mut StraightLine,
    rd: Destination,
    rs: Source,
    rt: Source,
) -> bool
    requires { line.old.on ≡ true }
    ensures is { Leads (with_word (state_of context.old line.old) rd
        (unless_overflow (difference_overflows (read context.old rs) (read context.old rt))
        (difference_of (read context.old rs) (read context.old rt))))
        (state_of context.old line.old) result (state_of context.new line.new) }
    ensures leaves { Leaves line.old result line.new }
{
    let a = word(context, rs);
    let b = word(context, rt);
    if sub_overflows(a, b) {
        return false;
    }
    set(context, line, rd, a.wrapping_sub(b))
}

/// Does `op rs, rt`, to HI and LO.
#[inline(always)]
pub fn product(
    context: &mut Context,
    line: &mut StraightLine,
    op: ProductOp,
    rs: Source,
    rt: Source,
) -> bool
    requires { line.old.on ≡ true }
    ensures is { Moves (write_product (advanced (state_of context.old line.old))
        (product_gives op (read context.old rs) (read context.old rt)))
        result (state_of context.new line.new) }
    ensures leaves { Leaves line.old result line.new }
{
    let product = product_value(op, word(context, rs), word(context, rt));
    context.set_product(product);
    line.advance();
    true
}

/// Does `op rs, rt`, with what HI and LO are.
#[inline(always)]
pub fn accumulate(
    context: &mut Context,
    line: &mut StraightLine,
    op: AccumulateOp,
    rs: Source,
    rt: Source,
) -> bool
    requires { line.old.on ≡ true }
    ensures is { Moves (write_product (advanced (state_of context.old line.old))
        (accumulate_gives op (product_in context.old) (read context.old rs) (read context.old rt)))
        result (state_of context.new line.new) }
    ensures leaves { Leaves line.old result line.new }
{
    let product = accumulate_value(op, context.product(), word(context, rs), word(context, rt));
    context.set_product(product);
    line.advance();
    true
}
