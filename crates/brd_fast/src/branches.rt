//! Branches and jumps, done in a context whose place is kept apart. They are left undone in a delay slot (MD00086 says
//! of them UNPREDICTABLE; the step raises an exception), where their own slot isn't among the steps and the words that
//! may be executed here, and where they go far from these words.

ghost use Rattle.std.specs.Prelude.{◌≡◌, ◌+◌, ◌%◌, ◌^◌, true, false, ◌||◌, ◌==◌};
ghost use Rattle.brd_exec.specs.State.{State, read, write, jumped, jump_target, return_address_of};
ghost use Rattle.brd_exec.specs.Values.{is_negative};
ghost use Rattle.brd_fast.specs.Place.{state_of, reached, Leaves};
ghost use Rattle.brd_fast.specs.Plans.{branched_by, calling};
ghost use Rattle.brd_fast.specs.Moves.{Turns};

use crate::line::StraightLine;
use crate::registers::word;
use brd_entries::{Destination, Source};
use brd_exec::{Context, is_below_zero};
use brd_isa::JumpIndex;

/// How many words ahead of a branch the instruction after its delay slot lies.
const PAST_SLOT: u32 = 2;

/// Whether a word, read signed, is 0 or below.
#[inline(always)]
pub fn is_at_most_zero(word: u32) -> bool
    ensures { result ≡ (is_negative word || (word == 0)) }
{
    is_below_zero(word) || word == 0
}

/// Does a branch, which its delay slot follows whether it is taken or not (MD00086, "Branch Delay Slots").
#[inline(always)]
pub fn branch(line: &mut StraightLine, taken: bool, reach: u32) -> bool
    requires { line.old.on ≡ true }
    ensures is { (s : State) → Turns (branched_by (state_of s line.old) false taken (reached line.old.npc reach))
        (state_of s line.old) result (state_of s line.new) }
    ensures leaves { Leaves line.old result line.new }
{
    if !line.has_room() {
        return false;
    }
    if taken {
        let Some(target) = line.ahead(reach) else {
            return false;
        };
        line.turn(target);
        return true;
    }
    let Some(target) = line.ahead(PAST_SLOT) else {
        return false;
    };
    line.turn(target);
    true
}

/// Does a branch-likely, which goes on after its delay slot where it isn't taken (MD00086, BEQL).
#[inline(always)]
pub fn branch_likely(line: &mut StraightLine, taken: bool, reach: u32) -> bool
    requires { line.old.on ≡ true }
    ensures is { (s : State) → Turns (branched_by (state_of s line.old) true taken (reached line.old.npc reach))
        (state_of s line.old) result (state_of s line.new) }
    ensures leaves { Leaves line.old result line.new }
{
    if !line.has_room() {
        return false;
    }
    if taken {
        let Some(target) = line.ahead(reach) else {
            return false;
        };
        line.turn(target);
        return true;
    }
    let Some(next) = line.ahead(PAST_SLOT) else {
        return false;
    };
    line.skip(next);
    true
}

/// Writes the return address to register 31: that of the instruction after the delay slot.
#[inline(always)]
fn put_return_address(context: &mut Context, line: &StraightLine)
    requires { line.now.on ≡ true }
    ensures { context.new ≡ write context.old 31 ((line.now.pc + 8) % 2 ^ 32) }
{
    context.put(31, line.pc().wrapping_add(8));
}

/// Does a branch that writes the return address, taken or not.
#[inline(always)]
pub fn call(context: &mut Context, line: &mut StraightLine, taken: bool, reach: u32) -> bool
    requires { line.old.on ≡ true }
    ensures is { Turns (branched_by (calling (state_of context.old line.old)) false taken (reached line.old.npc reach))
        (state_of context.old line.old) result (state_of context.new line.new) }
    ensures leaves { Leaves line.old result line.new }
{
    if !line.has_room() {
        return false;
    }
    let Some(target) = line.ahead(if taken { reach } else { PAST_SLOT }) else {
        return false;
    };
    put_return_address(context, line);
    line.turn(target);
    true
}

/// Does a branch-likely that writes the return address, taken or not.
#[inline(always)]
pub fn call_likely(context: &mut Context, line: &mut StraightLine, taken: bool, reach: u32) -> bool
    requires { line.old.on ≡ true }
    ensures is { Turns (branched_by (calling (state_of context.old line.old)) true taken (reached line.old.npc reach))
        (state_of context.old line.old) result (state_of context.new line.new) }
    ensures leaves { Leaves line.old result line.new }
{
    if !line.has_room() {
        return false;
    }
    let Some(target) = line.ahead(if taken { reach } else { PAST_SLOT }) else {
        return false;
    };
    put_return_address(context, line);
    if taken {
        line.turn(target);
        return true;
    }
    line.skip(target);
    true
}

/// Does `j target`.
#[inline(always)]
pub fn jump(line: &mut StraightLine, index: JumpIndex) -> bool
    requires { line.old.on ≡ true }
    ensures is { (s : State) → Turns (jumped (state_of s line.old) (jump_target (state_of s line.old) index))
        (state_of s line.old) result (state_of s line.new) }
    ensures leaves { Leaves line.old result line.new }
{
    if !line.has_room() {
        return false;
    }
    let Some(target) = line.indexed(index) else {
        return false;
    };
    line.turn(target);
    true
}

/// Does `jal target`.
#[inline(always)]
pub fn jump_and_link(context: &mut Context, line: &mut StraightLine, index: JumpIndex) -> bool
    requires { line.old.on ≡ true }
    ensures is { Turns
        (jumped (calling (state_of context.old line.old)) (jump_target (state_of context.old line.old) index))
        (state_of context.old line.old) result (state_of context.new line.new) }
    ensures leaves { Leaves line.old result line.new }
{
    if !line.has_room() {
        return false;
    }
    let Some(target) = line.indexed(index) else {
        return false;
    };
    put_return_address(context, line);
    line.turn(target);
    true
}

/// Does `jr rs`.
#[inline(always)]
pub fn jump_register(context: &Context, line: &mut StraightLine, rs: Source) -> bool
    requires { line.old.on ≡ true }
    ensures is { Turns (jumped (state_of context.now line.old) (read context.now rs))
        (state_of context.now line.old) result (state_of context.now line.new) }
    ensures leaves { Leaves line.old result line.new }
{
    if !line.has_room() {
        return false;
    }
    let Some(target) = line.addressed(word(context, rs)) else {
        return false;
    };
    line.turn(target);
    true
}

/// Does `jalr rd, rs`. The target is what the register was before the return address was written.
#[inline(always)]
pub fn call_register(
    context: &mut Context,
    line: &mut StraightLine,
    rd: Destination,
    rs: Source,
) -> bool
    requires { line.old.on ≡ true }
    ensures is { Turns
        (jumped (write (state_of context.old line.old) rd (return_address_of (state_of context.old line.old)))
        (read context.old rs)) (state_of context.old line.old) result (state_of context.new line.new) }
    ensures leaves { Leaves line.old result line.new }
{
    if !line.has_room() {
        return false;
    }
    let Some(target) = line.addressed(word(context, rs)) else {
        return false;
    };
    context.put(rd.number(), line.pc().wrapping_add(8));
    line.turn(target);
    true
}
