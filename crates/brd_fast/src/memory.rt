//! Loads and stores, done in a context whose place is kept apart.

ghost use Rattle.std.specs.Prelude.{◌≡◌, ◌≤◌, true};
ghost use Rattle.brd_exec.specs.State.{read};
ghost use Rattle.brd_exec.specs.Values.{sum_of};
ghost use Rattle.brd_exec.specs.Action.{with_word};
ghost use Rattle.brd_exec.specs.Step.{load_gives, store_gives, stores, with_code};
ghost use Rattle.brd_exec.specs.Went.{went_by};
ghost use Rattle.brd_fast.specs.Place.{state_of, Leaves};
ghost use Rattle.brd_fast.specs.Moves.{Leads, Acts};

use crate::line::StraightLine;
use crate::registers::{set, word};
use brd_entries::{Destination, Source};
use brd_exec::Context;
use brd_isa::{LoadOp, StoreOp};
use brd_link::Links;
use brd_mem::Ram;

/// Does `op rt, offset(base)`, a load.
#[inline(always)]
pub fn load(
    context: &mut Context,
    line: &mut StraightLine,
    ram: &Ram,
    op: LoadOp,
    rt: Destination,
    base: Source,
    offset: u32,
) -> bool
    requires { line.old.on ≡ true }
    ensures is { Leads (with_word (state_of context.old line.old) rt
        (with_code (load_gives op ram.now (sum_of (read context.old base) offset) (read context.old rt))))
        (state_of context.old line.old) result (state_of context.new line.new) }
    ensures leaves { Leaves line.old result line.new }
{
    let address = word(context, base).wrapping_add(offset);
    match brd_exec::load(op, ram, address, context.word(rt.number())) {
        Ok(word) => set(context, line, rt, word),
        Err(_) => false,
    }
}

/// Does `op rt, offset(base)`, a store. It ends the links of other processors to words of the stored block (MD00086,
/// SC).
#[inline(always)]
pub fn store(
    context: &Context,
    line: &mut StraightLine,
    cpu: u8,
    ram: &mut Ram,
    links: &mut Links,
    op: StoreOp,
    rt: Source,
    base: Source,
    offset: u32,
) -> bool
    requires processor { (1 ≤ cpu) × (cpu ≤ 8) }
    requires on { line.old.on ≡ true }
    ensures is { Acts (went_by
        (stores cpu (state_of context.now line.old) links.old (sum_of (read context.now base) offset)
        (store_gives op ram.old (sum_of (read context.now base) offset) (read context.now rt))))
        (state_of context.now line.old) ram.old links.old result (state_of context.now line.new) ram.new links.new }
    ensures leaves { Leaves line.old result line.new }
{
    let address = word(context, base).wrapping_add(offset);
    match brd_exec::store(op, ram, address, word(context, rt)) {
        Ok(()) => {
            links.stored(cpu, address);
            line.advance();
            true
        }
        Err(_) => false,
    }
}
