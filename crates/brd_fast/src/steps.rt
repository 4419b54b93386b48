//! Many steps of one processor.

ghost use Rattle.std.specs.Prelude.{◌≡◌, ◌≤◌, ◌*◌, length, All, Some, true};
ghost use Rattle.brd_mem.specs.Memory.{size_of};
ghost use Rattle.brd_exec.specs.Went.{went};
ghost use Rattle.brd_fast.specs.Known.{IsRight};
ghost use Rattle.brd_fast.specs.Place.{Leaves};
ghost use Rattle.brd_fast.specs.Steps.{MaySteps, machine_at};

use crate::entries::carry_out;
use crate::known::Known;
use crate::line::{StraightLine, index_of};
use crate::table::Table;
use brd_exec::Context;
use brd_link::Links;
use brd_mem::Ram;

/// Does steps of a processor's context, one after the other, as many as `count` at most, and answers how many it did.
/// It ends early at whatever is unusual: what has no entry (`CodeEntry::Slow`) or would raise an exception; a branch or
/// a jump in a delay slot, to a word for which the table has no place, or whose own slot lies past these words or past
/// the last of the steps. That is left to do, and nothing of it is done. With a table for RAM of another byte order it
/// does nothing.
pub fn go(
    table: &mut Table,
    cpu: u8,
    context: &mut Context,
    ram: &mut Ram,
    links: &mut Links,
    count: u32,
) -> u32
    requires { (1 ≤ cpu) × (cpu ≤ 8) }
    ensures few { result ≤ count }
    ensures steps { went cpu result (record { state = context.old; memory = ram.old; links = links.old })
        ≡ Some (record { state = context.new; memory = ram.new; links = links.new }) }
{
    let mut done = 0;
    'passes: for _ in 0..count {
        if table.order() != ram.order() {
            break;
        }
        done += known_steps(table.known(), cpu, context, ram, links, count - done);
        if done == count || !learns(table, context.pc(), ram) {
            break;
        }
    }
    done
}

/// Takes the word at an address up into the table, where it lies in RAM and the table has another at its place. Answers
/// whether it did.
#[inline(never)]
fn learns(table: &mut Table, address: u32, ram: &Ram) -> bool
    ensures { table.new.order ≡ table.old.order }
{
    let at = index_of(address);
    if at >= ram.size() / 4 {
        return false;
    }
    table.learns(at, ram.raw_at(4 * at))
}

/// Does steps, as `go` does, but ends also where the table doesn't have the next word.
#[inline(never)]
fn known_steps(
    known: &[Known],
    cpu: u8,
    context: &mut Context,
    ram: &mut Ram,
    links: &mut Links,
    count: u32,
) -> u32
    requires processor { (1 ≤ cpu) × (cpu ≤ 8) }
    requires right { All (IsRight ram.old.order) known.now }
    ensures few { result ≤ count }
    ensures steps { went cpu result (record { state = context.old; memory = ram.old; links = links.old })
        ≡ Some (record { state = context.new; memory = ram.new; links = links.new }) }
{
    let words = known.len().min(ram.size() / 4);
    let Some(mut line) = StraightLine::of(context, words, count) else {
        return 0;
    };
    'lines: for _ in 0..count {
        'steps: while line.is_on() {
            if !step(known, cpu, context, &mut line, ram, links) {
                break 'lines;
            }
        }
        if !line.goes_on(ram) {
            break;
        }
    }
    line.put(context);
    count - line.left()
}

/// Does a step by the entry of its word, where the table has it. Answers whether it did; else nothing has changed.
#[inline(always)]
fn step(
    known: &[Known],
    cpu: u8,
    context: &mut Context,
    line: &mut StraightLine,
    ram: &mut Ram,
    links: &mut Links,
) -> bool
    requires processor { (1 ≤ cpu) × (cpu ≤ 8) }
    requires right { All (IsRight ram.old.order) known.now }
    requires on { line.old.on ≡ true }
    requires size { 4 * line.old.words ≤ size_of ram.old }
    requires long { line.old.words ≤ length known.now }
    ensures step { MaySteps cpu (machine_at context.old ram.old links.old line.old) result
        (machine_at context.new ram.new links.new line.new) }
    ensures leaves { Leaves line.old result line.new }
    ensures alike { (size_of ram.new ≡ size_of ram.old) × (ram.new.order ≡ ram.old.order) }
{
    let at = line.at();
    let known = &known[at];
    if known.raw != ram.raw_at(4 * at) {
        return false;
    }
    carry_out(&known.entry, cpu, context, line, ram, links)
}
