//! The point of an event.

ghost use Rattle.std.specs.Prelude.{◌≡◌};
ghost use Rattle.brd_stacks.specs.Points.{
  after_by,
  is_by_pointer,
  is_from_itself,
  moves,
  point_by,
  point_of,
  rests,
  store_by,
  strand_of,
};

use crate::stack::{Point, Store};
use brd_board::Standing;
use brd_happening::{Access, Before, Found, Happening, Instruction, What, Written};
use brd_isa::{Insn, Register, shape_of};

/// The number of $sp.
const POINTER: u8 = 29;

/// The point of an event at a position, by what was read before it and what happened in it: none where nobody executed.
pub fn point_of(position: u64, before: &Before, told: &Happening) -> Option<Point>
    ensures { result ≡ point_of position before.now told.now }
{
    let Some(found) = &before.found else {
        return None;
    };
    match strand_of(found.who) {
        Some(strand) => point_by(position, strand, found, &told.what),
        None => None,
    }
}

/// The strand of who executes: a task's is its ID, a handler's 256 and its line.
fn strand_of(who: Standing) -> Option<u16>
    ensures { result ≡ strand_of who }
{
    match who {
        Standing::Task(id) => Some(id),
        Standing::Handler(line) => Some(256 + u16::from(line)),
        Standing::Idle | Standing::Stopped => None,
    }
}

/// The point of who executes.
fn point_by(position: u64, strand: u16, found: &Found, what: &What) -> Option<Point>
    ensures { result ≡ point_by position strand found.now what.now }
{
    match what {
        What::Instruction(instruction) => Some(moves(position, strand, found, instruction)),
        What::Call(_) | What::Exception(_) => Some(rests(position, strand, found)),
        _ => None,
    }
}

/// $sp stays, and nothing is stored.
fn rests(position: u64, strand: u16, found: &Found) -> Point
    ensures { result ≡ rests position strand found.now }
{
    let pointer = found.context.read(Register::low(29));
    Point {
        strand,
        event: position,
        place: found.context.pc(),
        before: pointer,
        after: pointer,
        kept: true,
        store: None,
    }
}

/// An instruction was done.
fn moves(position: u64, strand: u16, found: &Found, instruction: &Instruction) -> Point
    ensures { result ≡ moves position strand found.now instruction.now }
{
    let before = found.context.read(Register::low(29));
    let after = after_by(before, instruction.register);
    Point {
        strand,
        event: position,
        place: found.context.pc(),
        before,
        after,
        kept: after == before || is_from_itself(&instruction.insn),
        store: store_by(&instruction.insn, instruction.access),
    }
}

/// $sp after an instruction that wrote a register.
fn after_by(before: u32, register: Option<Written>) -> u32
    ensures { result ≡ after_by before register }
{
    match register {
        Some(written) if written.register.number() == POINTER => written.word.new,
        _ => before,
    }
}

/// Whether an instruction computes a register from $sp.
fn is_from_itself(insn: &Insn) -> bool
    ensures { result ≡ is_from_itself insn.now }
{
    match *insn {
        Insn::WithImmediate(_, _, rs, _) => rs.number() == POINTER,
        Insn::ThreeRegisters(_, _, rs, rt) => rs.number() == POINTER || rt.number() == POINTER,
        _ => false,
    }
}

/// What an instruction stored, if it did.
fn store_by(insn: &Insn, access: Option<Access>) -> Option<Store>
    ensures { result ≡ store_by insn.now access }
{
    match access {
        Some(access) if access.kind.has_stored() => Some(Store {
            address: access.address,
            by_pointer: is_by_pointer(insn),
        }),
        _ => None,
    }
}

/// Whether an instruction names an address by $sp.
fn is_by_pointer(insn: &Insn) -> bool
    ensures { result ≡ is_by_pointer insn.now }
{
    match shape_of(insn).access {
        Some(access) => access.base.number() == POINTER,
        None => false,
    }
}
