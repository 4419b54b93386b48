//! Why an instruction raised an exception.

ghost use Rattle.std.specs.Prelude.{◌≡◌};
ghost use Rattle.brd_happening.specs.Cause.{
  access_cause,
  cause_by,
  cause_of,
  computing_cause,
  fetch_cause,
  instruction_cause,
  reserved_cause,
};

use crate::found::Found;
use brd_exec::{Context, ExceptionCode};
use brd_isa::{Insn, MemoryAccess, Register, shape_of};
use brd_word::sign16;

/// Why an instruction raised an exception, beside the exception's code.
#[derive(Clone, Copy)]
pub enum Cause {
    /// It couldn't be fetched.
    Fetch {
        /// From this address.
        address: u32,
        /// Where $ra leads, from where a wrong jump may have come.
        ra: u32,
    },
    /// It loads from this address.
    Load(u32),
    /// It stores to this address.
    Store(u32),
    /// It is a BREAK with this code.
    Break(u32),
    /// The word stands for no instruction.
    NoInstruction(u32),
    /// It is a branch or a jump in a delay slot.
    JumpInSlot,
    /// It adds, subtracts or compares these words.
    Operands {
        /// The first.
        one: u32,
        /// The second.
        other: u32,
    },
    /// No exception comes to this.
    Unknown,
}

/// Why the instruction that was found raised an exception of this code.
pub(crate) fn cause_of(code: ExceptionCode, found: &Found) -> Cause
    ensures { result ≡ cause_of code found.now }
{
    match code {
        ExceptionCode::IBE => fetch_cause(&found.context),
        ExceptionCode::AdEL if found.context.pc() % 4 != 0 => fetch_cause(&found.context),
        ExceptionCode::RI => reserved_cause(found.insn, found.word),
        _ => instruction_cause(found.insn, &found.context),
    }
}

/// A fetch.
fn fetch_cause(context: &Context) -> Cause
    ensures { result ≡ fetch_cause context.now }
{
    Cause::Fetch {
        address: context.pc(),
        ra: context.read(Register::low(31)),
    }
}

/// A word that stands for no instruction, else an instruction that can't be here.
fn reserved_cause(insn: Option<Insn>, word: Option<u32>) -> Cause
    ensures { result ≡ reserved_cause insn word }
{
    let Some(word) = word else {
        return Cause::Unknown;
    };
    match insn {
        None => Cause::NoInstruction(word),
        Some(_) => Cause::JumpInSlot,
    }
}

/// What an instruction does that may raise an exception, if there is one.
fn instruction_cause(insn: Option<Insn>, context: &Context) -> Cause
    ensures { result ≡ instruction_cause insn context.now }
{
    match insn {
        None => Cause::Unknown,
        Some(insn) => cause_by(&insn, context),
    }
}

/// What an instruction does that may raise an exception.
fn cause_by(insn: &Insn, context: &Context) -> Cause
    ensures { result ≡ cause_by insn.now context.now }
{
    match shape_of(insn).access {
        Some(access) => access_cause(access, context),
        None => computing_cause(insn, context),
    }
}

/// Of an access to memory.
fn access_cause(access: MemoryAccess, context: &Context) -> Cause
    ensures { result ≡ access_cause access context.now }
{
    let address = context.address(access.base, access.offset);
    if access.transfer.does_load() {
        return Cause::Load(address);
    }
    Cause::Store(address)
}

/// Of an instruction that accesses no memory.
fn computing_cause(insn: &Insn, context: &Context) -> Cause
    ensures { result ≡ computing_cause insn.now context.now }
{
    let (one, other) = match *insn {
        Insn::Break(code) => return Cause::Break(code.code()),
        Insn::ThreeRegisters(_, _, rs, rt) | Insn::Trap(_, rs, rt, _) => {
            (context.read(rs), context.read(rt))
        }
        Insn::WithImmediate(_, _, rs, immediate) | Insn::TrapImmediate(_, rs, immediate) => {
            (context.read(rs), sign16(immediate))
        }
        _ => return Cause::Unknown,
    };
    Cause::Operands { one, other }
}
