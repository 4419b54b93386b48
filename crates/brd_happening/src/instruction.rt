//! An instruction that was done: what it wrote, what of memory it loaded or stored, and where it jumped.

ghost use Rattle.std.specs.Prelude.{◌≡◌};
ghost use Rattle.brd_exec.specs.State.{target_of};
ghost use Rattle.brd_happening.specs.Instruction.{
  access_by,
  access_in,
  address_by,
  changed,
  changed_if,
  has_stored,
  instruction_of,
  jump_by,
  kind_in,
  written_in,
};

use crate::found::Found;
use brd_exec::{Context, is_branch_taken, is_regimm_branch_taken, is_zero_branch_taken};
use brd_isa::{AccessSize, Insn, MemoryAccess, Register, Shape, Transfer, Writes, shape_of};
use brd_word::sign16;

/// A word before an event and after it.
#[derive(Clone, Copy)]
pub struct Change {
    /// The word before.
    pub old: u32,
    /// The word after, which may be the same.
    pub new: u32,
}

/// A register that an instruction wrote.
#[derive(Clone, Copy)]
pub struct Written {
    /// Which; never register 0.
    pub register: Register,
    /// Its word.
    pub word: Change,
}

/// How an instruction accesses memory.
#[derive(Clone, Copy)]
pub enum AccessKind {
    /// It loads.
    Loads,
    /// It stores.
    Stores,
    /// It is SC, and this says whether it stored.
    StoresIfLinked(bool),
}

impl AccessKind {
    /// Whether it has stored.
    pub fn has_stored(self) -> bool
        ensures { result ≡ has_stored self }
    {
        match self {
            AccessKind::Loads => false,
            AccessKind::Stores => true,
            AccessKind::StoresIfLinked(stored) => stored,
        }
    }
}

/// A load or a store.
#[derive(Clone, Copy)]
pub struct Access {
    /// Which.
    pub kind: AccessKind,
    /// Whether it is LL's or SC's.
    pub links: bool,
    /// How much of memory it takes.
    pub size: AccessSize,
    /// The address that it names.
    pub address: u32,
    /// The aligned word that holds this address, where RAM has all of it.
    pub word: Option<Change>,
}

/// A branch or a jump.
#[derive(Clone, Copy)]
pub struct Jump {
    /// Where it leads, if it is taken.
    pub target: u32,
    /// Whether it is taken, as every jump is.
    pub taken: bool,
}

/// An instruction that was done.
#[derive(Clone, Copy)]
pub struct Instruction {
    /// The instruction, as it was fetched.
    pub insn: Insn,
    /// Whether it lay in a delay slot.
    pub in_slot: bool,
    /// The register that it wrote: also by MOVZ or MOVN where its word stays.
    pub register: Option<Written>,
    /// HI, if it wrote that.
    pub hi: Option<Change>,
    /// LO, if it wrote that.
    pub lo: Option<Change>,
    /// What it loaded or stored.
    pub access: Option<Access>,
    /// Where it branched or jumped.
    pub jump: Option<Jump>,
}

impl Instruction {
    /// An instruction that was found, by the registers after it and the aligned word that holds the address that it
    /// names, as that is then.
    pub(crate) fn new(insn: Insn, found: &Found, after: &Context, held: Option<u32>) -> Self
        ensures { result ≡ instruction_of insn found.now after.now held }
    {
        let before = &found.context;
        let Shape { writes, access, .. } = shape_of(&insn);
        let Writes { register, hi, lo } = writes;
        let word = changed(found.held, held);
        Instruction {
            insn,
            in_slot: before.slot(),
            register: written_in(before, after, register),
            hi: changed_if(hi, before.hi(), after.hi()),
            lo: changed_if(lo, before.lo(), after.lo()),
            access: access_by(access, found.linked, found.address, word),
            jump: jump_by(&insn, before),
        }
    }
}

/// The address that a load or a store names.
pub(crate) fn address_by(insn: &Insn, context: &Context) -> Option<u32>
    ensures { result ≡ address_by insn.now context.now }
{
    let access = shape_of(insn).access?;
    Some(context.address(access.base, access.offset))
}

/// A register that was written, with its words; register 0 never is.
fn written_in(before: &Context, after: &Context, register: Option<Register>) -> Option<Written>
    ensures { result ≡ written_in before.now after.now register }
{
    let register = register?;
    if register.number() == 0 {
        return None;
    }
    Some(Written {
        register,
        word: Change {
            old: before.read(register),
            new: after.read(register),
        },
    })
}

/// A word before and after, if it was written.
fn changed_if(written: bool, old: u32, new: u32) -> Option<Change>
    ensures { result ≡ changed_if written old new }
{
    if written {
        return Some(Change { old, new });
    }
    None
}

/// A word before and after, where RAM has it.
fn changed(old: Option<u32>, new: Option<u32>) -> Option<Change>
    ensures { result ≡ changed old new }
{
    let old = old?;
    let new = new?;
    Some(Change { old, new })
}

/// How an access goes; an SC stores where its processor is linked to the address.
fn kind_in(transfer: Transfer, linked: bool) -> AccessKind
    ensures { result ≡ kind_in transfer linked }
{
    match transfer {
        Transfer::Load | Transfer::LoadLinked => AccessKind::Loads,
        Transfer::Store => AccessKind::Stores,
        Transfer::StoreConditional => AccessKind::StoresIfLinked(linked),
    }
}

/// A load or a store, of an address.
fn access_by(
    access: Option<MemoryAccess>,
    linked: bool,
    address: Option<u32>,
    word: Option<Change>,
) -> Option<Access>
    ensures { result ≡ access_by access linked address word }
{
    let access = access?;
    let address = address?;
    Some(access_in(access, linked, address, word))
}

/// An access, of an address.
fn access_in(access: MemoryAccess, linked: bool, address: u32, word: Option<Change>) -> Access
    ensures { result ≡ access_in access linked address word }
{
    Access {
        kind: kind_in(access.transfer, linked),
        links: access.transfer.is_linked(),
        size: access.size,
        address,
        word,
    }
}

/// A branch or a jump, with the registers before it.
fn jump_by(insn: &Insn, context: &Context) -> Option<Jump>
    ensures { result ≡ jump_by insn.now context.now }
{
    let (target, taken) = match *insn {
        Insn::JumpRegister(rs) | Insn::JumpLinkRegister(_, rs) => (context.read(rs), true),
        Insn::Jump(_, index) => (context.jump_target(index), true),
        Insn::Branch(op, rs, rt, offset) => (
            target_of(context, offset),
            is_branch_taken(op, context, rs, rt),
        ),
        Insn::BranchZero(op, rs, offset) => (
            target_of(context, offset),
            is_zero_branch_taken(op, context.read(rs)),
        ),
        Insn::BranchRegimm(op, rs, offset) => (
            target_of(context, offset),
            is_regimm_branch_taken(op, context.read(rs)),
        ),
        _ => return None,
    };
    Some(Jump { target, taken })
}

/// The target of a branch.
fn target_of(context: &Context, offset: u16) -> u32
    ensures { result ≡ target_of context.now offset }
{
    context.npc().wrapping_add(sign16(offset).wrapping_mul(4))
}
