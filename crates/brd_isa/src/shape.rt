//! The shape of an instruction: what it reads and writes of the registers, what it accesses of memory, and where it
//! leads.

ghost use Rattle.std.specs.Prelude.{◌≡◌};
ghost use Rattle.brd_isa.specs.declared.shape.Transfer.TheVariants.{Load, Store};
ghost use Rattle.brd_isa.specs.declared.shape.AccessSize.TheVariants.{Word};
ghost use Rattle.brd_isa.specs.Shapes.{
  access,
  accesses,
  branch_flow,
  computes,
  does_load,
  does_store,
  immediate_flow,
  is_jump_calling,
  is_linked,
  is_regimm_branch_calling,
  jump_flow,
  linked_reads,
  linked_transfer,
  load_reads,
  load_size,
  moved_from,
  moved_to,
  reads_both,
  reads_none,
  reads_product,
  reads_rs,
  reads_rt,
  register_flow,
  register_reads,
  register_target,
  return_address,
  return_register,
  shape_of,
  store_size,
  writes_none,
  writes_product,
  writes_to,
};

use crate::fields::Register;
use crate::instruction::{
    BranchRegimmOp, ImmediateOp, Insn, JumpOp, LinkedOp, LoadOp, MoveFromOp, MoveToOp, RegisterOp,
    StoreOp,
};

/// The registers that an instruction reads, by the fields that name them. What it names and leaves unread isn't here.
#[derive(Clone, Copy)]
pub struct Reads {
    /// The one in rs, or the base.
    pub rs: Option<Register>,
    /// The one in rt.
    pub rt: Option<Register>,
    /// The one in rd.
    pub rd: Option<Register>,
    /// Whether HI.
    pub hi: bool,
    /// Whether LO.
    pub lo: bool,
}

/// The registers that an instruction writes.
#[derive(Clone, Copy)]
pub struct Writes {
    /// The general register, also where it may keep its word; register 0 stays 0.
    pub register: Option<Register>,
    /// Whether HI.
    pub hi: bool,
    /// Whether LO.
    pub lo: bool,
}

/// Which way an access goes.
#[derive(Clone, Copy, PartialEq, Eq)]
pub enum Transfer {
    /// A load.
    Load,
    /// A store.
    Store,
    /// A load that links.
    LoadLinked,
    /// A store, if the processor is linked.
    StoreConditional,
}

/// How much of memory an access takes, from the address that it names.
#[derive(Clone, Copy, PartialEq, Eq)]
pub enum AccessSize {
    /// The byte.
    Byte,
    /// The halfword.
    Halfword,
    /// The word.
    Word,
    /// The left part of an unaligned word: of the aligned word around the address, the byte there and the less
    /// significant ones.
    LeftPart,
    /// The right part of an unaligned word: the byte there and the more significant ones.
    RightPart,
}

/// An access to memory, at the base's word and the offset, which is signed.
#[derive(Clone, Copy)]
pub struct MemoryAccess {
    /// Which way it goes.
    pub transfer: Transfer,
    /// How much it takes.
    pub size: AccessSize,
    /// The base.
    pub base: Register,
    /// The offset.
    pub offset: u16,
}

/// Where an instruction leads that may be executed where it stands, whatever becomes of its access to memory.
#[derive(Clone, Copy, PartialEq, Eq)]
pub enum Flow {
    /// On to the next instruction.
    Next,
    /// On, unless what the registers hold raises Ov or Tr.
    NextUnlessRaised,
    /// To its target or on, by what the registers hold.
    Branch,
    /// The same, and it writes the return address.
    BranchAndLink,
    /// To its target.
    Jump,
    /// The same, and it writes the return address.
    JumpAndLink,
    /// To where $ra leads.
    Return,
    /// Into the kernel: SYSCALL.
    ServiceCall,
    /// To an exception: BREAK.
    Exception,
}

/// The shape of an instruction.
#[derive(Clone, Copy)]
pub struct Shape {
    /// What it reads of the registers.
    pub reads: Reads,
    /// What it writes of them.
    pub writes: Writes,
    /// What it accesses of memory.
    pub access: Option<MemoryAccess>,
    /// Where it leads.
    pub flow: Flow,
}

impl Transfer {
    /// Whether it loads.
    #[inline(always)]
    pub fn does_load(self) -> bool
        ensures { result ≡ does_load self }
    {
        matches!(self, Transfer::Load | Transfer::LoadLinked)
    }

    /// Whether it stores: an SC too, also where its processor isn't linked.
    #[inline(always)]
    pub fn does_store(self) -> bool
        ensures { result ≡ does_store self }
    {
        matches!(self, Transfer::Store | Transfer::StoreConditional)
    }

    /// Whether it is LL's or SC's.
    #[inline(always)]
    pub fn is_linked(self) -> bool
        ensures { result ≡ is_linked self }
    {
        matches!(self, Transfer::LoadLinked | Transfer::StoreConditional)
    }
}

/// The shape of an instruction, whatever the registers hold.
#[inline(always)]
pub fn shape_of(insn: &Insn) -> Shape
    ensures { result ≡ shape_of insn.now }
{
    match *insn {
        Insn::Shift(_, rd, rt, _) => computing(in_rt(rt), to(rd), Flow::Next),
        Insn::ShiftVariable(_, rd, rt, rs) => computing(in_both(rs, rt), to(rd), Flow::Next),
        Insn::ThreeRegisters(op, rd, rs, rt) => {
            computing(register_reads(op, rd, rs, rt), to(rd), register_flow(op))
        }
        Insn::Multiply(rd, rs, rt) => computing(in_both(rs, rt), to(rd), Flow::Next),
        Insn::JumpRegister(rs) => computing(in_rs(rs), to_none(), register_target(rs)),
        Insn::JumpLinkRegister(rd, rs) => computing(in_rs(rs), to(rd), Flow::JumpAndLink),
        Insn::Syscall(_) => computing(in_none(), to_none(), Flow::ServiceCall),
        Insn::Break(_) => computing(in_none(), to_none(), Flow::Exception),
        Insn::Sync | Insn::Prefetch(_, _, _) => computing(in_none(), to_none(), Flow::Next),
        Insn::MoveFrom(op, rd) => computing(moved_from(op), to(rd), Flow::Next),
        Insn::MoveTo(op, rs) => computing(in_rs(rs), moved_to(op), Flow::Next),
        Insn::Product(_, rs, rt) => computing(in_both(rs, rt), to_product(), Flow::Next),
        Insn::Accumulate(_, rs, rt) => computing(in_product(rs, rt), to_product(), Flow::Next),
        Insn::Count(_, rd, rs) => computing(in_rs(rs), to(rd), Flow::Next),
        Insn::Trap(_, rs, rt, _) => computing(in_both(rs, rt), to_none(), Flow::NextUnlessRaised),
        Insn::TrapImmediate(_, rs, _) => computing(in_rs(rs), to_none(), Flow::NextUnlessRaised),
        Insn::Jump(op, _) => jumping(is_jump_calling(op)),
        Insn::Branch(_, rs, rt, _) => computing(in_both(rs, rt), to_none(), Flow::Branch),
        Insn::BranchZero(_, rs, _) => computing(in_rs(rs), to_none(), Flow::Branch),
        Insn::BranchRegimm(op, rs, _) => branching(is_regimm_branch_calling(op), rs),
        Insn::WithImmediate(op, rt, rs, _) => computing(in_rs(rs), to(rt), immediate_flow(op)),
        Insn::LoadUpper(rt, _) => computing(in_none(), to(rt), Flow::Next),
        Insn::Load(op, rt, base, offset) => loading(load_size(op), rt, base, offset),
        Insn::Store(op, rt, base, offset) => storing(store_size(op), rt, base, offset),
        Insn::Linked(op, rt, base, offset) => linking(op, rt, base, offset),
    }
}

/// An instruction that touches registers alone.
#[inline(always)]
fn computing(reads: Reads, writes: Writes, flow: Flow) -> Shape
    ensures { result ≡ computes reads writes flow }
{
    Shape {
        reads,
        writes,
        access: None,
        flow,
    }
}

/// An instruction that accesses memory.
#[inline(always)]
fn accessing(reads: Reads, writes: Writes, access: MemoryAccess) -> Shape
    ensures { result ≡ accesses reads writes access }
{
    Shape {
        reads,
        writes,
        access: Some(access),
        flow: Flow::Next,
    }
}

/// `op target`
#[inline(always)]
fn jumping(calls: bool) -> Shape
    ensures { result ≡ computes reads_none (return_address calls) (jump_flow calls) }
{
    let flow = if calls { Flow::JumpAndLink } else { Flow::Jump };
    computing(in_none(), return_address(calls), flow)
}

/// `op rs, target` under the opcode REGIMM
#[inline(always)]
fn branching(calls: bool, rs: Register) -> Shape
    ensures { result ≡ computes (reads_rs rs) (return_address calls) (branch_flow calls) }
{
    let flow = if calls {
        Flow::BranchAndLink
    } else {
        Flow::Branch
    };
    computing(in_rs(rs), return_address(calls), flow)
}

/// A load.
#[inline(always)]
fn loading(size: AccessSize, rt: Register, base: Register, offset: u16) -> Shape
    ensures { result
        ≡ accesses (load_reads size rt base) (writes_to rt) (access Load size base offset) }
{
    let reads = match size {
        AccessSize::Byte | AccessSize::Halfword | AccessSize::Word => in_rs(base),
        AccessSize::LeftPart | AccessSize::RightPart => in_both(base, rt),
    };
    accessing(reads, to(rt), access(Transfer::Load, size, base, offset))
}

/// A store.
#[inline(always)]
fn storing(size: AccessSize, rt: Register, base: Register, offset: u16) -> Shape
    ensures { result ≡ accesses (reads_both base rt) writes_none (access Store size base offset) }
{
    let access = access(Transfer::Store, size, base, offset);
    accessing(in_both(base, rt), to_none(), access)
}

/// LL or SC.
#[inline(always)]
fn linking(op: LinkedOp, rt: Register, base: Register, offset: u16) -> Shape
    ensures { result ≡ accesses (linked_reads op rt base) (writes_to rt)
        (access (linked_transfer op) Word base offset) }
{
    let (reads, transfer) = match op {
        LinkedOp::Ll => (in_rs(base), Transfer::LoadLinked),
        LinkedOp::Sc => (in_both(base, rt), Transfer::StoreConditional),
    };
    accessing(
        reads,
        to(rt),
        access(transfer, AccessSize::Word, base, offset),
    )
}

/// An access.
#[inline(always)]
fn access(transfer: Transfer, size: AccessSize, base: Register, offset: u16) -> MemoryAccess
    ensures { result ≡ access transfer size base offset }
{
    MemoryAccess {
        transfer,
        size,
        base,
        offset,
    }
}

/// How much a load takes.
#[inline(always)]
fn load_size(op: LoadOp) -> AccessSize
    ensures { result ≡ load_size op }
{
    match op {
        LoadOp::Lb | LoadOp::Lbu => AccessSize::Byte,
        LoadOp::Lh | LoadOp::Lhu => AccessSize::Halfword,
        LoadOp::Lw => AccessSize::Word,
        LoadOp::Lwl => AccessSize::LeftPart,
        LoadOp::Lwr => AccessSize::RightPart,
    }
}

/// How much a store takes.
#[inline(always)]
fn store_size(op: StoreOp) -> AccessSize
    ensures { result ≡ store_size op }
{
    match op {
        StoreOp::Sb => AccessSize::Byte,
        StoreOp::Sh => AccessSize::Halfword,
        StoreOp::Sw => AccessSize::Word,
        StoreOp::Swl => AccessSize::LeftPart,
        StoreOp::Swr => AccessSize::RightPart,
    }
}

/// Whether `op target` writes the return address.
#[inline(always)]
pub fn is_jump_calling(op: JumpOp) -> bool
    ensures { result ≡ is_jump_calling op }
{
    op == JumpOp::Jal
}

/// Whether `op rs, target` under REGIMM writes the return address.
#[inline(always)]
pub fn is_regimm_branch_calling(op: BranchRegimmOp) -> bool
    ensures { result ≡ is_regimm_branch_calling op }
{
    matches!(
        op,
        BranchRegimmOp::Bltzal
            | BranchRegimmOp::Bgezal
            | BranchRegimmOp::Bltzall
            | BranchRegimmOp::Bgezall
    )
}

/// Where `op rd, rs, rt` leads.
#[inline(always)]
fn register_flow(op: RegisterOp) -> Flow
    ensures { result ≡ register_flow op }
{
    match op {
        RegisterOp::Add | RegisterOp::Sub => Flow::NextUnlessRaised,
        _ => Flow::Next,
    }
}

/// Where `op rt, rs, immediate` leads.
#[inline(always)]
fn immediate_flow(op: ImmediateOp) -> Flow
    ensures { result ≡ immediate_flow op }
{
    match op {
        ImmediateOp::Addi => Flow::NextUnlessRaised,
        _ => Flow::Next,
    }
}

/// Where `jr rs` leads.
#[inline(always)]
fn register_target(rs: Register) -> Flow
    ensures { result ≡ register_target rs }
{
    if rs.number() == 31 {
        return Flow::Return;
    }
    Flow::Jump
}

/// What `op rd, rs, rt` reads.
#[inline(always)]
fn register_reads(op: RegisterOp, rd: Register, rs: Register, rt: Register) -> Reads
    ensures { result ≡ register_reads op rd rs rt }
{
    match op {
        RegisterOp::Movz | RegisterOp::Movn => Reads {
            rd: Some(rd),
            ..in_both(rs, rt)
        },
        _ => in_both(rs, rt),
    }
}

/// What a move from HI or LO reads.
#[inline(always)]
fn moved_from(op: MoveFromOp) -> Reads
    ensures { result ≡ moved_from op }
{
    Reads {
        hi: matches!(op, MoveFromOp::Mfhi),
        lo: matches!(op, MoveFromOp::Mflo),
        ..in_none()
    }
}

/// What a move to HI or LO writes.
#[inline(always)]
fn moved_to(op: MoveToOp) -> Writes
    ensures { result ≡ moved_to op }
{
    Writes {
        hi: matches!(op, MoveToOp::Mthi),
        lo: matches!(op, MoveToOp::Mtlo),
        ..to_none()
    }
}

/// It reads nothing.
#[inline(always)]
fn in_none() -> Reads
    ensures { result ≡ reads_none }
{
    Reads {
        rs: None,
        rt: None,
        rd: None,
        hi: false,
        lo: false,
    }
}

/// It reads the register in rs, or the base.
#[inline(always)]
fn in_rs(rs: Register) -> Reads
    ensures { result ≡ reads_rs rs }
{
    Reads {
        rs: Some(rs),
        ..in_none()
    }
}

/// It reads the register in rt.
#[inline(always)]
fn in_rt(rt: Register) -> Reads
    ensures { result ≡ reads_rt rt }
{
    Reads {
        rt: Some(rt),
        ..in_none()
    }
}

/// It reads both.
#[inline(always)]
fn in_both(rs: Register, rt: Register) -> Reads
    ensures { result ≡ reads_both rs rt }
{
    Reads {
        rt: Some(rt),
        ..in_rs(rs)
    }
}

/// It reads both, HI and LO.
#[inline(always)]
fn in_product(rs: Register, rt: Register) -> Reads
    ensures { result ≡ reads_product rs rt }
{
    Reads {
        hi: true,
        lo: true,
        ..in_both(rs, rt)
    }
}

/// It writes nothing.
#[inline(always)]
fn to_none() -> Writes
    ensures { result ≡ writes_none }
{
    Writes {
        register: None,
        hi: false,
        lo: false,
    }
}

/// It writes a general register.
#[inline(always)]
fn to(register: Register) -> Writes
    ensures { result ≡ writes_to register }
{
    Writes {
        register: Some(register),
        ..to_none()
    }
}

/// It writes HI and LO.
#[inline(always)]
fn to_product() -> Writes
    ensures { result ≡ writes_product }
{
    Writes {
        register: None,
        hi: true,
        lo: true,
    }
}

/// It writes $ra, if it calls.
#[inline(always)]
fn return_address(calls: bool) -> Writes
    ensures { result ≡ return_address calls }
{
    Writes {
        register: return_register(calls),
        ..to_none()
    }
}

/// The register that takes the return address of a call.
#[inline(always)]
fn return_register(calls: bool) -> Option<Register>
    ensures { result ≡ return_register calls }
{
    if calls {
        return Some(Register::low(31));
    }
    None
}
