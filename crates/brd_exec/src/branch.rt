//! Branches and jumps. Each tests itself whether it is in a delay slot, so that no other instruction is tested for it.

ghost use Rattle.std.specs.Prelude.{◌≡◌, if◌then◌else◌, Ok, Err};
ghost use Rattle.brd_isa.specs.Shapes.{is_jump_calling, is_regimm_branch_calling};
ghost use Rattle.brd_exec.specs.State.{
  read,
  write,
  jumped,
  after_branch,
  return_address_of,
  with_return_address_if,
  jump_target,
};
ghost use Rattle.brd_exec.specs.Values.{
  is_taken,
  is_likely,
  is_zero_branch_taken,
  is_zero_branch_likely,
  is_regimm_branch_taken,
  is_regimm_branch_likely,
};
ghost use Rattle.brd_exec.specs.Effects.{Leads, unless_slot};

use crate::context::Context;
use crate::outcome::{ExceptionCode, Stop};
use crate::value::{
    is_branch_likely, is_branch_taken, is_regimm_branch_likely, is_regimm_branch_taken,
    is_zero_branch_likely, is_zero_branch_taken,
};
use brd_isa::{
    BranchOp, BranchRegimmOp, BranchZeroOp, JumpIndex, JumpOp, Register, is_jump_calling,
    is_regimm_branch_calling,
};

/// A branch or a jump raises RI in a delay slot.
#[inline(always)]
fn outside_slot(context: &Context) -> Result<(), Stop>
    ensures { result ≡ (if context.now.slot then Err (Stop.Raise ExceptionCode.RI) else Ok tt) }
{
    if context.slot() {
        return Err(Stop::Raise(ExceptionCode::RI));
    }
    Ok(())
}

/// Does `jr rs`.
#[inline(always)]
pub fn jump_register(context: &mut Context, rs: Register) -> Result<(), Stop>
    ensures { Leads (unless_slot context.old (jumped context.old (read context.old rs)))
        context.old result context.new }
{
    outside_slot(context)?;
    let target = context.read(rs);
    context.jump(target);
    Ok(())
}

/// Does `jalr rd, rs`. The target is what the register was before the return address was written.
#[inline(always)]
pub fn call_register(context: &mut Context, rd: Register, rs: Register) -> Result<(), Stop>
    ensures { Leads (unless_slot context.old
        (jumped (write context.old rd (return_address_of context.old)) (read context.old rs)))
        context.old result context.new }
{
    outside_slot(context)?;
    let target = context.read(rs);
    let address = context.return_address();
    context.write(rd, address);
    context.jump(target);
    Ok(())
}

/// Does `op target`.
#[inline(always)]
pub fn jump(context: &mut Context, op: JumpOp, index: JumpIndex) -> Result<(), Stop>
    ensures { Leads (unless_slot context.old
        (jumped (with_return_address_if context.old (is_jump_calling op)) (jump_target context.old index)))
        context.old result context.new }
{
    outside_slot(context)?;
    let target = context.jump_target(index);
    context.write_return_address_if(is_jump_calling(op));
    context.jump(target);
    Ok(())
}

/// Does `op rs, rt, target`.
#[inline(always)]
pub fn branch(
    context: &mut Context,
    op: BranchOp,
    rs: Register,
    rt: Register,
    offset: u16,
) -> Result<(), Stop>
    ensures { Leads (unless_slot context.old
        (after_branch context.old (is_likely op) (is_taken op (read context.old rs) (read context.old rt)) offset))
        context.old result context.new }
{
    let taken = is_branch_taken(op, context, rs, rt);
    outside_slot(context)?;
    context.branch(is_branch_likely(op), taken, offset);
    Ok(())
}

/// Does `op rs, target`.
#[inline(always)]
pub fn branch_zero(
    context: &mut Context,
    op: BranchZeroOp,
    rs: Register,
    offset: u16,
) -> Result<(), Stop>
    ensures { Leads (unless_slot context.old
        (after_branch context.old (is_zero_branch_likely op) (is_zero_branch_taken op (read context.old rs)) offset))
        context.old result context.new }
{
    outside_slot(context)?;
    let taken = is_zero_branch_taken(op, context.read(rs));
    context.branch(is_zero_branch_likely(op), taken, offset);
    Ok(())
}

/// Does `op rs, target` under REGIMM. The register is read before the return address is written.
#[inline(always)]
pub fn branch_regimm(
    context: &mut Context,
    op: BranchRegimmOp,
    rs: Register,
    offset: u16,
) -> Result<(), Stop>
    ensures { Leads (unless_slot context.old
        (after_branch (with_return_address_if context.old (is_regimm_branch_calling op)) (is_regimm_branch_likely op)
        (is_regimm_branch_taken op (read context.old rs)) offset)) context.old result context.new }
{
    outside_slot(context)?;
    let taken = is_regimm_branch_taken(op, context.read(rs));
    context.write_return_address_if(is_regimm_branch_calling(op));
    context.branch(is_regimm_branch_likely(op), taken, offset);
    Ok(())
}
