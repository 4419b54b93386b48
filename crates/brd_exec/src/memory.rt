//! The instructions that load and store.

ghost use Rattle.std.specs.Prelude.{◌≤◌};
ghost use Rattle.brd_mem.specs.Access.{loaded32, stored32};
ghost use Rattle.brd_link.specs.LinkSet.{is_linked};
ghost use Rattle.brd_exec.specs.State.{read, address_of};
ghost use Rattle.brd_exec.specs.Action.{with_word};
ghost use Rattle.brd_exec.specs.Step.{load_gives, store_gives, stores_if_linked, with_code};
ghost use Rattle.brd_exec.specs.Effects.{Advances, Does, Leads};

use crate::access;
use crate::context::Context;
use crate::outcome::Stop;
use brd_isa::{LoadOp, Register, StoreOp};
use brd_link::Links;
use brd_mem::Ram;

/// Does `op rt, offset(base)`, a load.
pub fn load(
    context: &mut Context,
    ram: &Ram,
    op: LoadOp,
    rt: Register,
    base: Register,
    offset: u16,
) -> Result<(), Stop>
    ensures { Leads (with_word context.old rt
        (with_code (load_gives op ram.now (address_of context.old base offset) (read context.old rt))))
        context.old result context.new }
{
    let word = access::load(op, ram, context.address(base, offset), context.read(rt))?;
    context.set(rt, word);
    Ok(())
}

/// Does a store to an address. The links are left to the caller.
pub fn store(
    context: &mut Context,
    ram: &mut Ram,
    op: StoreOp,
    rt: Register,
    address: u32,
) -> Result<(), Stop>
    ensures { Advances (store_gives op ram.old address (read context.old rt))
        context.old ram.old result context.new ram.new }
{
    access::store(op, ram, address, context.read(rt))?;
    context.advance();
    Ok(())
}

/// Does an LL from an address. Its link is left to the caller.
pub fn load_linked(context: &mut Context, ram: &Ram, rt: Register, address: u32) -> Result<(), Stop>
    ensures { Leads (with_word context.old rt (with_code (loaded32 ram.now address))) context.old result context.new }
{
    let word = ram.load32(address)?;
    context.set(rt, word);
    Ok(())
}

/// Does an SC to an address.
pub fn store_if_linked(
    context: &mut Context,
    cpu: u8,
    ram: &mut Ram,
    links: &mut Links,
    rt: Register,
    address: u32,
) -> Result<(), Stop>
    requires { (1 ≤ cpu) × (cpu ≤ 8) }
    ensures { Does (stores_if_linked cpu context.old ram.old links.old rt address (is_linked links.old cpu address)
        (stored32 ram.old address (read context.old rt))) context.old ram.old result context.new ram.new links.new }
{
    if !links.take(cpu, address) {
        ram.may_store32(address)?;
        context.set(rt, 0);
        return Ok(());
    }
    ram.store32(address, context.read(rt))?;
    links.stored(cpu, address);
    context.set(rt, 1);
    Ok(())
}
