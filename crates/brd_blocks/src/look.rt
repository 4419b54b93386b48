//! A look at the next instruction of a processor, before it is done.

ghost use Rattle.std.specs.Prelude.{◌≡◌};
ghost use Rattle.brd_board.specs.Board.{standing_of};
ghost use Rattle.brd_blocks.specs.Looking.{
  access_keeps,
  access_hides,
  access_spares,
  are_private,
  asks_of,
  asks_ter_tsk,
  has_place,
  is_mortal_owner,
  links_into,
  link_is_into,
  look_by,
  look_of,
  may_store_both,
  may_touch_both,
  me_on,
  me_standing,
  surprises,
};

use crate::footprint::{Access, access_of};
use crate::mortals::is_mortal;
use crate::owner::Owner;
use crate::owners::owner_at;
use crate::sharing::Sharing;
use brd_board::{Board, Standing};
use brd_exec::Context;

/// What is known of the next instruction of a processor.
#[derive(Clone, Copy)]
pub(crate) struct Look {
    /// It keeps to who may touch what.
    pub keeps: bool,
    /// It touches nothing that others may touch, is no LL and no SC, and no mortal task's.
    pub hidden: bool,
    /// If it stores, it ends no link of another processor.
    pub unlinked: bool,
    /// If it is a call, it asks for ter_tsk of a task that isn't mortal.
    pub surprises: bool,
}

/// A look at the next instruction of a processor; None where nobody executes there, or at address 0 without a stack.
pub(crate) fn look_at(sharing: &Sharing, board: &Board, cpu: u8) -> Option<Look>
    ensures { result ≡ look_of sharing.now board.now cpu }
{
    match (me_on(board, cpu), board.registers(cpu)) {
        (Some(me), Some(context)) if has_place(&context) => {
            Some(look_by(sharing, board, cpu, me, &context))
        }
        _ => None,
    }
}

/// A look at the next instruction of a context.
fn look_by(sharing: &Sharing, board: &Board, cpu: u8, me: Owner, context: &Context) -> Look
    ensures { result ≡ look_by sharing.now board.now cpu me context.now }
{
    let owners = sharing.owners();
    let mortals = sharing.mortals();
    let first = u64::from(context.pc());
    let last = first + 3;
    let access = access_of(board, context);
    let private = are_private(owners, first, last) && access_hides(owners, access);
    Look {
        keeps: may_touch_both(owners, me, first, last) && access_keeps(owners, me, access),
        hidden: !is_mortal_owner(mortals, me) && private,
        unlinked: access_spares(board, cpu, access),
        surprises: surprises(mortals, context),
    }
}

/// Whether a load or a store keeps to who may touch what.
fn access_keeps(owners: &[Owner], me: Owner, access: Option<Access>) -> bool
    ensures { result ≡ access_keeps owners.now me access }
{
    match access {
        None => true,
        Some(it) if it.transfer.does_store() => may_store_both(owners, me, it.first, it.last),
        Some(it) => may_touch_both(owners, me, it.first, it.last),
    }
}

/// Whether it is no LL and no SC, and touches nothing that others may touch.
fn access_hides(owners: &[Owner], access: Option<Access>) -> bool
    ensures { result ≡ access_hides owners.now access }
{
    match access {
        None => true,
        Some(it) => !it.transfer.is_linked() && are_private(owners, it.first, it.last),
    }
}

/// Whether it ends no link of another processor.
fn access_spares(board: &Board, cpu: u8, access: Option<Access>) -> bool
    ensures { result ≡ access_spares board.now cpu access }
{
    match access {
        None => true,
        Some(it) => !it.transfer.does_store() || !links_into(board, cpu, it.address),
    }
}

/// Whether an agent may touch the words of two addresses.
fn may_touch_both(owners: &[Owner], me: Owner, first: u64, last: u64) -> bool
    ensures { result ≡ may_touch_both owners.now me first last }
{
    owner_at(owners, first).may_touch(me) && owner_at(owners, last).may_touch(me)
}

/// Whether an agent may store to them.
fn may_store_both(owners: &[Owner], me: Owner, first: u64, last: u64) -> bool
    ensures { result ≡ may_store_both owners.now me first last }
{
    owner_at(owners, first).may_store(me) && owner_at(owners, last).may_store(me)
}

/// Whether none of them is shared.
fn are_private(owners: &[Owner], first: u64, last: u64) -> bool
    ensures { result ≡ are_private owners.now first last }
{
    !owner_at(owners, first).is_shared() && !owner_at(owners, last).is_shared()
}

/// Whether a call with these registers asks for ter_tsk.
pub(crate) fn asks_ter_tsk(context: &Context) -> bool
    ensures { result ≡ asks_ter_tsk context.now }
{
    context.word(2) == 4
}

/// The task of which it asks for it.
pub(crate) fn asks_of(context: &Context) -> u32
    ensures { result ≡ asks_of context.now }
{
    context.word(4)
}

/// Whether it asks for it of a task that isn't mortal.
fn surprises(mortals: &[bool], context: &Context) -> bool
    ensures { result ≡ surprises mortals.now context.now }
{
    asks_ter_tsk(context) && !is_mortal(mortals, asks_of(context))
}

/// Whether who executes is a mortal task.
fn is_mortal_owner(mortals: &[bool], me: Owner) -> bool
    ensures { result ≡ is_mortal_owner mortals.now me }
{
    match me {
        Owner::Task(id) => is_mortal(mortals, u32::from(id)),
        Owner::Nobody | Owner::Handler(_) | Owner::Shared => false,
    }
}

/// Whether a context is known to lie in the kernel: one that doesn't would be all zero.
pub(crate) fn has_place(context: &Context) -> bool
    ensures { result ≡ has_place context.now }
{
    context.pc() != 0 || context.word(29) != 0
}

/// The owner of what is the own of who executes on a processor.
pub(crate) fn me_on(board: &Board, cpu: u8) -> Option<Owner>
    ensures { result ≡ me_on cpu (standing_of board.now cpu) }
{
    match board.standing(cpu) {
        Some(standing) => me_standing(cpu, standing),
        None => None,
    }
}

/// The same, by what the processor is doing.
fn me_standing(cpu: u8, standing: Standing) -> Option<Owner>
    ensures { result ≡ me_standing cpu standing }
{
    match standing {
        Standing::Task(id) => Some(Owner::Task(id)),
        Standing::Handler(_) => Some(Owner::Handler(cpu)),
        Standing::Idle | Standing::Stopped => None,
    }
}

/// Whether another processor is linked to a word of the block of an address.
pub(crate) fn links_into(board: &Board, cpu: u8, address: u32) -> bool
    ensures { result ≡ links_into board.now cpu address }
{
    link_is_into(board, cpu, 1, address)
        || link_is_into(board, cpu, 2, address)
        || link_is_into(board, cpu, 3, address)
        || link_is_into(board, cpu, 4, address)
        || link_is_into(board, cpu, 5, address)
        || link_is_into(board, cpu, 6, address)
        || link_is_into(board, cpu, 7, address)
        || link_is_into(board, cpu, 8, address)
}

/// Whether this one is, and is another.
fn link_is_into(board: &Board, cpu: u8, other: u8, address: u32) -> bool
    ensures { result ≡ link_is_into board.now cpu other address }
{
    match board.link(other) {
        None => false,
        Some(word) => other != cpu && word / 16 == address / 16,
    }
}
