//! What is learnt of who touches which word, and of who terminates whom.

ghost use Rattle.brd_blocks.specs.Owning.{TasksStayMortal, WordsStayShared};

use crate::footprint::{Access, access_of, insn_of};
use crate::look::{asks_of, asks_ter_tsk, links_into, me_on};
use crate::mortals::expose;
use crate::owner::Owner;
use crate::owners::{give, owner_at};
use brd_board::Board;
use brd_isa::Insn;

/// Takes in of whom the next step of a processor asks for ter_tsk, if it is such a call. Answers whether anything has
/// changed.
pub(crate) fn learn_end(mortals: &mut [bool], board: &Board, cpu: u8) -> bool
    ensures { TasksStayMortal mortals.old mortals.new }
{
    let Some(context) = board.registers(cpu) else {
        return false;
    };
    if !asks_ter_tsk(&context) || !matches!(insn_of(board, &context), Some(Insn::Syscall(_))) {
        return false;
    }
    expose(mortals, asks_of(&context))
}

/// Takes in what the next step of a processor touches, if it executes an instruction. Answers whether anything has
/// changed.
pub(crate) fn learn_touch(owners: &mut [Owner], board: &Board, cpu: u8) -> bool
    ensures { WordsStayShared owners.old owners.new }
{
    let Some(me) = me_on(board, cpu) else {
        return false;
    };
    let Some(context) = board.registers(cpu) else {
        return false;
    };
    let first = u64::from(context.pc());
    let fetch = meet(owners, me, false, first, first + 3);
    let Some(access) = access_of(board, &context) else {
        return fetch;
    };
    let access = meet_access(owners, board, cpu, me, access);
    fetch || access
}

/// Takes in a load or a store.
fn meet_access(owners: &mut [Owner], board: &Board, cpu: u8, me: Owner, access: Access) -> bool
    ensures { WordsStayShared owners.old owners.new }
{
    let stores = access.transfer.does_store();
    if access.transfer.is_linked() || stores && links_into(board, cpu, access.address) {
        return share_both(owners, access.first, access.last);
    }
    meet(owners, me, stores, access.first, access.last)
}

/// All may touch the words of two addresses.
fn share_both(owners: &mut [Owner], first: u64, last: u64) -> bool
    ensures { WordsStayShared owners.old owners.new }
{
    let one = give(owners, first, Owner::Shared);
    let other = give(owners, last, Owner::Shared);
    one || other
}

/// Takes in that an agent touches the words of two addresses, and whether it stores to them.
fn meet(owners: &mut [Owner], me: Owner, stores: bool, first: u64, last: u64) -> bool
    ensures { WordsStayShared owners.old owners.new }
{
    let one = meet_word(owners, me, stores, first);
    let other = meet_word(owners, me, stores, last);
    one || other
}

/// Takes in that an agent touches the word of an address.
fn meet_word(owners: &mut [Owner], me: Owner, stores: bool, address: u64) -> bool
    ensures { WordsStayShared owners.old owners.new }
{
    let owner = owner_at(owners, address);
    if owner == Owner::Nobody {
        return stores && give(owners, address, me);
    }
    !owner.may_touch(me) && give(owners, address, Owner::Shared)
}
