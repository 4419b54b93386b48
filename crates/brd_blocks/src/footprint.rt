//! What an instruction loads or stores.

ghost use Rattle.std.specs.Prelude.{◌≡◌};
ghost use Rattle.brd_board.specs.Words.{word_at};
ghost use Rattle.brd_blocks.specs.Footprint.{access_by, access_in, access_of, first_of, last_of, stands_for};

use brd_board::Board;
use brd_exec::Context;
use brd_isa::{AccessSize, Insn, MemoryAccess, Transfer, decode, shape_of};

/// A load or a store.
#[derive(Clone, Copy)]
pub(crate) struct Access {
    /// Which way it goes.
    pub transfer: Transfer,
    /// The address that it names.
    pub address: u32,
    /// The first of the addresses that it takes.
    pub first: u64,
    /// The last of them.
    pub last: u64,
}

/// What the next instruction of a context loads or stores.
#[tactic(auto, unfolding(crate::specs::Footprint::access_of))]
pub(crate) fn access_of(board: &Board, context: &Context) -> Option<Access>
    ensures { result ≡ access_of context.now board.now.memory }
{
    access_by(context, &insn_of(board, context))
}

/// The next instruction of a context.
pub(crate) fn insn_of(board: &Board, context: &Context) -> Option<Insn>
    ensures { result ≡ stands_for (word_at board.now.memory context.now.pc) }
{
    stands_for(board.aligned_word(context.pc()))
}

/// The instruction that a word stands for.
fn stands_for(word: Option<u32>) -> Option<Insn>
    ensures { result ≡ stands_for word }
{
    match word {
        Some(word) => decode(word),
        None => None,
    }
}

/// What an instruction loads or stores.
fn access_by(context: &Context, insn: &Option<Insn>) -> Option<Access>
    ensures { result ≡ access_by context.now insn.now }
{
    match *insn {
        Some(insn) => access_in(context, shape_of(&insn).access),
        None => None,
    }
}

/// What an access takes.
fn access_in(context: &Context, access: Option<MemoryAccess>) -> Option<Access>
    ensures { result ≡ access_in context.now access }
{
    let MemoryAccess {
        transfer,
        size,
        base,
        offset,
    } = access?;
    let address = context.address(base, offset);
    Some(Access {
        transfer,
        address,
        first: first_of(size, address),
        last: last_of(size, address),
    })
}

/// The first address that an access of this size takes: of a part of an unaligned word the aligned word counts.
fn first_of(size: AccessSize, address: u32) -> u64
    ensures { result ≡ first_of size address }
{
    let first = match size {
        AccessSize::Byte | AccessSize::Halfword | AccessSize::Word => address,
        AccessSize::LeftPart | AccessSize::RightPart => address - address % 4,
    };
    u64::from(first)
}

/// The last one.
fn last_of(size: AccessSize, address: u32) -> u64
    ensures { result ≡ last_of size address }
{
    let more = match size {
        AccessSize::Byte => 0,
        AccessSize::Halfword => 1,
        AccessSize::Word | AccessSize::LeftPart | AccessSize::RightPart => 3,
    };
    first_of(size, address) + more
}
