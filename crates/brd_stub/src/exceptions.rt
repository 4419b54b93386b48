//! What the last exception on a thread's processor was about.

ghost use Rattle.std.specs.Prelude.{◌≡◌};
ghost use Rattle.brd_debug.specs.Touching.{insn_at};
ghost use Rattle.brd_stub.specs.BadAddress.{
  accessed_by,
  accessed_next,
  address_by,
  bad_address,
  first_or,
  loaded_next,
  place_of,
};

use crate::threads::{Thread, context_at, fault_at};
use brd_board::{Board, Fault};
use brd_exec::{Context, ExceptionCode, Span, reads_by, writes_by};
use brd_isa::{Insn, decode};

/// The address that the last exception on a thread's processor was about, if the thread stands at its instruction.
#[tactic(auto, using(crate::proofs::BadLemmas::written_out))]
pub fn bad_address(board: &Board, thread: Thread) -> Option<u32>
    ensures { result ≡ bad_address board.now thread }
{
    let fault = fault_at(board, thread)?;
    let context = context_at(board, thread)?;
    if context.pc() == place_of(fault) {
        return address_by(board, &context, fault.code);
    }
    None
}

/// Where the instruction of an exception lies: in a delay slot behind the branch.
fn place_of(fault: Fault) -> u32
    ensures { result ≡ place_of fault }
{
    if fault.bd {
        return fault.epc.wrapping_add(4);
    }
    fault.epc
}

/// The address that an exception is about which the next instruction of a context raises.
fn address_by(board: &Board, context: &Context, code: ExceptionCode) -> Option<u32>
    ensures { result ≡ address_by board.now.memory context.now code }
{
    match code {
        ExceptionCode::AdEL => loaded_next(board, context),
        ExceptionCode::AdES | ExceptionCode::DBE => accessed_next(board, context),
        ExceptionCode::IBE => Some(context.pc()),
        ExceptionCode::Bp | ExceptionCode::RI | ExceptionCode::Ov | ExceptionCode::Tr => None,
    }
}

/// The address from which the next instruction of a context is fetched, if it isn't aligned, else of what it accesses.
fn loaded_next(board: &Board, context: &Context) -> Option<u32>
    ensures { result ≡ loaded_next board.now.memory context.now }
{
    if context.pc() % 4 == 0 {
        return accessed_next(board, context);
    }
    Some(context.pc())
}

/// The first byte that the next instruction of a context reads or writes.
fn accessed_next(board: &Board, context: &Context) -> Option<u32>
    ensures { result ≡ accessed_next board.now.memory context.now }
{
    accessed_by(board, context, insn_at(board, context.pc()))
}

/// The first byte that an instruction reads or writes.
fn accessed_by(board: &Board, context: &Context, insn: Option<Insn>) -> Option<u32>
    ensures { result ≡ accessed_by board.now.memory.order context.now insn }
{
    let insn = insn?;
    let order = board.order();
    first_or(
        reads_by(order, &insn, context),
        writes_by(order, &insn, context),
    )
}

/// The first byte of what is read, else of what is written.
fn first_or(read: Option<Span>, written: Option<Span>) -> Option<u32>
    ensures { result ≡ first_or read written }
{
    match (read, written) {
        (Some(read), _) => Some(read.first),
        (None, Some(written)) => Some(written.first),
        (None, None) => None,
    }
}

/// The instruction that stands at an address.
fn insn_at(board: &Board, address: u32) -> Option<Insn>
    ensures { result ≡ insn_at board.now.memory address }
{
    let word = board.word(address)?;
    decode(word)
}
