//! The bytes of memory that an instruction loads, and those that it stores.

ghost use Rattle.std.specs.Prelude.{◌≡◌};
ghost use Rattle.brd_exec.specs.Accessed.{
  left_part,
  loaded_by,
  reads_by,
  right_part,
  span_from,
  span_in,
  span_of,
  span_up_to,
  stored_by,
  writes_by,
};

use crate::context::Context;
use brd_isa::{AccessSize, Insn, MemoryAccess, shape_of};
use brd_word::Order;

/// Bytes that lie one after the other.
#[derive(Clone, Copy, PartialEq, Eq)]
pub struct Span {
    /// The address of the first.
    pub first: u32,
    /// How many.
    pub count: u32,
}

/// What an instruction reads of memory, with these registers, if it reads.
#[inline(always)]
pub fn reads_by(order: Order, insn: &Insn, context: &Context) -> Option<Span>
    ensures { result ≡ reads_by order insn.now context.now }
{
    loaded_by(order, context, shape_of(insn).access)
}

/// What an instruction writes to memory, with these registers, if it writes: an SC too, also where it doesn't store.
#[inline(always)]
pub fn writes_by(order: Order, insn: &Insn, context: &Context) -> Option<Span>
    ensures { result ≡ writes_by order insn.now context.now }
{
    stored_by(order, context, shape_of(insn).access)
}

/// What an access loads.
fn loaded_by(order: Order, context: &Context, access: Option<MemoryAccess>) -> Option<Span>
    ensures { result ≡ loaded_by order context.now access }
{
    let access = access?;
    if access.transfer.does_load() {
        return Some(span_in(order, context, access));
    }
    None
}

/// What an access stores.
fn stored_by(order: Order, context: &Context, access: Option<MemoryAccess>) -> Option<Span>
    ensures { result ≡ stored_by order context.now access }
{
    let access = access?;
    if access.transfer.does_store() {
        return Some(span_in(order, context, access));
    }
    None
}

/// The bytes that an access takes.
fn span_in(order: Order, context: &Context, access: MemoryAccess) -> Span
    ensures { result ≡ span_in order context.now access }
{
    span_of(
        order,
        access.size,
        context.address(access.base, access.offset),
    )
}

/// The bytes of an access of this size, at an address.
fn span_of(order: Order, size: AccessSize, address: u32) -> Span
    ensures { result ≡ span_of order size address }
{
    let count = match size {
        AccessSize::Byte => 1,
        AccessSize::Halfword => 2,
        AccessSize::Word => 4,
        AccessSize::LeftPart => return left_part(order, address),
        AccessSize::RightPart => return right_part(order, address),
    };
    Span {
        first: address,
        count,
    }
}

/// The bytes of the left part of an unaligned word.
fn left_part(order: Order, address: u32) -> Span
    ensures { result ≡ left_part order address }
{
    match order {
        Order::Big => span_from(address),
        Order::Little => span_up_to(address),
    }
}

/// The bytes of its right part.
fn right_part(order: Order, address: u32) -> Span
    ensures { result ≡ right_part order address }
{
    match order {
        Order::Big => span_up_to(address),
        Order::Little => span_from(address),
    }
}

/// The bytes of an aligned word up to the one at an address.
fn span_up_to(address: u32) -> Span
    ensures { result ≡ span_up_to address }
{
    Span {
        first: address - address % 4,
        count: address % 4 + 1,
    }
}

/// The bytes of an aligned word from the one at an address on.
fn span_from(address: u32) -> Span
    ensures { result ≡ span_from address }
{
    Span {
        first: address,
        count: 4 - address % 4,
    }
}
