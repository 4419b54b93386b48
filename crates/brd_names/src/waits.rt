//! What tasks wait for, and their states, in words.

ghost use Rattle.std.specs.Prelude.{◌≡◌, ◌++◌, IfOk, OnOk};
ghost use Rattle.brd_timeline.specs.Ends.{EndsWith};
ghost use Rattle.brd_names.specs.Waits.{state_text, kind_text, reason_text, due_text, wait_text};

use crate::text::{put, put_named};
use brd_base::NoMemory;
use brd_board::{TaskState, WaitKind, WaitReason};
use std::alloc::Global;

/// The name of a state.
pub fn state_name(state: TaskState) -> &'static str
    ensures { result.now ≡ state_text state }
{
    match state {
        TaskState::Dormant => "dormant",
        TaskState::Ready => "ready",
        TaskState::Waiting => "waiting",
        TaskState::Suspended => "suspended",
        TaskState::WaitingSuspended => "waiting-suspended",
    }
}

/// What is waited for of an object; its ID follows.
fn wait_name(kind: WaitKind) -> &'static str
    ensures { result.now ≡ kind_text kind }
{
    match kind {
        WaitKind::Semaphore => "for semaphore",
        WaitKind::Flag => "for event flag",
        WaitKind::Room => "to send to data queue",
        WaitKind::Datum => "to receive from data queue",
        WaitKind::Mutex => "for mutex",
        WaitKind::Block => "for a block of pool",
        WaitKind::Message => "to receive from mailbox",
    }
}

/// Puts at the end what is waited for, and until which tick, where the wait has an end.
pub fn put_wait(
    alloc: Global,
    out: &mut Vec<u8>,
    reason: WaitReason,
    due: Option<u64>,
) -> Result<(), NoMemory>
    ensures { OnOk result (out.new.items ≡ out.old.items ++ wait_text reason due) }
{
    put(out, "waits ")?;
    put_reason(alloc, out, reason)?;
    put_due(alloc, out, due)
}

/// Puts at the end what is waited for.
fn put_reason(alloc: Global, out: &mut Vec<u8>, reason: WaitReason) -> Result<(), NoMemory>
    ensures { OnOk result (out.new.items ≡ out.old.items ++ reason_text reason) }
{
    match reason {
        WaitReason::Sleep => put(out, "for a wake-up"),
        WaitReason::Delay => put(out, "for time to pass"),
        WaitReason::On(kind, id) => put_named(alloc, out, wait_name(kind), u64::from(id)),
    }
}

/// Puts at the end until which tick a task waits, where the wait has an end.
fn put_due(alloc: Global, out: &mut Vec<u8>, due: Option<u64>) -> Result<(), NoMemory>
    ensures { OnOk result (out.new.items ≡ out.old.items ++ due_text due) }
{
    match due {
        Some(tick) => put_named(alloc, out, ", until tick", tick),
        None => Ok(()),
    }
}
