//! How processors and tasks stand among the data.

use crate::data::Json;
use crate::seen::{ProcessorSeen, TaskSeen};
use brd_base::NoMemory;
use brd_board::{Standing, TaskState, WaitKind, WaitReason};
use brd_exec::Context;

/// The numbers of HI and LO, and of whether the next instruction is in a delay slot.
const HI: u64 = 32;

const LO: u64 = 33;

const SLOT: u64 = 34;

/// Puts a processor at the end: its number, who executes there, and where he executes the address of his next
/// instruction and the registers that aren't 0, each as its number and its word.
pub(crate) fn put_processor(json: &mut Json, processor: &ProcessorSeen) -> Result<(), NoMemory> {
    json.begin_list()?;
    json.number(u64::from(processor.number))?;
    put_standing(json, processor.standing)?;
    if let Some(context) = processor.context {
        json.word(context.pc())?;
        put_registers(json, &context)?;
    }
    json.end_list()
}

/// Puts at the end who executes: the kind, and the number of the task or of the line.
fn put_standing(json: &mut Json, standing: Standing) -> Result<(), NoMemory> {
    match standing {
        Standing::Task(id) => {
            json.string(b"task")?;
            json.number(u64::from(id))
        }
        Standing::Handler(line) => {
            json.string(b"handler")?;
            json.number(u64::from(line))
        }
        Standing::Idle => json.string(b"idle"),
        Standing::Stopped => json.string(b"stopped"),
    }
}

/// Puts the registers of a context at the end that aren't 0.
fn put_registers(json: &mut Json, context: &Context) -> Result<(), NoMemory> {
    for number in 1..32u8 {
        put_unless(json, u64::from(number), 0, context.word(number))?;
    }
    put_unless(json, HI, 0, context.hi())?;
    put_unless(json, LO, 0, context.lo())?;
    put_unless(json, SLOT, 0, u32::from(context.slot()))
}

/// Puts the registers at the end that differ in a context from those of the context before it, and another one in any
/// case.
pub(crate) fn put_differences(
    json: &mut Json,
    before: &Context,
    after: &Context,
    written: Option<u8>,
) -> Result<(), NoMemory> {
    for number in 1..32u8 {
        if written == Some(number) {
            put_register(json, u64::from(number), after.word(number))?;
        } else {
            put_unless(
                json,
                u64::from(number),
                before.word(number),
                after.word(number),
            )?;
        }
    }
    put_unless(json, HI, before.hi(), after.hi())?;
    put_unless(json, LO, before.lo(), after.lo())?;
    put_slot(json, before, after)
}

/// Puts at the end whether the next instruction is in a delay slot, if that has changed.
pub(crate) fn put_slot(json: &mut Json, before: &Context, after: &Context) -> Result<(), NoMemory> {
    put_unless(
        json,
        SLOT,
        u32::from(before.slot()),
        u32::from(after.slot()),
    )
}

/// Puts HI at the end.
pub(crate) fn put_hi(json: &mut Json, word: u32) -> Result<(), NoMemory> {
    put_register(json, HI, word)
}

/// Puts LO at the end.
pub(crate) fn put_lo(json: &mut Json, word: u32) -> Result<(), NoMemory> {
    put_register(json, LO, word)
}

/// Puts a register at the end, unless its word is this one still.
fn put_unless(json: &mut Json, number: u64, old: u32, new: u32) -> Result<(), NoMemory> {
    if old == new {
        return Ok(());
    }
    put_register(json, number, new)
}

/// Puts a register at the end: its number and its word.
pub(crate) fn put_register(json: &mut Json, number: u64, word: u32) -> Result<(), NoMemory> {
    json.number(number)?;
    json.word(word)
}

/// Puts a task at the end: its number, its state, its priority, its processor, what it waits for in words with the ID
/// of an object, and the tick at which the wait ends.
pub(crate) fn put_task(json: &mut Json, task: &TaskSeen) -> Result<(), NoMemory> {
    json.begin_list()?;
    json.number(u64::from(task.id))?;
    json.string(state_name(task.state).as_bytes())?;
    json.number(u64::from(task.priority))?;
    json.number(u64::from(task.cpu))?;
    if let Some(reason) = task.waiting {
        put_wait(json, reason)?;
        if let Some(tick) = task.due {
            json.number(tick)?;
        }
    }
    json.end_list()
}

/// Puts at the end what is waited for: the words, and the ID of the object, 0 where there is none.
fn put_wait(json: &mut Json, reason: WaitReason) -> Result<(), NoMemory> {
    let (name, id) = match reason {
        WaitReason::Sleep => ("for a wake-up", 0),
        WaitReason::Delay => ("for time to pass", 0),
        WaitReason::On(WaitKind::Semaphore, id) => ("for semaphore", id),
        WaitReason::On(WaitKind::Flag, id) => ("for event flag", id),
        WaitReason::On(WaitKind::Room, id) => ("to send to data queue", id),
        WaitReason::On(WaitKind::Datum, id) => ("to receive from data queue", id),
        WaitReason::On(WaitKind::Mutex, id) => ("for mutex", id),
        WaitReason::On(WaitKind::Block, id) => ("for a block of pool", id),
        WaitReason::On(WaitKind::Message, id) => ("to receive from mailbox", id),
    };
    json.string(name.as_bytes())?;
    json.number(u64::from(id))
}

/// The name of a state.
fn state_name(state: TaskState) -> &'static str {
    match state {
        TaskState::Dormant => "dormant",
        TaskState::Ready => "ready",
        TaskState::Waiting => "waiting",
        TaskState::Suspended => "suspended",
        TaskState::WaitingSuspended => "waiting-suspended",
    }
}
