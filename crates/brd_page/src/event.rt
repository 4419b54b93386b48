//! How an event stands among the data.

use crate::changes::{put_differences, put_hi, put_lo, put_register, put_slot};
use crate::data::Json;
use brd_base::NoMemory;
use brd_exec::Context;
use brd_happening::{Access, AccessKind, Answer, Happening, Instruction, What};

/// Puts at the end what an instruction wrote and accessed, and where its processor goes on, unless that is behind it.
pub(crate) fn put_instruction(
    json: &mut Json,
    done: &Instruction,
    before: &Context,
    after: &Context,
) -> Result<(), NoMemory> {
    json.key("r")?;
    json.begin_list()?;
    if let Some(written) = done.register {
        let number = u64::from(written.register.number());
        put_register(json, number, written.word.new)?;
    }
    if let Some(change) = done.hi {
        put_hi(json, change.new)?;
    }
    if let Some(change) = done.lo {
        put_lo(json, change.new)?;
    }
    put_slot(json, before, after)?;
    json.end_list()?;
    put_next(json, before, after)?;
    match done.access {
        Some(access) => put_access(json, access),
        None => Ok(()),
    }
}

/// Puts the registers at the end that a call has changed, and its answer.
pub(crate) fn put_call(
    json: &mut Json,
    answered: bool,
    before: &Context,
    after: &Context,
) -> Result<(), NoMemory> {
    let written = if answered { Some(2) } else { None };
    json.key("r")?;
    json.begin_list()?;
    put_differences(json, before, after, written)?;
    json.end_list()?;
    put_next(json, before, after)
}

/// Puts at the end where a processor goes on, unless that is behind the instruction.
fn put_next(json: &mut Json, before: &Context, after: &Context) -> Result<(), NoMemory> {
    if after.pc() == before.pc().wrapping_add(4) {
        return Ok(());
    }
    json.member("p", u64::from(after.pc()))
}

/// Puts a load or a store at the end: the address of the word, what was there, and of a store what is there then.
fn put_access(json: &mut Json, access: Access) -> Result<(), NoMemory> {
    let Some(change) = access.word else {
        return Ok(());
    };
    json.key("m")?;
    json.begin_list()?;
    json.word(word_of(access))?;
    json.word(change.old)?;
    if is_store(access.kind) {
        json.word(change.new)?;
    }
    json.end_list()
}

/// The address of the word that an access is to.
pub(crate) fn word_of(access: Access) -> u32 {
    access.address - access.address % 4
}

/// Whether an access stores.
fn is_store(kind: AccessKind) -> bool {
    matches!(kind, AccessKind::Stores | AccessKind::StoresIfLinked(true))
}

/// Whether an event is a call that was answered.
pub(crate) fn is_answered(what: &What) -> bool {
    match *what {
        What::Call(call) => matches!(call.answer, Answer::Given { .. }),
        _ => false,
    }
}

/// Whether nothing has happened in an event but that time has passed: nothing at all, a tick that releases nobody and
/// at which no time handler is due, or a call that is to be made again.
pub(crate) fn is_quiet(happening: &Happening) -> bool {
    match happening.what {
        What::Nothing(_) => true,
        What::Tick(_) => happening.released.is_empty() && happening.rung.is_empty(),
        What::Call(call) => matches!(call.answer, Answer::Again),
        _ => false,
    }
}
