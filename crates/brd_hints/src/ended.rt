//! What is said of a board after a run: tasks that have ended by exceptions or have run off the end of the program, and
//! stacks that have overflowed.

ghost use Rattle.std.specs.Prelude.{◌≡◌, IfSome};
ghost use Rattle.brd_exec.specs.State.{read};

use crate::finding::{Finding, told};
use crate::hint::FaultHint;
use brd_base::BASE;
use brd_board::{Board, Fault, Standing, TaskState};
use brd_exec::{Context, ExceptionCode};
use brd_isa::{Register, decode, register_name};
use brd_mem::{Image, Segment};

/// What is said of a task that an exception has ended.
const ENDED: &[u8] = b"task ? has ended by an exception, ~ at @: trace --summary says more";

/// The same, where its function has returned to 0, as $ra is in the beginning.
const RETURNED: &[u8] =
    b"task ? has ended by an exception, ~ at @: its function has returned (end it by ext_tsk or ext_ker)";

/// The same, where a jump may have led there by a register.
const HELD: &[u8] =
    b"task ? has ended by an exception, ~ at @, which is in $^: trace --summary says more";

/// The same, where it went on through all of RAM.
const RAN_OFF: &[u8] =
    b"task ? has ended by an exception, ~ at @, behind all of RAM: it may have run off the end of the program";

/// The same, where what lies there is no instruction.
const DATA: &[u8] =
    b"task ? has ended by an exception, ~ at @, where no instruction lies: trace --summary says more";

/// The last exception of a processor, and whom it has ended or stopped: nothing where there was none.
pub fn end_warning(board: &Board, cpu: u8) -> FaultHint {
    let Some(fault) = board.last_fault(cpu) else {
        return FaultHint::none();
    };
    let stopped = matches!(board.standing(cpu), Some(Standing::Stopped));
    let found = if stopped {
        let template =
            b"processor ? is stopped by an exception of its handler, ~ at @: trace --summary says more";
        Finding::at(&[], template, name_of(fault.code)).with_number(cpu as u64)
    } else if let Some(id) = task_of(board, cpu, fault) {
        of_task(board, id, fault).with_number(id as u64)
    } else {
        let template =
            b"a task of processor ? has ended by an exception, ~ at @: trace --summary says more";
        Finding::at(&[], template, name_of(fault.code)).with_number(cpu as u64)
    };
    let found = found.with_address(place_of(fault) as u64);
    told(b"the run", None, None, Some(found))
}

/// What is said of a task that an exception has ended.
fn of_task(board: &Board, id: u16, fault: Fault) -> Finding<'static> {
    let name = name_of(fault.code);
    let place = place_of(fault);
    let ended = Finding::at(&[], ENDED, name);
    let Some(task) = board.task(id) else {
        return ended;
    };
    if is_data(board, fault) {
        return Finding::at(&[], DATA, name);
    }
    if !is_fetch(fault) {
        return ended;
    }
    if place == 0 && task.context.read(Register::low(31)) == 0 {
        return Finding::at(&[], RETURNED, name);
    }
    if let Some(register) = holder(&task.context, place) {
        return Finding::at(&[], HELD, name).with_other(register_name(register));
    }
    if is_end(board, place) {
        return Finding::at(&[], RAN_OFF, name);
    }
    ended
}

/// Whether an exception is one of a word that stands for no instruction.
fn is_data(board: &Board, fault: Fault) -> bool {
    match (fault.code, board.aligned_word(place_of(fault))) {
        (ExceptionCode::RI, Some(word)) => decode(word).is_none(),
        _ => false,
    }
}

/// Whether an exception is one of a fetch.
fn is_fetch(fault: Fault) -> bool {
    match fault.code {
        ExceptionCode::IBE => true,
        ExceptionCode::AdEL => place_of(fault) % 4 != 0,
        _ => false,
    }
}

/// The number of $sp, which has the end of RAM in the beginning, where no stack was placed.
const SP: u32 = 29;

/// The register that has this word, if one alone has it beside $sp.
fn holder(context: &Context, word: u32) -> Option<Register>
    ensures { IfSome result (λ register. read context.now register ≡ word) }
{
    let mut found = None;
    for number in 1..32u32 {
        let register = Register::low(number);
        if number != SP && context.read(register) == word {
            if found.is_some() {
                return None;
            }
            found = Some(register);
        }
    }
    found
}

/// Whether RAM ends before an address.
fn is_end(board: &Board, address: u32) -> bool {
    board.aligned_word(address).is_none() && board.aligned_word(address.wrapping_sub(4)).is_some()
}

/// That a task goes on, or has ended, at an address of RAM at which nothing of the program lies, nor before it: nothing
/// if that isn't so.
pub fn runaway_warning(image: &Image, board: &Board, id: u16) -> FaultHint {
    let Some(place) = ready_or_ended(board, id) else {
        return FaultHint::none();
    };
    let segments = image.segments.as_slice();
    let is_loaded = lies_in(segments, place) || lies_in(segments, place.wrapping_sub(4));
    if place < BASE || is_loaded {
        return FaultHint::none();
    }
    let template =
        b"task ? has run off the end of the program: nothing of it lies at @ (end it by ext_tsk or ext_ker)";
    let found = Finding::at(&[], template, &[])
        .with_number(id as u64)
        .with_address(place as u64);
    told(b"the run", None, None, Some(found))
}

/// Where a task goes on, or has ended.
fn ready_or_ended(board: &Board, id: u16) -> Option<u32> {
    let task = board.task(id)?;
    match task.state {
        TaskState::Ready | TaskState::Dormant => Some(task.context.pc()),
        _ => None,
    }
}

/// Whether an address lies in one of some segments.
fn lies_in(segments: &[Segment], address: u32) -> bool {
    for segment in segments {
        let is_behind = segment.address <= address;
        if is_behind && ((address - segment.address) as usize) < segment.bytes.len() {
            return true;
        }
    }
    false
}

/// Whose stack a strand's is, and its number: that of a task, of an interrupt line, or from line 32 on of a cyclic
/// handler, whose line is 30 + 2C, or an alarm handler, whose line is 31 + 2A.
fn owner_of(strand: u16) -> (&'static [u8], u64) {
    if strand < 256 {
        return (b"task", strand as u64);
    }
    if strand < 288 {
        return (b"the handler of line", (strand - 256) as u64);
    }
    if strand % 2 == 0 {
        return (b"cyclic handler", (strand as u64 - 286) / 2);
    }
    (b"alarm handler", (strand as u64 - 287) / 2)
}

/// That the stack of a strand, a task's ID or 256 and a handler's line, has overflowed at an event.
pub fn overflow_warning(strand: u16, event: u64, place: u32) -> FaultHint {
    let template = b"stack overflow of ^ ? at event &, at @: trace --stacks says more";
    let (owner, number) = owner_of(strand);
    let found = Finding::at(&[], template, &[])
        .with_other(owner)
        .with_number(number)
        .with_second(event)
        .with_address(place as u64);
    told(b"the run", None, None, Some(found))
}

/// The address of the instruction that has raised an exception.
fn place_of(fault: Fault) -> u32 {
    if fault.bd {
        fault.epc.wrapping_add(4)
    } else {
        fault.epc
    }
}

/// The task of a processor that is dormant, and has come no further than this exception.
fn task_of(board: &Board, cpu: u8, fault: Fault) -> Option<u16> {
    for id in 1..256u16 {
        if let Some(task) = board.task(id) {
            let is_here = task.cpu == cpu && task.context.pc() == place_of(fault);
            if is_here && matches!(task.state, TaskState::Dormant) {
                return Some(id);
            }
        }
    }
    None
}

/// The name of an exception.
fn name_of(code: ExceptionCode) -> &'static [u8] {
    match code {
        ExceptionCode::AdEL => b"AdEL",
        ExceptionCode::AdES => b"AdES",
        ExceptionCode::IBE => b"IBE",
        ExceptionCode::DBE => b"DBE",
        ExceptionCode::Bp => b"Bp",
        ExceptionCode::RI => b"RI",
        ExceptionCode::Ov => b"Ov",
        ExceptionCode::Tr => b"Tr",
    }
}
