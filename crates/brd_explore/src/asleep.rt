//! Who sleeps: whose next step a search leaves out.

ghost use Rattle.std.specs.Prelude.{◌≡◌};
ghost use Rattle.brd_board.specs.Board.{happens, standing_of};
ghost use Rattle.brd_explore.specs.Sleeping.{
  apart_from,
  are_apart,
  asleep_after,
  asleep_by,
  code_at,
  executes,
  falls_asleep,
  has_run,
  is_kept,
  sleeps,
  task_in,
};

use brd_board::{Board, Event, Report, Standing, TaskId};
use brd_isa::{decode, is_local};
use brd_word::word_of;

/// A processor whose last instruction touched nothing but registers.
#[derive(Clone, Copy, PartialEq, Eq)]
pub struct Asleep {
    /// Its number.
    pub(crate) cpu: u8,
    /// The instruction's address.
    pub(crate) address: u32,
    /// The instruction.
    pub(crate) word: u32,
}

/// Does an event to a board where somebody sleeps. Answers what it reports, and who sleeps then.
#[tactic(auto, unfolding(crate::specs::Sleeping::asleep_after))]
pub(crate) fn happen(
    board: &mut Board,
    asleep: Option<Asleep>,
    event: Event,
) -> (Report, Option<Asleep>)
    ensures done { record { board = board.new; report = result.0 } ≡ happens board.old event }
    ensures asleep { result.1 ≡ asleep_after board.old asleep event }
{
    let Event::Step(cpu) = event else {
        return (board.event_apart(event), None);
    };
    let falls = falls_asleep(board, cpu);
    let was = apart_from(board, cpu, asleep);
    let report = board.event_apart(event);
    if !has_run(report) {
        return (report, None);
    }
    let asleep = if is_kept(board, was) { was } else { falls };
    (report, asleep)
}

/// Who falls asleep by a processor's next step, if that executes an instruction.
#[tactic(auto, unfolding(crate::specs::Sleeping::falls_asleep))]
fn falls_asleep(board: &Board, cpu: u8) -> Option<Asleep>
    ensures { result ≡ falls_asleep board.now cpu }
{
    let address = board.registers(cpu)?.pc();
    let word = code_at(board, address)?;
    asleep_by(cpu, address, word)
}

/// How a processor falls asleep by an instruction, if it is local.
fn asleep_by(cpu: u8, address: u32, word: u32) -> Option<Asleep>
    ensures { result ≡ asleep_by cpu address (Some word) }
{
    if is_local(decode(word)?) {
        Some(Asleep { cpu, address, word })
    } else {
        None
    }
}

/// Who sleeps, if it may sleep on over a step of a processor: if that is another one.
fn apart_from(board: &Board, cpu: u8, asleep: Option<Asleep>) -> Option<Asleep>
    ensures { result ≡ apart_from board.now cpu asleep }
{
    let asleep = asleep?;
    if asleep.cpu != cpu && are_apart(board, asleep.cpu, cpu) {
        Some(asleep)
    } else {
        None
    }
}

/// Whether two processors don't run one task.
#[tactic(auto, unfolding(crate::specs::Sleeping::are_apart))]
fn are_apart(board: &Board, one: u8, other: u8) -> bool
    ensures { result ≡ are_apart board.now one other }
{
    match (task_on(board, one), task_on(board, other)) {
        (Some(one), Some(other)) => one != other,
        _ => true,
    }
}

/// The task that a processor runs.
fn task_on(board: &Board, cpu: u8) -> Option<TaskId>
    ensures { result ≡ task_in (standing_of board.now cpu) }
{
    match board.standing(cpu)? {
        Standing::Task(id) => Some(id),
        Standing::Idle | Standing::Stopped | Standing::Handler(_) => None,
    }
}

/// Whether the word of who sleeps is still there.
fn is_kept(board: &Board, asleep: Option<Asleep>) -> bool
    ensures { result ≡ is_kept board.now asleep }
{
    let Some(asleep) = asleep else {
        return false;
    };
    match code_at(board, asleep.address) {
        Some(word) => word == asleep.word,
        None => false,
    }
}

/// The word at an address that is a multiple of 4, where RAM has its four bytes.
#[tactic(auto, unfolding(crate::specs::Sleeping::code_at))]
fn code_at(board: &Board, address: u32) -> Option<u32>
    ensures { result ≡ code_at board.now address }
{
    if address % 4 != 0 {
        return None;
    }
    let bytes = [
        board.memory(address)?,
        board.memory(address + 1)?,
        board.memory(address + 2)?,
        board.memory(address + 3)?,
    ];
    Some(word_of(bytes, board.order()))
}

/// Whether a report says that an instruction was executed, and went on.
fn has_run(report: Report) -> bool
    ensures { result ≡ has_run report }
{
    match report {
        Report::Ran(_) => true,
        Report::Off
        | Report::NoSuch
        | Report::Stopped
        | Report::Idle
        | Report::TimeOver
        | Report::Accepted(_)
        | Report::Called(_)
        | Report::Faulted(_)
        | Report::Ticked
        | Report::Raised => false,
    }
}

/// Whether somebody executes on a processor of a board that is on.
pub(crate) fn executes(board: &Board, cpu: u8) -> bool
    ensures { result ≡ executes board.now cpu }
{
    !board.is_off() && board.registers(cpu).is_some()
}

/// Whether a processor sleeps.
pub(crate) fn sleeps(asleep: Option<Asleep>, cpu: u8) -> bool
    ensures { result ≡ sleeps asleep cpu }
{
    match asleep {
        Some(asleep) => asleep.cpu == cpu,
        None => false,
    }
}
