//! Why the board stands where it is.

ghost use Rattle.std.specs.Prelude.{◌≡◌, ◌++◌, codes, Some, OnOk};
ghost use Rattle.brd_text.specs.Hex.{hex_of};
ghost use Rattle.brd_stub.specs.Halting.{
  signal_of_code,
  signal_of,
  break_name,
  watch_name,
  reason_text,
  signal_text,
  thread_text,
  halt_text,
};
ghost use Rattle.brd_stub.specs.Moving.{shows, stops, passes, is_told_behind};
ghost use Rattle.brd_stub.specs.Reasons.{
  thread_of,
  break_of,
  exception_of,
  touched_by,
  or_touched,
  watched,
  hides_break,
  hides_exception,
  hides_watch,
  told_ahead,
  reason_for,
  changed,
};

use crate::points::{Point, changed, kind_at, touched};
use crate::thread_texts::show_thread;
use crate::threads::{Thread, Whose, thread_on};
use brd_base::NoMemory;
use brd_board::{Board, Event, Report};
use brd_debug::{Look, read_on, written_on};
use brd_exec::ExceptionCode;
use brd_gdb::{PointKind, put_hex};
use brd_text::hex_digits;

/// Why the board stands where it is.
#[derive(Clone, Copy, PartialEq, Eq)]
pub enum Reason {
    /// A step is done, or nothing has moved yet.
    Done,
    /// The next instruction is at a break of this kind.
    Break(PointKind),
    /// The same, and it is the instruction of a watch that was told before.
    WatchedBreak(PointKind),
    /// The next instruction raises an exception.
    Exception(ExceptionCode),
    /// A watched byte changes, or is read or written, as the point's kind says: forward by the next event, backward by
    /// the last one. The point's address.
    Watch(PointKind, u32),
    /// It was asked to stop.
    Interrupt,
    /// The journal begins here.
    Begin,
    /// The journal ends here.
    End,
}

/// What was told last, and isn't told again before something has moved.
#[derive(Clone, Copy, PartialEq, Eq)]
pub enum Told {
    /// Nothing.
    Nothing,
    /// That the next event is at a break.
    Break,
    /// That the next event raises an exception.
    Exception,
    /// That the next event changes, reads or writes a watched byte.
    Watch,
    /// That the last event has done so.
    WatchBehind,
}

/// Why, and in which thread.
#[derive(Clone, Copy, PartialEq, Eq)]
pub struct Halt {
    /// The thread.
    pub thread: Thread,
    /// Why.
    pub reason: Reason,
}

/// How a move has ended.
#[derive(Clone, Copy, PartialEq, Eq)]
pub struct Stop {
    /// Why, and in which thread.
    pub halt: Halt,
    /// What was told.
    pub told: Told,
}

/// Whether a break of the next event was told.
fn hides_break(told: Told) -> bool
    ensures { result ≡ hides_break told }
{
    match told {
        Told::Nothing | Told::WatchBehind => false,
        Told::Break | Told::Exception | Told::Watch => true,
    }
}

/// Whether an exception of the next event was told.
fn hides_exception(told: Told) -> bool
    ensures { result ≡ hides_exception told }
{
    match told {
        Told::Nothing | Told::WatchBehind | Told::Break => false,
        Told::Exception | Told::Watch => true,
    }
}

/// Whether a watch of the next event was told.
fn hides_watch(told: Told) -> bool
    ensures { result ≡ hides_watch told }
{
    match told {
        Told::Nothing | Told::WatchBehind | Told::Break | Told::Exception => false,
        Told::Watch => true,
    }
}

/// Whether a move stops before the next event, of which this was told.
pub fn shows(told: Told, look: &Look) -> bool
    ensures { result ≡ shows told look.now }
{
    !hides_break(told) && look.breaks
        || !hides_exception(told) && look.faults
        || !hides_watch(told) && look.touches
}

/// Whether a move stops before the next event, of which this was told, or after it.
pub fn stops(told: Told, look: &Look) -> bool
    ensures { result ≡ stops told look.now }
{
    shows(told, look) || look.stepped
}

/// Whether a move back passes over an event, the watch of which was told or not.
pub fn passes(is_told: bool, look: &Look) -> bool
    ensures { result ≡ passes is_told (Some look.now) }
{
    is_told && !look.breaks && !look.faults && !look.stepped
}

/// Whether the watch of the event before a position was told, from which a move has gone back by so many events.
pub fn is_told_behind(told: Told, back: u64) -> bool
    ensures { result ≡ is_told_behind told back }
{
    match told {
        Told::WatchBehind => back == 1,
        Told::Nothing | Told::Break | Told::Exception | Told::Watch => false,
    }
}

/// What is told of the next event, of which this was told.
pub fn told_ahead(told: Told, look: &Look) -> Told
    ensures { result ≡ told_ahead told look.now }
{
    if look.breaks && !hides_break(told) {
        return Told::Break;
    }
    if look.faults && !hides_exception(told) {
        return Told::Exception;
    }
    Told::Watch
}

/// The thread whose step an event is that comes to a board; of another event the one that was chosen.
pub fn thread_of(last: Whose, board: &Board, event: Event) -> Thread
    ensures { result ≡ thread_of last board.now event }
{
    match event {
        Event::Step(cpu) => thread_on(last.kind, board, cpu, last.thread),
        Event::Tick | Event::Raise(_) => last.thread,
    }
}

/// Why a move stops before the next event, of which this is told.
pub fn reason_for(told: Told, points: &[Point], board: &Board, look: &Look) -> Reason
    ensures { result ≡ reason_for told points.now board.now look.now }
{
    match told {
        Told::Break => Reason::Break(break_of(points, look.report)),
        Told::Exception => exception_of(look.event, &look.board),
        Told::Nothing | Told::Watch | Told::WatchBehind => watched(points, board, look),
    }
}

/// Which watched byte an event changes, reads or writes, by the board before it.
pub fn watched(points: &[Point], board: &Board, look: &Look) -> Reason
    ensures { result ≡ watched points.now board.now look.now }
{
    match watch_of(points, board, look) {
        Some(point) => Reason::Watch(point.kind, point.address),
        None => Reason::Done,
    }
}

/// The watch that an event meets, by the board before it.
fn watch_of(points: &[Point], board: &Board, look: &Look) -> Option<Point>
    ensures { result
        ≡ or_touched (changed points.now board.now.memory look.now.board.memory)
        (touched_by points.now board.now look.now.event) }
{
    if let Some(point) = changed(points, board, &look.board) {
        return Some(point);
    }
    let Event::Step(cpu) = look.event else {
        return None;
    };
    touched(points, read_on(board, cpu), written_on(board, cpu))
}

/// The kind of the break at the instruction that an event executes.
fn break_of(points: &[Point], report: Report) -> PointKind
    ensures { result ≡ break_of points.now report }
{
    let found = match report {
        Report::Ran(address) | Report::Called(address) | Report::Faulted(address) => {
            kind_at(points, address)
        }
        _ => None,
    };
    found.unwrap_or(PointKind::SoftwareBreak)
}

/// Which exception an event has raised that has left a board.
fn exception_of(event: Event, after: &Board) -> Reason
    ensures { result ≡ exception_of event after.now }
{
    let Event::Step(cpu) = event else {
        return Reason::Done;
    };
    match after.last_fault(cpu) {
        Some(fault) => Reason::Exception(fault.code),
        None => Reason::Done,
    }
}

/// Puts the reply at the end that tells a stop.
pub fn show_halt(out: &mut Vec<u8>, halt: Halt) -> Result<(), NoMemory>
    ensures { OnOk result (out.new.items ≡ out.old.items ++ halt_text halt) }
{
    show_signal(out, halt.reason)?;
    show_halted(out, halt.thread)?;
    show_reason(out, halt.reason)
}

/// Puts the signal of a reason at the end.
fn show_signal(out: &mut Vec<u8>, reason: Reason) -> Result<(), NoMemory>
    ensures { OnOk result (out.new.items ≡ out.old.items ++ signal_text reason) }
{
    out.extend_from_slice(b"T")?;
    put_hex(out, &[signal_of(reason)])
}

/// Puts a thread at the end.
fn show_halted(out: &mut Vec<u8>, thread: Thread) -> Result<(), NoMemory>
    ensures { OnOk result (out.new.items ≡ out.old.items ++ thread_text thread) }
{
    out.extend_from_slice(b"thread:")?;
    show_thread(out, thread)?;
    out.extend_from_slice(b";")?;
    Ok(())
}

/// Puts at the end what a reason adds to a reply.
fn show_reason(out: &mut Vec<u8>, reason: Reason) -> Result<(), NoMemory>
    ensures { OnOk result (out.new.items ≡ out.old.items ++ reason_text reason) }
{
    let text: &[u8] = match reason {
        Reason::Done | Reason::Exception(_) | Reason::Interrupt => b"",
        Reason::Break(kind) => break_name(kind),
        Reason::WatchedBreak(kind) => break_name(kind),
        Reason::Begin => b"replaylog:begin;",
        Reason::End => b"replaylog:end;",
        Reason::Watch(kind, address) => return show_watch(out, kind, address),
    };
    out.extend_from_slice(text)?;
    Ok(())
}

/// Puts at the end which watch it is.
fn show_watch(out: &mut Vec<u8>, kind: PointKind, address: u32) -> Result<(), NoMemory>
    ensures { OnOk result (out.new.items ≡ out.old.items ++ watch_name kind ++ hex_of address ++ codes ";") }
{
    out.extend_from_slice(watch_name(kind))?;
    out.extend_from_slice(&hex_digits(address))?;
    out.extend_from_slice(b";")?;
    Ok(())
}

/// The name of a break.
fn break_name(kind: PointKind) -> &'static [u8]
    ensures { result.now ≡ break_name kind }
{
    match kind {
        PointKind::HardwareBreak => b"hwbreak:;",
        PointKind::SoftwareBreak
        | PointKind::WriteWatch
        | PointKind::ReadWatch
        | PointKind::AccessWatch => b"swbreak:;",
    }
}

/// The name of a watch.
fn watch_name(kind: PointKind) -> &'static [u8]
    ensures { result.now ≡ watch_name kind }
{
    match kind {
        PointKind::ReadWatch => b"rwatch:",
        PointKind::AccessWatch => b"awatch:",
        PointKind::WriteWatch | PointKind::SoftwareBreak | PointKind::HardwareBreak => b"watch:",
    }
}

/// The signal of a reason, by its number in GDB's protocol.
fn signal_of(reason: Reason) -> u8
    ensures { result ≡ signal_of reason }
{
    match reason {
        Reason::Exception(code) => signal_of_code(code),
        Reason::Interrupt => 2,
        Reason::Done
        | Reason::Break(_)
        | Reason::WatchedBreak(_)
        | Reason::Watch(_, _)
        | Reason::Begin
        | Reason::End => 5,
    }
}

/// The signal of an exception.
fn signal_of_code(code: ExceptionCode) -> u8
    ensures { result ≡ signal_of_code code }
{
    match code {
        ExceptionCode::AdEL | ExceptionCode::AdES => 10,
        ExceptionCode::IBE | ExceptionCode::DBE => 11,
        ExceptionCode::RI => 4,
        ExceptionCode::Ov => 8,
        ExceptionCode::Bp | ExceptionCode::Tr => 5,
    }
}
