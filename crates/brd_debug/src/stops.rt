//! Where a debugger stops.

ghost use Rattle.std.specs.Prelude.{◌≡◌, ◌⊎◌, ◌≤◌, Decides, true, false, length};
ghost use Rattle.brd_debug.specs.Watching.{AreBytesAt, IsSameUnless};
ghost use Rattle.brd_board.specs.Board.{happens, registers_of};
ghost use Rattle.brd_mem.specs.Memory.{Memory as MemoryOf};
ghost use Rattle.brd_debug.specs.Marks.{most_addresses};
ghost use Rattle.brd_debug.specs.Stops.{
  no_stops,
  IsBreak,
  is_step_of,
  is_outside,
  is_step_by,
  is_by,
  is_stepped,
  executes,
  is_fault,
  IsTold,
  Differs,
  Meets,
  concerns,
  is_done,
  moves_on,
  assigned_or,
  processor_of,
  stepped_on,
  goes_on_outside,
  has_come_out,
  is_who,
};
ghost use Rattle.brd_debug.specs.Touching.{touches};

use crate::look::Look;
use crate::marks::{MOST_ADDRESSES, Marks};
use crate::touching::touches;
use brd_board::{Board, Event, Report, Standing};

/// Who is stepped.
#[derive(Clone, Copy, PartialEq, Eq)]
pub enum Stepper {
    /// Each instruction of this processor is a stop.
    Each(u8),
    /// Each instruction of this task or handler is a stop, on whichever processor.
    Of(Standing),
    /// A stop is where whom the processor executes is to go on outside a range, on whichever processor.
    Until {
        /// The processor on which he is executed at first.
        cpu: u8,
        /// Whom it executes. Others whom it executes in the meantime are passed over.
        who: Standing,
        /// The first address of the range.
        start: u32,
        /// The address after the range.
        end: u32,
    },
}

/// Whose events alone are stops.
#[derive(Clone, Copy, PartialEq, Eq)]
pub enum Only {
    /// All are.
    All,
    /// The steps of this processor.
    Processor(u8),
    /// The steps of whom the stepper names.
    Stepped,
}

/// Addresses of instructions, addresses of bytes, and what else is a stop.
#[derive(Drop)]
pub struct Stops {
    /// Where an instruction that is executed is a stop.
    pub breaks: Marks,
    /// Where a byte that changes is a stop.
    pub watches: Marks,
    /// Where an instruction that reads a byte is a stop.
    pub reads: Marks,
    /// Where an instruction that reads or writes a byte is a stop.
    pub accesses: Marks,
    /// Who is stepped, if somebody is.
    pub stepper: Option<Stepper>,
    /// Whether each exception is a stop.
    pub faults: bool,
    /// Whose events alone are stops.
    pub only: Only,
}

/// The bytes at watched addresses, in the order of these; None where RAM has none.
#[derive(Clone, Copy)]
pub struct WatchedBytes {
    /// The bytes.
    pub bytes: [Option<u8>; MOST_ADDRESSES],
}

/// What is seen of an event from the board before it.
#[derive(Clone, Copy)]
pub struct Ahead {
    /// Whether it is a step whose instruction reads or writes a byte where that is a stop.
    pub touches: bool,
    /// Whether it is a step of whom the stepper names.
    pub by: bool,
}

impl Stops {
    /// No stops.
    pub fn new() -> Stops
        ensures { result ≡ no_stops }
    {
        Stops {
            breaks: Marks::new(),
            watches: Marks::new(),
            reads: Marks::new(),
            accesses: Marks::new(),
            stepper: None,
            faults: false,
            only: Only::All,
        }
    }

    /// The bytes that are watched, as a board has them.
    pub fn watched(&self, board: &Board) -> WatchedBytes
        ensures { AreBytesAt self.now.watches board.now.memory result.bytes }
    {
        watched(self.watches.as_slice(), board)
    }

    /// Whether an event that left a board, with this report, is a stop. It may have changed watched bytes, or not; they
    /// are brought up to date. Whose step it is, and whether its instruction touches bytes, was seen before it.
    #[inline(always)]
    pub fn are_met(
        &self,
        event: Event,
        report: Report,
        board: &Board,
        bytes: &mut WatchedBytes,
        may_change: bool,
        ahead: Ahead,
    ) -> bool
        ensures stops { (memory : MemoryOf) → AreBytesAt self.now.watches memory bytes.old.bytes
            → IsSameUnless may_change self.now.watches memory board.now.memory
            → Decides result (Meets self.now event report memory ahead.touches ahead.by board.now) }
        ensures bytes { (memory : MemoryOf) → AreBytesAt self.now.watches memory bytes.old.bytes
            → IsSameUnless may_change self.now.watches memory board.now.memory
            → AreBytesAt self.now.watches board.now.memory bytes.new.bytes }
    {
        let changed = renewed(self.watches.as_slice(), bytes, board, may_change);
        self.are_met_or(event, report, board, changed, ahead)
    }

    /// Whether an event that left a board, with this report, is a stop: by what it is, or since it has changed or
    /// touched bytes.
    #[inline(always)]
    fn are_met_or(
        &self,
        event: Event,
        report: Report,
        board: &Board,
        changed: bool,
        ahead: Ahead,
    ) -> bool
        ensures { Decides result ((concerns self.now.only event ahead.by ≡ true)
            × (IsTold self.now event report ahead.by board.now
            ⊎ ((changed ≡ true) ⊎ (is_done ahead.touches report ≡ true)))) }
    {
        if concerns(self.only, event, ahead.by) {
            return self.are_seen(event, report, board, changed, ahead);
        }
        false
    }

    /// The same of an event that may be one.
    #[inline(always)]
    fn are_seen(
        &self,
        event: Event,
        report: Report,
        board: &Board,
        changed: bool,
        ahead: Ahead,
    ) -> bool
        ensures { Decides result (IsTold self.now event report ahead.by board.now
            ⊎ ((changed ≡ true) ⊎ (is_done ahead.touches report ≡ true))) }
    {
        if self.is_told(event, report, ahead.by, board) {
            return true;
        }
        if changed {
            return true;
        }
        is_done(ahead.touches, report)
    }

    /// What is seen of an event from the board before it.
    #[inline(always)]
    pub fn ahead(&self, board: &Board, event: Event) -> Ahead
        ensures touches { result.touches ≡ touches self.now.reads self.now.accesses board.now event }
        ensures by { result.by ≡ is_by self.now.stepper board.now event }
    {
        Ahead {
            touches: self.touches(board, event),
            by: is_by(self.stepper, board, event),
        }
    }

    /// Whether an event, seen from the board before it, is a step whose instruction reads or writes a byte where that
    /// is a stop.
    #[inline(always)]
    pub fn touches(&self, board: &Board, event: Event) -> bool
        ensures { result ≡ touches self.now.reads self.now.accesses board.now event }
    {
        if self.reads.as_slice().is_empty() && self.accesses.as_slice().is_empty() {
            return false;
        }
        touches(&self.reads, &self.accesses, board, event)
    }

    /// Whether an event with this report, between two boards, is a stop of who is stepped.
    pub fn is_stepped(&self, before: &Board, event: Event, report: Report, after: &Board) -> bool
        ensures { result
            ≡ is_stepped self.now.stepper event report (is_by self.now.stepper before.now event) after.now }
    {
        let by = is_by(self.stepper, before, event);
        is_stepped(self.stepper, event, report, by, after)
    }

    /// Whether an event is a stop that is seen from the board before it.
    pub fn meet(&self, before: &Board, look: &Look) -> bool
        ensures { Decides result
            (Meets self.now look.now.event look.now.report before.now.memory
            (touches self.now.reads self.now.accesses before.now look.now.event)
            (is_by self.now.stepper before.now look.now.event) look.now.board) }
    {
        let ahead = self.ahead(before, look.event);
        let mut bytes = self.watched(before);
        self.are_met(
            look.event,
            look.report,
            &look.board,
            &mut bytes,
            true,
            ahead,
        )
    }

    /// Whether an event may change a watched byte: there is one, and the event may change memory.
    #[inline(always)]
    pub fn may_change(&self, board: &Board, event: Event) -> bool
        ensures { IsSameUnless result self.now.watches board.now.memory (happens board.now event).board.memory }
    {
        if self.watches.as_slice().is_empty() {
            return false;
        }
        board.may_store(event)
    }

    /// Whether an event with this report is a stop, whatever it has changed.
    #[inline(always)]
    fn is_told(&self, event: Event, report: Report, by: bool, board: &Board) -> bool
        ensures { Decides result (IsTold self.now event report by board.now) }
    {
        if self.is_break(report) {
            return true;
        }
        if is_stepped(self.stepper, event, report, by, board) {
            return true;
        }
        is_fault(self.faults, report)
    }

    /// Whether an event with this report raised an exception, where these are stops.
    pub fn is_fault(&self, report: Report) -> bool
        ensures { result ≡ is_fault self.now.faults report }
    {
        is_fault(self.faults, report)
    }

    /// Whether an event with this report, between two boards, changed a watched byte, or read or wrote one where that
    /// is a stop.
    pub fn are_touched(&self, before: &Board, event: Event, report: Report, after: &Board) -> bool
        ensures { Decides result (Differs self.now.watches before.now.memory after.now.memory
            ⊎ (is_done (touches self.now.reads self.now.accesses before.now event) report ≡ true)) }
    {
        let bytes = self.watched(before);
        if differ(self.watches.as_slice(), &bytes, after) {
            return true;
        }
        is_done(self.touches(before, event), report)
    }

    /// Whether an event with this report executed an instruction at a break.
    #[inline(always)]
    pub fn is_break(&self, report: Report) -> bool
        ensures { Decides result (IsBreak self.now.breaks report) }
    {
        match report {
            Report::Ran(address) | Report::Called(address) | Report::Faulted(address) => {
                self.breaks.has(address)
            }
            _ => false,
        }
    }
}

/// Whether an event, seen from the board before it, is a step of whom a stepper names.
#[inline(always)]
fn is_by(stepper: Option<Stepper>, board: &Board, event: Event) -> bool
    ensures { result ≡ is_by stepper board.now event }
{
    match stepper {
        Some(Stepper::Of(who)) => is_step_by(who, board, event),
        None | Some(Stepper::Each(_)) | Some(Stepper::Until { .. }) => false,
    }
}

/// Whether an event, seen from the board before it, is a step of a processor that executes somebody.
fn is_step_by(who: Standing, board: &Board, event: Event) -> bool
    ensures { result ≡ is_step_by who board.now event }
{
    match event {
        Event::Step(cpu) => is_who(who, board.standing(cpu)),
        Event::Tick | Event::Raise(_) => false,
    }
}

/// Whether an event with this report, which left a board, is a stop of who is stepped; whether it was a step of whom
/// the stepper names was seen before it.
#[inline(always)]
fn is_stepped(
    stepper: Option<Stepper>,
    event: Event,
    report: Report,
    by: bool,
    board: &Board,
) -> bool
    ensures { result ≡ is_stepped stepper event report by board.now }
{
    match stepper {
        None => false,
        Some(Stepper::Each(cpu)) => is_step_of(cpu, event) && executes(report),
        Some(Stepper::Of(_)) => by && executes(report),
        Some(
            Stepper::Until {
                cpu,
                who,
                start,
                end,
            },
        ) => moves_on(event, report) && has_come_out(cpu, who, start, end, board),
    }
}

/// Whether an event, which is a step of whom the stepper names or not, is one of those that may be stops.
#[inline(always)]
fn concerns(only: Only, event: Event, by: bool) -> bool
    ensures { result ≡ concerns only event by }
{
    match only {
        Only::All => true,
        Only::Processor(cpu) => is_step_of(cpu, event),
        Only::Stepped => by,
    }
}

/// Whether an instruction that touches bytes was done: there was one, and it raised no exception.
#[inline(always)]
fn is_done(touches: bool, report: Report) -> bool
    ensures { result ≡ is_done touches report }
{
    match report {
        Report::Ran(_) => touches,
        _ => false,
    }
}

/// Whether an event may have changed who executes, or where: it isn't one that raises a line, and it did something.
fn moves_on(event: Event, report: Report) -> bool
    ensures { result ≡ moves_on event report }
{
    if let Event::Raise(_) = event {
        return false;
    }
    !matches!(
        report,
        Report::Off | Report::NoSuch | Report::Stopped | Report::Idle | Report::TimeOver
    )
}

/// The processor of who is stepped, on a board; of nobody another one.
pub fn stepped_on(stepper: Option<Stepper>, board: &Board, other: u8) -> u8
    ensures { result ≡ stepped_on stepper board.now other }
{
    match stepper {
        None => other,
        Some(Stepper::Each(cpu)) => cpu,
        Some(Stepper::Of(who)) => processor_of(other, who, board),
        Some(Stepper::Until { cpu, who, .. }) => processor_of(cpu, who, board),
    }
}

/// The processor of who was executed on another one: a task's is the one to which it is assigned by now.
fn processor_of(cpu: u8, who: Standing, board: &Board) -> u8
    ensures { result ≡ processor_of cpu who board.now }
{
    match who {
        Standing::Task(id) => match board.task(id) {
            Some(task) => task.cpu,
            None => cpu,
        },
        Standing::Idle | Standing::Stopped | Standing::Handler(_) => cpu,
    }
}

/// Whether who was executed on a processor is to go on outside a range, on his processor.
fn has_come_out(cpu: u8, who: Standing, start: u32, end: u32, board: &Board) -> bool
    ensures { result ≡ has_come_out cpu who start end board.now }
{
    goes_on_outside(processor_of(cpu, who, board), who, start, end, board)
}

/// Whether somebody is to go on, on a processor, outside a range.
fn goes_on_outside(cpu: u8, who: Standing, start: u32, end: u32, board: &Board) -> bool
    ensures { result ≡ goes_on_outside cpu who start end board.now }
{
    is_who(who, board.standing(cpu)) && is_outside(cpu, start, end, board)
}

/// Whether a processor executes somebody.
fn is_who(who: Standing, standing: Option<Standing>) -> bool
    ensures { result ≡ is_who who standing }
{
    match (who, standing) {
        (Standing::Task(id), Some(Standing::Task(other))) => id == other,
        (Standing::Handler(line), Some(Standing::Handler(other))) => line == other,
        _ => false,
    }
}

/// Whether an event is a step of a processor.
#[inline(always)]
fn is_step_of(cpu: u8, event: Event) -> bool
    ensures { result ≡ is_step_of cpu event }
{
    match event {
        Event::Step(other) => other == cpu,
        Event::Tick | Event::Raise(_) => false,
    }
}

/// Whether the next instruction of a processor lies outside a range, or it has none.
fn is_outside(cpu: u8, start: u32, end: u32, board: &Board) -> bool
    ensures { result ≡ is_outside start end (registers_of board.now cpu) }
{
    match board.registers(cpu) {
        None => true,
        Some(context) => context.pc() < start || end <= context.pc(),
    }
}

/// Whether an instruction was executed, was a SYSCALL, or raised an exception.
#[inline(always)]
fn executes(report: Report) -> bool
    ensures { result ≡ executes report }
{
    matches!(
        report,
        Report::Ran(_) | Report::Called(_) | Report::Faulted(_)
    )
}

/// Whether an event raised an exception, where these are stops.
#[inline(always)]
fn is_fault(faults: bool, report: Report) -> bool
    ensures { result ≡ is_fault faults report }
{
    match report {
        Report::Faulted(_) => faults,
        _ => false,
    }
}

/// The bytes at watched addresses, in the order of these; None where RAM has none.
fn watched(watches: &[u32], board: &Board) -> WatchedBytes
    requires { length watches.now ≤ most_addresses }
    ensures { AreBytesAt watches.now board.now.memory result.bytes }
{
    let mut bytes = [None; MOST_ADDRESSES];
    for i in 0..watches.len() {
        bytes[i] = board.memory(watches[i]);
    }
    WatchedBytes { bytes }
}

/// Whether one of them is another byte now, which may be so or not be so. They are brought up to date.
#[inline(always)]
fn renewed(watches: &[u32], bytes: &mut WatchedBytes, board: &Board, may_differ: bool) -> bool
    requires { length watches.now ≤ most_addresses }
    ensures differ { (memory : MemoryOf) → AreBytesAt watches.now memory bytes.old.bytes
        → IsSameUnless may_differ watches.now memory board.now.memory
        → Decides result (Differs watches.now memory board.now.memory) }
    ensures bytes { (memory : MemoryOf) → AreBytesAt watches.now memory bytes.old.bytes
        → IsSameUnless may_differ watches.now memory board.now.memory
        → AreBytesAt watches.now board.now.memory bytes.new.bytes }
{
    if !may_differ || !differ(watches, bytes, board) {
        return false;
    }
    *bytes = watched(watches, board);
    true
}

/// Whether one of them is another byte now.
fn differ(watches: &[u32], before: &WatchedBytes, board: &Board) -> bool
    requires { length watches.now ≤ most_addresses }
    ensures differ { (memory : MemoryOf) → AreBytesAt watches.now memory before.now.bytes
        → Decides result (Differs watches.now memory board.now.memory) }
    ensures same { result ≡ false → AreBytesAt watches.now board.now.memory before.now.bytes }
{
    for i in 0..watches.len() {
        if board.memory(watches[i]) != before.bytes[i] {
            return true;
        }
    }
    false
}
