//! Turns that a board takes until nothing is left to do.

ghost use Rattle.std.specs.Prelude.{◌≡◌, ◌+◌, ◌∷◌, ◌<◌, ◌^◌, [], MatchResult, OnOk};
ghost use Rattle.brd_board.specs.Board.{happens};
ghost use Rattle.brd_journal.specs.Faults.{Gives};
ghost use Rattle.brd_journal.specs.Journal.{appended};
ghost use Rattle.brd_try.specs.Turning.{HasTurned, IsUnturned};
ghost use Rattle.brd_try.specs.Turns as turns;
ghost use Rattle.brd_try.specs.Turns.{steps_in};

use brd_board::{Board, Event, TaskState, TaskView};
use brd_journal::{Journal, JournalFault, MOST_RUNS};
use std::alloc::Global;

/// A board that has taken turns, and which.
#[derive(Drop)]
pub(crate) struct Turned {
    /// The board.
    pub board: Board,
    /// The events that have happened to it.
    pub journal: Journal,
    /// How many of them were steps.
    pub steps: u64,
    /// Where the last step found its processor.
    pub place: u32,
}

/// Lets a board with n tasks do events one after the other, up to where nothing is left to do.
pub(crate) fn take_turns(
    alloc: Global,
    boot: Board,
    tasks: u8,
    events: &Journal,
) -> Result<Turned, JournalFault>
    ensures { MatchResult result (HasTurned boot tasks events.now) (IsUnturned events.now) }
{
    let mut turned = Turned {
        board: boot,
        journal: Journal::new(alloc, MOST_RUNS, events.order()),
        steps: 0,
        place: 0,
    };
    for others in 0..events.len() {
        if is_over(&turned.board, tasks) {
            return Ok(turned);
        }
        let event = match events.event_at(others) {
            Some(event) => event,
            None => return Ok(turned),
        };
        match turned.turn(event) {
            Ok(()) => {}
            Err(fault) => return Err(fault),
        }
    }
    Ok(turned)
}

impl Turned {
    /// Lets the board do another event.
    fn turn(&mut self, event: Event) -> Result<(), JournalFault>
        requires { self.old.steps < 2 ^ 63 }
        ensures journal { Gives (λ _. self.new.journal) result (appended self.old.journal (event ∷ [])) }
        ensures board { OnOk result (self.new.board ≡ (happens self.old.board event).board) }
        ensures steps { OnOk result (self.new.steps ≡ self.old.steps + steps_in (event ∷ [])) }
    {
        match self.journal.push(event) {
            Ok(()) => {}
            Err(fault) => return Err(fault),
        }
        if let Event::Step(cpu) = event {
            self.steps += 1;
            self.place = place_on(&self.board, cpu);
        }
        self.board.event_apart(event);
        Ok(())
    }
}

/// The address of a processor's next instruction, 0 where it has none.
fn place_on(board: &Board, cpu: u8) -> u32 {
    match board.registers(cpu) {
        Some(context) => context.pc(),
        None => 0,
    }
}

/// Whether nothing is left to do on a board with n tasks.
fn is_over(board: &Board, tasks: u8) -> bool
    ensures { result ≡ turns.is_over tasks board.now }
{
    board.is_off() || have_ended(board, tasks)
}

/// Whether the tasks 1 to n have ended.
pub(crate) fn have_ended(board: &Board, tasks: u8) -> bool
    ensures { result ≡ turns.have_ended board.now tasks }
{
    let mut ended = true;
    for before in 0..tasks {
        ended = ended && has_ended(board.task(before as u16 + 1));
    }
    ended
}

/// Whether a task that is there has ended.
fn has_ended(task: Option<TaskView>) -> bool
    ensures { result ≡ turns.has_ended task }
{
    match task {
        Some(task) => matches!(task.state, TaskState::Dormant),
        None => true,
    }
}
