//! Since when processors are in loops.

ghost use Rattle.std.specs.Prelude.{◌≡◌, ◌≢◌, ◌≤◌, List as ListOf, Decides, None, false, length, true};
ghost use Rattle.brd_board.specs.declared.event.Event.{Event as EventOf};
ghost use Rattle.brd_board.specs.Board.{BoardState as BoardOf};
ghost use Rattle.brd_spins.specs.Since.{AreSeen, AreWatched, IsThere};

use crate::spin::{Turning, is_inside};
use brd_board::Board;
use brd_journal::{Journal, Playback};

/// A board that plays a journal, and when its processors weren't in their loops.
#[derive(Drop)]
pub(crate) struct Watching {
    /// The board, and how many events it has played.
    pub playback: Playback,
    /// Of each processor the last position at which it wasn't.
    pub lefts: [Option<u64>; 8],
    /// Where the journal looks for the next event's run.
    near: usize,
}

impl Watching {
    /// A board to which nothing has happened.
    pub fn new(board: Board, turnings: &[Turning]) -> Watching
        requires few { length turnings.now ≤ 8 }
        ensures start { result.playback ≡ record { board = board; at = 0 } }
        ensures watched { (events : ListOf EventOf) → AreWatched board events turnings.now result }
    {
        let mut watching = Watching {
            playback: Playback { board, at: 0 },
            lefts: [None; 8],
            near: 0,
        };
        watching.look(turnings);
        watching
    }

    /// Plays on up to a position.
    pub fn watch(&mut self, journal: &Journal, turnings: &[Turning], to: u64)
        requires on { self.old.playback.at ≤ to }
        requires within { to ≤ length journal.now.events }
        requires few { length turnings.now ≤ 8 }
        ensures at { self.new.playback.at ≡ to }
        ensures watched { (boot : BoardOf) → AreWatched boot journal.now.events turnings.now self.old
            → AreWatched boot journal.now.events turnings.now self.new }
    {
        while self.playback.at < to {
            let Some(rest) = journal.rest_at(self.playback.at, &mut self.near) else {
                return;
            };
            let next = self.playback.at + 1;
            self.playback.advance(rest, next, to);
            self.look(turnings);
        }
    }

    /// Keeps the position of each processor that spins, where it isn't in its loop now.
    fn look(&mut self, turnings: &[Turning])
        requires few { length turnings.now ≤ 8 }
        ensures same { self.new.playback ≡ self.old.playback }
        ensures seen { AreSeen self.old.playback.board turnings.now (length turnings.now) self.old.playback.at
            self.old.lefts self.new.lefts }
    {
        for i in 0..turnings.len() {
            if !is_away(&self.playback.board, i as u8 + 1, &turnings[i]) {
                continue;
            }
            self.lefts[i] = Some(self.playback.at);
        }
    }
}

/// Whether a processor spins, and isn't in its loop on a board.
fn is_away(board: &Board, cpu: u8, turning: &Turning) -> bool
    ensures away { result ≡ true → IsThere board.now cpu turning.now.who turning.now.states → ⊥ }
    ensures there { result ≡ false → turning.now.what ≢ None →
        IsThere board.now cpu turning.now.who turning.now.states }
{
    if turning.what.is_none() {
        return false;
    }
    !is_there(board, cpu, turning)
}

/// Whether on a board the task or handler of a loop executes on a processor, and is in it.
fn is_there(board: &Board, cpu: u8, turning: &Turning) -> bool
    ensures { Decides result (IsThere board.now cpu turning.now.who turning.now.states) }
{
    if board.standing(cpu) != turning.who {
        return false;
    }
    is_inside(turning.states.as_slice(), &board.registers(cpu))
}
