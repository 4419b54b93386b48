//! How far a long command is.

ghost use Rattle.std.specs.Prelude.{◌≡◌};
ghost use Rattle.brd_board.specs.Board.{after};

use brd_board::Board;
use brd_journal::{Journal, Playback};
use brd_progress::Progress;

/// How many events are done at most between two times that it is told how many are done (own choice).
pub const PIECE: u64 = 4_194_304;

/// Lets a board do the events of a journal, one after the other, and tells how far it is after each piece.
pub fn replay<P: Progress>(journal: &Journal, board: Board, progress: &mut P) -> Board
    ensures { result ≡ after board journal.now.events }
{
    let len = journal.len();
    let mut playback = Playback { board, at: 0 };
    while playback.at < len {
        let end = playback.at.saturating_add(PIECE).min(len);
        playback.play_to(journal, end, end);
        progress.show(playback.at, len);
    }
    progress.hide();
    playback.board
}
