//! A board beside the one that is shown, on which looks and searches play.

ghost use Rattle.std.specs.Prelude.{◌≡◌, List as ListOf, None, IfOk, IfSome, OnOk};
ghost use Rattle.brd_board.specs.declared.event.Event.{Event as EventOf};
ghost use Rattle.brd_board.specs.Board.{BoardState as BoardOf};
ghost use Rattle.brd_journal.specs.Playing.{IsPlayed};

use brd_base::NoMemory;
use brd_journal::{Journal, Playback};

/// So many events behind the board that is shown, another one plays on to it; else it takes over what differs (own
/// choice).
const NEAR: u64 = 1_024;

/// A board that has played some of the events: the spare one, which is away then, or a copy of the one that is shown.
pub(crate) fn any_board(
    spare: &mut Option<Playback>,
    shown: &Playback,
) -> Result<Playback, NoMemory>
    ensures played { (boot : BoardOf) (events : ListOf EventOf) → IfSome spare.old (IsPlayed boot events)
        → IsPlayed boot events shown.now → IfOk result (IsPlayed boot events) }
    ensures away { spare.new ≡ None }
{
    match spare.take() {
        Some(board) => Ok(board),
        None => shown.try_copy(),
    }
}

/// A board as the one that is shown: the spare one, which is away then, or a copy.
pub(crate) fn board_here(
    journal: &Journal,
    spare: &mut Option<Playback>,
    shown: &Playback,
) -> Result<Playback, NoMemory>
    requires { (boot : BoardOf) × IfSome spare.old (IsPlayed boot journal.now.events)
        × IsPlayed boot journal.now.events shown.now }
    ensures here { IfOk result (λ board. board ≡ shown.now) }
    ensures away { spare.new ≡ None }
{
    let mut board = any_board(spare, shown)?;
    bring(journal, &mut board, shown)?;
    Ok(board)
}

/// Makes a board that of another one: it plays on where it is a little behind, and else takes over what differs.
fn bring(journal: &Journal, board: &mut Playback, shown: &Playback) -> Result<(), NoMemory>
    requires { (boot : BoardOf) × IsPlayed boot journal.now.events board.old
        × IsPlayed boot journal.now.events shown.now }
    ensures { OnOk result (board.new ≡ shown.now) }
{
    // For the proof alone: its contract says how few events there can be.
    let _ = journal.len();
    if board.at <= shown.at && shown.at - board.at <= NEAR {
        board.play_to(journal, shown.at, shown.at);
        return Ok(());
    }
    board.board.copy_from(&shown.board)?;
    board.at = shown.at;
    Ok(())
}
