//! Boards that become other ones, so that none is made anew.

ghost use Rattle.std.specs.Prelude.{◌≡◌, OnOk};

use brd_base::NoMemory;
use brd_board::Board;

/// Makes a board equal to another one: in place if both have RAM of one size and order, else anew.
pub fn copy_over(board: &mut Board, other: &Board) -> Result<(), NoMemory>
    ensures { OnOk result (board.new ≡ other.now) }
{
    if board.is_alike(other) {
        return board.copy_from(other);
    }
    *board = other.try_copy()?;
    Ok(())
}
