//! How many processors a board has.

ghost use Rattle.std.specs.Prelude.{◌≡◌, ◌≤◌, length};
ghost use Rattle.std.specs.List.{prefix_len};
ghost use Rattle.brd_threads.specs.Processors.{has_processor, processors_of};

use brd_board::Board;

/// How many processors a board has: they are numbered from 1 on.
pub fn processors(board: &Board) -> usize
    ensures is { result ≡ processors_of board.now }
    ensures few { result ≤ 8 }
{
    present(board, &[1, 2, 3, 4, 5, 6, 7, 8])
}

/// How many of these numbers, from the first on, are those of a board's processors.
fn present(board: &Board, numbers: &[u8]) -> usize
    ensures is { result ≡ prefix_len (has_processor board.now) numbers.now }
    ensures few { result ≤ length numbers.now }
{
    for (i, cpu) in numbers.iter().enumerate() {
        if !has_processor(board, *cpu) {
            return i;
        }
    }
    numbers.len()
}

/// Whether a board has a processor of this number.
#[tactic(auto, unfolding(crate::specs::Processors::has_processor))]
pub(crate) fn has_processor(board: &Board, cpu: u8) -> bool
    ensures { result ≡ has_processor board.now cpu }
{
    board.standing(cpu).is_some()
}
