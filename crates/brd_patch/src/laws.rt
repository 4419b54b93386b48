//! What holds of the definitions, whatever the code does.

ghost use Rattle.std.specs.Prelude.{◌≡◌, ℕ, List, Ok};
ghost use Rattle.brd_board.specs.Board.{BoardState};
ghost use Rattle.brd_image.specs.Building.{loaded};
ghost use Rattle.brd_mem.specs.declared.image.Segment.{Segment};
ghost use Rattle.brd_patch.specs.Data.{HasData};
ghost use Rattle.brd_patch.specs.Laws.{StartsWithData};

/// Memory starts as the file names, and then as the data does: the board of an object file that has data is the board
/// of the file without, but for its memory, in which the data lies.
pub fn memory_starts_with_data()
    ensures { (file patched config : List ℕ) (pieces : List Segment) (start : BoardState) →
        HasData file pieces patched → loaded patched config ≡ Ok start → StartsWithData file config pieces start }
{}
