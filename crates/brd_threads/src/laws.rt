//! What holds of the definitions, whatever the code does.

ghost use Rattle.std.specs.Prelude.{◌≡◌, ◌&&◌, ℕ, nat_le, Ok};
ghost use Rattle.brd_mem.specs.declared.image.Image.{Image as ImageOf};
ghost use Rattle.brd_config.specs.Configuration.{Configuration, IsConfiguration};
ghost use Rattle.brd_board.specs.Board.{BoardState};
ghost use Rattle.brd_board.specs.Boot.{boot};
ghost use Rattle.brd_threads.specs.Processors.{has_processor, processors_of};

/// The processors of a board that was booted are those of its configuration: the numbers from 1 to as many as its
/// `BOARD` says.
pub fn processors_are_the_configured_ones()
    ensures which { (image : ImageOf) (config : Configuration) (board : BoardState) (cpu : ℕ) → IsConfiguration config →
        boot image config ≡ Ok board → has_processor board cpu ≡ (nat_le 1 cpu && nat_le cpu config.processors) }
    ensures many { (image : ImageOf) (config : Configuration) (board : BoardState) → IsConfiguration config →
        boot image config ≡ Ok board → processors_of board ≡ config.processors }
{}
