//! What is true of boards that commands load.

ghost use Rattle.std.specs.Prelude.{ℕ, List};
ghost use Rattle.brd_link.specs.LinkSet.{IsLinkSet};
ghost use Rattle.brd_image.specs.declared.building.Loaded.{Loaded as LoadedOf};
ghost use Rattle.brd_inputs.specs.Start.{IsLoaded};

/// The links of a board that an object file and a configuration make are a set. So what a search without bounds or by
/// lazy schedules answers is about each such board.
pub fn loaded_links_are_a_set()
    ensures { (image config : List ℕ) (loaded : LoadedOf) → IsLoaded image config loaded →
        IsLinkSet loaded.board.links }
{}
