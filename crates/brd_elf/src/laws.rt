//! What holds of the definitions, whatever the code does.

ghost use Rattle.std.specs.Prelude.{◌≡◌, ℕ, List, Ok};
ghost use Rattle.brd_mem.specs.Image.{IsLoadable, IsPlain};
ghost use Rattle.brd_mem.specs.declared.image.Image.{Image};
ghost use Rattle.brd_elf.specs.File.{Fits, HasWords, file};
ghost use Rattle.brd_elf.specs.Meaning.{meaning};

/// The file of a plain image that fits means that image again: no segment, byte, name or value is lost or changed.
pub fn files_are_read_again()
    ensures { (image : Image) → IsPlain image → HasWords image → Fits image → meaning (file image) ≡ Ok image }
{}

/// An image that a file means can be loaded: its segments have bytes and lie apart, and no name stands twice.
pub fn read_images_are_loadable()
    ensures { (bytes : List ℕ) (image : Image) → meaning bytes ≡ Ok image → IsLoadable image }
{}
