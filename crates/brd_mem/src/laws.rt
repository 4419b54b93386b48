//! Laws of the definitions.

ghost use Rattle.std.specs.Prelude.{◌≡◌, ℕ, is_some};
ghost use Rattle.brd_base.specs.Space.{IsRamSize};
ghost use Rattle.brd_mem.specs.Memory.{Memory, size_of, contains};
ghost use Rattle.brd_mem.specs.Window.{window_at};
ghost use Rattle.brd_mem.specs.Image.{IsPlain, IsLoadable};
ghost use Rattle.brd_mem.specs.declared.image.Image.{Image};

/// An image that stands for a file has what a board asks of an image.
pub fn plain_images_are_loadable()
    ensures { (image : Image) → IsPlain image → IsLoadable image }
{}

/// A RAM has the whole window of 256 bytes round each of its addresses, and of no other.
pub fn ram_has_whole_windows()
    ensures { (memory : Memory) (address : ℕ) → IsRamSize (size_of memory) →
        is_some (window_at memory address) ≡ contains (size_of memory) address 1 }
{}
