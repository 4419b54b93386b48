//! What the definition of a source's image says by itself.

ghost use Rattle.std.specs.Prelude.{◌≡◌, ℕ, ◌*◌, ◌^◌, ℤ, pos, ◌+ℤ◌, List, Option};
ghost use Rattle.brd_mem.specs.declared.image.Image.{Image};
ghost use Rattle.brd_mem.specs.declared.image.Segment.{Segment};
ghost use Rattle.brd_asm.specs.Values.{modulo, high_half, low_half, signed_half};
ghost use Rattle.brd_asm.specs.Image.{Program, IsImage, AreStretches};

/// A memory has one list of longest stretches.
pub fn a_memory_has_one_list_of_stretches()
    ensures { (memory : ℕ → Option ℕ) (a b : List Segment) → AreStretches memory a → AreStretches memory b → a ≡ b }
{}

/// A program has one image: the definition leaves nothing open.
pub fn a_program_has_one_image()
    ensures { (program : Program) (a b : Image) → IsImage program a → IsImage program b → a ≡ b }
{}

/// The halves of a value, the low one read as signed, add up to the value modulo 2^32.
pub fn halves_add_up()
    ensures { (e : ℤ) → modulo (pos (65536 * high_half e) +ℤ signed_half (low_half e)) (2 ^ 32) ≡ modulo e (2 ^ 32) }
{}
