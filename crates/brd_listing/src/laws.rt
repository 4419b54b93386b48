//! Laws of the definitions: what follows from them, without regard to any code.

ghost use Rattle.std.specs.Prelude.{◌≡◌, ℕ, ◌<◌, ◌≤◌, List, Some, None, true, false};
ghost use Rattle.std.specs.List.{AllByRecursion};
ghost use Rattle.brd_base.specs.Space.{top};
ghost use Rattle.brd_mem.specs.declared.image.Symbol.{Symbol};
ghost use Rattle.brd_listing.specs.Names.{IsPrintable, shown_name};
ghost use Rattle.brd_listing.specs.Places.{is_below, nearest_of, place_text};

/// Of the symbols below an address none has a greater value than the nearest; where there is no nearest one, none is
/// below the address.
pub fn nearest_has_the_greatest_value()
    ensures below { (symbols : List Symbol) (address : ℕ) (s : Symbol) → nearest_of symbols address ≡ Some s →
        is_below address s ≡ true }
    ensures greatest { (symbols : List Symbol) (address : ℕ) (s : Symbol) → nearest_of symbols address ≡ Some s →
        AllByRecursion (λ t. is_below address t ≡ true → t.value ≤ s.value) symbols }
    ensures none { (symbols : List Symbol) (address : ℕ) → address < top → nearest_of symbols address ≡ None →
        AllByRecursion (λ t. is_below address t ≡ false) symbols }
{}

/// A name, as text shows it, and an address by its symbol are printable ASCII alone: neither ends a line.
pub fn names_are_shown_in_printable_ascii()
    ensures name { (name : List ℕ) → IsPrintable (shown_name name) }
    ensures place { (symbols : List Symbol) (address : ℕ) → IsPrintable (place_text symbols address) }
{}
