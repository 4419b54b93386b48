//! What stands between marks.

ghost use Rattle.std.specs.Prelude.{◌≡◌, ◌<◌, ◌==◌, ◌∷◌, length, option_map, IfSome};
ghost use Rattle.std.specs.List.{slice_split};
ghost use Rattle.brd_gdb.specs.Parts.{parts_behind, two_of};

use brd_text::parted;

/// What stands before the first such byte, and what is after it.
pub fn part(text: &[u8], mark: u8) -> (&[u8], Option<&[u8]>)
    ensures parts { slice_split (λ byte. byte == mark) text.now
        ≡ result.0.now ∷ parts_behind mark (option_map (λ it. it.now) result.1) }
    ensures shorter { IfSome result.1 (λ behind. length behind.now < length text.now) }
{
    parted(text, mark)
}

/// What stands before such a byte and after it, where there is just one.
pub fn two(text: &[u8], mark: u8) -> Option<(&[u8], &[u8])>
    ensures { option_map (λ parts. (parts.0.now, parts.1.now)) result
        ≡ two_of (slice_split (λ byte. byte == mark) text.now) }
{
    let (first, behind) = part(text, mark);
    let Some(behind) = behind else {
        return None;
    };
    let (second, more) = part(behind, mark);
    let None = more else {
        return None;
    };
    Some((first, second))
}
