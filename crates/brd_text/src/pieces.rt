//! What stands between the commas of a text.

ghost use Rattle.std.specs.Prelude.{◌≡◌, ◌<◌, ◌≤◌, ◌==◌, ◌∷◌, length, option_map, IfSome};
ghost use Rattle.std.specs.List.{position_or_len};
ghost use Rattle.brd_text.specs.Pieces.{AreParts, pieces_behind, pieces_of};

/// What stands before the first comma, and what is after it.
pub fn piece(text: &[u8]) -> (&[u8], Option<&[u8]>)
    ensures pieces { pieces_of text.now ≡ result.0.now ∷ pieces_behind (option_map (λ it. it.now) result.1) }
    ensures shorter { IfSome result.1 (λ behind. length behind.now < length text.now) }
{
    parted(text, b',')
}

/// What stands before the first such byte, and what is after it.
pub fn parted(text: &[u8], mark: u8) -> (&[u8], Option<&[u8]>)
    ensures { AreParts mark text.now result.0.now (option_map (λ it. it.now) result.1) }
{
    let (front, end) = text.split_at(len_before(text, mark));
    match end.split_first() {
        None => (front, None),
        Some((_, behind)) => (front, Some(behind)),
    }
}

/// How many bytes stand before the first such byte.
fn len_before(text: &[u8], mark: u8) -> usize
    ensures is { result ≡ position_or_len (λ byte. byte == mark) text.now }
    ensures within { result ≤ length text.now }
{
    for (i, byte) in text.iter().enumerate() {
        if *byte == mark {
            return i;
        }
    }
    text.len()
}
