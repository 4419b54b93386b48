//! What stands at the front of bytes.

ghost use Rattle.std.specs.Prelude.{◌≡◌, ◌∷◌, false, IfSome, IfNone};
ghost use Rattle.std.specs.List.{prefix_len};
ghost use Rattle.brd_text.specs.Bytes.{begins_with};
ghost use Rattle.brd_text.specs.Bytes as bytes;

use crate::byte::is_run_byte;

/// The bytes after `byte`, where they begin with it.
pub fn behind(byte: u8, rest: &[u8]) -> Option<&[u8]>
    ensures found { IfSome result (λ x. rest.now ≡ byte ∷ x.now) }
    ensures none { IfNone result (begins_with byte rest.now ≡ false) }
{
    match rest.split_first() {
        Some((first, after)) if *first == byte => Some(after),
        _ => None,
    }
}

/// How many bytes the run at the front has.
pub fn run_len(rest: &[u8]) -> usize
    ensures { result ≡ prefix_len bytes.is_run_byte rest.now }
{
    for (i, byte) in rest.iter().enumerate() {
        if !is_run_byte(*byte) {
            return i;
        }
    }
    rest.len()
}
