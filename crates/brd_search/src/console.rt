//! What the console should have, as an option says it.

ghost use Rattle.std.specs.Prelude.{◌≤◌, ◌∷◌, length, IfSome, MatchOption, MatchResult};
ghost use Rattle.brd_search.specs.Escapes.{Gives, GivesNone, HasBytes, bytes_of};
ghost use Rattle.brd_search.specs.Escapes.Within.{no_escape, backslash, hex};
ghost use Rattle.brd_search.specs.Plans.{IsOfConsole};

use crate::fault::SearchFault;
use brd_base::List;
use brd_text::hex_value;
use std::alloc::Global;

/// The bytes that a text stands for. Behind a backslash `n`, `r`, `t`, another backslash, and `x` with two hexadecimal
/// digits stand for a byte, as in a literal of Rust; nothing else may stand there.
pub(crate) fn bytes_of(alloc: Global, text: &[u8]) -> Result<List<u8>, SearchFault>
    ensures { MatchResult result (HasBytes text.now) (IsOfConsole text.now) }
{
    let mut bytes = List::new(alloc);
    let mut rest = text;
    'bytes: while let Some((first, others)) = rest.split_first() {
        let Some((byte, left)) = byte_of(*first, others) else {
            return Err(SearchFault::Console);
        };
        bytes.push(byte)?;
        rest = left;
    }
    Ok(bytes)
}

/// The byte that a text begins with, or the escape for one, and what is behind it. The text's first byte stands alone.
fn byte_of(first: u8, others: &[u8]) -> Option<(u8, &[u8])>
    ensures is { MatchOption result (GivesNone no_escape (first ∷ others.now))
        (λ it. Gives no_escape (first ∷ others.now) it.0 it.1.now) }
    ensures shorter { IfSome result (λ it. length it.1.now ≤ length others.now) }
{
    if first == b'\\' {
        return escaped(others);
    }
    Some((first, others))
}

/// The byte for which an escape stands, and what is behind it. The escape's backslash is before the text.
fn escaped(text: &[u8]) -> Option<(u8, &[u8])>
    ensures is { MatchOption result (GivesNone backslash text.now) (λ it. Gives backslash text.now it.0 it.1.now) }
    ensures shorter { IfSome result (λ it. length it.1.now ≤ length text.now) }
{
    let (first, others) = text.split_first()?;
    match *first {
        b'n' => Some((b'\n', others)),
        b'r' => Some((b'\r', others)),
        b't' => Some((b'\t', others)),
        b'\\' => Some((b'\\', others)),
        b'x' => hex_byte(others),
        _ => None,
    }
}

/// The byte of two hexadecimal digits, and what is behind them.
fn hex_byte(text: &[u8]) -> Option<(u8, &[u8])>
    ensures is { MatchOption result (GivesNone hex text.now) (λ it. Gives hex text.now it.0 it.1.now) }
    ensures shorter { IfSome result (λ it. length it.1.now ≤ length text.now) }
{
    let [high, low, rest @ ..] = text else {
        return None;
    };
    let high = hex_value(*high)?;
    let low = hex_value(*low)?;
    Some(((16 * high + low) as u8, rest))
}
