//! The bytes of a text by kind.

ghost use Rattle.std.specs.Prelude.{◌≡◌};
ghost use Rattle.brd_text.specs.Bytes as bytes;

use crate::front::run_len;

/// Whether a byte is an ASCII letter.
#[tactic(auto, unfolding(crate::specs::Bytes::is_letter))]
pub fn is_letter(byte: u8) -> bool
    ensures { result ≡ bytes.is_letter byte }
{
    (b'A' <= byte && byte <= b'Z') || (b'a' <= byte && byte <= b'z')
}

/// Whether a byte is a decimal digit.
#[tactic(auto, unfolding(crate::specs::Bytes::is_digit))]
pub fn is_digit(byte: u8) -> bool
    ensures { result ≡ bytes.is_digit byte }
{
    b'0' <= byte && byte <= b'9'
}

/// Whether a byte belongs to a run: a letter, a digit, `_`, `.` or `$`.
#[tactic(auto, unfolding(crate::specs::Bytes::is_run_byte))]
pub fn is_run_byte(byte: u8) -> bool
    ensures { result ≡ bytes.is_run_byte byte }
{
    is_letter(byte) || is_digit(byte) || byte == b'_' || byte == b'.' || byte == b'$'
}

/// Whether a byte is a space, a tab or a carriage return.
#[tactic(auto, unfolding(crate::specs::Bytes::is_space))]
pub fn is_space(byte: u8) -> bool
    ensures { result ≡ bytes.is_space byte }
{
    byte == b' ' || byte == b'\t' || byte == b'\r'
}

/// Whether a byte is a space, a tab, a carriage return or a newline.
#[tactic(auto, unfolding(crate::specs::Bytes::is_blank))]
pub fn is_blank(byte: u8) -> bool
    ensures { result ≡ bytes.is_blank byte }
{
    is_space(byte) || byte == b'\n'
}

/// Whether a byte may begin a name: a letter, `_` or `.`.
#[tactic(auto, unfolding(crate::specs::Bytes::begins_name))]
fn begins_name(byte: u8) -> bool
    ensures { result ≡ bytes.begins_name byte }
{
    is_letter(byte) || byte == b'_' || byte == b'.'
}

/// Whether the bytes are a name: a run that begins with a letter, `_` or `.`.
pub fn is_name(text: &[u8]) -> bool
    ensures { result ≡ bytes.is_name text.now }
{
    match text.split_first() {
        None => false,
        Some((first, others)) => begins_name(*first) && run_len(others) == others.len(),
    }
}
