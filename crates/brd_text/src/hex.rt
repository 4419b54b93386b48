//! Words of 32 bits as eight hexadecimal digits.

ghost use Rattle.std.specs.Prelude.{◌≡◌, ◌%◌};
ghost use Rattle.brd_text.specs.Hex as hex;

use crate::numeral::word;

/// The word that eight hexadecimal digits of either case spell. `None` where a byte is no digit, or there are fewer or
/// more than eight.
#[tactic(auto, unfolding(crate::specs::Hex::hex_word_of))]
pub fn hex_word(digits: &[u8]) -> Option<u32>
    ensures { result ≡ hex.hex_word_of digits.now }
{
    if digits.len() != 8 {
        return None;
    }
    word(16, digits)
}

/// The eight hexadecimal digits of a word, in lower case.
#[tactic(auto, unfolding(crate::specs::Hex::hex_of))]
pub fn hex_digits(word: u32) -> [u8; 8]
    ensures { result ≡ hex.hex_of word }
{
    [
        hex_digit(word >> 28),
        hex_digit(word >> 24),
        hex_digit(word >> 20),
        hex_digit(word >> 16),
        hex_digit(word >> 12),
        hex_digit(word >> 8),
        hex_digit(word >> 4),
        hex_digit(word),
    ]
}

/// The hexadecimal digit of the low four bits, in lower case.
#[tactic(auto, unfolding(crate::specs::Hex::hex_digit))]
fn hex_digit(bits: u32) -> u8
    ensures { result ≡ hex.hex_digit (bits % 16) }
{
    let value = (bits % 16) as u8;
    if value < 10 {
        b'0' + value
    } else {
        b'a' + (value - 10)
    }
}
