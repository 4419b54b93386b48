//! Numbers and bytes in hexadecimal digits.

ghost use Rattle.std.specs.Prelude.{◌≡◌, ◌<◌, ◌++◌, ◌==◌, IfSome, OnOk, IfOk, option_map};
ghost use Rattle.std.specs.List.{slice_split};
ghost use Rattle.brd_text.specs.Hex as hex;
ghost use Rattle.brd_text.specs.Numbers.{digit_of, most_word, value_of};
ghost use Rattle.brd_gdb.specs.Hexes.{hexed, hexed_byte, own_digits, pair_of, range_of, unhexed};

use crate::parts::two;
use brd_base::NoMemory;
use brd_text::hex_value;
use std::alloc::Global;

/// The value of one or more hexadecimal digits of either case, where it is below 2 to the 32nd.
pub fn word(digits: &[u8]) -> Option<u32>
    ensures { result ≡ value_of 16 most_word digits.now }
{
    if digits.is_empty() {
        return None;
    }
    let mut value = 0u32;
    for byte in digits {
        let Some(digit) = digit_value(*byte) else {
            return None;
        };
        let more = 16 * value as u64 + digit as u64;
        if more > u32::MAX as u64 {
            return None;
        }
        value = more as u32;
    }
    Some(value)
}

/// What a byte stands for as a hexadecimal digit.
#[tactic(auto, unfolding(brd_text::specs::Numbers::digit_of))]
fn digit_value(byte: u8) -> Option<u32>
    ensures value { result ≡ digit_of 16 byte }
    ensures small { IfSome result (λ d. d < 16) }
{
    match hex_value(byte) {
        Some(value) if value < 16 => Some(value),
        _ => None,
    }
}

/// The values of two numbers with a comma between them.
pub fn pair(text: &[u8]) -> Option<(u32, u32)>
    ensures { result ≡ pair_of (slice_split (λ byte. byte == 44) text.now) }
{
    let (first, second) = two(text, b',')?;
    let first = word(first)?;
    let second = word(second)?;
    Some((first, second))
}

/// The values of two addresses with a comma between them.
pub fn range_pair(text: &[u8]) -> Option<(u32, u32)>
    ensures { result ≡ range_of (slice_split (λ byte. byte == 44) text.now) }
{
    let (first, second) = two(text, b',')?;
    let first = word(own_digits(first))?;
    let second = word(own_digits(second))?;
    Some((first, second))
}

/// The digits of an address's own 32 bits: GDB writes some in 64 bits, with the sign extended.
fn own_digits(text: &[u8]) -> &[u8]
    ensures { result.now ≡ own_digits text.now }
{
    if text.len() == 16 {
        if let Some(rest) = text.strip_prefix(b"ffffffff") {
            return rest;
        }
    }
    text
}

/// The bytes that hexadecimal digits spell, two each. `None` where a byte is no digit, or a digit is left over.
pub fn bytes(alloc: Global, digits: &[u8]) -> Result<Option<Vec<u8>>, NoMemory>
    ensures { IfOk result (λ found. option_map (λ bytes. bytes.items) found ≡ unhexed digits.now) }
{
    let mut found = Vec::new(alloc);
    let mut left = digits;
    while let [high, low, rest @ ..] = left {
        let Some(high) = hex_value(*high) else {
            return Ok(None);
        };
        let Some(low) = hex_value(*low) else {
            return Ok(None);
        };
        found.push((16 * high + low) as u8)?;
        left = rest;
    }
    if left.is_empty() {
        return Ok(Some(found));
    }
    Ok(None)
}

/// Puts two hexadecimal digits for each byte at the end, in lower case.
pub fn put_hex(out: &mut Vec<u8>, bytes: &[u8]) -> Result<(), NoMemory>
    ensures { OnOk result (out.new.items ≡ out.old.items ++ hexed bytes.now) }
{
    for byte in bytes {
        put_byte(out, *byte)?;
    }
    Ok(())
}

/// Puts the two hexadecimal digits of a byte at the end, in lower case.
pub fn put_byte(out: &mut Vec<u8>, byte: u8) -> Result<(), NoMemory>
    ensures { OnOk result (out.new.items ≡ out.old.items ++ hexed_byte byte) }
{
    out.push(digit(byte / 16))?;
    out.push(digit(byte % 16))?;
    Ok(())
}

/// The hexadecimal digit of a value below 16, in lower case.
#[tactic(auto, unfolding(brd_text::specs::Hex::hex_digit))]
fn digit(value: u8) -> u8
    requires { value < 16 }
    ensures { result ≡ hex.hex_digit value }
{
    if value < 10 {
        b'0' + value
    } else {
        b'a' + (value - 10)
    }
}
