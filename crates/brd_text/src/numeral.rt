//! Numbers as they are written: decimal digits up to a greatest value, and decimal digits or hexadecimal ones after
//! `0x`, below 2 to the 32nd.

ghost use Rattle.std.specs.Prelude.{◌≡◌, ◌<◌, ◌≤◌, ◌^◌, IfSome};
ghost use Rattle.brd_text.specs.Numbers as numbers;

/// The value of a hexadecimal digit of either case.
#[tactic(auto, unfolding(crate::specs::Numbers::hex_digit_value))]
pub fn hex_value(byte: u8) -> Option<u32>
    ensures value { result ≡ numbers.hex_digit_value byte }
    ensures small { IfSome result (λ d. d < 16) }
{
    match byte {
        b'0'..=b'9' => Some((byte - b'0') as u32),
        b'A'..=b'F' => Some((byte - b'A') as u32 + 10),
        b'a'..=b'f' => Some((byte - b'a') as u32 + 10),
        _ => None,
    }
}

/// What a byte stands for as a digit in a base up to 16.
#[tactic(auto, unfolding(crate::specs::Numbers::digit_of))]
fn digit(base: u32, byte: u8) -> Option<u32>
    requires { 1 ≤ base }
    ensures value { result ≡ numbers.digit_of base byte }
    ensures small { IfSome result (λ d. d < 16) }
{
    match hex_value(byte) {
        Some(value) if value < base => Some(value),
        _ => None,
    }
}

/// The value of one or more digits, where it is at most this.
pub(crate) fn value(base: u32, most: u64, digits: &[u8]) -> Option<u64>
    requires low { 1 ≤ base }
    requires high { base ≤ 16 }
    ensures value { result ≡ numbers.value_of base most digits.now }
    ensures within { IfSome result (λ v. v ≤ most) }
{
    if digits.is_empty() {
        return None;
    }
    let mut value = 0u64;
    for byte in digits {
        let Some(digit) = digit(base, *byte) else {
            return None;
        };
        let more = base as u128 * value as u128 + digit as u128;
        if more > most as u128 {
            return None;
        }
        value = more as u64;
    }
    Some(value)
}

/// The value of one or more decimal digits. `None` where a byte is none, there are none, or the value is greater than
/// `most`.
#[tactic(auto, unfolding(crate::specs::Numbers::decimal_of))]
pub fn decimal(digits: &[u8], most: u64) -> Option<u64>
    ensures value { result ≡ numbers.decimal_of digits.now most }
    ensures within { IfSome result (λ v. v ≤ most) }
{
    value(10, most, digits)
}

/// The value of decimal digits, of which the first is no 0 unless it is the only one. `None` where `decimal` has none.
#[tactic(auto, unfolding(crate::specs::Numbers::plain_decimal_of))]
pub fn plain_decimal(digits: &[u8], most: u64) -> Option<u64>
    ensures value { result ≡ numbers.plain_decimal_of digits.now most }
    ensures within { IfSome result (λ v. v ≤ most) }
{
    if has_leading_zero(digits) {
        return None;
    }
    decimal(digits, most)
}

/// Whether a 0 stands before other digits.
fn has_leading_zero(digits: &[u8]) -> bool
    ensures { result ≡ numbers.has_leading_zero digits.now }
{
    match digits.split_first() {
        None => false,
        Some((first, others)) => *first == b'0' && !others.is_empty(),
    }
}

/// The value of a number: decimal digits, or `0x` and hexadecimal digits of either case. `None` where the bytes are
/// no number, or the value needs more than 32 bits.
#[tactic(auto, unfolding(crate::specs::Numbers::number_of))]
pub fn number(run: &[u8]) -> Option<u32>
    ensures { result ≡ numbers.number_of run.now }
{
    if let [b'0', b'x', digits @ ..] = run {
        return word(16, digits);
    }
    word(10, run)
}

/// The value of one or more digits, where it is below 2 to the 32nd.
pub(crate) fn word(base: u32, digits: &[u8]) -> Option<u32>
    requires low { 1 ≤ base }
    requires high { base ≤ 16 }
    ensures { result ≡ numbers.value_of base numbers.most_word digits.now }
{
    match value(base, u32::MAX as u64, digits) {
        None => None,
        Some(value) => Some(value as u32),
    }
}
