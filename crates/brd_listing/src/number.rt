//! Numbers as text.

ghost use Rattle.std.specs.Prelude.{◌≡◌, ◌++◌, OnOk};
ghost use Rattle.std.specs.Fmt.{decimal};
ghost use Rattle.brd_listing.specs.Places as places;
ghost use Rattle.brd_listing.specs.Listing.{signed_text};

use brd_base::NoMemory;
use brd_text::hex_digits;
use itoa::Buffer;

/// Puts a decimal number at the end.
pub(crate) fn put_decimal(to: &mut Vec<u8>, number: u32) -> Result<(), NoMemory>
    ensures { OnOk result (to.new.items ≡ to.old.items ++ decimal number) }
{
    let mut buffer = Buffer::new();
    to.extend_from_slice(buffer.format(number).as_bytes())?;
    Ok(())
}

/// Puts at the end the number that sixteen bits are as a signed one.
pub(crate) fn put_signed(to: &mut Vec<u8>, bits: u16) -> Result<(), NoMemory>
    ensures { OnOk result (to.new.items ≡ to.old.items ++ signed_text bits) }
{
    if bits < 0x8000 {
        return put_decimal(to, bits as u32);
    }
    to.push(b'-')?;
    put_decimal(to, 0x1_0000 - bits as u32)
}

/// Puts `0x` at the end, and a number's hexadecimal digits without leading zeros.
pub(crate) fn put_hex(to: &mut Vec<u8>, number: u32) -> Result<(), NoMemory>
    ensures { OnOk result (to.new.items ≡ to.old.items ++ places.short_hex number) }
{
    to.extend_from_slice(b"0x")?;
    to.extend_from_slice(without_zeros(&hex_digits(number)))?;
    Ok(())
}

/// Digits without the zeros before them; the last digit stays.
fn without_zeros(digits: &[u8]) -> &[u8]
    ensures { result.now ≡ places.without_zeros digits.now }
{
    let mut left = digits;
    while let Some((first, after)) = left.split_first() {
        if *first != b'0' || after.is_empty() {
            return left;
        }
        left = after;
    }
    left
}
