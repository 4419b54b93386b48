//! Numbers in a file, in its byte order.

ghost use Rattle.std.specs.Prelude.{◌≡◌, ◌+◌, ◌≤◌, ◌++◌, length, OnOk};
ghost use Rattle.brd_elf.specs.Fields.{half_at, word_at, half, word, has_bytes};

use brd_base::NoMemory;
use brd_word::Order;
use byteorder::{BigEndian, ByteOrder, LittleEndian};

/// The number in the two bytes from a place on.
#[tactic(auto, unfolding(crate::specs::Fields::half_at))]
pub fn half_at(bytes: &[u8], at: usize, order: Order) -> u16
    requires { at + 2 ≤ length bytes.now }
    ensures { result ≡ half_at order bytes.now at }
{
    match order {
        Order::Big => BigEndian::read_u16(&bytes[at..]),
        Order::Little => LittleEndian::read_u16(&bytes[at..]),
    }
}

/// The number in the four bytes from a place on.
#[tactic(auto, unfolding(crate::specs::Fields::word_at))]
pub fn word_at(bytes: &[u8], at: usize, order: Order) -> u32
    requires { at + 4 ≤ length bytes.now }
    ensures { result ≡ word_at order bytes.now at }
{
    match order {
        Order::Big => BigEndian::read_u32(&bytes[at..]),
        Order::Little => LittleEndian::read_u32(&bytes[at..]),
    }
}

/// Whether a file has as many bytes as this from an offset on.
pub fn has_bytes(file: &[u8], offset: usize, size: usize) -> bool
    ensures { result ≡ has_bytes file.now offset size }
{
    let len = file.len();
    offset <= len && size <= len - offset
}

/// Puts the two bytes of a number, modulo 2^16, at the end.
#[tactic(auto, unfolding(crate::specs::Fields::half))]
pub fn put_half(out: &mut Vec<u8>, number: usize, order: Order) -> Result<(), NoMemory>
    ensures { OnOk result (out.new.items ≡ out.old.items ++ half order number) }
{
    let mut bytes = [0; 2];
    let half = (number % 0x1_0000) as u16;
    match order {
        Order::Big => BigEndian::write_u16(&mut bytes, half),
        Order::Little => LittleEndian::write_u16(&mut bytes, half),
    }
    out.extend_from_slice(&bytes)?;
    Ok(())
}

/// Puts the four bytes of a number, modulo 2^32, at the end.
#[tactic(auto, unfolding(crate::specs::Fields::word))]
pub fn put_word(out: &mut Vec<u8>, number: usize, order: Order) -> Result<(), NoMemory>
    ensures { OnOk result (out.new.items ≡ out.old.items ++ word order number) }
{
    let mut bytes = [0; 4];
    let word = (number % 0x1_0000_0000) as u32;
    match order {
        Order::Big => BigEndian::write_u32(&mut bytes, word),
        Order::Little => LittleEndian::write_u32(&mut bytes, word),
    }
    out.extend_from_slice(&bytes)?;
    Ok(())
}
