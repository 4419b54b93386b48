//! Packets that are sent.

ghost use Rattle.std.specs.Prelude.{◌≡◌, ◌+◌, ◌%◌, ◌++◌, OnOk, IfOk, sum as total};
ghost use Rattle.brd_gdb.specs.Packets as packets;
ghost use Rattle.brd_gdb.specs.Output.{AddsOutput, shown};

use crate::digits::{put_byte, put_hex};
use brd_base::NoMemory;

/// Puts a packet with this payload at the end.
pub fn put_packet(out: &mut Vec<u8>, payload: &[u8]) -> Result<(), NoMemory>
    ensures { OnOk result (out.new.items ≡ out.old.items ++ packets.framed payload.now) }
{
    out.push(b'$')?;
    let sum = put_escaped(out, payload)?;
    out.push(b'#')?;
    put_byte(out, sum)
}

/// How many bytes of a text one packet shows at most: with its letter their digits fit a packet.
const MOST_SHOWN: usize = 8_191;

/// Puts packets at the end that show a text on GDB's console.
pub fn put_output(out: &mut Vec<u8>, text: &[u8]) -> Result<(), NoMemory>
    ensures { OnOk result (AddsOutput text.now out.old.items out.new.items) }
{
    let mut left = text;
    while !left.is_empty() {
        let (part, rest) = left.split_at(left.len().min(MOST_SHOWN));
        put_shown(out, part)?;
        left = rest;
    }
    Ok(())
}

/// Puts a packet at the end that shows a part of a text.
fn put_shown(out: &mut Vec<u8>, part: &[u8]) -> Result<(), NoMemory>
    ensures { OnOk result (out.new.items ≡ out.old.items ++ shown part.now) }
{
    let mut payload = Vec::new(*out.allocator());
    payload.push(b'O')?;
    put_hex(&mut payload, part)?;
    put_packet(out, &payload)
}

/// Puts a payload with escapes at the end, and answers the sum of what it has put.
fn put_escaped(out: &mut Vec<u8>, payload: &[u8]) -> Result<u8, NoMemory>
    ensures put { OnOk result (out.new.items ≡ out.old.items ++ packets.escaped payload.now) }
    ensures sum { IfOk result (λ sum. sum ≡ packets.checksum (packets.escaped payload.now)) }
{
    let mut sum = 0u8;
    for byte in payload {
        sum = put_one(out, *byte, sum)?;
    }
    Ok(sum)
}

/// Puts a byte of a payload at the end, and answers this sum with what it has put.
fn put_one(out: &mut Vec<u8>, byte: u8, sum: u8) -> Result<u8, NoMemory>
    ensures put { OnOk result (out.new.items ≡ out.old.items ++ packets.escape byte) }
    ensures sum { IfOk result (λ more. more ≡ (sum + total (packets.escape byte)) % 256) }
{
    if is_special(byte) {
        out.push(b'}')?;
        out.push(byte ^ 0x20)?;
        return Ok(sum.wrapping_add(b'}').wrapping_add(byte ^ 0x20));
    }
    out.push(byte)?;
    Ok(sum.wrapping_add(byte))
}

/// Whether a byte isn't itself within a packet.
#[tactic(auto, unfolding(crate::specs::Packets::is_special))]
fn is_special(byte: u8) -> bool
    ensures { result ≡ packets.is_special byte }
{
    byte == b'#' || byte == b'$' || byte == b'*' || byte == b'}'
}
