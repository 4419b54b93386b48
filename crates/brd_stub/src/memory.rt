//! Memory, as GDB reads it.

ghost use Rattle.std.specs.Prelude.{◌≡◌, ◌++◌, OnOk, IfOk};
ghost use Rattle.brd_stub.specs.Reading.{IsFront, IsMemoryText};

use brd_base::NoMemory;
use brd_board::Board;
use brd_gdb::put_hex;
use std::alloc::Global;

/// How many bytes of memory an answer has at most: half of those of a packet.
const MOST_READ: u32 = 8_192;

/// What is answered to a request for memory: the bytes from an address on, as far as RAM has them, and an error where
/// it doesn't have the first.
pub fn show_memory(
    alloc: Global,
    board: &Board,
    address: u32,
    length: u32,
) -> Result<Vec<u8>, NoMemory>
    ensures { IfOk result (λ reply. IsMemoryText board.now.memory address length reply.items) }
{
    let bytes = front(alloc, board, address, length.min(MOST_READ))?;
    let mut reply = Vec::new(alloc);
    if bytes.is_empty() {
        reply.extend_from_slice(b"E01")?;
    } else {
        put_hex(&mut reply, &bytes)?;
    }
    Ok(reply)
}

/// The bytes from an address on, up to a number of them, as far as RAM has them.
fn front(alloc: Global, board: &Board, address: u32, most: u32) -> Result<Vec<u8>, NoMemory>
    ensures { IfOk result (λ bytes. IsFront board.now.memory address most bytes.items) }
{
    let mut bytes = Vec::new(alloc);
    for i in 0..most {
        let Some(byte) = board.memory(address.wrapping_add(i)) else {
            return Ok(bytes);
        };
        bytes.push(byte)?;
    }
    Ok(bytes)
}
