//! Reading an input to its end.

ghost use Rattle.std.specs.Prelude.{MatchResult};
ghost use Rattle.brd_inputs.specs.Input.{IsWhole, KeepsFromReading};

use crate::fault::CommandFault;
use crate::growing::put_all;
use crate::input_name::InputName;
use std::alloc::Global;
use std::io::{ErrorKind, Read};

/// How many bytes an input may have.
pub const MOST_BYTES: usize = 134_217_728;

/// How often an input is read at most.
pub const MOST_READS: u32 = 268_435_456;

/// All the bytes that the reader of an input has left. It gives up past 134,217,728 bytes, and after 268,435,456 reads.
pub fn read_whole<R: Read>(
    alloc: Global,
    input: InputName,
    reader: &mut R,
) -> Result<Vec<u8>, CommandFault>
    ensures { MatchResult result (λ bytes. IsWhole (R.remaining reader.old) bytes.items)
        (KeepsFromReading input (R.remaining reader.old)) }
{
    read_within(alloc, input, reader, MOST_READS)
}

/// All the bytes that the reader of an input has left. It gives up past 134,217,728 bytes, and after 268,435,456 reads.
fn read_within<R: Read>(
    alloc: Global,
    input: InputName,
    reader: &mut R,
    most_reads: u32,
) -> Result<Vec<u8>, CommandFault>
    ensures { MatchResult result (λ bytes. IsWhole (R.remaining reader.old) bytes.items)
        (KeepsFromReading input (R.remaining reader.old)) }
{
    let mut bytes = Vec::new(alloc);
    let mut piece = [0u8; 8192];
    for _ in 0..most_reads {
        match reader.read(piece.as_mut_slice()) {
            Ok(0) => return Ok(bytes),
            Ok(n) => {
                if n > MOST_BYTES - bytes.len() {
                    return Err(CommandFault::TooLong(input));
                }
                put_all(&mut bytes, &piece[..n])?;
            }
            Err(error) => {
                if error.kind() != ErrorKind::Interrupted {
                    return Err(CommandFault::of_read(input, error));
                }
            }
        }
    }
    Err(CommandFault::TooManyReads(input))
}
