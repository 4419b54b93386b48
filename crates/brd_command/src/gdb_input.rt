//! What GDB sends, byte by byte.

ghost use Rattle.std.specs.Prelude.{◌≡◌, ℕ, List as ListOf, MatchResult, Some as some};
ghost use Rattle.brd_running.specs.Lines.{TakesByte};
ghost use Rattle.brd_command.specs.GdbCommand.{KeepsByte};

use brd_inputs::{CommandFault, InputName, MOST_READS};
use std::io::{ErrorKind, Read};

/// The next byte, `None` at the end. It gives up after 268,435,456 reads that are interrupted. How many bytes came
/// before makes no difference.
pub fn next_sent<R: Read>(input: &mut R) -> Result<Option<u8>, CommandFault>
    ensures { (text : ListOf ℕ) → R.remaining input.old ≡ some text
        → MatchResult result (λ byte. TakesByte text byte (R.remaining input.new)) KeepsByte }
{
    let mut place = [0u8; 1];
    for _ in 0..MOST_READS {
        match input.read(place.as_mut_slice()) {
            Ok(0) => return Ok(None),
            Ok(_) => return Ok(Some(place[0])),
            Err(error) => {
                if error.kind() != ErrorKind::Interrupted {
                    return Err(CommandFault::of_read(InputName::StandardInput, error));
                }
            }
        }
    }
    Err(CommandFault::TooManyReads(InputName::StandardInput))
}
