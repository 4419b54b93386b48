//! Reading standard input line by line, as it comes.

ghost use Rattle.std.specs.Prelude.{◌≡◌, ℕ, ◌≤◌, true, List as ListOf, option_map, MatchResult, IfOk, Some as some};
ghost use Rattle.brd_inputs.specs.Input.{most_bytes};
ghost use Rattle.brd_running.specs.Lines.{KnowsEnd, TakesByte, CountsByte, TakesLine, CountsLine, KeepsFromTaking};

use brd_inputs::{CommandFault, InputName, MOST_BYTES, MOST_READS, put};
use std::alloc::Global;
use std::io::{ErrorKind, Read};

/// How much of an input was taken.
#[derive(Clone, Copy)]
pub struct Taken {
    /// How many bytes it has given.
    pub bytes: usize,
    /// How often it was read.
    pub reads: u32,
    /// Whether it is known to have ended: it isn't read again.
    pub ended: bool,
}

/// The next line, without its newline; `None` where no byte is left. It gives up past 134,217,728 bytes, and after
/// 268,435,456 reads, those of earlier lines too.
pub fn next_line<R: Read>(
    alloc: Global,
    reader: &mut R,
    taken: &mut Taken,
) -> Result<Option<Vec<u8>>, CommandFault>
    requires few { taken.old.bytes ≤ most_bytes }
    requires ended { KnowsEnd taken.old (R.remaining reader.old) }
    ensures counts { IfOk result (λ line. CountsLine taken.old (option_map (λ bytes. bytes.items) line) taken.new) }
    ensures ended { KnowsEnd taken.new (R.remaining reader.new) }
    ensures reads { taken.old.reads ≤ taken.new.reads }
    ensures takes { (text : ListOf ℕ) → R.remaining reader.old ≡ some text
        → MatchResult result
        (λ line. TakesLine text taken.old (option_map (λ bytes. bytes.items) line) (R.remaining reader.new) taken.new)
        (KeepsFromTaking taken.old text) }
{
    let mut line = Vec::new(alloc);
    loop {
        let byte = match next_byte(reader, taken) {
            Ok(Some(byte)) => byte,
            Ok(None) => break,
            Err(fault) => return Err(fault),
        };
        if byte == b'\n' {
            return Ok(Some(line));
        }
        put(&mut line, byte)?;
    }
    if line.is_empty() {
        return Ok(None);
    }
    Ok(Some(line))
}

/// The next byte, `None` at the end. An input that is known to have ended isn't read.
pub fn next_byte<R: Read>(reader: &mut R, taken: &mut Taken) -> Result<Option<u8>, CommandFault>
    requires few { taken.old.bytes ≤ most_bytes }
    requires ended { KnowsEnd taken.old (R.remaining reader.old) }
    ensures counts { IfOk result (λ byte. CountsByte taken.old byte taken.new) }
    ensures unread { taken.old.ended ≡ true → (reader.new ≡ reader.old) × (taken.new ≡ taken.old) }
    ensures ended { KnowsEnd taken.new (R.remaining reader.new) }
    ensures reads { taken.old.reads ≤ taken.new.reads }
    ensures takes { (text : ListOf ℕ) → R.remaining reader.old ≡ some text
        → MatchResult result (λ byte. TakesByte text byte (R.remaining reader.new)) (KeepsFromTaking taken.old text) }
{
    if taken.ended {
        return Ok(None);
    }
    let mut place = [0u8; 1];
    while taken.reads < MOST_READS {
        taken.reads += 1;
        match reader.read(place.as_mut_slice()) {
            Ok(0) => {
                taken.ended = true;
                return Ok(None);
            }
            Ok(_) => {
                if taken.bytes == MOST_BYTES {
                    return Err(CommandFault::TooLong(InputName::StandardInput));
                }
                taken.bytes += 1;
                return Ok(Some(place[0]));
            }
            Err(error) => {
                if error.kind() != ErrorKind::Interrupted {
                    return Err(CommandFault::of_read(InputName::StandardInput, error));
                }
            }
        }
    }
    Err(CommandFault::TooManyReads(InputName::StandardInput))
}
