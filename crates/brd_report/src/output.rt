//! Writing an output whole.

ghost use Rattle.std.specs.Prelude.{OnOk, OnErr};
ghost use Rattle.std.specs.Io.KnownBytes.{Appends};
ghost use Rattle.brd_report.specs.Output.{AppendsFront};

use std::io::{self, ErrorKind, Write};

/// Writes all of the bytes and flushes the writer. Where that fails, a front of them was written, and nothing is
/// written any more.
pub fn write_whole<W: Write>(writer: &mut W, bytes: &[u8]) -> io::Result<()>
    ensures whole { OnOk result (Appends (W.contents writer.old) (W.contents writer.new) bytes.now) }
    ensures front { OnErr result (AppendsFront (W.contents writer.old) (W.contents writer.new) bytes.now) }
{
    let mut left = bytes;
    for _ in 0..u64::MAX {
        if left.is_empty() {
            return writer.flush();
        }
        match writer.write(left) {
            Ok(0) => return Err(io::Error::from(ErrorKind::WriteZero)),
            Ok(n) => {
                let (_, rest) = left.split_at(n);
                left = rest;
            }
            Err(error) => {
                if error.kind() != ErrorKind::Interrupted {
                    return Err(error);
                }
            }
        }
    }
    Err(io::Error::from(ErrorKind::Interrupted))
}
