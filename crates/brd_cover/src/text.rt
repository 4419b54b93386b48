//! Pieces of text.

ghost use Rattle.std.specs.Prelude.{◌≡◌, ◌++◌, IfOk, OnOk, codes};
ghost use Rattle.std.specs.List.{flat_map};
ghost use Rattle.brd_cover.specs.Names.{name_byte, path_byte};
ghost use Rattle.brd_timeline.specs.Ends.{EndsWith};

use brd_base::NoMemory;
use brd_listing::write_name;
use brd_text::put_decimal;

/// Puts a text at the end.
pub(crate) fn put(to: &mut Vec<u8>, text: &str) -> Result<(), NoMemory>
    ensures { IfOk result (λ _. EndsWith text.now to.new.items) }
{
    to.extend_from_slice(text.as_bytes())?;
    Ok(())
}

/// Puts a text at the end, a decimal number and a newline.
pub(crate) fn put_line(to: &mut Vec<u8>, text: &str, number: u64) -> Result<(), NoMemory>
    ensures { IfOk result (λ _. EndsWith (codes "\n") to.new.items) }
{
    put(to, text)?;
    put_decimal(to, number)?;
    put(to, "\n")
}

/// Puts the name of a function at the end, as text shows it, and a comma, which ends a part of a line, as `\x2c`.
pub(crate) fn put_name(to: &mut Vec<u8>, name: &[u8]) -> Result<(), NoMemory>
    ensures { OnOk result (to.new.items ≡ to.old.items ++ flat_map name_byte name.now) }
{
    for byte in name {
        put_name_byte(to, *byte)?;
    }
    Ok(())
}

/// Puts a byte of the name of a function at the end.
fn put_name_byte(to: &mut Vec<u8>, byte: u8) -> Result<(), NoMemory>
    ensures { OnOk result (to.new.items ≡ to.old.items ++ name_byte byte) }
{
    if byte == b',' {
        to.extend_from_slice(b"\\x2c")?;
        return Ok(());
    }
    write_name(&[byte], to)
}

/// Puts the path of a file at the end, by which the tools open it: a control character of ASCII as `\xHH`.
pub(crate) fn put_path(to: &mut Vec<u8>, path: &[u8]) -> Result<(), NoMemory>
    ensures { OnOk result (to.new.items ≡ to.old.items ++ flat_map path_byte path.now) }
{
    for byte in path {
        put_path_byte(to, *byte)?;
    }
    Ok(())
}

/// Puts a byte of a path at the end.
fn put_path_byte(to: &mut Vec<u8>, byte: u8) -> Result<(), NoMemory>
    ensures { OnOk result (to.new.items ≡ to.old.items ++ path_byte byte) }
{
    if byte >= 0x80 {
        to.push(byte)?;
        return Ok(());
    }
    write_name(&[byte], to)
}

#[cfg(test)]
mod tests {
    use super::*;
    use std::test::Fail;

    #[test]
    fn names_stay_in_their_line(rt: HostRuntime) -> Result<(), Fail> {
        let mut text = Vec::new(rt.alloc());
        put_name(&mut text, b"a,b\n\xc3\xa4")?;
        assert!(rt; text.as_slice() == b"a\\x2cb\\x0a\\xc3\\xa4".as_slice());
        Ok(())
    }

    #[test]
    fn paths_stay_in_their_line(rt: HostRuntime) -> Result<(), Fail> {
        let mut text = Vec::new(rt.alloc());
        put_path(&mut text, b"a,\x1b/\xc3\xa4.c")?;
        assert!(rt; text.as_slice() == b"a,\\x1b/\xc3\xa4.c".as_slice());
        Ok(())
    }
}
