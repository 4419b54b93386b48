//! Pieces of text that are put at the end of bytes.

ghost use Rattle.std.specs.Prelude.{◌≡◌, ◌++◌, OnOk};
ghost use Rattle.std.specs.Fmt.{decimal};
ghost use Rattle.brd_text.specs.Hex.{hex_of};

use crate::hex::hex_digits;
use brd_base::NoMemory;
use itoa::Buffer;

/// Puts a text at the end.
pub fn put(to: &mut Vec<u8>, text: &str) -> Result<(), NoMemory>
    ensures { OnOk result (to.new.items ≡ to.old.items ++ text.now) }
{
    to.extend_from_slice(text.as_bytes())?;
    Ok(())
}

/// Puts a decimal number at the end.
pub fn put_decimal(to: &mut Vec<u8>, number: u64) -> Result<(), NoMemory>
    ensures { OnOk result (to.new.items ≡ to.old.items ++ decimal number) }
{
    let mut buffer = Buffer::new();
    to.extend_from_slice(buffer.format(number).as_bytes())?;
    Ok(())
}

/// Puts a word at the end, as eight hexadecimal digits.
pub fn put_word(to: &mut Vec<u8>, word: u32) -> Result<(), NoMemory>
    ensures { OnOk result (to.new.items ≡ to.old.items ++ hex_of word) }
{
    to.extend_from_slice(&hex_digits(word))?;
    Ok(())
}
