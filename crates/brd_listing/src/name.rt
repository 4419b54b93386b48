//! Names as text shows them.

ghost use Rattle.std.specs.Prelude.{◌≡◌, ◌++◌, OnOk};
ghost use Rattle.brd_listing.specs.Names as names;

use brd_base::NoMemory;
use brd_text::hex_digits;

/// Puts the name of a symbol or of a file at the end, as text shows it: printable ASCII as it is, and any other byte as
/// `\xHH`, so that a name neither ends its line nor gives a terminal commands. Where memory runs out, a front of it may
/// be there.
pub fn write_name(name: &[u8], to: &mut Vec<u8>) -> Result<(), NoMemory>
    ensures { OnOk result (to.new.items ≡ to.old.items ++ names.shown_name name.now) }
{
    for byte in name {
        put_byte(*byte, to)?;
    }
    Ok(())
}

/// Puts a byte of a name at the end.
fn put_byte(byte: u8, to: &mut Vec<u8>) -> Result<(), NoMemory>
    ensures { OnOk result (to.new.items ≡ to.old.items ++ names.shown_byte byte) }
{
    if is_printable(byte) {
        to.push(byte)?;
        return Ok(());
    }
    to.extend_from_slice(b"\\x")?;
    to.extend_from_slice(&two_digits(byte))?;
    Ok(())
}

/// Whether a byte is a printable character of ASCII.
fn is_printable(byte: u8) -> bool
    ensures { result ≡ names.is_printable byte }
{
    b' ' <= byte && byte <= b'~'
}

/// The two hexadecimal digits of a byte.
#[tactic(auto, unfolding(brd_text::specs::Hex::hex_of))]
fn two_digits(byte: u8) -> [u8; 2]
    ensures { result ≡ names.two_digits byte }
{
    let [.., high, low] = hex_digits(byte as u32);
    [high, low]
}
