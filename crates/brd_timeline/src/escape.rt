//! Bytes of names and labels in texts that give some bytes a meaning of their own.

ghost use Rattle.std.specs.Prelude.{◌≡◌, ◌++◌, OnOk};
ghost use Rattle.std.specs.List.{flat_map};
ghost use Rattle.brd_timeline.specs.Escapes as escapes;

use brd_base::NoMemory;
use brd_text::hex_digits;

/// The two hexadecimal digits of a byte.
#[tactic(auto, unfolding(brd_text::specs::Hex::hex_of))]
fn two_digits(byte: u8) -> [u8; 2]
    ensures { result ≡ escapes.two_digits byte }
{
    let [.., high, low] = hex_digits(byte as u32);
    [high, low]
}

/// Whether a byte is a printable character of ASCII.
fn is_printable(byte: u8) -> bool
    ensures { result ≡ escapes.is_printable byte }
{
    b' ' <= byte && byte <= b'~'
}

/// Puts bytes at the end as a string of JSON, with its quotes: printable ASCII as it is, but for the quote and the
/// backslash, and any other byte as the character of its number, `\u00XX`.
pub(crate) fn put_json(to: &mut Vec<u8>, text: &[u8]) -> Result<(), NoMemory>
    ensures { OnOk result (to.new.items ≡ to.old.items ++ escapes.json_string text.now) }
{
    to.push(b'"')?;
    put_json_bytes(to, text)?;
    to.push(b'"')?;
    Ok(())
}

/// Puts bytes at the end as they stand in a string of JSON, without its quotes.
pub(crate) fn put_json_bytes(to: &mut Vec<u8>, text: &[u8]) -> Result<(), NoMemory>
    ensures { OnOk result (to.new.items ≡ to.old.items ++ flat_map escapes.json_byte text.now) }
{
    for byte in text {
        put_json_byte(to, *byte)?;
    }
    Ok(())
}

/// Puts a byte at the end as it stands in a string of JSON.
fn put_json_byte(to: &mut Vec<u8>, byte: u8) -> Result<(), NoMemory>
    ensures { OnOk result (to.new.items ≡ to.old.items ++ escapes.json_byte byte) }
{
    if byte == b'"' || byte == b'\\' {
        to.push(b'\\')?;
        to.push(byte)?;
        return Ok(());
    }
    if is_printable(byte) {
        to.push(byte)?;
        return Ok(());
    }
    to.extend_from_slice(b"\\u00")?;
    to.extend_from_slice(&two_digits(byte))?;
    Ok(())
}

/// Puts bytes at the end as text of XML: printable ASCII as it is, but for the five characters that have a meaning
/// there, and any other byte as `\xXX`, since XML has no way to write control characters.
pub(crate) fn put_xml(to: &mut Vec<u8>, text: &[u8]) -> Result<(), NoMemory>
    ensures { OnOk result (to.new.items ≡ to.old.items ++ escapes.xml_text text.now) }
{
    for byte in text {
        put_xml_byte(to, *byte)?;
    }
    Ok(())
}

/// Puts a byte at the end as it stands in text of XML.
fn put_xml_byte(to: &mut Vec<u8>, byte: u8) -> Result<(), NoMemory>
    ensures { OnOk result (to.new.items ≡ to.old.items ++ escapes.xml_byte byte) }
{
    match byte {
        b'&' => to.extend_from_slice(b"&amp;")?,
        b'<' => to.extend_from_slice(b"&lt;")?,
        b'>' => to.extend_from_slice(b"&gt;")?,
        b'"' => to.extend_from_slice(b"&quot;")?,
        b'\'' => to.extend_from_slice(b"&#39;")?,
        b' '..=b'~' => to.push(byte)?,
        _ => {
            to.extend_from_slice(b"\\x")?;
            to.extend_from_slice(&two_digits(byte))?;
        }
    }
    Ok(())
}
