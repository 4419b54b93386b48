//! Pieces of text.

ghost use Rattle.std.specs.Prelude.{◌≡◌, ◌++◌, ◌≤◌, IfOk, OnOk};
ghost use Rattle.std.specs.Fmt.{decimal};
ghost use Rattle.brd_text.specs.Hex.{hex_of};
ghost use Rattle.brd_listing.specs.Names.{IsPrintable, shown_name};
ghost use Rattle.brd_timeline.specs.Ends.{EndsWith};
ghost use Rattle.brd_names.specs.Lines.{
  blanks,
  named_text,
  time_handler_text,
  called_text,
  count_text,
  signed_text,
};

use brd_base::NoMemory;
use brd_listing::write_name;
use brd_text::hex_digits;
use std::alloc::Global;

/// Blanks, as many as the widest column has.
const BLANKS: &[u8] = b"                    ";

/// Puts a text at the end.
pub fn put(out: &mut Vec<u8>, text: &str) -> Result<(), NoMemory>
    ensures is { OnOk result (out.new.items ≡ out.old.items ++ text.now) }
    ensures ends { IfOk result (λ _. EndsWith text.now out.new.items) }
{
    out.extend_from_slice(text.as_bytes())?;
    Ok(())
}

/// Words in printable ASCII alone: what isn't, is shown as in names.
pub fn printable(alloc: Global, words: &[u8]) -> Result<Vec<u8>, NoMemory>
    ensures is { IfOk result (λ shown. shown.items ≡ shown_name words.now) }
    ensures printable { IfOk result (λ shown. IsPrintable shown.items) }
{
    let mut shown = Vec::new(alloc);
    write_name(words, &mut shown)?;
    Ok(shown)
}

/// Puts a number at the end, in decimal.
pub fn put_number(alloc: Global, out: &mut Vec<u8>, number: u64) -> Result<(), NoMemory>
    ensures { OnOk result (out.new.items ≡ out.old.items ++ decimal number) }
{
    let text = format!(in alloc; "{number}")?;
    out.extend_from_slice(text.as_bytes())?;
    Ok(())
}

/// Puts a word at the end, as a signed number.
pub fn put_signed(alloc: Global, out: &mut Vec<u8>, word: u32) -> Result<(), NoMemory>
    ensures { OnOk result (out.new.items ≡ out.old.items ++ signed_text word) }
{
    if word < 0x8000_0000 {
        return put_number(alloc, out, u64::from(word));
    }
    out.push(b'-')?;
    put_number(alloc, out, 0x1_0000_0000 - u64::from(word))
}

/// Puts a word at the end, as eight hexadecimal digits.
pub fn put_word(out: &mut Vec<u8>, word: u32) -> Result<(), NoMemory>
    ensures { OnOk result (out.new.items ≡ out.old.items ++ hex_of word) }
{
    out.extend_from_slice(&hex_digits(word))?;
    Ok(())
}

/// Puts a name and a number at the end.
pub fn put_named(alloc: Global, out: &mut Vec<u8>, name: &str, number: u64) -> Result<(), NoMemory>
    ensures { OnOk result (out.new.items ≡ out.old.items ++ named_text name.now number) }
{
    put(out, name)?;
    out.push(b' ')?;
    put_number(alloc, out, number)
}

/// Puts at the end what is called by a word and the number of an interrupt line; from line 32 on by the line's time
/// handler.
pub fn put_called(alloc: Global, out: &mut Vec<u8>, word: &str, line: u16) -> Result<(), NoMemory>
    ensures { OnOk result (out.new.items ≡ out.old.items ++ called_text word.now line) }
{
    if line < 32 {
        return put_named(alloc, out, word, u64::from(line));
    }
    put_time_handler(alloc, out, line)
}

/// Puts at the end what the time handler of a line is called.
fn put_time_handler(alloc: Global, out: &mut Vec<u8>, line: u16) -> Result<(), NoMemory>
    requires { 32 ≤ line }
    ensures { OnOk result (out.new.items ≡ out.old.items ++ time_handler_text line) }
{
    if line % 2 == 0 {
        return put_named(alloc, out, "cyclic handler", u64::from((line - 30) / 2));
    }
    put_named(alloc, out, "alarm handler", u64::from((line - 31) / 2))
}

/// Puts a comma at the end, unless nothing stands there yet.
pub fn put_comma(out: &mut Vec<u8>) -> Result<(), NoMemory> {
    if !out.is_empty() {
        put(out, ", ")?;
    }
    Ok(())
}

/// Puts a count of things at the end, the name with an s unless there is one.
pub fn put_count(alloc: Global, out: &mut Vec<u8>, count: u64, name: &str) -> Result<(), NoMemory>
    ensures { OnOk result (out.new.items ≡ out.old.items ++ count_text count name.now) }
{
    put_number(alloc, out, count)?;
    out.push(b' ')?;
    put(out, name)?;
    if count == 1 {
        return Ok(());
    }
    put(out, "s")
}

/// Puts blanks at the end, at most twenty.
pub fn put_blanks(out: &mut Vec<u8>, count: usize) -> Result<(), NoMemory>
    requires { count ≤ 20 }
    ensures { OnOk result (out.new.items ≡ out.old.items ++ blanks count) }
{
    out.extend_from_slice(&BLANKS[..count])?;
    Ok(())
}
