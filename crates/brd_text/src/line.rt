//! The lines of a text.

ghost use Rattle.std.specs.Prelude.{◌≡◌, ◌+◌, ◌<◌, ◌≤◌, ◌^◌, ◌∷◌, length, option_map, IfSome};
ghost use Rattle.std.specs.List.{prefix_len};
ghost use Rattle.brd_text.specs.Lines as lines;

/// The first line, without the newline that ends it, and the text after that newline. `None` where the line ends with
/// the text: then it is the last.
pub fn split_line(text: &[u8]) -> (&[u8], Option<&[u8]>)
    ensures lines { lines.lines_of text.now
        ≡ result.0.now ∷ lines.lines_behind (option_map (λ behind. behind.now) result.1) }
    ensures shorter { IfSome result.1 (λ behind. length behind.now < length text.now) }
{
    let (line, end) = text.split_at(line_len(text));
    match end.split_first() {
        None => (line, None),
        Some((_, behind)) => (line, Some(behind)),
    }
}

/// The line of this number. Lines are counted from 1; where the text has no such line, there are no bytes.
pub fn line_at(text: &[u8], number: usize) -> &[u8]
    ensures { result.now ≡ lines.line_at text.now number }
{
    if number == 0 {
        return &[];
    }
    let mut rest = text;
    for _ in 1..number {
        let (_, Some(behind)) = split_line(rest) else {
            return &[];
        };
        rest = behind;
    }
    let (line, _) = split_line(rest);
    line
}

/// The number of the line after a byte of a line.
pub fn line_after(line: usize, byte: u8) -> usize
    requires { line + 1 < 2 ^ 64 }
    ensures number { result ≡ lines.line_after line byte }
    ensures near { result ≤ line + 1 }
{
    if byte == b'\n' { line + 1 } else { line }
}

/// How many bytes the first line has.
fn line_len(text: &[u8]) -> usize
    ensures is { result ≡ prefix_len lines.stays_on text.now }
    ensures within { result ≤ length text.now }
{
    for (i, byte) in text.iter().enumerate() {
        if !stays_on(*byte) {
            return i;
        }
    }
    text.len()
}

/// Whether a byte isn't the end of its line.
#[tactic(auto, unfolding(crate::specs::Lines::stays_on))]
fn stays_on(byte: u8) -> bool
    ensures { result ≡ lines.stays_on byte }
{
    byte != b'\n'
}
