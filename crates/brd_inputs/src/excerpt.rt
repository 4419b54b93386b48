//! What a fault shows of a text: its front, on one line.

ghost use Rattle.std.specs.Prelude.{◌≡◌, ◌≤◌, IfOk, Some, take};
ghost use Rattle.brd_inputs.specs.Excerpt as excerpt;

use brd_base::NoMemory;
use brd_text::line_at;
use std::alloc::Global;
use std::fmt;
use std::marker::Model;

/// How many bytes of a line are shown.
const MOST_OF_LINE: usize = 60;

/// How many bytes of a file's name are shown.
const MOST_OF_NAME: usize = 255;

/// The front of a text: a tab as a space, what isn't printable ASCII as `?`. So it stays on one line, whatever the text
/// holds.
#[derive(Debug, Drop)]
pub struct Excerpt {
    text: String,
}

impl Model for Excerpt {
    ghost use Rattle.std.specs.Prelude.{ℕ, List, string_bytes};
    ghost use Rattle.brd_inputs.specs.Excerpt.{ArePrintable};

    ghost Value = { List ℕ };

    ghost view = { λ excerpt. string_bytes excerpt.text };

    ghost invariant = { λ excerpt. ArePrintable (string_bytes excerpt.text) };
}

impl Excerpt {
    /// The front of the line of that number. Lines are counted from 1.
    pub fn of_line(alloc: Global, text: &[u8], number: usize) -> Result<Self, NoMemory>
        ensures { IfOk result (λ shown. shown ≡ excerpt.line_excerpt text.now number) }
    {
        Excerpt::front(alloc, line_at(text, number), MOST_OF_LINE)
    }

    /// The front of a file's name.
    pub fn of_name(alloc: Global, name: &str) -> Result<Self, NoMemory>
        ensures { IfOk result (λ shown. shown ≡ excerpt.name_excerpt name.now) }
    {
        Excerpt::front(alloc, name.as_bytes(), MOST_OF_NAME)
    }

    /// The front of a text, of no more bytes than this.
    fn front(alloc: Global, text: &[u8], most: usize) -> Result<Self, NoMemory>
        ensures { IfOk result (λ shown. shown ≡ excerpt.front_shown most text.now) }
    {
        let mut shown = String::new(alloc);
        for byte in front_of(text, most) {
            shown.push(shown_byte(*byte) as char)?;
        }
        Ok(Excerpt { text: shown })
    }
}

impl fmt::Display for Excerpt {
    ghost output = { λ shown. Some shown };

    fn fmt<W: fmt::Write>(&self, f: &mut fmt::Formatter<W>) -> fmt::Result {
        f.write_str(self.text.as_str())
    }
}

/// No more than n bytes.
pub fn front_of(text: &[u8], most: usize) -> &[u8]
    ensures { result.now ≡ take most text.now }
{
    if text.len() <= most {
        return text;
    }
    let (front, _) = text.split_at(most);
    front
}

/// A byte as it is shown.
fn shown_byte(byte: u8) -> u8
    ensures is { result ≡ excerpt.shown_byte byte }
    ensures least { 32 ≤ result }
    ensures most { result ≤ 126 }
{
    match byte {
        b' '..=b'~' => byte,
        b'\t' => b' ',
        _ => b'?',
    }
}
