//! The text of a diagnosis.

ghost use Rattle.std.specs.Prelude.{⊤};

use itoa::Buffer;
use std::fmt;
use std::marker::Model;

/// How many bytes a diagnosis has at most, so that a message has at most 240 columns.
const MOST: usize = 230;

/// How many bytes of a name are shown.
pub(crate) const MOST_OF_NAME: usize = 40;

/// How many bytes of advice are shown: all, where it is a table's.
pub(crate) const MOST_OF_ADVICE: usize = 130;

/// The text of a diagnosis: printable ASCII on one line, or nothing. Contracts see nothing of it.
#[derive(Debug, Drop)]
pub struct FaultHint {
    bytes: [u8; 230],
    len: usize,
}

impl Model for FaultHint {
    ghost Value = { ⊤ };

    ghost view = { λ _. tt };
}

impl FaultHint {
    /// No text.
    pub fn none() -> Self {
        FaultHint {
            bytes: [0; 230],
            len: 0,
        }
    }

    /// Whether there is no text.
    pub fn is_none(&self) -> bool {
        self.len == 0
    }

    /// Puts a byte at the end as it is shown: a tab as a space, what isn't printable ASCII as `?`. Past the end it is
    /// left out.
    pub(crate) fn put(&mut self, byte: u8) {
        if self.len < MOST {
            self.bytes[self.len] = shown(byte);
            self.len += 1;
        }
    }

    /// Puts bytes at the end.
    pub(crate) fn put_all(&mut self, bytes: &[u8]) {
        for byte in bytes {
            self.put(*byte);
        }
    }

    /// Puts the front of a text at the end, of no more bytes than this.
    pub(crate) fn put_front(&mut self, name: &[u8], most: usize) {
        if name.len() <= most {
            self.put_all(name);
            return;
        }
        let (front, _) = name.split_at(most);
        self.put_all(front);
        self.put_all(b"..");
    }

    /// Puts a number at the end, in decimal.
    pub(crate) fn put_number(&mut self, number: u64) {
        let mut buffer = Buffer::new();
        self.put_all(buffer.format(number).as_bytes());
    }

    /// Puts an address at the end: `0x`, and eight hexadecimal digits.
    pub(crate) fn put_address(&mut self, address: u64) {
        self.put_all(b"0x");
        let digits = brd_text::hex_digits((address % 0x1_0000_0000) as u32);
        self.put_all(digits.as_slice());
    }
}

impl fmt::Display for FaultHint {
    fn fmt<W: fmt::Write>(&self, f: &mut fmt::Formatter<W>) -> fmt::Result {
        let mut left = self.len;
        for byte in self.bytes.as_slice() {
            if left == 0 {
                return Ok(());
            }
            f.write_char(*byte as char)?;
            left -= 1;
        }
        Ok(())
    }
}

/// A byte as it is shown.
fn shown(byte: u8) -> u8 {
    match byte {
        b' '..=b'~' => byte,
        b'\t' => b' ',
        _ => b'?',
    }
}
