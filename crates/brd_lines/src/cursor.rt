//! Numbers and strings one behind the other, as a line table has them.

ghost use Rattle.std.specs.Prelude.{◌≡◌, length, IfOk};

use crate::flaw::Flaw;
use brd_elf::{half_at, word_at};
use brd_word::Order;

/// Bytes that are read from their beginning on.
#[derive(Clone, Copy)]
pub(crate) struct Cursor<'a> {
    /// What is left.
    pub(crate) rest: &'a [u8],
    /// In which order the bytes of a number lie.
    pub(crate) order: Order,
}

impl<'a> Cursor<'a> {
    /// Whether nothing is left.
    pub(crate) fn is_empty(&self) -> bool {
        self.rest.is_empty()
    }

    /// The next bytes, as many as this.
    pub(crate) fn take(&mut self, len: usize) -> Result<&'a [u8], Flaw>
        ensures { IfOk result (λ bytes. length bytes.now ≡ len) }
    {
        if len > self.rest.len() {
            return Err(Flaw::Damaged);
        }
        let (front, rest) = self.rest.split_at(len);
        self.rest = rest;
        Ok(front)
    }

    /// The next byte.
    pub(crate) fn byte(&mut self) -> Result<u8, Flaw> {
        let Some((byte, rest)) = self.rest.split_first() else {
            return Err(Flaw::Damaged);
        };
        self.rest = rest;
        Ok(*byte)
    }

    /// The number in the next two bytes.
    pub(crate) fn half(&mut self) -> Result<u16, Flaw> {
        let bytes = self.take(2)?;
        Ok(half_at(bytes, 0, self.order))
    }

    /// The number in the next four bytes.
    pub(crate) fn word(&mut self) -> Result<u32, Flaw> {
        let bytes = self.take(4)?;
        Ok(word_at(bytes, 0, self.order))
    }

    /// The next number in the form ULEB128.
    pub(crate) fn unsigned(&mut self) -> Result<u64, Flaw> {
        let mut value = 0u64;
        for place in 0..10u32 {
            let byte = self.byte()?;
            value |= u64::from(byte & 0x7f) << (7 * place);
            if byte < 0x80 {
                return Ok(value);
            }
        }
        Err(Flaw::Damaged)
    }

    /// The next number in the form SLEB128, modulo 2^64.
    pub(crate) fn signed(&mut self) -> Result<u64, Flaw> {
        let mut value = 0u64;
        for place in 0..9u32 {
            let byte = self.byte()?;
            value |= u64::from(byte & 0x7f) << (7 * place);
            if byte < 0x80 {
                if byte >= 0x40 {
                    value |= u64::MAX << (7 * place + 7);
                }
                return Ok(value);
            }
        }
        Err(Flaw::Damaged)
    }

    /// The next string. A byte 0 ends it.
    pub(crate) fn string(&mut self) -> Result<&'a [u8], Flaw> {
        let string = self.take(string_len(self.rest))?;
        self.byte()?;
        Ok(string)
    }
}

/// How many bytes stand before the first byte 0, or altogether.
pub(crate) fn string_len(bytes: &[u8]) -> usize {
    for (place, byte) in bytes.iter().enumerate() {
        if *byte == 0 {
            return place;
        }
    }
    bytes.len()
}
