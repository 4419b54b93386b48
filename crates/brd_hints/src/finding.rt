//! What a diagnosis has found.

use crate::hint::{FaultHint, MOST_OF_ADVICE, MOST_OF_NAME};
use crate::instead::put_line;

/// The bytes with which some editors begin a text.
pub(crate) const BYTE_ORDER_MARK: &[u8] = b"\xef\xbb\xbf";

/// What is said of them.
pub(crate) const MARKED: &[u8] =
    b"a byte order mark stands before the first line: save the text without it";

/// What is wrong at a place of a line. In the template `~` stands for the word, `^` for the other word, `?` for the
/// number in decimal, `&` for the second one, `@` for the address, and `|` for the line to write.
#[derive(Clone, Copy)]
pub(crate) struct Finding<'a> {
    /// How many bytes the line has from this place on.
    pub rest: usize,
    /// What is said.
    pub template: &'a [u8],
    /// A word of the line.
    pub word: &'a [u8],
    /// Another word.
    pub other: &'a [u8],
    /// A number, as that of a line.
    pub number: u64,
    /// Another number.
    pub second: u64,
    /// An address.
    pub address: u64,
    /// The line to write, for an instruction of that name and with these operands.
    pub line: Option<(&'static [u8], &'a [u8], &'a [u8])>,
}

impl<'a> Finding<'a> {
    /// What is wrong at the place from which on the line has these bytes.
    pub(crate) fn at(rest: &[u8], template: &'a [u8], word: &'a [u8]) -> Self {
        Finding {
            rest: rest.len(),
            template,
            word,
            other: &[],
            number: 0,
            second: 0,
            address: 0,
            line: None,
        }
    }

    /// With n bytes less after the place.
    pub(crate) fn shortened(self, by: usize) -> Self {
        Finding {
            rest: self.rest.saturating_sub(by),
            ..self
        }
    }

    /// With another word.
    pub(crate) fn with_other(self, other: &'a [u8]) -> Self {
        Finding { other, ..self }
    }

    /// With a number.
    pub(crate) fn with_number(self, number: u64) -> Self {
        Finding { number, ..self }
    }

    /// With another number.
    pub(crate) fn with_second(self, second: u64) -> Self {
        Finding { second, ..self }
    }

    /// With an address.
    pub(crate) fn with_address(self, address: u64) -> Self {
        Finding { address, ..self }
    }

    /// With a line to write, for an instruction of this name and with these operands.
    pub(crate) fn with_line(self, line: &'static [u8], name: &'a [u8], operands: &'a [u8]) -> Self {
        Finding {
            line: Some((line, name, operands)),
            ..self
        }
    }

    /// Puts what is said at the end of a text.
    pub(crate) fn put_on(&self, hint: &mut FaultHint) {
        for byte in self.template {
            match *byte {
                b'~' => hint.put_front(self.word, MOST_OF_NAME),
                b'^' => hint.put_front(self.other, MOST_OF_ADVICE),
                b'?' => hint.put_number(self.number),
                b'&' => hint.put_number(self.second),
                b'@' => hint.put_address(self.address),
                b'|' => self.put_line_on(hint),
                other => hint.put(other),
            }
        }
    }

    /// Puts the line to write at the end of a text.
    fn put_line_on(&self, hint: &mut FaultHint) {
        if let Some((line, name, operands)) = self.line {
            put_line(hint, line, name, operands);
        }
    }
}

/// The text of what was found in the input that is called so: in a line of that number and of n bytes, where these are
/// told. No text where nothing was found.
pub(crate) fn told(
    input: &[u8],
    line: Option<usize>,
    len: Option<usize>,
    found: Option<Finding>,
) -> FaultHint {
    let mut hint = FaultHint::none();
    if let Some(finding) = found {
        hint.put_all(input);
        if let Some(line) = line {
            hint.put_all(b": line ");
            hint.put_number(line as u64);
        }
        if let Some(len) = len {
            hint.put_all(b", column ");
            hint.put_number((len.saturating_sub(finding.rest) as u64).saturating_add(1));
        }
        hint.put_all(b": ");
        finding.put_on(&mut hint);
    }
    hint
}
