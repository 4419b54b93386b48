//! The sections of an object file of which something is read here.

ghost use Rattle.std.specs.Prelude.{◌≡◌, ◌≤◌, length, IfSome};

use brd_elf::{half_at, order_of, word_at};
use brd_word::Order;

/// How many bytes a section header has.
const HEADER: usize = 40;

/// The flag of a section whose bytes are compressed.
const COMPRESSED: u32 = 0x800;

/// The kinds of sections.
const SYMBOLS: u32 = 2;

const NO_BYTES: u32 = 8;

/// The bytes of sections; none of one that isn't there.
#[derive(Clone, Copy)]
pub(crate) struct Sections<'a> {
    /// In which order the bytes of the file's numbers lie.
    pub(crate) order: Order,
    /// `.debug_line`.
    pub(crate) lines: &'a [u8],
    /// `.debug_line_str`.
    pub(crate) line_strings: &'a [u8],
    /// `.debug_str`.
    pub(crate) strings: &'a [u8],
    /// The symbol table.
    pub(crate) symbols: &'a [u8],
    /// The names of its symbols.
    pub(crate) names: &'a [u8],
}

/// Section headers that lie in a file.
#[derive(Clone, Copy)]
struct Headers<'a> {
    file: &'a [u8],
    order: Order,
    /// Where they lie.
    start: u32,
    /// How many there are.
    count: u16,
    /// The number of that of the section with the names.
    names: u16,
}

impl<'a> Headers<'a> {
    /// The headers of a file; None where it has none.
    fn of(file: &'a [u8]) -> Option<Headers<'a>> {
        if file.len() < 52 {
            return None;
        }
        let order = order_of(file);
        if half_at(file, 46, order) as usize != HEADER {
            return None;
        }
        Some(Headers {
            file,
            order,
            start: word_at(file, 32, order),
            count: half_at(file, 48, order),
            names: half_at(file, 50, order),
        })
    }

    /// The header of a number.
    fn header(&self, number: u16) -> Option<&'a [u8]>
        ensures { IfSome result (λ header. length header.now ≡ 40) }
    {
        if number >= self.count {
            return None;
        }
        let offset = self.start as usize + HEADER * number as usize;
        part(self.file, offset, HEADER)
    }

    /// The bytes of the section with this header.
    fn bytes(&self, header: &'a [u8]) -> &'a [u8]
        requires { 40 ≤ length header.now }
    {
        let kind = word_at(header, 4, self.order);
        let flags = word_at(header, 8, self.order);
        if kind == NO_BYTES || flags & COMPRESSED != 0 {
            return &[];
        }
        let offset = word_at(header, 16, self.order) as usize;
        let size = word_at(header, 20, self.order) as usize;
        part(self.file, offset, size).unwrap_or(&[])
    }

    /// The bytes of the section of a number.
    fn bytes_of(&self, number: u32) -> &'a [u8] {
        let Ok(number) = u16::try_from(number) else {
            return &[];
        };
        match self.header(number) {
            Some(header) => self.bytes(header),
            None => &[],
        }
    }
}

/// The bytes of a file from an offset on, as many as this.
fn part(file: &[u8], offset: usize, size: usize) -> Option<&[u8]>
    ensures { IfSome result (λ bytes. length bytes.now ≡ size) }
{
    if offset > file.len() || size > file.len() - offset {
        return None;
    }
    Some(&file[offset..offset + size])
}

/// The sections of a file; None where it has no section headers.
pub(crate) fn sections_of(file: &[u8]) -> Option<Sections<'_>> {
    let headers = Headers::of(file)?;
    let names = headers.bytes_of(u32::from(headers.names));
    let mut sections = Sections {
        order: headers.order,
        lines: &[],
        line_strings: &[],
        strings: &[],
        symbols: &[],
        names: &[],
    };
    for number in 0..headers.count {
        let Some(header) = headers.header(number) else {
            break;
        };
        sections = with_section(sections, &headers, header, names);
    }
    Some(sections)
}

/// These sections, and the one with this header where it is one of them.
fn with_section<'a>(
    sections: Sections<'a>,
    headers: &Headers<'a>,
    header: &'a [u8],
    names: &'a [u8],
) -> Sections<'a>
    requires { 40 ≤ length header.now }
{
    let mut sections = sections;
    let order = headers.order;
    if word_at(header, 4, order) == SYMBOLS && sections.symbols.is_empty() {
        sections.symbols = headers.bytes(header);
        sections.names = headers.bytes_of(word_at(header, 24, order));
        return sections;
    }
    let Some(name) = names.get(word_at(header, 0, order) as usize..) else {
        return sections;
    };
    if name.starts_with(b".debug_line\0") {
        sections.lines = headers.bytes(header);
    } else if name.starts_with(b".debug_line_str\0") {
        sections.line_strings = headers.bytes(header);
    } else if name.starts_with(b".debug_str\0") {
        sections.strings = headers.bytes(header);
    }
    sections
}
