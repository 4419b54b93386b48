//! Files that are made to take long.

ghost use Rattle.std.specs.Prelude.{◌≡◌, ◌/◌};

use std::alloc::{AllocError, Global};
use test_help::put_words;

/// What a file is full of.
#[derive(Clone, Copy, PartialEq, Eq)]
pub enum Kind {
    /// Program headers that load one byte each, from the highest address down.
    Segments,
    /// The same, but the last one loads to where the first one does.
    Overlap,
    /// Program headers of a type that isn't loaded.
    Skipped,
    /// One program header of 16 MiB that aren't in the file.
    Zeros,
    /// Section headers, none of them a symbol table.
    Sections,
    /// Symbols with names of fifteen bytes, each another one.
    Names,
    /// Symbols with names of three bytes, whose last two are any but 0.
    Bytes,
    /// Symbols that all have the one long name.
    OneName,
    /// Symbols whose names are ends of copies of one string, so that most have an earlier one's name.
    Copies,
    /// An eighth as many symbols whose names are the ends of one long string: each name is another.
    Ends,
}

/// How large the files are: how many headers or symbols they have, and how long their strings are.
#[derive(Clone, Copy)]
pub struct Size {
    /// Headers or symbols.
    pub count: u16,
    /// Bytes of the strings.
    pub strings: u32,
}

/// For a look at what is answered.
pub const SMALL: Size = Size {
    count: 100,
    strings: 1000,
};

/// For a measurement: files of some 2 MiB.
pub const LARGE: Size = Size {
    count: 65534,
    strings: 1_048_576,
};

/// For a measurement of names that come again: a file of some 9 MiB.
pub const HUGE: Size = Size {
    count: 65534,
    strings: 8_388_608,
};

/// All kinds.
pub const ALL: [Kind; 10] = [
    Kind::Segments,
    Kind::Overlap,
    Kind::Skipped,
    Kind::Zeros,
    Kind::Sections,
    Kind::Names,
    Kind::Bytes,
    Kind::OneName,
    Kind::Copies,
    Kind::Ends,
];

/// What a kind is called.
pub fn name(kind: Kind) -> &'static str {
    match kind {
        Kind::Segments => "segments from high to low",
        Kind::Overlap => "the last segment overlaps the first",
        Kind::Skipped => "headers that aren't loaded",
        Kind::Zeros => "16 MiB of zeros",
        Kind::Sections => "sections without a symbol table",
        Kind::Names => "symbols of short names",
        Kind::Bytes => "symbols of names of any bytes",
        Kind::OneName => "symbols of one long name",
        Kind::Copies => "symbols of names that come again",
        Kind::Ends => "symbols of names that overlap",
    }
}

/// A file of a kind.
pub fn file(alloc: Global, kind: Kind, size: Size) -> Result<Vec<u8>, AllocError> {
    match kind {
        Kind::Segments | Kind::Overlap | Kind::Skipped | Kind::Zeros => programs(alloc, kind, size),
        Kind::Sections => sections(alloc, size),
        Kind::Names | Kind::Bytes | Kind::OneName | Kind::Copies | Kind::Ends => {
            symbols(alloc, kind, size)
        }
    }
}

/// The ELF header, with `programs` program headers after it or `sections` section headers there.
fn header(alloc: Global, programs: u16, sections: u16) -> Result<Vec<u8>, AllocError> {
    let mut out = Vec::new(alloc);
    out.extend_from_slice(b"\x7fELF\x01\x02\x01\0\0\0\0\0\0\0\0\0\0\x02\0\x08\0\0\0\x01")?;
    put_words(&mut out, &[0x8000_0000, 52, 52, 0])?;
    out.extend_from_slice(b"\0\x34\0\x20")?;
    out.extend_from_slice(&programs.to_be_bytes())?;
    out.extend_from_slice(b"\0\x28")?;
    out.extend_from_slice(&sections.to_be_bytes())?;
    out.extend_from_slice(b"\0\0")?;
    Ok(out)
}

/// A file of program headers, which load bytes of the header.
fn programs(alloc: Global, kind: Kind, size: Size) -> Result<Vec<u8>, AllocError> {
    if kind == Kind::Zeros {
        let mut out = header(alloc, 1, 0)?;
        put_words(&mut out, &[1, 0, 0x8000_0000, 0, 0, 0x100_0000, 0, 0])?;
        return Ok(out);
    }
    let mut out = header(alloc, size.count, 0)?;
    let program = if kind == Kind::Skipped {
        0x7000_0003
    } else {
        1
    };
    for i in 0..size.count {
        let last = i + 1 == size.count;
        let place = if kind == Kind::Overlap && last {
            0
        } else {
            u32::from(i)
        };
        let address = 0x80ff_ff00 - 256 * place;
        put_words(&mut out, &[program, 0, address, 0, 1, 1, 0, 0])?;
    }
    Ok(out)
}

/// A file of section headers.
fn sections(alloc: Global, size: Size) -> Result<Vec<u8>, AllocError> {
    let mut out = header(alloc, 0, size.count)?;
    for _ in 0..size.count {
        put_words(&mut out, &[0, 1, 0, 0, 0, 0, 0, 0, 0, 0])?;
    }
    Ok(out)
}

/// A file of two section headers, a symbol table and its strings.
fn symbols(alloc: Global, kind: Kind, size: Size) -> Result<Vec<u8>, AllocError> {
    let mut out = header(alloc, 0, 2)?;
    let count = if kind == Kind::Ends {
        size.count / 8
    } else {
        size.count
    };
    let table = 16 * u32::from(count);
    put_words(&mut out, &[0, 2, 0, 0, 132, table, 1, 0, 4, 16])?;
    put_words(
        &mut out,
        &[0, 3, 0, 0, 132 + table, size.strings, 0, 0, 1, 0],
    )?;
    for i in 0..count {
        put_words(
            &mut out,
            &[name_at(kind, size, u32::from(i)), 0, 0, 0x1000_0001],
        )?;
    }
    put_strings(&mut out, kind, size)?;
    Ok(out)
}

/// Puts the strings at the end.
fn put_strings(out: &mut Vec<u8>, kind: Kind, size: Size) -> Result<(), AllocError> {
    let period = match kind {
        Kind::Names => 16,
        Kind::Bytes => 4,
        Kind::Copies => period_of(size).max(1),
        _ => size.strings.max(1),
    };
    for at in 0..size.strings {
        let place = at % period;
        let last = place + 1 == period || at + 1 == size.strings;
        out.push(if last {
            0
        } else {
            letter(kind, at / period, place)
        })?;
    }
    Ok(())
}

/// The byte at a place of a string that isn't its last. It isn't 0, which would end the string.
fn letter(kind: Kind, string: u32, place: u32) -> u8 {
    match (kind, place) {
        (Kind::Names, 11..=14) => b'a' + (string >> (4 * (14 - place)) & 15) as u8,
        (Kind::Bytes, 1) => (1 + string / 255 % 255) as u8,
        (Kind::Bytes, 2) => (1 + string % 255) as u8,
        _ => b'a' + (place % 23) as u8,
    }
}

/// How many copies of a string there are.
const COPIES: u32 = 128;

/// How long each copy of the string is.
fn period_of(size: Size) -> u32
    ensures { result ≡ size.strings / 128 }
{
    size.strings / COPIES
}

/// Where the name of a symbol begins.
fn name_at(kind: Kind, size: Size, symbol: u32) -> u32 {
    match kind {
        Kind::Names => 16 * (symbol % (size.strings / 16).max(1)),
        Kind::Bytes => 4 * (symbol % (size.strings / 4).max(1)),
        Kind::Copies => (symbol % COPIES) * period_of(size) + symbol / COPIES,
        Kind::Ends => size.strings.saturating_sub(2).saturating_sub(symbol),
        _ => 0,
    }
}
