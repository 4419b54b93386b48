//! Reading of line tables.

use crate::cursor::Cursor;
use crate::flaw::Flaw;
use crate::functions::{Function, read_functions};
use crate::gathered::Gathered;
use crate::lines::Lines;
use crate::program::run;
use crate::sections::{Sections, sections_of};
use crate::unit::Unit;
use brd_base::NoMemory;
use std::alloc::Global;

/// What an object file says of its source.
#[derive(Drop)]
pub struct Source {
    /// Its lines.
    pub lines: Lines,
    /// Its functions, by ascending address.
    pub functions: Vec<Function>,
}

impl Source {
    /// Nothing.
    pub fn new(alloc: Global) -> Source {
        Source {
            lines: Lines::new(alloc),
            functions: Vec::new(alloc),
        }
    }

    /// What an object file says.
    pub fn read(alloc: Global, file: &[u8]) -> Result<Source, NoMemory> {
        let lines = read_lines(alloc, file)?;
        let functions = read_functions(alloc, file)?;
        Ok(Source { lines, functions })
    }
}

/// The lines of an object file. It has none where it has no line table, or a damaged one, or more of it than is read.
pub fn read_lines(alloc: Global, file: &[u8]) -> Result<Lines, NoMemory> {
    let Some(sections) = sections_of(file) else {
        return Ok(Lines::new(alloc));
    };
    let mut gathered = Gathered::new(alloc);
    match gather(alloc, &sections, &mut gathered) {
        Ok(()) => {}
        Err(Flaw::Damaged) => return Ok(Lines::new(alloc)),
        Err(Flaw::NoMemory) => return Err(NoMemory),
    }
    let Gathered {
        stretches,
        paths,
        ..
    } = gathered;
    Lines::of(alloc, paths, stretches)
}

/// Gathers what the units of a line table say. Each has at least four bytes.
fn gather(alloc: Global, sections: &Sections, out: &mut Gathered) -> Result<(), Flaw> {
    let mut cursor = Cursor {
        rest: sections.lines,
        order: sections.order,
    };
    for _ in 0..sections.lines.len() {
        if cursor.is_empty() {
            break;
        }
        if let Some(bytes) = unit_bytes(&mut cursor)? {
            if let Some(mut unit) = Unit::read(alloc, bytes, sections)? {
                run(alloc, &mut unit, out)?;
            }
        }
    }
    Ok(())
}

/// The bytes of the next unit, behind its length. None of one in the 64-bit form, which is passed over.
fn unit_bytes<'a>(cursor: &mut Cursor<'a>) -> Result<Option<&'a [u8]>, Flaw> {
    let len = cursor.word()?;
    if len == 0xffff_ffff {
        let first = cursor.word()?;
        let second = cursor.word()?;
        cursor.take(first.max(second) as usize)?;
        return Ok(None);
    }
    Ok(Some(cursor.take(len as usize)?))
}
