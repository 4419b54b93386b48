//! The header of a unit of a line table: how its program is to be read, and which files it names.

use crate::cursor::{Cursor, string_len};
use crate::flaw::Flaw;
use crate::sections::Sections;
use std::alloc::Global;

/// How many files, or folders, a unit may have (own choice).
const MOST_ENTRIES: usize = 65_536;

/// How many bytes a path may have, as Linux has it.
const MOST_PATH: usize = 4096;

/// What a field of an entry of version 5 is: DW_LNCT_path and DW_LNCT_directory_index.
const PATH: u64 = 1;

const DIRECTORY: u64 = 2;

/// A file that a unit names.
#[derive(Clone, Copy)]
pub(crate) struct File<'a> {
    /// Its name, from its first byte on; a byte 0 ends it, if any does.
    name: &'a [u8],
    /// The number of its folder.
    folder: u64,
    /// Its number among all files, once it has one.
    pub(crate) known: Option<u32>,
}

/// How a field of an entry of version 5 is written.
#[derive(Clone, Copy)]
struct Field {
    /// What it says.
    what: u64,
    /// Its form.
    form: u64,
}

/// A unit of a line table.
#[derive(Drop)]
pub(crate) struct Unit<'a> {
    /// The program.
    pub(crate) program: Cursor<'a>,
    /// By how much an address grows at least.
    pub(crate) least: u8,
    /// The least difference of lines of a special opcode, as a signed byte.
    pub(crate) line_base: u8,
    /// How many differences of lines special opcodes have; not 0.
    pub(crate) line_range: u8,
    /// The first special opcode; not 0.
    pub(crate) opcode_base: u8,
    /// How many operands each standard opcode has.
    pub(crate) operands: &'a [u8],
    /// Whether files and folders count from 0 on, as from version 5 on.
    from_zero: bool,
    folders: Vec<&'a [u8]>,
    pub(crate) files: Vec<File<'a>>,
}

impl<'a> Unit<'a> {
    /// The unit that these bytes are, behind their length. None where it is of another version than 2 to 5, or holds
    /// more than one operation in an instruction.
    pub(crate) fn read(
        alloc: Global,
        bytes: &'a [u8],
        sections: &Sections<'a>,
    ) -> Result<Option<Unit<'a>>, Flaw> {
        let mut cursor = Cursor {
            rest: bytes,
            order: sections.order,
        };
        let version = cursor.half()?;
        if version < 2 || version > 5 {
            return Ok(None);
        }
        if version == 5 && (cursor.byte()? != 4 || cursor.byte()? != 0) {
            return Ok(None);
        }
        let len = cursor.word()? as usize;
        let header = cursor.take(len)?;
        let header = Cursor {
            rest: header,
            order: sections.order,
        };
        Unit::with_program(alloc, version, header, cursor, sections)
    }

    /// The unit of a version with a header and a program.
    fn with_program(
        alloc: Global,
        version: u16,
        header: Cursor<'a>,
        program: Cursor<'a>,
        sections: &Sections<'a>,
    ) -> Result<Option<Unit<'a>>, Flaw> {
        let mut header = header;
        let least = header.byte()?;
        if version >= 4 && header.byte()? != 1 {
            return Ok(None);
        }
        let _is_statement = header.byte()?;
        let line_base = header.byte()?;
        let line_range = header.byte()?;
        let opcode_base = header.byte()?;
        if line_range == 0 || opcode_base == 0 {
            return Err(Flaw::Damaged);
        }
        let operands = header.take(opcode_base as usize - 1)?;
        let mut unit = Unit {
            program,
            least,
            line_base,
            line_range,
            opcode_base,
            operands,
            from_zero: version == 5,
            folders: Vec::new(alloc),
            files: Vec::new(alloc),
        };
        if unit.from_zero {
            unit.read_folders(alloc, &mut header, sections)?;
            unit.read_files(alloc, &mut header, sections)?;
        } else {
            unit.read_old_folders(&mut header)?;
            unit.read_old_files(&mut header)?;
        }
        Ok(Some(unit))
    }

    /// Reads the folders as versions up to 4 have them: strings, and an empty one.
    fn read_old_folders(&mut self, header: &mut Cursor<'a>) -> Result<(), Flaw> {
        for _ in 0..MOST_ENTRIES {
            let folder = header.string()?;
            if folder.is_empty() {
                return Ok(());
            }
            self.folders.push(folder)?;
        }
        Err(Flaw::Damaged)
    }

    /// Reads the files as versions up to 4 have them, up to one with an empty name.
    fn read_old_files(&mut self, header: &mut Cursor<'a>) -> Result<(), Flaw> {
        for _ in 0..MOST_ENTRIES {
            let name = header.string()?;
            if name.is_empty() {
                return Ok(());
            }
            self.add_old_file(name, header)?;
        }
        Err(Flaw::Damaged)
    }

    /// Adds a file with a name, by what stands behind this as versions up to 4 have it: the folder, a time and a size.
    pub(crate) fn add_old_file(
        &mut self,
        name: &'a [u8],
        cursor: &mut Cursor<'a>,
    ) -> Result<(), Flaw> {
        let folder = cursor.unsigned()?;
        let _time = cursor.unsigned()?;
        let _size = cursor.unsigned()?;
        if self.files.len() >= MOST_ENTRIES {
            return Err(Flaw::Damaged);
        }
        self.files.push(File {
            name,
            folder,
            known: None,
        })?;
        Ok(())
    }

    /// Reads the folders as version 5 has them.
    fn read_folders(
        &mut self,
        alloc: Global,
        header: &mut Cursor<'a>,
        sections: &Sections<'a>,
    ) -> Result<(), Flaw> {
        let fields = fields_of(alloc, header)?;
        let count = count_of(header)?;
        for _ in 0..count {
            let folder = entry_of(&fields, header, sections)?;
            self.folders.push(folder.name)?;
        }
        Ok(())
    }

    /// Reads the files as version 5 has them.
    fn read_files(
        &mut self,
        alloc: Global,
        header: &mut Cursor<'a>,
        sections: &Sections<'a>,
    ) -> Result<(), Flaw> {
        let fields = fields_of(alloc, header)?;
        let count = count_of(header)?;
        for _ in 0..count {
            let file = entry_of(&fields, header, sections)?;
            self.files.push(file)?;
        }
        Ok(())
    }

    /// The place of a file with a number in the list of files.
    pub(crate) fn place_of(&self, number: u64) -> Option<usize> {
        let place = if self.from_zero {
            number
        } else {
            number.checked_sub(1)?
        };
        if place >= self.files.len() as u64 {
            return None;
        }
        Some(place as usize)
    }

    /// The path of a file: behind its folder, where that isn't the one in which the compiler ran.
    pub(crate) fn path_of(&self, alloc: Global, file: &File<'a>) -> Result<Vec<u8>, Flaw> {
        let name = text_of(file.name)?;
        let mut path = Vec::new(alloc);
        if name.first() != Some(&b'/') && file.folder != 0 {
            let place = if self.from_zero {
                file.folder
            } else {
                file.folder.saturating_sub(1)
            };
            let Some(folder) = self.folder(place) else {
                return Err(Flaw::Damaged);
            };
            path.extend_from_slice(text_of(folder)?)?;
            path.push(b'/')?;
        }
        path.extend_from_slice(name)?;
        Ok(path)
    }

    /// The folder at a place.
    fn folder(&self, place: u64) -> Option<&'a [u8]> {
        if place >= self.folders.len() as u64 {
            return None;
        }
        self.folders.get(place as usize).copied()
    }
}

/// The text up to a byte 0, or to the end.
fn text_of(bytes: &[u8]) -> Result<&[u8], Flaw> {
    let near = match bytes.get(..MOST_PATH) {
        Some(near) => near,
        None => bytes,
    };
    let len = string_len(near);
    if len >= MOST_PATH {
        return Err(Flaw::Damaged);
    }
    match near.get(..len) {
        Some(text) => Ok(text),
        None => Err(Flaw::Damaged),
    }
}

/// The fields of entries that come next. Where there are none, entries would be of no bytes.
fn fields_of(alloc: Global, header: &mut Cursor) -> Result<Vec<Field>, Flaw> {
    let count = header.byte()?;
    let mut fields = Vec::new(alloc);
    for _ in 0..count {
        let what = header.unsigned()?;
        let form = header.unsigned()?;
        fields.push(Field { what, form })?;
    }
    Ok(fields)
}

/// How many entries come next. Each has at least one byte.
fn count_of(header: &mut Cursor) -> Result<usize, Flaw> {
    let count = header.unsigned()?;
    if count > header.rest.len() as u64 || count > MOST_ENTRIES as u64 {
        return Err(Flaw::Damaged);
    }
    Ok(count as usize)
}

/// The entry of these fields that comes next.
fn entry_of<'a>(
    fields: &Vec<Field>,
    header: &mut Cursor<'a>,
    sections: &Sections<'a>,
) -> Result<File<'a>, Flaw> {
    let mut file = File {
        name: &[],
        folder: 0,
        known: None,
    };
    for field in fields.iter() {
        match field.what {
            PATH => file.name = string_by(field.form, header, sections)?,
            DIRECTORY => file.folder = number_by(field.form, header)?,
            _ => skip_by(field.form, header)?,
        }
    }
    Ok(file)
}

/// The string of a form that comes next, from its first byte on: DW_FORM_string, line_strp, strp.
fn string_by<'a>(
    form: u64,
    header: &mut Cursor<'a>,
    sections: &Sections<'a>,
) -> Result<&'a [u8], Flaw> {
    let all = match form {
        0x08 => return header.string(),
        0x1f => sections.line_strings,
        0x0e => sections.strings,
        _ => return Err(Flaw::Damaged),
    };
    let offset = header.word()? as usize;
    match all.get(offset..) {
        Some(string) => Ok(string),
        None => Err(Flaw::Damaged),
    }
}

/// The number of a form that comes next: DW_FORM_data1, data2, data4, udata.
fn number_by(form: u64, header: &mut Cursor) -> Result<u64, Flaw> {
    match form {
        0x0b => Ok(u64::from(header.byte()?)),
        0x05 => Ok(u64::from(header.half()?)),
        0x06 => Ok(u64::from(header.word()?)),
        0x0f => header.unsigned(),
        _ => Err(Flaw::Damaged),
    }
}

/// Passes over what comes next in a form: a number, a string, DW_FORM_data8, data16, or block.
fn skip_by(form: u64, header: &mut Cursor) -> Result<(), Flaw> {
    let len = match form {
        0x08 => {
            header.string()?;
            return Ok(());
        }
        0x1f | 0x0e => 4,
        0x07 => 8,
        0x1e => 16,
        0x09 => {
            let len = header.unsigned()?;
            if len > header.rest.len() as u64 {
                return Err(Flaw::Damaged);
            }
            len as usize
        }
        _ => {
            number_by(form, header)?;
            return Ok(());
        }
    };
    header.take(len)?;
    Ok(())
}
