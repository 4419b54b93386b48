//! What an object file says of its source.

use brd_lines::{Function, Lines};

/// What an object file says of its source: its lines, and its functions by ascending address.
#[derive(Clone, Copy)]
pub struct Sources<'a> {
    /// The lines.
    pub lines: &'a Lines,
    /// The functions.
    pub functions: &'a [Function],
}

/// The number of a function that isn't there, or of a file.
pub(crate) const NONE: u32 = u32::MAX;

impl<'a> Sources<'a> {
    /// The number of the function in which an address lies; `NONE` where it lies in none.
    pub(crate) fn function_at(&self, address: u32) -> u32 {
        let functions = self.functions;
        let place = functions.partition_point(|function: &Function| function.to <= address);
        match functions.get(place) {
            Some(function) if function.from <= address && place < NONE as usize => place as u32,
            _ => NONE,
        }
    }

    /// The number of the file of an address, `NONE` where it has none, and its line, then 0.
    pub(crate) fn line_at(&self, address: u32) -> (u32, u32) {
        match self.lines.stretch_at(address) {
            Some(stretch) => (stretch.file, stretch.line),
            None => (NONE, 0),
        }
    }

    /// Where the function of a number begins: the number of its file, and its line.
    pub(crate) fn start_of(&self, function: u32) -> (u32, u32) {
        match self.functions.get(function as usize) {
            Some(function) => self.line_at(function.from),
            None => (NONE, 0),
        }
    }

    /// The name of the function of a number.
    pub(crate) fn name_of(&self, function: u32) -> &'a [u8] {
        match self.functions.get(function as usize) {
            Some(function) => function.name.as_slice(),
            None => b"???".as_slice(),
        }
    }

    /// The path of the file of a number.
    pub(crate) fn file_of(&self, file: u32) -> &'a [u8] {
        let path = self.lines.file(file);
        if path.is_empty() {
            return b"???".as_slice();
        }
        path
    }
}
