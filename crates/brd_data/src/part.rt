//! The text of data: a place and a file.

ghost use Rattle.std.specs.Prelude.{◌≡◌, IfOk, IfSome};
ghost use Rattle.brd_data.specs.Data as parts;
ghost use Rattle.brd_data.specs.Data.{IsPart};

use crate::fault::DataProblem;
use brd_mem::{Symbol, symbol_value};
use brd_text::{number, parted};

/// A place, and the name of a file whose bytes lie there.
#[derive(Clone, Copy)]
pub(crate) struct Part<'a> {
    /// A symbol, or a number that begins with 0x.
    pub(crate) place: &'a [u8],
    /// The file's name.
    pub(crate) file: &'a str,
}

/// The part that a text says.
pub(crate) fn part_of(text: &str) -> Option<Part<'_>>
    ensures { IfSome result (λ part. IsPart text.now part.place.now part.file.now) }
{
    let (place, Some(behind)) = parted(text.as_bytes(), b'=') else {
        return None;
    };
    let Ok(file) = std::str::from_utf8(behind) else {
        return None;
    };
    if place.is_empty() || file.is_empty() {
        return None;
    }
    Some(Part { place, file })
}

/// The address of a place.
pub(crate) fn address_of(place: &[u8], symbols: &[Symbol]) -> Result<u32, DataProblem>
    ensures { IfOk result (λ address. parts.address_of symbols.now place.now ≡ Some address) }
{
    if place.starts_with(b"0x") {
        return match number(place) {
            Some(address) => Ok(address),
            None => Err(DataProblem::NoAddress),
        };
    }
    match symbol_value(symbols, place) {
        Some(address) => Ok(address),
        None => Err(DataProblem::NoSymbol),
    }
}
