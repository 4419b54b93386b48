//! The line of source of an event.

use brd_base::NoMemory;
use brd_happening::{Happening, What};
use brd_names::Names;
use std::alloc::Global;

/// Puts at the end the file and the line of the code of an event, where it has some and they are known. Of a service
/// call that a header makes, as the kit's do, nobody asks for the header's line.
pub(crate) fn put_source_of(
    alloc: Global,
    names: Names,
    told: &Happening,
    out: &mut Vec<u8>,
) -> Result<(), NoMemory> {
    let Some(address) = told.place else {
        return Ok(());
    };
    if matches!(told.what, What::Call(_)) && names.is_of_header(address) {
        return Ok(());
    }
    names.put_source(alloc, "; ", address, out)
}
