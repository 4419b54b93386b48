//! The reader.

ghost use Rattle.std.specs.Prelude.{◌≡◌, IfOk};
ghost use Rattle.brd_mem.specs.Image.{IsLoadable};
ghost use Rattle.brd_elf.specs.Faults.{Gives};
ghost use Rattle.brd_elf.specs.Meaning.{meaning};

use crate::fault::ElfFault;
use crate::header::header_of;
use crate::segments::segments_of;
use crate::symbols::symbols_of;
use brd_mem::Image;
use std::alloc::Global;

/// What an ELF file means: its image, or the first fault from the header over the program headers to the symbols.
#[tactic(auto, unfolding(crate::specs::Meaning::meaning))]
pub fn read(alloc: Global, bytes: &[u8]) -> Result<Image, ElfFault>
    ensures meaning { Gives (λ image. image) result (meaning bytes.now) }
    // Segments have bytes and lie apart, and no name stands twice.
    ensures loadable { IfOk result IsLoadable }
{
    let header = header_of(bytes)?;
    let segments = segments_of(alloc, bytes, header.order, header.programs)?;
    let symbols = symbols_of(alloc, bytes, header.order, header.sections)?;
    Ok(Image {
        order: header.order,
        entry: header.entry,
        segments,
        symbols,
    })
}
