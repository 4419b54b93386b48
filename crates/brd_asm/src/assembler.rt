//! The assembler.

ghost use Rattle.std.specs.Prelude.{◌≡◌, ◌^◌, codes, IfOk};
ghost use Rattle.brd_mem.specs.Image.{IsPlain};
ghost use Rattle.brd_asm.specs.Faults.{Meets};
ghost use Rattle.brd_asm.specs.Values.{named, modulo};
ghost use Rattle.brd_asm.specs.Image.{program_of, IsImage, entry_by};
ghost use Rattle.brd_asm.specs.Laws.{HasLines, HasLabels, HasInstructions, HasOrder};

use crate::fault::AsmFault;
use crate::layout::{Layout, order_by};
use crate::names::Names;
use crate::output::output_of;
use crate::stretches::segments_of;
use crate::text::place_all;
use crate::value::word;
use brd_base::BASE;
use brd_mem::Image;
use std::alloc::Global;

/// The image of a source, in the language of docs/ASSEMBLER.md.
///
/// # Errors
///
/// The first faulty line of the first group of faults: `Syntax`, `Twice`, `UnknownName`, `Range`, `Misaligned`,
/// `Overlap`, of one line the first in this order. Without one, the first faulty line of the second group:
/// `UnknownName`, `Range`, `Misaligned` of operands that may use the names of later lines. `NoMemory` where memory runs
/// out, at whatever point.
#[tactic(auto, unfolding(crate::specs::Image::program_of))]
pub fn assemble(alloc: Global, text: &[u8]) -> Result<Image, AsmFault>
    // What the text means, or its first fault.
    ensures meaning { Meets (λ image program. IsImage program image) result (program_of text.now) }
    // Segments have bytes, ascend, don't overlap and lie in 0x80000000 to 0x80FFFFFF; names aren't empty, have no byte
    // 0, and are distinct.
    ensures plain { IfOk result IsPlain }
    // Every line has an address: the location counter before it.
    ensures lines { IfOk result (λ _. HasLines text.now) }
    // Every label's value is the address of its line.
    ensures labels { IfOk result (HasLabels text.now) }
    // The byte order is the one that a line names, or big-endian.
    ensures order { IfOk result (HasOrder text.now) }
    // At the address of each line with an instruction lies a word that stands for that instruction.
    ensures instructions { IfOk result (HasInstructions text.now) }
{
    let Layout {
        order,
        place: _,
        names,
        pieces,
    } = place_all(alloc, text)?;
    let order = order_by(order);
    let output = output_of(alloc, order, &names, pieces.as_slice())?;
    let segments = segments_of(alloc, pieces, output.as_slice())?;
    let symbols = names.symbols(alloc)?;
    Ok(Image {
        order,
        entry: entry_of(&names),
        segments,
        symbols,
    })
}

/// The value of `_start`, or the first address of RAM.
fn entry_of(names: &Names) -> u32
    ensures { result ≡ entry_by (named names.now (codes "_start")) }
{
    match names.value(b"_start") {
        None => BASE,
        Some(value) => word(value),
    }
}
