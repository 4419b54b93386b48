//! A text, line by line.

ghost use Rattle.std.specs.Prelude.{◌≡◌};
ghost use Rattle.brd_text.specs.Lines.{lines_of};
ghost use Rattle.brd_asm.specs.Faults.{Gives};
ghost use Rattle.brd_asm.specs.Layout.{all_placed, nothing};
ghost use Rattle.brd_asm.specs.LayoutView.{layout};

use crate::fault::AsmFault;
use crate::layout::Layout;
use brd_text::split_line;
use std::alloc::Global;

/// What the lines of a text place and name.
pub fn place_all<'a>(alloc: Global, text: &'a [u8]) -> Result<Layout<'a>, AsmFault>
    ensures { Gives layout result (all_placed 1 (lines_of text.now) nothing) }
{
    let mut placed = Layout::new(alloc, text);
    let mut rest = text;
    let mut line = 1;
    'lines: loop {
        let (bytes, behind) = split_line(rest);
        placed.place(alloc, line, bytes)?;
        let Some(after) = behind else {
            return Ok(placed);
        };
        rest = after;
        line += 1;
    }
}
