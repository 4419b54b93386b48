//! Sources in which a faulty line is mended, so that what is wrong behind it can be found.

use crate::scan::{cut, first, run};
use crate::source::{has_right_labels, line_in};
use crate::statements::{Parts, parts_of};
use brd_asm::AsmFault;
use brd_base::NoMemory;
use brd_source::{Directive, Operation};
use brd_text::{is_name, split_line};
use std::alloc::Global;

/// A source with another line in the place of the one that has this fault: the same labels, where they are right, and
/// something that takes as much room, where that is known. With nothing at all where the line has a fault again.
pub fn mended_source(
    alloc: Global,
    text: &[u8],
    fault: AsmFault,
    again: bool,
) -> Result<Vec<u8>, NoMemory> {
    let number = line_in(fault).unwrap_or(0);
    let mut out = Vec::new(alloc);
    let mut rest = text;
    for at in 1..usize::MAX {
        let (line, after) = split_line(rest);
        if at != number {
            out.extend_from_slice(line)?;
        } else if !again {
            put_mended(&mut out, line, fault)?;
        }
        let Some(more) = after else {
            break;
        };
        out.push(b'\n')?;
        rest = more;
    }
    Ok(out)
}

/// Puts at the end what stands in the place of a line with this fault.
fn put_mended(out: &mut Vec<u8>, line: &[u8], fault: AsmFault) -> Result<(), NoMemory> {
    let parts = parts_of(line);
    if !matches!(fault, AsmFault::Twice { .. }) && has_right_labels(line, &parts) {
        let (labels, _) = cut(line, parts.code.len().saturating_sub(parts.statement.len()));
        out.extend_from_slice(labels)?;
        out.push(b' ')?;
    }
    match fault {
        AsmFault::Misaligned { .. } => out.extend_from_slice(b".align 2")?,
        AsmFault::Syntax { .. } | AsmFault::UnknownName { .. } | AsmFault::Range { .. } => {
            put_likeness(out, &parts)?;
        }
        _ => {}
    }
    Ok(())
}

/// Puts at the end what takes as much room as a statement: for an instruction another one, for a name that gets a value
/// a name that gets 0.
fn put_likeness(out: &mut Vec<u8>, parts: &Parts) -> Result<(), NoMemory> {
    if let Some(Operation::Directive(Directive::Equ)) = parts.operation {
        let (name, _) = run(parts.operands);
        if is_name(name) {
            out.extend_from_slice(b".equ ")?;
            out.extend_from_slice(name)?;
            out.extend_from_slice(b", 0")?;
        }
        return Ok(());
    }
    if !parts.word.is_empty() && first(parts.word) != b'.' {
        out.extend_from_slice(b"nop")?;
    }
    Ok(())
}
