//! All the mistakes of a source.

ghost use Rattle.std.specs.Prelude.{◌≡◌};

use crate::asm_command::{line_of, source_fault};
use brd_asm::{AsmFault, assemble};
use brd_base::NoMemory;
use brd_inputs::{CommandFault, mended_source};
use std::alloc::Global;

/// How many mistakes of a source are told at most.
const MOST: usize = 20;

/// The first fault of a source with those that stand behind it. Where memory runs out for these it stands alone.
pub fn with_others(alloc: Global, source: &[u8], fault: CommandFault) -> CommandFault
    ensures { result ≡ fault }
{
    match fault {
        CommandFault::Source(first, excerpt, clue) => {
            match other_faults(alloc, source, first) {
                Ok(others) => CommandFault::Source(first, excerpt, clue.with_others(others)),
                Err(NoMemory) => CommandFault::Source(first, excerpt, clue),
            }
        }
        _ => fault,
    }
}

/// The messages of the faults of a source that stand behind the first: each is the first of the source in which the
/// lines of those before it are mended, and of another line than these.
fn other_faults(alloc: Global, source: &[u8], first: AsmFault) -> Result<Vec<String>, NoMemory> {
    let mut others = Vec::new(alloc);
    let mut lines = Vec::new(alloc);
    lines.push(line_of(first))?;
    let mut text = mended_source(alloc, source, first, false)?;
    for _ in 0..2 * MOST {
        let fault = match assemble(alloc, &text) {
            Ok(_) | Err(AsmFault::NoMemory) => return Ok(others),
            Err(fault) => fault,
        };
        let line = line_of(fault);
        let again = lines.contains(&line);
        if !again {
            if lines.len() == MOST {
                others.push(format!(in alloc;
                    "and more: these are the first 20 mistakes of the source"
                )?)?;
                return Ok(others);
            }
            let told = source_fault(alloc, &text, fault);
            others.push(format!(in alloc; "{told}")?)?;
            lines.push(line)?;
        }
        text = mended_source(alloc, &text, fault, again)?;
    }
    Ok(others)
}
