//! Why a source has no image.

ghost use Rattle.std.specs.Prelude.{◌≡◌};
ghost use Rattle.brd_asm.specs.declared.fault.AsmFault.TheVariants.{NoMemory as no_memory};

use brd_base::NoMemory;
use thiserror::Error;

/// The first fault of a source, with its line. Lines are counted from 1.
#[derive(Clone, Copy, Debug, PartialEq, Eq, Error)]
pub enum AsmFault {
    /// The program ran out of memory.
    #[error("out of memory")]
    NoMemory,
    /// The line has none of the language's forms.
    #[error("line {line}: found what no line has, expected labels, then an instruction or a directive with its \
         operands")]
    Syntax { line: usize },
    /// A name has no value, or none on an earlier line where it has to.
    #[error("line {line}: found a name without a value, expected one that is defined, for .org, .align, .space and \
         .equ on an earlier line")]
    UnknownName { line: usize },
    /// A name is defined again.
    #[error("line {line}: found a name that is defined already, expected each once")]
    Twice { line: usize },
    /// A value doesn't fit its operand, or an address that would be filled isn't from 0x80000000 to 0x80FFFFFF.
    #[error("line {line}: found a value or an address out of range, expected a value that its operand holds, an \
         address from 0x80000000 to 0x80ffffff")]
    Range { line: usize },
    /// An instruction, a word, a halfword or a target isn't aligned.
    #[error("line {line}: found an unaligned place or target, expected a multiple of 4 for instructions, words and \
         targets, of 2 for halfwords")]
    Misaligned { line: usize },
    /// An address is filled already.
    #[error("line {line}: found bytes at an address that is filled already, expected each once")]
    Overlap { line: usize },
}

impl From<NoMemory> for AsmFault {
    ghost from_gives = { λ _ e. e ≡ no_memory };

    fn from(_e: NoMemory) -> AsmFault {
        AsmFault::NoMemory
    }
}
