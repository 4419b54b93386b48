//! Why a file is refused.

ghost use Rattle.std.specs.Prelude.{◌≡◌};
ghost use Rattle.brd_elf.specs.declared.fault.ElfFault.TheVariants as fault;

use brd_base::NoMemory;
use thiserror::Error;

/// Why there is no image. `at` is the offset in the file of the field, header or symbol that is at fault.
#[derive(Clone, Copy, Debug, PartialEq, Eq, Error)]
pub enum ElfFault {
    /// Memory ran out.
    #[error("out of memory")]
    NoMemory,
    /// The file doesn't begin with 7F 45 4C 46.
    #[error("no ELF file: it doesn't begin with the bytes 7F 45 4C 46")]
    NotElf,
    /// It isn't an ELF32 executable for MIPS, or asks for a dynamic linker or extended numbering.
    #[error("offset {at}: a value that isn't supported; wanted is a static ELF32 executable for MIPS")]
    Unsupported {
        /// The offset of the field or program header.
        at: usize,
    },
    /// The file ends before the ELF header, a table or a segment's bytes do.
    #[error("offset {at}: the header or field here needs bytes past the end of the file")]
    Truncated {
        /// The offset of the ELF header, of the field that places the table, or of the segment's program header.
        at: usize,
    },
    /// A table's headers aren't of the size they have to be, or a segment is larger in the file than in memory or ends
    /// after the last address.
    #[error("offset {at}: a size given here is wrong: of a table's headers, or of a segment")]
    Sizes {
        /// The offset of the field or program header.
        at: usize,
    },
    /// Two segments overlap.
    #[error("offset {at}: the segment of this program header overlaps an earlier one")]
    Overlap {
        /// The offset of the later one's program header.
        at: usize,
    },
    /// A segment isn't loaded to 0x80000000 to 0x80FFFFFF.
    #[error("offset {at}: the segment of this program header isn't within 0x80000000 to 0x80ffffff")]
    Outside {
        /// The offset of its program header.
        at: usize,
    },
    /// The symbol table can't be read.
    #[error("offset {at}: this symbol table, or the name of this symbol, is wrong")]
    Symbols {
        /// The offset of the symbol table's section header, or of the symbol.
        at: usize,
    },
}

impl From<NoMemory> for ElfFault {
    ghost from_gives = { λ _ f. f ≡ fault.NoMemory };

    fn from(_refused: NoMemory) -> ElfFault {
        ElfFault::NoMemory
    }
}
