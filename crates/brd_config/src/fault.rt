//! Why a text is no configuration.

ghost use Rattle.std.specs.Prelude.{◌≡◌};
ghost use Rattle.brd_config.specs.declared.fault.ConfigFault.TheVariants.{NoMemory};

use thiserror::Error;

/// The first fault of a text, with the line on which the faulty statement begins, `Syntax` with the line on which
/// the text fails. Lines are counted from 1.
#[derive(Clone, Copy, Debug, PartialEq, Eq, Error)]
pub enum ConfigFault {
    /// Memory ran out.
    #[error("out of memory")]
    NoMemory,
    /// The text is no statement here.
    #[error("line {line}: found what no statement has here, expected one in the form of its kind")]
    Syntax { line: usize },
    /// What the statement defines is defined already.
    #[error("line {line}: found an ID, a line or BOARD for the second time, expected each once")]
    Duplicate { line: usize },
    /// An ID or a line is out of range.
    #[error("line {line}: found an ID or a line out of range, expected an ID 1 to 255, a line 0 to 31")]
    BadId { line: usize },
    /// An attribute has a bit that is none of the statement's.
    #[error("line {line}: found an attribute that the object does not have, expected bits of CRE_TSK 3, CRE_FLG 7, \
         CRE_SPN 0, others 1")]
    BadAttribute { line: usize },
    /// A priority is out of range.
    #[error("line {line}: found a priority out of range, expected 1 to 16")]
    BadPriority { line: usize },
    /// A size or a count is out of range.
    #[error("line {line}: found a size or a count out of range, expected RAM 0x10000 to 0x1000000 in steps of \
         0x10000, a stack above 0, a maximum 1 to 65535, a count up to it, a capacity up to 256")]
    BadCount { line: usize },
    /// A number of processors is out of range, or the board lacks the processor.
    #[error("line {line}: found a processor out of range, expected 1 to 8 of BOARD, 1 to its number of CLASS")]
    BadProcessor { line: usize },
}

impl From<brd_base::NoMemory> for ConfigFault {
    ghost from_gives = { λ _ e. e ≡ NoMemory };

    fn from(_refused: brd_base::NoMemory) -> ConfigFault {
        ConfigFault::NoMemory
    }
}
