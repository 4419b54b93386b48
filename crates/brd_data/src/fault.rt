//! Why a request with data isn't done.

ghost use Rattle.std.specs.Prelude.{◌≡◌};
ghost use Rattle.brd_data.specs.Faults as faults;
ghost use Rattle.brd_data.specs.Faults.{IsWantOfMemory};

use brd_base::NoMemory;
use brd_inputs::{CommandFault, Excerpt};
use std::alloc::Global;
use std::io;
use thiserror::Error;

/// What is wrong with data.
#[derive(Debug, Drop, Error)]
pub enum DataProblem {
    /// It has no place, or no file.
    #[error("it isn't SYMBOL=FILE or 0xADDRESS=FILE")]
    Form,
    /// The number of its place is none.
    #[error("its address isn't a number of 32 bits, as 0x80001000")]
    NoAddress,
    /// The name of its place is that of no symbol.
    #[error("the object file has no such symbol")]
    NoSymbol,
    /// Its file can't be opened.
    #[error("can't open the file: {0}")]
    Open(io::Error),
    /// Its file can't be read.
    #[error("can't read the file: {0}")]
    Read(io::Error),
    /// Its file goes on past the limit of an input.
    #[error("the file is longer than an input may be")]
    TooLong,
    /// Its bytes, so many, don't lie where RAM may be.
    #[error("the file has {0} bytes, which don't all lie in 80000000 to 80FFFFFF")]
    Outside(usize),
    /// It has more bytes than its symbol.
    #[error("the file has {0} bytes, and the symbol {1}")]
    TooLarge(usize, u32),
    /// It lies over other data.
    #[error("it lies over the bytes of another --data")]
    Overlap,
}

/// Why a request with data isn't done.
#[derive(Debug, Drop, Error)]
pub enum DataFault {
    /// Its command has a fault, or what the command reads.
    #[error("{0}")]
    Command(CommandFault),
    /// Something is wrong with data of which this is the text.
    #[error("--data {0}: {1}")]
    Data(Excerpt, DataProblem),
    /// No object file has so many bytes.
    #[error("--data: no object file can hold so much")]
    Misfit,
}

impl From<NoMemory> for DataFault {
    ghost from_gives = { λ _ fault. IsWantOfMemory fault };

    fn from(_refused: NoMemory) -> Self {
        DataFault::Command(CommandFault::NoMemory)
    }
}

impl DataFault {
    /// The fault of data of this text.
    pub(crate) fn of(alloc: Global, text: &str, problem: DataProblem) -> Self {
        match Excerpt::of_name(alloc, text) {
            Ok(shown) => DataFault::Data(shown, problem),
            Err(NoMemory) => DataFault::Command(CommandFault::NoMemory),
        }
    }

    /// The status that the program ends with: that of the command's fault; 2 for a fault of the command line, 1 for a
    /// file that doesn't fit, 4 where opening or reading it failed.
    pub fn status(&self) -> u8
        ensures { result ≡ faults.status_of self.now }
    {
        match self {
            DataFault::Command(fault) => fault.status(),
            DataFault::Data(_, problem) => problem.status(),
            DataFault::Misfit => 1,
        }
    }
}

impl DataProblem {
    /// The status that the program ends with.
    fn status(&self) -> u8
        ensures { result ≡ faults.status_of_problem self.now }
    {
        match self {
            DataProblem::Form | DataProblem::NoAddress | DataProblem::NoSymbol => 2,
            DataProblem::Outside(_) | DataProblem::TooLarge(_, _) | DataProblem::Overlap => 1,
            DataProblem::Open(_) | DataProblem::Read(_) | DataProblem::TooLong => 4,
        }
    }
}
