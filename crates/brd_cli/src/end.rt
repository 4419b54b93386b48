//! How the program ends.

ghost use Rattle.std.specs.Prelude.{◌≡◌};
ghost use Rattle.std.specs.Process.{exit_status};
ghost use Rattle.brd_cli.specs.End.{status_of_usage, status_of_end, IsEarlyEndOf, IsWantOfMemory};

use crate::standard_input::InputFault;
use brd_base::NoMemory;
use brd_data::DataFault;
use brd_inputs::CommandFault;
use clap::error::ErrorKind;
use std::process::ExitCode;

/// Why the program ends before its command is done.
#[derive(Drop)]
pub enum EarlyEnd {
    /// The command has a fault, or the command line couldn't be taken.
    Fault(CommandFault),
    /// Its data has a fault.
    Data(DataFault),
    /// It asks for more of standard input than can be had.
    Input(InputFault),
    /// The command line is wrong, or asks for help.
    Usage(clap::Error),
}

impl From<CommandFault> for EarlyEnd {
    ghost use Rattle.brd_cli.specs.declared.end.EarlyEnd.TheVariants.{Fault};

    ghost from_gives = { λ fault stop. stop ≡ Fault fault };

    fn from(fault: CommandFault) -> Self {
        EarlyEnd::Fault(fault)
    }
}

impl From<clap::Error> for EarlyEnd {
    ghost from_gives = { IsEarlyEndOf };

    fn from(error: clap::Error) -> Self {
        if error.kind() == ErrorKind::OutOfMemory {
            return EarlyEnd::Fault(CommandFault::NoMemory);
        }
        EarlyEnd::Usage(error)
    }
}

impl From<NoMemory> for EarlyEnd {
    ghost from_gives = { λ _ stop. IsWantOfMemory stop };

    fn from(_e: NoMemory) -> Self {
        EarlyEnd::Fault(CommandFault::NoMemory)
    }
}

/// The program's status: 0 where the command was done, else that of the fault or of the command line.
pub fn exit_code(end: &Result<(), EarlyEnd>) -> ExitCode
    ensures { exit_status result ≡ status_of_end end.now }
{
    let status = match end {
        Ok(()) => 0,
        Err(EarlyEnd::Fault(fault)) => fault.status(),
        Err(EarlyEnd::Data(fault)) => fault.status(),
        Err(EarlyEnd::Input(_)) => 2,
        Err(EarlyEnd::Usage(error)) => usage_status(error.kind()),
    };
    ExitCode::from(status)
}

/// The status of a command line that isn't done: 0 where it asks for help, 3 where memory ran out, else 2.
fn usage_status(kind: ErrorKind) -> u8
    ensures { result ≡ status_of_usage kind }
{
    match kind {
        ErrorKind::DisplayHelp | ErrorKind::DisplayVersion => 0,
        ErrorKind::OutOfMemory => 3,
        _ => 2,
    }
}
