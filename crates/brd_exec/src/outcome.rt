//! How an instruction ends.

ghost use Rattle.std.specs.Prelude.{◌≡◌};
ghost use Rattle.brd_exec.specs.Exception.{number_of, code_of};

use brd_mem::Exc;

/// An exception's code (MD00090, the ExcCode field of the Cause register).
#[derive(Clone, Copy, Debug, PartialEq, Eq)]
pub enum ExceptionCode {
    /// 4: address error, load or fetch.
    AdEL,
    /// 5: address error, store.
    AdES,
    /// 6: bus error, fetch.
    IBE,
    /// 7: bus error, data.
    DBE,
    /// 9: breakpoint.
    Bp,
    /// 10: reserved instruction.
    RI,
    /// 12: arithmetic overflow.
    Ov,
    /// 13: trap.
    Tr,
}

impl ExceptionCode {
    /// The number in the ExcCode field.
    pub fn number(self) -> u8
        ensures { result ≡ number_of self }
    {
        match self {
            ExceptionCode::AdEL => 4,
            ExceptionCode::AdES => 5,
            ExceptionCode::IBE => 6,
            ExceptionCode::DBE => 7,
            ExceptionCode::Bp => 9,
            ExceptionCode::RI => 10,
            ExceptionCode::Ov => 12,
            ExceptionCode::Tr => 13,
        }
    }
}

impl From<Exc> for ExceptionCode {
    ghost from_gives = { λ exc code. code ≡ code_of exc };

    fn from(exc: Exc) -> Self {
        match exc {
            Exc::AdEL => ExceptionCode::AdEL,
            Exc::AdES => ExceptionCode::AdES,
            Exc::IBE => ExceptionCode::IBE,
            Exc::DBE => ExceptionCode::DBE,
        }
    }
}

/// How an instruction ended.
#[derive(Clone, Copy, PartialEq, Eq)]
pub enum Outcome {
    /// It was done.
    Done,
    /// It was a SYSCALL, and changed nothing.
    Syscall,
    /// It raised an exception, and changed neither context nor memory.
    Exception {
        /// Which one.
        code: ExceptionCode,
        /// The instruction's address, or in a delay slot that of the branch before it (the EPC register).
        epc: u32,
        /// Whether it was in a delay slot (the BD bit of the Cause register).
        bd: bool,
    },
}

/// Where an instruction stops.
#[derive(Clone, Copy, PartialEq, Eq)]
pub enum Stop {
    /// At a service call.
    Call,
    /// By an exception.
    Raise(ExceptionCode),
}

impl From<ExceptionCode> for Stop {
    ghost use Rattle.std.specs.Prelude.{◌≡◌};
    ghost use Rattle.brd_exec.specs.declared.outcome.Stop.TheVariants.{Raise};

    ghost from_gives = { λ code stop. stop ≡ Raise code };

    fn from(code: ExceptionCode) -> Self {
        Stop::Raise(code)
    }
}

impl From<Exc> for Stop {
    ghost use Rattle.std.specs.Prelude.{◌≡◌};
    ghost use Rattle.brd_exec.specs.Exception.{code_of};
    ghost use Rattle.brd_exec.specs.declared.outcome.Stop.TheVariants.{Raise};

    ghost from_gives = { λ exc stop. stop ≡ Raise (code_of exc) };

    fn from(exc: Exc) -> Self {
        Stop::Raise(ExceptionCode::from(exc))
    }
}
