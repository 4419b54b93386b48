//! The fields of an instruction that are narrower than a machine number. Each keeps its range.

ghost use Rattle.std.specs.Prelude.{◌≡◌, ℕ, ◌%◌, ◌^◌, ◌<◌};

use std::marker::Model;

/// The number of a general register, 0 to 31. It is kept in a `u32`, so that the fields of an instruction lie apart and
/// the compiler can keep each in a register of its own.
#[derive(Clone, Copy, PartialEq, Eq)]
pub struct Register {
    number: u32,
}

impl Model for Register {
    ghost Value = { ℕ };

    ghost view = { λ field. field.number };

    ghost invariant = { λ field. field.number < 2 ^ 5 };

    ghost inverse = { λ n. record { number = n } };
}

impl Register {
    /// The register that the low five bits name.
    pub fn low(bits: u32) -> Self
        ensures { result ≡ bits % 2 ^ 5 }
    {
        Register {
            number: bits % 0x20,
        }
    }

    /// Its number, 0 to 31.
    pub fn number(self) -> u8
        ensures is { result ≡ self }
        ensures below { result < 2 ^ 5 }
    {
        self.number as u8
    }
}

/// A shift's amount, 0 to 31 bits.
#[derive(Clone, Copy, PartialEq, Eq)]
pub struct ShiftAmount {
    bits: u8,
}

impl Model for ShiftAmount {
    ghost Value = { ℕ };

    ghost view = { λ field. field.bits };

    ghost invariant = { λ field. field.bits < 2 ^ 5 };

    ghost inverse = { λ n. record { bits = n } };
}

impl ShiftAmount {
    /// The amount in the low five bits.
    pub fn low(bits: u32) -> Self
        ensures { result ≡ bits % 2 ^ 5 }
    {
        ShiftAmount {
            bits: (bits % 0x20) as u8,
        }
    }

    /// The amount, 0 to 31.
    pub fn bits(self) -> u8
        ensures is { result ≡ self }
        ensures below { result < 2 ^ 5 }
    {
        self.bits
    }
}

/// A prefetch's hint, 0 to 31.
#[derive(Clone, Copy, PartialEq, Eq)]
pub struct Hint {
    hint: u8,
}

impl Model for Hint {
    ghost Value = { ℕ };

    ghost view = { λ field. field.hint };

    ghost invariant = { λ field. field.hint < 2 ^ 5 };

    ghost inverse = { λ n. record { hint = n } };
}

impl Hint {
    /// The hint in the low five bits.
    pub fn low(bits: u32) -> Self
        ensures { result ≡ bits % 2 ^ 5 }
    {
        Hint {
            hint: (bits % 0x20) as u8,
        }
    }

    /// Its number, 0 to 31.
    pub fn number(self) -> u8
        ensures is { result ≡ self }
        ensures below { result < 2 ^ 5 }
    {
        self.hint
    }
}

/// A trap's code of 10 bits.
#[derive(Clone, Copy, PartialEq, Eq)]
pub struct ShortCode {
    code: u16,
}

impl Model for ShortCode {
    ghost Value = { ℕ };

    ghost view = { λ field. field.code };

    ghost invariant = { λ field. field.code < 2 ^ 10 };

    ghost inverse = { λ n. record { code = n } };
}

impl ShortCode {
    /// The code in the low 10 bits.
    pub fn low(bits: u32) -> Self
        ensures { result ≡ bits % 2 ^ 10 }
    {
        ShortCode {
            code: (bits % 0x400) as u16,
        }
    }

    /// The code, below 2^10.
    pub fn code(self) -> u16
        ensures is { result ≡ self }
        ensures below { result < 2 ^ 10 }
    {
        self.code
    }
}

/// The code of 20 bits of a SYSCALL or a BREAK.
#[derive(Clone, Copy, PartialEq, Eq)]
pub struct LongCode {
    value: u32,
}

impl Model for LongCode {
    ghost Value = { ℕ };

    ghost view = { λ field. field.value };

    ghost invariant = { λ field. field.value < 2 ^ 20 };

    ghost inverse = { λ n. record { value = n } };
}

impl LongCode {
    /// The code in the low 20 bits.
    pub fn low(bits: u32) -> Self
        ensures { result ≡ bits % 2 ^ 20 }
    {
        LongCode {
            value: bits % 0x100000,
        }
    }

    /// The code, below 2^20.
    pub fn code(self) -> u32
        ensures is { result ≡ self }
        ensures below { result < 2 ^ 20 }
    {
        self.value
    }
}

/// A jump's index of 26 bits, which counts words.
#[derive(Clone, Copy, PartialEq, Eq)]
pub struct JumpIndex {
    words: u32,
}

impl Model for JumpIndex {
    ghost Value = { ℕ };

    ghost view = { λ field. field.words };

    ghost invariant = { λ field. field.words < 2 ^ 26 };

    ghost inverse = { λ n. record { words = n } };
}

impl JumpIndex {
    /// The index in the low 26 bits.
    pub fn low(bits: u32) -> Self
        ensures { result ≡ bits % 2 ^ 26 }
    {
        JumpIndex {
            words: bits % 0x4000000,
        }
    }

    /// The index, below 2^26.
    pub fn words(self) -> u32
        ensures is { result ≡ self }
        ensures below { result < 2 ^ 26 }
    {
        self.words
    }
}
