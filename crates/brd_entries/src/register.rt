//! The registers of an entry, each a byte.

ghost use Rattle.std.specs.Prelude.{◌≡◌, ℕ, ◌<◌, ◌≤◌, ◌==◌, ◌^◌, Option, if◌then◌else◌, Some, None};

use brd_isa::Register;
use std::marker::Model;

/// A general register that an instruction reads: its number, 0 to 31.
#[derive(Clone, Copy)]
pub struct Source {
    number: u8,
}

impl Model for Source {
    ghost Value = { ℕ };

    ghost view = { λ source. source.number };

    ghost invariant = { λ source. source.number < 2 ^ 5 };

    ghost inverse = { λ n. record { number = n } };
}

impl Source {
    /// The register as one that is read.
    pub fn of(register: Register) -> Self
        ensures { result ≡ register }
    {
        Source {
            number: register.number(),
        }
    }

    /// Its number, 0 to 31.
    #[inline(always)]
    pub fn number(self) -> u8
        ensures is { result ≡ self }
        ensures below { result < 2 ^ 5 }
    {
        self.number
    }
}

/// A general register that an instruction writes: its number, 1 to 31. Register 0 isn't among them, so a write needs
/// no test for it.
#[derive(Clone, Copy)]
pub struct Destination {
    number: u8,
}

impl Model for Destination {
    ghost Value = { ℕ };

    ghost view = { λ destination. destination.number };

    ghost invariant = { λ destination. (1 ≤ destination.number) × (destination.number < 2 ^ 5) };

    ghost inverse = { λ n. record { number = n } };
}

impl Destination {
    /// The register as one that is written; None for register 0.
    pub fn of(register: Register) -> Option<Self>
        ensures { result ≡ (if register == 0 then None else Some register) }
    {
        let number = register.number();
        if number == 0 {
            return None;
        }
        Some(Destination { number })
    }

    /// Its number, 1 to 31.
    #[inline(always)]
    pub fn number(self) -> u8
        ensures is { result ≡ self }
        ensures bounds { (1 ≤ result) × (result < 2 ^ 5) }
    {
        self.number
    }
}
