//! What can be refused.

use thiserror::Error;

/// Why there is no RAM.
#[derive(Clone, Copy, Debug, PartialEq, Eq, Error)]
pub enum RamFault {
    /// A growth was refused.
    #[error("out of memory")]
    NoMemory,
    /// The size isn't 64 KiB to 16 MiB in steps of 64 KiB.
    #[error("the size of RAM must be 65,536 to 16,777,216 bytes in steps of 65,536")]
    BadSize,
}

/// The exception that a memory access raises (MD00090, "Address Error Exception" and "Bus Error Exception").
#[derive(Clone, Copy, Debug, PartialEq, Eq)]
pub enum Exc {
    /// Address error, load or fetch: the address isn't aligned.
    AdEL,
    /// Address error, store: the address isn't aligned.
    AdES,
    /// Bus error, fetch: the address isn't in RAM.
    IBE,
    /// Bus error, data: the address isn't in RAM.
    DBE,
}
