//! Instructions and addresses as text, as the assembler's source has them.
//!
//! `write_instruction` writes a line that the assembler reads, at the same address, as the same instruction.
//! `nearest` finds the symbol by whose name an address goes, and `write_place` writes it; `Places` does both by halves.
//! `write_name` writes any name that stands in a text.
#![tactic(auto)]

mod instruction;
pub mod laws;
mod name;
mod number;
mod operand;
mod place;
mod places;

pub use instruction::{write_instruction, write_register};
pub use name::write_name;
pub use operand::mnemonic_of;
pub use place::{nearest, write_place};
pub use places::Places;
