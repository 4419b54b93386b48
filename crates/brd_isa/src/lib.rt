//! The instructions of MIPS32 Release 1 (MD00086) that the board executes: a decoder, an encoder and their table.
//!
//! `specs/Table.antt` relates a word to the instruction that it stands for; `decode` and `encode` follow it both ways.
#![tactic(auto)]

mod decoder;
mod encoder;
mod fields;
mod formats;
mod forms;
mod instruction;
pub mod laws;
mod local;
mod mnemonic;
mod register;
mod shape;
mod word;

pub use decoder::decode;
pub use encoder::encode;
pub use fields::{Hint, JumpIndex, LongCode, Register, ShiftAmount, ShortCode};
pub use instruction::{
    AccumulateOp, BranchOp, BranchRegimmOp, BranchZeroOp, CountOp, ImmediateOp, Insn, JumpOp,
    LinkedOp, LoadOp, MoveFromOp, MoveToOp, ProductOp, RegisterOp, ShiftOp, ShiftVariableOp,
    StoreOp, TrapImmediateOp, TrapOp,
};
pub use local::is_local;
pub use mnemonic::{MNEMONIC_NAMES, Mnemonic, is_same_name, mnemonic_name, mnemonic_named};
pub use register::{register_name, register_named};
pub use shape::{
    AccessSize, Flow, MemoryAccess, Reads, Shape, Transfer, Writes, is_jump_calling,
    is_regimm_branch_calling, shape_of,
};
