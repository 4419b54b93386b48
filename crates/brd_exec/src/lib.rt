//! What one instruction does to a processor's context, to memory and to the processors' links.
//!
//! The definition is `specs/Step.antt`; `run` does exactly that, and takes no memory.
#![tactic(auto)]

mod access;
mod accessed;
mod branch;
mod compute;
mod context;
mod execute;
pub mod laws;
mod local;
mod memory;
mod outcome;
mod storing;
mod value;

pub use access::{load, store};
pub use accessed::{Span, reads_by, writes_by};
pub use context::Context;
pub use execute::run;
pub use local::run_local;
pub use outcome::{ExceptionCode, Outcome};
pub use storing::{is_store, may_store};
pub use value::{
    accumulate_value, count_value, is_below_zero, is_branch_taken, is_regimm_branch_taken,
    is_signed_below, is_zero_branch_taken, multiply_value, product_value, shift_value,
    shift_variable_value,
};
