//! Lines of assembler source: which statement the bytes of a line are.
#![tactic(auto)]

mod fault;
mod forms;
pub mod laws;
mod line;
mod operations;
mod reading;
mod register;
mod scanner;
mod statement;
mod statements;
mod text;
mod token;

pub use fault::LineFault;
pub use forms::{Kind, form_of, short_form_of};
pub use line::parse_line;
pub use operations::{Directive, OTHER_NAMES, Operation, Shorthand, operation_named, order_named};
pub use register::{register_behind, register_of};
pub use scanner::{after_blanks, escapes, first_token};
pub use statement::{Expression, Immediate, Instruction, Line, SourceOperand, Statement, Width};
pub use text::byte_for;
pub use token::SourceToken;
