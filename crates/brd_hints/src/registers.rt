//! Which registers a line of assembler source reads and writes, as its operands say.

use crate::scan::{before_comma, behind, behind_commas, count, first, place_of, run, skip_blanks};
use crate::statements::{Parts, parts_of};
use brd_isa::{LinkedOp, Mnemonic};
use brd_source::{Directive, Operation, Shorthand, register_of};
use brd_text::{number, split_line};

/// How many lines of a source are looked at for a name's value.
const MOST_LINES: usize = 64;

/// Where a service call's number stands, and what a call answers.
pub(crate) const V0: u32 = 2;

/// Where more of what a call answers stands.
pub(crate) const V1: u32 = 3;

/// Where the return address stands.
pub(crate) const RA: u32 = 31;

/// Whether a line reads a register.
pub(crate) fn reads(parts: &Parts, register: u32) -> bool {
    if !is_instruction(parts) {
        return false;
    }
    let written = usize::from(writes_first(parts.operation));
    let pieces = count(parts.operands, b',').saturating_add(1);
    for place in written..pieces.min(3) {
        if register_in(parts.operands, place) == Some(register) {
            return true;
        }
    }
    false
}

/// Whether a line writes a register.
pub(crate) fn writes(parts: &Parts, register: u32) -> bool {
    is_instruction(parts)
        && writes_first(parts.operation)
        && register_in(parts.operands, 0) == Some(register)
}

/// The constant that a line of a source puts into its register, where it says one: a number that is added to register
/// 0, or the name of one.
pub(crate) fn constant_of(text: &[u8], parts: &Parts) -> Option<u32> {
    if !matches!(
        parts.operation,
        Some(Operation::Mnemonic(Mnemonic::WithImmediate(_)))
    ) {
        return None;
    }
    if register_in(parts.operands, 1) != Some(0) {
        return None;
    }
    let operand = before_comma(behind_commas(parts.operands, 2)?);
    number(operand).or(equated(text, operand))
}

/// The number that one of the first lines of a source gives a name.
fn equated(text: &[u8], name: &[u8]) -> Option<u32> {
    let mut rest = text;
    for _ in 0..MOST_LINES {
        let (line, after) = split_line(rest);
        let parts = parts_of(line);
        let (word, _) = run(parts.operands);
        if is_equ(parts.operation) && word == name {
            return number(before_comma(behind_commas(parts.operands, 1)?));
        }
        rest = after?;
    }
    None
}

/// Whether an operation gives a name a value.
fn is_equ(operation: Option<Operation>) -> bool {
    matches!(operation, Some(Operation::Directive(Directive::Equ)))
}

/// Whether a line is an instruction.
fn is_instruction(parts: &Parts) -> bool {
    matches!(
        parts.operation,
        Some(Operation::Mnemonic(_) | Operation::Shorthand(_))
    )
}

/// The register in the operand at a place: the operand itself, or its base.
fn register_in(operands: &[u8], place: usize) -> Option<u32> {
    let operand = before_comma(behind_commas(operands, place)?);
    if first(operand) == b'$' {
        return register_of(operand);
    }
    let mut rest = operand;
    for _ in 0..operand.len() {
        let Some(open) = place_of(rest, b'(') else {
            break;
        };
        rest = skip_blanks(behind(rest, open.saturating_add(1)));
    }
    let (base, _) = run(rest);
    register_of(base)
}

/// Whether an operation writes the register that stands first.
fn writes_first(operation: Option<Operation>) -> bool {
    match operation {
        Some(Operation::Mnemonic(mnemonic)) => match mnemonic {
            Mnemonic::JumpRegister
            | Mnemonic::Jump(_)
            | Mnemonic::Branch(_)
            | Mnemonic::BranchZero(_)
            | Mnemonic::BranchRegimm(_)
            | Mnemonic::Trap(_)
            | Mnemonic::TrapImmediate(_)
            | Mnemonic::MoveTo(_)
            | Mnemonic::Product(_)
            | Mnemonic::Accumulate(_)
            | Mnemonic::Store(_)
            | Mnemonic::Linked(LinkedOp::Sc)
            | Mnemonic::Prefetch => false,
            _ => true,
        },
        Some(Operation::Shorthand(shorthand)) => matches!(shorthand, Shorthand::Move),
        _ => false,
    }
}
