//! Which operands each mnemonic and each shorthand takes: a line a form.

ghost use Rattle.std.specs.Prelude.{◌≡◌, option_map};
ghost use Rattle.brd_source.specs.Forms as forms;
ghost use Rattle.brd_source.specs.View.{instruction_value, operand_value, operands_value};

use crate::operations::Shorthand;
use crate::statement::{Immediate, Instruction, Operands, SourceOperand, ZERO};
use Kind::{Address, Code, Link, Nothing, Number, Register, Value};
use brd_isa::{BranchOp, BranchRegimmOp, Mnemonic, RegisterOp, ShiftOp};

/// What an operand has to be.
#[derive(Clone, Copy)]
pub enum Kind {
    /// Nothing at all.
    Nothing,
    /// A register.
    Register,
    /// A register that may be left out alone: then it is 31.
    Link,
    /// An expression.
    Number,
    /// An expression that may be left out: then it is 0.
    Code,
    /// An expression, or `%hi` or `%lo` of one.
    Value,
    /// `offset(base)`
    Address,
}

/// What the operands of a mnemonic are, in the order in which they are written.
pub fn form_of(mnemonic: Mnemonic) -> (Kind, Kind, Kind)
    ensures { result ≡ forms.form_of mnemonic }
{
    match mnemonic {
        Mnemonic::Shift(_) => (Register, Register, Number),
        Mnemonic::ShiftVariable(_) => (Register, Register, Register),
        Mnemonic::ThreeRegisters(_) => (Register, Register, Register),
        Mnemonic::Multiply => (Register, Register, Register),
        Mnemonic::JumpRegister => (Register, Nothing, Nothing),
        Mnemonic::JumpLinkRegister => (Link, Register, Nothing),
        Mnemonic::Syscall => (Code, Nothing, Nothing),
        Mnemonic::Break => (Code, Nothing, Nothing),
        Mnemonic::Sync => (Nothing, Nothing, Nothing),
        Mnemonic::MoveFrom(_) => (Register, Nothing, Nothing),
        Mnemonic::MoveTo(_) => (Register, Nothing, Nothing),
        Mnemonic::Product(_) => (Register, Register, Nothing),
        Mnemonic::Accumulate(_) => (Register, Register, Nothing),
        Mnemonic::Count(_) => (Register, Register, Nothing),
        Mnemonic::Trap(_) => (Register, Register, Code),
        Mnemonic::TrapImmediate(_) => (Register, Value, Nothing),
        Mnemonic::Jump(_) => (Number, Nothing, Nothing),
        Mnemonic::Branch(_) => (Register, Register, Number),
        Mnemonic::BranchZero(_) => (Register, Number, Nothing),
        Mnemonic::BranchRegimm(_) => (Register, Number, Nothing),
        Mnemonic::WithImmediate(_) => (Register, Register, Value),
        Mnemonic::LoadUpper => (Register, Value, Nothing),
        Mnemonic::Load(_) => (Register, Address, Nothing),
        Mnemonic::Store(_) => (Register, Address, Nothing),
        Mnemonic::Linked(_) => (Register, Address, Nothing),
        Mnemonic::Prefetch => (Number, Address, Nothing),
    }
}

/// What the operands of a shorthand are.
pub fn short_form_of(shorthand: Shorthand) -> (Kind, Kind, Kind)
    ensures { result ≡ forms.short_form_of shorthand }
{
    match shorthand {
        Shorthand::Nop => (Nothing, Nothing, Nothing),
        Shorthand::Move => (Register, Register, Nothing),
        Shorthand::Branch => (Number, Nothing, Nothing),
        Shorthand::BranchIfZero => (Register, Number, Nothing),
        Shorthand::BranchUnlessZero => (Register, Number, Nothing),
        Shorthand::BranchAndLink => (Number, Nothing, Nothing),
    }
}

/// The operand 0.
fn nought<'a>() -> SourceOperand<'a>
    ensures { operand_value result ≡ forms.zero }
{
    SourceOperand::Value(Immediate::Whole(ZERO))
}

/// The instruction that a shorthand with these operands stands for.
pub(crate) fn stands_for<'a>(shorthand: Shorthand, operands: Operands<'a>) -> Instruction<'a>
    ensures { instruction_value result ≡ forms.stands_for shorthand (operands_value operands.entry) }
{
    let (a, b, _) = operands;
    let zero = SourceOperand::Register(0);
    let (mnemonic, operands) = match shorthand {
        Shorthand::Nop => (Mnemonic::Shift(ShiftOp::Sll), (zero, zero, nought())),
        Shorthand::Move => (Mnemonic::ThreeRegisters(RegisterOp::Addu), (a, b, zero)),
        Shorthand::Branch => (Mnemonic::Branch(BranchOp::Beq), (zero, zero, a)),
        Shorthand::BranchIfZero => (Mnemonic::Branch(BranchOp::Beq), (a, zero, b)),
        Shorthand::BranchUnlessZero => (Mnemonic::Branch(BranchOp::Bne), (a, zero, b)),
        Shorthand::BranchAndLink => (
            Mnemonic::BranchRegimm(BranchRegimmOp::Bgezal),
            (zero, a, SourceOperand::Absent),
        ),
    };
    Instruction { mnemonic, operands }
}

/// Whether an operand is left out that may be.
fn is_left_out(kind: Kind, operand: &SourceOperand) -> bool
    ensures { result ≡ forms.is_left_out kind (operand_value operand.now) }
{
    matches!(kind, Code) && matches!(operand, SourceOperand::Absent)
}

/// The operand that stands for a written one.
fn filled<'a>(kind: Kind, operand: SourceOperand<'a>) -> SourceOperand<'a>
    ensures { operand_value result ≡ forms.filled kind (operand_value operand.entry) }
{
    if is_left_out(kind, &operand) {
        return nought();
    }
    operand
}

/// Whether an operand is of a kind.
fn is_of(kind: Kind, operand: &SourceOperand) -> bool
    ensures { result ≡ forms.is_of kind (operand_value operand.now) }
{
    match kind {
        Nothing => matches!(operand, SourceOperand::Absent),
        Register | Link => matches!(operand, SourceOperand::Register(_)),
        Number | Code => matches!(operand, SourceOperand::Value(Immediate::Whole(_))),
        Value => matches!(operand, SourceOperand::Value(_)),
        Address => matches!(operand, SourceOperand::Address(_, _)),
    }
}

/// Whether the first operand is left out before the second.
fn is_unlinked(kind: Kind, second: &SourceOperand) -> bool
    ensures { result ≡ forms.is_unlinked kind (operand_value second.now) }
{
    matches!(kind, Link) && matches!(second, SourceOperand::Absent)
}

/// The operands of a form, none left out.
#[tactic(auto, unfolding(crate::specs::Forms::taken))]
pub(crate) fn taken<'a>(form: (Kind, Kind, Kind), written: Operands<'a>) -> Option<Operands<'a>>
    ensures { option_map operands_value result ≡ forms.taken form (operands_value written.entry) }
{
    let (a, b, c) = linked(form.0, written);
    let (a, b, c) = (filled(form.0, a), filled(form.1, b), filled(form.2, c));
    if is_of(form.0, &a) && is_of(form.1, &b) && is_of(form.2, &c) {
        return Some((a, b, c));
    }
    None
}

/// Operands with the first one where it is left out.
fn linked<'a>(kind: Kind, written: Operands<'a>) -> Operands<'a>
    ensures { operands_value result ≡ forms.linked kind (operands_value written.entry) }
{
    let (a, b, c) = written;
    if is_unlinked(kind, &b) {
        return (SourceOperand::Register(31), a, c);
    }
    (a, b, c)
}
