//! What a line of assembler source says.

ghost use Rattle.std.specs.Prelude.{◌≡◌};
ghost use Rattle.brd_source.specs.Statement as statements;
ghost use Rattle.brd_source.specs.View.{expression_value, immediate_value, operand_value};

use brd_base::List;
use brd_isa::{Mnemonic, Register};
use brd_word::Order;

/// A whole number with sign: the value of a name, if there is one, plus a number.
#[derive(Clone, Copy)]
pub struct Expression<'a> {
    /// The name, whose value isn't known yet.
    pub name: Option<&'a [u8]>,
    /// What is added to it; above -2^32 and below 2^32.
    pub number: i64,
}

/// The expression 0.
pub(crate) const ZERO: Expression<'static> = Expression {
    name: None,
    number: 0,
};

/// An immediate or an offset as it is written.
#[derive(Clone, Copy)]
pub enum Immediate<'a> {
    /// The value itself.
    Whole(Expression<'a>),
    /// `%hi(e)`: the high half of e, rounded so that the low half, read as signed, adds up to e.
    High(Expression<'a>),
    /// `%lo(e)`: the low half of e.
    Low(Expression<'a>),
}

/// An operand of an instruction.
#[derive(Clone, Copy)]
pub enum SourceOperand<'a> {
    /// None stands here.
    Absent,
    /// A register, 0 to 31.
    Register(u32),
    /// A value.
    Value(Immediate<'a>),
    /// `offset(base)`: an offset and a register.
    Address(Immediate<'a>, u32),
}

impl<'a> SourceOperand<'a> {
    /// The operand that is a register, or the base of an address. Others have none, and 0 stands for it.
    pub fn register(&self) -> Register
        ensures { result ≡ statements.register_in (operand_value self.now) }
    {
        match self {
            SourceOperand::Register(register) => Register::low(*register),
            SourceOperand::Address(_, base) => Register::low(*base),
            _ => Register::low(0),
        }
    }

    /// The operand that is a value, or the offset of an address. Others have none, and 0 stands for it.
    pub fn immediate(&self) -> Immediate<'a>
        ensures { immediate_value result ≡ statements.immediate_in (operand_value self.now) }
    {
        match self {
            SourceOperand::Value(value) => *value,
            SourceOperand::Address(offset, _) => *offset,
            _ => Immediate::Whole(ZERO),
        }
    }

    /// The operand that is an expression. Others have none, and 0 stands for it.
    pub fn expression(&self) -> Expression<'a>
        ensures { expression_value result ≡ statements.expression_in (operand_value self.now) }
    {
        match self {
            SourceOperand::Value(Immediate::Whole(e)) => *e,
            _ => ZERO,
        }
    }
}

/// The operands of an instruction, in the order in which they are written.
pub type Operands<'a> = (SourceOperand<'a>, SourceOperand<'a>, SourceOperand<'a>);

/// An instruction: which it is, and the operands that it takes, by the table of `forms`. Targets of branches and jumps
/// are addresses.
#[derive(Clone, Copy)]
pub struct Instruction<'a> {
    /// Which instruction it is.
    pub mnemonic: Mnemonic,
    /// Its operands, none left out.
    pub operands: Operands<'a>,
}

/// How many bytes each value of `.byte`, `.half` and `.word` takes.
#[derive(Clone, Copy)]
pub enum Width {
    /// One.
    Byte,
    /// Two, at an even address.
    Half,
    /// Four, at a multiple of 4.
    Word,
}

/// What stands after a line's labels.
#[derive(Drop)]
pub enum Statement<'a> {
    /// Nothing at all.
    Nothing,
    /// A directive without effect: `.globl name`, `.set noreorder`, `.set noat`, `.set nomacro`.
    WithoutEffect,
    /// `.byteorder order`: the byte order of the source.
    ByteOrder(Order),
    /// An instruction.
    Instruction(Instruction<'a>),
    /// `.org place`: what follows stands at this address.
    Org(Expression<'a>),
    /// `.align n`: bytes of zero up to the next multiple of 2^n.
    Align(Expression<'a>),
    /// `.space n`: n bytes of zero.
    Space(Expression<'a>),
    /// `.byte`, `.half` or `.word` and its values, one at least.
    Data(Width, List<Expression<'a>>),
    /// The bytes of `.ascii`, or of `.asciiz` with the byte 0 after them.
    Text(List<u8>),
    /// `.equ name, value`
    Equal(&'a [u8], Expression<'a>),
}

/// A line of source.
#[derive(Drop)]
pub struct Line<'a> {
    /// The names with a colon before the statement, in order.
    pub labels: List<&'a [u8]>,
    /// The statement.
    pub statement: Statement<'a>,
}
