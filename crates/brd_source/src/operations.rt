//! The names with which a statement begins, beside the mnemonics: shorthands and directives.

ghost use Rattle.std.specs.Prelude.{◌≡◌, map};
ghost use Rattle.brd_isa.specs.Names.{lowered, named_in};
ghost use Rattle.brd_source.specs.Operations as operations;

use crate::statement::Width;
use brd_isa::{Mnemonic, is_same_name, mnemonic_named};
use brd_word::Order;

/// Names for instructions that another mnemonic has too.
#[derive(Clone, Copy)]
pub enum Shorthand {
    Nop,
    Move,
    Branch,
    BranchIfZero,
    BranchUnlessZero,
    BranchAndLink,
}

/// Names that begin with a dot.
#[derive(Clone, Copy)]
pub enum Directive {
    Org,
    Align,
    Space,
    Values(Width),
    Ascii,
    Asciiz,
    Equ,
    Globl,
    Set,
    ByteOrder,
}

/// What a statement begins with.
#[derive(Clone, Copy)]
pub enum Operation {
    Mnemonic(Mnemonic),
    Shorthand(Shorthand),
    Directive(Directive),
}

/// The names of shorthands and directives, in lower case.
pub const OTHER_NAMES: &[(&[u8], Operation)] = &[
    (b"nop", Operation::Shorthand(Shorthand::Nop)),
    (b"move", Operation::Shorthand(Shorthand::Move)),
    (b"b", Operation::Shorthand(Shorthand::Branch)),
    (b"beqz", Operation::Shorthand(Shorthand::BranchIfZero)),
    (b"bnez", Operation::Shorthand(Shorthand::BranchUnlessZero)),
    (b"bal", Operation::Shorthand(Shorthand::BranchAndLink)),
    (
        b".word",
        Operation::Directive(Directive::Values(Width::Word)),
    ),
    (
        b".half",
        Operation::Directive(Directive::Values(Width::Half)),
    ),
    (
        b".byte",
        Operation::Directive(Directive::Values(Width::Byte)),
    ),
    (b".ascii", Operation::Directive(Directive::Ascii)),
    (b".asciiz", Operation::Directive(Directive::Asciiz)),
    (b".space", Operation::Directive(Directive::Space)),
    (b".align", Operation::Directive(Directive::Align)),
    (b".org", Operation::Directive(Directive::Org)),
    (b".equ", Operation::Directive(Directive::Equ)),
    (b".globl", Operation::Directive(Directive::Globl)),
    (b".set", Operation::Directive(Directive::Set)),
    (b".byteorder", Operation::Directive(Directive::ByteOrder)),
];

/// What a table has for a name, without regard to case.
fn find(rows: &[(&[u8], Operation)], name: &[u8]) -> Option<Operation>
    ensures { result ≡ named_in (map (λ row. (lowered row.0.now, row.1)) rows.now) (lowered name.now) }
{
    for (known, operation) in rows {
        if is_same_name(name, known) {
            return Some(*operation);
        }
    }
    None
}

/// The operation of this name, without regard to case.
pub fn operation_named(name: &[u8]) -> Option<Operation>
    ensures { result ≡ operations.operation_named (lowered name.now) }
{
    if let Some(mnemonic) = mnemonic_named(name) {
        return Some(Operation::Mnemonic(mnemonic));
    }
    find(OTHER_NAMES, name)
}

/// The byte order of this name.
#[tactic(auto, unfolding(crate::specs::Operations::order_named))]
pub fn order_named(name: &[u8]) -> Option<Order>
    ensures { result ≡ operations.order_named name.now }
{
    if name == b"big".as_slice() {
        return Some(Order::Big);
    }
    if name == b"little".as_slice() {
        return Some(Order::Little);
    }
    None
}
