//! What tokens say as statements.

ghost use Rattle.std.specs.Prelude.{◌≡◌, ◌++◌, ◌∷◌, [], map, option_map};
ghost use Rattle.brd_source.specs.Faults.{Gives};
ghost use Rattle.brd_source.specs.Forms as forms;
ghost use Rattle.brd_source.specs.Reading.{expression_from, parts, values_of};
ghost use Rattle.brd_source.specs.Statements as statements;
ghost use Rattle.brd_source.specs.Tokens.{seen};
ghost use Rattle.brd_source.specs.View.{expression_value, operands_value, statement_value};

use crate::fault::LineFault;
use crate::forms::{Kind, form_of, short_form_of, stands_for, taken};
use crate::operations::{Directive, Operation, Shorthand, operation_named, order_named};
use crate::reading::{expression, first_part, operands};
use crate::statement::{Expression, Instruction, Operands, Statement};
use crate::text::text;
use crate::token::SourceToken;
use brd_base::List;
use brd_isa::Mnemonic;
use std::alloc::Global;

/// An expression.
fn value<'a>(tokens: &[SourceToken<'a>]) -> Result<Expression<'a>, LineFault>
    ensures { Gives expression_value result (expression_from (map seen tokens.now)) }
{
    expression(tokens).ok_or(LineFault::Syntax)
}

/// Values with commas between them.
fn values<'a>(alloc: Global, tokens: &[SourceToken<'a>]) -> Result<List<Expression<'a>>, LineFault>
    ensures { Gives (λ values. map expression_value values) result (values_of (parts (map seen tokens.now))) }
{
    let mut values = List::new(alloc);
    let mut rest = Some(tokens);
    'values: while let Some(tokens) = rest {
        let (part, behind) = first_part(tokens);
        let value = value(part)?;
        values.push(value)?;
        rest = behind;
    }
    Ok(values)
}

/// A string with the byte 0 after it.
fn ended_text(alloc: Global, tokens: &[SourceToken]) -> Result<List<u8>, LineFault>
    ensures { Gives (λ text. text) result
        (option_map (λ text. text ++ 0 ∷ []) (statements.text_from (map seen tokens.now))) }
{
    let mut text = text(alloc, tokens)?;
    text.push(0)?;
    Ok(text)
}

/// `name, value`, after `.equ`.
#[tactic(auto, unfolding(crate::specs::Statements::equal_from))]
fn equal<'a>(tokens: &[SourceToken<'a>]) -> Option<Statement<'a>>
    ensures { option_map statement_value result ≡ statements.equal_from (map seen tokens.now) }
{
    match tokens {
        [SourceToken::Run(name), SourceToken::Mark(b','), behind @ ..] if brd_text::is_name(name) =>
            { Some(Statement::Equal(name, expression(behind)?)) }
        _ => None,
    }
}

/// A name, after `.globl`.
#[tactic(auto, unfolding(crate::specs::Statements::global_from))]
fn global<'a>(tokens: &[SourceToken<'a>]) -> Option<Statement<'a>>
    ensures { option_map statement_value result ≡ statements.global_from (map seen tokens.now) }
{
    match tokens {
        [SourceToken::Run(name)] if brd_text::is_name(name) => Some(Statement::WithoutEffect),
        _ => None,
    }
}

/// Whether a run may stand after `.set`.
fn is_setting(run: &[u8]) -> bool
    ensures { result ≡ statements.is_setting run.now }
{
    run == b"noreorder".as_slice() || run == b"noat".as_slice() || run == b"nomacro".as_slice()
}

/// What may stand after `.set`.
#[tactic(auto, unfolding(crate::specs::Statements::setting_from))]
fn setting<'a>(tokens: &[SourceToken<'a>]) -> Option<Statement<'a>>
    ensures { option_map statement_value result ≡ statements.setting_from (map seen tokens.now) }
{
    match tokens {
        [SourceToken::Run(run)] if is_setting(run) => Some(Statement::WithoutEffect),
        _ => None,
    }
}

/// A byte order, after `.byteorder`.
#[tactic(auto, unfolding(crate::specs::Statements::order_from))]
fn order<'a>(tokens: &[SourceToken<'a>]) -> Option<Statement<'a>>
    ensures { option_map statement_value result ≡ statements.order_from (map seen tokens.now) }
{
    match tokens {
        [SourceToken::Run(name)] => Some(Statement::ByteOrder(order_named(name)?)),
        _ => None,
    }
}

/// What stands after a directive.
fn behind_directive<'a>(
    alloc: Global,
    directive: Directive,
    tokens: &[SourceToken<'a>],
) -> Result<Statement<'a>, LineFault>
    ensures { Gives statement_value result (statements.directive_from directive (map seen tokens.now)) }
{
    match directive {
        Directive::Org => Ok(Statement::Org(value(tokens)?)),
        Directive::Align => Ok(Statement::Align(value(tokens)?)),
        Directive::Space => Ok(Statement::Space(value(tokens)?)),
        Directive::Values(width) => Ok(Statement::Data(width, values(alloc, tokens)?)),
        Directive::Ascii => Ok(Statement::Text(text(alloc, tokens)?)),
        Directive::Asciiz => Ok(Statement::Text(ended_text(alloc, tokens)?)),
        Directive::Equ => equal(tokens).ok_or(LineFault::Syntax),
        Directive::Globl => global(tokens).ok_or(LineFault::Syntax),
        Directive::Set => setting(tokens).ok_or(LineFault::Syntax),
        Directive::ByteOrder => order(tokens).ok_or(LineFault::Syntax),
    }
}

/// The operands of this form, none left out.
fn of_form<'a>(form: (Kind, Kind, Kind), tokens: &[SourceToken<'a>]) -> Option<Operands<'a>>
    ensures { option_map operands_value result ≡ statements.of_form form (map seen tokens.now) }
{
    taken(form, operands(tokens)?)
}

/// What stands after a mnemonic.
#[tactic(auto, unfolding(crate::specs::Statements::instruction_from))]
fn behind_mnemonic<'a>(mnemonic: Mnemonic, tokens: &[SourceToken<'a>]) -> Option<Statement<'a>>
    ensures { option_map statement_value result
        ≡ statements.instruction_from (forms.form_of mnemonic) (forms.instruction mnemonic) (map seen tokens.now) }
{
    let operands = of_form(form_of(mnemonic), tokens)?;
    Some(Statement::Instruction(Instruction { mnemonic, operands }))
}

/// What stands after a shorthand.
#[tactic(auto, unfolding(crate::specs::Statements::instruction_from))]
fn behind_shorthand<'a>(shorthand: Shorthand, tokens: &[SourceToken<'a>]) -> Option<Statement<'a>>
    ensures { option_map statement_value result
        ≡ statements.instruction_from (forms.short_form_of shorthand) (forms.stands_for shorthand)
        (map seen tokens.now) }
{
    let operands = of_form(short_form_of(shorthand), tokens)?;
    Some(Statement::Instruction(stands_for(shorthand, operands)))
}

/// What stands after an operation.
fn behind_operation<'a>(
    alloc: Global,
    operation: Operation,
    tokens: &[SourceToken<'a>],
) -> Result<Statement<'a>, LineFault>
    ensures { Gives statement_value result (statements.said_from operation (map seen tokens.now)) }
{
    match operation {
        Operation::Mnemonic(mnemonic) => behind_mnemonic(mnemonic, tokens).ok_or(LineFault::Syntax),
        Operation::Shorthand(shorthand) => behind_shorthand(shorthand, tokens).ok_or(
            LineFault::Syntax,
        ),
        Operation::Directive(directive) => behind_directive(alloc, directive, tokens),
    }
}

/// A statement, which may be left out.
#[tactic(auto, unfolding(crate::specs::Statements::statement_from))]
pub(crate) fn statement<'a>(
    alloc: Global,
    tokens: &[SourceToken<'a>],
) -> Result<Statement<'a>, LineFault>
    ensures { Gives statement_value result (statements.statement_from (map seen tokens.now)) }
{
    match tokens {
        [] => Ok(Statement::Nothing),
        [SourceToken::Run(run), behind @ ..] => {
            let operation = operation_named(run).ok_or(LineFault::Syntax)?;
            behind_operation(alloc, operation, behind)
        }
        _ => Err(LineFault::Syntax),
    }
}
