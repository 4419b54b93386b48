//! What tokens say as operands.

ghost use Rattle.std.specs.Prelude.{◌≡◌, ◌<◌, ◌≤◌, pos, neg_ℤ, ◌≤ℤ◌, ◌∷◌, [], length, map, option_map, IfSome};
ghost use Rattle.std.specs.List.{position_or_len};
ghost use Rattle.brd_source.specs.Fronts as fronts;
ghost use Rattle.brd_source.specs.Reading as reads;
ghost use Rattle.brd_source.specs.Tokens.{seen};
ghost use Rattle.brd_source.specs.View.{expression_value, immediate_value, operand_value, operands_value};

use crate::register::register_of;
use crate::statement::{Expression, Immediate, Operands, SourceOperand, ZERO};
use crate::token::SourceToken;

/// A number, which may have a sign.
#[tactic(auto, unfolding(crate::specs::Reading::number_from))]
fn number(tokens: &[SourceToken]) -> Option<i64>
    ensures is { result ≡ reads.number_from (map seen tokens.now) }
    ensures least { IfSome result (λ n. neg_ℤ (pos 4294967295) ≤ℤ n) }
    ensures most { IfSome result (λ n. n ≤ℤ pos 4294967295) }
{
    match tokens {
        [SourceToken::Run(run)] => Some(brd_text::number(run)? as i64),
        [SourceToken::Mark(b'-'), SourceToken::Run(run)] => Some(-(brd_text::number(run)? as i64)),
        _ => None,
    }
}

/// What is added to a name: nothing, or `+` or `-` and a number.
#[tactic(auto, unfolding(crate::specs::Reading::addend_from))]
fn addend(tokens: &[SourceToken]) -> Option<i64>
    ensures { result ≡ reads.addend_from (map seen tokens.now) }
{
    match tokens {
        [] => Some(0),
        [SourceToken::Mark(b'+'), behind @ ..] => number(behind),
        [SourceToken::Mark(b'-'), behind @ ..] => Some(-number(behind)?),
        _ => None,
    }
}

/// An expression.
#[tactic(auto, unfolding(crate::specs::Reading::expression_from))]
pub(crate) fn expression<'a>(tokens: &[SourceToken<'a>]) -> Option<Expression<'a>>
    ensures { option_map expression_value result ≡ reads.expression_from (map seen tokens.now) }
{
    let (name, number) = match tokens {
        [SourceToken::Run(run), behind @ ..] if brd_text::is_name(run) => (
            Some(*run),
            addend(behind)?,
        ),
        _ => (None, number(tokens)?),
    };
    Some(Expression { name, number })
}

/// The tokens before the last `count`, and these. Where there are fewer, none and all.
fn split_last<'t, 'a>(
    tokens: &'t [SourceToken<'a>],
    count: usize,
) -> (&'t [SourceToken<'a>], &'t [SourceToken<'a>])
    ensures before { map seen result.0.now ≡ reads.before_last count (map seen tokens.now) }
    ensures last { map seen result.1.now ≡ reads.last count (map seen tokens.now) }
{
    tokens.split_at(tokens.len().saturating_sub(count))
}

/// An expression in parentheses.
#[tactic(auto, unfolding(crate::specs::Reading::in_parentheses))]
fn in_parentheses<'a>(tokens: &[SourceToken<'a>]) -> Option<Expression<'a>>
    ensures { option_map expression_value result ≡ reads.in_parentheses (map seen tokens.now) }
{
    let [SourceToken::Mark(b'('), behind @ ..] = tokens else {
        return None;
    };
    let (inner, end) = split_last(behind, 1);
    match end {
        [SourceToken::Mark(b')')] => expression(inner),
        _ => None,
    }
}

/// `%hi` or `%lo` of an expression, by the run after the `%`.
fn half<'a>(run: &[u8], expression: Expression<'a>) -> Option<Immediate<'a>>
    ensures { option_map immediate_value result ≡ reads.half_of run.now (expression_value expression.entry) }
{
    if run == b"hi".as_slice() {
        return Some(Immediate::High(expression));
    }
    (run == b"lo".as_slice()).then_some(Immediate::Low(expression))
}

/// An expression, or `%hi` or `%lo` of one.
#[tactic(auto, unfolding(crate::specs::Reading::immediate_from))]
fn immediate<'a>(tokens: &[SourceToken<'a>]) -> Option<Immediate<'a>>
    ensures { option_map immediate_value result ≡ reads.immediate_from (map seen tokens.now) }
{
    match tokens {
        [SourceToken::Percent(run), behind @ ..] => half(run, in_parentheses(behind)?),
        _ => Some(Immediate::Whole(expression(tokens)?)),
    }
}

/// A register.
fn register(tokens: &[SourceToken]) -> Option<u32>
    ensures { result ≡ reads.register_from (map seen tokens.now) }
{
    match tokens {
        [SourceToken::Run(run)] => register_of(run),
        _ => None,
    }
}

/// A register in parentheses.
#[tactic(auto, unfolding(crate::specs::Reading::base_from))]
fn base(tokens: &[SourceToken]) -> Option<u32>
    ensures { result ≡ reads.base_from (map seen tokens.now) }
{
    match tokens {
        [
            SourceToken::Mark(b'('),
            SourceToken::Run(run),
            SourceToken::Mark(b')'),
        ] => register_of(run),
        _ => None,
    }
}

/// The offset before the parenthesis of a register; 0 where it is left out.
#[tactic(auto, unfolding(crate::specs::Reading::offset_from))]
fn offset<'a>(tokens: &[SourceToken<'a>]) -> Option<Immediate<'a>>
    ensures { option_map immediate_value result ≡ reads.offset_from (map seen tokens.now) }
{
    match tokens {
        [] => Some(Immediate::Whole(ZERO)),
        _ => immediate(tokens),
    }
}

/// An operand.
#[tactic(auto, unfolding(crate::specs::Reading::operand_from))]
fn operand<'a>(tokens: &[SourceToken<'a>]) -> Option<SourceOperand<'a>>
    ensures { option_map operand_value result ≡ reads.operand_from (map seen tokens.now) }
{
    let (before, end) = split_last(tokens, 3);
    if let Some(base) = base(end) {
        return Some(SourceOperand::Address(offset(before)?, base));
    }
    if let Some(register) = register(tokens) {
        return Some(SourceOperand::Register(register));
    }
    Some(SourceOperand::Value(immediate(tokens)?))
}

/// Whether a token is a comma.
fn is_comma(token: SourceToken) -> bool
    ensures { result ≡ reads.is_comma (seen token.entry) }
{
    matches!(token, SourceToken::Mark(b','))
}

/// How many tokens stand before the first comma, all of them where there is none.
fn part_len(tokens: &[SourceToken]) -> usize
    ensures is { result ≡ position_or_len (λ token. reads.is_comma (seen token)) tokens.now }
    ensures within { result ≤ length tokens.now }
{
    for (i, token) in tokens.iter().enumerate() {
        if is_comma(*token) {
            return i;
        }
    }
    tokens.len()
}

/// What stands before the first comma, and what stands after it. `None` where there is no comma.
pub(crate) fn first_part<'t, 'a>(
    tokens: &'t [SourceToken<'a>],
) -> (&'t [SourceToken<'a>], Option<&'t [SourceToken<'a>]>)
    ensures parts { reads.parts (map seen tokens.now)
        ≡ map seen result.0.now ∷ fronts.parts_behind (option_map (λ behind. map seen behind.now) result.1) }
    ensures shorter { IfSome result.1 (λ behind. length behind.now < length tokens.now) }
{
    let (part, end) = tokens.split_at(part_len(tokens));
    match end.split_first() {
        None => (part, None),
        Some((_, behind)) => (part, Some(behind)),
    }
}

/// Up to three operands with commas between them.
#[tactic(auto, using(crate::proofs::Parts::too_many), unfolding(crate::specs::Reading::operands_from))]
pub(crate) fn operands<'a>(tokens: &[SourceToken<'a>]) -> Option<Operands<'a>>
    ensures { option_map operands_value result ≡ reads.operands_from (map seen tokens.now) }
{
    if tokens.is_empty() {
        return Some((
            SourceOperand::Absent,
            SourceOperand::Absent,
            SourceOperand::Absent,
        ));
    }
    let (first, behind) = first_part(tokens);
    let first = operand(first)?;
    let Some(behind) = behind else {
        return Some((first, SourceOperand::Absent, SourceOperand::Absent));
    };
    let (second, behind) = first_part(behind);
    let second = operand(second)?;
    let Some(behind) = behind else {
        return Some((first, second, SourceOperand::Absent));
    };
    let (third, None) = first_part(behind) else {
        return None;
    };
    Some((first, second, operand(third)?))
}
