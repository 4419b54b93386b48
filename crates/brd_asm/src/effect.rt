//! What statements do where they stand.

ghost use Rattle.std.specs.Prelude.{◌≡◌, ◌<◌, ◌≤◌, ◌^◌, ◌-◌, ◌%◌, option_map};
ghost use Rattle.brd_source.specs.View as source;
ghost use Rattle.brd_asm.specs.Faults.{Gives};
ghost use Rattle.brd_asm.specs.Layout.{gap, effect_of, own_name};
ghost use Rattle.brd_asm.specs.View as view;

use crate::fault::AsmFault;
use crate::names::Names;
use crate::piece::Content;
use crate::value::{known, up_to, value_of, within};
use brd_source::Statement;

/// What a statement does, apart from its labels.
#[derive(Drop)]
pub enum Effect<'a> {
    /// Nothing.
    Stays,
    /// What follows stands at this address.
    Moves(u32),
    /// A name gets a value.
    Equates(&'a [u8], i64),
    /// Addresses are filled.
    Fills(Content<'a>),
}

/// What a statement does that stands at a place, by the names of earlier lines.
#[tactic(auto, unfolding(crate::specs::Layout::effect_of))]
pub fn effect_of<'a>(
    line: usize,
    place: u32,
    names: &Names,
    statement: Statement<'a>,
) -> Result<Effect<'a>, AsmFault>
    ensures { Gives view.effect result (effect_of line place names.now (source.statement_value statement.entry)) }
{
    Ok(match statement {
        Statement::Nothing => Effect::Stays,
        Statement::WithoutEffect => Effect::Stays,
        Statement::ByteOrder(_) => Effect::Stays,
        Statement::Instruction(instruction) => Effect::Fills(Content::Code(instruction)),
        Statement::Org(e) => {
            let v = known(line, value_of(names, e))?;
            Effect::Moves(up_to(line, 4_294_967_295, v)?)
        }
        Statement::Align(e) => {
            let v = known(line, value_of(names, e))?;
            let n = up_to(line, 12, v)?;
            Effect::Fills(Content::Zeros(gap(place, 1 << n)))
        }
        Statement::Space(e) => {
            let v = known(line, value_of(names, e))?;
            Effect::Fills(Content::Zeros(up_to(line, 16_777_216, v)?))
        }
        Statement::Data(width, values) => Effect::Fills(Content::Values(width, values)),
        Statement::Text(bytes) => Effect::Fills(Content::Bytes(bytes)),
        Statement::Equal(name, e) => {
            let v = known(line, value_of(names, e))?;
            Effect::Equates(name, within(line, -2_147_483_648, 4_294_967_295, v)?)
        }
    })
}

/// How far it is from a place to the next multiple of n.
fn gap(place: u32, n: u32) -> u32
    requires { 0 < n }
    ensures { result ≡ gap place n }
{
    (n - place % n) % n
}

/// The name that a statement gives a value to.
pub fn own_name<'a>(statement: &Statement<'a>) -> Option<&'a [u8]>
    ensures { option_map (λ name. name.now) result ≡ own_name (source.statement_value statement.now) }
{
    match statement {
        Statement::Nothing => None,
        Statement::WithoutEffect => None,
        Statement::ByteOrder(_) => None,
        Statement::Instruction(_) => None,
        Statement::Org(_) => None,
        Statement::Align(_) => None,
        Statement::Space(_) => None,
        Statement::Data(_, _) => None,
        Statement::Text(_) => None,
        Statement::Equal(name, _) => Some(*name),
    }
}
