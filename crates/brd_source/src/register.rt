//! The registers, by number or by name.

ghost use Rattle.std.specs.Prelude.{◌≡◌};
ghost use Rattle.brd_source.specs.Registers as registers;

use brd_isa::register_named;
use brd_text::plain_decimal;

/// The register that stands after a `$`.
#[tactic(auto, unfolding(crate::specs::Registers::register_behind))]
pub fn register_behind(run: &[u8]) -> Option<u32>
    ensures { result ≡ registers.register_behind run.now }
{
    if let Some(number) = plain_decimal(run, 31) {
        return Some(number as u32);
    }
    match register_named(run) {
        Some(register) => Some(register.number() as u32),
        None => None,
    }
}

/// The register that a run is.
pub fn register_of(run: &[u8]) -> Option<u32>
    ensures { result ≡ registers.register_of run.now }
{
    match run.split_first() {
        Some((b'$', behind)) => register_behind(behind),
        _ => None,
    }
}
