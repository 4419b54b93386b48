//! How often lines are raised, as an option says it.

ghost use Rattle.std.specs.Prelude.{◌≡◌, ◌≤◌, IfSome, MatchResult, Some};
ghost use Rattle.brd_search.specs.Plans as plans;
ghost use Rattle.brd_search.specs.Plans.{AreNoRaises, AreRaises, parts_of, text_of};

use crate::fault::SearchFault;
use brd_text::{parted, plain_decimal};

/// The most raises (own choice).
const MOST_RAISES: u64 = 4_294_967_295;

/// How often lines are raised.
#[derive(Clone, Copy, Debug, PartialEq, Eq)]
pub struct Raises {
    /// At most.
    pub most: u32,
    /// Before a board at rest is an end.
    pub owed: u32,
}

/// The raises that `R` or `F..R` says; none if nothing is said.
pub(crate) fn raises_of(text: Option<&str>) -> Result<Raises, SearchFault>
    ensures { MatchResult result (AreRaises (text_of text.entry)) (AreNoRaises (text_of text.entry)) }
{
    match text {
        Some(text) => raises_in(text.as_bytes()),
        None => Ok(Raises { most: 0, owed: 0 }),
    }
}

/// The raises that `R` or `F..R` says.
#[tactic(auto, unfolding(crate::specs::Plans::parts_of))]
fn raises_in(text: &[u8]) -> Result<Raises, SearchFault>
    ensures { MatchResult result (AreRaises (Some text.now)) (AreNoRaises (Some text.now)) }
{
    let (owed, Some(rest)) = parted(text, b'.') else {
        let Some(most) = plain_decimal(text, MOST_RAISES) else {
            return Err(SearchFault::Raises);
        };
        return Ok(Raises {
            most: most as u32,
            owed: most as u32,
        });
    };
    let Some(owed) = plain_decimal(owed, MOST_RAISES) else {
        return Err(SearchFault::Raises);
    };
    let Some(most) = behind_point(rest) else {
        return Err(SearchFault::Raises);
    };
    if most < owed {
        return Err(SearchFault::Raises);
    }
    Ok(Raises {
        most: most as u32,
        owed: owed as u32,
    })
}

/// The number after the second point of `F..R`.
fn behind_point(rest: &[u8]) -> Option<u64>
    ensures is { result ≡ plans.behind_point rest.now }
    ensures most { IfSome result (λ most. most ≤ 4294967295) }
{
    let (first, most) = rest.split_first()?;
    if *first != b'.' {
        return None;
    }
    plain_decimal(most, MOST_RAISES)
}
