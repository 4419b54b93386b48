//! Rounds: all places are visited, one after the other.

ghost use Rattle.std.specs.Prelude.{IfOk};
ghost use Rattle.brd_reach.specs.Rounds.{IsMore, RoundSo, sharing_for};

use crate::unknown::Unknown;
use crate::visit::{Tried, visit};
use crate::ways::Ways;
use brd_base::NoMemory;
use brd_blocks::Sharing;
use brd_board::Event;
use brd_explore::Wanted;
use brd_places::Places;
use std::alloc::Global;

/// What a round came to.
#[derive(Clone, Copy, PartialEq, Eq)]
pub(crate) enum Round {
    /// No place fails, and there are no others.
    Holds,
    /// The place of this index fails.
    Fails(usize),
    /// At the place of this index, after so many steps of a processor, there is one that doesn't keep to who may touch
    /// what, and who is mortal.
    Strays(usize, u8, u32),
    /// It isn't known.
    Unknown(Unknown),
}

/// Visits places, and those to which events lead from them, until all have been visited or one fails; at most so many.
pub(crate) fn visit_all(
    alloc: Global,
    places: &mut Places,
    ways: &mut Ways,
    sharing: &Sharing,
    words: &[u32],
    among: &[Event],
    wanted: &Wanted,
    most: usize,
) -> Result<Round, NoMemory>
    ensures more { IsMore places.old places.new }
    ensures so { IfOk result (RoundSo (sharing_for sharing.now wanted.now) among.now wanted.now places.new) }
{
    let mut here = places.board(0)?;
    let mut last = places.board(0)?;
    for at in 0..most {
        if at >= places.len() {
            return Ok(Round::Holds);
        }
        match visit(
            alloc, places, ways, at, sharing, words, among, wanted, &mut here, &mut last,
        )? {
            Tried::Done => {}
            Tried::Fails => return Ok(Round::Fails(at)),
            Tried::Strays(cpu, count) => return Ok(Round::Strays(at, cpu, count)),
            Tried::Unknown(why) => return Ok(Round::Unknown(why)),
        }
    }
    Ok(Round::Unknown(Unknown::Places))
}
