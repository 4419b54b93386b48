//! Visits to places in a row, and what they come to.

ghost use Rattle.std.specs.Prelude.{◌≡◌, IfOk, List as ListOf, OnOk};
ghost use Rattle.std.specs.List.{All};
ghost use Rattle.brd_board.specs.declared.event.Event.{Event as EventOf};
ghost use Rattle.brd_explore.specs.Schedules.{Place as PlaceOf};
ghost use Rattle.brd_explore.specs.declared.wanted.Wanted.{Wanted as WantedOf};
ghost use Rattle.brd_frames.specs.Lagging.{Sharing as SharingOf};
ghost use Rattle.brd_lazy.specs.declared.round.Round.TheVariants.{Holds as holds};
ghost use Rattle.brd_lazy.specs.Finds.{GoneSo, PartSo, with_finds};
ghost use Rattle.brd_reach.specs.Rounds.{sharing_for};
ghost use Rattle.brd_spots.specs.Spots.{IsMore};

use crate::finds::Find;
use crate::round::Round;
use crate::stops::Stops;
use crate::visit::{Tried, visit};
use brd_base::NoMemory;
use brd_blocks::Sharing;
use brd_board::Event;
use brd_explore::Wanted;
use brd_reach::Unknown;
use brd_spots::{Seats, Spots};
use std::alloc::Global;

/// What visits to places in a row came to.
#[derive(Drop)]
pub(crate) struct Part {
    /// The index of the first of them.
    pub from: usize,
    /// The index behind the last of them.
    pub upto: usize,
    /// The places to which events lead from them, but for those that were known.
    pub finds: Vec<Find>,
    /// Where schedules stop at them.
    pub stops: Stops,
    /// What the visits came to; if it isn't that all have been visited, those behind haven't.
    pub came: Round,
}

/// Visits the places of some indices, until all have been visited or a visit comes to something else.
pub(crate) fn visit_part(
    alloc: Global,
    spots: &Spots,
    from: usize,
    upto: usize,
    sharing: &Sharing,
    words: &[u32],
    among: &[Event],
    wanted: &Wanted,
    seats: &mut Seats,
) -> Result<Part, NoMemory>
    ensures { IfOk result (PartSo (sharing_for sharing.now wanted.now) among.now wanted.now spots.now) }
{
    let mut finds = Vec::new(alloc);
    let mut stops = Stops::none();
    let came = visit_row(
        spots, &mut finds, &mut stops, from, upto, sharing, words, among, wanted, seats,
    )?;
    Ok(Part {
        from,
        upto,
        finds,
        stops,
        came,
    })
}

/// Visits them one after the other. The places to which events lead are noted, but for those that are known.
fn visit_row(
    spots: &Spots,
    finds: &mut Vec<Find>,
    stops: &mut Stops,
    from: usize,
    upto: usize,
    sharing: &Sharing,
    words: &[u32],
    among: &[Event],
    wanted: &Wanted,
    seats: &mut Seats,
) -> Result<Round, NoMemory>
    ensures more { IsMore (with_finds spots.now finds.old.items) (with_finds spots.now finds.new.items) }
    ensures so { IfOk result (GoneSo (sharing_for sharing.now wanted.now) among.now wanted.now spots.now
        (with_finds spots.now finds.new.items) from upto) }
{
    for at in from..upto {
        match visit(
            spots, finds, stops, at, sharing, words, among, wanted, seats,
        )? {
            Tried::Done => {}
            Tried::Fails => return Ok(Round::Fails(at)),
            Tried::Strays(cpu, count) => return Ok(Round::Strays(at, cpu, count)),
            Tried::Unknown(why) => return Ok(Round::Unknown(why)),
        }
    }
    Ok(Round::Holds)
}

/// Parts that follow one another, from the place of an index on, as one part. It goes as far as they follow, and all of
/// their places have been visited.
pub(crate) fn in_one(
    alloc: Global,
    parts: Vec<Result<Part, NoMemory>>,
    from: usize,
) -> Result<Part, NoMemory>
    ensures { (by : SharingOf) (among : ListOf EventOf) (wanted : WantedOf) (spots : ListOf PlaceOf) →
        All (λ part. IfOk part (PartSo by among wanted spots)) parts.items →
        IfOk result (PartSo by among wanted spots) }
{
    let mut one = Part {
        from,
        upto: from,
        finds: Vec::new(alloc),
        stops: Stops::none(),
        came: Round::Holds,
    };
    for part in parts {
        one.add(part?)?;
    }
    Ok(one)
}

impl Part {
    /// Adds a part behind it, unless it came to something else than that all places have been visited.
    fn add(&mut self, part: Part) -> Result<(), NoMemory>
        ensures { (by : SharingOf) (among : ListOf EventOf) (wanted : WantedOf) (spots : ListOf PlaceOf) →
            PartSo by among wanted spots self.old → PartSo by among wanted spots part →
            OnOk result (PartSo by among wanted spots self.new) }
    {
        match self.came {
            Round::Holds => self.follow(part),
            Round::Fails(_) | Round::Strays(_, _, _) | Round::Unknown(_) => Ok(()),
        }
    }

    /// Adds a part behind it. If that doesn't begin there it isn't known what both come to.
    fn follow(&mut self, part: Part) -> Result<(), NoMemory>
        requires { self.old.came ≡ holds }
        ensures { (by : SharingOf) (among : ListOf EventOf) (wanted : WantedOf) (spots : ListOf PlaceOf) →
            PartSo by among wanted spots self.old → PartSo by among wanted spots part →
            OnOk result (PartSo by among wanted spots self.new) }
    {
        if part.from != self.upto {
            self.came = Round::Unknown(Unknown::Waits);
            return Ok(());
        }
        self.finds.extend_from_slice(part.finds.as_slice())?;
        self.stops.add(part.stops);
        self.upto = part.upto;
        self.came = part.came;
        Ok(())
    }
}
