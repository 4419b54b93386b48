//! A board that plays a journal, as the debugger needs it: back to a snapshot, and on to stops.

ghost use Rattle.std.specs.Prelude.{◌≡◌, ◌+◌, ◌<◌, ◌≤◌, Decides, if◌then◌else◌, List as ListOf, length, OnOk, OnErr};
ghost use Rattle.std.specs.Prelude.{None, Some};
ghost use Rattle.brd_mem.specs.Memory.{size_of};
ghost use Rattle.brd_board.specs.declared.event.Event.{Event as EventOf};
ghost use Rattle.brd_board.specs.Board.{BoardState as BoardOf};
ghost use Rattle.brd_journal.specs.Playing.{IsPlayed, AreStill};
ghost use Rattle.brd_debug.specs.Kept.{AreKept, DoFit};
ghost use Rattle.brd_debug.specs.Stops.{IsStop, IsLeast, IsGreatest, NoneFrom};
ghost use Rattle.brd_debug.specs.Watching.{AreBytesAt};

use crate::snapshots::Snapshots;
use crate::stops::{Stops, WatchedBytes};
use brd_base::NoMemory;
use brd_board::Board;
use brd_journal::{Journal, Playback};

/// Goes back, in place, to the last snapshot at or before a position, or to the boot where there is none. A refusal
/// leaves it as it is.
pub(crate) fn put_back(
    playback: &mut Playback,
    boot: &Board,
    snapshots: &Snapshots,
    to: u64,
) -> Result<(), NoMemory>
    requires sizes { size_of playback.old.board.memory ≡ size_of boot.now.memory }
    requires orders { playback.old.board.memory.order ≡ boot.now.memory.order }
    requires fit { DoFit boot.now snapshots.now.kept }
    ensures at { OnOk result (playback.new.at ≤ to) }
    ensures played { (events : ListOf EventOf) → AreKept boot.now events snapshots.now.kept
        → OnOk result (IsPlayed boot.now events playback.new) }
    ensures err { OnErr result (playback.new ≡ playback.old) }
{
    match snapshots.nearest(to) {
        Some(kept) => {
            playback.board.restore(boot, &kept.snapshot)?;
            playback.at = kept.at;
        }
        None => {
            playback.board.copy_from(boot)?;
            playback.at = 0;
        }
    }
    Ok(())
}

/// Plays on up to a position, and past it, as far as the other one, while a run's events do nothing; or up to after the
/// first stop. Answers that stop.
pub(crate) fn first_stop(
    playback: &mut Playback,
    journal: &Journal,
    stops: &Stops,
    end: u64,
    to: u64,
) -> Option<u64>
    requires on { playback.old.at ≤ end }
    requires past { end ≤ to }
    requires within { to ≤ length journal.now.events }
    ensures at { (playback.old.at ≤ playback.new.at) × (playback.new.at ≤ to) }
    ensures none { result ≡ None → end ≤ playback.new.at }
    ensures least { (boot : BoardOf) → IsPlayed boot journal.now.events playback.old
        → IsLeast (IsStop stops.now boot journal.now.events) playback.old.at playback.new.at result }
    ensures played { (boot : BoardOf) → IsPlayed boot journal.now.events playback.old
        → IsPlayed boot journal.now.events playback.new }
    ensures still { (boot : BoardOf) → IsPlayed boot journal.now.events playback.old
        → AreStill boot journal.now.events end playback.new.at }
{
    let mut near = 0;
    let mut bytes = stops.watched(&playback.board);
    while playback.at < end {
        let at = playback.at;
        if is_stop(playback, journal, stops, to, &mut near, &mut bytes) {
            return Some(at);
        }
    }
    None
}

/// Plays on up to a position. Answers the last stop before it.
pub(crate) fn last_stop(
    playback: &mut Playback,
    journal: &Journal,
    stops: &Stops,
    to: u64,
) -> Option<u64>
    requires on { playback.old.at ≤ to }
    requires within { to ≤ length journal.now.events }
    ensures played { (boot : BoardOf) → IsPlayed boot journal.now.events playback.old
        → IsPlayed boot journal.now.events playback.new }
    ensures greatest { (boot : BoardOf) → IsPlayed boot journal.now.events playback.old
        → IsGreatest (IsStop stops.now boot journal.now.events) playback.old.at to result }
{
    let mut near = 0;
    let mut bytes = stops.watched(&playback.board);
    let mut last = None;
    while playback.at < to {
        let at = playback.at;
        let stop = is_stop(playback, journal, stops, to, &mut near, &mut bytes);
        last = later(last, stop, at);
    }
    last
}

/// The last of the stops so far and this position, if that is one.
fn later(last: Option<u64>, stop: bool, at: u64) -> Option<u64>
    ensures { result ≡ (if stop then Some at else last) }
{
    if stop { Some(at) } else { last }
}

/// Does the next event, and those of its run after it that do nothing, up to a position. Answers whether its position
/// is a stop; those of the others are none. `near` is where the journal looks for the run, and the bytes are those that
/// are watched.
#[inline(always)]
fn is_stop(
    playback: &mut Playback,
    journal: &Journal,
    stops: &Stops,
    to: u64,
    near: &mut usize,
    bytes: &mut WatchedBytes,
) -> bool
    requires on { playback.old.at < to }
    requires within { to ≤ length journal.now.events }
    requires bytes { AreBytesAt stops.now.watches playback.old.board.memory bytes.old.bytes }
    ensures on { (playback.old.at < playback.new.at) × (playback.new.at ≤ to) }
    ensures bytes { AreBytesAt stops.now.watches playback.new.board.memory bytes.new.bytes }
    ensures played { (boot : BoardOf) → IsPlayed boot journal.now.events playback.old
        → IsPlayed boot journal.now.events playback.new }
    ensures still { (boot : BoardOf) → IsPlayed boot journal.now.events playback.old
        → AreStill boot journal.now.events (playback.old.at + 1) playback.new.at }
    ensures stop { (boot : BoardOf) → IsPlayed boot journal.now.events playback.old
        → Decides result (IsStop stops.now boot journal.now.events playback.old.at) }
    ensures none { (boot : BoardOf) → IsPlayed boot journal.now.events playback.old
        → NoneFrom (IsStop stops.now boot journal.now.events) (playback.old.at + 1) playback.new.at }
{
    let Some(rest) = journal.rest_at(playback.at, near) else {
        return false;
    };
    let may_change = stops.may_change(&playback.board, rest.event);
    let ahead = stops.ahead(&playback.board, rest.event);
    let moved = playback.advance(rest, playback.at + 1, to);
    stops.are_met(
        rest.event,
        moved.report,
        &playback.board,
        bytes,
        may_change,
        ahead,
    )
}
