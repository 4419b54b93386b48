//! Ways through a journal: to a position, to the next stop, to the one before.

ghost use Rattle.std.specs.Prelude.{◌≡◌, ◌+◌, ◌-◌, ◌<◌, ◌≤◌, List as ListOf, length, IfNone, IfOk, OnOk, OnErr};
ghost use Rattle.brd_board.specs.declared.event.Event.{Event as EventOf};
ghost use Rattle.brd_board.specs.Snapshot.{Fits};
ghost use Rattle.brd_journal.specs.Playing.{IsPlayed};
ghost use Rattle.brd_debug.specs.Kept.{IsKept, AreKept, DoFit, IsLastUpTo, next_multiple, plan_of, IsNoted};
ghost use Rattle.brd_debug.specs.Kept.{IsNotedUpTo};
ghost use Rattle.brd_debug.specs.Stops.{IsStop, IsLeast, IsGreatest};

use crate::playback::{first_stop, last_stop, put_back};
use crate::snapshots::{Kept, Snapshots};
use crate::stops::Stops;
use brd_base::NoMemory;
use brd_board::Board;
use brd_journal::{Journal, Playback};
use brd_progress::Progress;

/// A board that has played up to a position: from the one that is shown, from a snapshot or from the boot, whichever is
/// nearest. It takes snapshots on its way, and tells how far it is.
pub(crate) fn played_to<P: Progress>(
    boot: &Board,
    journal: &Journal,
    snapshots: &mut Snapshots,
    shown: &Playback,
    to: u64,
    progress: &mut P,
) -> Result<Playback, NoMemory>
    requires shown { IsPlayed boot.now journal.now.events shown.now }
    requires kept { AreKept boot.now journal.now.events snapshots.old.kept }
    requires within { to ≤ length journal.now.events }
    ensures played { IfOk result (IsPlayed boot.now journal.now.events) }
    ensures at { IfOk result (λ playback. playback.at ≡ to) }
    ensures kept { AreKept boot.now journal.now.events snapshots.new.kept }
    ensures noted { IfOk result
        (λ _. IsNotedUpTo boot.now journal.now.events snapshots.old shown.now.at to (plan_of snapshots.new)) }
{
    let mut playback = nearest(boot, snapshots, shown, to)?;
    play_on(boot, journal, snapshots, &mut playback, to, progress)?;
    Ok(playback)
}

/// Lets a board play on up to a position. It takes snapshots on its way, and tells at each how far it is.
fn play_on<P: Progress>(
    boot: &Board,
    journal: &Journal,
    snapshots: &mut Snapshots,
    playback: &mut Playback,
    to: u64,
    progress: &mut P,
) -> Result<(), NoMemory>
    requires played { IsPlayed boot.now journal.now.events playback.old }
    requires kept { AreKept boot.now journal.now.events snapshots.old.kept }
    requires on { playback.old.at ≤ to }
    requires within { to ≤ length journal.now.events }
    ensures played { IsPlayed boot.now journal.now.events playback.new }
    ensures at { OnOk result (playback.new.at ≡ to) }
    ensures kept { AreKept boot.now journal.now.events snapshots.new.kept }
    ensures noted { OnOk result
        (IsNoted boot.now journal.now.events (plan_of snapshots.old) playback.old.at (to - playback.old.at)
        (plan_of snapshots.new)) }
{
    let len = journal.len();
    let from = playback.at;
    while playback.at < to {
        snapshots.note(boot, playback)?;
        let end = snapshots.next(playback.at).min(to);
        playback.play_to(journal, end, to);
        progress.show(playback.at.saturating_sub(from), to.saturating_sub(from));
    }
    Ok(())
}

/// Lets the board that is shown play on in place, up to a position that is no further than the next snapshot. An `Err`
/// leaves it as it is.
pub(crate) fn play_near(
    boot: &Board,
    journal: &Journal,
    snapshots: &mut Snapshots,
    shown: &mut Playback,
    to: u64,
) -> Result<(), NoMemory>
    requires shown { IsPlayed boot.now journal.now.events shown.old }
    requires kept { AreKept boot.now journal.now.events snapshots.old.kept }
    requires on { shown.old.at < to }
    requires near { to ≤ next_multiple snapshots.old.interval shown.old.at }
    requires within { to ≤ length journal.now.events }
    ensures played { IsPlayed boot.now journal.now.events shown.new }
    ensures at { OnOk result (shown.new.at ≡ to) }
    ensures err { OnErr result (shown.new ≡ shown.old) }
    ensures kept { AreKept boot.now journal.now.events snapshots.new.kept }
    ensures noted { OnOk result
        (IsNoted boot.now journal.now.events (plan_of snapshots.old) shown.old.at (to - shown.old.at)
        (plan_of snapshots.new)) }
{
    let len = journal.len();
    snapshots.note(boot, shown)?;
    shown.play_to(journal, to, to);
    Ok(())
}

/// Lets the board that is shown go back in place: to the last snapshot at or before a position, or to the boot, and
/// from there on to the position. It takes no snapshots, so it is for positions up to the next multiple of the
/// interval. An `Err` leaves it as it is.
pub(crate) fn go_back(
    boot: &Board,
    journal: &Journal,
    snapshots: &Snapshots,
    shown: &mut Playback,
    to: u64,
) -> Result<(), NoMemory>
    requires shown { IsPlayed boot.now journal.now.events shown.old }
    requires kept { AreKept boot.now journal.now.events snapshots.now.kept }
    requires within { to ≤ length journal.now.events }
    ensures played { IsPlayed boot.now journal.now.events shown.new }
    ensures at { OnOk result (shown.new.at ≡ to) }
    ensures err { OnErr result (shown.new ≡ shown.old) }
{
    // For the proof alone: its contract says how few events there can be.
    let _ = journal.len();
    put_back(shown, boot, snapshots, to)?;
    shown.play_to(journal, to, to);
    Ok(())
}

/// The first stop after the position of a board, which it lets play on, to wherever the search ends. It takes snapshots on
/// its way, and tells how far it is.
pub(crate) fn next_stop<P: Progress>(
    boot: &Board,
    journal: &Journal,
    stops: &Stops,
    snapshots: &mut Snapshots,
    playback: &mut Playback,
    progress: &mut P,
) -> Result<Option<u64>, NoMemory>
    requires played { IsPlayed boot.now journal.now.events playback.old }
    requires kept { AreKept boot.now journal.now.events snapshots.old.kept }
    ensures least { IfOk result
        (IsLeast (IsStop stops.now boot.now journal.now.events) (playback.old.at + 1) (length journal.now.events)) }
    ensures played { IsPlayed boot.now journal.now.events playback.new }
    ensures kept { AreKept boot.now journal.now.events snapshots.new.kept }
{
    let len = journal.len();
    if playback.at == len {
        return Ok(None);
    }
    let next = playback.at + 1;
    play_on(boot, journal, snapshots, playback, next, progress)?;
    stop_from(boot, journal, stops, snapshots, playback, len, progress)
}

/// The first stop from the position of a board on, before another position. It lets the board play on, to wherever the
/// search ends: to that position, where there is none. It takes snapshots on its way, and tells at each how far it is.
pub(crate) fn stop_from<P: Progress>(
    boot: &Board,
    journal: &Journal,
    stops: &Stops,
    snapshots: &mut Snapshots,
    playback: &mut Playback,
    to: u64,
    progress: &mut P,
) -> Result<Option<u64>, NoMemory>
    requires played { IsPlayed boot.now journal.now.events playback.old }
    requires kept { AreKept boot.now journal.now.events snapshots.old.kept }
    requires on { playback.old.at ≤ to }
    requires within { to ≤ length journal.now.events }
    ensures least { IfOk result (IsLeast (IsStop stops.now boot.now journal.now.events) playback.old.at to) }
    ensures played { IsPlayed boot.now journal.now.events playback.new }
    ensures at { IfOk result (λ found. IfNone found (playback.new.at ≡ to)) }
    ensures kept { AreKept boot.now journal.now.events snapshots.new.kept }
    ensures noted { OnOk result
        (IsNoted boot.now journal.now.events (plan_of snapshots.old) playback.old.at (playback.new.at - playback.old.at)
        (plan_of snapshots.new)) }
{
    let len = journal.len();
    let from = playback.at;
    while playback.at < to {
        snapshots.note(boot, playback)?;
        let end = snapshots.next(playback.at).min(to);
        let found = first_stop(playback, journal, stops, end, to);
        if found.is_some() {
            return Ok(found);
        }
        progress.show(playback.at.saturating_sub(from), to.saturating_sub(from));
    }
    Ok(None)
}

/// The last stop from a position on, before another one. It looks from one snapshot to the next, and then from the one
/// before that, by a board that it lets go back, and tells at each how far it is.
pub(crate) fn stop_before<P: Progress>(
    boot: &Board,
    journal: &Journal,
    stops: &Stops,
    snapshots: &Snapshots,
    playback: &mut Playback,
    begin: u64,
    end: u64,
    progress: &mut P,
) -> Result<Option<u64>, NoMemory>
    requires played { IsPlayed boot.now journal.now.events playback.old }
    requires kept { AreKept boot.now journal.now.events snapshots.now.kept }
    requires within { end ≤ length journal.now.events }
    ensures greatest { IfOk result (IsGreatest (IsStop stops.now boot.now journal.now.events) begin end) }
    ensures played { IsPlayed boot.now journal.now.events playback.new }
{
    let mut to = end;
    while to > begin {
        put_between(playback, boot, journal, snapshots, begin, to - 1)?;
        let from = playback.at;
        let found = last_stop(playback, journal, stops, to);
        if found.is_some() {
            return Ok(found);
        }
        to = from;
        progress.show(end.saturating_sub(to), end);
    }
    Ok(None)
}

/// Goes back, in place, to the last snapshot at or before a position, or to the boot; and where that lies before another
/// position, on to this one. An `Err` leaves it as it is.
fn put_between(
    playback: &mut Playback,
    boot: &Board,
    journal: &Journal,
    snapshots: &Snapshots,
    begin: u64,
    to: u64,
) -> Result<(), NoMemory>
    requires played { IsPlayed boot.now journal.now.events playback.old }
    requires kept { AreKept boot.now journal.now.events snapshots.now.kept }
    requires between { begin ≤ to }
    requires within { to ≤ length journal.now.events }
    ensures at { OnOk result ((begin ≤ playback.new.at) × (playback.new.at ≤ to)) }
    ensures played { IsPlayed boot.now journal.now.events playback.new }
    ensures err { OnErr result (playback.new ≡ playback.old) }
{
    put_back(playback, boot, snapshots, to)?;
    if playback.at < begin {
        playback.play_to(journal, begin, begin);
    }
    Ok(())
}

/// A board to play on from to a position: that of the last snapshot at or before it, the boot, or the one that is
/// shown, whichever is nearest.
fn nearest(
    boot: &Board,
    snapshots: &Snapshots,
    shown: &Playback,
    to: u64,
) -> Result<Playback, NoMemory>
    requires { DoFit boot.now snapshots.now.kept }
    ensures at { IfOk result (λ playback. playback.at ≤ to) }
    ensures last { IfOk result (λ playback. IsLastUpTo snapshots.now.kept to playback.at) }
    ensures shown { IfOk result (λ playback. shown.now.at ≤ to → shown.now.at ≤ playback.at) }
    ensures played { (events : ListOf EventOf) → IsPlayed boot.now events shown.now
        → AreKept boot.now events snapshots.now.kept
        → IfOk result (IsPlayed boot.now events) }
{
    match snapshots.nearest(to) {
        Some(kept) => {
            if shown.at > to || shown.at < kept.at {
                return from_kept(boot, kept);
            }
        }
        None => {
            if shown.at > to {
                return from_boot(boot);
            }
        }
    }
    shown.try_copy()
}

/// The board of a snapshot.
fn from_kept(boot: &Board, kept: &Kept) -> Result<Playback, NoMemory>
    requires { Fits boot.now kept.now.snapshot }
    ensures at { IfOk result (λ playback. playback.at ≡ kept.now.at) }
    ensures played { (events : ListOf EventOf) → IsKept boot.now events kept.now
        → IfOk result (IsPlayed boot.now events) }
{
    Ok(Playback {
        board: Board::from_snapshot(boot, &kept.snapshot)?,
        at: kept.at,
    })
}

/// The boot.
fn from_boot(boot: &Board) -> Result<Playback, NoMemory>
    ensures at { IfOk result (λ playback. playback.at ≡ 0) }
    ensures played { (events : ListOf EventOf) → IfOk result (IsPlayed boot.now events) }
{
    Ok(Playback {
        board: boot.try_copy()?,
        at: 0,
    })
}
