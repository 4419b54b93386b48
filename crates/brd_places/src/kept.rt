//! Places that are kept whole, and boards that are made again from the nearest of them.

ghost use Rattle.std.specs.Prelude.{◌≡◌, ◌<◌, ◌++◌, ◌∷◌, [], length, List as ListOf, IfOk, IfSome};
ghost use Rattle.std.specs.Prelude.{OnOk, OnErr};
ghost use Rattle.brd_board.specs.Board.{BoardState as BoardOf};
ghost use Rattle.brd_board.specs.Snapshot.{restored, Fits};
ghost use Rattle.brd_places.specs.declared.entry.Entry.{Entry as EntryOf};
ghost use Rattle.brd_places.specs.Places.{board_at, places_of, AreAlike, AreKept, IsSnapshotAt};

use crate::entry::{Entry, NONE, entry_at};
use brd_base::NoMemory;
use brd_board::{Board, Snapshot};

/// How long the way is, at most, from one place that is kept whole up to the next (own choice).
pub(crate) const MOST_APART: u8 = 64;

/// How many events on such a way count as much as a place (own choice).
const EVENTS: u32 = 16;

/// A place that is kept whole.
#[derive(Drop)]
pub(crate) struct Kept {
    /// Its index.
    pub at: usize,
    /// Its board, over the start.
    pub snapshot: Snapshot,
}

/// Makes a board, whose RAM has the start's size and order, that of the place of an index; the start's where there is
/// none. A refusal leaves it as it is.
#[tactic(auto, using(crate::proofs::StepLemmas::none_board, crate::proofs::StepLemmas::came_other, crate::proofs::StepLemmas::came_earlier))]
pub(crate) fn put_back(
    start: &Board,
    entries: &[Entry],
    kept: &[Kept],
    i: usize,
    board: &mut Board,
) -> Result<(), NoMemory>
    requires alike { AreAlike board.old start.now }
    requires kept { AreKept start.now entries.now kept.now }
    ensures ok { OnOk result (board.new ≡ board_at start.now (places_of start.now entries.now) i) }
    ensures err { OnErr result (board.new ≡ board.old) }
{
    let Some(entry) = entry_at(entries, i) else {
        board.copy_from(start)?;
        return Ok(());
    };
    if let Some(snapshot) = snapshot_at(kept, entry.kept, i) {
        board.restore(start, snapshot)?;
        return Ok(());
    }
    let parent = entry.parent as usize;
    if parent >= i {
        board.copy_from(start)?;
        board.repeat(entry.event, entry.count);
        return Ok(());
    }
    put_back(start, entries, kept, parent, board)?;
    board.repeat(entry.event, entry.count);
    Ok(())
}

/// Makes a board that of the place of an index, as `put_back` does: in place if its RAM has the start's size and order,
/// else anew.
pub(crate) fn put_in(
    start: &Board,
    entries: &[Entry],
    kept: &[Kept],
    i: usize,
    board: &mut Board,
) -> Result<(), NoMemory>
    requires { AreKept start.now entries.now kept.now }
    ensures { OnOk result (board.new ≡ board_at start.now (places_of start.now entries.now) i) }
{
    if board.is_alike(start) {
        return put_back(start, entries, kept, i, board);
    }
    *board = made(start, entries, kept, i)?;
    Ok(())
}

/// The board of the place of an index, made anew by one copy; the start's if there is none.
#[tactic(auto, using(crate::proofs::StepLemmas::none_board, crate::proofs::StepLemmas::came_other, crate::proofs::StepLemmas::came_earlier))]
pub(crate) fn made(
    start: &Board,
    entries: &[Entry],
    kept: &[Kept],
    i: usize,
) -> Result<Board, NoMemory>
    requires { AreKept start.now entries.now kept.now }
    ensures { IfOk result (λ board. board ≡ board_at start.now (places_of start.now entries.now) i) }
{
    let Some(entry) = entry_at(entries, i) else {
        return start.try_copy();
    };
    if let Some(snapshot) = snapshot_at(kept, entry.kept, i) {
        return Board::from_snapshot(start, snapshot);
    }
    let parent = entry.parent as usize;
    let mut board = if parent < i {
        made(start, entries, kept, parent)?
    } else {
        start.try_copy()?
    };
    board.repeat(entry.event, entry.count);
    Ok(board)
}

/// The snapshot of the place of an index, if it is the one that stands there.
fn snapshot_at(kept: &[Kept], at: u32, i: usize) -> Option<&Snapshot>
    ensures { (start : BoardOf) (entries : ListOf EntryOf) → AreKept start entries kept.now →
        IfSome result (λ snapshot. IsSnapshotAt start entries i snapshot.now) }
{
    let at = at as usize;
    if at < kept.len() && kept[at].at == i {
        return Some(&kept[at].snapshot);
    }
    None
}

/// Keeps the place of an index whole, behind those that are kept so. The board in `spare` becomes another one.
#[tactic(auto, using(crate::proofs::StepLemmas::alike_place, crate::proofs::StepLemmas::kept_push))]
pub(crate) fn keep(
    start: &Board,
    entries: &[Entry],
    kept: &mut Vec<Kept>,
    i: usize,
    spare: &mut Board,
) -> Result<(), NoMemory>
    requires alike { AreAlike spare.old start.now }
    requires within { i < length entries.now }
    requires kept { AreKept start.now entries.now kept.old.items }
    ensures alike { AreAlike spare.new start.now }
    ensures kept { AreKept start.now entries.now kept.new.items }
    ensures err { OnErr result (kept.new.items ≡ kept.old.items) }
{
    put_back(start, entries, kept.as_slice(), i, spare)?;
    let snapshot = snapshot_of(start, kept.as_slice(), spare)?;
    kept.push(Kept { at: i, snapshot })?;
    Ok(())
}

/// A snapshot of a board. It shares the pages of RAM that the last one has too.
fn snapshot_of(start: &Board, kept: &[Kept], board: &Board) -> Result<Snapshot, NoMemory>
    requires alike { AreAlike board.now start.now }
    ensures fits { IfOk result (Fits start.now) }
    ensures back { IfOk result (λ snapshot. restored start.now snapshot ≡ board.now) }
{
    match kept.last() {
        Some(last) => board.snapshot_after(start, &last.snapshot),
        None => board.snapshot(start),
    }
}

/// Adds an entry. Where its place is to be kept whole, that is done. A refusal leaves the entries as they are. The
/// board in `spare` may become another one.
#[tactic(auto, using(crate::proofs::StepLemmas::kept_more, crate::proofs::StepLemmas::popped))]
pub(crate) fn put(
    start: &Board,
    entries: &mut Vec<Entry>,
    kept: &mut Vec<Kept>,
    spare: &mut Board,
    entry: Entry,
) -> Result<(), NoMemory>
    requires alike { AreAlike spare.old start.now }
    requires kept { AreKept start.now entries.old.items kept.old.items }
    ensures alike { AreAlike spare.new start.now }
    ensures kept { AreKept start.now entries.new.items kept.new.items }
    ensures ok { OnOk result (entries.new.items ≡ entries.old.items ++ entry ∷ []) }
    ensures err { OnErr result (entries.new.items ≡ entries.old.items) }
{
    let i = entries.len();
    entries.push(entry)?;
    if entry.since > 0 {
        return Ok(());
    }
    if keep(start, entries.as_slice(), kept, i, spare).is_err() {
        let _ = entries.pop();
        return Err(NoMemory);
    }
    Ok(())
}

/// How long the way is from the last place that is kept whole to one that comes from this place by so many events. Where
/// it would be too long it is to be kept whole itself.
pub(crate) fn since_after(entries: &[Entry], from: usize, count: u32) -> u8 {
    let Some(entry) = entry_at(entries, from) else {
        return 0;
    };
    let more = u8::try_from(count / EVENTS).unwrap_or(u8::MAX);
    let since = entry.since.saturating_add(1).saturating_add(more);
    if since < MOST_APART { since } else { 0 }
}

/// Where a place will stand among those that are kept whole, of which there are so many, if it is to be kept so.
pub(crate) fn kept_next(since: u8, count: usize) -> u32 {
    if since > 0 {
        return NONE;
    }
    u32::try_from(count).unwrap_or(NONE)
}
