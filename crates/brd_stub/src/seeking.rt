//! Searches for the next stop and for the last one, piece by piece. They may be asked to end early.

ghost use Rattle.std.specs.Prelude.{◌≡◌, ◌≤◌, length, OnOk, IfOk};
ghost use Rattle.brd_stub.specs.Moving.{moved_to, SearchesOn, SearchesBack};

use brd_base::NoMemory;
use brd_debug::Debugger;
use brd_progress::Progress;

/// How many events a search looks at before it asks whether it is to end (own choice).
const PIECE: u64 = 1_048_576;

/// How a search has ended.
#[derive(Clone, Copy, PartialEq, Eq)]
pub enum Search {
    /// It has gone to the stop that it found, at this position.
    Stop(u64),
    /// There is none, and it has gone to the journal's end, or to its beginning.
    Nothing,
    /// It was asked to end, and has gone as far as it has looked.
    Early,
}

/// Goes on to the first stop after its position, else to the end; or as far as it is when it is asked to end.
pub fn search_on<P: Progress>(debugger: &mut Debugger, progress: &mut P) -> Result<Search, NoMemory>
    ensures { IfOk result (λ search. SearchesOn debugger.old search debugger.new) }
{
    let from = debugger.position();
    let len = debugger.len();
    if from == len {
        return Ok(Search::Nothing);
    }
    let mut at = from + 1;
    show_at(debugger, at)?;
    while at < len {
        let end = at.saturating_add(PIECE).min(len);
        if let Some(found) = debugger.seek(end)? {
            return Ok(Search::Stop(found));
        }
        at = end;
        progress.show(at.saturating_sub(from), len.saturating_sub(from));
        if at < len && progress.is_asked_to_stop() {
            return Ok(Search::Early);
        }
    }
    Ok(Search::Nothing)
}

/// Goes back to the last stop before its position, else to the beginning; or as far as it is when it is asked to end.
pub fn search_back<P: Progress>(
    debugger: &mut Debugger,
    progress: &mut P,
) -> Result<Search, NoMemory>
    ensures { IfOk result (λ search. SearchesBack debugger.old search debugger.new) }
{
    let from = debugger.position();
    let mut at = from;
    while at > 0 {
        let begin = at.saturating_sub(PIECE);
        if let Some(found) = debugger.seek_back(begin)? {
            return Ok(Search::Stop(found));
        }
        at = begin;
        progress.show(from.saturating_sub(at), from);
        if at > 0 && progress.is_asked_to_stop() {
            return Ok(Search::Early);
        }
    }
    Ok(Search::Nothing)
}

/// Goes to a position.
pub fn show_at(debugger: &mut Debugger, position: u64) -> Result<(), NoMemory>
    requires { position ≤ length debugger.old.events }
    ensures { OnOk result (debugger.new ≡ moved_to debugger.old position) }
{
    match debugger.goto(position) {
        Ok(()) => Ok(()),
        Err(_) => Err(NoMemory),
    }
}
