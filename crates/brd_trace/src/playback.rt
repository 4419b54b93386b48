//! A board that plays a journal, event by event.

ghost use Rattle.std.specs.Prelude.{◌≡◌, ◌≤◌, ◌<◌, length, IfSome, None};
ghost use Rattle.brd_journal.specs.Runs.{ComesBehind};

use brd_journal::{Journal, Playback, Run};

/// What is left of the run of a journal's next event, before a position. `None` at that position. `near` is where the
/// journal looks for the run.
pub(crate) fn next_of(
    playback: &Playback,
    journal: &Journal,
    to: u64,
    near: &mut usize,
) -> Option<Run>
    requires on { playback.now.at ≤ to }
    requires within { to ≤ length journal.now.events }
    ensures before { IfSome result (λ rest. playback.now.at < to) }
    ensures some { IfSome result (λ rest. 1 ≤ rest.count) }
    ensures comes { IfSome result (λ rest. ComesBehind journal.now.events playback.now.at rest) }
    ensures ends { result ≡ None → playback.now.at ≡ to }
{
    if playback.at >= to {
        return None;
    }
    journal.rest_at(playback.at, near)
}
