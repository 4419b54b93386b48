//! In which order a search tries the events at a place.

ghost use Rattle.std.specs.Prelude.{◌≡◌, ◌≤◌, ◌<◌, length};
ghost use Rattle.brd_explore.specs.Ordering.{event_tried, is_own, up_to_own};

use crate::bounds::is_last;
use brd_board::Event;

/// The event that is tried at a position, of those that may come: the step of the processor that has stepped last is
/// the last one.
pub(crate) fn event_tried(among: &[Event], last: Option<u8>, at: usize) -> Event
    requires { at < length among.now }
    ensures { result ≡ event_tried among.now last at }
{
    let first = up_to_own(last, among);
    let others = among.len() - at;
    let index = if first < others {
        first + at
    } else {
        first - others
    };
    among[index]
}

/// How many events there are up to the step of the processor that has stepped last, and with it; all of them, if it
/// isn't there.
fn up_to_own(last: Option<u8>, among: &[Event]) -> usize
    ensures is { result ≡ up_to_own last among.now }
    ensures most { result ≤ length among.now }
{
    let mut count = 0usize;
    for event in among {
        count += 1;
        if is_own(last, *event) {
            return count;
        }
    }
    count
}

/// Whether an event is a step of the processor that has stepped last.
fn is_own(last: Option<u8>, event: Event) -> bool
    ensures { result ≡ is_own last event }
{
    match event {
        Event::Step(cpu) => is_last(last, cpu),
        Event::Tick | Event::Raise(_) => false,
    }
}
