//! Turns of processors in a list of events: from one switch to the next.

ghost use Rattle.std.specs.Prelude.{◌≡◌, ◌≤◌, ◌<◌, length, true};
ghost use Rattle.brd_shrink.specs.Turns.{stepper, stepper_after, is_switch, switches, is_cut, IsTurn};

use brd_board::Event;

/// How often a step in a list is of another processor than the last step before it.
#[tactic(auto, unfolding(crate::specs::Turns::switches))]
pub fn switches(events: &[Event]) -> usize
    ensures { result ≡ switches events.now }
{
    let mut last = None;
    let mut count = 0;
    for event in events {
        if is_switch(last, *event) {
            count += 1;
        }
        last = stepper(last, *event);
    }
    count
}

/// Whether an event is a step of another processor than the last step before it.
fn is_switch(last: Option<u8>, event: Event) -> bool
    ensures { result ≡ is_switch last event }
{
    match (last, event) {
        (Some(last), Event::Step(cpu)) => cpu != last,
        (None, _) | (_, Event::Tick | Event::Raise(_)) => false,
    }
}

/// Whose the last step is after one more event.
fn stepper(last: Option<u8>, event: Event) -> Option<u8>
    ensures { result ≡ stepper last event }
{
    match event {
        Event::Step(cpu) => Some(cpu),
        Event::Tick | Event::Raise(_) => last,
    }
}

/// Whose the last step of a list is.
fn last_stepper(events: &[Event]) -> Option<u8>
    ensures { result ≡ stepper_after None events.now }
{
    let mut at = events.len();
    while at > 0 {
        at -= 1;
        if let Event::Step(cpu) = events[at] {
            return Some(cpu);
        }
    }
    None
}

/// Whether a list is cut into turns at an index: it is its beginning, its end, or that of a switch.
#[tactic(auto, unfolding(crate::specs::Turns::is_cut))]
pub(crate) fn is_cut(events: &[Event], at: usize) -> bool
    requires { at ≤ length events.now }
    ensures { result ≡ is_cut events.now at }
{
    if at == 0 || at == events.len() {
        return true;
    }
    is_switch(last_stepper(&events[..at]), events[at])
}

/// Where the turn ends that begins at a cut.
pub(crate) fn turn_end(events: &[Event], from: usize) -> usize
    requires within { from < length events.now }
    requires begins { is_cut events.now from ≡ true }
    ensures { IsTurn events.now from result }
{
    let mut to = from + 1;
    while !is_cut(events, to) {
        to += 1;
    }
    to
}
