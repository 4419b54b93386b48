//! Which events change nothing.

ghost use Rattle.std.specs.Prelude.{◌≡◌};
ghost use Rattle.brd_seen.specs.Quiets as quiets;

use brd_happening::{Answer, CallMade, Happening, Release, Rung, What, Why};
use brd_names::{Quiet, Spinner};

/// The events that a happening is one of, if it changes nothing.
pub fn quiet_of(it: &Happening) -> Option<Quiet>
    ensures { result ≡ quiets.quiet_of it.now }
{
    match it.what {
        What::Nothing(why) => Some(quiet_by(why, it.cpu.unwrap_or(0))),
        What::Lost(line) => Some(Quiet::Again(line)),
        What::Tick(_) => tick_by(it.released.as_slice(), it.rung.as_slice()),
        What::Call(call) => spin_of(it, &call),
        _ => None,
    }
}

/// The events in which nothing happens for this reason, of this processor.
fn quiet_by(why: Why, cpu: u8) -> Quiet
    ensures { result ≡ quiets.quiet_by why cpu }
{
    match why {
        Why::Off => Quiet::Off,
        Why::NoProcessor => Quiet::NoProcessor(cpu),
        Why::NoHandler(line) => Quiet::NoLine(line),
        Why::Stopped => Quiet::Stopped(cpu),
        Why::Idle => Quiet::Idle(cpu),
        Why::TimeOver => Quiet::TimeOver,
    }
}

/// Ticks, if one is one of them that releases these tasks and raises these lines.
fn tick_by(released: &[Release], rung: &[Rung]) -> Option<Quiet>
    ensures { result ≡ quiets.tick_by released.now rung.now }
{
    if released.is_empty() && rung.is_empty() {
        return Some(Quiet::Tick);
    }
    None
}

/// The calls that come again, if a call is one of them.
fn spin_of(it: &Happening, call: &CallMade) -> Option<Quiet>
    ensures { result ≡ quiets.spin_of it.now call.now }
{
    let (Answer::Again, Some(who)) = (call.answer, it.who) else {
        return None;
    };
    Some(Quiet::Spins(Spinner {
        cpu: it.cpu.unwrap_or(0),
        who,
        place: it.place.unwrap_or(0),
        lock: call.asked.arguments[0],
    }))
}

/// The number of a tick; 0 of what is none.
pub fn tick_of(what: What) -> u64
    ensures { result ≡ quiets.tick_of what }
{
    match what {
        What::Tick(number) => number,
        _ => 0,
    }
}
