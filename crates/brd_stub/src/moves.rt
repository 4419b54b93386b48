//! Moves: on to the next stop, and back to the last one.

ghost use Rattle.std.specs.Prelude.{◌≡◌, Some, OnOk, IfOk, IfSome, IfNone};
ghost use Rattle.brd_debug.specs.Debugger.{SeesAhead};
ghost use Rattle.brd_stub.specs.Moving.{
  after_next,
  step_done,
  stands_there,
  stands_before,
  noted,
  watched_too,
  stand,
  stands_behind,
  stand_behind,
  StopsHere,
  PassesOn,
  StandsAhead,
  GoesOn,
  GoesForward,
  StandsBehind,
  EndsBehind,
  StopsBehind,
  GoesBack,
};

use crate::halt::{
    Halt, Reason, Stop, Told, is_told_behind, passes, reason_for, shows, stops, thread_of,
    told_ahead, watched,
};
use crate::points::Point;
use crate::seeking::{Search, search_back, search_on, show_at};
use crate::threads::{Whose, standing_thread, stepped_thread};
use brd_base::NoMemory;
use brd_debug::{Debugger, Look};
use brd_progress::Progress;

/// What a move begins with.
#[derive(Clone, Copy)]
pub struct Origin<'a> {
    /// The points that are set.
    pub points: &'a [Point],
    /// What threads are, and the one that steps where none is named.
    pub last: Whose,
    /// What was told last.
    pub told: Told,
}

/// Goes on to the first stop: at its position, of what wasn't told yet; else after it; else to the end. Where it is asked
/// to end, it stops before.
pub fn forward<P: Progress>(
    debugger: &mut Debugger,
    origin: Origin<'_>,
    progress: &mut P,
) -> Result<Stop, NoMemory>
    ensures { IfOk result (λ stop.
        GoesForward origin.entry.points.now origin.entry.last origin.entry.told debugger.old
        (record { debugger = debugger.new; stop = stop })) }
{
    match stop_here(debugger, origin)? {
        Some(stop) => Ok(stop),
        None => search_ahead(debugger, origin, progress),
    }
}

/// Stops at its position, where that is a stop of which something wasn't told yet; None where it isn't.
fn stop_here(debugger: &mut Debugger, origin: Origin<'_>) -> Result<Option<Stop>, NoMemory>
    ensures some { IfOk result (λ found. IfSome found (λ stop.
        StopsHere origin.entry.points.now origin.entry.last origin.entry.told debugger.old
        (record { debugger = debugger.new; stop = stop }))) }
    ensures none { IfOk result (λ found. IfNone found
        (PassesOn origin.entry.told debugger.old × (debugger.new ≡ debugger.old))) }
{
    let Some(look) = debugger.stop_here()? else {
        return Ok(None);
    };
    if !stops(origin.told, &look) {
        debugger.keep(look);
        return Ok(None);
    }
    let stop = stand(debugger, origin, look)?;
    Ok(Some(stop))
}

/// Goes on to the first stop after its position, else to the end; or as far as it is when it is asked to end.
fn search_ahead<P: Progress>(
    debugger: &mut Debugger,
    origin: Origin<'_>,
    progress: &mut P,
) -> Result<Stop, NoMemory>
    ensures { IfOk result (λ stop.
        GoesOn origin.entry.points.now origin.entry.last debugger.old
        (record { debugger = debugger.new; stop = stop })) }
{
    match search_on(debugger, progress)? {
        Search::Stop(_) => stop_ahead(debugger, origin),
        Search::Nothing => Ok(stop_there(debugger, origin, Reason::End)),
        Search::Early => Ok(stop_there(debugger, origin, Reason::Interrupt)),
    }
}

/// Stops at its position, to which it has come, so that nothing was told of it.
fn stop_ahead(debugger: &mut Debugger, origin: Origin<'_>) -> Result<Stop, NoMemory>
    ensures { IfOk result (λ stop.
        StandsAhead origin.entry.points.now origin.entry.last debugger.old
        (record { debugger = debugger.new; stop = stop })) }
{
    let untold = Origin {
        told: Told::Nothing,
        ..origin
    };
    match debugger.look()? {
        Some(look) => stand(debugger, untold, look),
        None => Ok(stop_there(debugger, untold, Reason::Done)),
    }
}

/// Stops before the event of its position, or after it where that is nothing else than a stop of who is stepped.
fn stand(debugger: &mut Debugger, origin: Origin<'_>, look: Look) -> Result<Stop, NoMemory>
    requires { SeesAhead debugger.old (Some look) }
    ensures { IfOk result (λ stop.
        record { debugger = debugger.new; stop = stop }
        ≡ stand origin.entry.points.now origin.entry.last origin.entry.told (Some look) debugger.old) }
{
    if shows(origin.told, &look) {
        let stop = stop_before(debugger, origin, &look, false);
        debugger.keep(look);
        return Ok(stop);
    }
    debugger.keep(look);
    show_next(debugger)?;
    Ok(step_done(debugger, origin))
}

/// That what comes next is told, and why; and whether its watch was told before.
fn stop_before(debugger: &Debugger, origin: Origin<'_>, look: &Look, touched: bool) -> Stop
    ensures { record { debugger = debugger.now; stop = result }
        ≡ stands_before origin.entry.points.now origin.entry.last origin.entry.told touched look.now
        debugger.now }
{
    let told = told_ahead(origin.told, look);
    Stop {
        halt: Halt {
            thread: thread_of(origin.last, debugger.show(), look.event),
            reason: noted(
                touched,
                reason_for(told, origin.points, debugger.show(), look),
            ),
        },
        told,
    }
}

/// A reason, where the watch of the instruction was told before or not.
fn noted(touched: bool, reason: Reason) -> Reason
    ensures { result ≡ noted touched reason }
{
    if touched { watched_too(reason) } else { reason }
}

/// The reason where the watch of the instruction was told before.
fn watched_too(reason: Reason) -> Reason
    ensures { result ≡ watched_too reason }
{
    match reason {
        Reason::Break(kind) => Reason::WatchedBreak(kind),
        other => other,
    }
}

/// That a step is done.
fn step_done(debugger: &Debugger, origin: Origin<'_>) -> Stop
    ensures { record { debugger = debugger.now; stop = result } ≡ step_done origin.entry.last debugger.now }
{
    Stop {
        halt: Halt {
            thread: stepped_thread(debugger.stepper(), debugger.show(), origin.last),
            reason: Reason::Done,
        },
        told: Told::Nothing,
    }
}

/// That it stands where it is for a reason, in the thread that is stepped, or in one that executes.
fn stop_there(debugger: &Debugger, origin: Origin<'_>, reason: Reason) -> Stop
    ensures { record { debugger = debugger.now; stop = result } ≡ stands_there origin.entry.last reason debugger.now }
{
    let board = debugger.show();
    let thread = stepped_thread(debugger.stepper(), board, origin.last);
    Stop {
        halt: Halt {
            thread: standing_thread(origin.last.kind, board, thread),
            reason,
        },
        told: Told::Nothing,
    }
}

/// Goes back to the last stop, but for what was told of the last event, else to the beginning. Where it is asked to end,
/// it stops before.
pub fn backward<P: Progress>(
    debugger: &mut Debugger,
    origin: Origin<'_>,
    progress: &mut P,
) -> Result<Stop, NoMemory>
    ensures { IfOk result (λ stop.
        GoesBack origin.entry.points.now origin.entry.last origin.entry.told debugger.old
        (record { debugger = debugger.new; stop = stop })) }
{
    let from = debugger.position();
    match search_back(debugger, progress)? {
        Search::Stop(found) => {
            let is_told = is_told_behind(origin.told, from - found);
            stop_or_back(debugger, origin, is_told, progress)
        }
        Search::Nothing => Ok(stop_there(debugger, origin, Reason::Begin)),
        Search::Early => Ok(stop_there(debugger, origin, Reason::Interrupt)),
    }
}

/// Stops at its position, to which it has come from behind; but where the watch there was told already, and it is no
/// other stop, it goes back further.
fn stop_or_back<P: Progress>(
    debugger: &mut Debugger,
    origin: Origin<'_>,
    is_told: bool,
    progress: &mut P,
) -> Result<Stop, NoMemory>
    ensures { IfOk result (λ stop.
        StopsBehind origin.entry.points.now origin.entry.last is_told debugger.old
        (record { debugger = debugger.new; stop = stop })) }
{
    match debugger.look()? {
        None => Ok(stop_there(debugger, origin, Reason::Done)),
        Some(look) => {
            if passes(is_told, &look) {
                debugger.keep(look);
                return search_behind(debugger, origin, progress);
            }
            stand_behind(debugger, origin, is_told, look)
        }
    }
}

/// Goes back to the last stop, of which nothing was told, else to the beginning; or as far as it is when it is asked to
/// end.
fn search_behind<P: Progress>(
    debugger: &mut Debugger,
    origin: Origin<'_>,
    progress: &mut P,
) -> Result<Stop, NoMemory>
    ensures { IfOk result (λ stop.
        EndsBehind origin.entry.points.now origin.entry.last debugger.old
        (record { debugger = debugger.new; stop = stop })) }
{
    match search_back(debugger, progress)? {
        Search::Stop(_) => stop_behind(debugger, origin),
        Search::Nothing => Ok(stop_there(debugger, origin, Reason::Begin)),
        Search::Early => Ok(stop_there(debugger, origin, Reason::Interrupt)),
    }
}

/// Stops at its position, to which it has come from behind, and of which nothing was told.
fn stop_behind(debugger: &mut Debugger, origin: Origin<'_>) -> Result<Stop, NoMemory>
    ensures { IfOk result (λ stop.
        StandsBehind origin.entry.points.now origin.entry.last debugger.old
        (record { debugger = debugger.new; stop = stop })) }
{
    match debugger.look()? {
        None => Ok(stop_there(debugger, origin, Reason::Done)),
        Some(look) => stand_behind(debugger, origin, false, look),
    }
}

/// Stops before the event of its position, or after it where a watch is told.
fn stand_behind(
    debugger: &mut Debugger,
    origin: Origin<'_>,
    is_told: bool,
    look: Look,
) -> Result<Stop, NoMemory>
    requires { SeesAhead debugger.old (Some look) }
    ensures { IfOk result (λ stop.
        record { debugger = debugger.new; stop = stop }
        ≡ stand_behind origin.entry.points.now origin.entry.last is_told (Some look) debugger.old) }
{
    if look.touches && !is_told {
        return stop_after(debugger, origin, look);
    }
    if look.breaks || look.faults {
        let untold = Origin {
            told: Told::Nothing,
            ..origin
        };
        let stop = stop_before(debugger, untold, &look, is_told);
        debugger.keep(look);
        return Ok(stop);
    }
    debugger.keep(look);
    Ok(step_done(debugger, origin))
}

/// Stops after the event of its position, the watch of which is told.
fn stop_after(debugger: &mut Debugger, origin: Origin<'_>, look: Look) -> Result<Stop, NoMemory>
    requires { SeesAhead debugger.old (Some look) }
    ensures { IfOk result (λ stop.
        record { debugger = debugger.new; stop = stop }
        ≡ stands_behind origin.entry.points.now origin.entry.last look debugger.old) }
{
    let halt = Halt {
        thread: thread_of(origin.last, debugger.show(), look.event),
        reason: watched(origin.points, debugger.show(), &look),
    };
    debugger.keep(look);
    show_next(debugger)?;
    Ok(Stop {
        halt,
        told: Told::WatchBehind,
    })
}

/// Goes to the position after its own, if there is one.
fn show_next(debugger: &mut Debugger) -> Result<(), NoMemory>
    ensures { OnOk result (debugger.new ≡ after_next debugger.old) }
{
    let position = debugger.position();
    let len = debugger.len();
    show_at(debugger, (position + 1).min(len))
}
