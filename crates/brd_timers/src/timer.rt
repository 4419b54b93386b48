//! A time handler as it stands.

ghost use Rattle.std.specs.Prelude.{◌≡◌, ◌≤◌, ◌^◌, true};
ghost use Rattle.brd_timers.specs.Timers.{
  last_count,
  first_time,
  next_time,
  made,
  start_of,
  started,
  asked_for,
  stopped,
  passed,
  is_due,
};

use crate::course::{Course, Cycle};
use brd_base::Same;

/// A cyclic handler or an alarm handler.
#[derive(Clone, Copy, PartialEq, Eq)]
pub struct Timer {
    /// When it is due.
    pub course: Course,
    /// The tick at which it is due next; None where it is stopped.
    pub due: Option<u64>,
}

impl Same for Timer {
    fn same(&self, other: &Self) -> bool {
        self.course == other.course && self.due == other.due
    }
}

impl Timer {
    /// A time handler as it is at boot.
    pub fn new(course: Course) -> Timer
        ensures { result ≡ made course }
    {
        let due = match course {
            Course::Cyclic(cycle) => {
                if cycle.starts {
                    Some(first_time(cycle))
                } else {
                    None
                }
            }
            Course::Alarm => None,
        };
        Timer { course, due }
    }

    /// A cyclic handler works from this tick on, as `sta_cyc` asks for it; one that works begins anew.
    pub fn started(self, now: u64) -> Timer
        requires { now ≤ last_count }
        ensures { result ≡ started now self }
    {
        match self.course {
            Course::Cyclic(cycle) => Timer {
                due: Some(start_of(cycle, now)),
                ..self
            },
            Course::Alarm => self,
        }
    }

    /// A time handler is due once more, after as many ticks as are asked for at this one.
    pub fn asked_for(self, now: u64, ticks: u32) -> Timer
        requires { now ≤ last_count }
        ensures { result ≡ asked_for now ticks self }
    {
        Timer {
            due: Some(now + ticks as u64 + 1),
            ..self
        }
    }

    /// A time handler is stopped.
    pub fn stopped(self) -> Timer
        ensures { result ≡ stopped self }
    {
        Timer { due: None, ..self }
    }

    /// Whether its time has come at a tick.
    pub fn is_due(&self, now: u64) -> bool
        ensures { result ≡ is_due now self.now }
    {
        match self.due {
            Some(due) => due <= now,
            None => false,
        }
    }

    /// Its time has come: a cyclic handler is due again a period later, an alarm handler is stopped.
    pub fn passed(self, now: u64) -> Timer
        requires counted { now ≤ last_count }
        requires due { is_due now self ≡ true }
        ensures { result ≡ passed self }
    {
        let Some(due) = self.due else { return self };
        match self.course {
            Course::Cyclic(cycle) => Timer {
                due: Some(due + cycle.period as u64),
                ..self
            },
            Course::Alarm => Timer { due: None, ..self },
        }
    }
}

/// The first time of a cyclic handler that is counted from boot.
fn first_time(cycle: Cycle) -> u64
    ensures is { result ≡ first_time cycle }
    ensures small { result ≤ 2 ^ 32 }
{
    cycle.phase as u64 + 1
}

/// The next time of a cyclic handler that is started at a tick.
fn start_of(cycle: Cycle, now: u64) -> u64
    requires { now ≤ last_count }
    ensures { result ≡ start_of now cycle }
{
    if cycle.keeps {
        return next_time(first_time(cycle), cycle.period, now);
    }
    now + cycle.period as u64 + 1
}

/// The first of the times `first`, `first + period`, `first + 2 * period` and so on that comes after a tick. (No
/// handler has a period of 0.)
fn next_time(first: u64, period: u32, now: u64) -> u64
    requires { now ≤ last_count }
    ensures { result ≡ next_time first period now }
{
    if now < first {
        return first;
    }
    if period == 0 {
        return now;
    }
    now + (period as u64 - (now - first) % period as u64)
}
