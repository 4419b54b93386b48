//! The time handlers of a board.

ghost use Rattle.std.specs.Prelude.{◌≡◌, ◌≤◌, ◌++◌, ◌∷◌, [], Decides, IfOk, OnOk, OnErr};
ghost use Rattle.std.specs.Option.{option_map};
ghost use Rattle.brd_timers.specs.Timers.{
  last_count,
  made,
  timer_at,
  changed_at,
  started,
  asked_for,
  stopped,
  is_due_at,
  passed_at,
};

use crate::course::Course;
use crate::timer::Timer;
use brd_base::{NoMemory, copy_with_room, same_slices};
use std::alloc::Global;
use std::marker::Model;

/// The time handlers of a board by their places, of which some may be empty.
pub struct Timers {
    rows: Vec<Option<Timer>>,
}

impl Model for Timers {
    ghost use Rattle.std.specs.Prelude.{List, Option};
    ghost use Rattle.brd_timers.specs.declared.timer.Timer.{Timer as TimerOf};

    ghost Value = { List (Option TimerOf) };

    ghost view = { λ timers. timers.rows.items };
}

/// Written out, so that a function that lets one go is proved with a call, and not with the end of each part.
impl Drop for Timers {
    fn drop(self) {
        let Timers { rows: _ } = self;
    }
}

impl Timers {
    /// No places.
    pub fn new(alloc: Global) -> Timers
        ensures { result ≡ [] }
    {
        Timers {
            rows: Vec::new(alloc),
        }
    }

    /// One place more, with a time handler as it is at boot, or none.
    pub fn push(&mut self, course: Option<Course>) -> Result<(), NoMemory>
        ensures ok { OnOk result (self.new ≡ self.old ++ option_map made course ∷ []) }
        ensures err { OnErr result (self.new ≡ self.old) }
    {
        let row = match course {
            Some(course) => Some(Timer::new(course)),
            None => None,
        };
        self.rows.push(row)?;
        Ok(())
    }

    /// Equal time handlers.
    pub fn try_copy(&self) -> Result<Timers, NoMemory>
        ensures { IfOk result (λ copy. copy ≡ self.now) }
    {
        Ok(Timers {
            rows: copy_with_room(&self.rows, 0)?,
        })
    }

    /// Whether both are equal.
    pub fn same(&self, other: &Timers) -> bool
        ensures { Decides result (self.now ≡ other.now) }
    {
        same_slices(self.rows.as_slice(), other.rows.as_slice())
    }

    /// The time handler at a place, where there is one.
    pub fn timer(&self, place: u16) -> Option<Timer>
        ensures { result ≡ timer_at self.now place }
    {
        if (place as usize) < self.rows.len() {
            return self.rows[place as usize];
        }
        None
    }

    /// A cyclic handler works from this tick on.
    pub fn start(&mut self, place: u16, now: u64)
        requires { now ≤ last_count }
        ensures { self.new ≡ changed_at (started now) self.old place }
    {
        if (place as usize) < self.rows.len() {
            if let Some(timer) = &mut self.rows[place as usize] {
                *timer = timer.started(now);
            }
        }
    }

    /// A time handler is due once more, after as many ticks as are asked for at this one.
    pub fn ask_for(&mut self, place: u16, now: u64, ticks: u32)
        requires { now ≤ last_count }
        ensures { self.new ≡ changed_at (asked_for now ticks) self.old place }
    {
        if (place as usize) < self.rows.len() {
            if let Some(timer) = &mut self.rows[place as usize] {
                *timer = timer.asked_for(now, ticks);
            }
        }
    }

    /// A time handler is stopped.
    pub fn stop(&mut self, place: u16)
        ensures { self.new ≡ changed_at stopped self.old place }
    {
        if (place as usize) < self.rows.len() {
            if let Some(timer) = &mut self.rows[place as usize] {
                *timer = timer.stopped();
            }
        }
    }

    /// A tick passes. Answers whether the time of the handler at a place has come; it goes on to its next time then.
    pub fn pass(&mut self, place: u16, now: u64) -> bool
        requires { now ≤ last_count }
        ensures is { self.new ≡ passed_at now self.old place }
        ensures due { result ≡ is_due_at now self.old place }
    {
        if (place as usize) < self.rows.len() {
            if let Some(timer) = &mut self.rows[place as usize] {
                if timer.is_due(now) {
                    *timer = timer.passed(now);
                    return true;
                }
            }
        }
        false
    }
}
