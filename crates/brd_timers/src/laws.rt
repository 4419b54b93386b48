//! What is true of the times of time handlers.

ghost use Rattle.std.specs.Prelude.{◌≡◌, ◌<◌, ◌↔◌, ◌+◌, ℕ, true, false, Option, None, Some};
ghost use Rattle.brd_timers.specs.declared.course.Course.TheVariants.{Cyclic, Alarm};
ghost use Rattle.brd_timers.specs.declared.course.Cycle.{Cycle as CycleOf};
ghost use Rattle.brd_timers.specs.declared.timer.Timer.{Timer as TimerOf};
ghost use Rattle.brd_timers.specs.Timers.{
  due_after,
  first_time,
  next_time,
  timer_with,
  made,
  started,
  asked_for,
  stopped,
  is_due,
};
ghost use Rattle.brd_timers.specs.Times.{IsTime, IsNextTime, after_ticks};

/// Of the times `first`, `first + period`, `first + 2 * period` and so on, the next time after a tick is the first one
/// that comes after it.
pub fn the_next_time_is_the_first_after_now()
    ensures { (first period now : ℕ) → 0 < period → IsNextTime first period now (next_time first period now) }
{}

/// A cyclic handler that is neither started nor stopped meanwhile is due at its first time and at each further multiple
/// of its period after that, and at no other tick. If it works from boot on, its first time comes when its phase has
/// passed. If it is started, that is when a period has passed; but with TA_PHS its times are those that are counted
/// from boot, and it is due from the first of them on that comes after the start.
pub fn a_cyclic_handler_is_due_at_its_times()
    ensures times { (cycle : CycleOf) (now first ticks : ℕ) → 0 < cycle.period → now < first →
        (is_due (now + ticks + 1) (after_ticks now (timer_with (Cyclic cycle) (Some first)) ticks) ≡ true)
        ↔ IsTime first cycle.period (now + ticks + 1) }
    ensures boot { (cycle : CycleOf) → cycle.starts ≡ true →
        made (Cyclic cycle) ≡ timer_with (Cyclic cycle) (Some (due_after 0 cycle.phase)) }
    ensures started { (cycle : CycleOf) (now : ℕ) (due : Option ℕ) → cycle.keeps ≡ false →
        started now (timer_with (Cyclic cycle) due) ≡ timer_with (Cyclic cycle) (Some (due_after now cycle.period)) }
    ensures kept { (cycle : CycleOf) (now : ℕ) (due : Option ℕ) → cycle.keeps ≡ true →
        started now (timer_with (Cyclic cycle) due)
        ≡ timer_with (Cyclic cycle) (Some (next_time (first_time cycle) cycle.period now)) }
{}

/// An alarm handler that is neither started nor stopped meanwhile is due once: when as many ticks have passed as were
/// asked for last, and at no other tick.
pub fn an_alarm_handler_is_due_once()
    ensures { (now asked ticks : ℕ) (due : Option ℕ) →
        (is_due (now + ticks + 1) (after_ticks now (asked_for now asked (timer_with Alarm due)) ticks) ≡ true)
        ↔ (now + ticks + 1 ≡ due_after now asked) }
{}

/// A time handler that is stopped is due at no tick, as long as it isn't started; so is one that doesn't work from boot
/// on.
pub fn a_stopped_handler_is_never_due()
    ensures stopped { (timer : TimerOf) (now ticks tick : ℕ) →
        is_due tick (after_ticks now (stopped timer) ticks) ≡ false }
    ensures boot { (cycle : CycleOf) → cycle.starts ≡ false →
        made (Cyclic cycle) ≡ stopped (timer_with (Cyclic cycle) None) }
    ensures alarm { made Alarm ≡ stopped (timer_with Alarm None) }
{}
