//! Cyclic handlers and alarm handlers: the service calls, each as its row of the table says, and what a tick does.

ghost use Rattle.std.specs.Prelude.{◌≡◌, ◌<◌, true};
ghost use Rattle.brd_kernel.specs.Kernel.{cyclic_place, alarm_place, timer_due};
ghost use Rattle.brd_kernel.specs.Row.{Serves, served};
ghost use Rattle.brd_kernel.specs.Services as table;
ghost use Rattle.brd_kernel.specs.Services.{timer_words};
ghost use Rattle.brd_kernel.specs.Waits.{rung_at, rung_below, rung};

use super::Kernel;
use super::profile::{bit_word, left_word};
use super::serve::{LONGEST_DELAY, OK, id_in_range};
use crate::call::{Ercd, Reply};
use crate::lines::FIRST_TIMER;
use brd_tasks::TaskId;
use brd_timers::Timer;

impl Kernel {
    pub(super) fn sta_cyc(&mut self, id: u32) -> Result<Reply, Ercd>
        ensures { Serves self.old self.new result (served (table.sta_cyc self.old id)) }
    {
        let place = cyclic_place(id_in_range(id)?);
        if self.common.timers.timer(place).is_none() {
            return Err(Ercd::Noexs);
        }
        let now = self.common.time.now();
        self.common.timers.start(place, now);
        Ok(OK)
    }

    pub(super) fn stp_cyc(&mut self, id: u32) -> Result<Reply, Ercd>
        ensures { Serves self.old self.new result (served (table.stp_cyc self.old id)) }
    {
        let place = cyclic_place(id_in_range(id)?);
        if self.common.timers.timer(place).is_none() {
            return Err(Ercd::Noexs);
        }
        self.common.timers.stop(place);
        Ok(OK)
    }

    pub(super) fn sta_alm(&mut self, id: u32, time: u32) -> Result<Reply, Ercd>
        ensures { Serves self.old self.new result (served (table.sta_alm self.old id time)) }
    {
        let place = alarm_place(id_in_range(id)?);
        if time > LONGEST_DELAY {
            return Err(Ercd::Par);
        }
        if self.common.timers.timer(place).is_none() {
            return Err(Ercd::Noexs);
        }
        let now = self.common.time.now();
        self.common.timers.ask_for(place, now, time);
        Ok(OK)
    }

    pub(super) fn stp_alm(&mut self, id: u32) -> Result<Reply, Ercd>
        ensures { Serves self.old self.new result (served (table.stp_alm self.old id)) }
    {
        let place = alarm_place(id_in_range(id)?);
        if self.common.timers.timer(place).is_none() {
            return Err(Ercd::Noexs);
        }
        self.common.timers.stop(place);
        Ok(OK)
    }

    pub(super) fn ref_cyc(&self, id: u32, word: u32) -> Result<Reply, Ercd>
        ensures { Serves self.now self.now result (served (table.ref_cyc self.now id word)) }
    {
        let place = cyclic_place(id_in_range(id)?);
        if word > 1 {
            return Err(Ercd::Par);
        }
        let Some(timer) = self.common.timers.timer(place) else {
            return Err(Ercd::Noexs);
        };
        let words = timer_words(self.common.time.now(), timer);
        Ok(Reply::Answer(0, Some(words[word as usize])))
    }

    pub(super) fn ref_alm(&self, id: u32, word: u32) -> Result<Reply, Ercd>
        ensures { Serves self.now self.now result (served (table.ref_alm self.now id word)) }
    {
        let place = alarm_place(id_in_range(id)?);
        if word > 1 {
            return Err(Ercd::Par);
        }
        let Some(timer) = self.common.timers.timer(place) else {
            return Err(Ercd::Noexs);
        };
        let words = timer_words(self.common.time.now(), timer);
        Ok(Reply::Answer(0, Some(words[word as usize])))
    }

    /// The tick at which the time handler at a place is due next; None where it is stopped, or isn't there.
    pub fn timer_due(&self, place: u8) -> Option<u64>
        ensures { result ≡ timer_due self.now place }
    {
        match self.common.timers.timer(place as u16) {
            Some(timer) => timer.due,
            None => None,
        }
    }

    /// The line of the time handler at a place is pending, if its time has come, and it goes on to its next time.
    #[tactic(auto, using(crate::proofs::LineLemmas::many_lines))]
    fn ring_at(&mut self, place: u8)
        requires place { place < 128 }
        requires standard { self.old.standard ≡ true }
        ensures is { self.new ≡ rung_at self.old place }
        ensures standard { self.new.standard ≡ true }
    {
        let now = self.common.time.now();
        if !self.common.timers.pass(place as u16, now) {
            return;
        }
        let line = place + FIRST_TIMER;
        self.common.pending = true;
        self.common.lines[line as usize].pending = true;
    }

    /// The lines of all time handlers whose time has come are pending, and each goes on to its next time.
    #[tactic(auto, using(crate::proofs::BelowLemmas::rung_none, crate::proofs::BelowLemmas::rung_more))]
    fn ring_each(&mut self)
        requires { self.old.standard ≡ true }
        ensures { self.new ≡ rung_below self.old 128 }
    {
        for place in 0..128u8 {
            self.ring_at(place);
        }
    }

    /// The same, of a kernel with the profile.
    pub(super) fn ring(&mut self)
        ensures { self.new ≡ rung self.old }
    {
        if !self.common.standard {
            return;
        }
        self.ring_each();
    }
}

/// The place of the cyclic handler of an ID.
fn cyclic_place(id: TaskId) -> u16
    requires { id < 256 }
    ensures { result ≡ cyclic_place id }
{
    (2 * id).saturating_sub(2)
}

/// The place of the alarm handler of an ID.
fn alarm_place(id: TaskId) -> u16
    requires { id < 256 }
    ensures { result ≡ alarm_place id }
{
    (2 * id).saturating_sub(1)
}

/// The words of T_RCYC, or of T_RALM.
fn timer_words(now: u64, timer: Timer) -> [u32; 2]
    ensures { result ≡ timer_words now timer }
{
    let works = timer.due.is_some();
    [bit_word(works), left_word(now, timer.due, works)]
}
