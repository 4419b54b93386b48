//! What is told how far long work is, how a race went, and what is odd about the input.
#![tactic(auto)]

use std::fmt;

/// What is told how far work is, how a race went, and what is odd about the input. It is told nothing else, so all that
/// it can change is what it is itself.
pub trait Progress {
    /// Work begins, of which it is told from now on.
    fn begin(&mut self);

    /// n of m events are done.
    fn show(&mut self, done: u64, all: u64);

    /// So many schedules of a search were tried. What doesn't say otherwise does nothing then.
    fn tried(&mut self, _schedules: u64) {}

    /// A search has gone through so many places. What doesn't say otherwise does nothing then.
    fn gone_through(&mut self, _places: u64) {}

    /// Whether work that may end early is to end now, with what is done so far. What doesn't say otherwise never asks
    /// for that.
    fn is_asked_to_stop(&mut self) -> bool {
        false
    }

    /// Whether so many seconds have gone by since work began. What doesn't say otherwise doesn't know.
    fn is_over(&mut self, _seconds: u32) -> bool {
        false
    }

    /// Output is written next, which is to stand alone.
    fn hide(&mut self);

    /// Whether it would show how a race went. What doesn't say otherwise wouldn't.
    fn shows_turns(&self) -> bool {
        false
    }

    /// A race is over in which the processors hardly took turns: its journal has so many steps of theirs, in so few
    /// runs, and so many of the steps did nothing. What doesn't say otherwise does nothing then.
    fn took_few_turns(&mut self, _steps: u64, _runs: u64, _idle: u64) {}

    /// What is odd about the work's input, which is done all the same: a line of text. What doesn't say otherwise does
    /// nothing then.
    fn warn<D: fmt::Display>(&mut self, _warning: &D) {}
}

/// What says nothing of how far work is.
#[derive(Clone, Copy)]
pub struct Quiet;

impl Progress for Quiet {
    fn begin(&mut self) {}

    fn show(&mut self, _done: u64, _all: u64) {}

    fn hide(&mut self) {}
}
