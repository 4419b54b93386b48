//! Where schedules stop.

use brd_base::NoMemory;
use brd_board::Board;
use brd_explore::{Bounds, is_cut, is_end};

/// How often schedules stop, and why.
#[derive(Clone, Copy, Debug, PartialEq, Eq)]
pub struct Stops {
    /// How many places are ends.
    pub ends: usize,
    /// How often no event is left: at a place, or within a block.
    pub out_of_events: usize,
    /// At how many places no tick is left for a wait that would end by one, or for a time handler.
    pub out_of_ticks: usize,
}

impl Stops {
    /// They haven't stopped yet.
    pub(crate) fn none() -> Stops {
        Stops {
            ends: 0,
            out_of_events: 0,
            out_of_ticks: 0,
        }
    }

    /// They come to a place: this board, where so much is left.
    pub(crate) fn come(&mut self, board: &Board, left: Bounds) -> Result<(), NoMemory> {
        if is_end(board, left)? {
            self.ends = self.ends.saturating_add(1);
        } else if is_cut(board, left)? {
            self.lack(left);
        }
        Ok(())
    }

    /// They can't go on from a place, since nothing is left of something.
    fn lack(&mut self, left: Bounds) {
        if left.events == 0 {
            return self.cut();
        }
        self.out_of_ticks = self.out_of_ticks.saturating_add(1);
    }

    /// They stop at other places, too.
    pub(crate) fn add(&mut self, more: Stops) {
        self.ends = self.ends.saturating_add(more.ends);
        self.out_of_events = self.out_of_events.saturating_add(more.out_of_events);
        self.out_of_ticks = self.out_of_ticks.saturating_add(more.out_of_ticks);
    }

    /// One lacks an event.
    pub(crate) fn cut(&mut self) {
        self.out_of_events = self.out_of_events.saturating_add(1);
    }
}
