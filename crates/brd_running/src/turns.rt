//! How often the processors of a race took turns.

ghost use Rattle.std.specs.Prelude.{◌≡◌, length};
ghost use Rattle.brd_journal.specs.Runs.{runs_of};
ghost use Rattle.brd_threads.specs.Processors.{processors_of};
ghost use Rattle.brd_threads.specs.Station.{board_of};
ghost use Rattle.brd_running.specs.Turns.{are_few, steps_to};

use brd_progress::Progress;
use brd_threads::{Race, Station, processors};

/// How many steps the processors of a race did, and in how many runs of its journal.
#[derive(Clone, Copy)]
pub struct Turns {
    processors: usize,
    steps: u64,
    runs: u64,
}

impl Turns {
    /// Those of a race that left this station.
    pub fn of<K: Race>(station: &Station<K>) -> Turns
        ensures processors { result.processors ≡ processors_of (board_of station.now) }
        ensures steps { result.steps ≡ steps_to station.now 8 }
        ensures runs { result.runs ≡ length (runs_of station.now.journal.events) }
    {
        let mut steps = 0u64;
        for cpu in 1..9u8 {
            steps = steps.saturating_add(station.steps(cpu).unwrap_or(0));
        }
        Turns {
            processors: processors(station.board()),
            steps,
            runs: station.journal().runs().len() as u64,
        }
    }

    /// Tells it where they are few, with how many steps did nothing.
    pub fn tell<P: Progress>(self, idle: u64, progress: &mut P) {
        if self.are_few() {
            progress.took_few_turns(self.steps, self.runs, idle);
        }
    }

    /// Whether they are few.
    pub fn are_few(self) -> bool
        ensures { result ≡ are_few self.processors self.steps self.runs }
    {
        self.processors >= 2 && self.steps >= 10_000 && self.runs < self.steps / 1_000
    }
}
