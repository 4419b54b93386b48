//! Ways from places to places, and from which places a way leads to an end. (Of none of this anything is claimed: what
//! is found by it is looked at again.)

use crate::stop::Stop;
use brd_base::{List, NoMemory};
use brd_board::Board;
use brd_explore::Ending;
use std::alloc::Global;

/// How many ends are kept at most that aren't alike (own choice).
const MOST_ENDINGS: usize = 64;

/// A way from the place of an index to that of another one.
#[derive(Clone, Copy)]
struct Way {
    from: usize,
    to: usize,
}

/// The ways from places that were gone through.
#[derive(Drop)]
pub(crate) struct Ways {
    ways: Vec<Way>,
    /// Of each place, in their order, whether schedules stop there.
    stops: Vec<Stop>,
    /// The addresses of the words that are looked at where schedules end.
    words: List<u32>,
    /// The ends that aren't alike, each with the index of the first such place.
    endings: Vec<Shown>,
    /// Whether there are more of them.
    more: bool,
}

/// What an end is.
#[derive(Drop)]
pub(crate) struct Shown {
    /// The index of the first place that is one.
    pub at: usize,
    /// What the console and the words are there.
    pub ending: Ending,
}

impl Ways {
    /// No way, and no place. Where schedules end, the words at these addresses are looked at.
    pub fn new(alloc: Global, words: &[u32]) -> Result<Ways, NoMemory> {
        Ok(Ways {
            ways: Vec::new(alloc),
            stops: Vec::new(alloc),
            words: List::from_slice(alloc, words)?,
            endings: Vec::new(alloc),
            more: false,
        })
    }

    /// Comes to the next place, which has this board.
    pub fn come(&mut self, alloc: Global, stop: Stop, board: &Board) -> Result<(), NoMemory> {
        if stop == Stop::End {
            let values = self.values_on(alloc, board)?;
            self.show(alloc, board.console(), values)?;
        }
        self.stops.push(stop)?;
        Ok(())
    }

    /// The values of the words on a board, of those that it has.
    fn values_on(&self, alloc: Global, board: &Board) -> Result<List<u32>, NoMemory> {
        let mut values = List::new(alloc);
        for address in self.words.as_slice() {
            if let Some(value) = board.word(*address) {
                values.push(value)?;
            }
        }
        Ok(values)
    }

    /// Keeps what an end is, which is the next place, unless it is kept.
    fn show(&mut self, alloc: Global, console: &[u8], values: List<u32>) -> Result<(), NoMemory> {
        for shown in self.endings.as_slice() {
            if is_such(&shown.ending, console, values.as_slice()) {
                return Ok(());
            }
        }
        if self.endings.len() >= MOST_ENDINGS {
            self.more = true;
            return Ok(());
        }
        let console = List::from_slice(alloc, console)?;
        let at = self.stops.len();
        self.endings.push(Shown {
            at,
            ending: Ending { console, values },
        })?;
        Ok(())
    }

    /// The ends that aren't alike, each with the index of the first such place.
    pub fn endings(&self) -> &[Shown] {
        self.endings.as_slice()
    }

    /// Whether there are more of them than were kept.
    pub fn are_more(&self) -> bool {
        self.more
    }

    /// A way leads from a place to a place.
    pub fn add(&mut self, from: usize, to: usize) -> Result<(), NoMemory> {
        self.ways.push(Way { from, to })?;
        Ok(())
    }

    /// How many places are ends.
    pub fn ends(&self) -> usize {
        let mut ends = 0usize;
        for stop in self.stops.as_slice() {
            if *stop == Stop::End {
                ends = ends.wrapping_add(1);
            }
        }
        ends
    }

    /// Of each place, whether some way leads from there to where schedules stop.
    pub fn lead_on(&self, alloc: Global) -> Result<Vec<bool>, NoMemory> {
        let mut lead = Vec::new(alloc);
        for stop in self.stops.as_slice() {
            lead.push(*stop != Stop::No)?;
        }
        for _ in 0..self.stops.len() {
            if !self.pass(lead.as_mut_slice()) {
                break;
            }
        }
        Ok(lead)
    }

    /// Goes through all ways, the last one first: a place leads on from which a way leads to one that does. Answers
    /// whether more do.
    fn pass(&self, lead: &mut [bool]) -> bool {
        let mut more = false;
        for i in 0..self.ways.len() {
            let way = self.ways[self.ways.len() - 1 - i];
            more = step(lead, way) || more;
        }
        more
    }
}

/// Whether an end has this console, and these values of words.
fn is_such(ending: &Ending, console: &[u8], values: &[u32]) -> bool {
    ending.console.as_slice() == console && ending.values.as_slice() == values
}

/// A place leads on from which a way leads to one that does. Answers whether it didn't before.
fn step(lead: &mut [bool], way: Way) -> bool {
    let Way { from, to } = way;
    if from >= lead.len() || to >= lead.len() || lead[from] || !lead[to] {
        return false;
    }
    lead[from] = true;
    true
}
