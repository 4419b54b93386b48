//! The places through which a search goes.

ghost use Rattle.std.specs.Prelude.{◌≡◌, ◌<◌, ◌++◌, ◌∷◌, [], length, replicate, slice_get, true, Some};
ghost use Rattle.std.specs.Prelude.{IfOk, IfSome, OnOk, OnErr};
ghost use Rattle.brd_board.specs.Board.{BoardState as BoardOf, after};
ghost use Rattle.brd_explore.specs.Schedules.{IsRicher, Place as PlaceOf, start};
ghost use Rattle.brd_spots.specs.Spots.{spot_of, IsKnown, IsMore};

use brd_base::{List, NoMemory};
use brd_board::{Board, Event};
use brd_explore::Bounds;
use brd_places::{Left, Places, mix};
use std::alloc::Global;
use std::marker::Model;

/// What is left at each place, as brd_places keeps it: it is kept beside that.
const NOTHING: Left = Left {
    ticks: 0,
    raises: 0,
    owed: 0,
};

/// What a place has beside its board.
#[derive(Clone, Copy)]
pub struct Margin {
    /// What is left.
    pub left: Bounds,
    /// Which processor a step of another one preempts.
    pub last: Option<u8>,
}

/// Places, in the order in which they were come to.
pub struct Spots {
    /// Their boards.
    boards: Places,
    margins: Vec<Margin>,
}

impl Model for Spots {
    ghost use Rattle.std.specs.Prelude.{◌≡◌, length, List as Items};
    ghost use Rattle.brd_explore.specs.Schedules.{Place};
    ghost use Rattle.brd_spots.specs.Spots.{spots_of};

    ghost Value = { Items Place };

    ghost view = { λ s. spots_of s.boards s.margins.items };

    ghost invariant = { λ s. length s.boards ≡ length s.margins.items };
}

/// Written out, so that a function that lets one go is proved with a call, and not with the end of each part.
impl Drop for Spots {
    fn drop(self) {
        let Spots {
            boards: _,
            margins: _,
        } = self;
    }
}

impl Spots {
    /// The place alone where the schedules of a board begin.
    pub fn new(alloc: Global, board: &Board, bounds: Bounds) -> Result<Spots, NoMemory>
        ensures { IfOk result (λ spots. spots ≡ start board.now bounds ∷ []) }
    {
        let boards = Places::new(alloc, board, NOTHING)?;
        let mut margins = Vec::new(alloc);
        margins.push(Margin {
            left: bounds,
            last: None,
        })?;
        Ok(Spots { boards, margins })
    }

    /// How many there are.
    pub fn len(&self) -> usize
        ensures { result ≡ length self.now }
    {
        self.margins.len()
    }

    /// The board of the place of an index.
    pub fn board(&self, i: usize) -> Result<Board, NoMemory>
        ensures { (p : PlaceOf) → slice_get self.now i ≡ Some p → IfOk result (λ board. board ≡ p.board) }
    {
        self.boards.board(i)
    }

    /// How many bytes they take, about.
    pub fn weight(&self) -> usize {
        self.boards.weight()
    }

    /// Makes a board that of the place of an index.
    pub fn put(&self, i: usize, board: &mut Board) -> Result<(), NoMemory>
        ensures { (p : PlaceOf) → slice_get self.now i ≡ Some p → OnOk result (board.new ≡ p.board) }
    {
        self.boards.put(i, board)
    }

    /// What the place of an index has beside its board, if there is one.
    pub fn margin(&self, i: usize) -> Option<Margin>
        ensures { (p : PlaceOf) → slice_get self.now i ≡ Some p →
            IfSome result (λ margin. spot_of p.board margin ≡ p) }
    {
        if i < self.margins.len() {
            return Some(self.margins[i]);
        }
        None
    }

    /// The least number of preemptions that is left at a place.
    pub fn spare(&self) -> u32 {
        let mut spare = u32::MAX;
        for margin in self.margins.as_slice() {
            spare = spare.min(margin.left.preemptions);
        }
        spare
    }

    /// The mark of a place, by a number for the memory of its board. It doesn't depend on what is left, but for the
    /// raises that are owed.
    pub fn mark_of(&self, board: &Board, margin: Margin, memory: u64) -> u64 {
        let last = u32::from(margin.last.unwrap_or(0));
        self.boards.mark_of(board, NOTHING, memory) ^ mix(last, margin.left.owed)
    }

    /// Adds a place, unless one that was added with its mark covers it: the board to which one event n times leads from
    /// the place of an index. The board in `spare` may become another one.
    pub fn note(
        &mut self,
        from: usize,
        event: Event,
        count: u32,
        board: &Board,
        margin: Margin,
        mark: u64,
        spare: &mut Board,
    ) -> Result<(), NoMemory>
        requires { from < length self.old }
        ensures more { IsMore self.old self.new }
        ensures known { (p : PlaceOf) → slice_get self.old from ≡ Some p →
            board.now ≡ after p.board (replicate count event) →
            OnOk result (IsKnown self.new (spot_of board.now margin)) }
    {
        if self.is_known(board, margin, mark, spare)? {
            return Ok(());
        }
        self.add(from, event, count, margin, mark)
    }

    /// Whether a place that was added with this mark covers one. The board in `spare` may become another one.
    pub fn is_known(
        &self,
        board: &Board,
        margin: Margin,
        mark: u64,
        spare: &mut Board,
    ) -> Result<bool, NoMemory>
        ensures { IfOk result (λ known. known ≡ true → IsKnown self.now (spot_of board.now margin)) }
    {
        let mut at = self.boards.first(mark);
        for _ in 0..self.margins.len() {
            let Some(i) = at else {
                return Ok(false);
            };
            if self.covers(i, board, margin, spare)? {
                return Ok(true);
            }
            at = self.boards.next(i, mark);
        }
        Ok(false)
    }

    /// Whether the place of an index covers one.
    fn covers(
        &self,
        i: usize,
        board: &Board,
        margin: Margin,
        spare: &mut Board,
    ) -> Result<bool, NoMemory>
        ensures { IfOk result (λ covers. covers ≡ true → IsKnown self.now (spot_of board.now margin)) }
    {
        if i >= self.margins.len() || !is_enough(self.margins[i], margin) {
            return Ok(false);
        }
        self.boards.is_board(i, board, spare)
    }

    /// Whether a place of this index or a later one was added with this mark.
    pub fn has_since(&self, mark: u64, since: usize) -> bool {
        match self.boards.first(mark) {
            Some(last) => last >= since,
            None => false,
        }
    }

    /// Adds the place to which one event n times leads from the place of an index. A refusal leaves all as they are.
    pub fn add(
        &mut self,
        from: usize,
        event: Event,
        count: u32,
        margin: Margin,
        mark: u64,
    ) -> Result<(), NoMemory>
        requires { from < length self.old }
        ensures ok { (p : PlaceOf) → slice_get self.old from ≡ Some p →
            OnOk result (self.new ≡ self.old ++ spot_of (after p.board (replicate count event)) margin ∷ []) }
        ensures err { OnErr result (self.new ≡ self.old) }
    {
        self.margins.push(margin)?;
        if self.boards.add(from, event, count, NOTHING, mark).is_err() {
            let _ = self.margins.pop();
            return Err(NoMemory);
        }
        Ok(())
    }

    /// The events that lead to the place of an index.
    pub fn path(&self, i: usize) -> Result<List<Event>, NoMemory> {
        self.boards.path(i)
    }
}

/// Whether a place with one margin covers a place with the other one, if they have the same board: the same processor
/// has stepped last, as many raises are owed, and no less is left.
pub fn is_enough(one: Margin, other: Margin) -> bool
    ensures { result ≡ true → (b : BoardOf) → IsRicher (spot_of b one) (spot_of b other) }
{
    one.last == other.last
        && one.left.owed == other.left.owed
        && one.left.events >= other.left.events
        && one.left.preemptions >= other.left.preemptions
        && one.left.ticks >= other.left.ticks
        && one.left.raises >= other.left.raises
}
