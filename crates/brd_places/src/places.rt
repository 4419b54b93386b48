//! The places through which a search goes.

ghost use Rattle.std.specs.Prelude.{◌≡◌, ◌++◌, ◌∷◌, [], length, slice_get, true, Some, IfOk, IfSome};
ghost use Rattle.std.specs.Prelude.{OnOk, OnErr};
ghost use Rattle.brd_board.specs.Board.{after};
ghost use Rattle.brd_places.specs.Places.{Place, place_after};

use crate::entry::{Entry, entry_at, first_entry};
use crate::kept::{Kept, kept_next, made, put, put_back, put_in, since_after};
use crate::left::Left;
use crate::marks::Marks;
use crate::path::path_to;
use crate::table::Table;
use brd_base::{List, NoMemory};
use brd_board::{Board, Event};
use std::alloc::Global;
use std::marker::Model;

/// What is said to be left where there is no place.
const NOTHING: Left = Left {
    ticks: 0,
    raises: 0,
    owed: 0,
};

/// How many bytes a place takes at most, besides a board that is kept whole: in tables that may be half empty.
const PLACE: usize = 256;

/// How many bytes a board that is kept whole takes, about: its kernel's tables, and a few pages.
const WHOLE: usize = 65_536;

/// The places through which a search goes, in the order in which it came to them.
pub struct Places {
    start: Board,
    entries: Vec<Entry>,
    kept: Vec<Kept>,
    /// A board to be made another one.
    spare: Board,
    marks: Marks,
    table: Table,
}

impl Model for Places {
    ghost use Rattle.std.specs.Prelude.{List as Items};
    ghost use Rattle.brd_places.specs.Places.{Place, places_of, AreAlike, AreKept, BeginsWith};

    ghost Value = { Items Place };

    ghost view = { λ p. places_of p.start p.entries.items };

    ghost invariant = { λ p. BeginsWith p.start p.entries.items × AreAlike p.spare p.start
        × AreKept p.start p.entries.items p.kept.items };
}

/// Written out, so that a function that lets one go is proved with a call, and not with the end of each part.
impl Drop for Places {
    fn drop(self) {
        let Places {
            start: _,
            entries: _,
            kept: _,
            spare: _,
            marks: _,
            table: _,
        } = self;
    }
}

impl Places {
    /// The start alone, where so much is left. Its mark is that of a memory of which the number is 0.
    #[tactic(auto, using(crate::proofs::ModelLemmas::first_view, crate::proofs::ModelLemmas::first_begun, crate::proofs::ModelLemmas::none_kept, crate::proofs::ModelLemmas::alike_copies))]
    pub fn new(alloc: Global, start: &Board, left: Left) -> Result<Places, NoMemory>
        ensures { IfOk result (λ places. places ≡ (record { left = left; board = start.now }) ∷ []) }
    {
        let mut entries = Vec::new(alloc);
        entries.push(first_entry(left))?;
        let marks = Marks::new(alloc, start)?;
        let mut table = Table::new(alloc);
        table.make_room()?;
        table.push(marks.mark_of(start, left, 0));
        Ok(Places {
            start: start.try_copy()?,
            entries,
            kept: Vec::new(alloc),
            spare: start.try_copy()?,
            marks,
            table,
        })
    }

    /// How many there are.
    pub fn len(&self) -> usize
        ensures { result ≡ length self.now }
    {
        self.entries.len()
    }

    /// How many bytes they take, about: in what lies in memory for each, and in the boards that are kept whole.
    pub fn weight(&self) -> usize {
        let each = self.entries.len().saturating_mul(PLACE);
        each.saturating_add(self.kept.len().saturating_mul(WHOLE))
    }

    /// What is left at the place of an index.
    pub fn left(&self, i: usize) -> Left
        ensures { (place : Place) → slice_get self.now i ≡ Some place → result ≡ place.left }
    {
        let Some(entry) = entry_at(self.entries.as_slice(), i) else {
            return NOTHING;
        };
        entry.left
    }

    /// The board of the place of an index.
    #[tactic(auto, using(crate::proofs::ModelLemmas::place_board))]
    pub fn board(&self, i: usize) -> Result<Board, NoMemory>
        ensures { (place : Place) → slice_get self.now i ≡ Some place → IfOk result (λ board. board ≡ place.board) }
    {
        let board = made(
            &self.start,
            self.entries.as_slice(),
            self.kept.as_slice(),
            i,
        )?;
        Ok(board)
    }

    /// Makes a board that of the place of an index. It takes no memory for RAM if the board's has the size and order of
    /// the places' RAM.
    pub fn put(&self, i: usize, board: &mut Board) -> Result<(), NoMemory>
        ensures { (place : Place) → slice_get self.now i ≡ Some place → OnOk result (board.new ≡ place.board) }
    {
        put_in(
            &self.start,
            self.entries.as_slice(),
            self.kept.as_slice(),
            i,
            board,
        )
    }

    /// Whether the place of an index is this board, whatever is left there. The board in `spare` may become another
    /// one.
    pub fn is_board(&self, i: usize, board: &Board, spare: &mut Board) -> Result<bool, NoMemory>
        ensures { (place : Place) → slice_get self.now i ≡ Some place →
            IfOk result (λ is. is ≡ true → place.board ≡ board.now) }
    {
        self.put(i, spare)?;
        Ok(spare.same(board))
    }

    /// The mark of a board, and of what is left: it depends on nothing else but on a number for the board's memory,
    /// which `mix` helps to make.
    pub fn mark_of(&self, board: &Board, left: Left, memory: u64) -> u64 {
        self.marks.mark_of(board, left, memory)
    }

    /// A place that is this board, where just so much is left, among those that were added with this mark. None may
    /// mean that there is one all the same.
    pub fn find(&mut self, board: &Board, left: Left, mark: u64) -> Result<Option<usize>, NoMemory>
        ensures same { self.new ≡ self.old }
        ensures found { IfOk result (λ found. IfSome found
            (λ i. slice_get self.old i ≡ Some (record { left = left; board = board.now }))) }
    {
        let mut at = self.table.first(mark);
        for _ in 0..self.entries.len() {
            let Some(i) = at else {
                return Ok(None);
            };
            if self.is_at(i, board, left)? {
                return Ok(Some(i));
            }
            at = self.table.next(i, mark);
        }
        Ok(None)
    }

    /// Whether the place of an index is this board, where just so much is left.
    fn is_at(&mut self, i: usize, board: &Board, left: Left) -> Result<bool, NoMemory>
        ensures same { self.new ≡ self.old }
        ensures is { IfOk result (λ is. is ≡ true →
            slice_get self.old i ≡ Some (record { left = left; board = board.now })) }
    {
        let Some(entry) = entry_at(self.entries.as_slice(), i) else {
            return Ok(false);
        };
        if entry.left != left {
            return Ok(false);
        }
        self.has_board(i, board)
    }

    /// The last place that was added with this mark, if there is one.
    pub fn first(&self, mark: u64) -> Option<usize> {
        self.table.first(mark)
    }

    /// The place that was added last, before another one, with this mark, if there is one.
    pub fn next(&self, i: usize, mark: u64) -> Option<usize> {
        self.table.next(i, mark)
    }

    /// Whether the place of an index is this board, whatever is left there.
    #[tactic(auto, using(crate::proofs::StepLemmas::alike_place, crate::proofs::ModelLemmas::board_same))]
    pub fn has_board(&mut self, i: usize, board: &Board) -> Result<bool, NoMemory>
        ensures same { self.new ≡ self.old }
        ensures is { (place : Place) → slice_get self.old i ≡ Some place →
            IfOk result (λ is. is ≡ true → place.board ≡ board.now) }
    {
        put_back(
            &self.start,
            self.entries.as_slice(),
            self.kept.as_slice(),
            i,
            &mut self.spare,
        )?;
        Ok(self.spare.same(board))
    }

    /// Adds the place to which one event n times leads from an earlier one, where so much is left. A refusal leaves
    /// all places as they are.
    #[tactic(auto, using(crate::proofs::ModelLemmas::one_more, crate::proofs::ModelLemmas::begins_more))]
    pub fn add(
        &mut self,
        from: usize,
        event: Event,
        count: u32,
        left: Left,
        mark: u64,
    ) -> Result<(), NoMemory>
        ensures ok { (place : Place) → slice_get self.old from ≡ Some place →
            OnOk result (self.new ≡ self.old ++ place_after place.board event count left ∷ []) }
        ensures err { OnErr result (self.new ≡ self.old) }
    {
        let Ok(parent) = u32::try_from(from) else {
            return Err(NoMemory);
        };
        self.table.make_room()?;
        let since = since_after(self.entries.as_slice(), from, count);
        let entry = Entry {
            parent,
            event,
            count,
            left,
            since,
            kept: kept_next(since, self.kept.len()),
        };
        put(
            &self.start,
            &mut self.entries,
            &mut self.kept,
            &mut self.spare,
            entry,
        )?;
        self.table.push(mark);
        Ok(())
    }

    /// The events that lead from the first place to the place of an index.
    #[tactic(auto, using(crate::proofs::ModelLemmas::way_to))]
    pub fn path(&self, i: usize) -> Result<List<Event>, NoMemory>
        ensures { (first last : Place) → slice_get self.now 0 ≡ Some first → slice_get self.now i ≡ Some last →
            IfOk result (λ events. after first.board events ≡ last.board) }
    {
        let events = path_to(*self.entries.allocator(), self.entries.as_slice(), i)?;
        Ok(events)
    }
}
