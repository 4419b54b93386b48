//! What a search knows: places from which every schedule was searched, and none fails.

ghost use Rattle.std.specs.Prelude.{◌≡◌, ◌⊎◌, ◌∷◌, ◌++◌, ◌≤◌, ◌<◌, [], length};
ghost use Rattle.std.specs.Prelude.{true, List as ListOf, None, IfOk, IfSome, IfNone};
ghost use Rattle.brd_board.specs.declared.event.Event.{Event as EventOf};
ghost use Rattle.brd_explore.specs.declared.search.Search.{Search as SearchOf};
ghost use Rattle.brd_explore.specs.declared.wanted.Wanted.{Wanted as WantedOf};
ghost use Rattle.brd_explore.specs.Searching.{NoneGoes, spot_of};
ghost use Rattle.brd_explore.specs.Knowing.{spot_of_kept, AreDone, AreOver, ArePending, IsKeptOf, Notes};
ghost use Rattle.brd_explore.specs.Knowing.{is_as_much, is_enough, is_more, may_have_more};

use crate::asleep::Asleep;
use crate::bounds::Bounds;
use crate::search::Search;
use crate::wanted::Wanted;
use brd_base::NoMemory;
use brd_board::Board;
use std::alloc::Global;

/// A place that a search is to know again.
pub struct Kept {
    board: Board,
    left: Bounds,
    last: Option<u8>,
    asleep: Option<Asleep>,
    /// How many places there were to go back to when the search came here.
    height: usize,
    /// Places with equal boards have the same, where the same processor has stepped last.
    mark: u64,
}

/// The places that a search knows.
pub struct Known {
    /// Those from which there are schedules still to be searched, in the order in which the search came there.
    pub(crate) pending: Vec<Kept>,
    /// Those of which nothing is left to be searched. Each has the slot of its mark, from which it drops another one.
    pub(crate) done: Vec<Option<Kept>>,
    /// How many all these are, or more: no more are kept than `done` has slots.
    pub(crate) count: usize,
}

impl Drop for Kept {
    fn drop(self) {
        let Kept {
            board: _,
            left: _,
            last: _,
            asleep: _,
            height: _,
            mark: _,
        } = self;
    }
}

impl Drop for Known {
    fn drop(self) {
        let Known {
            pending: _,
            done: _,
            count: _,
        } = self;
    }
}

impl Kept {
    /// A copy of the place where a search is.
    fn of(search: &Search, mark: u64) -> Result<Kept, NoMemory>
        ensures { IfOk result (IsKeptOf search.now) }
    {
        Ok(Kept {
            board: search.board.try_copy()?,
            left: search.left,
            last: search.last,
            asleep: search.asleep,
            height: search.saved.len(),
            mark,
        })
    }

    /// Whether what was searched from here answers for the place where a search is, which has this mark. Where the
    /// marks differ the boards do, or who has stepped last.
    fn is_enough_for(&self, search: &Search, mark: u64, more: bool) -> bool
        ensures { (wanted : WantedOf) (among : ListOf EventOf) → (more ≡ true → may_have_more wanted ≡ true) →
            NoneGoes wanted among (spot_of_kept self.now) → result ≡ true →
            NoneGoes wanted among (spot_of search.now) }
    {
        if self.mark != mark || !are_same(self.last, search.last) {
            return false;
        }
        if !covers(self.asleep, search.asleep) {
            return false;
        }
        if !is_enough(more, self.left, search.left) {
            return false;
        }
        self.board.same(&search.board)
    }
}

impl Known {
    /// Nothing, with room for so many places; for fewer, if there is no memory for more.
    pub(crate) fn new(alloc: Global, most: usize) -> Known
        ensures done { (wanted : WantedOf) (among : ListOf EventOf) → AreDone wanted among result }
        ensures pending { result.pending.items ≡ [] }
    {
        let mut done = Vec::new(alloc);
        for _ in 0..most {
            let _ = done.push(None);
        }
        Known {
            pending: Vec::new(alloc),
            done,
            count: 0,
        }
    }

    /// Lets go what is pending, since another search begins.
    pub(crate) fn begin(&mut self)
        ensures pending { self.new.pending.items ≡ [] }
        ensures done { self.new.done.items ≡ self.old.done.items }
    {
        self.count = self.count.saturating_sub(self.pending.len());
        self.pending.clear();
    }

    /// Whether the place where a search is, to which it has just come, equals one from which every schedule was
    /// searched, or if `more` is allowed differs only in that less is left. (Where nobody sleeps at that one, anybody
    /// may here.) If not, it is kept as a pending one, where there is room and memory.
    pub(crate) fn knows(&mut self, search: &Search, more: bool) -> bool
        ensures is { (wanted : WantedOf) (among : ListOf EventOf) → (more ≡ true → may_have_more wanted ≡ true) →
            AreDone wanted among self.old → result ≡ true → NoneGoes wanted among (spot_of search.now) }
        ensures done { (wanted : WantedOf) (among : ListOf EventOf) → AreDone wanted among self.old →
            AreDone wanted among self.new }
        ensures pending { Notes search.now self.old self.new }
    {
        if self.done.is_empty() {
            return false;
        }
        let mark = mark_of(search);
        if self.has(search, mark, more) {
            return true;
        }
        self.note(search, mark);
        false
    }

    /// Whether a place from which every schedule was searched answers for the one where a search is, of this mark.
    fn has(&self, search: &Search, mark: u64, more: bool) -> bool
        ensures { (wanted : WantedOf) (among : ListOf EventOf) → (more ≡ true → may_have_more wanted ≡ true) →
            AreDone wanted among self.now → result ≡ true → NoneGoes wanted among (spot_of search.now) }
    {
        let Some(slot) = self.slot(mark) else {
            return false;
        };
        match &self.done[slot] {
            Some(kept) => kept.is_enough_for(search, mark, more),
            None => false,
        }
    }

    /// Keeps the place where a search is, of this mark, as a pending one, where there is room and memory.
    fn note(&mut self, search: &Search, mark: u64)
        ensures done { (wanted : WantedOf) (among : ListOf EventOf) → AreDone wanted among self.old →
            AreDone wanted among self.new }
        ensures pending { Notes search.now self.old self.new }
    {
        if !self.has_room(mark) {
            return;
        }
        let Ok(kept) = Kept::of(search, mark) else {
            return;
        };
        if self.pending.push(kept).is_ok() {
            self.count = self.count.saturating_add(1);
        }
    }

    /// Whether another place can be kept. Where there is no room, the one goes that has the mark's slot.
    fn has_room(&mut self, mark: u64) -> bool
        ensures done { (wanted : WantedOf) (among : ListOf EventOf) → AreDone wanted among self.old →
            AreDone wanted among self.new }
        ensures pending { self.new.pending.items ≡ self.old.pending.items }
    {
        if self.count < self.done.len() {
            return true;
        }
        let Some(slot) = self.slot(mark) else {
            return false;
        };
        if self.done[slot].take().is_none() {
            return false;
        }
        self.count = self.count.saturating_sub(1);
        true
    }

    /// Notes that nothing is left to be searched from the pending places at this height of the stack or above.
    pub(crate) fn settle(&mut self, height: usize)
        ensures done { (wanted : WantedOf) (among : ListOf EventOf) → AreDone wanted among self.old →
            AreOver wanted among height self.old → AreDone wanted among self.new }
        ensures pending { (wanted : WantedOf) (among : ListOf EventOf) (search : SearchOf) →
            ArePending wanted among search self.old → ArePending wanted among search self.new }
    {
        while let Some(kept) = self.next_over(height) {
            self.keep(kept);
        }
    }

    /// The pending place to which the search came last, if it is at this height or above.
    fn next_over(&mut self, height: usize) -> Option<Kept>
        ensures some { IfSome result
            (λ kept. (self.old.pending.items ≡ self.new.pending.items ++ kept ∷ []) × (height ≤ kept.height)) }
        ensures none { IfNone result (self.new.pending.items ≡ self.old.pending.items) }
        ensures done { self.new.done.items ≡ self.old.done.items }
    {
        if self.pending.last()?.height < height {
            return None;
        }
        self.pending.pop()
    }

    /// Keeps a place of which nothing is left to be searched, in place of the one that has its slot.
    fn keep(&mut self, kept: Kept)
        ensures done { (wanted : WantedOf) (among : ListOf EventOf) → AreDone wanted among self.old →
            NoneGoes wanted among (spot_of_kept kept) → AreDone wanted among self.new }
        ensures pending { self.new.pending.items ≡ self.old.pending.items }
    {
        let Some(slot) = self.slot(kept.mark) else {
            return;
        };
        if self.done[slot].replace(kept).is_some() {
            self.count = self.count.saturating_sub(1);
        }
    }

    /// The slot of a mark, if there is any.
    fn slot(&self, mark: u64) -> Option<usize>
        ensures { IfSome result (λ slot. slot < length self.now.done.items) }
    {
        let len = self.done.len();
        if len == 0 {
            return None;
        }
        Some((mark % len as u64) as usize)
    }
}

/// Whether a place with more left may answer for one with less.
pub(crate) fn may_have_more(wanted: &Wanted) -> bool
    ensures { result ≡ may_have_more wanted.now }
{
    wanted.rounds == 0
}

/// Whether a place where the one sleeps answers for a place where the other one does: it is the same one, or nobody.
fn covers(one: Option<Asleep>, other: Option<Asleep>) -> bool
    ensures { result ≡ true → (one ≡ None) ⊎ (one ≡ other) }
{
    let Some(_) = one else {
        return true;
    };
    one == other
}

/// Whether a step of another one would preempt the same processor, or none.
fn are_same(one: Option<u8>, other: Option<u8>) -> bool
    ensures { result ≡ true → one ≡ other }
{
    one == other
}

/// Whether as much is left of one as of another, or more if it may be.
#[tactic(auto, unfolding(crate::specs::Knowing::is_enough))]
fn is_enough(more: bool, one: Bounds, other: Bounds) -> bool
    ensures { result ≡ is_enough more one other }
{
    one.owed == other.owed && (is_as_much(one, other) || more && is_more(one, other))
}

/// Whether as much is left of one as of another.
fn is_as_much(one: Bounds, other: Bounds) -> bool
    ensures { result ≡ is_as_much one other }
{
    one.events == other.events
        && one.preemptions == other.preemptions
        && one.ticks == other.ticks
        && one.raises == other.raises
}

/// Whether no less is left of one than of another.
fn is_more(one: Bounds, other: Bounds) -> bool
    ensures { result ≡ is_more one other }
{
    other.events <= one.events
        && other.preemptions <= one.preemptions
        && other.ticks <= one.ticks
        && other.raises <= one.raises
}

/// A number that places have in common whose boards are equal, and where the same processor has stepped last, and other
/// ones hardly (FNV-1a, by words): from the clock, the console, and what executes.
fn mark_of(search: &Search) -> u64 {
    let board = &search.board;
    let mut mark = 0xcbf2_9ce4_8422_2325;
    for cpu in 1..9u8 {
        if let Some(context) = board.registers(cpu) {
            mark = marked_by_registers(marked(mark, u64::from(context.pc())), context.registers());
        }
    }
    mark = marked(mark, u64::from(search.last.unwrap_or(0)));
    mark = marked(mark, board.console().len() as u64);
    mark = marked(mark, board.now());
    mark ^ (mark >> 32)
}

/// A mark, and what registers hold.
fn marked_by_registers(mark: u64, registers: &[u32]) -> u64 {
    let mut mark = mark;
    for word in registers {
        mark = marked(mark, u64::from(*word));
    }
    mark
}

/// A mark, and a number more.
fn marked(mark: u64, number: u64) -> u64 {
    (mark ^ number).wrapping_mul(0x0000_0100_0000_01b3)
}
