//! Which places have a mark: a table by marks. What it doesn't find may be there all the same.

ghost use Rattle.std.specs.Prelude.{◌<◌, IfSome};

use brd_base::NoMemory;
use std::alloc::Global;

/// Stands for no place.
const NONE: u32 = u32::MAX;

/// The mark of a place.
#[derive(Clone, Copy)]
struct Marked {
    mark: u64,
    /// The next place of the same slot.
    next: u32,
}

/// The marks of places, by their indices, and which of them fall into a slot.
#[derive(Drop)]
pub(crate) struct Table {
    marks: Vec<Marked>,
    /// By slot: the last place whose mark falls there. Their number is a power of two, or 0.
    slots: Vec<u32>,
}

impl Table {
    /// No places.
    pub fn new(alloc: Global) -> Table {
        Table {
            marks: Vec::new(alloc),
            slots: Vec::new(alloc),
        }
    }

    /// The last place that has this mark.
    pub fn first(&self, mark: u64) -> Option<usize> {
        let slot = slot_of(mark, self.slots.len())?;
        self.from(self.slots[slot], mark)
    }

    /// The next place after this one that has this mark.
    pub fn next(&self, at: usize, mark: u64) -> Option<usize> {
        if at >= self.marks.len() {
            return None;
        }
        self.from(self.marks[at].next, mark)
    }

    /// The first place that has this mark, from this one on.
    fn from(&self, at: u32, mark: u64) -> Option<usize> {
        let mut at = at as usize;
        for _ in 0..self.marks.len() {
            if at >= self.marks.len() {
                return None;
            }
            let here = self.marks[at];
            if here.mark == mark {
                return Some(at);
            }
            at = here.next as usize;
        }
        None
    }

    /// Makes room for one more place.
    pub fn make_room(&mut self) -> Result<(), NoMemory> {
        self.marks.reserve(1)?;
        if self.marks.len() < self.slots.len() {
            return Ok(());
        }
        self.slots = self.more_slots()?;
        for i in 0..self.marks.len() {
            self.put_again(i);
        }
        Ok(())
    }

    /// Puts a place that is there into the slot of its mark.
    fn put_again(&mut self, i: usize) {
        if i >= self.marks.len() {
            return;
        }
        let mark = self.marks[i].mark;
        let next = self.put(i, mark);
        if i < self.marks.len() {
            self.marks[i].next = next;
        }
    }

    /// Twice as many slots, into which nothing falls.
    fn more_slots(&self) -> Result<Vec<u32>, NoMemory> {
        let count = self.slots.len().max(8).saturating_mul(2);
        let mut slots = Vec::with_capacity(*self.slots.allocator(), count)?;
        for _ in 0..count {
            slots.push(NONE)?;
        }
        Ok(slots)
    }

    /// Puts the mark of one more place at the end. There is room for it.
    pub fn push(&mut self, mark: u64) {
        let at = self.marks.len();
        let next = self.put(at, mark);
        let _ = self.marks.push(Marked { mark, next });
    }

    /// Puts a place into the slot of its mark. Answers the one that was the last there.
    fn put(&mut self, at: usize, mark: u64) -> u32 {
        let Ok(at) = u32::try_from(at) else {
            return NONE;
        };
        let Some(slot) = slot_of(mark, self.slots.len()) else {
            return NONE;
        };
        let next = self.slots[slot];
        self.slots[slot] = at;
        next
    }
}

/// The slot of a mark among so many, if there are any.
fn slot_of(mark: u64, count: usize) -> Option<usize>
    ensures { IfSome result (λ slot. slot < count) }
{
    if count == 0 {
        return None;
    }
    Some((mark % count as u64) as usize)
}
