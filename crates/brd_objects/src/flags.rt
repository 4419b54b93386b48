//! The event flags of a board.

ghost use Rattle.std.specs.Prelude.{◌≡◌, ◌≢◌, ◌<◌, IfSome, option_copied};
ghost use Rattle.brd_objects.specs.Table.{object_at, object_changed};
ghost use Rattle.brd_objects.specs.Flags.{
  joined,
  masked,
  taken_for,
  flag_awaited,
  with_next_released,
  next_released_in,
  pattern_for_in,
};
ghost use Rattle.brd_objects.specs.Waiters.{WantBits};

use crate::flag::Flag;
use crate::objects::{Objects, SavedObjects};
use crate::want::Want;

/// The event flags of a board by their IDs. Only `new` takes memory.
pub type Flags = Objects<Flag>;

/// What a snapshot keeps of them.
pub type SavedFlags = SavedObjects<Flag>;

impl Objects<Flag> {
    /// The flag of an ID.
    pub fn flag(&self, id: u16) -> Option<&Flag>
        ensures { option_copied result ≡ object_at self.now id }
    {
        self.object(id)
    }

    /// Sets bits of a flag. Who is released by it says `next_satisfied`.
    #[tactic(auto, using(crate::proofs::RowLemmas::at_rows, crate::proofs::RowLemmas::past_rows, crate::proofs::RowLemmas::changed_row, crate::proofs::RowLemmas::changed_none, crate::proofs::RowLemmas::changed_past))]
    pub fn set(&mut self, id: u16, bits: u32)
        ensures { self.new ≡ object_changed (joined bits) self.old id }
    {
        if (id as usize) < self.rows.len() {
            if let Some(flag) = &mut self.rows[id as usize] {
                flag.set(bits);
            }
        }
    }

    /// Clears all bits of a flag but these.
    #[tactic(auto, using(crate::proofs::RowLemmas::at_rows, crate::proofs::RowLemmas::past_rows, crate::proofs::RowLemmas::changed_row, crate::proofs::RowLemmas::changed_none, crate::proofs::RowLemmas::changed_past))]
    pub fn clear(&mut self, id: u16, bits: u32)
        ensures { self.new ≡ object_changed (masked bits) self.old id }
    {
        if (id as usize) < self.rows.len() {
            if let Some(flag) = &mut self.rows[id as usize] {
                flag.clear(bits);
            }
        }
    }

    /// The first waiter of a flag that its pattern satisfies leaves, and is answered with the pattern, which is cleared
    /// under TA_CLR.
    #[tactic(auto, using(crate::proofs::RowLemmas::at_rows, crate::proofs::RowLemmas::past_rows, crate::proofs::RowLemmas::changed_row, crate::proofs::RowLemmas::changed_none, crate::proofs::RowLemmas::changed_past))]
    pub fn next_satisfied(&mut self, id: u16) -> Option<(u16, u32)>
        ensures is { self.new ≡ object_changed with_next_released self.old id }
        ensures who { result ≡ next_released_in (object_at self.old id) }
        ensures small { IfSome result (λ released. released.0 < 256) }
        ensures bits { IfSome (object_at self.old id) (λ flag. WantBits flag.waiters) }
    {
        if (id as usize) < self.rows.len() {
            if let Some(flag) = &mut self.rows[id as usize] {
                return flag.next_satisfied();
            }
        }
        None
    }

    /// A wait that the pattern satisfies at once is answered with it, and it is cleared under TA_CLR.
    #[tactic(auto, using(crate::proofs::RowLemmas::at_rows, crate::proofs::RowLemmas::past_rows, crate::proofs::RowLemmas::changed_row, crate::proofs::RowLemmas::changed_none, crate::proofs::RowLemmas::changed_past))]
    pub fn take(&mut self, id: u16, want: Want) -> Option<u32>
        ensures is { self.new ≡ object_changed (taken_for want) self.old id }
        ensures pattern { result ≡ pattern_for_in want (object_at self.old id) }
    {
        if (id as usize) < self.rows.len() {
            if let Some(flag) = &mut self.rows[id as usize] {
                return flag.take(want);
            }
        }
        None
    }

    /// A task waits for bits of a flag, in the order that its attributes say.
    #[tactic(auto, using(crate::proofs::RowLemmas::at_rows, crate::proofs::RowLemmas::past_rows, crate::proofs::RowLemmas::changed_row, crate::proofs::RowLemmas::changed_none, crate::proofs::RowLemmas::changed_past))]
    pub fn wait(&mut self, id: u16, task: u16, priority: u8, want: Want)
        requires small { task < 256 }
        requires bits { want.bits ≢ 0 }
        ensures { self.new ≡ object_changed (flag_awaited task priority want) self.old id }
    {
        if (id as usize) < self.rows.len() {
            if let Some(flag) = &mut self.rows[id as usize] {
                flag.wait(task, priority, want);
            }
        }
    }
}
