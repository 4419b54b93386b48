//! Snapshots of a board.

ghost use Rattle.std.specs.Prelude.{◌≡◌, true, IfOk, OnOk, OnErr};
ghost use Rattle.brd_board.specs.Snapshot.{snapshot_of, restored, Fits};
ghost use Rattle.brd_mem.specs.Memory.{size_of};

use super::Board;
use crate::snapshot::Snapshot;
use brd_base::{NoMemory, copy_with_room};

impl Board {
    /// A snapshot over a boot whose RAM has the same size and order, as `snapshot` takes it. It shares the pages of RAM
    /// that an earlier one of this boot has too.
    pub fn snapshot_after(&self, boot: &Board, earlier: &Snapshot) -> Result<Snapshot, NoMemory>
        requires sizes { size_of self.now.memory ≡ size_of boot.now.memory }
        requires orders { self.now.memory.order ≡ boot.now.memory.order }
        ensures is { IfOk result (λ snapshot. snapshot ≡ snapshot_of boot.now self.now) }
        ensures fits { IfOk result (Fits boot.now) }
        ensures back { IfOk result (λ snapshot. restored boot.now snapshot ≡ self.now) }
    {
        Ok(Snapshot {
            kernel: self.kernel.save()?,
            pages: self.ram.pages_after(&boot.ram, &earlier.pages)?,
            links: self.links,
            faults: copy_with_room(&self.faults, 0)?,
        })
    }

    /// Becomes the board that a snapshot over this boot, whose RAM has the same size and order, was taken of. Of RAM it
    /// writes only pages to which anything was ever written. A refusal leaves it as it is.
    pub fn restore(&mut self, boot: &Board, snapshot: &Snapshot) -> Result<(), NoMemory>
        requires sizes { size_of self.old.memory ≡ size_of boot.now.memory }
        requires orders { self.old.memory.order ≡ boot.now.memory.order }
        requires fits { Fits boot.now snapshot.now }
        ensures ok { OnOk result (self.new ≡ restored boot.now snapshot.now) }
        ensures err { OnErr result (self.new ≡ self.old) }
    {
        let kernel = snapshot.kernel.restore()?;
        let faults = copy_with_room(&snapshot.faults, 0)?;
        self.kernel = kernel;
        self.ram.put_back(&boot.ram, &snapshot.pages);
        self.links = snapshot.links;
        self.faults = faults;
        Ok(())
    }

    /// Whether both have RAM of one size and order, so that one can become equal to the other in place.
    pub fn is_alike(&self, other: &Board) -> bool
        ensures sizes { result ≡ true → size_of self.now.memory ≡ size_of other.now.memory }
        ensures orders { result ≡ true → self.now.memory.order ≡ other.now.memory.order }
    {
        self.ram.size() == other.ram.size() && self.ram.order() == other.ram.order()
    }

    /// Becomes equal to a board whose RAM has the same size and order. Of RAM it writes only pages to which anything
    /// was ever written. A refusal leaves it as it is.
    pub fn copy_from(&mut self, other: &Board) -> Result<(), NoMemory>
        requires sizes { size_of self.old.memory ≡ size_of other.now.memory }
        requires orders { self.old.memory.order ≡ other.now.memory.order }
        ensures ok { OnOk result (self.new ≡ other.now) }
        ensures err { OnErr result (self.new ≡ self.old) }
    {
        let kernel = other.kernel.try_copy()?;
        let faults = copy_with_room(&other.faults, 0)?;
        self.kernel = kernel;
        self.ram.copy_from(&other.ram);
        self.links = other.links;
        self.faults = faults;
        Ok(())
    }
}
