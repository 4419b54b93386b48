//! What SYNC makes of loads and stores.

ghost use Rattle.std.specs.Prelude.{◌≡◌, OnOk};
ghost use Rattle.brd_deeds.specs.Trails.{
  accesses,
  accesses_by,
  executes,
  is_sync,
  is_synced,
  loads,
  loads_before_sync,
  loads_plainly,
  settled,
  settles_below,
  stores,
  stores_if,
  syncs,
};

use crate::log::{Doer, Done, Log};
use crate::past::Trail;
use crate::touch::{does_store, size_of, touch_at};
use brd_base::NoMemory;
use brd_happening::{Access, AccessKind, Instruction};
use brd_isa::Insn;
use brd_order::Touch;

/// Whether an instruction is SYNC.
fn is_sync(insn: &Insn) -> bool
    ensures { result ≡ is_sync insn.now }
{
    matches!(*insn, Insn::Sync)
}

/// Whether a SYNC was done, and no access since.
fn is_synced(trail: Trail) -> bool
    ensures { result ≡ is_synced trail }
{
    matches!(trail, Trail::Synced)
}

impl Log {
    /// What was loaded is a touch like any other, since no SYNC follows.
    fn load_plainly(&mut self, strand: u16, trail: Trail) -> Result<(), NoMemory>
        ensures { OnOk result (self.new ≡ loads_plainly strand trail self.old) }
    {
        match trail {
            Trail::Loaded(touch, loaded) => self.note(loaded, &[Done::touches(strand, touch)]),
            Trail::Nothing | Trail::Synced => Ok(()),
        }
    }

    /// Something else than a SYNC follows what a strand has loaded.
    pub(crate) fn settle(&mut self, strand: u16) -> Result<(), NoMemory>
        ensures { OnOk result (self.new ≡ settled strand self.old) }
    {
        let trail = self.past.trail(strand);
        self.load_plainly(strand, trail)?;
        self.put_trail(strand, Trail::Nothing);
        Ok(())
    }

    /// What was loaded is acquiring, since a SYNC follows.
    fn load_before_sync(&mut self, doer: Doer, trail: Trail) -> Result<(), NoMemory>
        ensures { OnOk result (self.new ≡ loads_before_sync doer trail self.old) }
    {
        match trail {
            Trail::Loaded(touch, loaded) => self.load_acquiring(doer, touch, loaded),
            Trail::Nothing | Trail::Synced => Ok(()),
        }
    }

    /// SYNC.
    fn sync(&mut self, doer: Doer) -> Result<(), NoMemory>
        ensures { OnOk result (self.new ≡ syncs doer self.old) }
    {
        let trail = self.past.trail(doer.strand);
        self.load_before_sync(doer, trail)?;
        self.put_trail(doer.strand, Trail::Synced);
        Ok(())
    }

    /// A word is loaded.
    fn load(&mut self, doer: Doer, touch: Touch, linked: bool) -> Result<(), NoMemory>
        ensures { OnOk result (self.new ≡ loads doer touch linked self.old) }
    {
        if linked {
            return self.load_linked(doer, touch);
        }
        self.begin_to_load(doer, touch)?;
        self.put_trail(doer.strand, Trail::Loaded(touch, doer.stamp));
        Ok(())
    }

    /// A word is stored.
    fn store(&mut self, doer: Doer, touch: Touch, releasing: bool) -> Result<(), NoMemory>
        ensures { OnOk result (self.new ≡ stores doer touch releasing self.old) }
    {
        if releasing {
            return self.store_releasing(doer, touch);
        }
        self.note(doer.stamp, &[Done::touches(doer.strand, touch)])
    }

    /// A word is stored, if the processor was linked to it.
    fn store_if(&mut self, doer: Doer, touch: Touch, stored: bool) -> Result<(), NoMemory>
        ensures { OnOk result (self.new ≡ stores_if doer touch stored self.old) }
    {
        if stored {
            return self.store_releasing(doer, touch);
        }
        Ok(())
    }

    /// A word is loaded or stored, linked or not, after a SYNC or not.
    fn access_by(
        &mut self,
        doer: Doer,
        touch: Touch,
        kind: AccessKind,
        linked: bool,
        synced: bool,
    ) -> Result<(), NoMemory>
        ensures { OnOk result (self.new ≡ accesses_by doer touch kind linked synced self.old) }
    {
        match kind {
            AccessKind::Loads => self.load(doer, touch, linked),
            AccessKind::Stores => self.store(doer, touch, synced),
            AccessKind::StoresIfLinked(stored) => self.store_if(doer, touch, stored),
        }
    }

    /// A word is loaded or stored.
    fn access(&mut self, doer: Doer, access: &Access) -> Result<(), NoMemory>
        ensures { OnOk result (self.new ≡ accesses doer access.now self.old) }
    {
        let touch = touch_at(
            access.address,
            size_of(access.size),
            does_store(access.kind),
        );
        let synced = is_synced(self.past.trail(doer.strand));
        self.settle(doer.strand)?;
        self.access_by(doer, touch, access.kind, access.links, synced)
    }

    /// An instruction is done.
    pub(crate) fn execute(&mut self, doer: Doer, done: &Instruction) -> Result<(), NoMemory>
        ensures { OnOk result (self.new ≡ executes doer done.now self.old) }
    {
        if is_sync(&done.insn) {
            return self.sync(doer);
        }
        match done.access {
            Some(access) => self.access(doer, &access),
            None => Ok(()),
        }
    }

    /// The run ends: no SYNC follows what is still loaded.
    pub(crate) fn settle_all(&mut self) -> Result<(), NoMemory>
        ensures { OnOk result (self.new ≡ settles_below 416 self.old) }
    {
        for strand in 0..416u16 {
            self.settle(strand)?;
        }
        Ok(())
    }
}
