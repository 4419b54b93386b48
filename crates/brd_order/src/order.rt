//! The order of deeds, as they are done.

ghost use Rattle.std.specs.Prelude.{◌≡◌, ◌++◌, ◌∷◌, ◌+◌, ◌^◌, ◌<◌, ℕ, [], List as ListOf, IfErr, IfOk, OnOk};
ghost use Rattle.brd_order.specs.declared.deed.Deed.{Deed as DeedOf};
ghost use Rattle.brd_order.specs.declared.deed.Act.TheVariants.{Acquires as AcquiresOf, Releases as ReleasesOf};
ghost use Rattle.brd_order.specs.declared.deed.Act.TheVariants.{Hears as HearsOf, Heeds as HeedsOf};
ghost use Rattle.brd_order.specs.Races.{AreRaces, deed_of};
ghost use Rattle.brd_order.specs.After.{IsAfter};
ghost use Rattle.brd_order.specs.Refusals.{IsKept, MayRefuse};

use crate::deed::{Act, Deed, Mark, Race};
use crate::fault::OrderFault;
use crate::marks::Marks;
use crate::races::Races;
use crate::strands::Strands;
use crate::things::Things;
use brd_base::NoMemory;
use std::alloc::Global;

/// The order of the deeds that were done so far, and the first race of each word.
#[derive(Drop)]
pub struct Order {
    pub(crate) strands: Strands,
    /// What each strand has heard.
    pub(crate) heard: Strands,
    pub(crate) things: Things,
    pub(crate) marks: Marks,
    pub(crate) races: Races,
    pub(crate) count: u64,
    alloc: Global,
}

impl Order {
    /// Nothing was done.
    pub fn new(alloc: Global) -> Result<Order, NoMemory>
        ensures after { IfOk result (IsAfter []) }
        ensures kept { IfOk result (IsKept 0) }
    {
        Ok(Order {
            strands: Strands::new(alloc),
            heard: Strands::new(alloc),
            things: Things::new(alloc),
            marks: Marks::new(alloc)?,
            races: Races::new(alloc),
            count: 0,
            alloc,
        })
    }

    /// Takes the next deed. After a fault nothing is known any more.
    pub fn take(&mut self, deed: Deed) -> Result<(), OrderFault>
        ensures after { (deeds : ListOf DeedOf) → IsAfter deeds self.old →
            OnOk result (IsAfter (deeds ++ deed ∷ []) self.new) }
        ensures kept { (n : ℕ) → IsKept n self.old → OnOk result (IsKept (n + 1) self.new) }
        ensures refuses { (n : ℕ) → IsKept n self.old → IfErr result (MayRefuse n) }
    {
        if self.count == u64::MAX {
            return Err(OrderFault::TooManyDeeds);
        }
        match deed.act {
            Act::Touches(touch) => self.touch(Mark {
                at: self.count,
                strand: deed.strand,
                touch,
                event: deed.event,
                place: deed.place,
            }),
            Act::Acquires(thing) => self.acquire(deed, thing),
            Act::Releases(thing) => self.release(deed, thing),
            Act::Hears(thing) => self.hear(deed, thing),
            Act::Heeds => self.heed(deed),
        }
    }

    /// The first race of each word that has one, in the order of the later touches.
    pub fn races(&self) -> &[Race]
        ensures { (deeds : ListOf DeedOf) → IsAfter deeds self.now → AreRaces deeds result.now }
    {
        self.races.told.as_slice()
    }

    /// Takes a deed that acquires.
    fn acquire(&mut self, deed: Deed, thing: u64) -> Result<(), OrderFault>
        requires act { deed.act ≡ AcquiresOf thing }
        requires count { self.old.count + 1 < 2 ^ 64 }
        ensures after { (deeds : ListOf DeedOf) → IsAfter deeds self.old →
            OnOk result (IsAfter (deeds ++ deed ∷ []) self.new) }
        ensures kept { (n : ℕ) → IsKept n self.old → OnOk result (IsKept (n + 1) self.new) }
        ensures refuses { (n : ℕ) → IsKept n self.old → IfErr result (MayRefuse n) }
    {
        self.strands.extend(self.alloc, deed.strand)?;
        self.strands.acquire(deed.strand, &self.things, thing)?;
        self.count += 1;
        self.strands.put(deed.strand, self.count)?;
        Ok(())
    }

    /// Takes a deed that releases.
    fn release(&mut self, deed: Deed, thing: u64) -> Result<(), OrderFault>
        requires act { deed.act ≡ ReleasesOf thing }
        requires count { self.old.count + 1 < 2 ^ 64 }
        ensures after { (deeds : ListOf DeedOf) → IsAfter deeds self.old →
            OnOk result (IsAfter (deeds ++ deed ∷ []) self.new) }
        ensures kept { (n : ℕ) → IsKept n self.old → OnOk result (IsKept (n + 1) self.new) }
        ensures refuses { (n : ℕ) → IsKept n self.old → IfErr result (MayRefuse n) }
    {
        self.strands.extend(self.alloc, deed.strand)?;
        self.count += 1;
        self.strands.put(deed.strand, self.count)?;
        self.things.give(thing, self.strands.clock(deed.strand))
    }

    /// Takes a deed that hears.
    fn hear(&mut self, deed: Deed, thing: u64) -> Result<(), OrderFault>
        requires act { deed.act ≡ HearsOf thing }
        requires count { self.old.count + 1 < 2 ^ 64 }
        ensures after { (deeds : ListOf DeedOf) → IsAfter deeds self.old →
            OnOk result (IsAfter (deeds ++ deed ∷ []) self.new) }
        ensures kept { (n : ℕ) → IsKept n self.old → OnOk result (IsKept (n + 1) self.new) }
        ensures refuses { (n : ℕ) → IsKept n self.old → IfErr result (MayRefuse n) }
    {
        self.strands.extend(self.alloc, deed.strand)?;
        self.heard.extend(self.alloc, deed.strand)?;
        self.heard.hear(deed.strand, &self.things, thing)?;
        self.count += 1;
        self.strands.put(deed.strand, self.count)?;
        Ok(())
    }

    /// Takes a deed that heeds.
    fn heed(&mut self, deed: Deed) -> Result<(), OrderFault>
        requires act { deed.act ≡ HeedsOf }
        requires count { self.old.count + 1 < 2 ^ 64 }
        ensures after { (deeds : ListOf DeedOf) → IsAfter deeds self.old →
            OnOk result (IsAfter (deeds ++ deed ∷ []) self.new) }
        ensures kept { (n : ℕ) → IsKept n self.old → OnOk result (IsKept (n + 1) self.new) }
        ensures refuses { (n : ℕ) → IsKept n self.old → IfErr result (MayRefuse n) }
    {
        self.strands.extend(self.alloc, deed.strand)?;
        self.heard.extend(self.alloc, deed.strand)?;
        let heard = self.heard.clock(deed.strand);
        self.strands.join(deed.strand, heard)?;
        self.count += 1;
        self.strands.put(deed.strand, self.count)?;
        Ok(())
    }

    /// Takes a deed that touches a word.
    fn touch(&mut self, new: Mark) -> Result<(), OrderFault>
        requires at { new.at ≡ self.old.count }
        requires count { self.old.count + 1 < 2 ^ 64 }
        ensures after { (deeds : ListOf DeedOf) → IsAfter deeds self.old →
            OnOk result (IsAfter (deeds ++ deed_of new ∷ []) self.new) }
        ensures kept { (n : ℕ) → IsKept n self.old → OnOk result (IsKept (n + 1) self.new) }
        ensures refuses { (n : ℕ) → IsKept n self.old → IfErr result (MayRefuse n) }
    {
        self.strands.extend(self.alloc, new.strand)?;
        self.count += 1;
        self.strands.put(new.strand, self.count)?;
        let found = self.marks.last_unknown(self.strands.clock(new.strand), new);
        self.races.tell(found, new)?;
        self.marks.put(new)
    }
}
