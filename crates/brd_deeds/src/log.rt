//! What is done in an event, one thing after the other.

ghost use Rattle.std.specs.Prelude.{◌≡◌, OnOk};
ghost use Rattle.brd_deeds.specs.Past.{
  acquires,
  heeds,
  hears,
  notes,
  releases,
  touches,
  with_hold,
  with_ring,
  with_trail,
};

use crate::past::{Hold, Past, Ring, Stamp, Trail};
use crate::thing::Thing;
use brd_base::{List, NoMemory};
use brd_order::{Act, Deed, Touch};

/// What a strand does.
#[derive(Clone, Copy)]
pub(crate) struct Done {
    /// Who.
    pub strand: u16,
    /// What.
    pub act: Act,
}

/// Who does something, and where.
#[derive(Clone, Copy)]
pub(crate) struct Doer {
    /// The strand.
    pub strand: u16,
    /// The processor.
    pub cpu: u8,
    /// The event, and the instruction.
    pub stamp: Stamp,
}

/// The deeds so far of an event, and what is remembered after them.
pub struct Log {
    pub(crate) past: Past,
    pub(crate) deeds: List<Deed>,
}

/// Written out, so that a function that lets one go is proved with a call, and not with the end of each part.
impl Drop for Log {
    fn drop(self) {
        let Log { past: _, deeds: _ } = self;
    }
}

impl Done {
    /// A strand touches a word.
    pub(crate) fn touches(strand: u16, touch: Touch) -> Done
        ensures { result ≡ touches strand touch }
    {
        Done {
            strand,
            act: Act::Touches(touch),
        }
    }

    /// A strand acquires from a thing.
    pub(crate) fn acquires(strand: u16, thing: Thing) -> Done
        ensures { result ≡ acquires strand thing }
    {
        Done {
            strand,
            act: Act::Acquires(thing.number()),
        }
    }

    /// A strand releases into a thing.
    pub(crate) fn releases(strand: u16, thing: Thing) -> Done
        ensures { result ≡ releases strand thing }
    {
        Done {
            strand,
            act: Act::Releases(thing.number()),
        }
    }

    /// A strand hears what was released into a thing.
    pub(crate) fn hears(strand: u16, thing: Thing) -> Done
        ensures { result ≡ hears strand thing }
    {
        Done {
            strand,
            act: Act::Hears(thing.number()),
        }
    }

    /// A strand acquires what it heard last.
    pub(crate) fn heeds(strand: u16) -> Done
        ensures { result ≡ heeds strand }
    {
        Done {
            strand,
            act: Act::Heeds,
        }
    }
}

impl Log {
    /// Puts what is done in an event at the end.
    pub(crate) fn note(&mut self, stamp: Stamp, dones: &[Done]) -> Result<(), NoMemory>
        ensures { OnOk result (self.new ≡ notes stamp dones.now self.old) }
    {
        for done in dones {
            self.deeds.push(Deed {
                strand: done.strand,
                act: done.act,
                event: stamp.event,
                place: stamp.place,
            })?;
        }
        Ok(())
    }

    /// From now on a strand has this trail.
    pub(crate) fn put_trail(&mut self, strand: u16, trail: Trail)
        ensures { self.new ≡ with_trail strand trail self.old }
    {
        self.past.trails.put(strand as usize, trail);
    }

    /// From now on this is set on a processor.
    pub(crate) fn put_hold(&mut self, cpu: u8, hold: Hold)
        ensures { self.new ≡ with_hold cpu hold self.old }
    {
        self.past.holds.put(cpu as usize, hold);
    }

    /// From now on a data queue has these places.
    pub(crate) fn put_ring(&mut self, id: u32, ring: Ring)
        ensures { self.new ≡ with_ring id ring self.old }
    {
        self.past.rings.put(id as usize, ring);
    }
}
