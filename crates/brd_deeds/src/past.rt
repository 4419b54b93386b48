//! What is remembered of a run while its deeds are listed.

ghost use Rattle.std.specs.Prelude.{◌≡◌, IfOk};
ghost use Rattle.brd_deeds.specs.Past.{free, hold_in, past_of, ring_in, ring_of, trail_in, with_rings};

use crate::table::Table;
use brd_base::NoMemory;
use brd_config::QueueConfig;
use brd_order::Touch;
use std::alloc::Global;

/// Where something is done.
#[derive(Clone, Copy)]
pub struct Stamp {
    /// The position of the event.
    pub event: u64,
    /// The address of the instruction, 0 where there is none.
    pub place: u32,
}

/// What a task or a handler has done last that a SYNC may make something of.
#[derive(Clone, Copy)]
pub enum Trail {
    /// Nothing.
    Nothing,
    /// A SYNC, and no access since.
    Synced,
    /// This load, there.
    Loaded(Touch, Stamp),
}

/// What a task or a handler has set on a processor.
#[derive(Clone, Copy)]
pub struct Hold {
    /// It is CPU-locked, by loc_cpu, iloc_cpu or a spin lock.
    pub locked: bool,
    /// Dispatching is disabled.
    pub disabled: bool,
}

/// The places of a data queue.
#[derive(Clone, Copy)]
pub struct Ring {
    /// How many there are.
    pub capacity: u16,
    /// That of the oldest datum.
    pub first: u16,
    /// In how many there is a datum.
    pub stored: u16,
}

/// What is remembered of a run.
pub struct Past {
    /// Of tasks and handlers, by their strand.
    pub(crate) trails: Table<Trail>,
    /// Of processors, by their number.
    pub(crate) holds: Table<Hold>,
    /// Of data queues, by their ID.
    pub(crate) rings: Table<Ring>,
}

/// Written out, so that a function that lets one go is proved with a call, and not with the end of each part.
impl Drop for Past {
    fn drop(self) {
        let Past {
            trails: _,
            holds: _,
            rings: _,
        } = self;
    }
}

impl Hold {
    /// Nothing is set.
    pub(crate) fn free() -> Hold
        ensures { result ≡ free }
    {
        Hold {
            locked: false,
            disabled: false,
        }
    }
}

impl Ring {
    /// No place has a datum.
    fn new(capacity: u16) -> Ring
        ensures { result ≡ ring_of capacity }
    {
        Ring {
            capacity,
            first: 0,
            stored: 0,
        }
    }
}

impl Past {
    /// At the boot of a board with these data queues.
    pub(crate) fn new(alloc: Global, queues: &[QueueConfig]) -> Result<Past, NoMemory>
        ensures { IfOk result (λ past. past ≡ past_of queues.now) }
    {
        let mut rings = Table::new(alloc, 256, Ring::new(0))?;
        put_rings(&mut rings, queues);
        Ok(Past {
            trails: Table::new(alloc, 416, Trail::Nothing)?,
            holds: Table::new(alloc, 9, Hold::free())?,
            rings,
        })
    }

    /// What a task or a handler has done.
    pub(crate) fn trail(&self, strand: u16) -> Trail
        ensures { result ≡ trail_in self.now strand }
    {
        self.trails.get(strand as usize, Trail::Nothing)
    }

    /// What is set on a processor.
    pub(crate) fn hold(&self, cpu: u8) -> Hold
        ensures { result ≡ hold_in self.now cpu }
    {
        self.holds.get(cpu as usize, Hold::free())
    }

    /// The places of a data queue.
    pub(crate) fn ring(&self, id: u32) -> Ring
        ensures { result ≡ ring_in self.now id }
    {
        self.rings.get(id as usize, Ring::new(0))
    }
}

/// Puts the places of data queues at their IDs.
fn put_rings(rings: &mut Table<Ring>, queues: &[QueueConfig])
    ensures { rings.new ≡ with_rings rings.old queues.now }
{
    for queue in queues {
        rings.put(queue.id as usize, Ring::new(queue.capacity));
    }
}
