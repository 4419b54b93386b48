//! What orders tasks and handlers.

ghost use Rattle.std.specs.Prelude.{◌≡◌, ◌≤◌};
ghost use Rattle.brd_deeds.specs.Things.{number_of, part_of, rank_of, whole};

/// What orders tasks and handlers, by its kind.
#[derive(Clone, Copy, PartialEq, Eq)]
pub enum ThingKind {
    /// A semaphore.
    Semaphore,
    /// A bit of an event flag.
    FlagBit,
    /// The datum in a place of a data queue.
    Datum,
    /// The room in a place of a data queue.
    Room,
    /// A strand, by its rendezvous over data queues of capacity 0.
    Meeting,
    /// A spin lock.
    SpinLock,
    /// A processor, by its CPU lock and its handlers.
    Processor,
    /// A processor's dispatching, by who disables it.
    Dispatching,
    /// A task, by its starts.
    Start,
    /// A task, by its wake-ups.
    WakeUp,
    /// A task, by the ends of its waits and suspensions.
    Going,
    /// A task, by its end or its suspension.
    Halt,
    /// The word at an address, by LL and SC and by SYNC.
    Word,
    /// A mutex.
    Mutex,
    /// A block of a memory pool.
    Block,
    /// A message of a mailbox.
    Message,
    /// A time handler, by its starts.
    Handler,
}

/// What orders tasks and handlers.
#[derive(Clone, Copy)]
pub struct Thing {
    /// Its kind.
    pub kind: ThingKind,
    /// Which of them: an ID, a strand (of a time handler too), a processor's number, or the address of a word, a block
    /// or a message.
    pub id: u32,
    /// Which part of it: a bit or a place; of a block or a message its pool or mailbox; 0 where it has none.
    pub part: u16,
}

impl Thing {
    /// A thing that has no parts.
    pub(crate) fn whole(kind: ThingKind, id: u32) -> Thing
        ensures { result ≡ whole kind id }
    {
        Thing { kind, id, part: 0 }
    }

    /// A part of a thing.
    pub(crate) fn part(kind: ThingKind, id: u32, part: u16) -> Thing
        ensures { result ≡ part_of kind id part }
    {
        Thing { kind, id, part }
    }

    /// A number that no other thing has.
    pub(crate) fn number(self) -> u64
        ensures { result ≡ number_of self }
    {
        (rank_of(self.kind) * 0x1_0000 + u64::from(self.part)) * 0x1_0000_0000 + u64::from(self.id)
    }
}

/// The place of a kind among all.
fn rank_of(kind: ThingKind) -> u64
    ensures is { result ≡ rank_of kind }
    ensures few { result ≤ 16 }
{
    match kind {
        ThingKind::Semaphore => 0,
        ThingKind::FlagBit => 1,
        ThingKind::Datum => 2,
        ThingKind::Room => 3,
        ThingKind::Meeting => 4,
        ThingKind::SpinLock => 5,
        ThingKind::Processor => 6,
        ThingKind::Dispatching => 7,
        ThingKind::Start => 8,
        ThingKind::WakeUp => 9,
        ThingKind::Going => 10,
        ThingKind::Halt => 11,
        ThingKind::Word => 12,
        ThingKind::Mutex => 13,
        ThingKind::Block => 14,
        ThingKind::Message => 15,
        ThingKind::Handler => 16,
    }
}
