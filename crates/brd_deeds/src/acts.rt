//! What orders tasks and handlers: what is released into, and who acquires from it.

ghost use Rattle.std.specs.Prelude.{◌≡◌, ◌<◌, OnOk};
ghost use Rattle.brd_deeds.specs.Acts.{
  acquires_cpu,
  acquires_from,
  alarm_strand,
  asks_to_start,
  begins_started,
  begins_to_load,
  block_of,
  comes_to_meet,
  cyclic_strand,
  disables_dispatching,
  enables_dispatching,
  ends_handler,
  frees_spin_lock,
  gets_bit,
  gets_bits,
  gets_block,
  gets_datum,
  gets_unit,
  gives_block_back,
  gives_mutex_back,
  gives_spin_lock_back,
  gives_unit,
  goes_on,
  halts,
  has_bit,
  has_started,
  leaves_room,
  lets_go_on,
  loads_acquiring,
  loads_linked,
  locks_by_spin_lock,
  locks_cpu,
  meets_other,
  message_in,
  receives_message,
  releases_cpu,
  releases_dispatching,
  releases_into,
  resumes,
  sends_datum,
  sends_message,
  sets_bit,
  sets_bits,
  starts,
  starts_alarm,
  starts_cyclic,
  stores_releasing,
  takes_mutex,
  takes_room,
  takes_spin_lock,
  takes_starts_back,
  takes_wake_up,
  unlocks_cpu,
  wakes_up,
  with_dispatching,
  with_lock,
};

use crate::log::{Doer, Done, Log};
use crate::past::{Hold, Stamp};
use crate::thing::{Thing, ThingKind};
use crate::touch::synchronizing;
use brd_base::NoMemory;
use brd_board::Board;
use brd_order::Touch;

/// Whether a pattern has a bit.
fn has_bit(pattern: u32, bit: u16) -> bool
    requires { bit < 32 }
    ensures { result ≡ has_bit pattern bit }
{
    (pattern >> bit) % 2 == 1
}

/// A block of a memory pool.
fn block_of(pool: u32, address: u32) -> Thing
    ensures { result ≡ block_of pool address }
{
    Thing::part(ThingKind::Block, address, (pool % 65_536) as u16)
}

/// A message of a mailbox.
fn message_in(mailbox: u32, address: u32) -> Thing
    ensures { result ≡ message_in mailbox address }
{
    Thing::part(ThingKind::Message, address, (mailbox % 65_536) as u16)
}

/// The strand of the cyclic handler of an ID.
fn cyclic_strand(id: u32) -> u32
    ensures { result ≡ cyclic_strand id }
{
    286 + 2 * (id % 65_536)
}

/// The strand of the alarm handler of an ID.
fn alarm_strand(id: u32) -> u32
    ensures { result ≡ alarm_strand id }
{
    287 + 2 * (id % 65_536)
}

/// Whether a task has no start queued: one that was asked for has taken place.
fn has_started(after: &Board, task: u16) -> bool
    ensures { result ≡ has_started after.now task }
{
    match after.task(task) {
        Some(view) => view.activations == 0,
        None => false,
    }
}

impl Log {
    /// Who executes releases into a thing.
    fn release(&mut self, doer: Doer, kind: ThingKind, id: u32) -> Result<(), NoMemory>
        ensures { OnOk result (self.new ≡ releases_into doer kind id self.old) }
    {
        self.note(
            doer.stamp,
            &[Done::releases(doer.strand, Thing::whole(kind, id))],
        )
    }

    /// Who executes acquires from a thing.
    fn acquire(&mut self, doer: Doer, kind: ThingKind, id: u32) -> Result<(), NoMemory>
        ensures { OnOk result (self.new ≡ acquires_from doer kind id self.old) }
    {
        self.note(
            doer.stamp,
            &[Done::acquires(doer.strand, Thing::whole(kind, id))],
        )
    }

    /// A unit is returned to a semaphore.
    pub(crate) fn give_unit(&mut self, doer: Doer, id: u32) -> Result<(), NoMemory>
        ensures { OnOk result (self.new ≡ gives_unit doer id self.old) }
    {
        self.release(doer, ThingKind::Semaphore, id)
    }

    /// A unit of a semaphore is taken.
    pub(crate) fn get_unit(&mut self, doer: Doer, id: u32) -> Result<(), NoMemory>
        ensures { OnOk result (self.new ≡ gets_unit doer id self.old) }
    {
        self.acquire(doer, ThingKind::Semaphore, id)
    }

    /// A mutex is given back.
    pub(crate) fn give_mutex_back(&mut self, doer: Doer, id: u32) -> Result<(), NoMemory>
        ensures { OnOk result (self.new ≡ gives_mutex_back doer id self.old) }
    {
        self.release(doer, ThingKind::Mutex, id)
    }

    /// A mutex is taken.
    pub(crate) fn take_mutex(&mut self, doer: Doer, id: u32) -> Result<(), NoMemory>
        ensures { OnOk result (self.new ≡ takes_mutex doer id self.old) }
    {
        self.acquire(doer, ThingKind::Mutex, id)
    }

    /// A block of a memory pool is given back.
    pub(crate) fn give_block_back(
        &mut self,
        doer: Doer,
        pool: u32,
        address: u32,
    ) -> Result<(), NoMemory>
        ensures { OnOk result (self.new ≡ gives_block_back doer pool address self.old) }
    {
        let thing = block_of(pool, address);
        self.note(doer.stamp, &[Done::releases(doer.strand, thing)])
    }

    /// A block of a memory pool is taken.
    pub(crate) fn get_block(&mut self, doer: Doer, pool: u32, address: u32) -> Result<(), NoMemory>
        ensures { OnOk result (self.new ≡ gets_block doer pool address self.old) }
    {
        let thing = block_of(pool, address);
        self.note(doer.stamp, &[Done::acquires(doer.strand, thing)])
    }

    /// A message is sent to a mailbox.
    pub(crate) fn send_message(
        &mut self,
        doer: Doer,
        mailbox: u32,
        address: u32,
    ) -> Result<(), NoMemory>
        ensures { OnOk result (self.new ≡ sends_message doer mailbox address self.old) }
    {
        let thing = message_in(mailbox, address);
        self.note(doer.stamp, &[Done::releases(doer.strand, thing)])
    }

    /// A message is received from a mailbox.
    pub(crate) fn receive_message(
        &mut self,
        doer: Doer,
        mailbox: u32,
        address: u32,
    ) -> Result<(), NoMemory>
        ensures { OnOk result (self.new ≡ receives_message doer mailbox address self.old) }
    {
        let thing = message_in(mailbox, address);
        self.note(doer.stamp, &[Done::acquires(doer.strand, thing)])
    }

    /// A bit of an event flag is set, if a pattern has it.
    fn set_bit(&mut self, doer: Doer, id: u32, bits: u32, bit: u16) -> Result<(), NoMemory>
        requires { bit < 32 }
        ensures { OnOk result (self.new ≡ sets_bit doer id bits bit self.old) }
    {
        if has_bit(bits, bit) {
            let thing = Thing::part(ThingKind::FlagBit, id, bit);
            return self.note(doer.stamp, &[Done::releases(doer.strand, thing)]);
        }
        Ok(())
    }

    /// Bits of an event flag are set.
    pub(crate) fn set_bits(&mut self, doer: Doer, id: u32, bits: u32) -> Result<(), NoMemory>
        ensures { OnOk result (self.new ≡ sets_bits doer id bits self.old) }
    {
        for bit in 0..32u16 {
            self.set_bit(doer, id, bits, bit)?;
        }
        Ok(())
    }

    /// A bit of an event flag was waited for, and set, if a pattern has it.
    fn get_bit(&mut self, doer: Doer, id: u32, bits: u32, bit: u16) -> Result<(), NoMemory>
        requires { bit < 32 }
        ensures { OnOk result (self.new ≡ gets_bit doer id bits bit self.old) }
    {
        if has_bit(bits, bit) {
            let thing = Thing::part(ThingKind::FlagBit, id, bit);
            return self.note(doer.stamp, &[Done::acquires(doer.strand, thing)]);
        }
        Ok(())
    }

    /// Bits of an event flag were waited for, and set in its pattern.
    pub(crate) fn get_bits(
        &mut self,
        doer: Doer,
        id: u32,
        waited: u32,
        pattern: u32,
    ) -> Result<(), NoMemory>
        ensures { OnOk result (self.new ≡ gets_bits doer id waited pattern self.old) }
    {
        let bits = waited & pattern;
        for bit in 0..32u16 {
            self.get_bit(doer, id, bits, bit)?;
        }
        Ok(())
    }

    /// A datum goes into a place of a data queue.
    pub(crate) fn send_datum(&mut self, doer: Doer, id: u32, place: u16) -> Result<(), NoMemory>
        ensures { OnOk result (self.new ≡ sends_datum doer id place self.old) }
    {
        let thing = Thing::part(ThingKind::Datum, id, place);
        self.note(doer.stamp, &[Done::releases(doer.strand, thing)])
    }

    /// The datum in a place of a data queue is received.
    pub(crate) fn get_datum(&mut self, doer: Doer, id: u32, place: u16) -> Result<(), NoMemory>
        ensures { OnOk result (self.new ≡ gets_datum doer id place self.old) }
    {
        let thing = Thing::part(ThingKind::Datum, id, place);
        self.note(doer.stamp, &[Done::acquires(doer.strand, thing)])
    }

    /// A place of a data queue becomes free.
    pub(crate) fn leave_room(&mut self, doer: Doer, id: u32, place: u16) -> Result<(), NoMemory>
        ensures { OnOk result (self.new ≡ leaves_room doer id place self.old) }
    {
        let thing = Thing::part(ThingKind::Room, id, place);
        self.note(doer.stamp, &[Done::releases(doer.strand, thing)])
    }

    /// A place of a data queue is used.
    pub(crate) fn take_room(&mut self, doer: Doer, id: u32, place: u16) -> Result<(), NoMemory>
        ensures { OnOk result (self.new ≡ takes_room doer id place self.old) }
    {
        let thing = Thing::part(ThingKind::Room, id, place);
        self.note(doer.stamp, &[Done::acquires(doer.strand, thing)])
    }

    /// A sender or a receiver over a data queue of capacity 0 makes its call.
    pub(crate) fn come_to_meet(&mut self, doer: Doer) -> Result<(), NoMemory>
        ensures { OnOk result (self.new ≡ comes_to_meet doer self.old) }
    {
        self.release(doer, ThingKind::Meeting, u32::from(doer.strand))
    }

    /// A task that waited over a data queue of capacity 0 is met.
    pub(crate) fn meet_other(&mut self, second: u16, doer: Doer) -> Result<(), NoMemory>
        ensures { OnOk result (self.new ≡ meets_other second doer self.old) }
    {
        let waited = Thing::whole(ThingKind::Meeting, u32::from(doer.strand));
        let came = Thing::whole(ThingKind::Meeting, u32::from(second));
        self.note(
            doer.stamp,
            &[
                Done::acquires(second, waited),
                Done::acquires(doer.strand, came),
            ],
        )
    }

    /// A spin lock is given back.
    fn free_spin_lock(&mut self, doer: Doer, id: u32) -> Result<(), NoMemory>
        ensures { OnOk result (self.new ≡ frees_spin_lock doer id self.old) }
    {
        self.release(doer, ThingKind::SpinLock, id)
    }

    /// A spin lock is taken.
    fn take_spin_lock(&mut self, doer: Doer, id: u32) -> Result<(), NoMemory>
        ensures { OnOk result (self.new ≡ takes_spin_lock doer id self.old) }
    {
        self.acquire(doer, ThingKind::SpinLock, id)
    }

    /// A processor's CPU lock, or its handler, ends.
    fn release_cpu(&mut self, doer: Doer) -> Result<(), NoMemory>
        ensures { OnOk result (self.new ≡ releases_cpu doer self.old) }
    {
        self.release(doer, ThingKind::Processor, u32::from(doer.cpu))
    }

    /// A processor's CPU lock, or its handler, begins.
    pub(crate) fn acquire_cpu(&mut self, doer: Doer) -> Result<(), NoMemory>
        ensures { OnOk result (self.new ≡ acquires_cpu doer self.old) }
    {
        self.acquire(doer, ThingKind::Processor, u32::from(doer.cpu))
    }

    /// From now on a processor is CPU-locked, or not.
    pub(crate) fn put_lock(&mut self, locked: bool, doer: Doer)
        ensures { self.new ≡ with_lock locked doer self.old }
    {
        let hold = self.past.hold(doer.cpu);
        self.put_hold(doer.cpu, Hold { locked, ..hold });
    }

    /// A processor is CPU-locked no more.
    pub(crate) fn unlock_cpu(&mut self, doer: Doer) -> Result<(), NoMemory>
        ensures { OnOk result (self.new ≡ unlocks_cpu doer self.old) }
    {
        if self.past.hold(doer.cpu).locked {
            self.release_cpu(doer)?;
        }
        self.put_lock(false, doer);
        Ok(())
    }

    /// A processor is CPU-locked.
    pub(crate) fn lock_cpu(&mut self, doer: Doer) -> Result<(), NoMemory>
        ensures { OnOk result (self.new ≡ locks_cpu doer self.old) }
    {
        self.acquire_cpu(doer)?;
        self.put_lock(true, doer);
        Ok(())
    }

    /// A spin lock is given back, and its processor is CPU-locked no more.
    pub(crate) fn give_spin_lock_back(&mut self, doer: Doer, id: u32) -> Result<(), NoMemory>
        ensures { OnOk result (self.new ≡ gives_spin_lock_back doer id self.old) }
    {
        self.free_spin_lock(doer, id)?;
        self.release_cpu(doer)?;
        self.put_lock(false, doer);
        Ok(())
    }

    /// A handler ends, and with it the CPU lock of its processor.
    pub(crate) fn end_handler(&mut self, doer: Doer) -> Result<(), NoMemory>
        ensures { OnOk result (self.new ≡ ends_handler doer self.old) }
    {
        self.release_cpu(doer)?;
        self.put_lock(false, doer);
        Ok(())
    }

    /// A spin lock is taken, and its processor is CPU-locked.
    pub(crate) fn lock_by_spin_lock(&mut self, doer: Doer, id: u32) -> Result<(), NoMemory>
        ensures { OnOk result (self.new ≡ locks_by_spin_lock doer id self.old) }
    {
        self.take_spin_lock(doer, id)?;
        self.acquire_cpu(doer)?;
        self.put_lock(true, doer);
        Ok(())
    }

    /// From now on dispatching is disabled on a processor, or not.
    fn put_dispatching(&mut self, disabled: bool, doer: Doer)
        ensures { self.new ≡ with_dispatching disabled doer self.old }
    {
        let hold = self.past.hold(doer.cpu);
        self.put_hold(doer.cpu, Hold { disabled, ..hold });
    }

    /// Dispatching is enabled.
    pub(crate) fn enable_dispatching(&mut self, doer: Doer) -> Result<(), NoMemory>
        ensures { OnOk result (self.new ≡ enables_dispatching doer self.old) }
    {
        if self.past.hold(doer.cpu).disabled {
            self.release(doer, ThingKind::Dispatching, u32::from(doer.cpu))?;
        }
        self.put_dispatching(false, doer);
        Ok(())
    }

    /// Dispatching is disabled.
    pub(crate) fn disable_dispatching(&mut self, doer: Doer) -> Result<(), NoMemory>
        ensures { OnOk result (self.new ≡ disables_dispatching doer self.old) }
    {
        self.acquire(doer, ThingKind::Dispatching, u32::from(doer.cpu))?;
        self.put_dispatching(true, doer);
        Ok(())
    }

    /// A task starts.
    pub(crate) fn start(&mut self, stamp: Stamp, task: u16) -> Result<(), NoMemory>
        ensures { OnOk result (self.new ≡ starts stamp task self.old) }
    {
        let thing = Thing::whole(ThingKind::Start, u32::from(task));
        self.note(stamp, &[Done::acquires(task, thing)])
    }

    /// A start is asked for; where it takes place the task begins after that.
    pub(crate) fn ask_to_start(
        &mut self,
        doer: Doer,
        task: u16,
        after: &Board,
    ) -> Result<(), NoMemory>
        ensures { OnOk result (self.new ≡ asks_to_start doer task after.now self.old) }
    {
        self.release(doer, ThingKind::Start, u32::from(task))?;
        if has_started(after, task) {
            return self.start(doer.stamp, task);
        }
        Ok(())
    }

    /// Starts that were asked for are taken back.
    pub(crate) fn take_starts_back(&mut self, doer: Doer, task: u16) -> Result<(), NoMemory>
        ensures { OnOk result (self.new ≡ takes_starts_back doer task self.old) }
    {
        self.acquire(doer, ThingKind::Start, u32::from(task))
    }

    /// A cyclic handler is started.
    pub(crate) fn start_cyclic(&mut self, doer: Doer, id: u32) -> Result<(), NoMemory>
        ensures { OnOk result (self.new ≡ starts_cyclic doer id self.old) }
    {
        self.release(doer, ThingKind::Handler, cyclic_strand(id))
    }

    /// An alarm handler is started.
    pub(crate) fn start_alarm(&mut self, doer: Doer, id: u32) -> Result<(), NoMemory>
        ensures { OnOk result (self.new ≡ starts_alarm doer id self.old) }
    {
        self.release(doer, ThingKind::Handler, alarm_strand(id))
    }

    /// A handler begins, after its starts.
    pub(crate) fn begin_started(&mut self, doer: Doer) -> Result<(), NoMemory>
        ensures { OnOk result (self.new ≡ begins_started doer self.old) }
    {
        self.acquire(doer, ThingKind::Handler, u32::from(doer.strand))
    }

    /// A task is woken up.
    pub(crate) fn wake_up(&mut self, doer: Doer, task: u16) -> Result<(), NoMemory>
        ensures { OnOk result (self.new ≡ wakes_up doer task self.old) }
    {
        self.release(doer, ThingKind::WakeUp, u32::from(task))
    }

    /// A task's wake-up is taken, by itself or back.
    pub(crate) fn take_wake_up(&mut self, doer: Doer, task: u16) -> Result<(), NoMemory>
        ensures { OnOk result (self.new ≡ takes_wake_up doer task self.old) }
    {
        self.acquire(doer, ThingKind::WakeUp, u32::from(task))
    }

    /// A task's wait or suspension is ended.
    pub(crate) fn let_go_on(&mut self, doer: Doer, task: u16) -> Result<(), NoMemory>
        ensures { OnOk result (self.new ≡ lets_go_on doer task self.old) }
    {
        self.release(doer, ThingKind::Going, u32::from(task))
    }

    /// A task goes on.
    pub(crate) fn go_on(&mut self, stamp: Stamp, task: u16) -> Result<(), NoMemory>
        ensures { OnOk result (self.new ≡ goes_on stamp task self.old) }
    {
        let thing = Thing::whole(ThingKind::Going, u32::from(task));
        self.note(stamp, &[Done::acquires(task, thing)])
    }

    /// A task is resumed, and goes on.
    pub(crate) fn resume(&mut self, doer: Doer, task: u16) -> Result<(), NoMemory>
        ensures { OnOk result (self.new ≡ resumes doer task self.old) }
    {
        self.let_go_on(doer, task)?;
        self.go_on(doer.stamp, task)
    }

    /// A task is ended or suspended.
    pub(crate) fn halt(&mut self, doer: Doer, task: u16) -> Result<(), NoMemory>
        ensures { OnOk result (self.new ≡ halts doer task self.old) }
    {
        let thing = Thing::whole(ThingKind::Halt, u32::from(task));
        self.note(
            doer.stamp,
            &[
                Done::releases(task, thing),
                Done::acquires(doer.strand, thing),
            ],
        )
    }

    /// A word is stored to, by SC or after a SYNC.
    pub(crate) fn store_releasing(&mut self, doer: Doer, touch: Touch) -> Result<(), NoMemory>
        ensures { OnOk result (self.new ≡ stores_releasing doer touch self.old) }
    {
        let thing = Thing::whole(ThingKind::Word, touch.word);
        self.note(
            doer.stamp,
            &[
                Done::touches(doer.strand, synchronizing(touch)),
                Done::releases(doer.strand, thing),
            ],
        )
    }

    /// A word is loaded by LL.
    pub(crate) fn load_linked(&mut self, doer: Doer, touch: Touch) -> Result<(), NoMemory>
        ensures { OnOk result (self.new ≡ loads_linked doer touch self.old) }
    {
        let thing = Thing::whole(ThingKind::Word, touch.word);
        self.note(
            doer.stamp,
            &[
                Done::acquires(doer.strand, thing),
                Done::touches(doer.strand, synchronizing(touch)),
            ],
        )
    }

    /// A word is loaded, maybe before a SYNC.
    pub(crate) fn begin_to_load(&mut self, doer: Doer, touch: Touch) -> Result<(), NoMemory>
        ensures { OnOk result (self.new ≡ begins_to_load doer touch self.old) }
    {
        let thing = Thing::whole(ThingKind::Word, touch.word);
        self.note(doer.stamp, &[Done::hears(doer.strand, thing)])
    }

    /// A word was loaded there, and a SYNC follows.
    pub(crate) fn load_acquiring(
        &mut self,
        doer: Doer,
        touch: Touch,
        loaded: Stamp,
    ) -> Result<(), NoMemory>
        ensures { OnOk result (self.new ≡ loads_acquiring doer touch loaded self.old) }
    {
        self.note(doer.stamp, &[Done::heeds(doer.strand)])?;
        self.note(loaded, &[Done::touches(doer.strand, synchronizing(touch))])
    }
}
