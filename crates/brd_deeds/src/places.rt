//! The places of data queues.

ghost use Rattle.std.specs.Prelude.{◌≡◌, ◌<◌, OnOk};
ghost use Rattle.brd_deeds.specs.Places.{
  begins_to_wait,
  comes_in,
  comes_in_for_oldest,
  forces,
  goes_out,
  is_full,
  meets_if,
  next_place,
  receives,
  receives_at_last,
  sends,
  sends_at_last,
  with_datum,
  without_oldest,
};

use crate::log::{Doer, Log};
use crate::past::Ring;
use brd_base::NoMemory;

impl Ring {
    /// The place of the next datum.
    fn next_place(self) -> u16
        requires { 0 < self.capacity }
        ensures { result ≡ next_place self }
    {
        ((u32::from(self.first) + u32::from(self.stored)) % u32::from(self.capacity)) as u16
    }

    /// Whether each place has a datum.
    fn is_full(self) -> bool
        ensures { result ≡ is_full self }
    {
        self.stored == self.capacity
    }

    /// The places with a datum more.
    fn with_datum(self) -> Ring
        ensures { result ≡ with_datum self }
    {
        if self.stored < self.capacity {
            return Ring {
                stored: self.stored + 1,
                ..self
            };
        }
        self
    }

    /// The places without the oldest datum.
    fn without_oldest(self) -> Ring
        requires { 0 < self.capacity }
        ensures { result ≡ without_oldest self }
    {
        Ring {
            first: ((u32::from(self.first) + 1) % u32::from(self.capacity)) as u16,
            stored: self.stored.saturating_sub(1),
            ..self
        }
    }
}

impl Log {
    /// A datum comes into a data queue.
    fn come_in(&mut self, doer: Doer, id: u32, ring: Ring) -> Result<(), NoMemory>
        requires { 0 < ring.capacity }
        ensures { OnOk result (self.new ≡ comes_in doer id ring self.old) }
    {
        self.take_room(doer, id, ring.next_place())?;
        self.send_datum(doer, id, ring.next_place())?;
        self.put_ring(id, ring.with_datum());
        Ok(())
    }

    /// A datum comes into a full data queue, which drops its oldest one.
    fn come_in_for_oldest(&mut self, doer: Doer, id: u32, ring: Ring) -> Result<(), NoMemory>
        requires { 0 < ring.capacity }
        ensures { OnOk result (self.new ≡ comes_in_for_oldest doer id ring self.old) }
    {
        let left = ring.without_oldest();
        self.send_datum(doer, id, left.next_place())?;
        self.put_ring(id, left.with_datum());
        Ok(())
    }

    /// The oldest datum goes out of a data queue.
    fn go_out(&mut self, doer: Doer, id: u32, ring: Ring) -> Result<(), NoMemory>
        requires { 0 < ring.capacity }
        ensures { OnOk result (self.new ≡ goes_out doer id ring self.old) }
    {
        self.get_datum(doer, id, ring.first)?;
        self.leave_room(doer, id, ring.first)?;
        self.put_ring(id, ring.without_oldest());
        Ok(())
    }

    /// A datum is sent at once.
    pub(crate) fn send(&mut self, doer: Doer, id: u32) -> Result<(), NoMemory>
        ensures { OnOk result (self.new ≡ sends doer id self.old) }
    {
        let ring = self.past.ring(id);
        if ring.capacity == 0 {
            return self.come_to_meet(doer);
        }
        self.come_in(doer, id, ring)
    }

    /// A datum is forced in.
    pub(crate) fn force(&mut self, doer: Doer, id: u32) -> Result<(), NoMemory>
        ensures { OnOk result (self.new ≡ forces doer id self.old) }
    {
        let ring = self.past.ring(id);
        if ring.capacity == 0 {
            return self.come_to_meet(doer);
        }
        if ring.is_full() {
            return self.come_in_for_oldest(doer, id, ring);
        }
        self.come_in(doer, id, ring)
    }

    /// A datum is received at once.
    pub(crate) fn receive(&mut self, doer: Doer, id: u32) -> Result<(), NoMemory>
        ensures { OnOk result (self.new ≡ receives doer id self.old) }
    {
        let ring = self.past.ring(id);
        if ring.capacity == 0 {
            return self.come_to_meet(doer);
        }
        self.go_out(doer, id, ring)
    }

    /// A task begins to wait over a data queue.
    pub(crate) fn begin_to_wait(&mut self, doer: Doer, id: u32) -> Result<(), NoMemory>
        ensures { OnOk result (self.new ≡ begins_to_wait doer id self.old) }
    {
        if self.past.ring(id).capacity == 0 {
            return self.come_to_meet(doer);
        }
        Ok(())
    }

    /// A task that waited is met by who makes a call, if somebody does.
    fn meet_if(&mut self, caller: Option<u16>, doer: Doer) -> Result<(), NoMemory>
        ensures { OnOk result (self.new ≡ meets_if caller doer self.old) }
    {
        match caller {
            Some(second) => self.meet_other(second, doer),
            None => Ok(()),
        }
    }

    /// A task that waited to send has sent.
    pub(crate) fn send_at_last(
        &mut self,
        caller: Option<u16>,
        doer: Doer,
        id: u32,
    ) -> Result<(), NoMemory>
        ensures { OnOk result (self.new ≡ sends_at_last caller doer id self.old) }
    {
        if self.past.ring(id).capacity == 0 {
            return self.meet_if(caller, doer);
        }
        self.send(doer, id)
    }

    /// A task that waited to receive has received.
    pub(crate) fn receive_at_last(
        &mut self,
        caller: Option<u16>,
        doer: Doer,
        id: u32,
    ) -> Result<(), NoMemory>
        ensures { OnOk result (self.new ≡ receives_at_last caller doer id self.old) }
    {
        if self.past.ring(id).capacity == 0 {
            return self.meet_if(caller, doer);
        }
        self.receive(doer, id)
    }
}
