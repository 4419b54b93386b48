//! The service calls of spin locks, each as its row of the table says.

ghost use Rattle.std.specs.Prelude.{◌≡◌, false, true, IfErr, IfOk};
ghost use Rattle.brd_kernel.specs.declared.call.Ercd.TheVariants.{Id, Noexs};
ghost use Rattle.brd_kernel.specs.declared.call.Call.TheVariants as call;
ghost use Rattle.brd_kernel.specs.Kernel.{spin_of};
ghost use Rattle.brd_kernel.specs.Row.{Serves, served, or_fault};
ghost use Rattle.brd_kernel.specs.Services as table;
ghost use Rattle.brd_kernel.specs.Services.{is_no_id, is_taken, lock_taken, lock_given, comes_again};

use super::Kernel;
use super::serve::OK;
use crate::call::{Call, Ercd, Reply};
use crate::processor::{Spin, holds};

impl Kernel {
    pub(super) fn loc_spn(&mut self, cpu: u8, id: u32) -> Result<Reply, Ercd>
        ensures { Serves self.old self.new result (served (table.loc_spn self.old cpu id)) }
    {
        let id = spin_id(id)?;
        let lock = self.spin_lock(id)?;
        if is_taken(lock) {
            return Ok(Reply::Again);
        }
        self.take_lock(cpu, id);
        Ok(OK)
    }

    pub(super) fn try_spn(&mut self, cpu: u8, id: u32) -> Result<Reply, Ercd>
        ensures { Serves self.old self.new result (served (table.try_spn self.old cpu id)) }
    {
        let id = spin_id(id)?;
        let lock = self.spin_lock(id)?;
        if is_taken(lock) {
            return Err(Ercd::Obj);
        }
        self.take_lock(cpu, id);
        Ok(OK)
    }

    pub(super) fn unl_spn(&mut self, cpu: u8, id: u32) -> Result<Reply, Ercd>
        ensures { Serves self.old self.new result (served (table.unl_spn self.old cpu id)) }
    {
        let id = spin_id(id)?;
        let _ = self.spin_lock(id)?;
        if !holds(self.processor(cpu), id) {
            return Err(Ercd::Iluse);
        }
        self.give_lock(cpu);
        Ok(OK)
    }

    /// Whether a call is to be made again: it asks for a spin lock that is held.
    pub fn comes_again(&self, call: Call) -> bool
        ensures { result ≡ comes_again self.now call }
    {
        match call {
            Call::LocSpn(id) => self.is_taken(id),
            _ => false,
        }
    }

    /// Whether there is a spin lock of this ID, and is held.
    fn is_taken(&self, id: u32) -> bool
        ensures { result ≡ comes_again self.now (call.LocSpn id) }
    {
        let Ok(id) = spin_id(id) else { return false };
        match self.spin(id) {
            Some(lock) => is_taken(lock),
            None => false,
        }
    }

    /// The spin lock of an ID, or E_NOEXS.
    fn spin_lock(&self, id: u8) -> Result<Spin, Ercd>
        ensures { result ≡ or_fault Noexs (spin_of self.now id) }
    {
        match self.spin(id) {
            Some(lock) => Ok(lock),
            None => Err(Ercd::Noexs),
        }
    }

    /// A processor takes a spin lock, which CPU-locks it.
    fn take_lock(&mut self, cpu: u8, id: u8)
        ensures { self.new ≡ lock_taken self.old cpu id }
    {
        let Some(processor) = self.processor(cpu) else {
            return
        };
        self.put_processor(cpu, processor.holding(id));
    }

    /// A processor gives its spin lock back, and is no longer CPU-locked.
    fn give_lock(&mut self, cpu: u8)
        ensures { self.new ≡ lock_given self.old cpu }
    {
        let Some(processor) = self.processor(cpu) else {
            return
        };
        self.put_processor(cpu, processor.letting_go());
    }
}

/// The ID of a spin lock, from 1 to 255, or E_ID.
#[tactic(auto, unfolding(crate::specs::Services::is_no_id))]
fn spin_id(id: u32) -> Result<u8, Ercd>
    ensures ok { IfOk result (λ n. (n ≡ id) × (is_no_id id ≡ false)) }
    ensures err { IfErr result (λ code. (code ≡ Id) × (is_no_id id ≡ true)) }
{
    if id == 0 || id > 255 {
        return Err(Ercd::Id);
    }
    Ok(id as u8)
}

/// Whether a spin lock is held.
fn is_taken(lock: Spin) -> bool
    ensures { result ≡ is_taken lock }
{
    match lock {
        Spin::Free => false,
        Spin::Held(_) => true,
    }
}
