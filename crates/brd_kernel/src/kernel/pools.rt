//! Fixed memory pools: the service calls, each as its row of the table says.

ghost use Rattle.std.specs.Prelude.{◌≡◌, ◌<◌};
ghost use Rattle.brd_kernel.specs.Row.{Serves, served};
ghost use Rattle.brd_kernel.specs.Services as table;
ghost use Rattle.brd_kernel.specs.Services.{pool_words};

use super::Kernel;
use super::profile::id_or_none;
use super::serve::{OK, id_in_range};
use super::waits::is_bad_timeout;
use crate::call::{Ercd, Reply};
use brd_objects::Pool;
use brd_tasks::{TaskId, WaitKind, WaitReason};

impl Kernel {
    pub(super) fn tget_mpf(&mut self, caller: TaskId, id: u32, timeout: u32) -> Result<Reply, Ercd>
        requires { caller < 256 }
        ensures { Serves self.old self.new result (served (table.tget_mpf self.old caller id timeout)) }
    {
        let id = id_in_range(id)?;
        if is_bad_timeout(timeout) {
            return Err(Ercd::Par);
        }
        if self.pools.pool(id).is_none() {
            return Err(Ercd::Noexs);
        }
        if let Some(block) = self.pools.get(id) {
            return Ok(Reply::Answer(0, Some(block)));
        }
        if timeout == 0 {
            return Err(Ercd::Tmout);
        }
        if self.can_wait(caller) {
            let due = self.due_by(timeout);
            let priority = self.priority(caller);
            self.pools.wait(id, caller, priority);
            self.block(caller, WaitReason::On(WaitKind::Block, id), due);
        }
        Ok(Reply::Silent)
    }

    pub(super) fn rel_mpf(&mut self, id: u32, block: u32) -> Result<Reply, Ercd>
        ensures { Serves self.old self.new result (served (table.rel_mpf self.old id block)) }
    {
        let id = id_in_range(id)?;
        let Some(pool) = self.pools.pool(id) else {
            return Err(Ercd::Noexs);
        };
        if !pool.is_out(block) {
            return Err(Ercd::Par);
        }
        if let Some(task) = self.pools.give(id, block) {
            self.release(task, 0, Some(block));
        }
        Ok(OK)
    }

    pub(super) fn ref_mpf(&self, id: u32, word: u32) -> Result<Reply, Ercd>
        ensures { Serves self.now self.now result (served (table.ref_mpf self.now id word)) }
    {
        let id = id_in_range(id)?;
        if word > 1 {
            return Err(Ercd::Par);
        }
        let Some(pool) = self.pools.pool(id) else {
            return Err(Ercd::Noexs);
        };
        let words = pool_words(pool);
        Ok(Reply::Answer(0, Some(words[word as usize])))
    }
}

/// The words of T_RMPF.
fn pool_words(pool: &Pool) -> [u32; 2]
    ensures { result ≡ pool_words pool.now }
{
    [id_or_none(pool.first()), pool.free() as u32]
}
