//! What a snapshot keeps of a kernel.

ghost use Rattle.std.specs.Prelude.{◌≡◌, IfOk};

use super::{CONSOLE_SIZE, Kernel};
use crate::common::Common;
use brd_base::NoMemory;
use brd_objects::{
    SavedFlags, SavedMailboxes, SavedMutexes, SavedPools, SavedQueues, SavedSemaphores,
};
use std::marker::Model;

/// A kernel that has room for nothing but what it holds: no more waiting tasks, data and console output. So a snapshot
/// takes no memory for room, which with many objects is nearly all that a kernel takes.
pub struct SavedKernel {
    common: Common,
    semaphores: SavedSemaphores,
    flags: SavedFlags,
    queues: SavedQueues,
    mutexes: SavedMutexes,
    pools: SavedPools,
    mailboxes: SavedMailboxes,
}

impl Model for SavedKernel {
    ghost use Rattle.brd_kernel.specs.Kernel.{KernelState};
    ghost use Rattle.brd_kernel.specs.Common.{kernel_of, IsCommon};

    ghost Value = { KernelState };

    ghost view = { λ k. kernel_of k.common k.semaphores k.flags k.queues k.mutexes k.pools k.mailboxes };

    ghost invariant = { λ k.
        IsCommon k.common (kernel_of k.common k.semaphores k.flags k.queues k.mutexes k.pools k.mailboxes) };
}

/// Written out, so that a function that lets one go is proved with a call, and not with the end of each part.
impl Drop for SavedKernel {
    fn drop(self) {
        let SavedKernel {
            common: _,
            semaphores: _,
            flags: _,
            queues: _,
            mutexes: _,
            pools: _,
            mailboxes: _,
        } = self;
    }
}

impl Kernel {
    /// The same kernel without room.
    pub fn save(&self) -> Result<SavedKernel, NoMemory>
        ensures { IfOk result (λ saved. saved ≡ self.now) }
    {
        Ok(SavedKernel {
            common: self.common.copy(0)?,
            semaphores: self.semaphores.save()?,
            flags: self.flags.save()?,
            queues: self.queues.save()?,
            mutexes: self.mutexes.save()?,
            pools: self.pools.save()?,
            mailboxes: self.mailboxes.save()?,
        })
    }
}

impl SavedKernel {
    /// The same kernel with room.
    pub fn restore(&self) -> Result<Kernel, NoMemory>
        ensures { IfOk result (λ kernel. kernel ≡ self.now) }
    {
        Ok(Kernel {
            common: self.common.copy(CONSOLE_SIZE)?,
            semaphores: self.semaphores.restore()?,
            flags: self.flags.restore()?,
            queues: self.queues.restore()?,
            mutexes: self.mutexes.restore()?,
            pools: self.pools.restore()?,
            mailboxes: self.mailboxes.restore()?,
        })
    }
}
