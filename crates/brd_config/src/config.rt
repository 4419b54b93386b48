//! A configuration.

ghost use Rattle.brd_config.specs.Configuration.{IsConfiguration};

use crate::objects::{
    AlarmConfig, CyclicConfig, FlagConfig, HandlerConfig, MailboxConfig, MutexConfig, PoolConfig,
    QueueConfig, SemaphoreConfig, SpinLockConfig, TaskConfig,
};
use brd_base::List;

/// What a configuration text says. Each value is within its limits, and IDs of one kind are distinct, as `valid` says.
pub struct Config {
    /// Whether the kernel has the profile, which `PROFILE(STANDARD);` asks for.
    pub standard: bool,
    /// How many processors the board has: 1 to 8.
    pub processors: u8,
    /// The size of RAM in bytes.
    pub ram: u32,
    /// The objects of each kind in the order of their statements.
    pub tasks: List<TaskConfig>,
    pub semaphores: List<SemaphoreConfig>,
    pub flags: List<FlagConfig>,
    pub queues: List<QueueConfig>,
    pub spin_locks: List<SpinLockConfig>,
    pub mutexes: List<MutexConfig>,
    pub pools: List<PoolConfig>,
    pub mailboxes: List<MailboxConfig>,
    pub cyclics: List<CyclicConfig>,
    pub alarms: List<AlarmConfig>,
    pub handlers: List<HandlerConfig>,
    ghost valid: { IsConfiguration
        (record {
          standard = standard;
          processors = processors;
          ram = ram;
          tasks = tasks;
          semaphores = semaphores;
          flags = flags;
          queues = queues;
          spin_locks = spin_locks;
          mutexes = mutexes;
          pools = pools;
          mailboxes = mailboxes;
          cyclics = cyclics;
          alarms = alarms;
          handlers = handlers;
        }) },
}

/// Written out, so that a function that lets one go is proved with a call, and not with the end of each part.
impl Drop for Config {
    fn drop(self) {
        let Config {
            standard: _,
            processors: _,
            ram: _,
            tasks: _,
            semaphores: _,
            flags: _,
            queues: _,
            spin_locks: _,
            mutexes: _,
            pools: _,
            mailboxes: _,
            cyclics: _,
            alarms: _,
            handlers: _,
        } = self;
    }
}
