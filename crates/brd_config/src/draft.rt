//! What the statements so far have said.

use crate::objects::{
    AlarmConfig, CyclicConfig, FlagConfig, HandlerConfig, MailboxConfig, MutexConfig, PoolConfig,
    QueueConfig, SemaphoreConfig, SpinLockConfig, TaskConfig,
};
use brd_base::List;

/// A configuration that is not finished yet.
#[derive(Drop)]
pub struct Draft {
    pub standard: bool,
    pub processors: u8,
    pub ram: u32,
    pub tasks: List<TaskConfig>,
    pub semaphores: List<SemaphoreConfig>,
    pub flags: List<FlagConfig>,
    pub queues: List<QueueConfig>,
    pub spin_locks: List<SpinLockConfig>,
    pub mutexes: List<MutexConfig>,
    pub pools: List<PoolConfig>,
    pub mailboxes: List<MailboxConfig>,
    pub cyclics: List<CyclicConfig>,
    pub alarms: List<AlarmConfig>,
    pub handlers: List<HandlerConfig>,
    /// The processor of the class in which the next statement stands.
    pub class: Option<u8>,
}
