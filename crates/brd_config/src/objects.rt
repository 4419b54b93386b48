//! What a configuration says of each kernel object.

use crate::attributes::{
    CyclicAttributes, FlagAttributes, MailboxAttributes, PoolAttributes, QueueAttributes,
    SemaphoreAttributes, TaskAttributes,
};
use brd_base::List;

/// A number, or the name of a symbol of the image, whose value it then is.
#[derive(Drop)]
pub enum Operand {
    Number(u32),
    Name(List<u8>),
}

/// Where a task's stack lies, or the area of a memory pool.
#[derive(Drop)]
pub enum Stack {
    /// `NULL`: laid from the end of RAM downward.
    Automatic,
    /// From this address upward.
    At(Operand),
}

/// A task, as `CRE_TSK` says it.
#[derive(Drop)]
pub struct TaskConfig {
    /// 1 to 255.
    pub id: u16,
    /// The processor that it is assigned to: 1 to the board's number of them.
    pub processor: u8,
    pub attributes: TaskAttributes,
    /// Its argument.
    pub exinf: Operand,
    /// Where it starts.
    pub address: Operand,
    /// Its initial priority: 1 to 16, 1 the highest.
    pub priority: u8,
    /// In bytes, not 0.
    pub stack_size: u32,
    pub stack: Stack,
}

/// A semaphore, as `CRE_SEM` says it.
#[derive(Drop)]
pub struct SemaphoreConfig {
    /// 1 to 255.
    pub id: u16,
    pub attributes: SemaphoreAttributes,
    /// The count at boot: up to the maximum.
    pub initial: u16,
    /// The greatest count: not 0.
    pub maximum: u16,
}

/// An event flag, as `CRE_FLG` says it.
#[derive(Drop)]
pub struct FlagConfig {
    /// 1 to 255.
    pub id: u16,
    pub attributes: FlagAttributes,
    /// The bit pattern at boot.
    pub pattern: u32,
}

/// A data queue, as `CRE_DTQ` says it.
#[derive(Drop)]
pub struct QueueConfig {
    /// 1 to 255.
    pub id: u16,
    pub attributes: QueueAttributes,
    /// How many data it holds: up to 256, 0 for none.
    pub capacity: u16,
}

/// A spin lock, as `CRE_SPN` says it.
#[derive(Drop)]
pub struct SpinLockConfig {
    /// 1 to 255.
    pub id: u8,
}

/// In which order tasks wait for a mutex, and what it does to the priority of who has it.
#[derive(Clone, Copy, PartialEq, Eq)]
pub enum Protocol {
    /// They wait by arrival (TA_TFIFO).
    Arrival,
    /// They wait by priority (TA_TPRI).
    Priority,
    /// They wait by priority, and who has it has no lower priority than they (TA_INHERIT).
    Inherit,
    /// They wait by priority, and who has it has no lower priority than its ceiling (TA_CEILING).
    Ceiling,
}

/// A mutex, as `CRE_MTX` says it.
#[derive(Drop)]
pub struct MutexConfig {
    /// 1 to 255.
    pub id: u16,
    pub protocol: Protocol,
    /// Up to 16; with TA_CEILING from 1.
    pub ceiling: u8,
}

/// A fixed memory pool, as `CRE_MPF` says it.
#[derive(Drop)]
pub struct PoolConfig {
    /// 1 to 255.
    pub id: u16,
    pub attributes: PoolAttributes,
    /// How many blocks it has: 1 to 256.
    pub count: u16,
    /// How many bytes a block has at least: 1 to the size of RAM.
    pub size: u32,
    /// Where its blocks lie.
    pub area: Stack,
}

/// A mailbox, as `CRE_MBX` says it.
#[derive(Drop)]
pub struct MailboxConfig {
    /// 1 to 255.
    pub id: u16,
    pub attributes: MailboxAttributes,
    /// How many priorities its messages have, 1 the highest: 1 to 16. Without TA_MPRI it has no effect.
    pub priorities: u8,
}

/// A cyclic handler, as `CRE_CYC` says it.
#[derive(Drop)]
pub struct CyclicConfig {
    /// 1 to 64.
    pub id: u16,
    /// The processor on which it runs.
    pub processor: u8,
    pub attributes: CyclicAttributes,
    /// Its argument.
    pub exinf: Operand,
    /// Where it starts.
    pub address: Operand,
    /// How many ticks pass from one time to the next: 1 to 0x7fff_ffff.
    pub period: u32,
    /// How many ticks pass from boot to the first time, where its times are counted from boot: up to 0x7fff_ffff.
    pub phase: u32,
}

/// An alarm handler, as `CRE_ALM` says it.
#[derive(Drop)]
pub struct AlarmConfig {
    /// 1 to 64.
    pub id: u16,
    /// The processor on which it runs.
    pub processor: u8,
    /// Its argument.
    pub exinf: Operand,
    /// Where it starts.
    pub address: Operand,
}

/// An interrupt handler, as `DEF_INH` says it.
#[derive(Drop)]
pub struct HandlerConfig {
    /// The interrupt line: up to 31.
    pub line: u8,
    /// The processor that takes the line's interrupts.
    pub processor: u8,
    /// Where it starts.
    pub address: Operand,
}
