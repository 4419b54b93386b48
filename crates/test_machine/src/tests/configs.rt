//! Tasks and objects of which tests make kernels and tables.

use bitflags::Flags as Bits;
use brd_config::{
    FlagAttributes, FlagConfig, MailboxAttributes, MailboxConfig, PoolAttributes, QueueAttributes,
    QueueConfig, SemaphoreAttributes, SemaphoreConfig,
};
use brd_objects::PoolSetup;
use brd_tasks::TaskSetup;

/// Where each task begins.
pub const START: u32 = 0x8000_1000;

/// A task of this number, processor and priority. Its argument is its number.
pub fn setup(id: u16, cpu: u8, priority: u8) -> TaskSetup {
    TaskSetup {
        id,
        cpu,
        priority,
        exinf: id as u32,
        address: START,
        sp: 0x8000_8000,
    }
}

pub fn semaphore(id: u16, attributes: u32, initial: u16, maximum: u16) -> SemaphoreConfig {
    SemaphoreConfig {
        id,
        attributes: SemaphoreAttributes::from_bits_retain(attributes),
        initial,
        maximum,
    }
}

pub fn flag(id: u16, attributes: u32, pattern: u32) -> FlagConfig {
    FlagConfig {
        id,
        attributes: FlagAttributes::from_bits_retain(attributes),
        pattern,
    }
}

pub fn queue(id: u16, attributes: u32, capacity: u16) -> QueueConfig {
    QueueConfig {
        id,
        attributes: QueueAttributes::from_bits_retain(attributes),
        capacity,
    }
}

/// A memory pool whose blocks lie eight bytes apart.
pub fn pool(id: u16, attributes: u32, count: u16, start: u32) -> PoolSetup {
    PoolSetup {
        id,
        attributes: PoolAttributes::from_bits_retain(attributes),
        count,
        distance: 8,
        start,
    }
}

pub fn mailbox(id: u16, attributes: u32, priorities: u8) -> MailboxConfig {
    MailboxConfig {
        id,
        attributes: MailboxAttributes::from_bits_retain(attributes),
        priorities,
    }
}
