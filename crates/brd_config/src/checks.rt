//! Statements to objects: each value within its limits, each ID new.

ghost use Rattle.std.specs.Prelude.{◌≡◌, ◌==◌, ◌≤◌, IfOk};
ghost use Rattle.std.specs.List.{list_any};
ghost use Rattle.brd_config.specs.Faults.{Gives};
ghost use Rattle.brd_config.specs.Configuration as configuration;
ghost use Rattle.brd_config.specs.Meaning as meaning;

use crate::attributes::{
    CyclicAttributes, FlagAttributes, MailboxAttributes, PoolAttributes, QueueAttributes,
    SemaphoreAttributes, TaskAttributes,
};
use crate::fault::ConfigFault;
use crate::objects::{
    AlarmConfig, CyclicConfig, FlagConfig, HandlerConfig, MailboxConfig, MutexConfig, PoolConfig,
    Protocol, QueueConfig, SemaphoreConfig, SpinLockConfig, TaskConfig,
};
use crate::statement::{
    AlarmStatement, CyclicStatement, FlagStatement, HandlerStatement, MailboxStatement,
    MutexStatement, PoolStatement, QueueStatement, SemaphoreStatement, SpinLockStatement,
    TaskStatement,
};
use bitflags::Flags;

/// The greatest number of ticks that a cyclic handler may have as its period or its phase.
const MOST_TICKS: u32 = 0x7fff_ffff;

/// The number, where it lies from `low` to `high`, else the fault.
#[tactic(auto, unfolding(crate::specs::Meaning::within))]
pub(crate) fn within(
    number: u32,
    low: u32,
    high: u32,
    fault: ConfigFault,
) -> Result<u32, ConfigFault>
    ensures read { Gives (λ n. n) result (meaning.within low high fault number) }
    ensures same { IfOk result (λ n. n ≡ number) }
    ensures most { IfOk result (λ n. n ≤ high) }
{
    if low <= number && number <= high {
        return Ok(number);
    }
    Err(fault)
}

/// The bits, where they are among those that are allowed, else the fault.
#[tactic(auto, unfolding(crate::specs::Meaning::only_bits))]
fn only_bits(bits: u32, allowed: u32, fault: ConfigFault) -> Result<u32, ConfigFault>
    ensures { Gives (λ n. n) result (meaning.only_bits allowed fault bits) }
{
    if bits & allowed == bits {
        return Ok(bits);
    }
    Err(fault)
}

/// Whether one of the tasks has this ID.
fn has_task(tasks: &[TaskConfig], id: u32) -> bool
    ensures { result ≡ list_any (λ other. other.id == id) tasks.now }
{
    tasks.iter().any(|other| other.id as u32 == id)
}

/// Whether one of the semaphores has this ID.
fn has_semaphore(semaphores: &[SemaphoreConfig], id: u32) -> bool
    ensures { result ≡ list_any (λ other. other.id == id) semaphores.now }
{
    semaphores.iter().any(|other| other.id as u32 == id)
}

/// Whether one of the flags has this ID.
fn has_flag(flags: &[FlagConfig], id: u32) -> bool
    ensures { result ≡ list_any (λ other. other.id == id) flags.now }
{
    flags.iter().any(|other| other.id as u32 == id)
}

/// Whether one of the queues has this ID.
fn has_queue(queues: &[QueueConfig], id: u32) -> bool
    ensures { result ≡ list_any (λ other. other.id == id) queues.now }
{
    queues.iter().any(|other| other.id as u32 == id)
}

/// Whether one of the spin locks has this ID.
fn has_spin_lock(spin_locks: &[SpinLockConfig], id: u32) -> bool
    ensures { result ≡ list_any (λ other. other.id == id) spin_locks.now }
{
    spin_locks.iter().any(|other| other.id as u32 == id)
}

/// Whether one of the mutexes has this ID.
fn has_mutex(mutexes: &[MutexConfig], id: u32) -> bool
    ensures { result ≡ list_any (λ other. other.id == id) mutexes.now }
{
    mutexes.iter().any(|other| other.id as u32 == id)
}

/// Whether one of the memory pools has this ID.
fn has_pool(pools: &[PoolConfig], id: u32) -> bool
    ensures { result ≡ list_any (λ other. other.id == id) pools.now }
{
    pools.iter().any(|other| other.id as u32 == id)
}

/// Whether one of the mailboxes has this ID.
fn has_mailbox(mailboxes: &[MailboxConfig], id: u32) -> bool
    ensures { result ≡ list_any (λ other. other.id == id) mailboxes.now }
{
    mailboxes.iter().any(|other| other.id as u32 == id)
}

/// Whether one of the cyclic handlers has this ID.
fn has_cyclic(cyclics: &[CyclicConfig], id: u32) -> bool
    ensures { result ≡ list_any (λ other. other.id == id) cyclics.now }
{
    cyclics.iter().any(|other| other.id as u32 == id)
}

/// Whether one of the alarm handlers has this ID.
fn has_alarm(alarms: &[AlarmConfig], id: u32) -> bool
    ensures { result ≡ list_any (λ other. other.id == id) alarms.now }
{
    alarms.iter().any(|other| other.id as u32 == id)
}

/// Whether one of the handlers has this line.
fn has_handler(handlers: &[HandlerConfig], line: u32) -> bool
    ensures { result ≡ list_any (λ other. other.line == line) handlers.now }
{
    handlers.iter().any(|other| other.line as u32 == line)
}

/// The ID, the attributes and the priority of the task of a statement that begins on this line, next to the tasks that
/// are defined. A stack of no bytes is refused.
#[tactic(auto, unfolding(crate::specs::Meaning::task_numbers))]
fn task_numbers(
    line: usize,
    tasks: &[TaskConfig],
    statement: &TaskStatement,
) -> Result<(u16, u32, u8), ConfigFault>
    ensures { Gives (λ x. x) result (meaning.task_numbers line tasks.now statement.now) }
{
    let id = within(statement.id, 1, 255, ConfigFault::BadId { line })?;
    if has_task(tasks, statement.id) {
        return Err(ConfigFault::Duplicate { line });
    }
    let attributes = only_bits(statement.attributes, 3, ConfigFault::BadAttribute { line })?;
    let priority = within(statement.priority, 1, 16, ConfigFault::BadPriority { line })?;
    if statement.stack_size == 0 {
        return Err(ConfigFault::BadCount { line });
    }
    Ok((id as u16, attributes, priority as u8))
}

/// The task of a statement that begins on this line, on this processor, next to the tasks that are defined.
#[tactic(auto, unfolding(crate::specs::Meaning::task_of))]
pub(crate) fn task(
    line: usize,
    tasks: &[TaskConfig],
    processor: u8,
    statement: TaskStatement,
) -> Result<TaskConfig, ConfigFault>
    ensures { Gives (λ t. t) result (meaning.task_of line tasks.now processor statement) }
{
    let (id, attributes, priority) = task_numbers(line, tasks, &statement)?;
    Ok(TaskConfig {
        id,
        processor,
        attributes: TaskAttributes::from_bits_retain(attributes),
        exinf: statement.exinf,
        address: statement.address,
        priority,
        stack_size: statement.stack_size,
        stack: statement.stack,
    })
}

/// The semaphore of a statement that begins on this line, next to the semaphores that are defined.
#[tactic(auto, unfolding(crate::specs::Meaning::semaphore_of))]
pub(crate) fn semaphore(
    line: usize,
    semaphores: &[SemaphoreConfig],
    statement: SemaphoreStatement,
) -> Result<SemaphoreConfig, ConfigFault>
    ensures { Gives (λ s. s) result (meaning.semaphore_of line semaphores.now statement) }
{
    let id = within(statement.id, 1, 255, ConfigFault::BadId { line })?;
    if has_semaphore(semaphores, statement.id) {
        return Err(ConfigFault::Duplicate { line });
    }
    let attributes = only_bits(statement.attributes, 1, ConfigFault::BadAttribute { line })?;
    let maximum = within(statement.maximum, 1, 65_535, ConfigFault::BadCount { line })?;
    let initial = within(
        statement.initial,
        0,
        statement.maximum,
        ConfigFault::BadCount { line },
    )?;
    Ok(SemaphoreConfig {
        id: id as u16,
        attributes: SemaphoreAttributes::from_bits_retain(attributes),
        initial: initial as u16,
        maximum: maximum as u16,
    })
}

/// The flag of a statement that begins on this line, next to the flags that are defined.
#[tactic(auto, unfolding(crate::specs::Meaning::flag_of))]
pub(crate) fn flag(
    line: usize,
    flags: &[FlagConfig],
    statement: FlagStatement,
) -> Result<FlagConfig, ConfigFault>
    ensures { Gives (λ f. f) result (meaning.flag_of line flags.now statement) }
{
    let id = within(statement.id, 1, 255, ConfigFault::BadId { line })?;
    if has_flag(flags, statement.id) {
        return Err(ConfigFault::Duplicate { line });
    }
    let attributes = only_bits(statement.attributes, 7, ConfigFault::BadAttribute { line })?;
    Ok(FlagConfig {
        id: id as u16,
        attributes: FlagAttributes::from_bits_retain(attributes),
        pattern: statement.pattern,
    })
}

/// The data queue of a statement that begins on this line, next to the queues that are defined.
#[tactic(auto, unfolding(crate::specs::Meaning::queue_of))]
pub(crate) fn queue(
    line: usize,
    queues: &[QueueConfig],
    statement: QueueStatement,
) -> Result<QueueConfig, ConfigFault>
    ensures { Gives (λ q. q) result (meaning.queue_of line queues.now statement) }
{
    let id = within(statement.id, 1, 255, ConfigFault::BadId { line })?;
    if has_queue(queues, statement.id) {
        return Err(ConfigFault::Duplicate { line });
    }
    let attributes = only_bits(statement.attributes, 1, ConfigFault::BadAttribute { line })?;
    let capacity = within(statement.capacity, 0, 256, ConfigFault::BadCount { line })?;
    Ok(QueueConfig {
        id: id as u16,
        attributes: QueueAttributes::from_bits_retain(attributes),
        capacity: capacity as u16,
    })
}

/// The spin lock of a statement that begins on this line, next to the spin locks that are defined.
#[tactic(auto, unfolding(crate::specs::Meaning::spin_lock_of))]
pub(crate) fn spin_lock(
    line: usize,
    spin_locks: &[SpinLockConfig],
    statement: SpinLockStatement,
) -> Result<SpinLockConfig, ConfigFault>
    ensures { Gives (λ s. s) result (meaning.spin_lock_of line spin_locks.now statement) }
{
    let id = within(statement.id, 1, 255, ConfigFault::BadId { line })?;
    if has_spin_lock(spin_locks, statement.id) {
        return Err(ConfigFault::Duplicate { line });
    }
    only_bits(statement.attributes, 0, ConfigFault::BadAttribute { line })?;
    Ok(SpinLockConfig { id: id as u8 })
}

/// What the attribute of a mutex stands for.
fn meant_protocol(number: u32) -> Protocol
    ensures { result ≡ meaning.meant_protocol number }
{
    match number {
        0 => Protocol::Arrival,
        1 => Protocol::Priority,
        2 => Protocol::Inherit,
        _ => Protocol::Ceiling,
    }
}

/// The least number that a mutex may have as its ceiling.
fn least_ceiling(protocol: Protocol) -> u32
    ensures { result ≡ configuration.least_ceiling protocol }
{
    match protocol {
        Protocol::Ceiling => 1,
        _ => 0,
    }
}

/// The mutex of a statement that begins on this line, next to the mutexes that are defined.
#[tactic(auto, unfolding(crate::specs::Meaning::mutex_of))]
pub(crate) fn mutex(
    line: usize,
    mutexes: &[MutexConfig],
    statement: MutexStatement,
) -> Result<MutexConfig, ConfigFault>
    ensures { Gives (λ m. m) result (meaning.mutex_of line mutexes.now statement) }
{
    let id = within(statement.id, 1, 255, ConfigFault::BadId { line })?;
    if has_mutex(mutexes, statement.id) {
        return Err(ConfigFault::Duplicate { line });
    }
    let number = within(statement.protocol, 0, 3, ConfigFault::BadAttribute { line })?;
    let least = least_ceiling(meant_protocol(statement.protocol));
    let ceiling = within(
        statement.ceiling,
        least,
        16,
        ConfigFault::BadPriority { line },
    )?;
    Ok(MutexConfig {
        id: id as u16,
        protocol: meant_protocol(number),
        ceiling: ceiling as u8,
    })
}

/// The memory pool of a statement that begins on this line, next to the pools that are defined, on a board with this
/// much RAM.
#[tactic(auto, unfolding(crate::specs::Meaning::pool_of))]
pub(crate) fn pool(
    line: usize,
    ram: u32,
    pools: &[PoolConfig],
    statement: PoolStatement,
) -> Result<PoolConfig, ConfigFault>
    ensures { Gives (λ p. p) result (meaning.pool_of line ram pools.now statement) }
{
    let id = within(statement.id, 1, 255, ConfigFault::BadId { line })?;
    if has_pool(pools, statement.id) {
        return Err(ConfigFault::Duplicate { line });
    }
    let attributes = only_bits(statement.attributes, 1, ConfigFault::BadAttribute { line })?;
    let count = within(statement.count, 1, 256, ConfigFault::BadCount { line })?;
    let size = within(statement.size, 1, ram, ConfigFault::BadCount { line })?;
    Ok(PoolConfig {
        id: id as u16,
        attributes: PoolAttributes::from_bits_retain(attributes),
        count: count as u16,
        size,
        area: statement.area,
    })
}

/// The mailbox of a statement that begins on this line, next to the mailboxes that are defined.
#[tactic(auto, unfolding(crate::specs::Meaning::mailbox_of))]
pub(crate) fn mailbox(
    line: usize,
    mailboxes: &[MailboxConfig],
    statement: MailboxStatement,
) -> Result<MailboxConfig, ConfigFault>
    ensures { Gives (λ m. m) result (meaning.mailbox_of line mailboxes.now statement) }
{
    let id = within(statement.id, 1, 255, ConfigFault::BadId { line })?;
    if has_mailbox(mailboxes, statement.id) {
        return Err(ConfigFault::Duplicate { line });
    }
    let attributes = only_bits(statement.attributes, 3, ConfigFault::BadAttribute { line })?;
    let priorities = within(
        statement.priorities,
        1,
        16,
        ConfigFault::BadPriority { line },
    )?;
    Ok(MailboxConfig {
        id: id as u16,
        attributes: MailboxAttributes::from_bits_retain(attributes),
        priorities: priorities as u8,
    })
}

/// The cyclic handler of a statement that begins on this line, on this processor, next to the cyclic handlers that are
/// defined.
#[tactic(auto, unfolding(crate::specs::Meaning::cyclic_of))]
pub(crate) fn cyclic(
    line: usize,
    cyclics: &[CyclicConfig],
    processor: u8,
    statement: CyclicStatement,
) -> Result<CyclicConfig, ConfigFault>
    ensures { Gives (λ c. c) result (meaning.cyclic_of line cyclics.now processor statement) }
{
    let id = within(statement.id, 1, 64, ConfigFault::BadId { line })?;
    if has_cyclic(cyclics, statement.id) {
        return Err(ConfigFault::Duplicate { line });
    }
    let attributes = only_bits(statement.attributes, 7, ConfigFault::BadAttribute { line })?;
    let period = within(
        statement.period,
        1,
        MOST_TICKS,
        ConfigFault::BadCount { line },
    )?;
    let phase = within(
        statement.phase,
        0,
        MOST_TICKS,
        ConfigFault::BadCount { line },
    )?;
    Ok(CyclicConfig {
        id: id as u16,
        processor,
        attributes: CyclicAttributes::from_bits_retain(attributes),
        exinf: statement.exinf,
        address: statement.address,
        period,
        phase,
    })
}

/// The alarm handler of a statement that begins on this line, on this processor, next to the alarm handlers that are
/// defined.
#[tactic(auto, unfolding(crate::specs::Meaning::alarm_of))]
pub(crate) fn alarm(
    line: usize,
    alarms: &[AlarmConfig],
    processor: u8,
    statement: AlarmStatement,
) -> Result<AlarmConfig, ConfigFault>
    ensures { Gives (λ a. a) result (meaning.alarm_of line alarms.now processor statement) }
{
    let id = within(statement.id, 1, 64, ConfigFault::BadId { line })?;
    if has_alarm(alarms, statement.id) {
        return Err(ConfigFault::Duplicate { line });
    }
    only_bits(statement.attributes, 1, ConfigFault::BadAttribute { line })?;
    Ok(AlarmConfig {
        id: id as u16,
        processor,
        exinf: statement.exinf,
        address: statement.address,
    })
}

/// The handler of a statement that begins on this line, on this processor, next to the handlers that are defined.
#[tactic(auto, unfolding(crate::specs::Meaning::handler_of))]
pub(crate) fn handler(
    line: usize,
    handlers: &[HandlerConfig],
    processor: u8,
    statement: HandlerStatement,
) -> Result<HandlerConfig, ConfigFault>
    ensures { Gives (λ h. h) result (meaning.handler_of line handlers.now processor statement) }
{
    let number = within(statement.line, 0, 31, ConfigFault::BadId { line })?;
    if has_handler(handlers, statement.line) {
        return Err(ConfigFault::Duplicate { line });
    }
    only_bits(statement.attributes, 1, ConfigFault::BadAttribute { line })?;
    Ok(HandlerConfig {
        line: number as u8,
        processor,
        address: statement.address,
    })
}
