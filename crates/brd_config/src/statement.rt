//! The statements of the language, with their numbers as they are written.

use crate::objects::{Operand, Stack};

#[derive(Drop)]
pub(crate) enum Statement {
    /// `BOARD(processors, ram);`
    Board(u32, u32),
    /// `CLASS(TCL_processor) {`
    Class(u32),
    /// `}`
    ClassEnd,
    Task(TaskStatement),
    Semaphore(SemaphoreStatement),
    Flag(FlagStatement),
    Queue(QueueStatement),
    SpinLock(SpinLockStatement),
    Mutex(MutexStatement),
    Pool(PoolStatement),
    Mailbox(MailboxStatement),
    Cyclic(CyclicStatement),
    Alarm(AlarmStatement),
    Handler(HandlerStatement),
}

/// `CRE_TSK(id, {attributes, exinf, address, priority, stack_size, stack});`
#[derive(Drop)]
pub(crate) struct TaskStatement {
    pub(crate) id: u32,
    pub(crate) attributes: u32,
    pub(crate) exinf: Operand,
    pub(crate) address: Operand,
    pub(crate) priority: u32,
    pub(crate) stack_size: u32,
    pub(crate) stack: Stack,
}

/// `CRE_SEM(id, {attributes, initial, maximum});`
#[derive(Drop)]
pub(crate) struct SemaphoreStatement {
    pub(crate) id: u32,
    pub(crate) attributes: u32,
    pub(crate) initial: u32,
    pub(crate) maximum: u32,
}

/// `CRE_FLG(id, {attributes, pattern});`
#[derive(Drop)]
pub(crate) struct FlagStatement {
    pub(crate) id: u32,
    pub(crate) attributes: u32,
    pub(crate) pattern: u32,
}

/// `CRE_DTQ(id, {attributes, capacity, area});`, whose area has no effect.
#[derive(Drop)]
pub(crate) struct QueueStatement {
    pub(crate) id: u32,
    pub(crate) attributes: u32,
    pub(crate) capacity: u32,
}

/// `CRE_SPN(id, {attributes});`
#[derive(Drop)]
pub(crate) struct SpinLockStatement {
    pub(crate) id: u32,
    pub(crate) attributes: u32,
}

/// `CRE_MTX(id, {protocol, ceiling});`
#[derive(Drop)]
pub(crate) struct MutexStatement {
    pub(crate) id: u32,
    pub(crate) protocol: u32,
    pub(crate) ceiling: u32,
}

/// `CRE_MPF(id, {attributes, count, size, area});`
#[derive(Drop)]
pub(crate) struct PoolStatement {
    pub(crate) id: u32,
    pub(crate) attributes: u32,
    pub(crate) count: u32,
    pub(crate) size: u32,
    pub(crate) area: Stack,
}

/// `CRE_MBX(id, {attributes, priorities, NULL});`
#[derive(Drop)]
pub(crate) struct MailboxStatement {
    pub(crate) id: u32,
    pub(crate) attributes: u32,
    pub(crate) priorities: u32,
}

/// `CRE_CYC(id, {attributes, exinf, address, period, phase});`
#[derive(Drop)]
pub(crate) struct CyclicStatement {
    pub(crate) id: u32,
    pub(crate) attributes: u32,
    pub(crate) exinf: Operand,
    pub(crate) address: Operand,
    pub(crate) period: u32,
    pub(crate) phase: u32,
}

/// `CRE_ALM(id, {attributes, exinf, address});`
#[derive(Drop)]
pub(crate) struct AlarmStatement {
    pub(crate) id: u32,
    pub(crate) attributes: u32,
    pub(crate) exinf: Operand,
    pub(crate) address: Operand,
}

/// `DEF_INH(line, {attributes, address});`
#[derive(Drop)]
pub(crate) struct HandlerStatement {
    pub(crate) line: u32,
    pub(crate) attributes: u32,
    pub(crate) address: Operand,
}

/// The token with which a statement begins.
#[derive(Clone, Copy)]
pub enum Keyword {
    Board,
    Class,
    Task,
    Semaphore,
    Flag,
    Queue,
    SpinLock,
    Mutex,
    Pool,
    Mailbox,
    Cyclic,
    Alarm,
    Handler,
}

/// Which names a statement has for its attributes.
#[derive(Clone, Copy)]
pub(crate) enum AttributeNames {
    /// Those that all objects share but mutexes, mailboxes and cyclic handlers.
    Common,
    /// Those of mailboxes.
    Mailbox,
    /// Those of cyclic handlers.
    Cyclic,
}
