//! Attributes of kernel objects, as sets of named bits.

ghost use Rattle.std.specs.Prelude.{⊤, [], ◌∷◌, codes};

use bitflags::{Flag, Flags, bitflag_items};

/// Attributes of a task.
#[derive(Clone, Copy, PartialEq, Eq)]
pub struct TaskAttributes(u32);

bitflag_items! {
    impl TaskAttributes: u32 {
        /// Written in assembly language; without effect.
        const TA_ASM = 1;
        /// Started at boot.
        const TA_ACT = 2;
    }
}

impl Flags for TaskAttributes {
    type Bits = u32;

    ghost exact = { ⊤ };

    ghost table = { (codes "TA_ASM", 1) ∷ (codes "TA_ACT", 2) ∷ [] };

    ghost set_of = { λ a. a.0 };

    fn flags<'a>() -> &'a [Flag<TaskAttributes>] {
        TaskAttributes::FLAGS
    }

    fn bits(&self) -> u32 {
        self.0
    }

    fn from_bits_retain(bits: u32) -> TaskAttributes {
        TaskAttributes(bits)
    }
}

/// Attributes of a semaphore.
#[derive(Clone, Copy, PartialEq, Eq)]
pub struct SemaphoreAttributes(u32);

bitflag_items! {
    impl SemaphoreAttributes: u32 {
        /// Tasks wait by priority, not by arrival.
        const TA_TPRI = 1;
    }
}

impl Flags for SemaphoreAttributes {
    type Bits = u32;

    ghost exact = { ⊤ };

    ghost table = { (codes "TA_TPRI", 1) ∷ [] };

    ghost set_of = { λ a. a.0 };

    fn flags<'a>() -> &'a [Flag<SemaphoreAttributes>] {
        SemaphoreAttributes::FLAGS
    }

    fn bits(&self) -> u32 {
        self.0
    }

    fn from_bits_retain(bits: u32) -> SemaphoreAttributes {
        SemaphoreAttributes(bits)
    }
}

/// Attributes of an event flag.
#[derive(Clone, Copy, PartialEq, Eq)]
pub struct FlagAttributes(u32);

bitflag_items! {
    impl FlagAttributes: u32 {
        /// Tasks wait by priority, not by arrival.
        const TA_TPRI = 1;
        /// Several tasks may wait.
        const TA_WMUL = 2;
        /// The release of a task clears the flag.
        const TA_CLR = 4;
    }
}

impl Flags for FlagAttributes {
    type Bits = u32;

    ghost exact = { ⊤ };

    ghost table = { (codes "TA_TPRI", 1) ∷ (codes "TA_WMUL", 2) ∷ (codes "TA_CLR", 4) ∷ [] };

    ghost set_of = { λ a. a.0 };

    fn flags<'a>() -> &'a [Flag<FlagAttributes>] {
        FlagAttributes::FLAGS
    }

    fn bits(&self) -> u32 {
        self.0
    }

    fn from_bits_retain(bits: u32) -> FlagAttributes {
        FlagAttributes(bits)
    }
}

/// Attributes of a data queue.
#[derive(Clone, Copy, PartialEq, Eq)]
pub struct QueueAttributes(u32);

bitflag_items! {
    impl QueueAttributes: u32 {
        /// Senders wait by priority, not by arrival.
        const TA_TPRI = 1;
    }
}

impl Flags for QueueAttributes {
    type Bits = u32;

    ghost exact = { ⊤ };

    ghost table = { (codes "TA_TPRI", 1) ∷ [] };

    ghost set_of = { λ a. a.0 };

    fn flags<'a>() -> &'a [Flag<QueueAttributes>] {
        QueueAttributes::FLAGS
    }

    fn bits(&self) -> u32 {
        self.0
    }

    fn from_bits_retain(bits: u32) -> QueueAttributes {
        QueueAttributes(bits)
    }
}

/// Attributes of a fixed memory pool.
#[derive(Clone, Copy, PartialEq, Eq)]
pub struct PoolAttributes(u32);

bitflag_items! {
    impl PoolAttributes: u32 {
        /// Tasks wait by priority, not by arrival.
        const TA_TPRI = 1;
    }
}

impl Flags for PoolAttributes {
    type Bits = u32;

    ghost exact = { ⊤ };

    ghost table = { (codes "TA_TPRI", 1) ∷ [] };

    ghost set_of = { λ a. a.0 };

    fn flags<'a>() -> &'a [Flag<PoolAttributes>] {
        PoolAttributes::FLAGS
    }

    fn bits(&self) -> u32 {
        self.0
    }

    fn from_bits_retain(bits: u32) -> PoolAttributes {
        PoolAttributes(bits)
    }
}

/// Attributes of a mailbox.
#[derive(Clone, Copy, PartialEq, Eq)]
pub struct MailboxAttributes(u32);

bitflag_items! {
    impl MailboxAttributes: u32 {
        /// Tasks wait by priority, not by arrival.
        const TA_TPRI = 1;
        /// Messages are received by priority, not by arrival.
        const TA_MPRI = 2;
    }
}

impl Flags for MailboxAttributes {
    type Bits = u32;

    ghost exact = { ⊤ };

    ghost table = { (codes "TA_TPRI", 1) ∷ (codes "TA_MPRI", 2) ∷ [] };

    ghost set_of = { λ a. a.0 };

    fn flags<'a>() -> &'a [Flag<MailboxAttributes>] {
        MailboxAttributes::FLAGS
    }

    fn bits(&self) -> u32 {
        self.0
    }

    fn from_bits_retain(bits: u32) -> MailboxAttributes {
        MailboxAttributes(bits)
    }
}

/// Attributes of a cyclic handler.
#[derive(Clone, Copy, PartialEq, Eq)]
pub struct CyclicAttributes(u32);

bitflag_items! {
    impl CyclicAttributes: u32 {
        /// Written in assembly language; without effect.
        const TA_ASM = 1;
        /// It works from boot on.
        const TA_STA = 2;
        /// Its times are those that are counted from boot, whenever it is started.
        const TA_PHS = 4;
    }
}

impl Flags for CyclicAttributes {
    type Bits = u32;

    ghost exact = { ⊤ };

    ghost table = { (codes "TA_ASM", 1) ∷ (codes "TA_STA", 2) ∷ (codes "TA_PHS", 4) ∷ [] };

    ghost set_of = { λ a. a.0 };

    fn flags<'a>() -> &'a [Flag<CyclicAttributes>] {
        CyclicAttributes::FLAGS
    }

    fn bits(&self) -> u32 {
        self.0
    }

    fn from_bits_retain(bits: u32) -> CyclicAttributes {
        CyclicAttributes(bits)
    }
}
