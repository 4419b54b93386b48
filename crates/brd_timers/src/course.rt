//! When time handlers are due, as they are created.

/// When a time handler is due (CRE_CYC, CRE_ALM).
#[derive(Clone, Copy, PartialEq, Eq)]
pub enum Course {
    /// A cyclic handler: again and again.
    Cyclic(Cycle),
    /// An alarm handler: once each time that it is started, after as many ticks as are asked for then.
    Alarm,
}

/// The times of a cyclic handler.
#[derive(Clone, Copy, PartialEq, Eq)]
pub struct Cycle {
    /// How many ticks pass from one time to the next (cyctim): not 0.
    pub period: u32,
    /// How many ticks pass from boot to the first time (cycphs), where its times are counted from boot.
    pub phase: u32,
    /// Whether it works from boot on (TA_STA).
    pub starts: bool,
    /// Whether its times are those counted from boot, whenever it is started (TA_PHS).
    pub keeps: bool,
}
