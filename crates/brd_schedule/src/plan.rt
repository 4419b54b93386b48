//! What is asked of a journal that is made.

/// The most changes of priorities that a rule may have (own choice).
pub const MOST_CHANGES: u32 = 1_000;

/// An interrupt line that is raised as the event of this number, counted from 1.
#[derive(Clone, Copy, Debug, PartialEq, Eq)]
pub struct Raise {
    /// The line.
    pub line: u8,
    /// Which event of the journal it is.
    pub at: u32,
}

/// Who takes the next step. Words are drawn from PCG32 by this seed.
#[derive(Clone, Copy, Debug, PartialEq, Eq)]
pub enum Rule {
    /// Each processor in turn, n steps each; 0 is taken as 1.
    InTurns {
        each: u32,
    },
    /// One that is drawn by its weight. Before a step the next is drawn with a chance of `switch` in a thousand.
    Drawn {
        seed: u64,
        switch: u32,
        weights: [u32; 8],
    },
    /// The one of the highest priority. Priorities are drawn, and so are n steps, before each of which that of
    /// the one that would go is lowered below all that were drawn (Burckhardt and others, ASPLOS 2010).
    Lowered {
        seed: u64,
        changes: u32,
    },
}

/// What is asked of a journal.
#[derive(Clone, Copy)]
pub struct Plan<'a> {
    /// How many processors take steps: those from 1 on.
    pub cpus: u8,
    /// How many events there are.
    pub events: u32,
    /// Each event whose number is a multiple of this is a tick; none where this is 0.
    pub tick_every: u32,
    /// The interrupt lines that are raised. Of several at one event the first counts, and it comes before a tick.
    pub raises: &'a [Raise],
    /// Who takes all other events, which are steps.
    pub rule: Rule,
}
