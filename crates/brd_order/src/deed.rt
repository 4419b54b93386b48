//! What is done in a run, one thing after the other.

/// A touch of a word of memory.
#[derive(Clone, Copy)]
pub struct Touch {
    /// The word's address.
    pub word: u32,
    /// The first of its bytes that is touched, from 0.
    pub from: u8,
    /// The byte after the last one.
    pub to: u8,
    /// Whether it stores; else it loads.
    pub stores: bool,
    /// Whether it synchronizes: two touches that both do are no race.
    pub synchronizes: bool,
}

/// What a deed does. Whatever orders strands has a number: it is released into, and acquired from.
#[derive(Clone, Copy)]
pub enum Act {
    /// It loads from a word of memory, or stores into it.
    Touches(Touch),
    /// What comes after it is ordered after all that was released into this before.
    Acquires(u64),
    /// What came before it is ordered before all that acquires from this later.
    Releases(u64),
    /// What was released into this before is what its strand has heard, in place of all that it heard earlier.
    Hears(u64),
    /// What comes after it is ordered after what its strand has heard.
    Heeds,
}

/// Something that is done in a run.
#[derive(Clone, Copy)]
pub struct Deed {
    /// Who does it: what a strand does is done one after the other.
    pub strand: u16,
    /// What it does.
    pub act: Act,
    /// The position of its event.
    pub event: u64,
    /// The address of its instruction.
    pub place: u32,
}

/// A deed that touches a word, and how many deeds came before it.
#[derive(Clone, Copy)]
pub struct Mark {
    /// How many deeds came before it.
    pub at: u64,
    /// Who did it.
    pub strand: u16,
    /// The touch.
    pub touch: Touch,
    /// The position of its event.
    pub event: u64,
    /// The address of its instruction.
    pub place: u32,
}

/// Two touches of a word that nothing orders.
#[derive(Clone, Copy)]
pub struct Race {
    /// The earlier one in the run.
    pub earlier: Mark,
    /// The later one.
    pub later: Mark,
}
