//! What is left at a place.

/// What is left for the events behind a place.
#[derive(Clone, Copy, Debug, PartialEq, Eq)]
pub struct Left {
    /// Ticks.
    pub ticks: u32,
    /// Interrupt lines that are raised.
    pub raises: u32,
    /// How many raises have to come before a board at rest is an end.
    pub owed: u32,
}
