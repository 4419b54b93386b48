//! What is asked of `try`.

/// What is asked of `try`.
#[derive(Clone, Copy, Debug, PartialEq, Eq)]
pub struct TryOptions {
    /// How many processors there are.
    pub cpus: u32,
    /// How many events there are at most: steps, and ticks.
    pub steps: u32,
    /// Each event whose number is a multiple of this is a tick; none where this is 0.
    pub tick_every: u32,
    /// Whether loads and stores past a label's data are told too.
    pub strict: bool,
}
