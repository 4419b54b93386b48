//! Why it isn't known whether a schedule fails.

/// Why it isn't known.
#[derive(Clone, Copy, Debug, PartialEq, Eq)]
pub enum Unknown {
    /// There are more places than may be gone through.
    Places,
    /// A processor executes more instructions in a row that no other can see than may be gone through.
    Long,
    /// Who touches which words, or who is mortal, was still being learned when the search had begun anew as often as
    /// it may.
    Rounds,
    /// Schedules go on to a fair end, of which nothing can be said.
    Fair,
    /// A processor executes what can't be said to go on.
    Waits,
}
