//! Why there is no trace.

use thiserror::Error;

/// Why there is no trace of a board and a journal.
#[derive(Clone, Copy, Debug, PartialEq, Eq, Error)]
pub enum TraceFault {
    /// The first event comes after the last one: from, to, and how many events the journal has.
    #[error("there are no events from {0} to {1}: the journal has {2}")]
    NoEvents(u64, u64, u64),
    /// There is no such form.
    #[error("its formats are text, json, svg, html, lcov and callgrind")]
    NoSuchFormat,
    /// A name of a word is that of no symbol.
    #[error("--word names a symbol that the object file doesn't have")]
    NoSymbol,
    /// No word lies at an address.
    #[error("--word has symbols, or 0x and hexadecimal addresses, of aligned words of RAM, with commas between them")]
    NoWord,
    /// A picture has no room for so much.
    #[error("it has more to draw than a picture can show: choose fewer events by --from and --to")]
    TooMuch,
    /// Races aren't looked for among so many touches.
    #[error("it has more touches of words, or more that orders them, than are kept: choose fewer events by --to")]
    TooManyTouches,
}
