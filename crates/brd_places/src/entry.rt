//! How a place came from another one.

ghost use Rattle.std.specs.Prelude.{◌≡◌, slice_get};

use crate::left::Left;
use brd_board::Event;

/// Stands among those that are kept whole for none.
pub(crate) const NONE: u32 = u32::MAX;

/// A place, as it came.
#[derive(Clone, Copy)]
pub(crate) struct Entry {
    /// The index of the place from which it came. One that isn't less than its own stands for the start.
    pub parent: u32,
    /// The event by which it came.
    pub event: Event,
    /// How often that came in a row.
    pub count: u32,
    /// What is left.
    pub left: Left,
    /// How long the way is to it from the last one that is kept whole; 0 if it is kept so itself.
    pub since: u8,
    /// Where it stands among those that are kept whole, if it is one of them.
    pub kept: u32,
}

/// The entry of the start.
pub(crate) fn first_entry(left: Left) -> Entry
    ensures left { result.left ≡ left }
    ensures stays { result.count ≡ 0 }
{
    Entry {
        parent: 0,
        event: Event::Tick,
        count: 0,
        left,
        since: 0,
        kept: NONE,
    }
}

/// The entry of an index, if there is one.
pub(crate) fn entry_at(entries: &[Entry], i: usize) -> Option<Entry>
    ensures { result ≡ slice_get entries.now i }
{
    if i < entries.len() {
        return Some(entries[i]);
    }
    None
}
