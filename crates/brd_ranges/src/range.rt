//! A range of addresses.

/// The addresses from `start` up to, not including, `end`, and what belongs to them.
#[derive(Drop)]
pub struct Range<T> {
    /// The first address.
    pub start: u32,
    /// The address after the last one.
    pub end: u32,
    /// What belongs to them.
    pub item: T,
}
