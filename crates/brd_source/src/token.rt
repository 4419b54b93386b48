/// A token of a line, borrowed from its bytes.
#[derive(Clone, Copy, Default)]
pub enum SourceToken<'a> {
    /// A longest stretch of letters, digits, `_`, `.` and `$`.
    Run(&'a [u8]),
    /// The run directly after a `%`, empty where there is none.
    Percent(&'a [u8]),
    /// The bytes between two quotes, with their escapes as they are written.
    Quoted(&'a [u8]),
    /// Any other byte that is no blank, as `,`, or one that has no place in a line at all.
    Mark(u8),
    /// A string without an end. A list of tokens fills its free places with this.
    #[default]
    Wrong,
}
