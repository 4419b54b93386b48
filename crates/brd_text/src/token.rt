/// A token of a text, borrowed from its bytes.
#[derive(Clone, Copy, PartialEq, Eq)]
pub enum Token<'a> {
    /// A longest stretch of letters, digits, `_`, `.` and `$`.
    Run(&'a [u8]),
    /// Any other byte that stands between no tokens, as `(`, or one that has no place in the text at all.
    Mark(u8),
    /// The text ends in a comment that begins with `/*`.
    Unclosed,
    /// No more tokens.
    End,
}
