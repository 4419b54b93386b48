//! Lists of names, and names that are nearly the same.

use crate::scan::{behind, cut, first, place_of, run, skip_blanks};
use brd_text::split_line;

/// Whether a list has a name. The names of a list are separated by spaces, and case doesn't count.
pub(crate) fn has_name(list: &[u8], name: &[u8]) -> bool {
    let mut rest = list;
    for _ in 0..list.len() {
        let (known, after) = run(skip_blanks(rest));
        if known.is_empty() {
            return false;
        }
        if known.eq_ignore_ascii_case(name) {
            return true;
        }
        rest = after;
    }
    false
}

/// How one name may have become another by a slip of the fingers.
#[derive(Clone, Copy)]
enum Slip {
    /// Two letters are turned.
    Turned,
    /// It has a letter too many.
    TooMany,
    /// It lacks a letter.
    TooFew,
    /// It has another letter.
    Other,
}

/// A name of a table that is near to another one.
#[derive(Clone, Copy)]
pub(crate) struct Near<'a> {
    /// The name.
    pub name: &'a [u8],
    /// How the other one may have become of it.
    slip: Slip,
    /// How many letters in front are the same.
    front: usize,
}

/// The name of a table that is nearly this one, if there is one: by the likeliest slip, and of those by the same the
/// one with which it begins to differ last.
pub(crate) fn near_name<'a, T>(rows: &'a [(&'a [u8], T)], name: &[u8]) -> Option<&'a [u8]> {
    match nearer(None, rows, name) {
        Some(near) => Some(near.name),
        None => None,
    }
}

/// The same of this name that was found already, and of those of a table. What begins with a dot is near to what does
/// so too.
pub(crate) fn nearer<'a, T>(
    found: Option<Near<'a>>,
    rows: &'a [(&'a [u8], T)],
    name: &[u8],
) -> Option<Near<'a>> {
    let mut best = found;
    for (known, _) in rows {
        let may_be = first(name) != b'.' || first(known) == b'.';
        if may_be {
            best = better(best, near_to(known, name));
        }
    }
    best
}

/// The nearer one of two names; of equally near ones the first.
fn better<'a>(found: Option<Near<'a>>, other: Option<Near<'a>>) -> Option<Near<'a>> {
    let (Some(one), Some(next)) = (found, other) else {
        return found.or(other);
    };
    let is_nearer = rank(next.slip) < rank(one.slip)
        || rank(next.slip) == rank(one.slip) && next.front > one.front;
    if is_nearer { other } else { found }
}

/// The place of a slip among all, the likeliest first.
fn rank(slip: Slip) -> usize {
    match slip {
        Slip::Turned => 0,
        Slip::TooMany => 1,
        Slip::TooFew => 2,
        Slip::Other => 3,
    }
}

/// The advice of a table for a name: what stands in the first line that has it before its colon, behind that.
pub(crate) fn advice<'a>(table: &'a [u8], name: &[u8]) -> Option<&'a [u8]> {
    let mut rest = table;
    for _ in 0..table.len() {
        let (row, after) = split_line(rest);
        let (names, text) = cut(row, place_of(row, b':')?);
        if has_name(names, name) {
            return Some(skip_blanks(behind(text, 1)));
        }
        rest = after?;
    }
    None
}

/// A known name, if another one may have become of it by one slip. Names of a letter are near to none, and of those of
/// two letters only what has them both.
fn near_to<'a>(known: &'a [u8], name: &[u8]) -> Option<Near<'a>> {
    if known.len() < 2 {
        return None;
    }
    let front = common(known, name);
    let rest = behind(known, front);
    let other = behind(name, front);
    let most = rest.len().min(other.len());
    let back = common_end(rest, other).min(most);
    let (rest, _) = cut(rest, rest.len().saturating_sub(back));
    let (other, _) = cut(other, other.len().saturating_sub(back));
    let is_long = known.len() > 2 && name.len() > 2;
    let slip = match (rest, other) {
        ([a, b], [c, d]) if is_same(*a, *d) && is_same(*b, *c) => Slip::Turned,
        ([], [_]) => Slip::TooMany,
        ([_], []) if is_long => Slip::TooFew,
        ([_], [_]) if is_long => Slip::Other,
        _ => return None,
    };
    Some(Near {
        name: known,
        slip,
        front,
    })
}

/// Whether two letters are the same, without regard to case.
fn is_same(letter: u8, other: u8) -> bool {
    letter.eq_ignore_ascii_case(&other)
}

/// How many bytes two texts have in common at their fronts, without regard to case.
fn common(text: &[u8], other: &[u8]) -> usize {
    let mut len = 0usize;
    for (byte, beside) in text.iter().zip(other.iter()) {
        if !byte.eq_ignore_ascii_case(beside) {
            return len;
        }
        len = len.saturating_add(1);
    }
    len
}

/// How many bytes two texts have in common at their ends, without regard to case.
fn common_end(text: &[u8], other: &[u8]) -> usize {
    let mut len = 0usize;
    for (byte, beside) in text.iter().rev().zip(other.iter().rev()) {
        if !byte.eq_ignore_ascii_case(beside) {
            return len;
        }
        len = len.saturating_add(1);
    }
    len
}
