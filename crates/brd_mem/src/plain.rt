//! Whether an image stands for a file.

ghost use Rattle.std.specs.Prelude.{◌≢◌, ◌↔◌, IsTrue};
ghost use Rattle.std.specs.List.{AllByRecursion};
ghost use Rattle.brd_base.specs.Space.{base};
ghost use Rattle.brd_mem.specs.Image.{AreAscending, AreNamed, IsName, IsPlain};

use crate::image::{Image, Segment, Symbol};
use brd_base::{BASE, TOP};

/// Whether the segments have bytes, ascend, don't overlap and lie in 0x80000000 to 0x80FFFFFF, and whether the names
/// aren't empty, have no byte 0 and are distinct. It takes no memory, and a time of the square of the number of
/// symbols.
pub fn is_plain(image: &Image) -> bool
    ensures { IsTrue result ↔ IsPlain image.now }
{
    are_ascending(image.segments.as_slice()) && are_named(image.symbols.as_slice())
}

/// Whether the segments have bytes and follow one another, none over another, within 0x80000000 to 0x80FFFFFF.
fn are_ascending(segments: &[Segment]) -> bool
    ensures { IsTrue result ↔ AreAscending base segments.now }
{
    let mut low = u64::from(BASE);
    let top = u64::from(TOP);
    let mut left = segments;
    while let Some((segment, others)) = left.split_first() {
        let start = u64::from(segment.address);
        let len = segment.bytes.len() as u64;
        if start < low || start >= top || len == 0 || len > top - start {
            return false;
        }
        low = start + len;
        left = others;
    }
    true
}

/// Whether each symbol has a name, and no later one has the same.
fn are_named(symbols: &[Symbol]) -> bool
    ensures { IsTrue result ↔ AreNamed symbols.now }
{
    let mut left = symbols;
    while let Some((symbol, others)) = left.split_first() {
        let name = symbol.name.as_slice();
        if !is_name(name) || !is_new(name, others) {
            return false;
        }
        left = others;
    }
    true
}

/// Whether a name has bytes, and none of them is 0.
fn is_name(name: &[u8]) -> bool
    ensures { IsTrue result ↔ IsName name.now }
{
    !name.is_empty() && !name.contains(&0)
}

/// Whether none of these symbols has that name.
fn is_new(name: &[u8], symbols: &[Symbol]) -> bool
    ensures { IsTrue result ↔ AllByRecursion (λ symbol. symbol.name ≢ name.now) symbols.now }
{
    let mut left = symbols;
    while let Some((symbol, others)) = left.split_first() {
        if symbol.name.as_slice() == name {
            return false;
        }
        left = others;
    }
    true
}
