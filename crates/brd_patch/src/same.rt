//! Whether an image is another one with other segments.

ghost use Rattle.std.specs.Prelude.{◌≡◌, true};

use brd_mem::{Image, Segment, Symbol};
use brd_word::Order;

/// Whether an image is another one but for its segments, which are these.
pub fn is_with(image: &Image, other: &Image, segments: &[Segment]) -> bool
    ensures { result ≡ true → image.now ≡ record other.now { segments = segments.now } }
{
    image.entry == other.entry
        && is_same_order(image.order, other.order)
        && are_same_segments(image.segments.as_slice(), segments)
        && are_same_symbols(image.symbols.as_slice(), other.symbols.as_slice())
}

/// Whether two byte orders are the same.
fn is_same_order(order: Order, other: Order) -> bool
    ensures { result ≡ true → order ≡ other }
{
    matches!(
        (order, other),
        (Order::Big, Order::Big) | (Order::Little, Order::Little)
    )
}

/// Whether two lists of segments are equal.
fn are_same_segments(segments: &[Segment], others: &[Segment]) -> bool
    ensures { result ≡ true → segments.now ≡ others.now }
{
    if segments.len() != others.len() {
        return false;
    }
    for i in 0..segments.len() {
        if !is_same_segment(&segments[i], &others[i]) {
            return false;
        }
    }
    true
}

/// Whether two segments are equal.
fn is_same_segment(segment: &Segment, other: &Segment) -> bool
    ensures { result ≡ true → segment.now ≡ other.now }
{
    segment.address == other.address && segment.bytes.as_slice() == other.bytes.as_slice()
}

/// Whether two lists of symbols are equal.
fn are_same_symbols(symbols: &[Symbol], others: &[Symbol]) -> bool
    ensures { result ≡ true → symbols.now ≡ others.now }
{
    if symbols.len() != others.len() {
        return false;
    }
    for i in 0..symbols.len() {
        if !is_same_symbol(&symbols[i], &others[i]) {
            return false;
        }
    }
    true
}

/// Whether two symbols are equal.
fn is_same_symbol(symbol: &Symbol, other: &Symbol) -> bool
    ensures { result ≡ true → symbol.now ≡ other.now }
{
    symbol.value == other.value && symbol.name.as_slice() == other.name.as_slice()
}
