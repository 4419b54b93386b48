//! The lines of a journal's text.

ghost use Rattle.std.specs.Prelude.{◌≡◌, ◌≤◌, length};
ghost use Rattle.std.specs.List.{prefix_len};
ghost use Rattle.brd_board.specs.declared.event.Event.TheVariants.{Step, Tick, Raise};
ghost use Rattle.brd_journal.specs.Reading as reading;

use crate::run::Run;
use brd_board::Event;
use brd_text::{behind, plain_decimal};
use brd_word::Order;

/// The first line of a journal for big-endian boards.
pub(crate) const BIG_LINE: &[u8] = b"board-journal 2 big";

/// The first line of a journal for little-endian boards.
pub(crate) const LITTLE_LINE: &[u8] = b"board-journal 2 little";

/// The first line of version 1, whose boards were all big-endian.
const OLD_LINE: &[u8] = b"board-journal 1";

/// The byte order that a first line says. The line stands without its newline.
pub fn order_of_line(line: &[u8]) -> Option<Order>
    ensures { result ≡ reading.order_of_line line.now }
{
    if line == BIG_LINE {
        return Some(Order::Big);
    }
    if line == LITTLE_LINE {
        return Some(Order::Little);
    }
    if line == OLD_LINE {
        return Some(Order::Big);
    }
    None
}

/// The run that a line spells. The line stands without its newline.
pub fn run_of_line(line: &[u8]) -> Option<Run>
    ensures { result ≡ reading.run_of_line line.now }
{
    let Some((kind, rest)) = line.split_first() else {
        return None;
    };
    let Some(fields) = behind(b' ', rest) else {
        return None;
    };
    match *kind {
        b'S' => {
            let Some((cpu, count)) = numbered(fields) else {
                return None;
            };
            Some(Run {
                event: Event::Step(cpu),
                count,
            })
        }
        b'T' => {
            let Some(count) = count_of(fields) else {
                return None;
            };
            Some(Run {
                event: Event::Tick,
                count,
            })
        }
        b'R' => {
            let Some((line, count)) = numbered(fields) else {
                return None;
            };
            Some(Run {
                event: Event::Raise(line),
                count,
            })
        }
        _ => None,
    }
}

/// A number up to 255, and a count after the next space.
fn numbered(fields: &[u8]) -> Option<(u8, u32)>
    ensures { result ≡ reading.numbered_of fields.now }
{
    let (number, count) = split_field(fields);
    let Some(number) = plain_decimal(number, u8::MAX as u64) else {
        return None;
    };
    let Some(count) = count_of(count) else {
        return None;
    };
    Some((number as u8, count))
}

/// A count from 1 to 4,294,967,295.
fn count_of(digits: &[u8]) -> Option<u32>
    ensures { result ≡ reading.count_of digits.now }
{
    match plain_decimal(digits, u32::MAX as u64) {
        Some(count) if count > 0 => Some(count as u32),
        _ => None,
    }
}

/// The first field, and what stands after the space that ends it: nothing, where there is none.
pub fn split_field(fields: &[u8]) -> (&[u8], &[u8])
    ensures first { result.0.now ≡ reading.first_field fields.now }
    ensures others { result.1.now ≡ reading.other_fields fields.now }
{
    let (first, rest) = fields.split_at(field_len(fields));
    match rest.split_first() {
        None => (first, rest),
        Some((_, others)) => (first, others),
    }
}

/// How many bytes the first field has.
fn field_len(fields: &[u8]) -> usize
    ensures len { result ≡ prefix_len reading.in_field fields.now }
    ensures within { result ≤ length fields.now }
{
    for (i, byte) in fields.iter().enumerate() {
        if !in_field(*byte) {
            return i;
        }
    }
    fields.len()
}

/// Whether a byte doesn't end its field.
#[tactic(auto, unfolding(crate::specs::Reading::in_field))]
fn in_field(byte: u8) -> bool
    ensures { result ≡ reading.in_field byte }
{
    byte != b' '
}
