//! A decoded word.

ghost use Rattle.std.specs.Prelude.{◌≡◌};
ghost use Rattle.brd_word.specs.declared.order.Order.{Order};
ghost use Rattle.brd_fast.specs.Known.{IsRight};

use brd_entries::{CodeEntry, entry_of};
use brd_word::{Order, bytes_of, word_of};

/// A word and its entry.
#[derive(Clone, Copy)]
pub struct Known {
    /// The word's four bytes as they lie in RAM, as one number: the little-endian word of them, whatever the order is.
    pub raw: u32,
    pub entry: CodeEntry,
}

impl Known {
    /// The word 0, which is `sll $zero, $zero, 0` and does nothing.
    #[inline(always)]
    pub fn nop() -> Self
        ensures { (order : Order) → IsRight order result }
    {
        Known {
            raw: 0,
            entry: CodeEntry::Nop,
        }
    }

    /// Four bytes with the entry of the word that they make in an order.
    pub fn of(raw: u32, order: Order) -> Self
        ensures raw { result.raw ≡ raw }
        ensures right { IsRight order result }
    {
        Known {
            raw,
            entry: entry_of(word_of(bytes_of(raw, Order::Little), order)),
        }
    }
}
