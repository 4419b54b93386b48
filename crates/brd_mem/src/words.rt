//! Words laid out as bytes.

ghost use Rattle.std.specs.Prelude.{◌≡◌, IfOk, flat_map};
ghost use Rattle.brd_word.specs.Words.{bytes_of_word};
ghost use Rattle.brd_word.specs.declared.order.Order.{Order};

use crate::image::Bytes;
use brd_base::NoMemory;
use brd_word::{Order, bytes_of};
use std::alloc::Global;

/// The bytes of words, one after the other, each with the most significant first.
pub fn bytes_of_words(alloc: Global, words: &[u32]) -> Result<Bytes, NoMemory>
    ensures { IfOk result (λ bytes. bytes ≡ flat_map (bytes_of_word Order.Big) words.now) }
{
    let mut bytes = Bytes::new(alloc);
    for word in words {
        bytes.append(&bytes_of(*word, Order::Big))?;
    }
    Ok(bytes)
}
