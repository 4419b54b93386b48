//! Images: what is loaded into memory before the board starts.

ghost use Rattle.std.specs.Prelude.{◌≡◌, IfOk};
ghost use Rattle.brd_mem.specs.Image.{symbol_value};

use crate::words::bytes_of_words;
use brd_base::{BASE, List, NoMemory};
use brd_word::Order;
use std::alloc::Global;

/// A list of bytes.
pub type Bytes = List<u8>;

/// Bytes that lie from an address on.
#[derive(Drop)]
pub struct Segment {
    /// The address of the first byte.
    pub address: u32,
    /// The bytes.
    pub bytes: Bytes,
}

/// A name and the value that stands for it.
#[derive(Drop)]
pub struct Symbol {
    /// The name's bytes.
    pub name: Bytes,
    /// The value.
    pub value: u32,
}

/// A list of segments.
pub type Segments = List<Segment>;

/// A list of symbols.
pub type Symbols = List<Symbol>;

/// What is loaded into memory, where it starts, and what its addresses are called.
pub struct Image {
    /// The address at which it starts.
    pub entry: u32,
    /// What is loaded.
    pub segments: Segments,
    /// The names.
    pub symbols: Symbols,
    /// In which order the bytes of its words lie.
    pub order: Order,
}

/// Written out, so that a function that lets one go is proved with a call, and not with the end of each part.
impl Drop for Image {
    fn drop(self) {
        let Image {
            entry: _,
            segments: _,
            symbols: _,
            order: _,
        } = self;
    }
}

impl Image {
    ghost use Rattle.brd_mem.specs.Image.{image_of_words};

    /// The big-endian image of these words: one segment at the first address of RAM, or none for no words.
    pub fn from_words(alloc: Global, words: &[u32]) -> Result<Image, NoMemory>
        ensures { IfOk result (λ image. image ≡ image_of_words words.now) }
    {
        let mut segments = Segments::new(alloc);
        if !words.is_empty() {
            let bytes = bytes_of_words(alloc, words)?;
            segments.push(Segment {
                address: BASE,
                bytes,
            })?;
        }
        Ok(Image {
            entry: BASE,
            segments,
            symbols: Symbols::new(alloc),
            order: Order::Big,
        })
    }
}

/// The value of the symbol of a name, where there is one.
pub fn symbol_value(symbols: &[Symbol], name: &[u8]) -> Option<u32>
    ensures { result ≡ symbol_value symbols.now name.now }
{
    for symbol in symbols {
        if name == symbol.name.as_slice() {
            return Some(symbol.value);
        }
    }
    None
}
