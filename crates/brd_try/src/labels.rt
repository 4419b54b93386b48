//! Labels of an image, and the data behind them.

use brd_base::NoMemory;
use brd_listing::Places;
use brd_mem::{Image, Segment, Symbol};
use brd_names::{Names, put};

/// The labels of an image. The data of one are what is loaded from there up to the next one.
#[derive(Clone, Copy)]
pub(crate) struct Labels<'a> {
    image: &'a Image,
    places: &'a Places<'a>,
    names: Names<'a>,
}

impl<'a> Labels<'a> {
    /// The labels of an image, whose symbols these are.
    pub(crate) fn new(image: &'a Image, places: &'a Places<'_>) -> Self {
        Labels {
            image,
            places,
            names: Names::new(places, image.segments.as_slice()),
        }
    }

    /// What the image's addresses are called.
    pub(crate) fn names(&self) -> Names<'a> {
        self.names
    }

    /// Whether a label with data stands at an address.
    pub(crate) fn stands_at(&self, address: u32) -> bool {
        self.holds(address, address)
    }

    /// Whether the data of the label at an address hold another address.
    pub(crate) fn holds(&self, start: u32, address: u32) -> bool {
        match self.places.nearest(address) {
            Some(symbol) => symbol.value == start && self.names.loads(address),
            None => false,
        }
    }

    /// Where the data of the label at an address end.
    pub(crate) fn end_of(&self, start: u32) -> u32 {
        let end = loaded_end(self.image.segments.as_slice(), start);
        next_label(self.image.symbols.as_slice(), start, end)
    }

    /// Puts at the end what lies at an address.
    pub(crate) fn put_lies(&self, address: u32, out: &mut Vec<u8>) -> Result<(), NoMemory> {
        if self.names.loads(address) {
            self.names.put_both(out, address)?;
            return put(out, " lies there");
        }
        put(out, "nothing of the program lies there")
    }
}

/// Where the segment ends in which an address lies.
fn loaded_end(segments: &[Segment], address: u32) -> u32 {
    let mut end = address;
    for segment in segments {
        if segment.address <= address {
            let len = segment.bytes.len().min(u32::MAX as usize) as u32;
            end = end.max(segment.address.saturating_add(len));
        }
    }
    end
}

/// The first label behind an address and before another one, which it is where there is none.
fn next_label(symbols: &[Symbol], start: u32, end: u32) -> u32 {
    let mut next = end;
    for symbol in symbols {
        if start < symbol.value && symbol.value < next {
            next = symbol.value;
        }
    }
    next
}
