//! Names for addresses.

ghost use Rattle.std.specs.Prelude.{◌≡◌, ◌≤◌, ◌-◌, ◌++◌, OnOk, Some, None, true, false};
ghost use Rattle.std.specs.Option.{option_map};
ghost use Rattle.brd_lines.specs.Lines.{seen};
ghost use Rattle.brd_listing.specs.Places.{place_text};
ghost use Rattle.brd_names.specs.Addresses.{
  is_loaded,
  is_in,
  both_text,
  datum_text,
  code_more,
  code_text,
  end_below,
  last_end,
  loaded_text,
  past_text,
  source_at,
  source_by,
  source_text,
  LoadsNone,
};

use crate::text::{put, put_number, put_word};
use brd_base::NoMemory;
use brd_lines::{Lines, Place};
use brd_listing::Places;
use brd_mem::Segment;
use std::alloc::Global;

/// The symbols of an image, by which addresses are named, what the image loads, and the lines of its source, where the
/// object file has them.
#[derive(Clone, Copy)]
pub struct Names<'a> {
    symbols: &'a Places<'a>,
    segments: &'a [Segment],
    lines: Option<&'a Lines>,
}

impl<'a> Names<'a> {
    /// The names of these symbols, of an image that loads these segments.
    pub fn new(symbols: &'a Places<'_>, segments: &'a [Segment]) -> Self
        ensures symbols { result.symbols.now ≡ symbols.now }
        ensures segments { result.segments.now ≡ segments.now }
        ensures lines { result.lines ≡ None }
    {
        Names {
            symbols,
            segments,
            lines: None,
        }
    }

    /// The same, with the lines of the source.
    pub fn with_lines(symbols: &'a Places<'_>, segments: &'a [Segment], lines: &'a Lines) -> Self
        ensures symbols { result.symbols.now ≡ symbols.now }
        ensures segments { result.segments.now ≡ segments.now }
        ensures lines { option_map (λ lines. lines.now) result.lines ≡ Some lines.now }
    {
        Names {
            symbols,
            segments,
            lines: Some(lines),
        }
    }

    /// The line of the code at an address, where it is known.
    fn source_at(&self, address: u32) -> Option<Place<'a>>
        ensures { option_map seen result ≡ source_at self.now address }
    {
        match self.lines {
            Some(lines) => lines.line_at(address),
            None => None,
        }
    }

    /// Puts at the end the file and the line of the code at an address, where they are known, after these bytes.
    pub fn put_source(
        &self,
        alloc: Global,
        before: &str,
        address: u32,
        out: &mut Vec<u8>,
    ) -> Result<(), NoMemory>
        ensures { OnOk result (out.new.items ≡ out.old.items ++ source_text before.now self.now address) }
    {
        match self.source_at(address) {
            Some(place) => put_line_of(alloc, before, place, out),
            None => Ok(()),
        }
    }

    /// Whether the code at an address stands for a line of a header.
    pub fn is_of_header(&self, address: u32) -> bool {
        match self.source_at(address) {
            Some(place) => place.file.ends_with(b".h"),
            None => false,
        }
    }

    /// Puts the address of code at the end: by the nearest symbol and as digits, with its file and line, where they are
    /// known, and what is loaded below it, where nothing is there.
    pub fn put_code(&self, alloc: Global, address: u32, out: &mut Vec<u8>) -> Result<(), NoMemory>
        ensures { OnOk result (out.new.items ≡ out.old.items ++ code_text self.now address) }
    {
        self.put_place(out, address)?;
        if self.symbols.nearest(address).is_none() {
            return self.put_more(alloc, address, out);
        }
        put(out, " (")?;
        put_word(out, address)?;
        self.put_more(alloc, address, out)?;
        put(out, ")")
    }

    /// Puts at the end what is said of the address of code beside it: its file and line, where they are known, and what
    /// is loaded below it, where nothing is there.
    fn put_more(&self, alloc: Global, address: u32, out: &mut Vec<u8>) -> Result<(), NoMemory>
        ensures { OnOk result (out.new.items ≡ out.old.items ++ code_more self.now address) }
    {
        self.put_source(alloc, ", ", address, out)?;
        self.put_past(address, out)
    }

    /// Puts at the end, where nothing is loaded at an address, the last word of what is loaded below it.
    pub fn put_past(&self, address: u32, out: &mut Vec<u8>) -> Result<(), NoMemory>
        ensures { OnOk result (out.new.items ≡ out.old.items ++ past_text self.now address) }
    {
        if self.loads(address) {
            return Ok(());
        }
        self.put_last_word(self.last_end(address), out)
    }

    /// Puts at the end the last word of what is loaded, where that ends before this address, and isn't nothing.
    fn put_last_word(&self, end: u32, out: &mut Vec<u8>) -> Result<(), NoMemory>
        ensures { OnOk result (out.new.items ≡ out.old.items ++ loaded_text self.now.symbols.now end) }
    {
        if end == 0 {
            return Ok(());
        }
        put(out, ", past what is loaded, which ends with ")?;
        let last = end - 1;
        self.put_place(out, last - last % 4)
    }

    /// Puts an address at the end, by the nearest symbol at or below it.
    pub fn put_place(&self, out: &mut Vec<u8>, address: u32) -> Result<(), NoMemory>
        ensures { OnOk result (out.new.items ≡ out.old.items ++ place_text self.now.symbols.now address) }
    {
        self.symbols.write(address, out)
    }

    /// Puts an address at the end, by the nearest symbol and as digits.
    pub fn put_both(&self, out: &mut Vec<u8>, address: u32) -> Result<(), NoMemory>
        ensures { OnOk result (out.new.items ≡ out.old.items ++ both_text self.now.symbols.now address) }
    {
        self.put_place(out, address)?;
        if self.symbols.nearest(address).is_none() {
            return Ok(());
        }
        put(out, " (")?;
        put_word(out, address)?;
        put(out, ")")
    }

    /// Puts the address of a datum at the end: by the nearest symbol and as digits, where the image loads something
    /// there, else as digits. (No symbol names what lies elsewhere, as a stack does.)
    pub fn put_datum(&self, out: &mut Vec<u8>, address: u32) -> Result<(), NoMemory>
        ensures { OnOk result (out.new.items ≡ out.old.items
            ++ datum_text self.now.symbols.now self.now.segments.now address) }
    {
        if self.loads(address) {
            return self.put_both(out, address);
        }
        put_word(out, address)
    }

    /// Where what is loaded below an address ends: the greatest address after a segment that loads something, and
    /// nothing above this address. 0 where there is none.
    fn last_end(&self, address: u32) -> u32
        ensures is { result ≡ last_end address self.now.segments.now }
        // The segments hold the address before it, and none from there on up to an address that they don't hold.
        ensures last { 1 ≤ result → is_loaded self.now.segments.now (result - 1) ≡ true }
        ensures after { is_loaded self.now.segments.now address ≡ false
            → LoadsNone self.now.segments.now result address }
    {
        let segments = self.segments;
        let mut last = 0;
        for segment in segments {
            last = end_below(segment, address).max(last);
        }
        last
    }

    /// Whether the image loads something at an address.
    pub fn loads(&self, address: u32) -> bool
        ensures { result ≡ is_loaded self.now.segments.now address }
    {
        let segments = self.segments;
        for segment in segments {
            if is_in(segment, address) {
                return true;
            }
        }
        false
    }
}

/// The address after what a segment loads, where it loads something, and nothing above this address; else 0.
fn end_below(segment: &Segment, address: u32) -> u32
    ensures { result ≡ end_below address segment.now }
{
    let len = segment.bytes.len();
    if len > 0 && segment.address <= address && len <= (address - segment.address) as usize {
        return segment.address + len as u32;
    }
    0
}

/// Puts a line of a file at the end, after these bytes.
fn put_line_of(alloc: Global, before: &str, place: Place, out: &mut Vec<u8>) -> Result<(), NoMemory>
    ensures { OnOk result (out.new.items ≡ out.old.items ++ source_by before.now (Some (seen place.entry))) }
{
    put(out, before)?;
    place.put_name(alloc, out)?;
    out.push(b':')?;
    put_number(alloc, out, u64::from(place.line))
}

/// Whether an address lies in a segment.
fn is_in(segment: &Segment, address: u32) -> bool
    ensures { result ≡ is_in address segment.now }
{
    segment.address <= address
        && ((address - segment.address) as usize) < segment.bytes.as_slice().len()
}
