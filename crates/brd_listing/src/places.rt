//! Many addresses by the same symbols.

ghost use Rattle.std.specs.Prelude.{◌≡◌, ◌≤◌, ◌++◌, None, length, map, option_map, nat_le, IfOk, OnOk};
ghost use Rattle.std.specs.List.{fold, prefix_len};
ghost use Rattle.std.specs.List.Sorted.{IsNonDecreasingBy};
ghost use Rattle.brd_listing.specs.Places as places;

use crate::place::put_by;
use brd_base::{BASE, NoMemory, TOP};
use brd_mem::Symbol;
use std::alloc::Global;
use std::marker::Model;

/// The symbols of an image, of which the nearest one to an address is found by halves. Contracts see the symbols.
pub struct Places<'a> {
    /// The symbols, as the image has them.
    symbols: &'a [Symbol],
    /// The same by ascending value, and those of one value as they stand.
    ascending: Vec<&'a Symbol>,
}

impl<'a> Model for Places<'a> {
    ghost use Rattle.std.specs.Prelude.{List, map};
    ghost use Rattle.brd_mem.specs.declared.image.Symbol.{Symbol};
    ghost use Rattle.brd_listing.specs.Places.{IsAscending};

    ghost Value = { List Symbol };

    ghost view = { λ places. places.symbols.now };

    ghost invariant = { λ places. IsAscending places.symbols.now (map (λ s. s.now) places.ascending.items) };
}

/// Written out, so that a function that lets one go is proved with a call, and not with the end of each part.
impl Drop for Places<'_> {
    fn drop(self) {
        let Places {
            symbols: _,
            ascending: _,
        } = self;
    }
}

impl<'a> Places<'a> {
    /// These symbols. They are sorted here, once.
    pub fn new(alloc: Global, symbols: &'a [Symbol]) -> Result<Places<'a>, NoMemory>
        ensures { IfOk result (λ places. places ≡ symbols.now) }
    {
        let ascending = ascending(alloc, symbols)?;
        Ok(Places { symbols, ascending })
    }

    /// The symbol by which an address goes, as `nearest` says. It is a search by halves.
    pub fn nearest(&self, address: u32) -> Option<&'a Symbol>
        ensures { option_map (λ s. s.now) result ≡ places.nearest_of self.now address }
    {
        if TOP <= address {
            return None;
        }
        last_below(self.ascending.as_slice(), address)
    }

    /// Puts an address at the end, as `write_place` does.
    pub fn write(&self, address: u32, to: &mut Vec<u8>) -> Result<(), NoMemory>
        ensures { OnOk result (to.new.items ≡ to.old.items ++ places.place_text self.now address) }
    {
        put_by(self.nearest(address), address, to)
    }
}

/// Symbols by ascending value, and those of one value as they stand.
fn ascending<'a>(alloc: Global, symbols: &'a [Symbol]) -> Result<Vec<&'a Symbol>, NoMemory>
    ensures { IfOk result (λ ascending. places.IsAscending symbols.now (map (λ s. s.now) ascending.items)) }
{
    let mut ascending = references(alloc, symbols)?;
    ascending.sort_by_key(|symbol| symbol.value)?;
    Ok(ascending)
}

/// A reference to each symbol.
fn references<'a>(alloc: Global, symbols: &'a [Symbol]) -> Result<Vec<&'a Symbol>, NoMemory>
    ensures { IfOk result (λ references. map (λ s. s.now) references.items ≡ symbols.now) }
{
    let mut references = Vec::with_capacity(alloc, symbols.len())?;
    for symbol in symbols {
        references.push(symbol)?;
    }
    Ok(references)
}

/// The last one of ascending symbols that lies below an address.
fn last_below<'a>(ascending: &[&'a Symbol], address: u32) -> Option<&'a Symbol>
    requires { IsNonDecreasingBy (λ s. s.now.value) ascending.now }
    ensures { option_map (λ s. s.now) result
        ≡ fold (places.nearer address) None (map (λ s. s.now) ascending.now) }
{
    let count = count_up_to(ascending, address);
    if count == 0 {
        return None;
    }
    of_ram(ascending[count - 1])
}

/// How many of ascending symbols have at most this value.
fn count_up_to(ascending: &[&Symbol], value: u32) -> usize
    requires { IsNonDecreasingBy (λ s. s.now.value) ascending.now }
    ensures is { result ≡ prefix_len (λ s. nat_le s.now.value value) ascending.now }
    ensures bound { result ≤ length ascending.now }
{
    ascending.partition_point(|symbol| symbol.value <= value)
}

/// The symbol, if its value is that of an address from RAM's first one on.
fn of_ram(symbol: &Symbol) -> Option<&Symbol>
    ensures { option_map (λ s. s.now) result ≡ places.of_ram symbol.now }
{
    if symbol.value < BASE {
        return None;
    }
    Some(symbol)
}
