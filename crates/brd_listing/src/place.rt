//! Addresses by the symbols of an image.

ghost use Rattle.std.specs.Prelude.{◌≡◌, ◌++◌, option_map, OnOk};
ghost use Rattle.brd_listing.specs.Places as places;

use crate::name::write_name;
use crate::number::put_hex;
use brd_base::{BASE, NoMemory, TOP};
use brd_mem::Symbol;
use brd_text::hex_digits;

/// The symbol by which an address goes: of those with a value from the first address of RAM to this one, that with the
/// greatest value; of equal ones the last. None for an address outside the space that RAM can fill.
pub fn nearest(symbols: &[Symbol], address: u32) -> Option<&Symbol>
    ensures { option_map (λ s. s.now) result ≡ places.nearest_of symbols.now address }
{
    if TOP <= address {
        return None;
    }
    let mut best: Option<&Symbol> = None;
    for symbol in symbols {
        if is_nearer(best, symbol, address) {
            best = Some(symbol);
        }
    }
    best
}

/// Whether a symbol lies below an address, at least as near as the one that was found before it.
fn is_nearer(found: Option<&Symbol>, symbol: &Symbol, address: u32) -> bool
    ensures { result ≡ places.is_nearer address (option_map (λ s. s.now) found.entry) symbol.now }
{
    if symbol.value < BASE || address < symbol.value {
        return false;
    }
    match found {
        None => true,
        Some(found) => found.value <= symbol.value,
    }
}

/// Puts an address at the end: its nearest symbol, as `write_name` writes it, and the distance from it, as `main+0x1c`,
/// without a distance of 0; eight hexadecimal digits where it has no symbol. Where memory runs out, a front of it may
/// be there.
pub fn write_place(symbols: &[Symbol], address: u32, to: &mut Vec<u8>) -> Result<(), NoMemory>
    ensures { OnOk result (to.new.items ≡ to.old.items ++ places.place_text symbols.now address) }
{
    put_by(nearest(symbols, address), address, to)
}

/// Puts an address at the end, by the symbol that is nearest to it.
pub(crate) fn put_by(
    symbol: Option<&Symbol>,
    address: u32,
    to: &mut Vec<u8>,
) -> Result<(), NoMemory>
    ensures { OnOk result (to.new.items ≡ to.old.items
        ++ places.text_by (option_map (λ s. s.now) symbol.entry) address) }
{
    let Some(symbol) = symbol else {
        to.extend_from_slice(&hex_digits(address))?;
        return Ok(());
    };
    write_name(symbol.name.as_slice(), to)?;
    put_distance(to, address.saturating_sub(symbol.value))
}

/// Puts the distance from a symbol at the end, where it isn't 0.
fn put_distance(to: &mut Vec<u8>, distance: u32) -> Result<(), NoMemory>
    ensures { OnOk result (to.new.items ≡ to.old.items ++ places.distance_text distance) }
{
    if distance == 0 {
        return Ok(());
    }
    to.push(b'+')?;
    put_hex(to, distance)
}
