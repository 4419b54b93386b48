//! Addresses by the symbols of an image.

use brd_asm::assemble;
use brd_listing::{Places, write_place};
use brd_mem::Symbol;
use std::alloc::Global;
use std::test::Fail;
use test_help::none_wrong;

/// A source, of which the symbols count: two labels at one address, and numbers that are no addresses of RAM.
const SOURCE: &str = ".equ small, 5\n.equ high, 0x90000000\nmain: nop\nnop\ndone: end: nop\n\
    .org 0x80000004\nearlier:\n.org 0x80000100\nlast:\n";

/// Addresses, and how they are written.
const PLACES: &[(u32, &str)] = &[
    (0x00000000, "00000000"),
    (0x00000010, "00000010"),
    (0x7fffffff, "7fffffff"),
    (0x80000000, "main"),
    (0x80000003, "main+0x3"),
    (0x80000004, "earlier"),
    (0x80000007, "earlier+0x3"),
    (0x80000008, "end"),
    (0x8000001c, "end+0x14"),
    (0x800000ff, "end+0xf7"),
    (0x80000100, "last"),
    (0x80fffffc, "last+0xfffefc"),
    (0x81000000, "81000000"),
    (0x90000004, "90000004"),
    (0xffffffff, "ffffffff"),
];

/// Whether an address is written so, also by sorted symbols.
fn is_written(alloc: Global, symbols: &[Symbol], address: u32, wanted: &str) -> bool {
    let mut text = Vec::new(alloc);
    write_place(symbols, address, &mut text).is_ok()
        && text.as_slice() == wanted.as_bytes()
        && is_written_sorted(alloc, symbols, address, wanted)
}

/// Whether an address is written so by sorted symbols.
fn is_written_sorted(alloc: Global, symbols: &[Symbol], address: u32, wanted: &str) -> bool {
    let Ok(places) = Places::new(alloc, symbols) else {
        return false;
    };
    let mut text = Vec::new(alloc);
    places.write(address, &mut text).is_ok() && text.as_slice() == wanted.as_bytes()
}

/// The first of `PLACES` that is written otherwise.
fn first_wrong(alloc: Global) -> Option<usize> {
    let Ok(image) = assemble(alloc, SOURCE.as_bytes()) else {
        return Some(0);
    };
    for (row, (address, wanted)) in PLACES.iter().enumerate() {
        if !is_written(alloc, image.symbols.as_slice(), *address, *wanted) {
            return Some(row);
        }
    }
    None
}

#[test]
fn places_are_written_so(rt: HostRuntime) -> Result<(), Fail> {
    none_wrong(first_wrong(rt.alloc()))
}

/// An address without any symbol.
#[test]
fn without_symbols(rt: HostRuntime) {
    let is_right = is_written(rt.alloc(), &[], 0x8000_0010, "80000010");
    assert!(rt; is_right);
}
