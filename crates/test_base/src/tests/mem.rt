//! RAM, images and pages.

use brd_base::{NoMemory, is_ram_size};
use brd_mem::*;
use brd_word::Order;
use std::alloc::Global;
use std::test::Fail;
use test_help::none_wrong;

/// How many bytes, and whether RAM can have them.
const SIZES: &[(u32, bool)] = &[
    (0, false),
    (65_535, false),
    (65_536, true),
    (65_537, false),
    (131_072, true),
    (16_777_216, true),
    (16_842_752, false),
    (4_294_967_295, false),
];

/// Whether RAM has this size where it fits, and is refused as of a bad size where it doesn't.
fn is_made_or_bad(alloc: Global, size: u32, fits: bool) -> bool {
    match Ram::new(alloc, size, Order::Big) {
        Ok(_) => fits,
        Err(fault) => !fits && matches!(fault, RamFault::BadSize),
    }
}

/// The first size that isn't as it says.
fn first_wrong_size(alloc: Global) -> Option<u32> {
    for (size, fits) in SIZES {
        if is_ram_size(*size) != *fits || !is_made_or_bad(alloc, *size, *fits) {
            return Some(*size);
        }
    }
    None
}

#[test]
fn sizes(rt: HostRuntime) -> Result<(), Fail> {
    none_wrong(first_wrong_size(rt.alloc()))
}

/// The bytes about the word 0x12345678 at 0x80000100, and at the borders of a RAM of 65,536 bytes.
const BYTES: &[(u32, Option<u8>)] = &[
    (0x8000_00ff, Some(0)),
    (0x8000_0100, Some(0x12)),
    (0x8000_0101, Some(0x34)),
    (0x8000_0102, Some(0x56)),
    (0x8000_0103, Some(0x78)),
    (0x8000_0104, Some(0)),
    (0x8000_ffff, Some(0)),
    (0x8001_0000, None),
    (0x7fff_ffff, None),
    (0, None),
];

/// Whether those bytes are there.
fn has_bytes(ram: &Ram) -> bool {
    for (address, byte) in BYTES {
        if ram.byte(*address) != *byte {
            return false;
        }
    }
    true
}

/// Where a word cannot be accessed, and what a load, a store and a fetch raise there.
const REFUSED: &[(u32, Exc, Exc, Exc)] = &[
    (0x8000_0002, Exc::AdEL, Exc::AdES, Exc::AdEL),
    (0x8001_0000, Exc::DBE, Exc::DBE, Exc::IBE),
    (0x7fff_fffc, Exc::DBE, Exc::DBE, Exc::IBE),
    (0, Exc::DBE, Exc::DBE, Exc::IBE),
    (0xffff_ffff, Exc::AdEL, Exc::AdES, Exc::AdEL),
];

/// Whether those accesses raise that.
fn refuses(ram: &mut Ram) -> bool {
    for (address, load, store, fetch) in REFUSED {
        if ram.load32(*address) != Err(*load)
            || ram.store32(*address, 1) != Err(*store)
            || ram.fetch(*address) != Err(*fetch)
        {
            return false;
        }
    }
    true
}

/// Whether a word is read as it was stored, by a load and by a fetch.
fn keeps_a_word(ram: &mut Ram) -> bool {
    ram.store32(0x8000_0100, 0x1234_5678).is_ok()
        && ram.load32(0x8000_0100) == Ok(0x1234_5678)
        && ram.fetch(0x8000_0100) == Ok(0x1234_5678)
}

/// From where on, how many bytes, and whether RAM has them.
const RANGES: &[(u32, usize, bool)] = &[
    (0x8000_0000, 65_536, true),
    (0x8000_0000, 65_537, false),
    (0x8000_ffff, 1, true),
    (0x8000_ffff, 2, false),
    (0x8001_0000, 0, true),
    (0x8001_0000, 1, false),
    (0x7fff_ffff, 1, false),
    (0xffff_ffff, 1, false),
];

/// Whether RAM has those.
fn has_ranges(ram: &Ram) -> bool {
    for (address, len, inside) in RANGES {
        if ram.contains(*address, *len) != *inside {
            return false;
        }
    }
    true
}

/// Whether two bytes stand where they were copied to.
fn takes_bytes(ram: &mut Ram) -> bool {
    if ram.contains(0x8000_fffe, 2) {
        ram.copy_in(0x8000_fffe, &[7, 9]);
    }
    ram.load32(0x8000_fffc) == Ok(0x0000_0709)
}

#[test]
fn accesses(rt: HostRuntime) -> Result<(), Fail> {
    let mut ram = Ram::new(rt.alloc(), 65_536, Order::Big)?;
    let is_kept = keeps_a_word(&mut ram) && has_bytes(&ram) && refuses(&mut ram);
    assert!(rt; is_kept && has_ranges(&ram) && takes_bytes(&mut ram));
    Ok(())
}

/// How the bytes of a halfword and of a word lie, from the lowest address on: the order, the halfword 0x1234 at
/// 0x80000200 and the word 0x12345678 at 0x80000204, byte by byte.
const ORDERS: &[(Order, [u8; 2], [u8; 4])] = &[
    (Order::Big, [0x12, 0x34], [0x12, 0x34, 0x56, 0x78]),
    (Order::Little, [0x34, 0x12], [0x78, 0x56, 0x34, 0x12]),
];

/// Whether these bytes lie from an address on.
fn lie_at(ram: &Ram, address: u32, bytes: &[u8]) -> bool {
    let mut at = address;
    for byte in bytes {
        if ram.byte(at) != Some(*byte) {
            return false;
        }
        at = at.saturating_add(1);
    }
    true
}

/// Whether a halfword and a word are kept in a RAM of this order with these bytes, and read again, also as an
/// instruction and in a window.
fn keeps_in_order(ram: &mut Ram, half: &[u8], word: &[u8]) -> bool {
    let window = match (
        ram.store16(0x8000_0200, 0x1234),
        ram.store32(0x8000_0204, 0x1234_5678),
    ) {
        (Ok(()), Ok(())) => ram.window(0x8000_02ff),
        _ => return false,
    };
    lie_at(ram, 0x8000_0200, half)
        && lie_at(ram, 0x8000_0204, word)
        && ram.load16(0x8000_0200) == Ok(0x1234)
        && ram.load32(0x8000_0204) == Ok(0x1234_5678)
        && ram.fetch(0x8000_0204) == Ok(0x1234_5678)
        && window.is_some_and(|words| words[1] == 0x1234_5678)
}

/// Whether bytes that were copied to an address make this halfword and this word.
fn reads_in_order(ram: &mut Ram, half: &[u8], word: &[u8]) -> bool {
    if !ram.contains(0x8000_0300, half.len()) || !ram.contains(0x8000_0304, word.len()) {
        return false;
    }
    ram.copy_in(0x8000_0300, half);
    ram.copy_in(0x8000_0304, word);
    ram.load16(0x8000_0300) == Ok(0x1234) && ram.load32(0x8000_0304) == Ok(0x1234_5678)
}

/// The first of `ORDERS` that a RAM doesn't keep.
fn first_wrong_order(alloc: Global) -> Result<Option<usize>, RamFault> {
    for (row, (order, half, word)) in ORDERS.iter().enumerate() {
        let mut ram = Ram::new(alloc, 65_536, *order)?;
        if ram.order() != *order
            || !keeps_in_order(&mut ram, half, word)
            || !reads_in_order(&mut ram, half, word)
        {
            return Ok(Some(row));
        }
    }
    Ok(None)
}

#[test]
fn orders(rt: HostRuntime) -> Result<(), Fail> {
    none_wrong(first_wrong_order(rt.alloc())?)
}

/// Two RAMs of the same bytes are the same only where they have the same order, and a copy has its order.
#[test]
fn same_in_order(rt: HostRuntime) -> Result<(), Fail> {
    let big = Ram::new(rt.alloc(), 65_536, Order::Big)?;
    let little = Ram::new(rt.alloc(), 65_536, Order::Little)?;
    let copy = little.try_copy()?;
    assert!(rt; !big.same(&little) && !little.same(&big) && little.same(&copy));
    Ok(())
}

/// What is written into five pages of a RAM of 1 MiB: at both ends, over the borders of two, and zeros in a sixth.
const WRITES: &[(u32, u16)] = &[
    (0x8000_0000, 0x0100),
    (0x8000_5ffe, 0x0008),
    (0x8000_6000, 0x0900),
    (0x8000_8000, 0),
    (0x8008_0ffe, 0x0203),
    (0x800f_fffe, 0x0607),
];

/// Whether that can be written.
fn write_to_five(ram: &mut Ram) -> bool {
    for (address, half) in WRITES {
        if ram.store16(*address, *half).is_err() {
            return false;
        }
    }
    true
}

/// Pages, each with a place and the byte there.
const PAGES: [(u16, usize, u8); 5] = [
    (0, 0, 1),
    (5, 4_095, 8),
    (6, 0, 9),
    (128, 4_095, 3),
    (255, 4_095, 7),
];

/// Whether a list has those pages, and no others.
fn has_pages(pages: &[SharedPage]) -> bool {
    if pages.len() != PAGES.len() {
        return false;
    }
    for i in 0..PAGES.len() {
        let (number, at, byte) = PAGES[i];
        let page = pages[i].page();
        if page.number != number || at >= PAGE_SIZE || page.bytes[at] != byte {
            return false;
        }
    }
    true
}

/// Whether a RAM differs from a blank one in the pages that were written; the one that got only zeros is none of them.
fn differs_in_five(ram: &Ram, blank: &Ram) -> Result<bool, NoMemory> {
    if ram.size() != blank.size() || ram.order() != blank.order() {
        return Ok(false);
    }
    let pages = ram.pages(blank)?;
    Ok(has_pages(pages.as_slice()))
}

#[test]
fn pages(rt: HostRuntime) -> Result<(), Fail> {
    let blank = Ram::new(rt.alloc(), 1_048_576, Order::Big)?;
    let mut ram = blank.try_copy()?;
    assert!(rt; write_to_five(&mut ram) && differs_in_five(&ram, &blank)?);
    Ok(())
}

/// How many pages the largest RAM has.
const MOST_PAGES: u32 = 4_096;

/// Whether a byte can be written into each page of a RAM of 16 MiB.
fn write_to_all(ram: &mut Ram) -> bool {
    for number in 0..MOST_PAGES {
        if ram.store8(0x8000_0000 + 4_096 * number, 1).is_err() {
            return false;
        }
    }
    true
}

/// Whether a list has all pages of a RAM of 16 MiB, in their order, each with the byte that was written.
fn are_all_pages(pages: &[SharedPage]) -> bool {
    for (number, shared) in pages.iter().enumerate() {
        let page = shared.page();
        if page.number as usize != number || page.bytes[0] != 1 || page.bytes[1] != 0 {
            return false;
        }
    }
    pages.len() == MOST_PAGES as usize
}

/// Whether a RAM differs from a blank one in all pages.
fn differs_in_all(ram: &Ram, blank: &Ram) -> Result<bool, NoMemory> {
    if ram.size() != blank.size() || ram.order() != blank.order() {
        return Ok(false);
    }
    let pages = ram.pages(blank)?;
    Ok(are_all_pages(pages.as_slice()))
}

#[test]
fn all_pages(rt: HostRuntime) -> Result<(), Fail> {
    let blank = Ram::new(rt.alloc(), 16_777_216, Order::Big)?;
    let mut ram = blank.try_copy()?;
    assert!(rt; write_to_all(&mut ram) && differs_in_all(&ram, &blank)?);
    Ok(())
}

/// Segments, names, and whether an image of these is plain.
const IMAGES: &[(&[(u32, &[u8])], &[&[u8]], bool)] = &[
    (&[], &[], true),
    (&[(0x8000_0000, b"\0\0"), (0x8000_0002, b"\0")], &[], true),
    (&[(0x80ff_fffe, b"\0\0")], &[], true),
    (&[(0x80ff_ffff, b"\0\0")], &[], false),
    (&[(0x7fff_ffff, b"\0\0")], &[], false),
    (&[(0xffff_ffff, b"\0\0")], &[], false),
    (&[(0x8000_0000, b"")], &[], false),
    (&[(0x8000_0000, b"\0\0"), (0x8000_0001, b"\0")], &[], false),
    (&[(0x8000_0002, b"\0"), (0x8000_0000, b"\0")], &[], false),
    (&[], &[b""], false),
    (&[], &[b"a\0"], false),
    (&[], &[b"a", b"b", b"A"], true),
    (&[], &[b"a", b"b", b"a"], false),
    (&[], &[b"a", b"b", b"b"], false),
];

/// Puts these segments at the end.
fn put_segments(alloc: Global, out: &mut Segments, rows: &[(u32, &[u8])]) -> Result<(), NoMemory> {
    for (address, bytes) in rows {
        out.push(Segment {
            address: *address,
            bytes: Bytes::from_slice(alloc, *bytes)?,
        })?;
    }
    Ok(())
}

/// Puts symbols with these names at the end.
fn put_names(alloc: Global, out: &mut Symbols, names: &[&[u8]]) -> Result<(), NoMemory> {
    for name in names {
        out.push(Symbol {
            name: Bytes::from_slice(alloc, *name)?,
            value: 1,
        })?;
    }
    Ok(())
}

/// Whether an image of these is plain.
fn is_plain_with(
    alloc: Global,
    segments: &[(u32, &[u8])],
    names: &[&[u8]],
) -> Result<bool, NoMemory> {
    let mut image = Image::from_words(alloc, &[])?;
    put_segments(alloc, &mut image.segments, segments)?;
    put_names(alloc, &mut image.symbols, names)?;
    Ok(is_plain(&image))
}

/// The first image that isn't as its row says.
fn first_wrong_image(alloc: Global) -> Result<Option<usize>, NoMemory> {
    for (row, (segments, names, expected)) in IMAGES.iter().enumerate() {
        if is_plain_with(alloc, *segments, *names)? != *expected {
            return Ok(Some(row));
        }
    }
    Ok(None)
}

#[test]
fn plain_images(rt: HostRuntime) -> Result<(), Fail> {
    none_wrong(first_wrong_image(rt.alloc())?)
}
