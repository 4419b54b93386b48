//! Printing what was read.

use brd_elf::ElfFault;
use brd_mem::{Image, Segment};
use brd_word::Order;
use std::io;

/// That it is little-endian, if it is; the entry, each segment and each symbol.
pub fn image(rt: &impl Print, image: &Image) -> io::Result<()> {
    if image.order == Order::Little {
        println!(rt; "little-endian")?;
    }
    let entry = image.entry;
    println!(rt; "entry {entry:08x}")?;
    for segment in image.segments.as_slice() {
        let address = segment.address;
        let len = segment.bytes.len();
        let sum = sum_of(segment);
        println!(rt; "segment {address:08x} {len} bytes sum {sum}")?;
    }
    for symbol in image.symbols.as_slice() {
        let value = symbol.value;
        print!(rt; "symbol {value:08x} ")?;
        for byte in symbol.name.as_slice() {
            let letter = char::from(*byte);
            print!(rt; "{letter}")?;
        }
        println!(rt; "")?;
    }
    Ok(())
}

/// The sum of a segment's bytes, modulo 2^32.
fn sum_of(segment: &Segment) -> u32 {
    let mut sum = 0u32;
    for byte in segment.bytes.as_slice() {
        sum = sum.wrapping_add(u32::from(*byte));
    }
    sum
}

/// How many segments and symbols, or the fault.
pub fn answer(
    rt: &impl Print,
    name: &str,
    len: usize,
    answer: Result<Image, ElfFault>,
) -> io::Result<()> {
    match answer {
        Ok(image) => {
            let segments = image.segments.as_slice().len();
            let symbols = image.symbols.as_slice().len();
            println!(rt; "{name}: {len} bytes: {segments} segments, {symbols} symbols")
        }
        Err(fault) => println!(rt; "{name}: {len} bytes: {fault}"),
    }
}
