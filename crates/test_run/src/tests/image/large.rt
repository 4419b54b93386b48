//! Sources of many segments.

use super::{fault_of, has_fault};
use brd_elf::ElfFault;
use brd_image::BuildFault;
use std::alloc::{AllocError, Global};
use std::test::Fail;

/// A source of n bytes, each alone: n segments.
fn separate(alloc: Global, count: u32) -> Result<String, AllocError> {
    let mut source = String::new(alloc);
    for place in 0..count {
        let address = 0x8000_0000u32.wrapping_add(place.wrapping_mul(2));
        write!(source, ".org {address}\n.byte 1\n")?;
    }
    Ok(source)
}

/// 65,535 segments are the mark of extended numbering, which isn't read: no file can hold such an image.
#[test]
fn more_segments_than_a_file_holds(rt: HostRuntime) -> Result<(), Fail> {
    let source = separate(rt.alloc(), 65_535)?;
    let wanted = BuildFault::Elf(ElfFault::Unsupported { at: 44 });
    assert!(rt; has_fault(rt.alloc(), source.as_bytes(), b"BOARD(1, 0x20000);", wanted));
    Ok(())
}

#[test]
fn many_segments(rt: HostRuntime) -> Result<(), Fail> {
    let source = separate(rt.alloc(), 5_000)?;
    assert!(rt; fault_of(rt.alloc(), source.as_bytes(), b"BOARD(1, 0x20000);").is_none());
    Ok(())
}
