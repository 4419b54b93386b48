//! Lists that grow.

use brd_base::{List, NoMemory};
use std::test::Fail;

/// Puts 100,002 numbers into a list, past many doublings of its room.
fn fill(list: &mut List<u32>) -> Result<(), NoMemory> {
    for n in 0..100_000u32 {
        list.push(n)?;
    }
    list.append(&[7, 8])
}

#[test]
fn lists_grow(rt: HostRuntime) -> Result<(), Fail> {
    let mut list = List::from_slice(rt.alloc(), &[9])?;
    fill(&mut list)?;
    assert!(rt; list.len() == 100_003);
    Ok(())
}
