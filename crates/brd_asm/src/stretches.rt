//! The longest stretches of filled addresses.

ghost use Rattle.std.specs.Prelude.{◌≡◌, ◌<◌, [], length, IfOk};
ghost use Rattle.brd_asm.specs.Output.{joined};
ghost use Rattle.brd_asm.specs.Image.{AreStretches};
ghost use Rattle.brd_asm.specs.Index.{total_size, byte_at};

use crate::pieces::Pieces;
use brd_base::NoMemory;
use brd_mem::{Bytes, Segment, Segments};
use std::alloc::Global;
use std::marker::Model;

/// Stretches of bytes, the last of which may still grow.
#[derive(Drop)]
struct Stretches {
    done: Segments,
    address: u32,
    bytes: Bytes,
}

impl Model for Stretches {
    ghost use Rattle.std.specs.Prelude.{◌≡◌, List, [], ◌++◌};
    ghost use Rattle.brd_mem.specs.declared.image.Segment.{Segment};
    ghost use Rattle.brd_asm.specs.Output.{last_stretch};

    ghost Value = { List Segment };

    ghost view = { λ s. s.done ++ last_stretch s.address s.bytes };

    ghost invariant = { λ s. s.bytes ≡ [] → s.done ≡ [] };
}

impl Stretches {
    /// None.
    fn new(alloc: Global) -> Self
        ensures { result ≡ [] }
    {
        Stretches {
            done: Segments::new(alloc),
            address: 0,
            bytes: Bytes::new(alloc),
        }
    }

    /// With bytes at an address after all others.
    fn with(self, alloc: Global, address: u32, more: &[u8]) -> Result<Self, NoMemory>
        requires { 0 < length more.now }
        ensures { IfOk result (λ s. s ≡ joined self address more.now) }
    {
        let Stretches {
            mut done,
            address: start,
            mut bytes,
        } = self;
        if bytes.is_empty() {
            bytes.append(more)?;
            return Ok(Stretches {
                done,
                address,
                bytes,
            });
        }
        if start as u128 + bytes.len() as u128 == address as u128 {
            bytes.append(more)?;
            return Ok(Stretches {
                done,
                address: start,
                bytes,
            });
        }
        done.push(Segment {
            address: start,
            bytes,
        })?;
        let mut fresh = Bytes::new(alloc);
        fresh.append(more)?;
        Ok(Stretches {
            done,
            address,
            bytes: fresh,
        })
    }

    /// The stretches.
    fn into_segments(self) -> Result<Segments, NoMemory>
        ensures { IfOk result (λ segments. segments ≡ self) }
    {
        let Stretches {
            mut done,
            address,
            bytes,
        } = self;
        if !bytes.is_empty() {
            done.push(Segment { address, bytes })?;
        }
        Ok(done)
    }
}

/// The segments of pieces whose bytes are the output.
pub fn segments_of(alloc: Global, pieces: Pieces, output: &[u8]) -> Result<Segments, NoMemory>
    requires { length output.now ≡ total_size pieces }
    ensures { IfOk result (λ segments. AreStretches (byte_at output.now pieces.entry) segments) }
{
    let mut ranges = pieces.into_ranges();
    let mut stretches = Stretches::new(alloc);
    while let Some(range) = ranges.pop_first() {
        let offset = range.item as usize;
        let len = (range.end - range.start) as usize;
        stretches = stretches.with(alloc, range.start, &output[offset..offset + len])?;
    }
    stretches.into_segments()
}
