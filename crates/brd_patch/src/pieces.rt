//! Segments with pieces in their places.

ghost use Rattle.std.specs.Prelude.{◌≡◌, ◌++◌, ◌≤◌, IfOk, OnOk};
ghost use Rattle.brd_base.specs.Space.{top};
ghost use Rattle.brd_patch.specs.Data.{AreWithin, before, behind, end_of, with_piece, with_pieces};

use brd_base::NoMemory;
use brd_mem::{Bytes, Segment, Segments};
use std::alloc::Global;

/// Segments with pieces in their places.
pub fn with_pieces(
    alloc: Global,
    segments: &[Segment],
    pieces: &[Segment],
) -> Result<Segments, NoMemory>
    requires { AreWithin pieces.now }
    ensures { IfOk result (λ all. all ≡ with_pieces segments.now pieces.now) }
{
    let mut all = copy_of(alloc, segments)?;
    for piece in pieces {
        let more = with_piece(alloc, all.as_slice(), piece)?;
        all = more;
    }
    Ok(all)
}

/// A copy of segments.
fn copy_of(alloc: Global, segments: &[Segment]) -> Result<Segments, NoMemory>
    ensures { IfOk result (λ all. all ≡ segments.now) }
{
    let mut all = Segments::new(alloc);
    for segment in segments {
        let bytes = Bytes::from_slice(alloc, segment.bytes.as_slice())?;
        all.push(Segment {
            address: segment.address,
            bytes,
        })?;
    }
    Ok(all)
}

/// Segments without what lies where a piece does, and that piece after them.
fn with_piece(alloc: Global, segments: &[Segment], piece: &Segment) -> Result<Segments, NoMemory>
    requires { end_of piece.now ≤ top }
    ensures { IfOk result (λ all. all ≡ with_piece segments.now piece.now) }
{
    let low = piece.address as usize;
    let high = low + piece.bytes.len();
    let mut all = Segments::new(alloc);
    for segment in segments {
        put_before(alloc, &mut all, segment, low)?;
        put_behind(alloc, &mut all, segment, high)?;
    }
    let bytes = Bytes::from_slice(alloc, piece.bytes.as_slice())?;
    all.push(Segment {
        address: piece.address,
        bytes,
    })?;
    Ok(all)
}

/// Puts what a segment has before an address at the end, if there is something.
fn put_before(
    alloc: Global,
    all: &mut Segments,
    segment: &Segment,
    low: usize,
) -> Result<(), NoMemory>
    ensures { OnOk result (all.new ≡ all.old ++ before low segment.now) }
{
    let start = segment.address as usize;
    if start >= low {
        return Ok(());
    }
    let bytes = segment.bytes.as_slice();
    let len = (low - start).min(bytes.len());
    let kept = Bytes::from_slice(alloc, &bytes[..len])?;
    all.push(Segment {
        address: segment.address,
        bytes: kept,
    })?;
    Ok(())
}

/// Puts what a segment has from an address on at the end, if there is something.
fn put_behind(
    alloc: Global,
    all: &mut Segments,
    segment: &Segment,
    high: usize,
) -> Result<(), NoMemory>
    requires { high ≤ top }
    ensures { OnOk result (all.new ≡ all.old ++ behind high segment.now) }
{
    let start = segment.address as usize;
    let bytes = segment.bytes.as_slice();
    if high >= start + bytes.len() {
        return Ok(());
    }
    let skipped = high.saturating_sub(start);
    let kept = Bytes::from_slice(alloc, &bytes[skipped..])?;
    let address = (high as u32).max(segment.address);
    all.push(Segment {
        address,
        bytes: kept,
    })?;
    Ok(())
}
