//! The pieces of a source, and the ranges of addresses that they fill.

ghost use Rattle.std.specs.Prelude.{◌≡◌, ◌+◌, ◌<◌, [], ◌∷◌, ◌++◌, true, false, map, length, OnOk, OnErr};
ghost use Rattle.brd_asm.specs.Layout.{size_of, are_in_ram, overlaps};
ghost use Rattle.brd_asm.specs.Index.{AreRangesOf as AreRangesOfPieces};
ghost use Rattle.brd_asm.specs.View as seen;

use crate::piece::Piece;
use brd_base::NoMemory;
use brd_ranges::{Range, Ranges};
use std::alloc::Global;
use std::marker::Model;

/// Pieces in the order of the source, none over another.
pub struct Pieces<'a> {
    pieces: Vec<Piece<'a>>,
    /// The addresses of each, with how many bytes of other pieces lie before its own in the output.
    ranges: Ranges<u32>,
}

impl<'a> Model for Pieces<'a> {
    ghost use Rattle.std.specs.Prelude.{List, map};
    ghost use Rattle.brd_asm.specs.Layout.{Piece as PieceValue};
    ghost use Rattle.brd_asm.specs.Index.{AreRangesOf};
    ghost use Rattle.brd_asm.specs.View as seen_here;

    ghost Value = { List PieceValue };

    ghost view = { λ all. map seen_here.piece all.pieces.items };

    ghost invariant = { λ all. AreRangesOf all.ranges (map seen_here.piece all.pieces.items) };
}

/// Written out, so that a function that lets one go is proved with a call, and not with the end of each part.
impl Drop for Pieces<'_> {
    fn drop(self) {
        let Pieces {
            pieces: _,
            ranges: _,
        } = self;
    }
}

impl<'a> Pieces<'a> {
    /// No pieces.
    pub fn new(alloc: Global) -> Self
        ensures { result ≡ [] }
    {
        Pieces {
            pieces: Vec::new(alloc),
            ranges: Ranges::new(alloc),
        }
    }

    /// Whether a piece has bytes at addresses from `low` up to, not including, `high`. It takes as many steps as the
    /// number of pieces has digits.
    pub fn overlaps(&self, low: u32, high: u32) -> bool
        ensures { result ≡ overlaps self.now low high }
    {
        self.ranges.overlaps(low, high)
    }

    /// Puts a piece of this size at the end. A refusal changes nothing, and the piece is given up.
    pub fn push(&mut self, piece: Piece<'a>, size: u32) -> Result<(), NoMemory>
        requires size_is { size ≡ size_of (seen.piece piece).content }
        requires filled { 0 < size }
        requires inside { are_in_ram piece.place size ≡ true }
        requires apart { overlaps self.old piece.place (piece.place + size) ≡ false }
        ensures ok { OnOk result (self.new ≡ self.old ++ seen.piece piece.entry ∷ []) }
        ensures err { OnErr result (self.new ≡ self.old) }
    {
        let range = Range {
            start: piece.place,
            end: piece.place + size,
            item: self.ranges.size(),
        };
        self.pieces.push(piece)?;
        if let Err(refused) = self.ranges.insert(range) {
            self.pieces.pop();
            return Err(refused);
        }
        Ok(())
    }

    /// The range of each piece.
    pub fn into_ranges(self) -> Ranges<u32>
        ensures { AreRangesOfPieces result self.entry }
    {
        let Pieces { pieces: _, ranges } = self;
        ranges
    }

    /// The pieces in the order of the source.
    pub fn as_slice(&self) -> &[Piece<'a>]
        ensures { map seen.piece result.now ≡ self.now }
    {
        self.pieces.as_slice()
    }
}
