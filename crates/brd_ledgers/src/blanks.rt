//! The blanks of which a station's ledgers are made.

ghost use Rattle.std.specs.Prelude.{◌≡◌};
ghost use Rattle.brd_ledgers.specs.Blanks.{AreWhole};

use std::sync::ledger::Blank;

/// A blank of one part for each processor that there may be. They take no bytes.
#[derive(Drop)]
pub struct Blanks {
    /// For processor 1.
    pub first: Blank,
    /// For processor 2.
    pub second: Blank,
    /// For processor 3.
    pub third: Blank,
    /// For processor 4.
    pub fourth: Blank,
    /// For processor 5.
    pub fifth: Blank,
    /// For processor 6.
    pub sixth: Blank,
    /// For processor 7.
    pub seventh: Blank,
    /// For processor 8.
    pub eighth: Blank,
}

impl Blanks {
    /// New blanks.
    pub fn new() -> Self
        ensures { AreWhole result }
    {
        Blanks {
            first: Blank::new(1),
            second: Blank::new(1),
            third: Blank::new(1),
            fourth: Blank::new(1),
            fifth: Blank::new(1),
            sixth: Blank::new(1),
            seventh: Blank::new(1),
            eighth: Blank::new(1),
        }
    }
}
