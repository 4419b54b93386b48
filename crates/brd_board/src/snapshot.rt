//! Snapshots.

use crate::view::Fault;
use brd_kernel::SavedKernel;
use brd_link::Links;
use brd_mem::Pages;
use std::marker::Model;

/// What is kept of a board so that it can be had again from the boot: the pages of RAM in which they differ, and the
/// rest whole.
pub struct Snapshot {
    pub(crate) kernel: SavedKernel,
    pub(crate) pages: Pages,
    pub(crate) links: Links,
    pub(crate) faults: Vec<Option<Fault>>,
}

impl Model for Snapshot {
    ghost use Rattle.std.specs.Prelude.{◌≡◌, length};
    ghost use Rattle.brd_board.specs.Snapshot.{SnapshotState};

    ghost Value = { SnapshotState };

    ghost view = { λ s. record { kernel = s.kernel; pages = s.pages; links = s.links; faults = s.faults.items } };

    ghost invariant = { λ s. length s.faults.items ≡ 9 };
}

/// Written out, so that a function that lets one go is proved with a call, and not with the end of each part.
impl Drop for Snapshot {
    fn drop(self) {
        let Snapshot {
            kernel: _,
            pages: _,
            links: _,
            faults: _,
        } = self;
    }
}
