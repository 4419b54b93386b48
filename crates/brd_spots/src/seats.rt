//! Boards that become those of places, so that none is made anew at each place.

use crate::spots::Spots;
use brd_base::NoMemory;
use brd_board::Board;

/// Boards that become other ones.
#[derive(Drop)]
pub struct Seats {
    /// That of a place.
    pub here: Board,
    /// That to which an event leads from it.
    pub last: Board,
    /// That of another place, with which it is compared.
    pub spare: Board,
}

impl Seats {
    /// Boards of the first place.
    pub fn new(spots: &Spots) -> Result<Seats, NoMemory> {
        Ok(Seats {
            here: spots.board(0)?,
            last: spots.board(0)?,
            spare: spots.board(0)?,
        })
    }
}
