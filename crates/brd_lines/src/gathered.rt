//! What is gathered of a line table while its programs run.

use crate::flaw::Flaw;
use crate::lines::Stretch;
use crate::unit::Unit;
use brd_base::{BASE, TOP};
use std::alloc::Global;
use std::collections::BTreeMap;

/// How many stretches a table may have (own choice).
const MOST_STRETCHES: usize = 1_048_576;

/// How many bytes the paths of files may have together (own choice).
const MOST_BYTES: usize = 4_194_304;

/// How often a path is made at most (own choice).
const MOST_PATHS: u32 = 65_536;

/// A row of a line table.
#[derive(Clone, Copy)]
pub(crate) struct Row {
    /// The address.
    pub(crate) address: u32,
    /// The number of the file in its unit.
    pub(crate) file: u64,
    /// The line; 0 where it is of none.
    pub(crate) line: u32,
}

/// Stretches as they come, and the paths of their files.
#[derive(Drop)]
pub(crate) struct Gathered {
    pub(crate) stretches: Vec<Stretch>,
    pub(crate) paths: Vec<Vec<u8>>,
    /// By each path its place.
    places: BTreeMap<Vec<u8>, u32>,
    /// How many bytes the paths have.
    bytes: usize,
    /// How many were made.
    made: u32,
}

impl Gathered {
    /// Nothing.
    pub(crate) fn new(alloc: Global) -> Gathered {
        Gathered {
            stretches: Vec::new(alloc),
            paths: Vec::new(alloc),
            places: BTreeMap::new(alloc),
            bytes: 0,
            made: 0,
        }
    }

    /// Adds what a row of a unit stands for, up to an address above it. What isn't in RAM is left out, and so is what
    /// is of no line.
    pub(crate) fn add(
        &mut self,
        alloc: Global,
        unit: &mut Unit,
        row: Row,
        to: u32,
    ) -> Result<(), Flaw> {
        if row.line == 0 || row.address < BASE || to > TOP {
            return Ok(());
        }
        if self.stretches.len() >= MOST_STRETCHES {
            return Err(Flaw::Damaged);
        }
        let file = self.file_of(alloc, unit, row.file)?;
        self.stretches.push(Stretch {
            from: row.address,
            to,
            file,
            line: row.line,
        })?;
        Ok(())
    }

    /// The place of the path of a unit's file with a number.
    fn file_of(&mut self, alloc: Global, unit: &mut Unit, number: u64) -> Result<u32, Flaw> {
        let Some(place) = unit.place_of(number) else {
            return Err(Flaw::Damaged);
        };
        let Some(file) = unit.files.get(place).copied() else {
            return Err(Flaw::Damaged);
        };
        if let Some(known) = file.known {
            return Ok(known);
        }
        let path = unit.path_of(alloc, &file)?;
        let known = self.place_of(alloc, path)?;
        if let Some(file) = unit.files.get_mut(place) {
            file.known = Some(known);
        }
        Ok(known)
    }

    /// The place of a path.
    fn place_of(&mut self, alloc: Global, path: Vec<u8>) -> Result<u32, Flaw> {
        if self.made >= MOST_PATHS || path.len() > MOST_BYTES - self.bytes.min(MOST_BYTES) {
            return Err(Flaw::Damaged);
        }
        self.made += 1;
        if let Some(place) = self.places.get(path.as_slice()) {
            return Ok(*place);
        }
        let place = self.paths.len().min(MOST_PATHS as usize) as u32;
        self.bytes = self.bytes.saturating_add(path.len());
        let mut copy = Vec::new(alloc);
        copy.extend_from_slice(&path)?;
        self.paths.push(copy)?;
        self.places.insert(path, place)?;
        Ok(place)
    }
}
