//! A board of a source, or of an object file, and a configuration.

ghost use Rattle.std.specs.Prelude.{◌≡◌, false, IfOk, IfErr, MatchResult};
ghost use Rattle.brd_mem.specs.declared.image.Image.{Image as ImageOf};
ghost use Rattle.brd_elf.specs.File.{Fits, file};
ghost use Rattle.brd_image.specs.Faults.{Gives, holds_no_memory, is_of_elf};
ghost use Rattle.brd_image.specs.Building.{Builds, GivesBoard, HasParts, IsImageOf, IsObjectFile, KeepsFromAssembling};
ghost use Rattle.brd_image.specs.Building.{booted, loaded};
ghost use Rattle.brd_image.specs.Headline.{Starts};

use crate::fault::BuildFault;
use brd_asm::assemble;
use brd_asm::laws::a_program_has_one_image;
use brd_board::Board;
use brd_config::{Config, parse};
use brd_elf::{read, write};
use brd_mem::Image;
use std::alloc::Global;

/// The board of an assembler source and a configuration: the source is assembled, the object file of its image is
/// written and read, the configuration is parsed, and the board is booted.
///
/// # Errors
///
/// The first fault in that order. It is none of the object file where the source's image fits its file
/// (`brd_elf::fits`: at most 65,534 segments, and a file shorter than 2^32 bytes). `NoMemory` where memory runs out, at
/// whatever point.
pub fn build(alloc: Global, source: &[u8], config: &[u8]) -> Result<Board, BuildFault>
    // The board that the file of the source's image and the configuration make, or the first fault.
    ensures meaning { Builds source.now config.now result }
    // Where the source's image fits its file, that is the board of the image itself.
    ensures image { (image : ImageOf) → IsImageOf source.now image → Fits image →
        Gives result (booted image config.now) }
    // And then no fault is one of the object file.
    ensures no_elf { (image : ImageOf) → IsImageOf source.now image → Fits image →
        IfErr result (λ fault. is_of_elf fault ≡ false) }
    // And then the words of the file that was read decode to the source's instructions, and memory starts as that file
    // names.
    ensures starts { (image : ImageOf) → IsImageOf source.now image → Fits image →
        IfOk result (Starts source.now (file image) config.now) }
    // That memory ran out stands in no other fault.
    ensures memory { IfErr result (λ fault. holds_no_memory fault ≡ false) }
{
    a_program_has_one_image();
    let elf = object_file(alloc, source)?;
    load(alloc, &elf, config)
}

/// The board of an object file and a configuration: the file is read, the configuration is parsed, and the board is
/// booted.
///
/// # Errors
///
/// The first fault in that order. `NoMemory` where memory runs out, at whatever point.
pub fn load(alloc: Global, elf: &[u8], config: &[u8]) -> Result<Board, BuildFault>
    // The board that the file and the configuration make, or the first fault.
    ensures meaning { Gives result (loaded elf.now config.now) }
    // That memory ran out stands in no other fault.
    ensures memory { IfErr result (λ fault. holds_no_memory fault ≡ false) }
{
    let Loaded {
        board,
        image: _,
        config: _,
    } = load_with_parts(alloc, elf, config)?;
    Ok(board)
}

/// A board, with what it was made of.
#[derive(Drop)]
pub struct Loaded {
    /// The board.
    pub board: Board,
    /// The image that the object file means.
    pub image: Image,
    /// What the configuration says.
    pub config: Config,
}

/// The board of an object file and a configuration as `load` makes it, with what was read of both.
///
/// # Errors
///
/// Those of `load`.
pub fn load_with_parts(alloc: Global, elf: &[u8], config: &[u8]) -> Result<Loaded, BuildFault>
    // The board that the file and the configuration make, or the first fault.
    ensures meaning { GivesBoard result (loaded elf.now config.now) }
    // The image is the file's, and the configuration what its text says.
    ensures parts { IfOk result (HasParts elf.now config.now) }
    // That memory ran out stands in no other fault.
    ensures memory { IfErr result (λ fault. holds_no_memory fault ≡ false) }
{
    let image = read(alloc, elf)?;
    let config = parse(alloc, config)?;
    let board = Board::boot(alloc, &image, &config)?;
    Ok(Loaded {
        board,
        image,
        config,
    })
}

/// The object file of a source.
fn object_file(alloc: Global, source: &[u8]) -> Result<Vec<u8>, BuildFault>
    ensures file { MatchResult result (λ elf. IsObjectFile source.now elf.items) (KeepsFromAssembling source.now) }
    ensures memory { IfErr result (λ fault. holds_no_memory fault ≡ false) }
{
    let image = assemble(alloc, source)?;
    Ok(write(alloc, &image)?)
}
