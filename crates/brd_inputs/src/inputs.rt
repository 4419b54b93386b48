//! The inputs of the commands over a board.

ghost use Rattle.std.specs.Prelude.{IfSome, MatchResult};
ghost use Rattle.brd_inputs.specs.Opening.{OpensInputs, OpensPair};
ghost use Rattle.brd_inputs.specs.Start.{AreBothRead, AreRead, IsLast, KeepsFromReadingBoth, KeepsFromStarting};

use crate::fault::CommandFault;
use crate::files::Files;
use crate::input::read_whole;
use crate::input_name::InputName;
use std::alloc::Global;
use std::io::Read;

/// What a command reads that needs a board alone: an object file and a configuration.
#[derive(Drop)]
pub struct Pair<R> {
    /// The object file.
    pub image: R,
    /// The configuration.
    pub config: R,
}

/// Opens IMAGE, then CONFIG.
pub fn open_pair<F: Files>(
    alloc: Global,
    files: &mut F,
    image: &str,
    config: &str,
) -> Result<Pair<F::Input>, CommandFault>
    ensures { OpensPair F.opened files.old image.now config.now result files.new }
{
    let of_image = match files.open(image) {
        Ok(reader) => reader,
        Err(error) => return Err(CommandFault::of_open(alloc, image, error)),
    };
    let of_config = match files.open(config) {
        Ok(reader) => reader,
        Err(error) => return Err(CommandFault::of_open(alloc, config, error)),
    };
    Ok(Pair {
        image: of_image,
        config: of_config,
    })
}

/// What a command over a board reads: an object file, a configuration, and a journal or a script.
#[derive(Drop)]
pub struct Inputs<R> {
    /// The object file.
    pub image: R,
    /// The configuration.
    pub config: R,
    /// The journal, or the script.
    pub last: R,
}

/// Opens IMAGE, then CONFIG, then the last.
pub fn open_inputs<F: Files>(
    alloc: Global,
    files: &mut F,
    image: &str,
    config: &str,
    last: &str,
) -> Result<Inputs<F::Input>, CommandFault>
    ensures { OpensInputs F.opened files.old image.now config.now last.now result files.new }
{
    let Pair {
        image: of_image,
        config: of_config,
    } = match open_pair(alloc, files, image, config) {
        Ok(pair) => pair,
        Err(fault) => return Err(fault),
    };
    let of_last = match files.open(last) {
        Ok(reader) => reader,
        Err(error) => return Err(CommandFault::of_open(alloc, last, error)),
    };
    Ok(Inputs {
        image: of_image,
        config: of_config,
        last: of_last,
    })
}

/// An object file and a configuration, read to their ends.
#[derive(Drop)]
pub(crate) struct PairTexts {
    /// The object file.
    pub(crate) image: Vec<u8>,
    /// The configuration.
    pub(crate) config: Vec<u8>,
}

/// Reads an object file and a configuration to their ends, in this order.
pub(crate) fn read_both<R: Read>(
    alloc: Global,
    image: &mut R,
    config: &mut R,
) -> Result<PairTexts, CommandFault>
    ensures { IfSome (R.remaining image.old) (λ image. IfSome (R.remaining config.old) (λ config.
        MatchResult result (AreBothRead image config) (KeepsFromReadingBoth image config))) }
{
    let of_image = match read_whole(alloc, InputName::Image, image) {
        Ok(bytes) => bytes,
        Err(fault) => return Err(fault),
    };
    let of_config = match read_whole(alloc, InputName::Configuration, config) {
        Ok(bytes) => bytes,
        Err(fault) => return Err(fault),
    };
    Ok(PairTexts {
        image: of_image,
        config: of_config,
    })
}

/// The inputs of a command over a board, read to their ends.
#[derive(Drop)]
pub struct Texts {
    /// The object file.
    pub image: Vec<u8>,
    /// The configuration.
    pub config: Vec<u8>,
    /// The journal, or the script.
    pub last: Vec<u8>,
}

/// Reads the inputs to their ends, in their order. The last one is called so.
pub fn read_inputs<R: Read>(
    alloc: Global,
    last: InputName,
    inputs: &mut Inputs<R>,
) -> Result<Texts, CommandFault>
    requires { IsLast last }
    ensures { IfSome (R.remaining inputs.old.image) (λ image. IfSome (R.remaining inputs.old.config) (λ config.
        IfSome (R.remaining inputs.old.last) (λ text.
        MatchResult result (AreRead image config text) (KeepsFromStarting last image config text)))) }
{
    let PairTexts { image, config } = match read_both(
        alloc,
        &mut inputs.image,
        &mut inputs.config,
    ) {
        Ok(texts) => texts,
        Err(fault) => return Err(fault),
    };
    let text = match read_whole(alloc, last, &mut inputs.last) {
        Ok(text) => text,
        Err(fault) => return Err(fault),
    };
    Ok(Texts {
        image,
        config,
        last: text,
    })
}
