//! What the commands over a board start with.

ghost use Rattle.std.specs.Prelude.{◌≡◌, IfOk, IfSome, MatchResult};
ghost use Rattle.brd_inputs.specs.Start.{AreWithin, IsRaceStart, IsStart, KeepsFromMaking, KeepsFromStarting};
ghost use Rattle.brd_inputs.specs.Start.{IsLoaded, IsMade, KeepsFromBuilding, KeepsFromLoading};
ghost use Rattle.brd_inputs.specs.declared.input_name.InputName.TheVariants as input_name;

use crate::fault::CommandFault;
use crate::input_name::InputName;
use crate::inputs::{Inputs, Pair, Texts, read_both, read_inputs};
use brd_base::NoMemory;
use brd_board::Board;
use brd_config::Config;
use brd_image::{Loaded, load_with_parts};
use brd_journal::{Journal, MOST_RUNS, read_text};
use brd_lines::Source;
use brd_mem::Image;
use brd_threads::{Outer, read_script};
use std::alloc::Global;
use std::io::Read;

/// A board, what it was made of, and a journal for it.
#[derive(Drop)]
pub struct Start {
    /// The board.
    pub board: Board,
    /// The image of the object file.
    pub image: Image,
    /// What the configuration says.
    pub config: Config,
    /// What is to happen to the board.
    pub journal: Journal,
}

/// A board, what it was made of, and a script of what comes to it from outside.
#[derive(Drop)]
pub struct RaceStart {
    /// The board.
    pub board: Board,
    /// The image of the object file.
    pub image: Image,
    /// What the configuration says.
    pub config: Config,
    /// What is to come from outside.
    pub script: Vec<Outer>,
}

/// Reads an object file and a configuration to their ends, in this order, which make a board, to which nothing has
/// happened yet.
pub fn read_board<R: Read>(alloc: Global, pair: &mut Pair<R>) -> Result<Loaded, CommandFault>
    ensures { IfSome (R.remaining pair.old.image) (λ image. IfSome (R.remaining pair.old.config) (λ config.
        MatchResult result (IsLoaded image config) (KeepsFromLoading image config))) }
{
    let texts = match read_both(alloc, &mut pair.image, &mut pair.config) {
        Ok(texts) => texts,
        Err(fault) => return Err(fault),
    };
    make_board(alloc, &texts.image, &texts.config)
}

/// The board that an object file and a configuration make, and what it was made of.
fn make_board(alloc: Global, image: &[u8], config: &[u8]) -> Result<Loaded, CommandFault>
    ensures { MatchResult result (IsMade image.now config.now) (KeepsFromBuilding image.now config.now) }
{
    match load_with_parts(alloc, image, config) {
        Ok(loaded) => Ok(loaded),
        Err(fault) => Err(CommandFault::of_build(alloc, fault, image, config)),
    }
}

/// Reads an object file, a configuration and a journal to their ends, in this order. The first two make the board, to
/// which nothing has happened yet, and the journal has its byte order.
pub fn read_start<R: Read>(alloc: Global, inputs: &mut Inputs<R>) -> Result<Start, CommandFault>
    ensures starts { IfSome (R.remaining inputs.old.image) (λ image. IfSome (R.remaining inputs.old.config) (λ config.
        IfSome (R.remaining inputs.old.last) (λ events.
        MatchResult result (λ start. AreWithin image config events × IsStart image config events start)
        (KeepsFromStarting input_name.Journal image config events)))) }
    ensures orders { IfOk result (λ start. start.journal.order ≡ start.board.memory.order) }
{
    let texts = match read_inputs(alloc, InputName::Journal, inputs) {
        Ok(texts) => texts,
        Err(fault) => return Err(fault),
    };
    make_start(alloc, &texts)
}

/// As `read_start`, and in `source` is then what the object file says of its source.
pub fn read_sourced_start<R: Read>(
    alloc: Global,
    inputs: &mut Inputs<R>,
    source: &mut Source,
) -> Result<Start, CommandFault>
    ensures starts { IfSome (R.remaining inputs.old.image) (λ image. IfSome (R.remaining inputs.old.config) (λ config.
        IfSome (R.remaining inputs.old.last) (λ events.
        MatchResult result (λ start. AreWithin image config events × IsStart image config events start)
        (KeepsFromStarting input_name.Journal image config events)))) }
    ensures orders { IfOk result (λ start. start.journal.order ≡ start.board.memory.order) }
{
    let texts = match read_inputs(alloc, InputName::Journal, inputs) {
        Ok(texts) => texts,
        Err(fault) => return Err(fault),
    };
    match Source::read(alloc, &texts.image) {
        Ok(read) => *source = read,
        Err(NoMemory) => return Err(CommandFault::NoMemory),
    }
    make_start(alloc, &texts)
}

/// The board that an object file and a configuration make, and a journal, which has its byte order.
pub fn make_start(alloc: Global, texts: &Texts) -> Result<Start, CommandFault>
    ensures { MatchResult result (IsStart texts.now.image.items texts.now.config.items texts.now.last.items)
        (KeepsFromMaking input_name.Journal texts.now.image.items texts.now.config.items texts.now.last.items) }
{
    let Loaded {
        board,
        image,
        config,
    } = match make_board(alloc, &texts.image, &texts.config) {
        Ok(loaded) => loaded,
        Err(fault) => return Err(fault),
    };
    let journal = match read_text(alloc, &texts.last, MOST_RUNS) {
        Ok(journal) => journal,
        Err(fault) => return Err(CommandFault::of_journal(alloc, fault, &texts.last)),
    };
    if journal.order() != board.order() {
        return Err(CommandFault::OtherOrder(board.order()));
    }
    Ok(Start {
        board,
        image,
        config,
        journal,
    })
}

/// Reads an object file, a configuration and a script to their ends, in this order. The first two make the board, to
/// which nothing has happened yet.
pub fn read_race_start<R: Read>(
    alloc: Global,
    inputs: &mut Inputs<R>,
) -> Result<RaceStart, CommandFault>
    ensures { IfSome (R.remaining inputs.old.image) (λ image. IfSome (R.remaining inputs.old.config) (λ config.
        IfSome (R.remaining inputs.old.last) (λ text.
        MatchResult result (λ start. AreWithin image config text × IsRaceStart image config text start)
        (KeepsFromStarting input_name.Script image config text)))) }
{
    let texts = match read_inputs(alloc, InputName::Script, inputs) {
        Ok(texts) => texts,
        Err(fault) => return Err(fault),
    };
    make_race_start(alloc, &texts)
}

/// The board that an object file and a configuration make, and a script.
fn make_race_start(alloc: Global, texts: &Texts) -> Result<RaceStart, CommandFault>
    ensures { MatchResult result (IsRaceStart texts.now.image.items texts.now.config.items texts.now.last.items)
        (KeepsFromMaking input_name.Script texts.now.image.items texts.now.config.items texts.now.last.items) }
{
    let Loaded {
        board,
        image,
        config,
    } = match make_board(alloc, &texts.image, &texts.config) {
        Ok(loaded) => loaded,
        Err(fault) => return Err(fault),
    };
    let script = match read_script(alloc, &texts.last) {
        Ok(script) => script,
        Err(fault) => return Err(CommandFault::of_script(fault, &texts.last)),
    };
    Ok(RaceStart {
        board,
        image,
        config,
        script,
    })
}
