//! The command `trace`, with the data races of a run.

ghost use Rattle.std.specs.Prelude.{◌≡◌, ◌≤◌, length, take, IfErr, IfOk, List as ListOf, OnOk};
ghost use Rattle.brd_config.specs.declared.objects.QueueConfig.{QueueConfig as QueueOf};
ghost use Rattle.brd_board.specs.Board.{BoardState as BoardOf};
ghost use Rattle.brd_order.specs.Races.{AreRaces};
ghost use Rattle.brd_deeds.specs.Deeds.{deeds_of_run};
ghost use Rattle.brd_deeds.specs.Racing.{IsRaced};
ghost use Rattle.brd_command.specs.RacesCommand.{MayStop, fault_of};
ghost use Rattle.brd_command.specs.TraceCommand.{EndsRacing};

use crate::trace_command::written;
use brd_base::{List, NoMemory};
use brd_board::Board;
use brd_config::{Config, QueueConfig};
use brd_deeds::Racing;
use brd_inputs::{CommandFault, TraceFault};
use brd_journal::Journal;
use brd_names::{Names, put_races};
use brd_order::{OrderFault, Race};
use brd_progress::Progress;
use brd_running::PIECE;
use std::alloc::Global;
use std::io::Write;

/// Lets a board do the events of a journal up to a position, and writes the first race of each word that has one.
pub(crate) fn write_races<W: Write, P: Progress>(
    alloc: Global,
    board: Board,
    config: &Config,
    names: Names,
    journal: &Journal,
    to: u64,
    writer: &mut W,
    progress: &mut P,
) -> Result<(), CommandFault>
    requires within { to ≤ length journal.now.events }
    ensures { EndsRacing result names.entry config.now.queues board journal.now.events to (W.contents writer.old)
        (W.contents writer.new) }
{
    let queues = config.queues.as_slice();
    let races = match races_of(alloc, board, queues, journal, to, progress) {
        Ok(races) => races,
        Err(fault) => return Err(fault_of(fault)),
    };
    let mut out = Vec::new(alloc);
    put_races(alloc, names, races.as_slice(), &mut out)?;
    written(writer, &out)
}

/// The first race of each word that has one, in what a board with these data queues does in the events of a journal up
/// to a position.
fn races_of<P: Progress>(
    alloc: Global,
    board: Board,
    queues: &[QueueConfig],
    journal: &Journal,
    to: u64,
    progress: &mut P,
) -> Result<List<Race>, OrderFault>
    requires within { to ≤ length journal.now.events }
    ensures are { IfOk result (AreRaces (deeds_of_run queues.now board (take to journal.now.events))) }
    ensures stops { IfErr result (MayStop queues.now board journal.now.events to) }
{
    let mut racing = match Racing::new(alloc, board, queues) {
        Ok(racing) => racing,
        Err(NoMemory) => return Err(OrderFault::NoMemory),
    };
    match play(alloc, &mut racing, journal, to, progress) {
        Ok(()) => {}
        Err(fault) => return Err(fault),
    }
    racing.finish(alloc)
}

/// Lets a board do the events of a journal up to a position, and follows their order.
fn play<P: Progress>(
    alloc: Global,
    racing: &mut Racing,
    journal: &Journal,
    to: u64,
    progress: &mut P,
) -> Result<(), OrderFault>
    requires on { racing.old.playback.at ≤ to }
    requires within { to ≤ length journal.now.events }
    ensures at { OnOk result (racing.new.playback.at ≡ to) }
    ensures raced { (queues : ListOf QueueOf) (boot : BoardOf) → IsRaced queues boot journal.now.events racing.old
        → OnOk result (IsRaced queues boot journal.now.events racing.new) }
    ensures stops { (queues : ListOf QueueOf) (boot : BoardOf) → IsRaced queues boot journal.now.events racing.old
        → IfErr result (MayStop queues boot journal.now.events to) }
{
    let mut shown = 0;
    while racing.playback.at < to {
        match racing.advance(alloc, journal, to) {
            Ok(()) => {}
            Err(fault) => return Err(fault),
        }
        shown = show_piece(progress, shown, racing.playback.at, to);
    }
    progress.hide();
    Ok(())
}

/// Shows how far it has come, if that is a piece further than what is shown; and says what is shown then.
fn show_piece<P: Progress>(progress: &mut P, shown: u64, at: u64, to: u64) -> u64
    requires { shown ≤ at }
    ensures { result ≤ at }
{
    if at - shown < PIECE {
        return shown;
    }
    progress.show(at, to);
    at
}

/// The fault of the command where the order isn't followed further.
fn fault_of(fault: OrderFault) -> CommandFault
    ensures { result ≡ fault_of fault }
{
    match fault {
        OrderFault::NoMemory => CommandFault::NoMemory,
        OrderFault::TooManyTouches | OrderFault::TooManyThings | OrderFault::TooManyDeeds => {
            CommandFault::Trace(TraceFault::TooManyTouches)
        }
    }
}
