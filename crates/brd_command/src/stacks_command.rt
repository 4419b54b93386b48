//! The command `trace`, with how deep the stacks of a run became.

ghost use Rattle.std.specs.Prelude.{◌≡◌, ◌≤◌, ◌⊎◌, length, true, false, MatchResult, List as ListOf, OnOk};
ghost use Rattle.brd_board.specs.Board.{BoardState as BoardOf};
ghost use Rattle.brd_stacks.specs.declared.stack.Stack.{Stack as StackOf};
ghost use Rattle.brd_stacks.specs.Depths.{some_overflow};
ghost use Rattle.brd_stacks.specs.Following.{IsFollowed};
ghost use Rattle.brd_command.specs.StacksCommand.{WritesStacks};
ghost use Rattle.brd_command.specs.TraceCommand.{IsOfWriting};

use crate::trace_command::written;
use brd_base::NoMemory;
use brd_board::Board;
use brd_config::Config;
use brd_inputs::CommandFault;
use brd_journal::Journal;
use brd_mem::Image;
use brd_progress::Progress;
use brd_running::PIECE;
use brd_stacks::{Following, put_stacks, stacks_of};
use std::alloc::Global;
use std::io::Write;

/// Lets a board do the events of a journal up to a position, or up to the first store below a stack, and writes how
/// deep each stack of its tasks and handlers became.
pub(crate) fn write_stacks<W: Write, P: Progress>(
    alloc: Global,
    board: Board,
    image: &Image,
    config: &Config,
    journal: &Journal,
    to: u64,
    writer: &mut W,
    progress: &mut P,
) -> Result<(), CommandFault>
    requires within { to ≤ length journal.now.events }
    ensures { MatchResult result (λ _. WritesStacks image.now.symbols config.now board journal.now.events to
        (W.contents writer.old) (W.contents writer.new)) IsOfWriting }
{
    let stacks = stacks_of(alloc, image.symbols.as_slice(), config)?;
    let mut following = Following::new(alloc, board, stacks.as_slice())?;
    play(alloc, &mut following, journal, to, progress)?;
    let mut out = Vec::new(alloc);
    put_stacks(
        alloc,
        image.symbols.as_slice(),
        following.tracks(),
        &mut out,
    )?;
    written(writer, &out)
}

/// Lets a board do the events of a journal up to a position, or up to the first store below a stack.
pub(crate) fn play<P: Progress>(
    alloc: Global,
    following: &mut Following,
    journal: &Journal,
    to: u64,
    progress: &mut P,
) -> Result<(), NoMemory>
    requires on { following.old.playback.at ≤ to }
    requires within { to ≤ length journal.now.events }
    requires calm { some_overflow following.old.tracks.items ≡ false }
    ensures within { OnOk result (following.new.playback.at ≤ to) }
    ensures ends { OnOk result ((following.new.playback.at ≡ to) ⊎ (some_overflow following.new.tracks.items ≡ true)) }
    ensures followed { (boot : BoardOf) (stacks : ListOf StackOf) →
        IsFollowed boot journal.now.events stacks following.old
        → OnOk result (IsFollowed boot journal.now.events stacks following.new) }
{
    while following.playback.at < to {
        let piece = following.playback.at.saturating_add(PIECE).min(to);
        following.advance_far(alloc, journal, piece)?;
        if following.has_overflow() {
            break;
        }
        progress.show(following.playback.at, to);
    }
    progress.hide();
    Ok(())
}
