//! A run that is played for a page.

ghost use Rattle.std.specs.Prelude.{◌≡◌, ◌≤◌, ◌<◌, ◌+◌, ℕ, List as ListOf, IfOk, length};
ghost use Rattle.brd_board.specs.declared.event.Event.{Event as EventOf};
ghost use Rattle.brd_board.specs.Board.{BoardState as BoardOf};
ghost use Rattle.brd_journal.specs.Playing.{IsPlayed};
ghost use Rattle.brd_trace.specs.Recorded.{IsNoted};
ghost use Rattle.brd_page.specs.Recorder.{IsOfRun};

use crate::data::Json;
use crate::run_page::{Part, manner_of};
use crate::told::Told;
use brd_base::NoMemory;
use brd_happening::Before;
use brd_journal::Playback;
use brd_listing::Places;
use brd_printer::Manner;
use brd_trace::Tracer;
use std::alloc::Global;

/// A board that plays a journal, and what is told of it.
#[derive(Drop)]
pub(crate) struct Recorder {
    /// The board.
    pub playback: Playback,
    /// What makes the picture and the words: it plays the same events.
    pub tracer: Tracer,
    /// What is told of the next event.
    pub told: Told,
    /// The data, up to the last event.
    pub text: Json,
    from: u64,
    near: usize,
}

impl Recorder {
    /// A board that goes on where a tracer's has come to, and the data of how it stands there. Events were asked for
    /// from a position on.
    pub(crate) fn new(
        alloc: Global,
        tracer: Tracer,
        manner: Manner,
        asked: u64,
    ) -> Result<Recorder, NoMemory>
        ensures at { IfOk result (λ it. it.playback.at ≡ tracer.playback.at) }
        ensures both { IfOk result (λ it. it.tracer.playback.at ≡ it.playback.at) }
        ensures recorded { (boot : BoardOf) (events : ListOf EventOf) → IsPlayed boot events tracer.playback
            → IsNoted boot events tracer.playback.at tracer.notes
            → IfOk result (IsOfRun boot events tracer.playback.at) }
    {
        let mut tracer = tracer;
        tracer.record(alloc)?;
        let mut first = Vec::new(alloc);
        tracer.show(alloc, manner, &mut first)?;
        let playback = tracer.playback.try_copy()?;
        let mut told = Told::new(alloc, &playback.board)?;
        told.put_begin(&playback, asked)?;
        let mut text = Json::new(alloc);
        text.extend(&told.json)?;
        Ok(Recorder {
            from: playback.at,
            playback,
            tracer,
            told,
            text,
            near: 0,
        })
    }

    /// Plays the next event, and puts it at the end.
    pub(crate) fn step(
        &mut self,
        alloc: Global,
        part: Part,
        symbols: &Places,
    ) -> Result<(), NoMemory>
        requires on { self.old.playback.at < part.to }
        requires within { part.to ≤ length part.journal.now.events }
        requires both { self.old.tracer.playback.at ≡ self.old.playback.at }
        ensures goes { IfOk result (λ _. self.new.playback.at ≡ self.old.playback.at + 1) }
        ensures both { IfOk result (λ _. self.new.tracer.playback.at ≡ self.new.playback.at) }
        ensures recorded { (boot : BoardOf) (from : ℕ) → IsOfRun boot part.entry.journal.now.events from self.old
            → IfOk result (λ _. IsOfRun boot part.entry.journal.now.events from self.new) }
    {
        let at = self.playback.at;
        let Some(rest) = part.journal.rest_at(at, &mut self.near) else {
            return Ok(());
        };
        let before = Before::of(alloc, &self.playback.board, rest.event)?;
        let moved = self.playback.advance(rest, at + 1, at + 1);
        let happening = before.happening(alloc, moved.report, &self.playback.board)?;
        let mut line = Vec::new(alloc);
        let manner = manner_of(part.image, symbols);
        self.tracer
            .advance(alloc, manner, part.journal, at + 1, &mut line)?;
        self.tracer.finish(alloc, manner, &mut line)?;
        let board = &self.playback.board;
        self.told
            .put_event(alloc, part, symbols, board, &happening, at, &line)?;
        let first = at == self.from;
        self.text
            .put_row(first, happening.cpu, happening.place, &self.told.json)?;
        Ok(())
    }
}
