//! What has happened up to the position of a session with GDB: the last lines of its trace, and its summary.

ghost use Rattle.std.specs.Prelude.{◌≡◌, ◌≤◌, ◌++◌, length, IfOk};
ghost use Rattle.brd_command.specs.Serving.{IsShown};

use crate::trace_command::{Part, Traced, lines_of};
use crate::trace_options::TraceFormat;
use brd_base::NoMemory;
use brd_board::Board;
use brd_config::Config;
use brd_gdb::{Monitor, Request};
use brd_journal::{Journal, MOST_RUNS};
use brd_listing::Places;
use brd_mem::Image;
use brd_names::{HEAD, Names};
use brd_printer::{Manner, Options};
use brd_progress::Progress;
use brd_summary::{put_end, put_summary};
use brd_trace::Tracer;
use brd_verdicts::findings_of;
use std::alloc::Global;

/// How many lines of a trace are shown at most (own choice).
const MOST_LINES: u64 = 4_096;

/// From how many events before a position its last lines are looked for first (own choice).
const FIRST: u64 = 1_024;

/// How often they are looked for at most, each time from 16 times as many events before: the last time from position 0.
const ROUNDS: u32 = 16;

/// What is added to the session's list of commands.
const HELP: &[u8] =
    b"trace N: the last N lines of what `board trace` shows up to this position, at most 4096\n\
    summary: what `board trace --summary` shows of it\n";

/// A board to which nothing has happened yet, what it was made of, and what is to happen to it.
pub struct History {
    boot: Board,
    journal: Journal,
    image: Image,
    /// The processor that handles each interrupt line, 0 where none does.
    lines: [u8; 160],
}

/// Written out, so that a function that lets one go is proved with a call, and not with the end of each part.
impl Drop for History {
    fn drop(self) {
        let History {
            boot: _,
            journal: _,
            image: _,
            lines: _,
        } = self;
    }
}

impl History {
    /// The history of a board under a journal.
    pub fn new(
        alloc: Global,
        boot: &Board,
        journal: &Journal,
        image: Image,
        config: &Config,
    ) -> Result<History, NoMemory> {
        Ok(History {
            boot: boot.try_copy()?,
            journal: copied(alloc, journal)?,
            image,
            lines: lines_of(config),
        })
    }

    /// What is shown on the console for a request to a session at this position, which says this itself.
    pub fn console<P: Progress>(
        &self,
        alloc: Global,
        request: Request,
        position: u64,
        said: &[u8],
        progress: &mut P,
    ) -> Result<Vec<u8>, NoMemory>
        ensures { IfOk result (λ text. IsShown request said.now text.items) }
    {
        match request {
            Request::Monitor(command) => self.monitor(alloc, command, position, said, progress),
            _ => joined(alloc, b"", said),
        }
    }

    /// The same for a command of the user.
    fn monitor<P: Progress>(
        &self,
        alloc: Global,
        command: Monitor,
        position: u64,
        said: &[u8],
        progress: &mut P,
    ) -> Result<Vec<u8>, NoMemory> {
        match command {
            Monitor::Trace(lines) => self.last_lines(alloc, position, lines, progress),
            Monitor::Summary => self.summary(alloc, position, progress),
            Monitor::Help => joined(alloc, said, HELP),
            _ => joined(alloc, said, b""),
        }
    }

    /// The last lines of the trace up to a position. They are looked for from nearby first, and then from ever farther
    /// before it, until there are more than are shown: events before the first line may belong to it.
    fn last_lines<P: Progress>(
        &self,
        alloc: Global,
        position: u64,
        lines: u32,
        progress: &mut P,
    ) -> Result<Vec<u8>, NoMemory> {
        let most = (lines as u64).min(MOST_LINES);
        let symbols = Places::new(alloc, self.image.symbols.as_slice())?;
        let mut back = FIRST;
        let mut tail = Tail::new(alloc, most);
        for _ in 0..ROUNDS {
            let from = position.saturating_sub(back);
            let traced = self.traced(alloc, &symbols, from, position);
            tail = self.tail(traced, most, progress)?;
            if from == 0 || tail.count > most {
                break;
            }
            back = back.saturating_mul(16);
        }
        joined(alloc, &tail.text, b"")
    }

    /// The last lines of a part of the trace. Before the first event are the names of the columns, and what each
    /// processor does.
    fn tail<P: Progress>(
        &self,
        traced: Traced,
        most: u64,
        progress: &mut P,
    ) -> Result<Tail, NoMemory>
        requires order { traced.part.from ≤ traced.part.to }
        requires within { traced.part.to ≤ length traced.journal.now.events }
    {
        let alloc = traced.alloc;
        let mut tracer = self.tracer(alloc)?;
        traced.skip(&mut tracer, traced.part.from, progress)?;
        let mut tail = Tail::new(alloc, most);
        let mut first = joined(alloc, HEAD.as_bytes(), b"")?;
        tracer.show(alloc, traced.manner, &mut first)?;
        if traced.part.from == 0 {
            tail.put(alloc, &first)?;
        }
        put_events(&traced, &mut tracer, &mut tail, progress)?;
        let mut last = Vec::new(alloc);
        tracer.finish(alloc, traced.manner, &mut last)?;
        tail.put(alloc, &last)?;
        Ok(tail)
    }

    /// The summary at a position.
    fn summary<P: Progress>(
        &self,
        alloc: Global,
        position: u64,
        progress: &mut P,
    ) -> Result<Vec<u8>, NoMemory> {
        let symbols = Places::new(alloc, self.image.symbols.as_slice())?;
        let traced = self.traced(alloc, &symbols, 0, position);
        let mut tracer = self.tracer(alloc)?;
        traced.play(&mut tracer, traced.part.to, progress)?;
        let mut out = Vec::new(alloc);
        put_end(&tracer, alloc, &mut out)?;
        let boot = self.boot.try_copy()?;
        let found = findings_of(alloc, boot.try_copy()?, traced.journal, traced.part.to)?;
        put_summary(&tracer, alloc, traced.manner.names, &found, &mut out)?;
        traced.put_spins(boot, &tracer.playback, None, &mut out)?;
        Ok(out)
    }

    /// What a trace of the events between two positions is made of, as far as the journal has some.
    fn traced<'a>(
        &'a self,
        alloc: Global,
        symbols: &'a Places<'_>,
        from: u64,
        to: u64,
    ) -> Traced<'a>
        ensures order { result.part.from ≤ result.part.to }
        ensures within { result.part.to ≤ length result.journal.now.events }
    {
        let to = to.min(self.journal.len());
        let from = from.min(to);
        Traced {
            alloc,
            manner: Manner {
                names: Names::new(symbols, self.image.segments.as_slice()),
                order: self.image.order,
                words: &[],
            },
            image: &self.image,
            journal: &self.journal,
            part: Part {
                format: TraceFormat::Text,
                from,
                to,
            },
        }
    }

    /// What tells of the board, to which nothing has happened yet.
    fn tracer(&self, alloc: Global) -> Result<Tracer, NoMemory>
        ensures { IfOk result (λ tracer. tracer.playback ≡ record { board = self.now.boot; at = 0 }) }
    {
        let board = self.boot.try_copy()?;
        let shown = Options {
            cpu: None,
            instructions: false,
            touching: false,
            shown: false,
            lines: self.lines,
        };
        Tracer::new(alloc, board, shown)
    }
}

/// Lets a tracer do the events up to the end of the part, and puts their lines at the end.
fn put_events<P: Progress>(
    traced: &Traced<'_>,
    tracer: &mut Tracer,
    tail: &mut Tail,
    progress: &mut P,
) -> Result<(), NoMemory>
    requires on { tracer.old.playback.at ≤ traced.now.part.to }
    requires within { traced.now.part.to ≤ length traced.now.journal.now.events }
{
    while tracer.playback.at < traced.part.to {
        let lines = traced.advance(tracer, traced.part.to)?;
        tail.put(traced.alloc, &lines)?;
        progress.show(tracer.playback.at, traced.part.to);
    }
    progress.hide();
    Ok(())
}

/// The last lines of a text that comes piece by piece.
struct Tail {
    /// How many are kept at most.
    most: u64,
    /// How many have come.
    count: u64,
    /// The last of them.
    text: Vec<u8>,
}

/// Written out, so that a function that lets one go is proved with a call, and not with the end of each part.
impl Drop for Tail {
    fn drop(self) {
        let Tail {
            most: _,
            count: _,
            text: _,
        } = self;
    }
}

impl Tail {
    /// Nothing has come.
    fn new(alloc: Global, most: u64) -> Tail {
        Tail {
            most,
            count: 0,
            text: Vec::new(alloc),
        }
    }

    /// These lines come.
    fn put(&mut self, alloc: Global, lines: &[u8]) -> Result<(), NoMemory> {
        self.count = self.count.saturating_add(lines_in(lines));
        let text = joined(alloc, &self.text, lines)?;
        let start = start_of_last(&text, self.most);
        self.text = joined(alloc, text.get(start..).unwrap_or(&[]), b"")?;
        Ok(())
    }
}

/// How many lines a text has.
fn lines_in(text: &[u8]) -> u64 {
    let mut count = 0u64;
    for byte in text {
        if *byte == b'\n' {
            count = count.saturating_add(1);
        }
    }
    count
}

/// Where the last lines of a text begin, so many of them.
fn start_of_last(text: &[u8], lines: u64) -> usize {
    let mut before = lines_in(text).saturating_sub(lines);
    let mut start = 0usize;
    for (i, byte) in text.iter().enumerate() {
        if before == 0 {
            break;
        }
        if *byte == b'\n' {
            before -= 1;
            start = i.saturating_add(1);
        }
    }
    start
}

/// Two texts, the one behind the other.
fn joined(alloc: Global, first: &[u8], second: &[u8]) -> Result<Vec<u8>, NoMemory>
    ensures { IfOk result (λ text. text.items ≡ first.now ++ second.now) }
{
    let mut out = Vec::new(alloc);
    out.extend_from_slice(first)?;
    out.extend_from_slice(second)?;
    Ok(out)
}

/// A journal with the same events.
fn copied(alloc: Global, journal: &Journal) -> Result<Journal, NoMemory> {
    let mut copy = Journal::new(alloc, MOST_RUNS, journal.order());
    for run in journal.runs() {
        match copy.push_run(run.event, run.count) {
            Ok(()) => {}
            Err(_) => return Err(NoMemory),
        }
    }
    Ok(copy)
}
