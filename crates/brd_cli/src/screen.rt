//! How far a long command is, on a terminal, and what is odd about a command's input.

use crate::typed::Inbox;
use brd_command::Progress;
use std::alloc::Global;
use std::fmt;
use std::io::IsTerminal;
use std::sync::Arc;
use std::time::{Duration, Instant};

/// How many milliseconds of work pass before it is shown how far it is (own choice).
const PATIENCE: u64 = 1_000;

/// How many milliseconds what is shown stays at least (own choice).
const PAUSE: u64 = 200;

/// Who reads what is said beside the answers of a dialogue.
#[derive(Clone, Copy, PartialEq, Eq)]
pub enum Reader {
    /// There is no dialogue.
    NoDialogue,
    /// Who types, on a terminal.
    Person,
    /// Nobody: what is asked comes from elsewhere.
    Nobody,
}

/// A line of standard error that says how far a command is, where that is a terminal; and lines that warn, everywhere.
/// Once the first command of a dialogue has begun, lines that would warn are advice, which a person alone gets.
#[derive(Drop)]
pub struct Screen<'a> {
    rt: &'a HostRuntime,
    /// Where it is seen whether work is to stop, if it is.
    inbox: Option<Arc<Inbox, Global>>,
    /// When the program began, if the clock can be read.
    began: Option<Instant>,
    /// The same; `None` if nothing is shown.
    start: Option<Instant>,
    /// How long after that it is shown next.
    due: Duration,
    is_shown: bool,
    /// Who reads advice.
    reader: Reader,
    /// Whether a command has begun.
    has_begun: bool,
}

impl<'a> Screen<'a> {
    /// The line of a program that begins now. It is told where it is seen whether work is to stop, and whether the
    /// program has a dialogue by standard input.
    pub fn new(
        rt: &'a HostRuntime,
        inbox: Option<Arc<Inbox, Global>>,
        is_dialogue: bool,
    ) -> Screen<'a> {
        let began = Instant::now(rt).ok();
        Screen {
            rt,
            inbox,
            began,
            start: if rt.stderr().is_terminal() {
                began
            } else {
                None
            },
            due: Duration::from_millis(PATIENCE),
            is_shown: false,
            reader: if !is_dialogue {
                Reader::NoDialogue
            } else if rt.stdin().is_terminal() {
                Reader::Person
            } else {
                Reader::Nobody
            },
            has_begun: false,
        }
    }

    /// How long the program has run, where something is shown.
    fn now(&self) -> Option<Duration> {
        self.start?.elapsed(self.rt).ok()
    }

    /// Whether it is time to write the line anew, which is written then.
    fn is_due(&mut self) -> bool {
        let Some(now) = self.now() else {
            return false;
        };
        if now < self.due {
            return false;
        }
        self.due = now.saturating_add(Duration::from_millis(PAUSE));
        self.is_shown = true;
        true
    }
}

impl<'a> Progress for Screen<'a> {
    /// Shows nothing while the work takes less than a second.
    fn begin(&mut self) {
        self.has_begun = true;
        if let Some(now) = self.now() {
            self.due = now.saturating_add(Duration::from_millis(PATIENCE));
        }
    }

    /// Writes the line anew, where it is time for that.
    fn show(&mut self, done: u64, all: u64) {
        if !self.is_due() {
            return;
        }
        let percent = u128::from(done) * 100 / u128::from(all).max(1);
        let _ = eprint!(self.rt; "\r{done} of {all} events ({percent} %)\x1b[K");
    }

    /// Writes the line anew, where it is time for that.
    fn tried(&mut self, schedules: u64) {
        if self.is_due() {
            let _ = eprint!(self.rt; "\r{schedules} schedules tried, none fails so far\x1b[K");
        }
    }

    /// Writes the line anew, where it is time for that.
    fn gone_through(&mut self, places: u64) {
        if self.is_due() {
            let _ = eprint!(self.rt; "\r{places} places gone through, none fails so far\x1b[K");
        }
    }

    /// By what GDB sends while a move is on.
    fn is_asked_to_stop(&mut self) -> bool {
        match &self.inbox {
            Some(inbox) => inbox.is_interrupt_next(),
            None => false,
        }
    }

    /// By the clock, from the beginning of the program on.
    fn is_over(&mut self, seconds: u32) -> bool {
        let Some(began) = self.began else {
            return false;
        };
        match began.elapsed(self.rt) {
            Ok(gone) => gone >= Duration::from_secs(u64::from(seconds)),
            Err(_) => false,
        }
    }

    /// Empties the line, where it is shown.
    fn hide(&mut self) {
        if self.is_shown {
            self.is_shown = false;
            let _ = eprint!(self.rt; "\r\x1b[K");
        }
    }

    /// On a terminal.
    fn shows_turns(&self) -> bool {
        self.start.is_some()
    }

    /// Says so in a line that stays, and what can be done.
    fn took_few_turns(&mut self, steps: u64, runs: u64, idle: u64) {
        if self.start.is_none() {
            return;
        }
        let _ = eprintln!(self.rt;
            "board: the processors hardly took turns ({steps} steps in {runs} runs, {idle} of them did nothing): race \
             again, with a larger QUOTA, or draw turns by `board journal --random`"
        );
    }

    /// Says so in a line that stays.
    fn warn<D: fmt::Display>(&mut self, warning: &D) {
        self.hide();
        if self.has_begun && self.reader != Reader::NoDialogue {
            if self.reader == Reader::Person {
                let _ = eprintln!(self.rt; "{warning}");
            }
            return;
        }
        let _ = eprintln!(self.rt; "board: warning: {warning}");
    }
}
