//! Events that change nothing, of which many in a row are one line.

ghost use Rattle.std.specs.Prelude.{◌≡◌, ◌++◌, OnOk};
ghost use Rattle.brd_names.specs.Lines.{count_text};
ghost use Rattle.brd_names.specs.Stretches as quiets;

use crate::line::Heading;
use crate::text::{put, put_count, put_named, put_number, put_signed};
use brd_base::NoMemory;
use brd_board::Standing;
use std::alloc::Global;

/// Who asks for a spin lock that is held, so that the call comes again.
#[derive(Clone, Copy, PartialEq, Eq)]
pub struct Spinner {
    /// The processor.
    pub cpu: u8,
    /// The task or the handler.
    pub who: Standing,
    /// Where it asks.
    pub place: u32,
    /// Which lock.
    pub lock: u32,
}

/// Which events.
#[derive(Clone, Copy, PartialEq, Eq)]
pub enum Quiet {
    /// Steps of a processor that has nothing to run.
    Idle(u8),
    /// Steps of a processor that is stopped.
    Stopped(u8),
    /// Steps of a processor that the board doesn't have.
    NoProcessor(u8),
    /// Calls that come again.
    Spins(Spinner),
    /// Ticks that release nobody, and at which no time handler is due.
    Tick,
    /// Ticks after the last one.
    TimeOver,
    /// Raises of a line that has no handler, or is raised by ticks alone.
    NoLine(u8),
    /// Raises of a line that is pending.
    Again(u8),
    /// All events of a board that is off.
    Off,
}

/// Some of them in a row.
#[derive(Clone, Copy)]
pub struct Stretch {
    /// Which.
    pub quiet: Quiet,
    /// The position of the first one.
    pub position: u64,
    /// How many.
    pub count: u64,
    /// Which tick the last one was, of ticks.
    pub tick: u64,
}

impl Quiet {
    /// The processor whose steps they are.
    pub fn processor(self) -> Option<u8>
        ensures { result ≡ quiets.processor_of self }
    {
        match self {
            Quiet::Idle(cpu) | Quiet::Stopped(cpu) | Quiet::NoProcessor(cpu) => Some(cpu),
            Quiet::Spins(spin) => Some(spin.cpu),
            _ => None,
        }
    }

    /// Who does them.
    fn who(self) -> Option<Standing>
        ensures { result ≡ quiets.who_of self }
    {
        match self {
            Quiet::Spins(spin) => Some(spin.who),
            _ => None,
        }
    }

    /// Where.
    fn place(self) -> Option<u32>
        ensures { result ≡ quiets.place_of self }
    {
        match self {
            Quiet::Spins(spin) => Some(spin.place),
            _ => None,
        }
    }
}

impl Stretch {
    /// What stands before the line of the events.
    pub fn heading(&self) -> Heading
        ensures { result ≡ quiets.heading_of self.now }
    {
        Heading {
            position: self.position,
            cpu: self.quiet.processor(),
            who: self.quiet.who(),
            place: self.quiet.place(),
        }
    }

    /// These events with those that come after them, where they are of the same kind.
    pub fn joined(&self, more: Stretch) -> Option<Stretch>
        ensures { result ≡ quiets.joined self.now more }
    {
        if self.quiet != more.quiet {
            return None;
        }
        Some(Stretch {
            quiet: self.quiet,
            position: self.position,
            count: self.count.saturating_add(more.count),
            tick: more.tick,
        })
    }

    /// Puts at the end what the events are, and how many.
    pub fn put(&self, alloc: Global, out: &mut Vec<u8>) -> Result<(), NoMemory>
        ensures { OnOk result (out.new.items ≡ out.old.items ++ quiets.stretch_text self.now self.now.quiet) }
    {
        match self.quiet {
            Quiet::Idle(_) => self.put_steps(alloc, out, "idle, "),
            Quiet::Stopped(_) => self.put_steps(alloc, out, "stopped, "),
            Quiet::NoProcessor(_) => self.put_steps(alloc, out, "no such processor, "),
            Quiet::Spins(spin) => self.put_spins(alloc, out, spin),
            Quiet::Tick => self.put_ticks(alloc, out),
            Quiet::TimeOver => self.put_late(alloc, out),
            Quiet::NoLine(line) => self.put_raises(alloc, out, line, unraised(line)),
            Quiet::Again(line) => self.put_raises(alloc, out, line, " is pending already: "),
            Quiet::Off => {
                put(out, "off: ")?;
                put_count(alloc, out, self.count, "event")?;
                put(out, " left out")
            }
        }
    }

    /// Puts at the end what a processor is, and how many steps.
    fn put_steps(&self, alloc: Global, out: &mut Vec<u8>, what: &str) -> Result<(), NoMemory>
        ensures { OnOk result (out.new.items ≡ out.old.items ++ (what.now ++ quiets.steps_text self.now)) }
    {
        put(out, what)?;
        put_count(alloc, out, self.count, "step")
    }

    /// Puts at the end the call that comes again, the lock, and how many steps.
    fn put_spins(&self, alloc: Global, out: &mut Vec<u8>, spin: Spinner) -> Result<(), NoMemory>
        ensures { OnOk result (out.new.items ≡ out.old.items ++ quiets.spins_text self.now spin) }
    {
        put_asked(alloc, out, spin)?;
        put(out, ", ")?;
        put_count(alloc, out, self.count, "step")
    }

    /// Puts at the end a line, what it is, and how many raises.
    fn put_raises(
        &self,
        alloc: Global,
        out: &mut Vec<u8>,
        line: u8,
        what: &str,
    ) -> Result<(), NoMemory>
        ensures { OnOk result (out.new.items ≡ out.old.items ++ quiets.raises_text self.now line what.now) }
    {
        put_named(alloc, out, "line", u64::from(line))?;
        put(out, what)?;
        put_count(alloc, out, self.count, "raise")
    }

    /// Puts at the end how many ticks were not counted.
    fn put_late(&self, alloc: Global, out: &mut Vec<u8>) -> Result<(), NoMemory>
        ensures { OnOk result (out.new.items ≡ out.old.items ++ quiets.late_text self.now) }
    {
        put(out, "time is over: ")?;
        put_count(alloc, out, self.count, "tick")?;
        put(out, " not counted")
    }

    /// Puts at the end which ticks.
    fn put_ticks(&self, alloc: Global, out: &mut Vec<u8>) -> Result<(), NoMemory>
        ensures { OnOk result (out.new.items ≡ out.old.items ++ quiets.ticks_text self.now) }
    {
        if self.count == 1 {
            return put_named(alloc, out, "tick", self.tick);
        }
        let first = self.tick.saturating_sub(self.count.saturating_sub(1));
        put_named(alloc, out, "ticks", first)?;
        put(out, " to ")?;
        put_number(alloc, out, self.tick)
    }
}

/// Puts at the end the call that comes again, and the lock.
fn put_asked(alloc: Global, out: &mut Vec<u8>, spin: Spinner) -> Result<(), NoMemory>
    ensures { OnOk result (out.new.items ≡ out.old.items ++ quiets.asked_text spin) }
{
    put(out, asking(spin.who))?;
    put_signed(alloc, out, spin.lock)?;
    put_named(alloc, out, "), spins for lock", u64::from(spin.lock))
}

/// What the call begins with by which a task or a handler asks for a spin lock.
fn asking(who: Standing) -> &'static str
    ensures { result.now ≡ quiets.asking_text who }
{
    match who {
        Standing::Handler(_) => "iloc_spn(",
        Standing::Task(_) | Standing::Idle | Standing::Stopped => "loc_spn(",
    }
}

/// Why a raise of a line finds no handler.
fn unraised(line: u8) -> &'static str
    ensures { result.now ≡ quiets.unraised_text line }
{
    if line < 32 {
        " has no handler: "
    } else {
        " is raised by ticks alone: "
    }
}
