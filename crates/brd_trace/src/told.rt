//! What is said of each kind of event.

ghost use Rattle.brd_trace.specs.Noted.{KeepsKnown};

use crate::notes::{Notes, Scene};
use brd_base::NoMemory;
use brd_happening::{Answer, CallMade, Rung, What};
use brd_names::{put, put_called, put_named};
use brd_seen::{Answered, RET_INT, SaidCall};
use brd_timeline::MarkKind;
use std::alloc::Global;

impl Notes {
    /// What is said of an event that is no instruction and does something.
    pub(crate) fn say(&mut self, it: Scene) -> Result<Vec<u8>, NoMemory>
        ensures { KeepsKnown self.old self.new }
    {
        match it.told.what {
            What::Call(call) => self.say_call(it, &call),
            What::Exception(_) => self.say_exception(it),
            What::Raised(line) => self.say_raised(it, line),
            What::Accepted(line) => self.say_accepted(it, line),
            What::Tick(number) => self.say_tick(it, number),
            What::Instruction(_) | What::Lost(_) | What::Nothing(_) | What::Untold => {
                Ok(Vec::new(it.alloc))
            }
        }
    }

    /// What is said, and then what the event changed.
    fn with_changes(&mut self, it: Scene, mut what: Vec<u8>) -> Result<Vec<u8>, NoMemory>
        ensures { KeepsKnown self.old self.new }
    {
        self.put_changes(it, &mut what)?;
        Ok(what)
    }

    /// A mark with what is said of a step, and then what the event changed.
    fn with_mark(&mut self, it: Scene, kind: MarkKind, what: Vec<u8>) -> Result<Vec<u8>, NoMemory>
        ensures { KeepsKnown self.old self.new }
    {
        self.mark(it.alloc, it.told.cpu, it.position, kind, what.as_slice())?;
        self.with_changes(it, what)
    }

    /// A service call: the call, its answer, and what it changed.
    fn say_call(&mut self, it: Scene, made: &CallMade) -> Result<Vec<u8>, NoMemory>
        ensures { KeepsKnown self.old self.new }
    {
        let call = SaidCall { asked: made.asked };
        let what = call_text(it.alloc, call, made.answer)?;
        self.with_mark(it, MarkKind::Call, what)
    }

    /// An exception: its cause, and what it ended.
    fn say_exception(&mut self, it: Scene) -> Result<Vec<u8>, NoMemory>
        ensures { KeepsKnown self.old self.new }
    {
        let what = it.fault_text(it.told.place.unwrap_or(0))?;
        self.with_mark(it, MarkKind::Fault, what)
    }

    /// An interrupt that a processor accepts.
    fn say_accepted(&mut self, it: Scene, line: u8) -> Result<Vec<u8>, NoMemory>
        ensures { KeepsKnown self.old self.new }
    {
        let mut what = Vec::new(it.alloc);
        put(&mut what, "accepts the interrupt of ")?;
        put_called(it.alloc, &mut what, "line", u16::from(line))?;
        self.with_mark(it, MarkKind::Interrupt, what)
    }

    /// A tick that releases somebody, or at which a time handler is due.
    fn say_tick(&mut self, it: Scene, number: u64) -> Result<Vec<u8>, NoMemory>
        ensures { KeepsKnown self.old self.new }
    {
        self.record_tick(it.position, number)?;
        let mut what = named(it.alloc, "tick", number)?;
        self.put_changes(it, &mut what)?;
        self.put_rung(it, &mut what)?;
        Ok(what)
    }

    /// Puts at the end which time handlers are due at a tick.
    fn put_rung(&mut self, it: Scene, what: &mut Vec<u8>) -> Result<(), NoMemory>
        ensures { KeepsKnown self.old self.new }
    {
        for rung in it.told.rung.as_slice() {
            let due = due_text(it.alloc, *rung)?;
            self.mark_raise(it.alloc, it.position, rung.line, due.as_slice())?;
            put(what, ", ")?;
            what.extend_from_slice(due.as_slice())?;
        }
        Ok(())
    }

    /// A line that is raised.
    fn say_raised(&mut self, it: Scene, line: u8) -> Result<Vec<u8>, NoMemory>
        ensures { KeepsKnown self.old self.new }
    {
        let mut what = named(it.alloc, "the interrupt of line", u64::from(line))?;
        put(&mut what, " is raised")?;
        self.mark_raise(it.alloc, it.position, line, what.as_slice())?;
        Ok(what)
    }

    /// Records a tick.
    pub(crate) fn record_tick(&mut self, position: u64, number: u64) -> Result<(), NoMemory>
        ensures { KeepsKnown self.old self.new }
    {
        match &mut self.recording {
            Some(recording) => recording.tick(position, number),
            None => Ok(()),
        }
    }
}

/// A call and its answer.
fn call_text(alloc: Global, call: SaidCall, answer: Answer) -> Result<Vec<u8>, NoMemory> {
    let mut what = Vec::new(alloc);
    call.put(alloc, &mut what)?;
    put_answer(alloc, call, answer, &mut what)?;
    Ok(what)
}

/// Puts the answer of a call at the end, if it has one, or that it has ended an interrupt.
fn put_answer(
    alloc: Global,
    call: SaidCall,
    answer: Answer,
    what: &mut Vec<u8>,
) -> Result<(), NoMemory> {
    match answer {
        Answer::Given { code, second } => {
            let answered = Answered { call, code, second };
            answered.put_answer(alloc, what)
        }
        Answer::Never if call.number() == RET_INT => put(what, ", the interrupt is ended"),
        Answer::Never | Answer::Waits { .. } | Answer::Again => Ok(()),
    }
}

/// A time handler that is due.
fn due_text(alloc: Global, rung: Rung) -> Result<Vec<u8>, NoMemory> {
    let mut what = Vec::new(alloc);
    put_called(alloc, &mut what, "line", u16::from(rung.line))?;
    put(&mut what, " is due")?;
    if rung.pending {
        put(&mut what, ", and pending already")?;
    }
    Ok(what)
}

/// Some words and a number.
fn named(alloc: Global, words: &str, number: u64) -> Result<Vec<u8>, NoMemory> {
    let mut what = Vec::new(alloc);
    put_named(alloc, &mut what, words, number)?;
    Ok(what)
}
