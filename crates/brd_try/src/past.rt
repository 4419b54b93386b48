//! Loads and stores past a label's data.

use crate::labels::Labels;
use crate::made::Trails;
use brd_base::NoMemory;
use brd_board::{Board, Event, Standing};
use brd_elf::write;
use brd_exec::Context;
use brd_happening::{Access, AccessKind, Before, Instruction, What};
use brd_isa::{AccessSize, Insn, shape_of};
use brd_journal::Journal;
use brd_listing::{Places, write_instruction};
use brd_mem::{Image, is_plain};
use brd_names::{put, put_named, put_number, put_who};
use std::alloc::Global;

/// How many lines there are at most.
const MOST: usize = 20;

/// What is said of an object file that the assembler didn't write.
const NOT_LOOKED_FOR: &str =
    "past a label's data: not looked for, as board asm didn't write this object file\n";

/// A load or a store past the data of a label.
#[derive(Clone, Copy)]
struct Past {
    /// Which event it was.
    event: u64,
    /// Who did it.
    who: Standing,
    /// The instruction.
    insn: Insn,
    /// Its address.
    place: u32,
    /// What it loaded or stored.
    access: Access,
    /// Where the label stands.
    start: u32,
    /// How often the same instruction went past the same label after it.
    more: u64,
}

/// What is found in the course of a run.
#[derive(Drop)]
struct Followed<'a> {
    labels: Labels<'a>,
    trails: Trails,
    found: Vec<Past>,
    /// How many instructions more went past a label.
    others: u64,
}

/// Lines of the loads and the stores of a journal that went past the data of the label by whose address they were
/// reached, one for each instruction and label; or one that says why there is none. Nothing, unless they are asked for.
pub(crate) fn past_of(
    alloc: Global,
    strict: bool,
    object: &[u8],
    image: &Image,
    boot: &Board,
    journal: &Journal,
) -> Result<Vec<u8>, NoMemory> {
    let mut out = Vec::new(alloc);
    if strict {
        put_past(alloc, object, image, boot, journal, &mut out)?;
    }
    Ok(out)
}

/// Puts those lines at the end. They are looked for in programs of the assembler alone: a compiler reaches what has no
/// label of its own by other labels.
fn put_past(
    alloc: Global,
    object: &[u8],
    image: &Image,
    boot: &Board,
    journal: &Journal,
    out: &mut Vec<u8>,
) -> Result<(), NoMemory> {
    if !is_assembled(alloc, object, image)? {
        return put(out, NOT_LOOKED_FOR);
    }
    let places = Places::new(alloc, image.symbols.as_slice())?;
    let mut followed = Followed {
        labels: Labels::new(image, &places),
        trails: Trails::new(alloc),
        found: Vec::new(alloc),
        others: 0,
    };
    let mut board = boot.try_copy()?;
    for number in 0..journal.len() {
        if let Some(event) = journal.event_at(number) {
            followed.pass(alloc, &mut board, number, event)?;
        }
    }
    followed.put_all(alloc, out)
}

/// Whether an object file is the one that the assembler writes of its image.
fn is_assembled(alloc: Global, object: &[u8], image: &Image) -> Result<bool, NoMemory> {
    if !is_plain(image) {
        return Ok(false);
    }
    let written = write(alloc, image)?;
    Ok(object == written.as_slice())
}

impl Followed<'_> {
    /// Lets a board do an event, and follows it.
    fn pass(
        &mut self,
        alloc: Global,
        board: &mut Board,
        number: u64,
        event: Event,
    ) -> Result<(), NoMemory> {
        let context = context_of(board, event);
        let before = Before::of(alloc, board, event)?;
        let report = board.event_apart(event);
        let told = before.happening(alloc, report, board)?;
        match (context, told.who, told.place, &told.what) {
            (Some(context), Some(who), Some(place), What::Instruction(done)) => {
                self.look(&context, who, done, number, place)?;
                self.trails.follow(who, &context, done, &self.labels)
            }
            _ => Ok(()),
        }
    }

    /// Keeps an instruction, if it has gone past a label's data.
    fn look(
        &mut self,
        context: &Context,
        who: Standing,
        done: &Instruction,
        event: u64,
        place: u32,
    ) -> Result<(), NoMemory> {
        let (Some(access), Some(named)) = (done.access, shape_of(&done.insn).access) else {
            return Ok(());
        };
        let Some(start) = self.trails.label_of(who, context, named, &self.labels) else {
            return Ok(());
        };
        if !is_past(&self.labels, start, &access) {
            return Ok(());
        }
        self.keep(Past {
            event,
            who,
            insn: done.insn,
            place,
            access,
            start,
            more: 0,
        })
    }

    /// Keeps the first one of an instruction and a label, and counts those after it.
    fn keep(&mut self, new: Past) -> Result<(), NoMemory> {
        for past in self.found.as_mut_slice() {
            if past.place == new.place && past.start == new.start {
                past.more = past.more.saturating_add(1);
                return Ok(());
            }
        }
        if self.found.len() < MOST {
            self.found.push(new)?;
        } else {
            self.others = self.others.saturating_add(1);
        }
        Ok(())
    }

    /// Puts lines at the end of what was found.
    fn put_all(&self, alloc: Global, out: &mut Vec<u8>) -> Result<(), NoMemory> {
        if self.found.is_empty() {
            return put(out, "past a label's data: none seen\n");
        }
        for past in self.found.as_slice() {
            past.put(alloc, &self.labels, out)?;
        }
        if self.others == 0 {
            return Ok(());
        }
        put(out, "past a label's data: and ")?;
        put_number(alloc, out, self.others)?;
        put(out, " more by other instructions\n")
    }
}

/// The registers that an event finds, if it is a step.
fn context_of(board: &Board, event: Event) -> Option<Context> {
    match event {
        Event::Step(cpu) => board.registers(cpu),
        Event::Tick | Event::Raise(_) => None,
    }
}

/// Whether an access that was made goes past the data of the label at an address.
fn is_past(labels: &Labels, start: u32, access: &Access) -> bool {
    let is_made = !matches!(access.kind, AccessKind::StoresIfLinked(false));
    let last = access.address.wrapping_add(size_of(access).wrapping_sub(1));
    is_made && start <= access.address && !labels.holds(start, last)
}

/// How many bytes from the address on that it names an access takes at least.
fn size_of(access: &Access) -> u32 {
    match access.size {
        AccessSize::Byte | AccessSize::LeftPart | AccessSize::RightPart => 1,
        AccessSize::Halfword => 2,
        AccessSize::Word => 4,
    }
}

impl Past {
    /// Puts a line at the end: which instruction it was, of whom and when, and where it went.
    fn put(&self, alloc: Global, labels: &Labels, out: &mut Vec<u8>) -> Result<(), NoMemory> {
        put(out, "past a label's data: ")?;
        put_who(alloc, out, Some(self.who))?;
        put(out, " at ")?;
        labels.names().put_both(out, self.place)?;
        put(out, ", event ")?;
        put_number(alloc, out, self.event)?;
        put(out, ": ")?;
        write_instruction(&self.insn, self.place, out)?;
        self.put_reach(alloc, labels, out)?;
        self.put_more(alloc, out)?;
        put(out, "\n")
    }

    /// Puts at the end how many bytes it takes, where of the label, how many that has, and what lies there.
    fn put_reach(&self, alloc: Global, labels: &Labels, out: &mut Vec<u8>) -> Result<(), NoMemory> {
        let is_store = self.access.kind.has_stored();
        put(out, if is_store { " stores " } else { " loads " })?;
        put_bytes(alloc, size_of(&self.access), out)?;
        put_named(
            alloc,
            out,
            " at offset",
            u64::from(self.access.address.wrapping_sub(self.start)),
        )?;
        put(out, " of ")?;
        labels.names().put_place(out, self.start)?;
        put(out, ", which has ")?;
        let end = labels.end_of(self.start);
        put_bytes(alloc, end.wrapping_sub(self.start), out)?;
        put(out, ": ")?;
        labels.put_lies(self.access.address.max(end), out)
    }

    /// Puts at the end how often it happened after that.
    fn put_more(&self, alloc: Global, out: &mut Vec<u8>) -> Result<(), NoMemory> {
        if self.more == 0 {
            return Ok(());
        }
        put(out, ", and ")?;
        put_number(alloc, out, self.more)?;
        put(
            out,
            if self.more == 1 {
                " time after it"
            } else {
                " times after it"
            },
        )
    }
}

/// Puts a number of bytes at the end.
fn put_bytes(alloc: Global, count: u32, out: &mut Vec<u8>) -> Result<(), NoMemory> {
    put_number(alloc, out, u64::from(count))?;
    put(out, if count == 1 { " byte" } else { " bytes" })
}
