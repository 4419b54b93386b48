//! What is shown of what is told, and how it is put into lines.

ghost use Rattle.std.specs.Prelude.{◌≡◌, ◌++◌, None, OnOk, IfOk};
ghost use Rattle.brd_listing.specs.Listing.{IsBehind};
ghost use Rattle.brd_printer.specs.Links.{text_of};
ghost use Rattle.brd_printer.specs.Telling as telling;

use crate::effect::{Form, put_done};
use crate::links::Links;
use brd_base::NoMemory;
use brd_happening::{Access, Happening, Instruction};
use brd_names::{Heading, Names, Quiet, Stretch};
use brd_word::Order;
use std::alloc::Global;

/// What a trace shows.
#[derive(Clone, Copy)]
pub struct Options {
    /// Only lines of this processor's steps, and those after which it runs somebody else.
    pub cpu: Option<u8>,
    /// A line for each instruction, too.
    pub instructions: bool,
    /// Only lines of instructions that load or store one of the words that the manner has, and of each of these.
    pub touching: bool,
    /// Whether lines are shown yet.
    pub shown: bool,
    /// The processor that handles each interrupt line; 0 where none does.
    pub lines: [u8; 160],
}

/// How the lines are made.
#[derive(Clone, Copy)]
pub struct Manner<'a> {
    /// What names addresses.
    pub names: Names<'a>,
    /// In which order the bytes of words lie.
    pub order: Order,
    /// The words of which loads and stores are shown where only these are, by their aligned addresses.
    pub words: &'a [u32],
}

/// What is shown, and the events of which the line isn't made yet, since more may come of the same kind.
#[derive(Drop)]
pub struct Printer {
    /// What is shown.
    pub options: Options,
    /// These events.
    pub held: Option<Stretch>,
}

impl Printer {
    /// Nothing is held back.
    pub fn new(options: Options) -> Printer
        ensures { result ≡ record { options = options; held = None } }
    {
        Printer {
            options,
            held: None,
        }
    }

    /// Puts at the end the line of an instruction that was done, where the trace shows it.
    pub fn put_instruction(
        &mut self,
        alloc: Global,
        manner: Manner,
        position: u64,
        told: &Happening,
        instruction: &Instruction,
        links: Links,
        out: &mut Vec<u8>,
    ) -> Result<(), NoMemory>
        ensures { IfOk result (λ _. IsBehind (telling.TellsInstruction manner.entry position told.now instruction.now
            (text_of links.entry) self.old self.new) out.old.items out.new.items) }
    {
        if !self.shows_instruction(manner.words, told.cpu, instruction) {
            return Ok(());
        }
        let mut what = Vec::new(alloc);
        let form = Form {
            names: manner.names,
            order: manner.order,
            old: self.options.touching,
        };
        put_done(
            alloc,
            form,
            told.place.unwrap_or(0),
            instruction,
            links,
            &mut what,
        )?;
        self.put_line(alloc, manner, position, told, what.as_slice(), out)?;
        Ok(())
    }

    /// Puts at the end the line of an event with this text, which may concern the chosen processor, where the trace
    /// shows it.
    pub fn put_said(
        &mut self,
        alloc: Global,
        manner: Manner,
        position: u64,
        told: &Happening,
        what: &[u8],
        concerned: bool,
        out: &mut Vec<u8>,
    ) -> Result<(), NoMemory>
        ensures printer { IfOk result (λ _. self.new ≡ telling.with_held self.old
            (telling.held_behind (telling.shows self.old.options told.now.cpu concerned) self.old.held)) }
        ensures line { OnOk result (out.new.items ≡ out.old.items
            ++ telling.text_behind (telling.shows self.old.options told.now.cpu concerned)
            manner.entry.names.symbols.now self.old.held
            (telling.told_text manner.entry.names.symbols.now position told.now what.now)) }
    {
        if !self.shows(told.cpu, concerned) {
            return Ok(());
        }
        self.put_line(alloc, manner, position, told, what, out)
    }

    /// Puts at the end the line of an event with this text, after the line of the events that were held back.
    fn put_line(
        &mut self,
        alloc: Global,
        manner: Manner,
        position: u64,
        told: &Happening,
        what: &[u8],
        out: &mut Vec<u8>,
    ) -> Result<(), NoMemory>
        ensures printer { IfOk result (λ _. self.new ≡ telling.with_held self.old None) }
        ensures line { OnOk result (out.new.items ≡ out.old.items
            ++ telling.held_text manner.entry.names.symbols.now self.old.held
            ++ telling.told_text manner.entry.names.symbols.now position told.now what.now) }
    {
        self.end(alloc, manner.names, out)?;
        let heading = heading_of(position, told);
        heading.put_line(alloc, manner.names, what, out)
    }

    /// Events that do nothing: they join those before them, or begin a line.
    pub fn put_quiet(
        &mut self,
        alloc: Global,
        names: Names,
        stretch: Stretch,
        out: &mut Vec<u8>,
    ) -> Result<(), NoMemory>
        ensures printer { IfOk result (λ _. self.new
            ≡ telling.with_held self.old (telling.held_quiet self.old stretch)) }
        ensures line { OnOk result (out.new.items ≡ out.old.items
            ++ telling.text_quiet names.entry.symbols.now self.old stretch) }
    {
        if stretch.count == 0 || !self.shows(stretch.quiet.processor(), false) {
            return Ok(());
        }
        if let Some(longer) = joined(&self.held, stretch) {
            self.held = Some(longer);
            return Ok(());
        }
        self.end(alloc, names, out)?;
        self.held = Some(stretch);
        Ok(())
    }

    /// Puts at the end the line of the events that were held back, where there were any.
    pub fn end(&mut self, alloc: Global, names: Names, out: &mut Vec<u8>) -> Result<(), NoMemory>
        ensures printer { IfOk result (λ _. self.new ≡ telling.with_held self.old None) }
        ensures line { OnOk result (out.new.items ≡ out.old.items
            ++ telling.held_text names.entry.symbols.now self.old.held) }
    {
        let Some(stretch) = self.held else {
            return Ok(());
        };
        self.held = None;
        let mut what = Vec::new(alloc);
        stretch.put(alloc, &mut what)?;
        let heading = stretch.heading();
        heading.put_line(alloc, names, what.as_slice(), out)
    }

    /// Whether the trace shows the line of an instruction of a processor.
    fn shows_instruction(&self, words: &[u32], cpu: Option<u8>, it: &Instruction) -> bool
        ensures { result ≡ telling.shows_instruction self.now.options words.now cpu it.now }
    {
        self.options.shown && is_chosen(self.options.cpu, cpu) && self.wants(words, it)
    }

    /// Whether a line is wanted of an instruction.
    fn wants(&self, words: &[u32], it: &Instruction) -> bool
        ensures { result ≡ telling.wants self.now.options words.now it.now }
    {
        if self.options.touching {
            return touches(words, it.access);
        }
        self.options.instructions
    }

    /// Whether lines of instructions may be shown.
    pub fn may_list(&self) -> bool
        ensures { result ≡ telling.may_list self.now.options }
    {
        self.options.shown && (self.options.instructions || self.options.touching)
    }

    /// Whether the trace shows a line of a processor's step, or one that concerns the chosen processor.
    fn shows(&self, cpu: Option<u8>, concerned: bool) -> bool
        ensures { result ≡ telling.shows self.now.options cpu concerned }
    {
        self.options.shown
            && !self.options.touching
            && (is_chosen(self.options.cpu, cpu) || concerned)
    }
}

/// Whether a load or a store is of one of these words, or of a part of one.
fn touches(words: &[u32], access: Option<Access>) -> bool
    ensures { result ≡ telling.touches words.now access }
{
    match access {
        Some(access) => words.contains(&(access.address - access.address % 4)),
        None => false,
    }
}

/// Whether a processor is chosen, or all are.
fn is_chosen(chosen: Option<u8>, cpu: Option<u8>) -> bool
    ensures { result ≡ telling.is_chosen chosen cpu }
{
    match (chosen, cpu) {
        (None, _) => true,
        (Some(chosen), Some(cpu)) => chosen == cpu,
        (Some(_), None) => false,
    }
}

/// What stands before the line of an event.
fn heading_of(position: u64, told: &Happening) -> Heading
    ensures { result ≡ telling.heading_of position told.now }
{
    Heading {
        position,
        cpu: told.cpu,
        who: told.who,
        place: told.place,
    }
}

/// Events that were held back with those that come after them, where these are of the same kind.
fn joined(held: &Option<Stretch>, more: Stretch) -> Option<Stretch>
    ensures { result ≡ telling.longer held.now more }
{
    match *held {
        Some(stretch) => stretch.joined(more),
        None => None,
    }
}
