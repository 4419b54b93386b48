//! What is told of a run among the data.

use crate::changes::{put_processor, put_task};
use crate::data::Json;
use crate::event::{is_answered, is_quiet, put_call, put_instruction, word_of};
use crate::listing::{text_of, word_at};
use crate::run_page::Part;
use crate::seen::{ProcessorSeen, TaskSeen, processors_seen, tasks_seen};
use crate::words::words_of;
use brd_base::NoMemory;
use brd_board::Board;
use brd_exec::Context;
use brd_happening::{Happening, Instruction, What};
use brd_journal::Playback;
use brd_listing::{Places, write_instruction};
use std::alloc::Global;

/// Data of what a board has done, and how it was when it was last seen.
#[derive(Drop)]
pub(crate) struct Told {
    /// What is put now.
    pub json: Json,
    /// The addresses of the instructions that were executed, or come next.
    pub places: Vec<u32>,
    /// The addresses of the words that were loaded or stored.
    pub words: Vec<u32>,
    processors: Vec<ProcessorSeen>,
    tasks: Vec<TaskSeen>,
    console: usize,
    tick: u64,
    off: bool,
}

impl Told {
    /// No data, and how a board is.
    pub(crate) fn new(alloc: Global, board: &Board) -> Result<Told, NoMemory> {
        Ok(Told {
            json: Json::new(alloc),
            places: Vec::new(alloc),
            words: Vec::new(alloc),
            processors: processors_seen(alloc, board)?,
            tasks: tasks_seen(alloc, board)?,
            console: board.console().len(),
            tick: board.now(),
            off: board.is_off(),
        })
    }

    /// Puts at the end how the board stands: the position, the one from which on events were asked for, its processors
    /// and tasks, the tick, the console, and whether it is off. Then begins the list of the events.
    pub(crate) fn put_begin(&mut self, playback: &Playback, asked: u64) -> Result<(), NoMemory> {
        let json = &mut self.json;
        json.begin_object()?;
        json.member("from", playback.at)?;
        json.member("asked", asked)?;
        json.key("cpus")?;
        json.begin_list()?;
        for processor in self.processors.as_slice() {
            put_processor(json, processor)?;
            note_place(&mut self.places, processor)?;
        }
        json.end_list()?;
        json.key("tasks")?;
        json.begin_list()?;
        for task in self.tasks.as_slice() {
            put_task(json, task)?;
        }
        json.end_list()?;
        json.member("tick", self.tick)?;
        json.member("off", u64::from(self.off))?;
        json.key("console")?;
        json.string(playback.board.console())?;
        json.key("events")?;
        json.begin_list()
    }

    /// Puts the members of the object of an event alone, but for whose step it was and where. It is the event of a
    /// position, a line of a trace was made of it, and after it the board is so.
    pub(crate) fn put_event(
        &mut self,
        alloc: Global,
        part: Part,
        symbols: &Places,
        board: &Board,
        happening: &Happening,
        at: u64,
        line: &[u8],
    ) -> Result<(), NoMemory> {
        self.json = Json::new(alloc);
        if let Some(place) = happening.place {
            self.places.push(place)?;
        }
        let what = happening.what;
        match what {
            What::Instruction(done) => self.put_done(alloc, part, board, happening, &done),
            _ => self.put_more(alloc, symbols, board, happening, at, line),
        }
    }

    /// Puts at the end what an instruction has changed.
    fn put_done(
        &mut self,
        alloc: Global,
        part: Part,
        board: &Board,
        happening: &Happening,
        done: &Instruction,
    ) -> Result<(), NoMemory> {
        if let Some(access) = done.access {
            self.words.push(word_of(access))?;
        }
        let (Some(cpu), Some(place)) = (happening.cpu, happening.place) else {
            return Ok(());
        };
        let Some((before, after)) = see_registers(&mut self.processors, board, cpu) else {
            return Ok(());
        };
        put_instruction(&mut self.json, done, &before, &after)?;
        put_own_text(&mut self.json, alloc, part, done, place)
    }

    /// Puts at the end what is said of an event that is no ordinary instruction, and all that it has changed.
    fn put_more(
        &mut self,
        alloc: Global,
        symbols: &Places,
        board: &Board,
        happening: &Happening,
        at: u64,
        line: &[u8],
    ) -> Result<(), NoMemory> {
        let words = words_of(alloc, line, symbols, at, happening.place)?;
        self.json.key("t")?;
        self.json.string(&words)?;
        if is_quiet(happening) {
            self.json.member("q", 1)?;
        }
        self.put_caller(board, happening)?;
        self.put_processors(board)?;
        self.put_tasks(board)?;
        self.put_rest(board)
    }

    /// Puts the registers at the end that the event has changed of who executes it, where he goes on.
    fn put_caller(&mut self, board: &Board, happening: &Happening) -> Result<(), NoMemory> {
        let Some(cpu) = happening.cpu else {
            return Ok(());
        };
        let seen = see_registers(&mut self.processors, board, cpu);
        match seen {
            Some((before, after)) => {
                put_call(
                    &mut self.json,
                    is_answered(&happening.what),
                    &before,
                    &after,
                )
            }
            None => Ok(()),
        }
    }

    /// Puts the processors at the end that differ from what was last seen of them.
    fn put_processors(&mut self, board: &Board) -> Result<(), NoMemory> {
        let mut changed = false;
        for processor in self.processors.as_mut_slice() {
            let Some(new) = ProcessorSeen::of(board, processor.number) else {
                return Ok(());
            };
            if processor.standing != new.standing || processor.context != new.context {
                if !changed {
                    self.json.key("d")?;
                    self.json.begin_list()?;
                    changed = true;
                }
                put_processor(&mut self.json, &new)?;
                note_place(&mut self.places, &new)?;
                *processor = new;
            }
        }
        if changed {
            return self.json.end_list();
        }
        Ok(())
    }

    /// Puts the tasks at the end that differ from what was last seen of them.
    fn put_tasks(&mut self, board: &Board) -> Result<(), NoMemory> {
        let mut changed = false;
        for task in self.tasks.as_mut_slice() {
            let Some(new) = TaskSeen::of(board, task.id) else {
                return Ok(());
            };
            if *task != new {
                if !changed {
                    self.json.key("s")?;
                    self.json.begin_list()?;
                    changed = true;
                }
                put_task(&mut self.json, &new)?;
                *task = new;
            }
        }
        if changed {
            return self.json.end_list();
        }
        Ok(())
    }

    /// Puts at the end what was written to the console, the tick, and that the board is off, where these have changed.
    fn put_rest(&mut self, board: &Board) -> Result<(), NoMemory> {
        let console = board.console();
        if let Some(written) = console.get(self.console..) {
            if !written.is_empty() {
                self.json.key("o")?;
                self.json.string(written)?;
            }
        }
        self.console = console.len();
        if board.now() != self.tick {
            self.tick = board.now();
            self.json.member("k", self.tick)?;
        }
        if board.is_off() && !self.off {
            self.off = true;
            self.json.member("x", 1)?;
        }
        Ok(())
    }
}

/// The registers with which a processor executed when it was last seen, and with which it executes now, where the same
/// task or handler does. Those of now have been seen then.
fn see_registers(
    processors: &mut Vec<ProcessorSeen>,
    board: &Board,
    cpu: u8,
) -> Option<(Context, Context)> {
    let new = ProcessorSeen::of(board, cpu)?;
    let after = new.context?;
    for processor in processors.as_mut_slice() {
        if processor.number == cpu && processor.standing == new.standing {
            let before = processor.context?;
            *processor = new;
            return Some((before, after));
        }
    }
    None
}

/// Notes where a processor goes on.
fn note_place(places: &mut Vec<u32>, processor: &ProcessorSeen) -> Result<(), NoMemory> {
    if let Some(context) = processor.context {
        places.push(context.pc())?;
    }
    Ok(())
}

/// Puts an instruction at the end that isn't that of the image at its address.
fn put_own_text(
    json: &mut Json,
    alloc: Global,
    part: Part,
    done: &Instruction,
    place: u32,
) -> Result<(), NoMemory> {
    let mut text = Vec::new(alloc);
    write_instruction(&done.insn, place, &mut text)?;
    if let Some(word) = word_at(part.image, place) {
        if text == text_of(alloc, word, place)? {
            return Ok(());
        }
    }
    json.key("i")?;
    json.string(&text)
}
