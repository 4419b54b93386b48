//! By which branch or jump a task or a handler came to where it raised an exception.

use brd_base::NoMemory;
use brd_board::Standing;
use brd_happening::{Answer, Cause, Happening, Instruction, Jump, What};
use brd_isa::{Flow, Insn, Register, shape_of};
use brd_listing::{write_instruction, write_register};
use brd_names::{Names, put, put_who, put_word};
use std::alloc::Global;

/// The service number of ter_tsk, after which a task begins anew.
const TER_TSK: u32 = 4;

/// A branch or a jump that was taken.
#[derive(Clone, Copy)]
struct Taken {
    /// The instruction.
    insn: Insn,
    /// Its address.
    place: u32,
    /// Where it leads.
    target: u32,
}

/// How a task or a handler came to where it goes on.
#[derive(Clone, Copy)]
struct Way {
    who: Standing,
    /// The last branch or jump that it took, if it has gone on behind its target ever since.
    taken: Option<Taken>,
    /// Where it goes on.
    next: u32,
    /// Whether that is the jump's delay slot.
    in_slot: bool,
}

/// Who came to where it raised an exception, and how.
#[derive(Clone, Copy)]
struct Arrival {
    who: Standing,
    taken: Taken,
    /// Where the exception was raised.
    place: u32,
}

/// The ways of a run's tasks and handlers, and of each processor, by its number, how who raised its last exception came
/// there. Known is that only of an exception of a fetch, or of a word that stands for no instruction.
#[derive(Drop)]
pub(crate) struct Arrivals {
    ways: Vec<Way>,
    last: [Option<Arrival>; 9],
}

impl Way {
    /// The way of who hasn't come from anywhere.
    fn new(who: Standing) -> Way {
        Way {
            who,
            taken: None,
            next: 0,
            in_slot: false,
        }
    }

    /// The way after what it did at an address.
    fn after(self, place: u32, what: &What) -> Way {
        match *what {
            What::Instruction(done) => self.after_instruction(place, &done),
            What::Call(made) if matches!(made.answer, Answer::Never) => Way::new(self.who),
            What::Call(_) => self.gone_on(place),
            What::Accepted(_) => self,
            _ => Way::new(self.who),
        }
    }

    /// The way after an instruction that was done at an address.
    fn after_instruction(self, place: u32, done: &Instruction) -> Way {
        let Some(
            Jump {
                target,
                taken: true,
            },
        ) = done.jump
        else {
            return self.gone_on(place);
        };
        let insn = done.insn;
        Way {
            who: self.who,
            taken: Some(Taken {
                insn,
                place,
                target,
            }),
            next: place.wrapping_add(4),
            in_slot: true,
        }
    }

    /// The way behind an address, or out of a delay slot.
    fn gone_on(self, place: u32) -> Way {
        let Way {
            who,
            taken,
            next,
            in_slot,
        } = self;
        let taken = if place == next { taken } else { None };
        let next = next_of(taken.as_ref(), in_slot, place);
        Way {
            who,
            taken,
            next,
            in_slot: false,
        }
    }

    /// How it came to an address at which it raised this exception, if that is known.
    fn arrival(&self, place: u32, what: &What) -> Option<Arrival> {
        let Way {
            who,
            taken,
            next,
            in_slot,
        } = *self;
        if in_slot || place != next || !is_of_place(what) {
            return None;
        }
        let taken = taken?;
        Some(Arrival { who, taken, place })
    }
}

/// Where one goes on behind an address, or out of the delay slot of a jump that was taken.
fn next_of(taken: Option<&Taken>, in_slot: bool, place: u32) -> u32 {
    match taken {
        Some(taken) if in_slot => taken.target,
        _ => place.wrapping_add(4),
    }
}

/// Whether an event is an exception of a fetch, or of a word that stands for no instruction.
fn is_of_place(what: &What) -> bool {
    match *what {
        What::Exception(exception) => {
            matches!(
                exception.cause,
                Cause::Fetch { .. } | Cause::NoInstruction(_)
            )
        }
        _ => false,
    }
}

impl Arrivals {
    /// Nobody has done anything.
    pub(crate) fn new(alloc: Global) -> Arrivals {
        Arrivals {
            ways: Vec::new(alloc),
            last: [None; 9],
        }
    }

    /// Follows an event.
    pub(crate) fn follow(&mut self, told: &Happening) -> Result<(), NoMemory> {
        let (Some(who), Some(place)) = (told.who, told.place) else {
            return Ok(());
        };
        if begins_anew(&told.what) {
            self.ways.clear();
        }
        let way = self.way_of(who);
        self.note(told, &way, place);
        self.put(way.after(place, &told.what))
    }

    /// Keeps how somebody came to an address, if an exception was raised there.
    fn note(&mut self, told: &Happening, way: &Way, place: u32) {
        if !matches!(told.what, What::Exception(_)) {
            return;
        }
        if let Some(cpu) = told.cpu {
            let arrival = way.arrival(place, &told.what);
            self.keep(cpu, arrival);
        }
    }

    /// The way of who executes.
    fn way_of(&self, who: Standing) -> Way {
        for way in self.ways.as_slice() {
            if way.who == who {
                return *way;
            }
        }
        Way::new(who)
    }

    /// Puts a way in the place of the one of the same task or handler.
    fn put(&mut self, new: Way) -> Result<(), NoMemory> {
        for way in self.ways.as_mut_slice() {
            if way.who == new.who {
                *way = new;
                return Ok(());
            }
        }
        self.ways.push(new)?;
        Ok(())
    }

    /// Keeps how somebody came to where a processor's last exception was raised.
    fn keep(&mut self, cpu: u8, arrival: Option<Arrival>) {
        if cpu < 9 {
            self.last[cpu as usize] = arrival;
        }
    }

    /// Puts a line at the end of how somebody came to where each processor's last exception was raised.
    pub(crate) fn put_all(
        &self,
        names: Names,
        alloc: Global,
        out: &mut Vec<u8>,
    ) -> Result<(), NoMemory> {
        for arrival in self.last.as_slice() {
            if let Some(arrival) = *arrival {
                arrival.put(names, alloc, out)?;
            }
        }
        Ok(())
    }
}

/// Whether a task or a handler begins anew after an event: it may then do so right behind where it was.
fn begins_anew(what: &What) -> bool {
    match *what {
        What::Call(made) => made.asked.number == TER_TSK,
        _ => false,
    }
}

impl Arrival {
    /// Puts a line at the end: who came where, and by which branch or jump.
    fn put(self, names: Names, alloc: Global, out: &mut Vec<u8>) -> Result<(), NoMemory> {
        let Taken {
            insn,
            place,
            target,
        } = self.taken;
        put_who(alloc, out, Some(self.who))?;
        put(out, " came to ")?;
        names.put_both(out, target)?;
        put(out, " from ")?;
        names.put_both(out, place)?;
        put(out, " by ")?;
        write_instruction(&insn, place, out)?;
        put_register(&insn, target, out)?;
        if target != self.place {
            put(out, ", and went on from there")?;
        }
        put(out, "\n")
    }
}

/// Puts at the end which word was in the register by which an instruction jumps, if it does.
fn put_register(insn: &Insn, word: u32, out: &mut Vec<u8>) -> Result<(), NoMemory> {
    let Some(register) = register_of(insn) else {
        return Ok(());
    };
    put(out, ": ")?;
    write_register(register, out)?;
    put(out, " was ")?;
    put_word(out, word)
}

/// The register by which an instruction jumps, if it does.
fn register_of(insn: &Insn) -> Option<Register> {
    let shape = shape_of(insn);
    match shape.flow {
        Flow::Jump | Flow::JumpAndLink | Flow::Return => shape.reads.rs,
        _ => None,
    }
}
