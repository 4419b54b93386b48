//! What words of tasks and handlers were made of: the address of a label, or the upper half of one.

use crate::labels::Labels;
use brd_base::NoMemory;
use brd_board::Standing;
use brd_exec::Context;
use brd_happening::Instruction;
use brd_isa::{ImmediateOp, Insn, MemoryAccess, Register, RegisterOp};
use brd_word::sign16;
use std::alloc::Global;

/// What a word was made of, beside numbers.
#[derive(Clone, Copy)]
pub(crate) enum Made {
    /// Nothing that is known.
    Unknown,
    /// The upper half of an address, as LUI has it.
    Upper(u32),
    /// The address of the label that stands there.
    Label(u32),
    /// Two of these.
    Both,
}

/// What a register's word was made of, as long as it is this word.
#[derive(Clone, Copy)]
struct Held {
    made: Made,
    word: u32,
}

/// The registers of a task or a handler.
#[derive(Clone, Copy)]
struct Trail {
    who: Standing,
    registers: [Held; 32],
}

/// The registers of all tasks and handlers that have done something.
#[derive(Drop)]
pub(crate) struct Trails {
    rows: Vec<Trail>,
}

impl Made {
    /// The sum with a number.
    fn plus_number(self, number: u32, labels: &Labels) -> Made {
        match self {
            Made::Upper(upper) => label_at(upper.wrapping_add(number), labels),
            _ => self,
        }
    }

    /// The sum.
    fn plus(self, other: Made) -> Made {
        match (self, other) {
            (made, Made::Unknown) | (Made::Unknown, made) => made,
            _ => Made::Both,
        }
    }

    /// The difference.
    fn minus(self, other: Made) -> Made {
        match other {
            Made::Unknown => self,
            _ => Made::Both,
        }
    }
}

/// What the address of a label was made of, if one stands there.
fn label_at(address: u32, labels: &Labels) -> Made {
    if labels.stands_at(address) {
        return Made::Label(address);
    }
    Made::Unknown
}

impl Trail {
    /// Nothing is known of these registers.
    fn new(who: Standing) -> Trail {
        let unknown = Held {
            made: Made::Unknown,
            word: 0,
        };
        Trail {
            who,
            registers: [unknown; 32],
        }
    }

    /// What a register's word was made of.
    fn made(&self, before: &Context, register: Register) -> Made {
        let held = self.registers[register.number() as usize];
        if held.word == before.read(register) {
            held.made
        } else {
            Made::Unknown
        }
    }

    /// What an instruction has made, which found these registers.
    fn made_by(&self, before: &Context, insn: &Insn, labels: &Labels) -> Made {
        match *insn {
            Insn::LoadUpper(_, upper) => Made::Upper(u32::from(upper) << 16),
            Insn::WithImmediate(op, _, rs, number) => {
                self.made_with(before, op, rs, number, labels)
            }
            Insn::ThreeRegisters(op, _, rs, rt) => {
                made_of(op, self.made(before, rs), self.made(before, rt))
            }
            _ => Made::Unknown,
        }
    }

    /// What a register and a number have made.
    fn made_with(
        &self,
        before: &Context,
        op: ImmediateOp,
        rs: Register,
        number: u16,
        labels: &Labels,
    ) -> Made {
        let made = self.made(before, rs);
        match (op, made) {
            (ImmediateOp::Addi | ImmediateOp::Addiu, _) => made.plus_number(sign16(number), labels),
            (ImmediateOp::Ori, Made::Upper(upper)) if upper == before.read(rs) => {
                label_at(upper | u32::from(number), labels)
            }
            _ => Made::Unknown,
        }
    }

    /// The label whose address is in what an instruction names by its base and its offset.
    fn label_of(&self, before: &Context, access: MemoryAccess, labels: &Labels) -> Option<u32> {
        let made = self.made(before, access.base);
        match made.plus_number(sign16(access.offset), labels) {
            Made::Label(start) => Some(start),
            _ => None,
        }
    }

    /// Follows an instruction that found these registers.
    fn follow(&mut self, before: &Context, done: &Instruction, labels: &Labels) {
        let Some(written) = done.register else {
            return;
        };
        let made = self.made_by(before, &done.insn, labels);
        self.registers[written.register.number() as usize] = Held {
            made,
            word: written.word.new,
        };
    }
}

/// What two registers have made. An `or` with a word of which nothing is known is no sum, unless it is `move`.
fn made_of(op: RegisterOp, rs: Made, rt: Made) -> Made {
    match op {
        RegisterOp::Add | RegisterOp::Addu => rs.plus(rt),
        RegisterOp::Sub | RegisterOp::Subu => rs.minus(rt),
        _ => Made::Unknown,
    }
}

impl Trails {
    /// Nobody has done anything.
    pub(crate) fn new(alloc: Global) -> Trails {
        Trails {
            rows: Vec::new(alloc),
        }
    }

    /// The label whose address is in what somebody's instruction names by its base and its offset.
    pub(crate) fn label_of(
        &self,
        who: Standing,
        before: &Context,
        access: MemoryAccess,
        labels: &Labels,
    ) -> Option<u32> {
        for row in self.rows.as_slice() {
            if row.who == who {
                return row.label_of(before, access, labels);
            }
        }
        None
    }

    /// Follows somebody's instruction that found these registers.
    pub(crate) fn follow(
        &mut self,
        who: Standing,
        before: &Context,
        done: &Instruction,
        labels: &Labels,
    ) -> Result<(), NoMemory> {
        for row in self.rows.as_mut_slice() {
            if row.who == who {
                row.follow(before, done, labels);
                return Ok(());
            }
        }
        let mut row = Trail::new(who);
        row.follow(before, done, labels);
        self.rows.push(row)?;
        Ok(())
    }
}
