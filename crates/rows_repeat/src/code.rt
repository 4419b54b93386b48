//! Code at random: what a processor does first, and then instructions that lie in any order. Most of it goes on for
//! ever, since branches lead to any place of it. Some of it changes itself.

ghost use Rattle.std.specs.Prelude.{◌<◌};

use crate::random::Random;
use crate::table::{COUNT, Form, ROWS, Row};

/// How many words the code has.
pub const LENGTH: u32 = 96;

/// Where the data lie, 64 words: $s0 holds this address.
pub const DATA: u32 = 0x8000_3000;

/// The place of the code at which a task starts. Before it is the interrupt handler, which ends at once.
pub const START: u32 = 2;

/// The code so far: each instruction that is put goes to the next place, and past the end it is dropped.
#[derive(Drop)]
pub struct Code {
    /// Its words.
    pub words: [u32; 96],
    /// How many are put.
    len: u32,
    /// The address of the first one.
    first: u32,
    random: Random,
}

// Registers: those below 16 are written by any instruction; the others hold addresses, or words of the code.
const DATA_BASE: u32 = 16;

const CODE_BASE: u32 = 17;

const PLACE: u32 = 18;

const OTHER_PLACE: u32 = 19;

const COPIED: u32 = 20;

const RETURN: u32 = 31;

/// The words of LUI, ORI, ADDIU, LW, SW, SB, LL, SC, MTHI, MTLO, J and SYSCALL, with fields of 0.
const LUI: u32 = 0x3c00_0000;

const ORI: u32 = 0x3400_0000;

const ADDIU: u32 = 0x2400_0000;

const LW: u32 = 0x8c00_0000;

const SW: u32 = 0xac00_0000;

const SB: u32 = 0xa000_0000;

const LL: u32 = 0xc000_0000;

const SC: u32 = 0xe000_0000;

const MTHI: u32 = 0x0000_0011;

const MTLO: u32 = 0x0000_0013;

const JUMP: u32 = 0x0800_0000;

const SYSCALL: u32 = 0x0000_000c;

/// BEQ of two registers that are 0.
const BEQ: u32 = 0x1000_0000;

/// Seeds below this have the instructions in order.
const LISTED: u32 = 9;

/// A word with a register in the field rs, or in rt, or in rd.
fn with_rs(word: u32, register: u32) -> u32 {
    word | (register % 32) << 21
}

fn with_rt(word: u32, register: u32) -> u32 {
    word | (register % 32) << 16
}

fn with_rd(word: u32, register: u32) -> u32 {
    word | (register % 32) << 11
}

/// A word with rt, rs and the low half of a number.
fn with_low(word: u32, rt: u32, rs: u32, low: u32) -> u32 {
    with_rt(with_rs(word, rs), rt) | low % 0x1_0000
}

/// Code at an address, by a seed. The first few seeds have the instructions of the table in order, outside slots and in
/// them; the others have any. `closed`: the code ends with a jump to itself, and so goes on for ever.
pub fn code_at(first: u32, seed: u32, closed: bool) -> Code {
    let mut code = Code {
        words: [0; 96],
        len: 0,
        first,
        random: Random::new(seed),
    };
    code.put_opening();
    if seed < LISTED {
        code.put_listed(seed % 4 * 24);
    } else {
        code.put_rest();
    }
    if closed {
        code.words[94] = JUMP | (first / 4 + START) % 0x400_0000;
        code.words[95] = 0;
    }
    code
}

/// A row of a table, or ADDIU past its end. (It is a function of its own, so that no proof looks into the table.)
fn row_at(rows: &[Row], at: u32) -> Row {
    match rows.get(at as usize) {
        Some(row) => *row,
        None => ("addiu", ADDIU, Form::Immediate),
    }
}

impl Code {
    fn put(&mut self, word: u32) {
        if self.len < LENGTH {
            self.words[self.len as usize] = word;
            self.len += 1;
        }
    }

    /// A place of the code at random, as the offset of its address from the first one.
    fn place(&mut self) -> u32
        ensures { result < 384 }
    {
        self.random.below(LENGTH) * 4
    }

    /// The interrupt handler, and what each task does first: registers for addresses, and data for the others.
    fn put_opening(&mut self) {
        self.put(with_low(ADDIU, 2, 0, 58));
        self.put(SYSCALL);
        self.put_address(DATA_BASE, DATA);
        self.put_address(CODE_BASE, self.first);
        for register in [PLACE, OTHER_PLACE, RETURN] {
            let place = self.place();
            self.put(with_low(ADDIU, register, CODE_BASE, place));
        }
        for register in 8..16u32 {
            let offset = self.random.below(64) * 4;
            self.put(with_low(LW, register, DATA_BASE, offset));
        }
        self.put(with_rs(MTHI, 8));
        self.put(with_rs(MTLO, 9));
    }

    fn put_address(&mut self, register: u32, address: u32) {
        self.put(with_low(LUI, register, 0, address >> 16));
        self.put(with_low(ORI, register, register, address));
    }

    /// Instructions up to the end.
    fn put_rest(&mut self) {
        let mut in_slot = false;
        for _ in 0..LENGTH {
            in_slot = self.put_some(in_slot);
        }
    }

    /// Instructions of the table in order, from a row on.
    fn put_listed(&mut self, from: u32) {
        for (_, word, form) in ROWS.iter().skip(from as usize) {
            self.put_both(*word, *form);
        }
    }

    /// An instruction outside a slot and in one. A branch or a jump leads past its slot; rare ones are left out.
    fn put_both(&mut self, word: u32, form: Form) {
        if form.is_rare() {
            return;
        }
        if form.has_slot() {
            self.put_past(word, form);
        } else {
            let outside = self.word_of(word, form);
            let inside = self.word_of(word, form);
            self.put(outside);
            self.put(BEQ | 1);
            self.put(inside);
        }
    }

    /// A branch or a jump past its slot.
    fn put_past(&mut self, word: u32, form: Form) {
        let here = self.len % LENGTH;
        match form {
            Form::Branch => {
                let word = self.pair_of(word);
                self.put(word | 1);
            }
            Form::BranchOne => {
                let register = self.any();
                self.put(with_rs(word, register) | 1);
            }
            Form::Jump => self.put(word | (self.first / 4).wrapping_add(here + 2) % 0x400_0000),
            _ => {
                self.put(with_low(ADDIU, PLACE, CODE_BASE, (here + 3) * 4));
                let link = if form == Form::CallRegister {
                    RETURN
                } else {
                    0
                };
                self.put(with_rd(with_rs(word, PLACE), link));
            }
        }
        self.put(0);
    }

    /// The next instruction or the next few. `in_slot`: it is after a branch or a jump. Answers whether it is one.
    fn put_some(&mut self, in_slot: bool) -> bool {
        match self.random.below(48) {
            0..=3 => self.put_copy(),
            4..=5 => self.put_linked(),
            6 => self.put_spoiled(),
            _ => return self.put_any(in_slot),
        }
        false
    }

    /// Copies a word of the code to another place.
    fn put_copy(&mut self) {
        let register = COPIED + self.random.below(4);
        let (from, to) = (self.place(), self.place());
        self.put(with_low(LW, register, CODE_BASE, from));
        self.put(with_low(SW, register, CODE_BASE, to));
    }

    /// Loads a word of the data by LL, and stores it by SC.
    fn put_linked(&mut self) {
        let offset = self.random.below(64) * 4;
        self.put(with_low(LL, 5, DATA_BASE, offset));
        self.put(with_low(ADDIU, 5, 5, 1));
        self.put(with_low(SC, 5, DATA_BASE, offset));
    }

    /// Changes a byte of the code.
    fn put_spoiled(&mut self) {
        let place = self.place() + self.random.below(4);
        let register = self.random.below(16);
        self.put(with_low(SB, register, CODE_BASE, place));
    }

    /// Any instruction. After a branch or a jump another one is seldom. Answers whether it is one.
    fn put_any(&mut self, in_slot: bool) -> bool {
        let (_, mut word, mut form) = self.row();
        if in_slot && form.has_slot() && !self.random.once_in(16) {
            (word, form) = (ADDIU, Form::Immediate);
        }
        let word = self.word_of(word, form);
        self.put(word);
        form.has_slot()
    }

    /// A row of the table. Those that are rare are mostly drawn again.
    fn row(&mut self) -> Row {
        let row = row_at(ROWS, self.random.below(COUNT));
        let (_, _, form) = row;
        if form.is_rare() && !self.random.once_in(8) {
            return row_at(ROWS, self.random.below(COUNT));
        }
        row
    }

    /// A register that is read.
    fn any(&mut self) -> u32 {
        self.random.below(32)
    }

    /// A register that is written.
    fn target(&mut self) -> u32 {
        self.random.below(16)
    }

    /// A register that holds a place of the code.
    fn leading(&mut self) -> u32 {
        match self.random.below(3) {
            0 => PLACE,
            1 => OTHER_PLACE,
            _ => RETURN,
        }
    }

    /// A word with fields that are chosen.
    fn word_of(&mut self, word: u32, form: Form) -> u32 {
        match form {
            Form::Shift => self.shift_of(word),
            Form::Registers => self.registers_of(word),
            Form::Count => self.count_of(word),
            Form::Pair | Form::Trap => self.pair_of(word),
            Form::From => with_rd(word, self.target()),
            Form::To => with_rs(word, self.any()),
            Form::Immediate => with_low(word, self.target(), self.any(), self.random.word()),
            Form::Upper => with_low(word, self.target(), 0, self.random.word()),
            Form::Nothing | Form::Call => word,
            Form::Access(bits) => self.access_of(word, bits),
            Form::Jump => word | (self.first / 4 + self.random.below(LENGTH)) % 0x400_0000,
            Form::JumpRegister => with_rs(word, self.leading()),
            Form::CallRegister => self.call_of(word),
            Form::Branch => with_rt(self.branch_of(word), self.any()),
            Form::BranchOne => self.branch_of(word),
            Form::TrapImmediate => with_rs(word, self.any()) | self.random.word() % 0x1_0000,
        }
    }

    fn shift_of(&mut self, word: u32) -> u32 {
        let amount = self.random.below(32) << 6;
        with_rd(with_rt(word, self.any()), self.target()) | amount
    }

    fn registers_of(&mut self, word: u32) -> u32 {
        with_rd(self.pair_of(word), self.target())
    }

    fn count_of(&mut self, word: u32) -> u32 {
        let target = self.target();
        with_rd(with_rt(with_rs(word, self.any()), target), target)
    }

    fn pair_of(&mut self, word: u32) -> u32 {
        with_rt(with_rs(word, self.any()), self.any())
    }

    /// Once in 64 times the offset isn't aligned as it should be.
    fn access_of(&mut self, word: u32, bits: u32) -> u32 {
        let low = if self.random.once_in(64) { 3 } else { bits };
        let offset = self.random.below(64) * 4 + (self.random.below(4) & low) % 4;
        with_low(word, self.target(), DATA_BASE, offset)
    }

    fn call_of(&mut self, word: u32) -> u32 {
        let target = if self.random.once_in(2) {
            RETURN
        } else {
            self.target()
        };
        with_rd(with_rs(word, self.leading()), target)
    }

    /// The target is any place of the code; the offset counts from the delay slot.
    fn branch_of(&mut self, word: u32) -> u32 {
        let to = self.random.below(LENGTH);
        let offset = to.wrapping_sub(self.len.wrapping_add(1));
        with_rs(word, self.any()) | offset % 0x1_0000
    }
}
