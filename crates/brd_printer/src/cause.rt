//! Why an instruction raised an exception, in words.

use brd_base::{BASE, NoMemory, is_ram_size};
use brd_exec::ExceptionCode;
use brd_happening::{Cause, Exception};
use brd_isa::{Insn, RegisterOp};
use brd_listing::write_instruction;
use brd_names::{Names, put, put_number, put_word};
use brd_word::Order;
use std::alloc::Global;

/// An exception of the instruction at an address.
#[derive(Clone, Copy)]
pub struct Raised {
    /// The address.
    pub place: u32,
    /// The exception.
    pub exception: Exception,
    /// In which order the bytes of words lie.
    pub order: Order,
}

impl Raised {
    /// Puts at the end the exception's name and its cause.
    pub fn put(&self, alloc: Global, names: Names, out: &mut Vec<u8>) -> Result<(), NoMemory> {
        put(out, exception_name(self.exception.fault.code))?;
        put(out, ": ")?;
        self.put_cause(alloc, names, out)?;
        if !self.exception.fault.bd {
            return Ok(());
        }
        put(out, ", in the delay slot of ")?;
        names.put_place(out, self.exception.fault.epc)
    }

    /// Puts the cause at the end.
    fn put_cause(&self, alloc: Global, names: Names, out: &mut Vec<u8>) -> Result<(), NoMemory> {
        match self.exception.cause {
            Cause::Fetch { address, ra } => self.put_fetch(names, out, address, ra),
            Cause::Load(address) => self.put_access(out, "load from ", address),
            Cause::Store(address) => self.put_access(out, "store to ", address),
            Cause::Break(code) => {
                put_meaning(out, code)?;
                put(out, "break ")?;
                put_number(alloc, out, u64::from(code))
            }
            Cause::NoInstruction(word) => {
                put_word(out, word)?;
                put(out, " is no instruction of MIPS32 Release 1")?;
                self.put_data(names, out, word)
            }
            Cause::JumpInSlot => {
                self.put_instruction(out)?;
                put(out, " is a branch or a jump")
            }
            Cause::Operands { one, other } => self.put_operands(out, one, other),
            Cause::Unknown => put(out, "of no cause"),
        }
    }

    /// Puts at the end what the word is that was executed, and whose, where its bytes are text.
    fn put_data(&self, names: Names, out: &mut Vec<u8>, word: u32) -> Result<(), NoMemory> {
        let bytes = match self.order {
            Order::Big => word.to_be_bytes(),
            Order::Little => word.to_le_bytes(),
        };
        if !are_text(bytes) {
            return Ok(());
        }
        put(out, ", but data behind ")?;
        names.put_place(out, self.place)?;
        put(out, ": '")?;
        out.extend_from_slice(&bytes)?;
        put(out, "'")
    }

    /// Whether it is for an address that isn't aligned.
    fn is_unaligned(&self) -> bool {
        matches!(
            self.exception.fault.code,
            ExceptionCode::AdEL | ExceptionCode::AdES
        )
    }

    /// Puts at the end from where it couldn't be fetched, and where $ra leads, from where a wrong jump may have come.
    fn put_fetch(
        &self,
        names: Names,
        out: &mut Vec<u8>,
        address: u32,
        ra: u32,
    ) -> Result<(), NoMemory> {
        if self.is_unaligned() {
            put(out, "fetch from ")?;
            put_word(out, address)?;
            put(out, ", unaligned")?;
        } else {
            // $ra is 0 when a task or a handler begins
            if address == 0 && ra == 0 {
                put(
                    out,
                    "returned from its function (a task ends by ext_tsk or ext_ker, a handler by ret_int), ",
                )?;
            }
            put(out, "fetch outside RAM at ")?;
            put_word(out, address)?;
            put_run(names, out, address)?;
        }
        put(out, ", $ra is ")?;
        names.put_place(out, ra)
    }

    /// Puts at the end what it loads from, or stores to.
    fn put_access(&self, out: &mut Vec<u8>, what: &str, address: u32) -> Result<(), NoMemory> {
        put(out, what)?;
        put_word(out, address)?;
        put(
            out,
            if self.is_unaligned() {
                ", unaligned"
            } else {
                ", outside RAM"
            },
        )
    }

    /// Puts the instruction at the end.
    fn put_instruction(&self, out: &mut Vec<u8>) -> Result<(), NoMemory> {
        match self.exception.insn {
            Some(insn) => write_instruction(&insn, self.place, out),
            None => Ok(()),
        }
    }

    /// Puts at the end the instruction, and which sum or difference is no signed word; or the trap, what it stands for,
    /// and which words it compared.
    fn put_operands(&self, out: &mut Vec<u8>, one: u32, other: u32) -> Result<(), NoMemory> {
        if matches!(self.exception.fault.code, ExceptionCode::Tr) {
            put_meaning(out, code_of(&self.exception.insn))?;
            self.put_instruction(out)?;
            put(out, ", of ")?;
            return put_words(out, one, " and ", other);
        }
        self.put_instruction(out)?;
        put(out, ", ")?;
        put_words(out, one, sign_of(&self.exception.insn), other)?;
        put(out, " is no signed word")
    }
}

/// Puts at the end the last word of what is loaded, where an address may be the end of RAM, and nothing is loaded right
/// before it: who fetches from there may have run to it from that word.
fn put_run(names: Names, out: &mut Vec<u8>, address: u32) -> Result<(), NoMemory> {
    if address > BASE && is_ram_size(address - BASE) && !names.loads(address - 4) {
        return names.put_past(address, out);
    }
    Ok(())
}

/// Whether some bytes are printable ASCII.
fn are_text(bytes: [u8; 4]) -> bool {
    for byte in bytes.as_slice() {
        if *byte < 32 || *byte > 126 {
            return false;
        }
    }
    true
}

/// The sign between the words of a sum or a difference.
fn sign_of(insn: &Option<Insn>) -> &'static str {
    match *insn {
        Some(Insn::ThreeRegisters(RegisterOp::Sub, _, _, _)) => " - ",
        _ => " + ",
    }
}

/// The code of a trap that has one, else 0.
fn code_of(insn: &Option<Insn>) -> u32 {
    match *insn {
        Some(Insn::Trap(_, _, _, code)) => u32::from(code.code()),
        _ => 0,
    }
}

/// Puts at the end what a code stands for, where compilers have it for something: MIPS Linux, asm/break.h, BRK_OVERFLOW
/// and BRK_DIVZERO. (GNU as writes the code of a BREAK into the upper half of its bits.)
fn put_meaning(out: &mut Vec<u8>, code: u32) -> Result<(), NoMemory> {
    match code {
        6 | 0x1800 => put(out, "overflow, "),
        7 | 0x1c00 => put(out, "division by zero, "),
        _ => Ok(()),
    }
}

/// Puts two words at the end.
fn put_words(out: &mut Vec<u8>, one: u32, between: &str, other: u32) -> Result<(), NoMemory> {
    put_word(out, one)?;
    put(out, between)?;
    put_word(out, other)
}

/// The name of an exception (MD00090, the ExcCode field of the Cause register).
pub fn exception_name(code: ExceptionCode) -> &'static str {
    match code {
        ExceptionCode::AdEL => "AdEL",
        ExceptionCode::AdES => "AdES",
        ExceptionCode::IBE => "IBE",
        ExceptionCode::DBE => "DBE",
        ExceptionCode::Bp => "Bp",
        ExceptionCode::RI => "RI",
        ExceptionCode::Ov => "Ov",
        ExceptionCode::Tr => "Tr",
    }
}
