//! The context of a processor.

ghost use Rattle.std.specs.Prelude.{◌≡◌, ◌≤◌, ◌<◌, ◌^◌, length, slice_index};
ghost use Rattle.brd_exec.specs.State.{
  opening,
  read,
  write,
  write_product,
  product_in,
  advanced,
  with_register,
  jumped,
  after_branch,
  return_address_of,
  with_return_address_if,
  jump_target,
  address_of,
};

use brd_base::Same;
use brd_isa::{JumpIndex, Register};
use brd_word::sign16;
use std::marker::Model;

/// 32 registers, of which register 0 is always 0, HI, LO, the addresses of the next instruction and of the one after
/// it, and whether the next one is in a delay slot (the CPU registers of MIPS32, MD00082: *MIPS32 Architecture for
/// Programmers, volume I: introduction*; own choice: `npc` and `slot` in place of a pending branch).
#[derive(Clone, Copy, PartialEq, Eq)]
pub struct Context {
    registers: [u32; 32],
    hi: u32,
    lo: u32,
    pc: u32,
    npc: u32,
    slot: bool,
}

impl Model for Context {
    ghost use Rattle.std.specs.Prelude.{◌≡◌, slice_index};
    ghost use Rattle.brd_exec.specs.State.{State};

    ghost Value = { State };

    ghost view = { λ c.
        record { registers = c.registers; hi = c.hi; lo = c.lo; pc = c.pc; npc = c.npc; slot = c.slot } };

    ghost invariant = { λ c. slice_index c.registers 0 ≡ 0 };

    ghost inverse = { λ s.
        record { registers = s.registers; hi = s.hi; lo = s.lo; pc = s.pc; npc = s.npc; slot = s.slot } };
}

impl Same for Context {
    fn same(&self, other: &Self) -> bool {
        *self == *other
    }
}

impl Context {
    /// Where a task or a handler starts: all 0 but the argument in $a0 and the stack in $sp.
    pub fn opening(address: u32, argument: u32, stack: u32) -> Self
        ensures { result ≡ opening address argument stack }
    {
        let mut registers = [0; 32];
        registers[4] = argument;
        registers[29] = stack;
        Context {
            registers,
            hi: 0,
            lo: 0,
            pc: address,
            npc: address.wrapping_add(4),
            slot: false,
        }
    }

    /// A register's word.
    pub fn read(&self, register: Register) -> u32
        ensures { result ≡ read self.now register }
    {
        self.registers[register.number() as usize]
    }

    /// The word of the register with a number.
    #[inline(always)]
    pub fn word(&self, number: u8) -> u32
        requires { number < 2 ^ 5 }
        ensures { result ≡ read self.now number }
    {
        self.registers[number as usize]
    }

    /// The words of the 32 registers, in the order of their numbers; that of register 0 is 0.
    pub fn registers(&self) -> &[u32]
        ensures words { result.now ≡ self.now.registers }
        ensures count { length result.now ≡ 32 }
        ensures zero { slice_index result.now 0 ≡ 0 }
    {
        self.registers.as_slice()
    }

    /// The HI register.
    pub fn hi(&self) -> u32
        ensures { result ≡ self.now.hi }
    {
        self.hi
    }

    /// The LO register.
    pub fn lo(&self) -> u32
        ensures { result ≡ self.now.lo }
    {
        self.lo
    }

    /// The address of the next instruction.
    pub fn pc(&self) -> u32
        ensures { result ≡ self.now.pc }
    {
        self.pc
    }

    /// The address of the instruction after the next one.
    pub fn npc(&self) -> u32
        ensures { result ≡ self.now.npc }
    {
        self.npc
    }

    /// Whether the next instruction is in a delay slot.
    pub fn slot(&self) -> bool
        ensures { result ≡ self.now.slot }
    {
        self.slot
    }

    /// Writes a word to a register; register 0 stays 0.
    pub fn write(&mut self, register: Register, word: u32)
        ensures { self.new ≡ write self.old register word }
    {
        if register.number() != 0 {
            self.registers[register.number() as usize] = word;
        }
    }

    /// Writes a word to the register with a number, which isn't 0.
    #[inline(always)]
    pub fn put(&mut self, number: u8, word: u32)
        requires few { number < 2 ^ 5 }
        requires some { 1 ≤ number }
        ensures { self.new ≡ write self.old number word }
    {
        self.registers[number as usize] = word;
    }

    /// Goes to an instruction, with the address of the one after it, and whether it is in a delay slot.
    #[inline(always)]
    pub fn go_to(&mut self, pc: u32, npc: u32, slot: bool)
        ensures { self.new ≡ record self.old { pc = pc; npc = npc; slot = slot } }
    {
        self.pc = pc;
        self.npc = npc;
        self.slot = slot;
    }

    /// Goes on to the next instruction.
    pub fn advance(&mut self)
        ensures { self.new ≡ advanced self.old }
    {
        self.pc = self.npc;
        self.npc = self.npc.wrapping_add(4);
        self.slot = false;
    }

    /// Goes on to the next instruction with this word in a register.
    pub fn set(&mut self, register: Register, word: u32)
        ensures { self.new ≡ with_register self.old register word }
    {
        self.advance();
        self.write(register, word);
    }

    /// Writes a number of 64 bits to HI, its high half, and LO, and goes on to the next instruction.
    pub fn set_product(&mut self, product: u64)
        ensures { self.new ≡ write_product (advanced self.old) product }
    {
        self.advance();
        self.hi = (product >> 32) as u32;
        self.lo = (product % 0x1_0000_0000) as u32;
    }

    /// The number of 64 bits in HI and LO.
    pub fn product(&self) -> u64
        ensures { result ≡ product_in self.now }
    {
        (u64::from(self.hi) << 32) + u64::from(self.lo)
    }

    /// Writes HI and goes on to the next instruction.
    pub fn set_hi(&mut self, word: u32)
        ensures { self.new ≡ record (advanced self.old) { hi = word } }
    {
        self.advance();
        self.hi = word;
    }

    /// Writes LO and goes on to the next instruction.
    pub fn set_lo(&mut self, word: u32)
        ensures { self.new ≡ record (advanced self.old) { lo = word } }
    {
        self.advance();
        self.lo = word;
    }

    /// Goes on to the delay slot of a jump, which is followed by its target.
    pub fn jump(&mut self, target: u32)
        ensures { self.new ≡ jumped self.old target }
    {
        self.pc = self.npc;
        self.npc = target;
        self.slot = true;
    }

    /// The target of a jump by an index.
    pub fn jump_target(&self, index: JumpIndex) -> u32
        ensures { result ≡ jump_target self.now index }
    {
        ((self.npc >> 28) << 28) + (index.words() << 2)
    }

    /// The address after the delay slot, to which a call returns.
    pub fn return_address(&self) -> u32
        ensures { result ≡ return_address_of self.now }
    {
        self.pc.wrapping_add(8)
    }

    /// Writes the return address to register 31, for an instruction that calls.
    pub fn write_return_address_if(&mut self, calls: bool)
        ensures { self.new ≡ with_return_address_if self.old calls }
    {
        if calls {
            let address = self.return_address();
            self.write(Register::low(31), address);
        }
    }

    /// Goes on to the delay slot of a branch, which is followed by its target where it is taken; a branch-likely that
    /// isn't taken goes on after its delay slot.
    pub fn branch(&mut self, likely: bool, taken: bool, offset: u16)
        ensures { self.new ≡ after_branch self.old likely taken offset }
    {
        if taken {
            let target = self.npc.wrapping_add(sign16(offset).wrapping_mul(4));
            self.jump(target);
            return;
        }
        let behind = self.npc.wrapping_add(4);
        if likely {
            self.npc = self.npc.wrapping_add(8);
            self.pc = behind;
            self.slot = false;
            return;
        }
        self.jump(behind);
    }

    /// The address that a load or a store names.
    pub fn address(&self, base: Register, offset: u16) -> u32
        ensures { result ≡ address_of self.now base offset }
    {
        self.read(base).wrapping_add(sign16(offset))
    }
}
