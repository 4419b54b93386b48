//! An instruction as a line of the assembler's source.

ghost use Rattle.std.specs.Prelude.{◌≡◌, ◌++◌, OnOk, IfOk};
ghost use Rattle.brd_listing.specs.Listing as listing;

use crate::number::{put_decimal, put_hex, put_signed};
use crate::operand::{ListedOperand, mnemonic_of, operands_of};
use brd_base::NoMemory;
use brd_isa::{Insn, Register, ShiftOp, mnemonic_name, register_name};
use brd_text::hex_digits;

/// Puts at the end the line of source, without a newline, that stands for an instruction at an address, as
/// `lw $t0, 8($sp)` or `beq $t0, $zero, 0x80000040`: targets of branches and jumps are addresses, a code that is 0 is
/// left out, and SLL of nothing is `nop`. Where memory runs out, a front of the line may be there.
pub fn write_instruction(insn: &Insn, address: u32, to: &mut Vec<u8>) -> Result<(), NoMemory>
    ensures { IfOk result
        (λ _. listing.IsBehind (listing.IsListed insn.now address) to.old.items to.new.items) }
{
    if is_nop(insn) {
        to.extend_from_slice(b"nop")?;
        return Ok(());
    }
    spell(insn, address, to)
}

/// Puts the name of an instruction and its operands at the end.
fn spell(insn: &Insn, address: u32, to: &mut Vec<u8>) -> Result<(), NoMemory>
    ensures { IfOk result
        (λ _. listing.IsBehind (listing.IsSpelled insn.now address) to.old.items to.new.items) }
{
    to.extend_from_slice(mnemonic_name(mnemonic_of(insn)))?;
    put_operands(operands_of(insn, address), to)?;
    Ok(())
}

/// Puts operands at the end.
fn put_operands(operands: [ListedOperand; 3], to: &mut Vec<u8>) -> Result<(), NoMemory>
    ensures { OnOk result (to.new.items ≡ to.old.items ++ listing.operands_text operands) }
{
    let [first, second, third] = operands;
    put_operand(to, " ", first)?;
    put_operand(to, ", ", second)?;
    put_operand(to, ", ", third)
}

/// Whether an instruction is `nop`: SLL of register 0 by 0 into register 0.
fn is_nop(insn: &Insn) -> bool
    ensures { result ≡ listing.is_nop insn.now }
{
    match *insn {
        Insn::Shift(ShiftOp::Sll, rd, rt, sa) => {
            rd.number() == 0 && rt.number() == 0 && sa.bits() == 0
        }
        _ => false,
    }
}

/// Puts an operand at the end, where there is one, and before it what parts it from what is there.
fn put_operand(to: &mut Vec<u8>, between: &str, operand: ListedOperand) -> Result<(), NoMemory>
    ensures { OnOk result (to.new.items ≡ to.old.items ++ listing.operand_text between.now operand) }
{
    if matches!(operand, ListedOperand::Nothing) {
        return Ok(());
    }
    to.extend_from_slice(between.as_bytes())?;
    match operand {
        ListedOperand::Nothing => Ok(()),
        ListedOperand::Register(register) => write_register(register, to),
        ListedOperand::Signed(bits) => put_signed(to, bits),
        ListedOperand::Bits(bits) => put_hex(to, bits as u32),
        ListedOperand::Number(number) => put_decimal(to, number),
        ListedOperand::Target(address) => put_target(to, address),
        ListedOperand::Address(offset, base) => put_address(to, offset, base),
    }
}

/// Puts the name of a register at the end, with the `$`. Where memory runs out, a front of it may be there.
pub fn write_register(register: Register, to: &mut Vec<u8>) -> Result<(), NoMemory>
    ensures { OnOk result (to.new.items ≡ to.old.items ++ listing.register_text register) }
{
    to.push(b'$')?;
    to.extend_from_slice(register_name(register))?;
    Ok(())
}

/// Puts an address at the end: `0x` and eight digits.
fn put_target(to: &mut Vec<u8>, address: u32) -> Result<(), NoMemory>
    ensures { OnOk result (to.new.items ≡ to.old.items ++ listing.target_text address) }
{
    to.extend_from_slice(b"0x")?;
    to.extend_from_slice(&hex_digits(address))?;
    Ok(())
}

/// Puts `offset(base)` at the end.
fn put_address(to: &mut Vec<u8>, offset: u16, base: Register) -> Result<(), NoMemory>
    ensures { OnOk result (to.new.items ≡ to.old.items ++ listing.address_text offset base) }
{
    put_signed(to, offset)?;
    to.push(b'(')?;
    write_register(base, to)?;
    to.push(b')')?;
    Ok(())
}
