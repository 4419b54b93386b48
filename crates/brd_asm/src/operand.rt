//! The operands of instructions as the numbers of their fields.

ghost use Rattle.std.specs.Prelude.{◌≡◌, ◌<◌, ◌≤◌, ◌^◌, pos, IfOk};
ghost use Rattle.std.specs.Int.{int_div_euclid};
ghost use Rattle.brd_source.specs.View as source;
ghost use Rattle.brd_asm.specs.Faults.{Gives};
ghost use Rattle.brd_asm.specs.Values.{modulo};
ghost use Rattle.brd_asm.specs.Meaning.{number_in, signed_field, signed_in, unsigned_in, field_in, aligned, offset_to};
ghost use Rattle.brd_asm.specs.Meaning.{index_to, prefetch_in};

use crate::fault::AsmFault;
use crate::names::Names;
use crate::value::{known, modulo, signed_value, unsigned_value, up_to, value_of, within};
use brd_isa::{Hint, ImmediateOp, JumpIndex, LongCode, ShiftAmount, ShortCode};
use brd_source::SourceOperand;

/// What the numbers of an instruction depend on: its line and its place, and the names of the source.
#[derive(Clone, Copy)]
pub struct Site<'a, 'b> {
    /// The line that it is written on.
    pub line: usize,
    /// Its address.
    pub place: u32,
    /// All names.
    pub names: &'a Names<'b>,
}

impl<'a, 'b> Site<'a, 'b> {
    /// A number from 0 to high.
    #[tactic(auto, unfolding(crate::specs::Meaning::number_in))]
    fn number_in(self, high: u32, operand: SourceOperand) -> Result<u32, AsmFault>
        ensures is { Gives (λ n. n) result
            (number_in self.entry.line self.entry.names.now high (source.operand_value operand.entry)) }
        ensures below { IfOk result (λ n. n ≤ high) }
    {
        let v = known(self.line, value_of(self.names, operand.expression()))?;
        up_to(self.line, high, v)
    }

    /// A shift amount.
    pub fn shift_amount(self, operand: SourceOperand) -> Result<ShiftAmount, AsmFault>
        ensures { Gives (λ n. n) result
            (number_in self.entry.line self.entry.names.now 31 (source.operand_value operand.entry)) }
    {
        Ok(ShiftAmount::low(self.number_in(31, operand)?))
    }

    /// The code of a system call or a break.
    pub fn long_code(self, operand: SourceOperand) -> Result<LongCode, AsmFault>
        ensures { Gives (λ n. n) result
            (number_in self.entry.line self.entry.names.now 1048575 (source.operand_value operand.entry)) }
    {
        Ok(LongCode::low(self.number_in(0xf_ffff, operand)?))
    }

    /// The code of a trap.
    pub fn short_code(self, operand: SourceOperand) -> Result<ShortCode, AsmFault>
        ensures { Gives (λ n. n) result
            (number_in self.entry.line self.entry.names.now 1023 (source.operand_value operand.entry)) }
    {
        Ok(ShortCode::low(self.number_in(0x3ff, operand)?))
    }

    /// The field of an immediate or an offset that is read as signed.
    #[tactic(auto, unfolding(crate::specs::Meaning::signed_in))]
    pub fn signed(self, operand: SourceOperand) -> Result<u16, AsmFault>
        ensures { Gives (λ n. n) result
            (signed_in self.entry.line self.entry.names.now (source.operand_value operand.entry)) }
    {
        let v = known(self.line, signed_value(self.names, operand.immediate()))?;
        signed_field(self.line, v)
    }

    /// The field of an immediate that isn't.
    #[tactic(auto, unfolding(crate::specs::Meaning::unsigned_in))]
    pub fn unsigned(self, operand: SourceOperand) -> Result<u16, AsmFault>
        ensures { Gives (λ n. n) result
            (unsigned_in self.entry.line self.entry.names.now (source.operand_value operand.entry)) }
    {
        let v = known(self.line, unsigned_value(self.names, operand.immediate()))?;
        let n = up_to(self.line, 0xffff, v)?;
        Ok(n as u16)
    }

    /// The field of an immediate of an arithmetic or logical operation.
    pub fn field(self, op: ImmediateOp, operand: SourceOperand) -> Result<u16, AsmFault>
        ensures { Gives (λ n. n) result
            (field_in op self.entry.line self.entry.names.now (source.operand_value operand.entry)) }
    {
        match op {
            ImmediateOp::Andi | ImmediateOp::Ori | ImmediateOp::Xori => self.unsigned(operand),
            _ => self.signed(operand),
        }
    }

    /// The offset of a branch: how many words its target lies after the slot.
    #[tactic(auto, unfolding(crate::specs::Meaning::offset_to))]
    pub fn offset_to(self, target: SourceOperand) -> Result<u16, AsmFault>
        ensures { Gives (λ n. n) result
            (offset_to self.entry.line self.entry.place self.entry.names.now (source.operand_value target.entry)) }
    {
        let slot = self.place as u64 + 4;
        let v = known(self.line, value_of(self.names, target.expression()))?;
        let distance = within(self.line, -131_072, 131_068, v - slot as i128)?;
        aligned(self.line, v)?;
        Ok(words_in(distance))
    }

    /// The index of a jump, whose target has the top four bits of the slot's address.
    #[tactic(auto, unfolding(crate::specs::Meaning::index_to))]
    pub fn index_to(self, target: SourceOperand) -> Result<JumpIndex, AsmFault>
        ensures { Gives (λ n. n) result
            (index_to self.entry.line self.entry.place self.entry.names.now (source.operand_value target.entry)) }
    {
        let slot = self.place as u64 + 4;
        let region = (slot / 0x1000_0000 * 0x1000_0000) as i64;
        let v = known(self.line, value_of(self.names, target.expression()))?;
        within(self.line, region, region + 0xfff_ffff, v)?;
        let target = aligned(self.line, v)?;
        let words = modulo(target.div_euclid(4), 0x400_0000);
        Ok(JumpIndex::low(words as u32))
    }

    /// The hint and the offset of a prefetch: the names of both count before their ranges.
    #[tactic(auto, unfolding(crate::specs::Meaning::prefetch_in))]
    pub fn prefetch(
        self,
        hint: SourceOperand,
        offset: SourceOperand,
    ) -> Result<(Hint, u16), AsmFault>
        ensures { Gives (λ fields. fields) result
            (prefetch_in self.entry.line self.entry.names.now (source.operand_value hint.entry)
            (source.operand_value offset.entry)) }
    {
        let hint = known(self.line, value_of(self.names, hint.expression()))?;
        let offset = known(self.line, signed_value(self.names, offset.immediate()))?;
        let n = up_to(self.line, 31, hint)?;
        let low = signed_field(self.line, offset)?;
        Ok((Hint::low(n), low))
    }
}

/// The sixteen bits of a value from -32,768 to 32,767.
#[tactic(auto, unfolding(crate::specs::Meaning::signed_field))]
fn signed_field(line: usize, value: i128) -> Result<u16, AsmFault>
    ensures { Gives (λ n. n) result (signed_field line value) }
{
    let x = within(line, -32_768, 32_767, value)?;
    Ok(modulo(x as i128, 0x1_0000) as u16)
}

/// A target that is a multiple of 4.
#[tactic(auto, unfolding(crate::specs::Meaning::aligned))]
fn aligned(line: usize, target: i128) -> Result<i128, AsmFault>
    ensures { Gives (λ v. v) result (aligned line target) }
{
    if modulo(target, 4) != 0 {
        return Err(AsmFault::Misaligned { line });
    }
    Ok(target)
}

/// A distance in words, modulo 2^16.
fn words_in(distance: i64) -> u16
    ensures { result ≡ modulo (int_div_euclid distance (pos 4)) (2 ^ 16) }
{
    modulo((distance as i128).div_euclid(4), 0x1_0000) as u16
}
