//! What is said of mnemonics, shorthands and directives, and of those that are often written in their place.

use crate::names::{near_name, nearer};
use crate::scan::{first, token};
use brd_isa::{ImmediateOp, MNEMONIC_NAMES, Mnemonic};
use brd_source::{
    Directive, Kind, OTHER_NAMES, Operation, Shorthand, Width, form_of, short_form_of,
};
use brd_text::{is_name, number};

/// What stands after an operation.
#[derive(Clone, Copy)]
pub(crate) enum Shape {
    /// Operands of these kinds.
    Operands((Kind, Kind, Kind)),
    /// Values, one or more.
    Values,
    /// A string.
    Text,
    /// One word.
    Word,
    /// A byte order, before all that a source has.
    Order,
}

/// The shape of what stands after an operation, and how that is told.
pub(crate) fn shape_of(operation: Operation) -> (Shape, &'static [u8]) {
    match operation {
        Operation::Mnemonic(mnemonic) => {
            (Shape::Operands(form_of(mnemonic)), operands_of(mnemonic))
        }
        Operation::Shorthand(shorthand) => {
            let operands = match shorthand {
                Shorthand::Nop => b"".as_slice(),
                Shorthand::Move => b"rd, rs".as_slice(),
                Shorthand::Branch | Shorthand::BranchAndLink => b"target".as_slice(),
                Shorthand::BranchIfZero | Shorthand::BranchUnlessZero => b"rs, target".as_slice(),
            };
            (Shape::Operands(short_form_of(shorthand)), operands)
        }
        Operation::Directive(directive) => {
            let (shape, operands, _) = told_of(directive);
            (shape, operands)
        }
    }
}

/// The operands of a mnemonic as they are told.
fn operands_of(mnemonic: Mnemonic) -> &'static [u8] {
    match mnemonic {
        Mnemonic::Shift(_) => b"rd, rt, shift",
        Mnemonic::ShiftVariable(_) => b"rd, rt, rs",
        Mnemonic::ThreeRegisters(_) | Mnemonic::Multiply => b"rd, rs, rt",
        Mnemonic::JumpRegister | Mnemonic::MoveTo(_) => b"rs",
        Mnemonic::JumpLinkRegister | Mnemonic::Count(_) => b"rd, rs",
        Mnemonic::Syscall | Mnemonic::Break => b"code",
        Mnemonic::Sync => b"",
        Mnemonic::MoveFrom(_) => b"rd",
        Mnemonic::Product(_) | Mnemonic::Accumulate(_) => b"rs, rt",
        Mnemonic::Trap(_) => b"rs, rt, code",
        Mnemonic::TrapImmediate(_) => b"rs, immediate",
        Mnemonic::Jump(_) => b"target",
        Mnemonic::Branch(_) => b"rs, rt, target",
        Mnemonic::BranchZero(_) | Mnemonic::BranchRegimm(_) => b"rs, target",
        Mnemonic::WithImmediate(_) => b"rt, rs, immediate",
        Mnemonic::LoadUpper => b"rt, immediate",
        Mnemonic::Load(_) | Mnemonic::Store(_) | Mnemonic::Linked(_) => b"rt, offset(base)",
        Mnemonic::Prefetch => b"hint, offset(base)",
    }
}

/// What is told of a directive: the shape of what stands after it, that in words, and of a value that is out of range.
fn told_of(directive: Directive) -> (Shape, &'static [u8], Option<&'static [u8]>) {
    let one = Shape::Operands((Kind::Number, Kind::Nothing, Kind::Nothing));
    let two = Shape::Operands((Kind::Number, Kind::Number, Kind::Nothing));
    match directive {
        Directive::Org => (
            one,
            b"address",
            Some(b"the address of ~ is 0 to 4294967295, found ^"),
        ),
        Directive::Align => (
            one,
            b"power",
            Some(b"~ takes the power of 2, 0 to 12, found ^ (2 aligns to 4 bytes)"),
        ),
        Directive::Space => (
            one,
            b"count",
            Some(b"the count of ~ is 0 to 16777216, found ^"),
        ),
        Directive::Values(Width::Word) => (Shape::Values, b"value, ..", Some(WORDS)),
        Directive::Values(Width::Half) => (
            Shape::Values,
            b"value, ..",
            Some(b"a value of ~ is -32768 to 65535, found ^"),
        ),
        Directive::Values(Width::Byte) => (
            Shape::Values,
            b"value, ..",
            Some(b"a value of ~ is -128 to 255, found ^"),
        ),
        Directive::Ascii => (Shape::Text, b"\"string\"", None),
        Directive::Asciiz => (Shape::Text, b"\"string\"", None),
        Directive::Equ => (two, b"name, value", Some(WORDS)),
        Directive::Globl => (Shape::Word, b"name", None),
        Directive::Set => (Shape::Word, b"noreorder, noat or nomacro", None),
        Directive::ByteOrder => (Shape::Order, b"big or little", None),
    }
}

/// What is said of a directive that isn't there.
pub(crate) const NO_DIRECTIVE: &[u8] =
    b"unknown directive ~: there are .org .align .space .word .half .byte .ascii .asciiz .equ .globl .set .byteorder";

/// Of words that are out of range.
const WORDS: &[u8] = b"a value of ~ is -2147483648 to 4294967295, found ^";

/// Of immediates that are read as signed.
const SIGNED: &[u8] = b"the immediate of ~ is -32768 to 32767, found ^ (lui and ori make 32 bits)";

/// Of immediates that aren't.
const UNSIGNED: &[u8] = b"the immediate of ~ is 0 to 65535, found ^ (lui and ori make 32 bits)";

/// Of branches.
const BRANCH: &[u8] =
    b"^ is too far for ~, which reaches 32768 words back and 32767 on (use j, or jr)";

/// What is said of a value of an operation that is out of range.
pub(crate) fn range_of(operation: Operation) -> Option<&'static [u8]> {
    match operation {
        Operation::Mnemonic(mnemonic) => range_of_mnemonic(mnemonic),
        Operation::Shorthand(_) => Some(BRANCH),
        Operation::Directive(directive) => {
            let (_, _, range) = told_of(directive);
            range
        }
    }
}

/// What is said of a value of an instruction that is out of range, where it is a name, or a number of which another
/// form is the cure.
pub(crate) fn half_of(operation: Operation, value: &[u8]) -> Option<&'static [u8]> {
    let Operation::Mnemonic(mnemonic) = operation else {
        return None;
    };
    let is_named = is_name(token(value));
    let is_high = number(value).is_some_and(|word| word % 0x1_0000 == 0);
    match mnemonic {
        Mnemonic::LoadUpper if is_named => {
            Some(
                b"the immediate of ~ is 0 to 65535, found ^: the high half of an address is %hi(^)",
            )
        }
        Mnemonic::LoadUpper if is_high => {
            Some(b"the immediate of ~ is the word's high half: for ^ write @")
        }
        Mnemonic::WithImmediate(ImmediateOp::Andi | ImmediateOp::Ori | ImmediateOp::Xori)
            if first(value) == b'-' => {
            Some(
                b"the immediate of ~ is 0 to 65535, found ^: put a negative number into a register by addiu",
            )
        }
        Mnemonic::WithImmediate(_) if is_named => Some(
            b"the immediate of ~ is one half, found ^: the low half of an address is %lo(^), for addiu",
        ),
        Mnemonic::Load(_) | Mnemonic::Store(_) | Mnemonic::Linked(_) if is_named => Some(
            b"the offset of ~ is -32768 to 32767, found ^: write %lo(^), with %hi(^) in the base by lui",
        ),
        _ => None,
    }
}

/// What is said of a value of an instruction that is out of range.
fn range_of_mnemonic(mnemonic: Mnemonic) -> Option<&'static [u8]> {
    match mnemonic {
        Mnemonic::Shift(_) => Some(b"the shift of ~ is 0 to 31, found ^"),
        Mnemonic::Syscall | Mnemonic::Break => Some(b"the code of ~ is 0 to 1048575, found ^"),
        Mnemonic::Trap(_) => Some(b"the code of ~ is 0 to 1023, found ^"),
        Mnemonic::TrapImmediate(_) => Some(SIGNED),
        Mnemonic::WithImmediate(ImmediateOp::Andi | ImmediateOp::Ori | ImmediateOp::Xori)
        | Mnemonic::LoadUpper => Some(UNSIGNED),
        Mnemonic::WithImmediate(_) => Some(SIGNED),
        Mnemonic::Jump(_) => {
            Some(b"^ isn't in the same 0x10000000 bytes as the slot of ~ (use jr or jalr)")
        }
        Mnemonic::Branch(_) | Mnemonic::BranchZero(_) | Mnemonic::BranchRegimm(_) => Some(BRANCH),
        Mnemonic::Load(_) | Mnemonic::Store(_) | Mnemonic::Linked(_) => {
            Some(b"the offset of ~ is -32768 to 32767, found ^ (add the rest to the base)")
        }
        Mnemonic::Prefetch => {
            Some(b"the hint of ~ is 0 to 31 and its offset -32768 to 32767, found ^")
        }
        _ => None,
    }
}

/// The name of a directive that is nearly this one.
pub(crate) fn near_directive(name: &[u8]) -> Option<&'static [u8]> {
    near_name(OTHER_NAMES, name)
}

/// The name of an instruction or a shorthand that is nearly this one, or of a directive.
pub(crate) fn near_instruction(name: &[u8]) -> Option<&'static [u8]> {
    let near = nearer(None, MNEMONIC_NAMES, name);
    match nearer(near, OTHER_NAMES, name) {
        Some(near) => Some(near.name),
        None => None,
    }
}

/// What to write in the place of an instruction that isn't there: a line for those of which the same is said.
pub(crate) const INSTRUCTIONS: &[u8] = b"\
li dli ldi movi: one-word forms only: use lui and ori, or addiu for -32768 to 32767
la dla lea: one-word forms only: use lui with %hi(name), then addiu with %lo(name)
blt bltu: use slt or sltu $at, rs, rt, then bnez $at, target
bge bgeu: use slt or sltu $at, rs, rt, then beqz $at, target
bgt bgtu: use slt or sltu $at, rt, rs, then bnez $at, target
ble bleu: use slt or sltu $at, rt, rs, then beqz $at, target
subi subiu: use addiu with the negative number
not: use nor rd, rs, $0
neg negu: use subu rd, $0, rs
abs: use bgez, then subu rd, $0, rs
rem remu: use div or divu, then mfhi
mulo mulou: use mul, or mult and mflo
seq: use xor, then sltiu rd, rd, 1
sne: use xor, then sltu rd, $0, rd
sgt sgtu sge sgeu sle sleu: use slt or sltu, with the operands turned or xori rd, rd, 1 after it
rol ror rotr rotrv: use sll, srl and or
ret rts: use jr $ra, and a slot
call bl blx jsr: use jal, and a slot
push pop: use addiu $sp, $sp, and sw or lw
mov mv: use move, or addiu for a number
bz beqzl bnz bnezl je jz jne jnz: use beq, bne, beqz or bnez, and a slot
jl jg jle jge jb ja cmp tst: no flags: use slt or sltu, then bnez or beqz
jmp jp goto bra bx br: use j, b or jr, and a slot
ldr ldrb ldrh: use lw, lbu or lhu with offset(base), as 0($t0)
str strb strh: use sw, sb or sh with offset(base), as 0($t0)
lsl lsr asr: use sll, srl or sra
orr eor mvn: use or, xor or nor
inc dec: use addiu with 1 or -1
lwi swi: use lw or sw with offset(base), as 0($t0)
svc int ecall: use syscall, with the call's number in $v0
halt hlt exit: end a task by ext_tsk (3 in $v0), the board by ext_ker (41), then syscall
ulw usw ulh ulhu ush: use lwl and lwr, or swl and swr
lwu ld sd daddu daddiu dsubu dsll dsrl: 32 bits only
ext ins seb seh wsbh di ei rdhwr ehb synci: MIPS32 Release 1 only: with gcc use -march=mips32
mfc0 mtc0 eret wait cache tlbwi tlbwr tlbp tlbr: no coprocessor 0: the kernel has the interrupts, by service calls
lwc1 swc1 mfc1 mtc1 ldc1 sdc1 bc1t bc1f add.s add.d sub.s mul.s div.s: no floating point
";

/// What to write in the place of a directive that isn't there, likewise.
pub(crate) const OTHER_DIRECTIVES: &[u8] = b"\
.text .data .rdata .bss .sdata: no sections: code and data stand in the order of their lines, leave it out
.sbss .section .previous .ktext .kdata: no sections: code and data stand in the order of their lines, leave it out
.global .extern: use .globl
.macro .endm .exitm: no macros: write the lines out, or use the C preprocessor
.if .ifdef .else .endif .rept .endr .include: use the C preprocessor
.ent .end .frame .mask .fmask .type .size .file: it says nothing here: leave it out
.loc .ident .weak .local .module .nan .gnu_attribute .insn: it says nothing here: leave it out
.long .int .4byte: use .word
.short .hword .2byte: use .half
.string: use .asciiz
.zero .skip: use .space
.balign .p2align: use .align with the power of 2
.eqv .define: use .equ name, value
.float .double .quad .dword .8byte: values have 4 bytes at most: use .word
.comm .lcomm: use a label and .space
";
