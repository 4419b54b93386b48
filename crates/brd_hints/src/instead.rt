//! The very line to write in the place of one that isn't there, as MARS, SPIM, GNU as and other machines have it.

use crate::hint::{FaultHint, MOST_OF_NAME};
use crate::names::has_name;
use crate::scan::{
    before_comma, behind, behind_commas, count, cut, first, place_of, skip_blanks, token, trim_end,
};
use brd_source::register_of;
use brd_text::{hex_digits, is_name, number, split_line};

/// What to write, by the first row that fits: the names of instructions; behind a slash their operands, a letter for
/// each; behind a colon the line, or several.
///
/// Of the operands `r` is a register, `s` a number of 16 bits with sign, `p` the same but the greatest, `u` one of 16
/// bits without sign, `h` one of 32 bits whose low half is 0, `w` one of 32 bits, `n` a name or a sum, `m` an address
/// with a base, `b` one whose offset is a name or a sum, `t` anything. In a line `A`, `B` and `C` stand for the
/// operands, `D` and `E` for the offset and the base of the second one, `H` and `L` for its halves, `P` for the number
/// after it, `N` for the last operand negated, and `O` for the instruction's name.
const LINES: &[u8] = b"\
li dli la dla lea move mov movi ldi /rs: addiu A, $0, B
li dli la dla lea move mov movi ldi /ru: ori A, $0, B
li dli la dla lea move mov movi ldi /rh: lui A, H
li dli la dla lea move mov movi ldi /rw: lui A, H, then ori A, A, L
li dli la dla lea ldi /rn: lui A, %hi(B), then addiu A, A, %lo(B)
mov mv movl /rr: move A, B
lw lb lbu lh lhu ll /rn: lui A, %hi(B), then O A, %lo(B)(A)
sw sb sh sc /rn: lui $at, %hi(B), then O A, %lo(B)($at)
lw lb lbu lh lhu ll sw sb sh sc /rb: lui $at, %hi(D), then addu $at, $at, E, then O A, %lo(D)($at)
ldr lwi /rm: lw A, B
ldr lwi /rn: lui A, %hi(B), then lw A, %lo(B)(A)
str swi /rm: sw A, B
str swi /rn: lui $at, %hi(B), then sw A, %lo(B)($at)
ldrb /rm: lbu A, B
strb /rm: sb A, B
ldrh /rm: lhu A, B
strh /rm: sh A, B
blt /rrt: slt $at, A, B, then bnez $at, C
blt /rst: slti $at, A, B, then bnez $at, C
bltu /rrt: sltu $at, A, B, then bnez $at, C
bltu /rst: sltiu $at, A, B, then bnez $at, C
bge /rrt: slt $at, A, B, then beqz $at, C
bge /rst: slti $at, A, B, then beqz $at, C
bgeu /rrt: sltu $at, A, B, then beqz $at, C
bgeu /rst: sltiu $at, A, B, then beqz $at, C
bgt /rrt: slt $at, B, A, then bnez $at, C
bgt /rpt: slti $at, A, P, then beqz $at, C
bgtu /rrt: sltu $at, B, A, then bnez $at, C
ble /rrt: slt $at, B, A, then beqz $at, C
ble /rpt: slti $at, A, P, then bnez $at, C
bleu /rrt: sltu $at, B, A, then beqz $at, C
beq bne /rst: addiu $at, $0, B, then O A, $at, C
add /rrs: addi A, B, C
addu /rrs: addiu A, B, C
sub subu subi subiu /rrs: addiu A, B, N
sub subu subi subiu /rs: addiu A, A, N
add addu /rs: addiu A, A, B
addi addiu slti sltiu /rs: O A, A, B
andi ori xori /ru: O A, A, B
add addu sub subu and or xor /rr: O A, A, B
sll srl sra /rs: O A, A, B
and /rru: andi A, B, C
or orr /rru: ori A, B, C
xor eor /rru: xori A, B, C
slt /rrs: slti A, B, C
sltu /rrs: sltiu A, B, C
mul mulo mulou /rrs: addiu $at, $0, C, then mul A, B, $at
sllv lsl /rrs: sll A, B, C
srlv lsr /rrs: srl A, B, C
srav asr /rrs: sra A, B, C
lsl /rrr: sllv A, B, C
lsr /rrr: srlv A, B, C
asr /rrr: srav A, B, C
orr /rrr: or A, B, C
eor /rrr: xor A, B, C
not mvn /rr: nor A, B, $0
neg negu /rr: subu A, $0, B
abs /rr: sra $at, B, 31, then xor A, B, $at, then subu A, A, $at
div /rrr: div B, C, then mflo A
divu /rrr: divu B, C, then mflo A
rem /rrr: div B, C, then mfhi A
remu /rrr: divu B, C, then mfhi A
mulo mulou /rrr: mul A, B, C
seq /rrr: xor A, B, C, then sltiu A, A, 1
sne /rrr: xor A, B, C, then sltu A, $0, A
sgt /rrr: slt A, C, B
sgtu /rrr: sltu A, C, B
sge /rrr: slt A, B, C, then xori A, A, 1
sgeu /rrr: sltu A, B, C, then xori A, A, 1
sle /rrr: slt A, C, B, then xori A, A, 1
sleu /rrr: sltu A, C, B, then xori A, A, 1
inc /r: addiu A, A, 1
dec /r: addiu A, A, -1
clr clear /r: move A, $0
push /r: addiu $sp, $sp, -4, then sw A, 0($sp)
pop /r: lw A, 0($sp), then addiu $sp, $sp, 4
ret rts /: jr $ra, then nop
jmp jp /r: jr A, then nop
jmp jp goto bra /t: j A, then nop
call bl /t: jal A, then nop
svc swi int ecall /: syscall
svc swi int /t: syscall
";

/// The line to write in the place of an instruction of this name and with these operands.
pub(crate) fn line_for(name: &[u8], operands: &[u8]) -> Option<&'static [u8]> {
    let mut rest = LINES;
    for _ in 0..LINES.len() {
        let (row, after) = split_line(rest);
        let (front, line) = cut(row, place_of(row, b':')?);
        let (names, kinds) = cut(front, place_of(front, b'/')?);
        if has_name(names, name) && fits(behind(kinds, 1), operands) {
            return Some(skip_blanks(behind(line, 1)));
        }
        rest = after?;
    }
    None
}

/// Whether some operands are of these kinds.
fn fits(kinds: &[u8], operands: &[u8]) -> bool {
    if kinds.is_empty() || operands.is_empty() {
        return kinds.is_empty() && operands.is_empty();
    }
    if count(operands, b',').saturating_add(1) != kinds.len() {
        return false;
    }
    for (place, kind) in kinds.iter().enumerate() {
        if !is_of(*kind, operand_at(operands, place)) {
            return false;
        }
    }
    true
}

/// The operand at a place; nothing where there is none.
fn operand_at(operands: &[u8], place: usize) -> &[u8] {
    match behind_commas(operands, place) {
        Some(rest) => before_comma(rest),
        None => &[],
    }
}

/// Whether an operand is of a kind.
fn is_of(kind: u8, operand: &[u8]) -> bool {
    let value = value_of(operand);
    match kind {
        b'r' => register_of(operand).is_some(),
        b's' => is_within(value, -32_768, 32_767),
        b'p' => is_within(value, -32_768, 32_766),
        b'u' => is_within(value, 0, 65_535),
        b'h' => value.is_some_and(|it| it % 65_536 == 0),
        b'w' => value.is_some(),
        b'n' => is_name(token(operand)) && place_of(operand, b'(').is_none(),
        b'm' => place_of(operand, b'(').is_some(),
        b'b' => is_name(token(operand)) && place_of(operand, b'(').is_some(),
        _ => !operand.is_empty(),
    }
}

/// Whether there is a number, from the one to the other.
fn is_within(value: Option<i64>, least: i64, most: i64) -> bool {
    value.is_some_and(|it| least <= it && it <= most)
}

/// The number that an operand is.
fn value_of(operand: &[u8]) -> Option<i64> {
    if first(operand) == b'-' {
        let word = number(skip_blanks(behind(operand, 1)))?;
        return Some(0i64.saturating_sub(word as i64));
    }
    Some(number(operand)? as i64)
}

/// Puts a line of the table at the end, for an instruction of this name and with these operands.
pub(crate) fn put_line(hint: &mut FaultHint, line: &[u8], name: &[u8], operands: &[u8]) {
    for byte in line {
        match *byte {
            b'A' => hint.put_front(operand_at(operands, 0), MOST_OF_NAME),
            b'B' => hint.put_front(operand_at(operands, 1), MOST_OF_NAME),
            b'C' => hint.put_front(operand_at(operands, 2), MOST_OF_NAME),
            b'D' => hint.put_front(address_of(operand_at(operands, 1)).0, MOST_OF_NAME),
            b'E' => hint.put_front(address_of(operand_at(operands, 1)).1, MOST_OF_NAME),
            b'O' => hint.put_front(name, MOST_OF_NAME),
            b'H' => put_half(hint, operand_at(operands, 1), true),
            b'L' => put_half(hint, operand_at(operands, 1), false),
            b'P' => put_next(hint, operand_at(operands, 1)),
            b'N' => put_negated(hint, operand_at(operands, count(operands, b','))),
            other => hint.put(other),
        }
    }
}

/// The offset and the base of an address.
fn address_of(operand: &[u8]) -> (&[u8], &[u8]) {
    let (offset, rest) = cut(operand, place_of(operand, b'(').unwrap_or(0));
    let inside = skip_blanks(behind(rest, 1));
    let (base, _) = cut(inside, place_of(inside, b')').unwrap_or(0));
    (trim_end(offset), trim_end(base))
}

/// Puts a half of a number at the end, the high one or the low one.
fn put_half(hint: &mut FaultHint, operand: &[u8], is_high: bool) {
    let digits = hex_digits(word_of(operand));
    let (high, low) = cut(digits.as_slice(), 4);
    hint.put_all(b"0x");
    hint.put_all(if is_high { high } else { low });
}

/// The word that stands for a number.
fn word_of(operand: &[u8]) -> u32 {
    if first(operand) == b'-' {
        return 0u32.wrapping_sub(number(skip_blanks(behind(operand, 1))).unwrap_or(0));
    }
    number(operand).unwrap_or(0)
}

/// Puts the number after one at the end.
fn put_next(hint: &mut FaultHint, operand: &[u8]) {
    let next = value_of(operand).unwrap_or(0).saturating_add(1);
    if next < 0 {
        hint.put(b'-');
    }
    hint.put_number(next.unsigned_abs());
}

/// Puts a number at the end with the other sign.
fn put_negated(hint: &mut FaultHint, operand: &[u8]) {
    if first(operand) == b'-' {
        hint.put_front(skip_blanks(behind(operand, 1)), MOST_OF_NAME);
    } else {
        hint.put(b'-');
        hint.put_front(operand, MOST_OF_NAME);
    }
}
