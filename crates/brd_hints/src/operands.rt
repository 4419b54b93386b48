//! What is wrong with the operands of a statement.

use crate::finding::Finding;
use crate::instead::line_for;
use crate::scan::{
    before_comma, behind, behind_commas, count, first, place_of, run, skip_blanks, token, trim_end,
};
use crate::statements::Parts;
use brd_isa::{Mnemonic, ProductOp, RegisterOp};
use brd_source::{Kind, Operation, Shorthand, register_behind, register_of};
use brd_text::{is_digit, is_letter, is_name, is_run_byte, number};

/// Whether an operand of a kind has to be written.
fn is_needed(kind: Kind) -> bool {
    !matches!(kind, Kind::Nothing | Kind::Link | Kind::Code)
}

/// The kind of the operand at a place.
fn kind_at(kinds: (Kind, Kind, Kind), place: usize) -> Kind {
    match place {
        0 => kinds.0,
        1 => kinds.1,
        _ => kinds.2,
    }
}

/// What is wrong with the operands of a statement that takes those of these kinds, which are told so.
pub(crate) fn operand_fault<'a>(
    parts: &Parts<'a>,
    kinds: (Kind, Kind, Kind),
    told: &'static [u8],
) -> Option<Finding<'a>> {
    let operands = parts.operands;
    let most = pieces_of(told);
    let have = pieces_of(operands);
    if let Some(found) = comma_fault(operands) {
        return Some(found);
    }
    let least = is_needed(kinds.0) as usize
        + is_needed(kinds.1) as usize
        + is_needed(kinds.2) as usize;
    if have < least || have > most {
        return Some(counted(parts, told, have));
    }
    for place in 0..have {
        let name = before_comma(behind_commas(told, place)?);
        let rest = behind_commas(operands, place)?;
        if let Some(found) = number_fault(parts, kind_at(kinds, place), name, rest) {
            return Some(found);
        }
        if let Some(found) = kind_fault(kind_at(kinds, place), name, rest) {
            return Some(match kind_at(kinds, place) {
                Kind::Address if place_of(rest, b'(').is_none() => {
                    with_line(found, b"found ~ without a base: write |", parts)
                }
                _ => found,
            });
        }
    }
    None
}

/// How many pieces a text has with commas between them.
fn pieces_of(text: &[u8]) -> usize {
    if text.is_empty() {
        0
    } else {
        count(text, b',').saturating_add(1)
    }
}

/// Too few operands, or too many.
fn counted<'a>(parts: &Parts<'a>, told: &'static [u8], have: usize) -> Finding<'a> {
    let template = match (told.is_empty(), have) {
        (_, 3) if is_quotient(parts.operation) => {
            b"~ takes ^, found 3 operands (mflo has the quotient, mfhi the rest)".as_slice()
        }
        (true, _) => b"~ takes no operands, found ?".as_slice(),
        (_, 0) => b"~ takes ^, found no operand".as_slice(),
        (_, 1) => b"~ takes ^, found 1 operand".as_slice(),
        _ => b"~ takes ^, found ? operands".as_slice(),
    };
    let found = Finding::at(parts.operands, template, parts.word)
        .with_other(told)
        .with_number(have as u64);
    with_line(found, b"~ takes ^, found ? operands: write |", parts)
}

/// What was found, told so where there is a line to write.
fn with_line<'a>(found: Finding<'a>, template: &'static [u8], parts: &Parts<'a>) -> Finding<'a> {
    match line_for(parts.word, parts.operands) {
        Some(line) => Finding { template, ..found }.with_line(line, parts.word, parts.operands),
        None => found,
    }
}

/// Whether an operation makes a quotient.
fn is_quotient(operation: Option<Operation>) -> bool {
    matches!(
        operation,
        Some(Operation::Mnemonic(Mnemonic::Product(ProductOp::Div | ProductOp::Divu)))
    )
}

/// A comma that is missing, or one too many.
pub(crate) fn comma_fault(operands: &[u8]) -> Option<Finding<'_>> {
    let pieces = count(operands, b',').saturating_add(1);
    let mut rest = skip_blanks(operands);
    for place in 0..pieces {
        let piece = before_comma(rest);
        if piece.is_empty() && pieces > 1 {
            let template = if place.saturating_add(1) == pieces {
                b"an operand is missing after the last comma".as_slice()
            } else {
                b"an operand is missing before this comma".as_slice()
            };
            return Some(Finding::at(rest, template, &[]));
        }
        if let Some(found) = joined(rest, piece) {
            return Some(found);
        }
        rest = behind_commas(rest, 1).unwrap_or(&[]);
    }
    None
}

/// Two runs in a piece with nothing but blanks between them.
fn joined<'a>(rest: &'a [u8], piece: &'a [u8]) -> Option<Finding<'a>> {
    let (word, after) = run(piece);
    let next = skip_blanks(after);
    if word.is_empty() || next.is_empty() || !is_run_byte(first(next)) {
        return None;
    }
    let skipped = piece.len().saturating_sub(next.len());
    Some(Finding::at(
        behind(rest, skipped),
        b"a comma is missing before ~",
        token(next),
    ))
}

/// What is said of a number that stands where a register is wanted, by what takes a number in its place.
fn number_fault<'a>(
    parts: &Parts<'a>,
    kind: Kind,
    name: &'a [u8],
    rest: &'a [u8],
) -> Option<Finding<'a>> {
    let operand = before_comma(rest);
    if !matches!(kind, Kind::Register) || !is_digit(first(without_minus(operand))) {
        return None;
    }
    let template = number_advice(parts.operation?)?;
    let found = Finding::at(rest, template, operand).with_other(name);
    Some(with_line(
        found,
        b"found ~ where the register ^ is wanted: write |",
        parts,
    ))
}

/// What to write for a number that stands where an operation wants a register.
fn number_advice(operation: Operation) -> Option<&'static [u8]> {
    let mnemonic = match operation {
        Operation::Shorthand(Shorthand::Move) => {
            return Some(
                b"found ~ where the register ^ is wanted: for a number write addiu rt, $0, number",
            );
        }
        Operation::Mnemonic(mnemonic) => mnemonic,
        _ => return None,
    };
    let advice = match mnemonic {
        Mnemonic::ThreeRegisters(RegisterOp::Add | RegisterOp::Addu) => {
            b"found ~ where the register ^ is wanted: for a number write addiu".as_slice()
        }
        Mnemonic::ThreeRegisters(RegisterOp::Sub | RegisterOp::Subu) => {
            b"found ~ where the register ^ is wanted: for a number write addiu and the negative number"
        }
        Mnemonic::ThreeRegisters(RegisterOp::And) => {
            b"found ~ where the register ^ is wanted: for a number write andi"
        }
        Mnemonic::ThreeRegisters(RegisterOp::Or) => {
            b"found ~ where the register ^ is wanted: for a number write ori"
        }
        Mnemonic::ThreeRegisters(RegisterOp::Xor) => {
            b"found ~ where the register ^ is wanted: for a number write xori"
        }
        Mnemonic::ThreeRegisters(RegisterOp::Slt) => {
            b"found ~ where the register ^ is wanted: for a number write slti"
        }
        Mnemonic::ThreeRegisters(RegisterOp::Sltu) => {
            b"found ~ where the register ^ is wanted: for a number write sltiu"
        }
        Mnemonic::Branch(_) | Mnemonic::Multiply => {
            b"found ~ where the register ^ is wanted: put the number into a register by addiu before it"
        }
        Mnemonic::ShiftVariable(_) => {
            b"found ~ where the register ^ is wanted: for a number write sll, srl or sra"
        }
        _ => return None,
    };
    Some(advice)
}

/// What is wrong with an operand of this kind and name, which stands at the front.
fn kind_fault<'a>(kind: Kind, name: &'a [u8], rest: &'a [u8]) -> Option<Finding<'a>> {
    let operand = before_comma(rest);
    let template = match kind {
        Kind::Register | Kind::Link => register_fault(operand),
        Kind::Address => base_fault(operand),
        _ => value_fault(operand),
    }?;
    let shown = if first(operand) == b'%' || first(operand) == b'-' {
        operand
    } else {
        token(operand)
    };
    Some(Finding::at(rest, template, shown).with_other(name))
}

/// What is wrong with an operand that should be a register.
fn register_fault(operand: &[u8]) -> Option<&'static [u8]> {
    let (name, after) = run(operand);
    if register_of(name).is_some() {
        return if after.is_empty() {
            None
        } else {
            Some(b"behind the register ~ a comma or the line's end is wanted")
        };
    }
    if first(name) == b'$' {
        return Some(
            b"~ is no register: there are $0 to $31, and $zero $at $v0 $v1 $a0-$a3 $t0-$t9 $s0-$s8 $k0 $k1 $gp $sp $fp \
              $ra",
        );
    }
    if is_letter(first(name)) && register_behind(name).is_some() {
        return Some(b"a register is written with $: $~");
    }
    if first(name) == b'r' || is_digit(first(name)) {
        return Some(
            b"found ~ where the register ^ is wanted (registers are $0 to $31, or by name, as $t0)",
        );
    }
    Some(b"found ~ where the register ^ is wanted, as $t0")
}

/// What is said of `hi` and `lo` without a `%`.
const PERCENT: &[u8] = b"the halves of an address are %hi(name) and %lo(name), with a % in front";

/// What is said of a number behind the parentheses of `%hi` or `%lo`.
const INSIDE: &[u8] = b"~ adds behind the parentheses: write the sum inside, as %lo(name+4)";

/// Whether `hi` or `lo` stands at the front, and then a parenthesis.
fn lacks_percent(operand: &[u8]) -> bool {
    let (name, after) = run(operand);
    (name == b"hi".as_slice() || name == b"lo".as_slice()) && first(skip_blanks(after)) == b'('
}

/// Whether a sum stands behind the first closing parenthesis.
fn adds_behind(operand: &[u8]) -> bool {
    match place_of(operand, b')') {
        Some(close) => {
            let next = first(skip_blanks(behind(operand, close.saturating_add(1))));
            next == b'+' || next == b'-'
        }
        None => false,
    }
}

/// What is wrong with an operand that should be an offset and a base.
fn base_fault(operand: &[u8]) -> Option<&'static [u8]> {
    if lacks_percent(operand) {
        return Some(PERCENT);
    }
    if first(operand) == b'%' && adds_behind(operand) {
        return Some(INSIDE);
    }
    let Some(open) = place_of(operand, b'(') else {
        return Some(b"found ~ without a base: write offset(base), as 0($t0)");
    };
    let inside = skip_blanks(behind(operand, open.saturating_add(1)));
    let inside = if first(operand) == b'%' {
        let behind_value = place_of(inside, b'(');
        skip_blanks(behind(inside, behind_value?.saturating_add(1)))
    } else {
        inside
    };
    let (name, after) = run(inside);
    if first(skip_blanks(after)) != b')' {
        return Some(b"a ) is missing behind the base: write offset(base), as 0($t0)");
    }
    if register_of(name).is_none() {
        return Some(b"the base in ( ) isn't a register: write offset(base), as 0($t0)");
    }
    if first(operand) == b'(' {
        return None;
    }
    value_fault(operand)
}

/// What is wrong with an operand that should be a value.
fn value_fault(operand: &[u8]) -> Option<&'static [u8]> {
    let value = skip_blanks(without_minus(operand));
    let (name, after) = run(value);
    let next = first(skip_blanks(after));
    if first(operand) == b'%' && adds_behind(operand) {
        return Some(INSIDE);
    }
    if lacks_percent(operand) {
        return Some(PERCENT);
    }
    if next == b':' {
        return Some(b"no repeated values: write each out, or .space and a count for zeros");
    }
    if first(operand) == b'%' {
        let known = operand.starts_with(b"%hi".as_slice())
            || operand.starts_with(b"%lo".as_slice());
        return if known {
            Some(b"~ can't stand here: %hi and %lo are for immediates and offsets, as %lo(name)")
        } else {
            Some(b"~ isn't there: of such words only %hi and %lo")
        };
    }
    if first(name) == b'$' {
        return Some(b"the register ~ stands where ^ is wanted, a number or a name");
    }
    if is_numeric_label(name) {
        return Some(b"no numeric labels: for ~ give the label a name");
    }
    if is_digit(first(name)) && number(name).is_none() {
        return Some(
            b"~ is no number: decimal digits, or 0x and hexadecimal digits, below 2 to the 32nd",
        );
    }
    if is_digit(first(name)) && (next == b'+' || next == b'-') {
        return Some(b"the name comes first: name + number, or name - number");
    }
    sum_fault(name, next, skip_blanks(after))
}

/// What is wrong with a sum, of which the name or number at the front is right.
fn sum_fault(name: &[u8], next: u8, after: &[u8]) -> Option<&'static [u8]> {
    if next == b'(' && name.is_empty() {
        return Some(
            b"no parentheses in expressions: a number, a name, name + number or name - number",
        );
    }
    if next != b'+' && next != b'-' {
        return None;
    }
    let second = skip_blanks(without_minus(skip_blanks(behind(after, 1))));
    let (term, more) = run(second);
    let end = trim_end(more);
    if is_name(term) {
        return Some(b"only a number can be added to ~, no second name");
    }
    if !end.is_empty() && first(skip_blanks(end)) != b'(' {
        return Some(b"only one number can be added to ~: name + number, or name - number");
    }
    None
}

/// The text after a `-` at its front.
fn without_minus(text: &[u8]) -> &[u8] {
    if first(text) == b'-' {
        behind(text, 1)
    } else {
        text
    }
}

/// What is wrong with a list of values.
pub(crate) fn values_fault(operands: &[u8]) -> Option<Finding<'_>> {
    if let Some(found) = comma_fault(operands) {
        return Some(found);
    }
    for place in 0..count(operands, b',').saturating_add(1) {
        let rest = behind_commas(operands, place)?;
        if let Some(found) = kind_fault(Kind::Number, b"value", rest) {
            return Some(found);
        }
    }
    None
}

/// Whether a run is digits, and then `f` or `b`, as a reference to a numeric label is.
fn is_numeric_label(word: &[u8]) -> bool {
    match word {
        [digit, b'f' | b'b'] => is_digit(*digit),
        [digit, other, b'f' | b'b'] => is_digit(*digit) && is_digit(*other),
        _ => false,
    }
}
