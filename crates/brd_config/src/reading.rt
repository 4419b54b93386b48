//! Numbers, marks, attributes and operands at the front of a text.

ghost use Rattle.std.specs.Prelude.{◌≡◌, ◌<◌, length, map, OnOk};
ghost use Rattle.brd_text.specs.Faults.{or_fault};
ghost use Rattle.brd_text.specs.Turns.{flow_of};
ghost use Rattle.brd_config.specs.Faults.{Gives};
ghost use Rattle.brd_config.specs.Reading as reads;

use crate::fault::ConfigFault;
use crate::objects::{Operand, Stack};
use crate::statement::AttributeNames;
use brd_base::List;
use brd_text::{Scanner, Token};
use std::alloc::Global;

/// The bits of each attribute's name.
const ATTRIBUTES: &[(&[u8], u32)] = &[
    (b"TA_NULL", 0),
    (b"TA_HLNG", 0),
    (b"TA_ASM", 1),
    (b"TA_ACT", 2),
    (b"TA_TFIFO", 0),
    (b"TA_TPRI", 1),
    (b"TA_WSGL", 0),
    (b"TA_WMUL", 2),
    (b"TA_CLR", 4),
];

/// What a table has for a name.
pub(crate) fn find<T: Copy>(rows: &[(&[u8], T)], name: &[u8]) -> Option<T>
    ensures { result ≡ reads.named_in (map (λ row. (row.0.now, row.1)) rows.now) name.now }
{
    for (known, value) in rows {
        if name == *known {
            return Some(*value);
        }
    }
    None
}

/// The bits of an attribute's name.
#[tactic(auto, unfolding(crate::specs::Reading::attribute_named))]
pub fn attribute_named(run: &[u8]) -> Option<u32>
    ensures { result ≡ reads.attribute_named run.now }
{
    find(ATTRIBUTES, run)
}

/// The bits of each attribute's name that a mailbox has.
const MAILBOX_ATTRIBUTES: &[(&[u8], u32)] = &[
    (b"TA_NULL", 0),
    (b"TA_TFIFO", 0),
    (b"TA_TPRI", 1),
    (b"TA_MFIFO", 0),
    (b"TA_MPRI", 2),
];

/// The bits of the name of a mailbox's attribute.
#[tactic(auto, unfolding(crate::specs::Reading::mailbox_attribute_named))]
pub fn mailbox_attribute_named(run: &[u8]) -> Option<u32>
    ensures { result ≡ reads.mailbox_attribute_named run.now }
{
    find(MAILBOX_ATTRIBUTES, run)
}

/// The bits of each attribute's name that a cyclic handler has.
const CYCLIC_ATTRIBUTES: &[(&[u8], u32)] = &[
    (b"TA_NULL", 0),
    (b"TA_HLNG", 0),
    (b"TA_ASM", 1),
    (b"TA_STA", 2),
    (b"TA_PHS", 4),
];

/// The bits of the name of a cyclic handler's attribute.
#[tactic(auto, unfolding(crate::specs::Reading::cyclic_attribute_named))]
pub fn cyclic_attribute_named(run: &[u8]) -> Option<u32>
    ensures { result ≡ reads.cyclic_attribute_named run.now }
{
    find(CYCLIC_ATTRIBUTES, run)
}

/// The bits of an attribute's name, of these names.
fn named_among(names: AttributeNames, run: &[u8]) -> Option<u32>
    ensures { result ≡ reads.named_among names run.now }
{
    match names {
        AttributeNames::Common => attribute_named(run),
        AttributeNames::Mailbox => mailbox_attribute_named(run),
        AttributeNames::Cyclic => cyclic_attribute_named(run),
    }
}

/// The bits of an attribute: one of these names, or a number.
#[tactic(auto, unfolding(crate::specs::Reading::attribute_of))]
fn attribute_of(names: AttributeNames, run: &[u8]) -> Option<u32>
    ensures { result ≡ reads.attribute_of names run.now }
{
    match named_among(names, run) {
        Some(bits) => Some(bits),
        None => brd_text::number(run),
    }
}

/// The attributes of mutexes.
const PROTOCOLS: &[(&[u8], u32)] = &[
    (b"TA_NULL", 0),
    (b"TA_TFIFO", 0),
    (b"TA_TPRI", 1),
    (b"TA_INHERIT", 2),
    (b"TA_CEILING", 3),
];

/// The number of the attribute of a mutex that a run is the name of.
#[tactic(auto, unfolding(crate::specs::Reading::protocol_named))]
pub fn protocol_named(run: &[u8]) -> Option<u32>
    ensures { result ≡ reads.protocol_named run.now }
{
    find(PROTOCOLS, run)
}

/// The number of the attribute of a mutex: a name or a number.
#[tactic(auto, unfolding(crate::specs::Reading::protocol_of))]
fn protocol_of(run: &[u8]) -> Option<u32>
    ensures { result ≡ reads.protocol_of run.now }
{
    match protocol_named(run) {
        Some(number) => Some(number),
        None => brd_text::number(run),
    }
}

/// The number of a class's name.
#[tactic(auto, unfolding(crate::specs::Reading::class_of))]
pub fn class_of(run: &[u8]) -> Option<u32>
    ensures { result ≡ reads.class_of run.now }
{
    if run.len() < 4 {
        return None;
    }
    let (prefix, digits) = run.split_at(4);
    if prefix != b"TCL_".as_slice() {
        return None;
    }
    match brd_text::decimal(digits, u32::MAX as u64) {
        None => None,
        Some(number) => Some(number as u32),
    }
}

#[tactic(auto, unfolding(crate::specs::Reading::is_null))]
fn is_null(run: &[u8]) -> bool
    ensures { result ≡ reads.is_null run.now }
{
    run == b"NULL".as_slice()
}

/// What a run stands for as an operand, with the line of the fault where it is none.
#[tactic(auto, unfolding(crate::specs::Reading::operand_of))]
fn operand_of(alloc: Global, run: &[u8], line: usize) -> Result<Operand, ConfigFault>
    ensures { Gives (λ o. o) result (or_fault (ConfigFault.Syntax line) (reads.operand_of run.now)) }
{
    if let Some(number) = brd_text::number(run) {
        return Ok(Operand::Number(number));
    }
    if !brd_text::is_name(run) {
        return Err(ConfigFault::Syntax { line });
    }
    Ok(Operand::Name(List::from_slice(alloc, run)?))
}

/// Takes a number.
#[tactic(auto, unfolding(crate::specs::Reading::number_at))]
pub(crate) fn number(tokens: &mut Scanner) -> Result<u32, ConfigFault>
    ensures read { Gives (λ n. (n, tokens.new)) result (reads.number_at tokens.old) }
    ensures shorter { OnOk result (length tokens.new.tokens < length tokens.old.tokens) }
{
    let (token, line) = tokens.next();
    let Token::Run(run) = token else {
        return Err(ConfigFault::Syntax { line });
    };
    match brd_text::number(run) {
        Some(number) => Ok(number),
        None => Err(ConfigFault::Syntax { line }),
    }
}

/// Takes this mark.
#[tactic(auto, unfolding(crate::specs::Reading::mark_at))]
pub(crate) fn mark(tokens: &mut Scanner, mark: u8) -> Result<(), ConfigFault>
    ensures read { Gives (λ _. tokens.new) result (reads.mark_at mark tokens.old) }
    ensures shorter { OnOk result (length tokens.new.tokens < length tokens.old.tokens) }
{
    let (token, line) = tokens.next();
    match token {
        Token::Mark(found) if found == mark => Ok(()),
        _ => Err(ConfigFault::Syntax { line }),
    }
}

/// Takes an attribute.
#[tactic(auto, unfolding(crate::specs::Reading::attribute_at))]
fn attribute(tokens: &mut Scanner, names: AttributeNames) -> Result<u32, ConfigFault>
    ensures read { Gives (λ bits. (bits, tokens.new)) result (reads.attribute_at names tokens.old) }
    ensures shorter { OnOk result (length tokens.new.tokens < length tokens.old.tokens) }
{
    let (token, line) = tokens.next();
    let Token::Run(run) = token else {
        return Err(ConfigFault::Syntax { line });
    };
    match attribute_of(names, run) {
        Some(bits) => Ok(bits),
        None => Err(ConfigFault::Syntax { line }),
    }
}

/// Takes a bar, after which another attribute stands, or the mark that ends attributes; says whether it is a bar.
#[tactic(auto, unfolding(crate::specs::Reading::joint_at))]
fn joint(tokens: &mut Scanner, end: u8) -> Result<bool, ConfigFault>
    ensures read { Gives (λ more. (more, tokens.new)) result (reads.joint_at end tokens.old) }
    ensures shorter { OnOk result (length tokens.new.tokens < length tokens.old.tokens) }
{
    let (token, line) = tokens.next();
    match token {
        Token::Mark(b'|') => Ok(true),
        Token::Mark(found) if found == end => Ok(false),
        _ => Err(ConfigFault::Syntax { line }),
    }
}

/// Takes one more attribute, and joins its bits to these; says whether another one follows.
#[tactic(auto, unfolding(crate::specs::Reading::attribute_step))]
fn joined(
    tokens: &mut Scanner,
    names: AttributeNames,
    end: u8,
    bits: u32,
) -> Result<(u32, bool), ConfigFault>
    ensures read { Gives (λ x. flow_of x.1 (x.0, tokens.new) (x.0, tokens.new)) result
        (reads.attribute_step names end (bits, tokens.old)) }
    ensures shorter { OnOk result (length tokens.new.tokens < length tokens.old.tokens) }
{
    let attribute = attribute(tokens, names)?;
    let more = joint(tokens, end)?;
    Ok((bits | attribute, more))
}

/// Takes attributes and the mark that ends them.
#[tactic(auto, unfolding(crate::specs::Reading::attributes_at))]
pub(crate) fn attributes(
    tokens: &mut Scanner,
    names: AttributeNames,
    end: u8,
) -> Result<u32, ConfigFault>
    ensures read { Gives (λ bits. (bits, tokens.new)) result (reads.attributes_at names end tokens.old) }
    ensures shorter { OnOk result (length tokens.new.tokens < length tokens.old.tokens) }
{
    let mut bits = 0;
    'attributes: loop {
        match joined(tokens, names, end, bits) {
            Ok((all, more)) => {
                bits = all;
                if more {
                    continue;
                }
                return Ok(bits);
            }
            Err(fault) => return Err(fault),
        }
    }
}

/// Takes a number or a name.
#[tactic(auto, unfolding(crate::specs::Reading::operand_at))]
pub(crate) fn operand(alloc: Global, tokens: &mut Scanner) -> Result<Operand, ConfigFault>
    ensures read { Gives (λ o. (o, tokens.new)) result (reads.operand_at tokens.old) }
    ensures shorter { OnOk result (length tokens.new.tokens < length tokens.old.tokens) }
{
    let (token, line) = tokens.next();
    let Token::Run(run) = token else {
        return Err(ConfigFault::Syntax { line });
    };
    operand_of(alloc, run, line)
}

/// Takes `NULL`, a number or a name.
#[tactic(auto, unfolding(crate::specs::Reading::stack_at, crate::specs::Reading::stack_of))]
pub(crate) fn stack(alloc: Global, tokens: &mut Scanner) -> Result<Stack, ConfigFault>
    ensures read { Gives (λ o. (o, tokens.new)) result (reads.stack_at tokens.old) }
    ensures shorter { OnOk result (length tokens.new.tokens < length tokens.old.tokens) }
{
    let (token, line) = tokens.next();
    let Token::Run(run) = token else {
        return Err(ConfigFault::Syntax { line });
    };
    if is_null(run) {
        return Ok(Stack::Automatic);
    }
    Ok(Stack::At(operand_of(alloc, run, line)?))
}

/// Takes `NULL` or a number.
#[tactic(auto, unfolding(crate::specs::Reading::area_at, crate::specs::Reading::is_area))]
pub(crate) fn area(tokens: &mut Scanner) -> Result<(), ConfigFault>
    ensures read { Gives (λ _. tokens.new) result (reads.area_at tokens.old) }
    ensures shorter { OnOk result (length tokens.new.tokens < length tokens.old.tokens) }
{
    let (token, line) = tokens.next();
    let Token::Run(run) = token else {
        return Err(ConfigFault::Syntax { line });
    };
    if is_null(run) || brd_text::number(run).is_some() {
        return Ok(());
    }
    Err(ConfigFault::Syntax { line })
}

/// Takes `NULL`.
#[tactic(auto, unfolding(crate::specs::Reading::null_at))]
pub(crate) fn null(tokens: &mut Scanner) -> Result<(), ConfigFault>
    ensures read { Gives (λ _. tokens.new) result (reads.null_at tokens.old) }
    ensures shorter { OnOk result (length tokens.new.tokens < length tokens.old.tokens) }
{
    let (token, line) = tokens.next();
    let Token::Run(run) = token else {
        return Err(ConfigFault::Syntax { line });
    };
    if is_null(run) {
        return Ok(());
    }
    Err(ConfigFault::Syntax { line })
}

/// Takes the name of a class.
#[tactic(auto, unfolding(crate::specs::Reading::class_number_at))]
pub(crate) fn class_number(tokens: &mut Scanner) -> Result<u32, ConfigFault>
    ensures read { Gives (λ n. (n, tokens.new)) result (reads.class_number_at tokens.old) }
    ensures shorter { OnOk result (length tokens.new.tokens < length tokens.old.tokens) }
{
    let (token, line) = tokens.next();
    let Token::Run(run) = token else {
        return Err(ConfigFault::Syntax { line });
    };
    match class_of(run) {
        Some(number) => Ok(number),
        None => Err(ConfigFault::Syntax { line }),
    }
}

/// Takes the attribute of a mutex.
#[tactic(auto, unfolding(crate::specs::Reading::protocol_at))]
pub(crate) fn protocol(tokens: &mut Scanner) -> Result<u32, ConfigFault>
    ensures read { Gives (λ n. (n, tokens.new)) result (reads.protocol_at tokens.old) }
    ensures shorter { OnOk result (length tokens.new.tokens < length tokens.old.tokens) }
{
    let (token, line) = tokens.next();
    let Token::Run(run) = token else {
        return Err(ConfigFault::Syntax { line });
    };
    match protocol_of(run) {
        Some(number) => Ok(number),
        None => Err(ConfigFault::Syntax { line }),
    }
}

/// Takes a number and the comma after it.
#[tactic(auto, unfolding(crate::specs::Reading::listed_number_at))]
pub(crate) fn listed_number(tokens: &mut Scanner) -> Result<u32, ConfigFault>
    ensures read { Gives (λ n. (n, tokens.new)) result (reads.listed_number_at tokens.old) }
    ensures shorter { OnOk result (length tokens.new.tokens < length tokens.old.tokens) }
{
    let number = number(tokens)?;
    mark(tokens, b',')?;
    Ok(number)
}

/// Takes an operand and the comma after it.
#[tactic(auto, unfolding(crate::specs::Reading::listed_operand_at))]
pub(crate) fn listed_operand(alloc: Global, tokens: &mut Scanner) -> Result<Operand, ConfigFault>
    ensures read { Gives (λ o. (o, tokens.new)) result (reads.listed_operand_at tokens.old) }
    ensures shorter { OnOk result (length tokens.new.tokens < length tokens.old.tokens) }
{
    let operand = operand(alloc, tokens)?;
    mark(tokens, b',')?;
    Ok(operand)
}

/// Takes `( id , { attributes`, of these names, and the mark that ends them: the ID and the attributes.
#[tactic(auto, unfolding(crate::specs::Reading::head_at))]
pub(crate) fn head(
    tokens: &mut Scanner,
    names: AttributeNames,
    end: u8,
) -> Result<(u32, u32), ConfigFault>
    ensures read { Gives (λ x. (x.0, x.1, tokens.new)) result (reads.head_at names end tokens.old) }
    ensures shorter { OnOk result (length tokens.new.tokens < length tokens.old.tokens) }
{
    mark(tokens, b'(')?;
    let id = listed_number(tokens)?;
    mark(tokens, b'{')?;
    let attributes = attributes(tokens, names, end)?;
    Ok((id, attributes))
}

/// Takes `} ) ;`.
#[tactic(auto, unfolding(crate::specs::Reading::tail_at))]
pub(crate) fn tail(tokens: &mut Scanner) -> Result<(), ConfigFault>
    ensures read { Gives (λ _. tokens.new) result (reads.tail_at tokens.old) }
    ensures shorter { OnOk result (length tokens.new.tokens < length tokens.old.tokens) }
{
    mark(tokens, b'}')?;
    mark(tokens, b')')?;
    mark(tokens, b';')
}
