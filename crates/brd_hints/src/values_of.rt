//! The values of a configuration's statements.

use crate::finding::Finding;
use crate::keywords::told_of;
use brd_base::is_ram_size;
use brd_config::{
    ConfigFault, Keyword, attribute_named, class_of, cyclic_attribute_named, keyword_of,
    mailbox_attribute_named, open, protocol_named, read_board, read_statement,
};
use brd_text::{Scanner, Token, number};
use std::alloc::Global;

/// The number of TA_CEILING.
const CEILING: u64 = 3;

/// A statement whose form is right.
#[derive(Clone, Copy)]
struct Valued<'a> {
    /// Its word; nothing where it is the end of a class.
    word: &'a [u8],
    /// Its line.
    line: usize,
    /// Its operands in their order: numbers, with the bits of attributes joined; 0 for a name.
    values: [u64; 8],
}

/// What a run stands for.
fn value_of(word: &[u8]) -> u64 {
    let named = attribute_named(word)
        .or(protocol_named(word))
        .or(mailbox_attribute_named(word))
        .or(cyclic_attribute_named(word));
    match named.or(class_of(word)).or(number(word)) {
        Some(value) => value as u64,
        None => 0,
    }
}

/// The next statement of a text of n bytes.
fn next_statement<'a>(scanner: &mut Scanner<'a>, most: usize) -> Option<Valued<'a>> {
    let mut read = Valued {
        word: &[],
        line: 0,
        values: [0; 8],
    };
    let mut slot = 0usize;
    for _ in 0..most {
        let (token, line) = scanner.next();
        match token {
            Token::Run(word) if read.word.is_empty() => {
                read.word = word;
                read.line = line;
            }
            Token::Run(word) => read.put(slot, word),
            Token::Mark(b',') => slot = slot.saturating_add(1),
            Token::Mark(b';') => return Some(read),
            Token::Mark(b'{') if is_class(read.word) => return Some(read),
            Token::Mark(b'}') if read.word.is_empty() => return Some(read),
            Token::Mark(_) => {}
            Token::End | Token::Unclosed => return None,
        }
    }
    None
}

/// Whether a word begins a class.
fn is_class(word: &[u8]) -> bool {
    matches!(keyword_of(word), Some(Keyword::Class))
}

impl<'a> Valued<'a> {
    /// Takes a run as the operand of this place, or as another attribute there.
    fn put(&mut self, slot: usize, word: &[u8]) {
        if slot < 8 {
            self.values[slot] |= value_of(word);
        }
    }

    /// The operand of this place.
    fn value(&self, slot: usize) -> u64 {
        if slot < 8 { self.values[slot] } else { 0 }
    }
}

/// How many statements from BOARD on come before the first that can't stand there, and the number of processors.
fn before_fault(alloc: Global, text: &[u8]) -> Option<(usize, u64)> {
    let (standard, mut tokens) = open(text);
    let mut draft = match read_board(alloc, standard, &mut tokens) {
        Ok(draft) => draft,
        Err(ConfigFault::NoMemory) => return None,
        Err(_) => return Some((0, 0)),
    };
    for before in 1..usize::MAX {
        match read_statement(alloc, &mut draft, &mut tokens) {
            Ok(true) => {}
            Ok(false) | Err(ConfigFault::NoMemory) => return None,
            Err(_) => return Some((before, draft.processors as u64)),
        }
    }
    None
}

/// What is wrong with the values of the first statement of a text that can't stand there.
pub(crate) fn value_fault(alloc: Global, text: &[u8], fault: ConfigFault) -> Option<Finding<'_>> {
    let (before, processors) = before_fault(alloc, text)?;
    let (_, mut scanner) = open(text);
    for _ in 0..before {
        next_statement(&mut scanner, text.len())?;
    }
    let read = next_statement(&mut scanner, text.len())?;
    let keyword = keyword_of(read.word)?;
    if matches!(fault, ConfigFault::Duplicate { .. }) {
        return duplicate(text, before, &read, keyword);
    }
    let (slot, template) = limit_of(fault, keyword, &read)?;
    let is_semaphore = matches!(keyword, Keyword::Semaphore);
    Some(
        Finding::at(&[], template, read.word)
            .with_number(read.value(slot))
            .with_second(if is_semaphore {
                read.value(3)
            } else {
                processors
            })
            .with_address(read.value(slot))
            .with_other(told_of(keyword).attributes),
    )
}

/// The operand of a statement that has this fault, and what is said of it.
fn limit_of(fault: ConfigFault, keyword: Keyword, read: &Valued) -> Option<(usize, &'static [u8])> {
    let (slot, template) = match (fault, keyword) {
        (ConfigFault::BadProcessor { .. }, Keyword::Board) => {
            (0, b"a board has 1 to 8 processors, found ?".as_slice())
        }
        (ConfigFault::BadProcessor { .. }, _) => (
            0,
            b"there is no processor ?: BOARD has &".as_slice(),
        ),
        (ConfigFault::BadId { .. }, Keyword::Handler) => {
            (0, b"the interrupt line of ~ is 0 to 31, found ?".as_slice())
        }
        (ConfigFault::BadId { .. }, Keyword::Cyclic | Keyword::Alarm) => {
            (0, b"the ID of ~ is 1 to 64, found ?".as_slice())
        }
        (ConfigFault::BadId { .. }, _) => (0, b"the ID of ~ is 1 to 255, found ?".as_slice()),
        (ConfigFault::BadAttribute { .. }, _) => {
            (
                1,
                b"~ has no attribute with the bits of ?: there are ^".as_slice(),
            )
        }
        (ConfigFault::BadPriority { .. }, _) => priority_limit(keyword, read),
        (ConfigFault::BadCount { .. }, _) => return count_limit(keyword, read),
        _ => return None,
    };
    Some((slot, template))
}

/// The operand of a statement that is no priority, and what is said of it.
fn priority_limit(keyword: Keyword, read: &Valued) -> (usize, &'static [u8]) {
    match keyword {
        Keyword::Mutex if read.value(1) == CEILING => (
            2,
            b"the ceiling of a mutex with TA_CEILING is 1 (highest) to 16, found ?".as_slice(),
        ),
        Keyword::Mutex => (2, b"the ceiling of a mutex is up to 16, found ?".as_slice()),
        Keyword::Mailbox => (2, b"a mailbox has 1 to 16 priorities, found ?".as_slice()),
        _ => (
            4,
            b"the priority of a task is 1 (highest) to 16, found ?".as_slice(),
        ),
    }
}

/// The operand of a statement that is no count or size, and what is said of it.
fn count_limit(keyword: Keyword, read: &Valued) -> Option<(usize, &'static [u8])> {
    let (slot, template) = match keyword {
        Keyword::Board => (1, ram_advice(read.value(1))),
        Keyword::Task => (
            5,
            b"the stack size of a task is in bytes and not 0".as_slice(),
        ),
        Keyword::Semaphore if is_maximum(read.value(3)) => (
            2,
            b"the initial count of a semaphore is at most its maximum &, found ?".as_slice(),
        ),
        Keyword::Semaphore => (
            3,
            b"the maximum of a semaphore is 1 to 65535, found ?".as_slice(),
        ),
        Keyword::Queue => (
            2,
            b"the capacity of a data queue is 0 to 256, found ?".as_slice(),
        ),
        Keyword::Pool if is_number_of_blocks(read.value(2)) => (
            3,
            b"the blocks of a fixed memory pool have 1 byte up to as many as RAM has, found ?".as_slice(),
        ),
        Keyword::Pool => (
            2,
            b"a fixed memory pool has 1 to 256 blocks, found ?".as_slice(),
        ),
        Keyword::Cyclic if is_period(read.value(4)) => (
            5,
            b"the cyclic phase of a cyclic handler is 0 to 0x7fffffff ticks, found ?".as_slice(),
        ),
        Keyword::Cyclic => (
            4,
            b"the cyclic time of a cyclic handler is 1 to 0x7fffffff ticks, found ?".as_slice(),
        ),
        _ => return None,
    };
    Some((slot, template))
}

/// What is said of a size that RAM can't have.
fn ram_advice(size: u64) -> &'static [u8] {
    if is_ram_size((size / 0x1_0000 * 0x1_0000 % 0x1_0000_0000) as u32) {
        b"the RAM of BOARD comes in steps of 0x10000, found @"
    } else {
        b"the RAM of BOARD is 0x10000 to 0x1000000 bytes, in steps of 0x10000, found @"
    }
}

/// Whether a semaphore can have a maximum.
fn is_maximum(maximum: u64) -> bool {
    maximum != 0 && maximum <= u16::MAX as u64
}

/// Whether a fixed memory pool can have so many blocks.
fn is_number_of_blocks(count: u64) -> bool {
    count != 0 && count <= 256
}

/// Whether so many ticks can pass from one time of a cyclic handler to the next.
fn is_period(ticks: u64) -> bool {
    ticks != 0 && ticks <= 0x7fff_ffff
}

/// What is defined for the second time, where n statements from BOARD on stand before it.
fn duplicate<'a>(
    text: &[u8],
    before: usize,
    again: &Valued<'a>,
    keyword: Keyword,
) -> Option<Finding<'a>> {
    let (_, mut scanner) = open(text);
    let is_board = matches!(keyword, Keyword::Board);
    for _ in 0..before {
        let read = next_statement(&mut scanner, text.len())?;
        if read.word == again.word && (is_board || read.value(0) == again.value(0)) {
            return Some(
                Finding::at(&[], told_of(keyword).again, again.word)
                    .with_number(again.value(0))
                    .with_second(read.line as u64),
            );
        }
    }
    None
}

/// The line of the statement of this word and with this ID; 0 where there is none.
pub(crate) fn line_of(text: &[u8], word: &[u8], id: u64) -> u64 {
    let mut scanner = Scanner::new(text);
    for _ in 0..text.len() {
        let Some(read) = next_statement(&mut scanner, text.len()) else {
            return 0;
        };
        if read.word == word && read.value(0) == id {
            return read.line as u64;
        }
    }
    0
}
