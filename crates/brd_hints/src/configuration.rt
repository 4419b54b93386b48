//! Diagnoses of kernel configurations.

use crate::finding::{BYTE_ORDER_MARK, Finding, MARKED, told};
use crate::hint::FaultHint;
use crate::keywords::{OTHERS, Told, WORDS, WORDS_OF_THE_PROFILE, told_of};
use crate::names::{advice, near_name};
use crate::scan::{behind, first};
use crate::values_of::value_fault;
use brd_config::{
    ConfigFault, KEYWORDS, Keyword, attribute_named, class_of, cyclic_attribute_named, keyword_of,
    mailbox_attribute_named, open, protocol_named,
};
use brd_text::{Token, is_digit, is_name, number};
use std::alloc::Global;

/// The diagnosis of a configuration's fault.
pub fn config_hint(alloc: Global, text: &[u8], fault: ConfigFault) -> FaultHint {
    let (line, found) = match fault {
        ConfigFault::NoMemory => return FaultHint::none(),
        ConfigFault::Syntax { line } => (line, form_fault(text, line)),
        ConfigFault::Duplicate { line }
        | ConfigFault::BadId { line }
        | ConfigFault::BadAttribute { line }
        | ConfigFault::BadPriority { line }
        | ConfigFault::BadCount { line }
        | ConfigFault::BadProcessor { line } => (line, value_fault(alloc, text, fault)),
    };
    told(b"the configuration", Some(line), None, found)
}

/// What is read of a configuration so far.
#[derive(Drop)]
struct Reading<'a> {
    /// Whether the text begins with the profile.
    standard: bool,
    /// The word of the statement that isn't at its end.
    word: &'a [u8],
    /// What is told of it.
    told: Told,
    /// What is still to come of it.
    wanted: &'a [u8],
    /// After an attribute that another may follow: of which kind.
    attribute: Option<u8>,
    /// After a `|`: of which kind the attribute is that follows.
    again: Option<u8>,
    has_board: bool,
    in_class: bool,
    /// The line of the last token.
    line: usize,
}

/// What keeps a configuration from having a form, where that is in this line.
fn form_fault(text: &[u8], wanted: usize) -> Option<Finding<'_>> {
    if text.starts_with(BYTE_ORDER_MARK) {
        return (wanted == 1).then_some(said(MARKED));
    }
    let (standard, mut scanner) = open(text);
    let mut reading = Reading {
        standard,
        word: &[],
        told: told_of(Keyword::Board),
        wanted: &[],
        attribute: None,
        again: None,
        has_board: false,
        in_class: false,
        line: 1,
    };
    for _ in 0..text.len().saturating_add(1) {
        let (token, line) = scanner.next();
        let found = match token {
            Token::Run(word) => reading.take_run(word),
            Token::Mark(mark) => reading.take_mark(mark),
            Token::Unclosed => Some(said(b"a comment isn't closed: */ is missing")),
            Token::End => return reading.at_end(),
        };
        if let Some(finding) = found {
            return if line == wanted { Some(finding) } else { None };
        }
        reading.line = line;
    }
    None
}

/// What is said without a word.
fn said(template: &[u8]) -> Finding<'_> {
    Finding::at(&[], template, &[])
}

impl<'a> Reading<'a> {
    /// What is wrong at the end of the text.
    fn at_end(&self) -> Option<Finding<'a>> {
        if !self.wanted.is_empty() {
            return Some(self.missing(first(self.wanted)));
        }
        if !self.has_board {
            return Some(said(b"BOARD(processors, ram); is missing, the first statement"));
        }
        if self.in_class {
            return Some(said(b"the text ends in a class: } is missing"));
        }
        None
    }

    /// What is wrong with a run that comes next.
    fn take_run(&mut self, word: &'a [u8]) -> Option<Finding<'a>> {
        if self.wanted.is_empty() {
            return self.begin(word);
        }
        let kind = self.again.unwrap_or(first(self.wanted));
        if !is_of_kind(kind, word) {
            return Some(self.misfit(kind, word));
        }
        self.attribute = matches!(kind, b'a' | b'm' | b't').then_some(kind);
        if self.again.is_none() {
            self.wanted = behind(self.wanted, 1);
        }
        self.again = None;
        None
    }

    /// What is wrong with a mark that comes next.
    fn take_mark(&mut self, mark: u8) -> Option<Finding<'a>> {
        if self.wanted.is_empty() {
            return self.mark_between(mark);
        }
        if mark == b'|' && self.attribute.is_some() {
            self.again = self.attribute;
            self.attribute = None;
            return None;
        }
        self.attribute = None;
        if self.again.is_none() && mark == first(self.wanted) {
            self.wanted = behind(self.wanted, 1);
            if self.wanted.is_empty() && self.word == b"CLASS".as_slice() {
                self.in_class = true;
            }
            return None;
        }
        if mark == b'-' {
            return Some(said(b"no negative numbers: write the 32 bits, as 0xffffffff"));
        }
        Some(self.missing(first(self.wanted)))
    }

    /// What is wrong with a mark between statements.
    fn mark_between(&mut self, mark: u8) -> Option<Finding<'a>> {
        match mark {
            b'}' if self.in_class => {
                self.in_class = false;
                None
            }
            b'}' => Some(said(b"this } ends no class")),
            b';' => Some(said(b"a ; too many: none stands behind a } or another ;")),
            b'#' => Some(said(
                b"no lines with #: send the text through the C preprocessor first (cc -E -P)",
            )),
            _ => Some(said(b"a statement begins with a word, as CRE_TSK(..);")),
        }
    }

    /// What is wrong with a word that begins a statement.
    fn begin(&mut self, word: &'a [u8]) -> Option<Finding<'a>> {
        let Some(keyword) = keyword_of(word) else {
            return Some(unknown_statement(self.standard, word));
        };
        let is_of_the_profile = matches!(
            keyword,
            Keyword::Mutex | Keyword::Pool | Keyword::Mailbox | Keyword::Cyclic | Keyword::Alarm
        );
        if !self.standard && is_of_the_profile {
            return Some(no_statement(self.standard, word));
        }
        if !self.has_board && !matches!(keyword, Keyword::Board) {
            let template = b"BOARD(processors, ram); comes first, before ~";
            return Some(Finding::at(&[], template, word));
        }
        if self.in_class && matches!(keyword, Keyword::Class) {
            return Some(said(b"a class in a class: } is missing before it"));
        }
        self.has_board = true;
        self.word = word;
        self.told = told_of(keyword);
        self.wanted = self.told.marks;
        None
    }

    /// What is said where this is missing.
    fn missing(&self, kind: u8) -> Finding<'a> {
        let template = match kind {
            b';' => b"a ; is missing behind ~(..) on line ?".as_slice(),
            b'(' => b"a ( is missing behind ~: the form is ^".as_slice(),
            b')' => b"a ) is missing, or an operand is too many: the form is ^".as_slice(),
            b'{' => b"a { is missing: the form is ^".as_slice(),
            b'}' => b"a } is missing, or an operand is too many: the form is ^".as_slice(),
            b',' => b"a comma or an operand is missing: the form is ^".as_slice(),
            b'a' | b'm' | b't' | b'p' => b"an attribute is missing: the form is ^".as_slice(),
            _ => b"an operand is missing: the form is ^".as_slice(),
        };
        Finding::at(&[], template, self.word)
            .with_other(self.told.form)
            .with_number(self.line as u64)
    }

    /// What is said of a run that isn't what is wanted.
    fn misfit(&self, kind: u8, word: &'a [u8]) -> Finding<'a> {
        let template = match kind {
            b'a' | b'm' | b't' | b'p' => b"unknown attribute ~: there are ^".as_slice(),
            b'c' => b"~ is no class: write TCL_ and the processor's number, as TCL_2".as_slice(),
            b'z' => b"~ stands where NULL or a number is wanted: the form is ^".as_slice(),
            b'u' => b"~ stands where NULL is wanted: the form is ^".as_slice(),
            b'n' | b'v' if is_digit(first(word)) => {
                b"~ is no number: decimal digits, or 0x and hexadecimal digits, below 2 to the 32nd".as_slice()
            }
            b'n' => b"~ stands where a number is wanted: the form is ^".as_slice(),
            b',' => b"a comma is missing before ~: the form is ^".as_slice(),
            _ => return self.missing(kind),
        };
        let other = if matches!(kind, b'a' | b'm' | b't' | b'p') {
            self.told.attributes
        } else {
            self.told.form
        };
        Finding::at(&[], template, word).with_other(other)
    }
}

/// Whether a run is an operand of a kind.
fn is_of_kind(kind: u8, word: &[u8]) -> bool {
    let is_number = number(word).is_some();
    let is_null = word == b"NULL".as_slice();
    match kind {
        b'n' => is_number,
        b'v' => is_number || is_name(word),
        b'z' => is_number || is_null,
        b'u' => is_null,
        b'a' => is_number || attribute_named(word).is_some(),
        b'm' => is_number || mailbox_attribute_named(word).is_some(),
        b't' => is_number || cyclic_attribute_named(word).is_some(),
        b'p' => is_number || protocol_named(word).is_some(),
        b'c' => class_of(word).is_some(),
        _ => false,
    }
}

/// What is said of a word that begins no statement.
fn unknown_statement(standard: bool, word: &[u8]) -> Finding<'_> {
    if word == b"PROFILE".as_slice() {
        let template = b"~ stands once, before BOARD, as PROFILE(STANDARD);";
        return Finding::at(&[], template, word);
    }
    for (known, _) in KEYWORDS {
        if known.eq_ignore_ascii_case(word) {
            return Finding::at(&[], b"~ is written in upper case", word);
        }
    }
    if advice(OTHERS, word).is_some() {
        return no_statement(standard, word);
    }
    if let Some(near) = near_name(KEYWORDS, word) {
        return Finding::at(&[], b"unknown statement ~ (the nearest is ^)", word).with_other(near);
    }
    no_statement(standard, word)
}

/// What is said of a word that begins no statement, with the profile or without.
fn no_statement(standard: bool, word: &[u8]) -> Finding<'_> {
    let words = if standard {
        WORDS_OF_THE_PROFILE
    } else {
        WORDS
    };
    Finding::at(&[], b"this kernel hasn't ~ (^)", word).with_other(advice(OTHERS, word).unwrap_or(
        words,
    ))
}
