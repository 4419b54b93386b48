//! What is wrong with a source that is assembled all the same.

use crate::finding::{Finding, told};
use crate::hint::FaultHint;
use crate::registers::{RA, V0, V1, constant_of, reads, writes};
use crate::scan::{first, run, skip_blanks};
use crate::statements::{Parts, behind_label, parts_of};
use brd_base::NoMemory;
use brd_isa::{JumpOp, Mnemonic, is_regimm_branch_calling};
use brd_source::{Directive, Operation, Shorthand};
use brd_text::split_line;
use std::alloc::Global;

/// How many warnings a source has at most.
const MOST: usize = 20;

/// The service calls that don't come back: `ext_tsk`, `ext_ker` and `ret_int`.
const ENDS: [u32; 3] = [3, 41, 58];

/// Of a branch in a slot.
const IN_SLOT: &[u8] =
    b"~ stands in the slot of the branch on line ?, which is an exception where it is executed";

/// Of a slot that reads $ra.
const RETURN_IN_SLOT: &[u8] =
    b"~ reads $ra in the slot of the ^ on line ?, which has put its own return address there: write nop before it";

/// Of a slot that reads $v0 or $v1.
const ANSWER_IN_SLOT: &[u8] =
    b"~ reads the answer in the slot of the ^ on line ?, before what that calls is done: write nop before it";

/// Of a slot with a label.
const LABEL_AT_SLOT: &[u8] =
    b"the label ~ stands at the slot of the ^ on line ?, which does what is there before it goes: write nop before it";

/// What a line does, as far as it matters to what is executed after it.
#[derive(Clone, Copy, PartialEq, Eq)]
enum Sort {
    /// It puts nothing anywhere, but for zeros up to an aligned place.
    Nothing,
    /// It is a branch or a jump.
    Branch,
    /// It is a branch or a jump that keeps the return address in $ra.
    Calling,
    /// It is an instruction after which something else may go on: a service call or a trap.
    Call,
    /// It is an instruction after which the next one is executed.
    Plain,
    /// It is a string.
    Text,
    /// It puts other data there.
    Data,
    /// It goes to another place.
    Other,
}

/// A line that puts something somewhere.
#[derive(Clone, Copy)]
struct Placed<'a> {
    /// Its number.
    number: usize,
    /// What it does.
    sort: Sort,
    /// Its word.
    word: &'a [u8],
    /// The last label before it and after the line before.
    label: &'a [u8],
    /// Whether it stands in the slot of a branch.
    is_in_slot: bool,
}

/// What is known of the lines of a source so far.
#[derive(Clone, Copy)]
struct Walk<'a> {
    /// The source.
    text: &'a [u8],
    /// The last one that puts something somewhere.
    last: Placed<'a>,
    /// The last label behind it.
    label: &'a [u8],
    /// The constant in $v0, where that is known.
    number: Option<u32>,
    /// Whether $v0 has got a word that nothing has read yet.
    is_given: bool,
    /// Whether one has the label of a program's start.
    is_program: bool,
    /// Whether each stands behind the one before it.
    is_in_order: bool,
}

/// What is wrong with a source that is assembled all the same: branches in the slots of branches, slots that have a
/// label or read what their call answers, and instructions behind which data are executed, or in a source with a label
/// `_start` or `main` nothing at all.
pub fn source_warnings(alloc: Global, text: &[u8]) -> Result<Vec<FaultHint>, NoMemory> {
    let mut warnings = Vec::new(alloc);
    let mut walk = Walk::begun(text);
    let mut rest = text;
    for number in 1..usize::MAX {
        let (line, after) = split_line(rest);
        warn(&mut warnings, walk.see(number, line))?;
        let Some(more) = after else {
            break;
        };
        rest = more;
    }
    if walk.is_program && walk.is_in_order {
        warn(&mut warnings, behind_all(walk.last))?;
    }
    Ok(warnings)
}

impl<'a> Walk<'a> {
    /// Before the first line.
    fn begun(text: &'a [u8]) -> Walk<'a> {
        Walk {
            text,
            last: Placed {
                number: 0,
                sort: Sort::Other,
                word: &[],
                label: &[],
                is_in_slot: false,
            },
            label: &[],
            number: None,
            is_given: false,
            is_program: false,
            is_in_order: true,
        }
    }

    /// Goes on to the line of this number. Answers what is wrong where it comes behind the last one.
    fn see(&mut self, number: usize, line: &'a [u8]) -> FaultHint {
        let parts = parts_of(line);
        self.is_program = self.is_program || is_start(line);
        self.is_in_order = self.is_in_order && !is_org(parts.operation);
        self.see_label(line);
        let sort = self.sort_of(parts.operation);
        let last = self.last;
        if sort == Sort::Nothing || is_skipped(last, parts.operation) {
            return FaultHint::none();
        }
        self.last = Placed {
            number,
            sort,
            word: parts.word,
            label: self.label,
            is_in_slot: is_branch(last.sort),
        };
        let warning = between(last, self.last, &parts, self.is_given);
        self.label = &[];
        self.follow(last, &parts);
        warning
    }

    /// Sees the label of a line, if it has one: what comes to it may have another word in $v0.
    fn see_label(&mut self, line: &'a [u8]) {
        let text = skip_blanks(line);
        if behind_label(text).is_none() {
            return;
        }
        let (label, _) = run(text);
        self.label = label;
        self.number = None;
        self.is_given = false;
    }

    /// What a line of an operation does: a service call that comes back is as another instruction.
    fn sort_of(&self, operation: Option<Operation>) -> Sort {
        let is_call = matches!(operation, Some(Operation::Mnemonic(Mnemonic::Syscall)));
        match self.number {
            Some(number) if is_call && !ENDS.contains(&number) => Sort::Plain,
            _ => sort_of(operation),
        }
    }

    /// Follows what a line does to $v0, which stands behind this one.
    fn follow(&mut self, last: Placed, parts: &Parts) {
        let is_call = matches!(
            parts.operation,
            Some(Operation::Mnemonic(Mnemonic::Syscall))
        );
        if is_call || last.sort == Sort::Calling {
            self.number = None;
            self.is_given = true;
        } else if writes(parts, V0) {
            self.number = constant_of(self.text, parts);
            self.is_given = true;
        } else if reads(parts, V0) {
            self.is_given = false;
        }
    }
}

/// Puts a warning at the end, where there is one and room for it.
fn warn(warnings: &mut Vec<FaultHint>, warning: FaultHint) -> Result<(), NoMemory> {
    if !warning.is_none() && warnings.len() < MOST {
        warnings.push(warning)?;
    }
    Ok(())
}

/// What is wrong where a line comes behind another one, and whether $v0 has got a word then that nothing has read.
fn between(last: Placed, next: Placed, parts: &Parts, is_given: bool) -> FaultHint {
    if is_branch(last.sort) {
        return in_slot(last, next, parts, is_given);
    }
    let is_data = next.sort == Sort::Text || next.sort == Sort::Data && !next.label.is_empty();
    if !is_data || !goes_on(last) {
        return FaultHint::none();
    }
    let template = match (next.sort, next.label.is_empty()) {
        (Sort::Text, true) => b"what comes here goes on into the string on line ?".as_slice(),
        _ =>
            b"what comes here goes on into the data at ~ on line ?: end by ext_tsk or ext_ker before them",
    };
    let found = Finding::at(&[], template, next.label).with_number(next.number as u64);
    told(b"the source", Some(last.number), None, Some(found))
}

/// What is wrong with a line in the slot of another one.
fn in_slot(branch: Placed, slot: Placed, parts: &Parts, is_given: bool) -> FaultHint {
    let Some((template, word)) = said_of_slot(branch, slot, parts, is_given) else {
        return FaultHint::none();
    };
    let found = Finding::at(&[], template, word)
        .with_other(branch.word)
        .with_number(branch.number as u64);
    told(b"the source", Some(slot.number), None, Some(found))
}

/// What is said of a line in the slot of another one, and of which word.
fn said_of_slot<'a>(
    branch: Placed<'a>,
    slot: Placed<'a>,
    parts: &Parts,
    is_given: bool,
) -> Option<(&'static [u8], &'a [u8])> {
    if is_branch(slot.sort) {
        return Some((IN_SLOT, slot.word));
    }
    if branch.sort == Sort::Calling && reads(parts, RA) {
        return Some((RETURN_IN_SLOT, slot.word));
    }
    if branch.sort == Sort::Calling && takes_answer(parts, is_given) {
        return Some((ANSWER_IN_SLOT, slot.word));
    }
    if slot.label.is_empty() {
        return None;
    }
    Some((LABEL_AT_SLOT, slot.label))
}

/// Whether a line in the slot of a call seems to take its answer: it reads $v0 or $v1, and $v0 got no word before that
/// nothing has read.
fn takes_answer(parts: &Parts, is_given: bool) -> bool {
    !is_given && (reads(parts, V0) || reads(parts, V1))
}

/// What is wrong where nothing comes behind the last line.
fn behind_all(last: Placed) -> FaultHint {
    if !goes_on(last) {
        return FaultHint::none();
    }
    let template =
        b"what comes here runs off the end of the program: end a task by ext_tsk, the board by ext_ker";
    let found = Finding::at(&[], template, &[]);
    told(b"the source", Some(last.number), None, Some(found))
}

/// Whether what is executed at a line goes on behind it, whatever it does.
fn goes_on(line: Placed) -> bool {
    line.sort == Sort::Plain && !line.is_in_slot
}

/// Whether a line is a branch or a jump.
fn is_branch(sort: Sort) -> bool {
    sort == Sort::Branch || sort == Sort::Calling
}

/// Whether a line may never be executed: a `nop` behind a service call, as `ext_tsk`, or behind the slot of a branch.
fn is_skipped(last: Placed, operation: Option<Operation>) -> bool {
    let is_nop = matches!(operation, Some(Operation::Shorthand(Shorthand::Nop)));
    is_nop && (last.sort == Sort::Call || last.is_in_slot && last.sort == Sort::Plain)
}

/// Whether a line begins with the label of a program's start.
fn is_start(line: &[u8]) -> bool {
    let (label, after) = run(skip_blanks(line));
    let is_named = label == b"_start".as_slice() || label == b"main".as_slice();
    is_named && first(skip_blanks(after)) == b':'
}

/// Whether an operation goes to another place.
fn is_org(operation: Option<Operation>) -> bool {
    matches!(operation, Some(Operation::Directive(Directive::Org)))
}

/// What a line of an operation does.
fn sort_of(operation: Option<Operation>) -> Sort {
    match operation {
        None => Sort::Nothing,
        Some(Operation::Mnemonic(mnemonic)) => sort_of_mnemonic(mnemonic),
        Some(Operation::Shorthand(Shorthand::Nop | Shorthand::Move)) => Sort::Plain,
        Some(Operation::Shorthand(Shorthand::BranchAndLink)) => Sort::Calling,
        Some(Operation::Shorthand(_)) => Sort::Branch,
        Some(Operation::Directive(directive)) => match directive {
            Directive::Ascii | Directive::Asciiz => Sort::Text,
            Directive::Values(_) | Directive::Space => Sort::Data,
            Directive::Org => Sort::Other,
            _ => Sort::Nothing,
        },
    }
}

/// What a line of an instruction does.
fn sort_of_mnemonic(mnemonic: Mnemonic) -> Sort {
    match mnemonic {
        Mnemonic::JumpLinkRegister | Mnemonic::Jump(JumpOp::Jal) => Sort::Calling,
        Mnemonic::BranchRegimm(op) if is_regimm_branch_calling(op) => Sort::Calling,
        Mnemonic::JumpRegister
        | Mnemonic::Jump(_)
        | Mnemonic::Branch(_)
        | Mnemonic::BranchZero(_)
        | Mnemonic::BranchRegimm(_) => Sort::Branch,
        Mnemonic::Syscall | Mnemonic::Break | Mnemonic::Trap(_) | Mnemonic::TrapImmediate(_) => {
            Sort::Call
        }
        _ => Sort::Plain,
    }
}
