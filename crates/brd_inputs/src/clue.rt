//! What is said beside a fault of an input.

ghost use Rattle.std.specs.Prelude.{◌≡◌};

use crate::excerpt::Excerpt;
use crate::file_kind::{FileKind, looks};
use brd_hints::FaultHint;
use std::fmt::{self, Display};
use std::marker::Model;

/// What is said beside a fault: the other kind of file of which the input looks, or else the diagnosis of the place of
/// the fault; and the input's other faults, where they are told too. Contracts see the kind alone.
#[derive(Debug, Drop)]
pub struct Clue {
    kind: Option<FileKind>,
    hint: FaultHint,
    others: Option<Vec<String>>,
}

impl Model for Clue {
    ghost use Rattle.std.specs.Prelude.{Option};
    ghost use Rattle.brd_inputs.specs.declared.file_kind.FileKind.{FileKind};

    ghost Value = { Option FileKind };

    ghost view = { λ clue. clue.kind };
}

impl Clue {
    /// The kind, and the diagnosis.
    pub fn new(kind: Option<FileKind>, hint: FaultHint) -> Self
        ensures { result ≡ kind }
    {
        Clue {
            kind,
            hint,
            others: None,
        }
    }

    /// The same, and the messages of the input's other faults.
    pub fn with_others(self, others: Vec<String>) -> Self
        ensures { result ≡ self }
    {
        Clue {
            kind: self.kind,
            hint: self.hint,
            others: Some(others),
        }
    }

    /// The messages of the input's other faults.
    pub(crate) fn others(&self) -> &[String] {
        match &self.others {
            Some(others) => others.as_slice(),
            None => &[],
        }
    }

    /// Whether the diagnosis is all that is told.
    fn is_diagnosed(&self) -> bool {
        self.kind.is_none() && !self.hint.is_none()
    }

    /// What is said of the kind of file, after the fault.
    fn likeness(&self) -> &'static str {
        looks(self.kind)
    }

    /// Writes the diagnosis.
    fn write_hint<W: fmt::Write>(&self, f: &mut fmt::Formatter<W>) -> fmt::Result {
        self.hint.fmt(f)
    }
}

/// A fault as a message says it: by the diagnosis where there is one, else by itself, with the front of the faulty line
/// where that is known, and with the kind of which the input looks.
#[derive(Drop)]
pub(crate) struct Told<'a, F> {
    input: &'a str,
    fault: &'a F,
    excerpt: Option<&'a Excerpt>,
    clue: &'a Clue,
}

/// The fault of the input that is called so.
pub(crate) fn told_fault<'a, F>(input: &'a str, fault: &'a F, clue: &'a Clue) -> Told<'a, F> {
    Told {
        input,
        fault,
        excerpt: None,
        clue,
    }
}

/// The fault of a source, in the line of this excerpt.
pub(crate) fn told_of_line<'a, F>(
    fault: &'a F,
    excerpt: &'a Excerpt,
    clue: &'a Clue,
) -> Told<'a, F> {
    Told {
        input: "the source: ",
        fault,
        excerpt: Some(excerpt),
        clue,
    }
}

impl<'a, F: Display> Display for Told<'a, F> {
    fn fmt<W: fmt::Write>(&self, f: &mut fmt::Formatter<W>) -> fmt::Result {
        if self.clue.is_diagnosed() {
            return self.clue.write_hint(f);
        }
        f.write_str(self.input)?;
        self.fault.fmt(f)?;
        if let Some(excerpt) = self.excerpt {
            f.write_str(": ")?;
            excerpt.fmt(f)?;
        }
        f.write_str(self.clue.likeness())
    }
}
