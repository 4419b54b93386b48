//! Why a command ends with a status that isn't 0.

ghost use Rattle.std.specs.Prelude.{◌≡◌};
ghost use Rattle.brd_inputs.specs.FileKinds as kinds;
ghost use Rattle.brd_inputs.specs.declared.file_kind.FileKind.TheVariants.{Script as script};
ghost use Rattle.brd_inputs.specs.declared.fault.CommandFault.TheVariants.{NoMemory as no_memory};

use crate::clue::{Clue, told_fault, told_of_line};
use crate::diagnosis::{build_hint, script_fault_hint};
use crate::excerpt::Excerpt;
use crate::file_kind::{FileKind, other_kind};
use crate::input_name::InputName;
use crate::schedule_fault::ScheduleFault;
use crate::trace_fault::TraceFault;
use crate::words_fault::WordsFault;
use brd_asm::AsmFault;
use brd_base::NoMemory;
use brd_config::ConfigFault;
use brd_elf::ElfFault;
use brd_hints::journal_hint;
use brd_image::BuildFault;
use brd_journal::JournalFault;
use brd_search::SearchFault;
use brd_threads::{RaceFault, ScriptFault};
use brd_word::Order;
use std::alloc::Global;
use std::io::{self, ErrorKind};
use thiserror::Error;

/// Why a command ends with a status that isn't 0.
#[derive(Debug, Drop, Error)]
pub enum CommandFault {
    /// A growth was refused.
    #[error("out of memory")]
    NoMemory,
    /// The command line has an argument that isn't UTF-8.
    #[error("an argument isn't UTF-8")]
    Argument,
    /// The words on standard input have a fault.
    #[error("standard input: {0}")]
    Words(WordsFault),
    /// The assembler source has a fault, in the line of this excerpt. It looks like a file of this kind.
    #[error("{text}", text = told_of_line(.0, .1, .2))]
    Source(AsmFault, Excerpt, Clue),
    /// No object file can hold the image of the assembler source.
    #[error("the source: its image has more segments or bytes than an object file can hold")]
    ImageTooLarge,
    /// A file of this name couldn't be opened, or created.
    #[error("can't open {0}: {1}")]
    Open(Excerpt, io::Error),
    /// An input couldn't be read.
    #[error("can't read {0}: {1}")]
    Read(InputName, io::Error),
    /// An input goes on past the limit.
    #[error("{0} is longer than 134,217,728 bytes")]
    TooLong(InputName),
    /// An input came in so small pieces that the limit of reads was reached.
    #[error("{0} didn't end within 268,435,456 reads")]
    TooManyReads(InputName),
    /// There is no board of the object file and the configuration. The faulty one looks like a file of this kind.
    #[error("{text}", text = told_fault("", .0, .1))]
    Build(BuildFault, Clue),
    /// The journal's text has a fault. It looks like a file of this kind.
    #[error("{text}", text = told_fault("the journal: ", .0, .1))]
    Journal(JournalFault, Clue),
    /// The journal is for boards of the other byte order than that of the object file, which is this.
    #[error("the journal: {orders}", orders = orders(*.0))]
    OtherOrder(Order),
    /// The script's text has a fault. It looks like a file of this kind.
    #[error("{text}", text = told_fault("the script: ", .0, .1))]
    Script(ScriptFault, Clue),
    /// A race has no result.
    #[error("the race: {0}")]
    Race(RaceFault),
    /// There is no trace.
    #[error("the trace: {0}")]
    Trace(TraceFault),
    /// No journal is made of the options of `journal`.
    #[error("{0}")]
    Schedule(ScheduleFault),
    /// Something is wrong with the options of a search.
    #[error("the search: {0}")]
    Search(SearchFault),
    /// A search has found a schedule that fails.
    #[error("a schedule fails")]
    Fails,
    /// Nothing of what is looked for fails after the journal's events.
    #[error("the journal: nothing of what is looked for fails")]
    Passes,
    /// Output couldn't be written.
    #[error("can't write the output: {0}")]
    Write(io::Error),
}

impl CommandFault {
    ghost use Rattle.brd_inputs.specs.Faults.{status_of, IsOfRead, IsOfOpen, IsOfArguments, of_build, of_journal};
    ghost use Rattle.brd_inputs.specs.Faults.{of_race, of_script, of_search};

    /// The fault of a read of an input that failed: lack of memory, or the error itself.
    pub fn of_read(input: InputName, error: io::Error) -> Self
        ensures { IsOfRead input error result }
    {
        if error.kind() == ErrorKind::OutOfMemory {
            return CommandFault::NoMemory;
        }
        CommandFault::Read(input, error)
    }

    /// The fault of a file of that name that couldn't be opened or created: lack of memory, or the error itself.
    pub fn of_open(alloc: Global, name: &str, error: io::Error) -> Self
        ensures { IsOfOpen name.now error result }
    {
        if error.kind() == ErrorKind::OutOfMemory {
            return CommandFault::NoMemory;
        }
        match Excerpt::of_name(alloc, name) {
            Ok(shown) => CommandFault::Open(shown, error),
            Err(NoMemory) => CommandFault::NoMemory,
        }
    }

    /// The fault of a command line that couldn't be taken: lack of memory, or an argument that isn't UTF-8.
    pub fn of_arguments(error: io::Error) -> Self
        ensures { IsOfArguments error result }
    {
        match error.kind() {
            ErrorKind::OutOfMemory => CommandFault::NoMemory,
            _ => CommandFault::Argument,
        }
    }

    /// The fault of an object file and a configuration that make no board: lack of memory, or the fault itself, and the
    /// other kind of which the faulty one looks.
    pub fn of_build(alloc: Global, fault: BuildFault, image: &[u8], config: &[u8]) -> Self
        ensures { result ≡ of_build image.now config.now fault }
    {
        match fault {
            BuildFault::NoMemory => CommandFault::NoMemory,
            _ => CommandFault::Build(fault, build_clue(alloc, fault, image, config)),
        }
    }

    /// The fault of a text that is no journal: lack of memory, or the fault itself, and the other kind of which the
    /// text looks.
    pub fn of_journal(alloc: Global, fault: JournalFault, text: &[u8]) -> Self
        ensures { result ≡ of_journal text.now fault }
    {
        match fault {
            JournalFault::NoMemory => CommandFault::NoMemory,
            _ => CommandFault::Journal(fault, journal_clue(alloc, fault, text)),
        }
    }

    /// The fault of a text that is no script: lack of memory, or the fault itself, and the other kind of which the text
    /// looks.
    pub fn of_script(fault: ScriptFault, text: &[u8]) -> Self
        ensures { result ≡ of_script text.now fault }
    {
        match fault {
            ScriptFault::NoMemory => CommandFault::NoMemory,
            ScriptFault::Syntax { .. } => { CommandFault::Script(fault, script_clue(fault, text)) }
        }
    }

    /// The fault of a race: lack of memory, or the fault itself.
    pub fn of_race(fault: RaceFault) -> Self
        ensures { result ≡ of_race fault }
    {
        match fault {
            RaceFault::NoMemory => CommandFault::NoMemory,
            RaceFault::JournalFull | RaceFault::Broken => CommandFault::Race(fault),
        }
    }

    /// The fault of the options of a search: lack of memory, or the fault itself.
    pub fn of_search(fault: SearchFault) -> Self
        ensures { result ≡ of_search fault }
    {
        match fault {
            SearchFault::NoMemory => CommandFault::NoMemory,
            _ => CommandFault::Search(fault),
        }
    }

    /// The messages of the other faults of a source, which come behind this one's.
    pub fn others(&self) -> &[String] {
        match self {
            CommandFault::Source(_, _, clue) => clue.others(),
            _ => &[],
        }
    }

    /// The status that the program ends with: 1 for a fault of the input or of a race, and for a journal after which
    /// nothing fails; 2 for a fault of the command line, 3 for want of memory, 4 where reading or writing failed; 5 for
    /// a search that finds what fails.
    pub fn status(&self) -> u8
        ensures { result ≡ status_of self.now }
    {
        match self {
            CommandFault::Words(_)
            | CommandFault::Source(_, _, _)
            | CommandFault::ImageTooLarge
            | CommandFault::Build(_, _)
            | CommandFault::Journal(_, _)
            | CommandFault::OtherOrder(_)
            | CommandFault::Script(_, _)
            | CommandFault::Race(_)
            | CommandFault::Passes => 1,
            CommandFault::Argument
            | CommandFault::Trace(_)
            | CommandFault::Schedule(_)
            | CommandFault::Search(_) => 2,
            CommandFault::NoMemory => 3,
            CommandFault::Open(_, _)
            | CommandFault::Read(_, _)
            | CommandFault::TooLong(_)
            | CommandFault::TooManyReads(_)
            | CommandFault::Write(_) => 4,
            CommandFault::Fails => 5,
        }
    }
}

impl From<NoMemory> for CommandFault {
    ghost from_gives = { λ _ fault. fault ≡ no_memory };

    fn from(_e: NoMemory) -> Self {
        CommandFault::NoMemory
    }
}

/// What is said of a journal where the object file has this byte order, and the journal the other one.
fn orders(image: Order) -> &'static str {
    match image {
        Order::Big => "it is for little-endian boards, and the object file is big-endian",
        Order::Little => {
            "it is for big-endian boards, as all with the first line `board-journal 1` are, and the object file is \
             little-endian"
        }
    }
}

/// The other kind of which an object file looks that is none, or a configuration that hasn't the form of one.
fn build_looks_like(fault: BuildFault, image: &[u8], config: &[u8]) -> Option<FileKind>
    ensures { result ≡ kinds.build_looks_like image.now config.now fault }
{
    match fault {
        BuildFault::Elf(ElfFault::NotElf) => other_kind(FileKind::ObjectFile, image),
        BuildFault::Config(ConfigFault::Syntax { .. }) => {
            other_kind(FileKind::Configuration, config)
        }
        _ => None,
    }
}

/// The other kind of which a text looks that hasn't the form of a journal.
fn journal_looks_like(fault: JournalFault, text: &[u8]) -> Option<FileKind>
    ensures { result ≡ kinds.journal_looks_like text.now fault }
{
    match fault {
        JournalFault::Syntax { .. } => other_kind(FileKind::Journal, text),
        _ => None,
    }
}

/// What is said beside the fault of an object file and a configuration: the other kind of which the faulty one looks,
/// and the diagnosis.
fn build_clue(alloc: Global, fault: BuildFault, image: &[u8], config: &[u8]) -> Clue
    ensures { result ≡ kinds.build_looks_like image.now config.now fault }
{
    let kind = build_looks_like(fault, image, config);
    Clue::new(kind, build_hint(alloc, fault, image, config))
}

/// What is said beside the fault of a journal, likewise.
fn journal_clue(alloc: Global, fault: JournalFault, text: &[u8]) -> Clue
    ensures { result ≡ kinds.journal_looks_like text.now fault }
{
    let kind = journal_looks_like(fault, text);
    Clue::new(kind, journal_hint(alloc, text, fault))
}

/// What is said beside the fault of a script, likewise.
fn script_clue(fault: ScriptFault, text: &[u8]) -> Clue
    ensures { result ≡ kinds.other_kind script text.now }
{
    let kind = other_kind(FileKind::Script, text);
    Clue::new(kind, script_fault_hint(fault, text))
}
