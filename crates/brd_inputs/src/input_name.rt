//! What the inputs are called.

use std::fmt;

/// An input of a command, as a fault calls it.
#[derive(Clone, Copy, Debug, PartialEq, Eq)]
pub enum InputName {
    /// The words of `words`, the commands of `debug`.
    StandardInput,
    /// SOURCE: assembler source.
    Source,
    /// IMAGE: an object file.
    Image,
    /// CONFIG: a kernel configuration.
    Configuration,
    /// JOURNAL: a journal's text.
    Journal,
    /// SCRIPT: the text of a script.
    Script,
}

impl fmt::Display for InputName {
    fn fmt<W: fmt::Write>(&self, f: &mut fmt::Formatter<W>) -> fmt::Result {
        f.write_str(match self {
            InputName::StandardInput => "standard input",
            InputName::Source => "the source",
            InputName::Image => "the object file",
            InputName::Configuration => "the configuration",
            InputName::Journal => "the journal",
            InputName::Script => "the script",
        })
    }
}
