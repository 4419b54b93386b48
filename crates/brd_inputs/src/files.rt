//! Files that are reached by their names.

use std::io::{self, Read, Write};

/// Files that are reached by their names.
///
/// The members `opened` and `created` relate the files before a call, the name, what the call gave, and the files after
/// it; `closed` relates the files before and after a written file was let go, and that file. So a function that is
/// generic over its files can say by its contract which files it opens and creates, in which order, and how it leaves
/// them.
///
/// A file is written in one of three ways: at once where it lies (`create`); whole or not at all (`begin`); or emptied
/// at once, and then written whole or not at all (`renew`). What doesn't say otherwise writes all of them at once.
pub trait Files {
    ghost use Rattle.std.specs.Prelude.{ℕ, Err, IfErr, List, Result};
    ghost use Rattle.std.specs.declared.io.Error.{Error};

    /// A file that is read.
    type Input: Read + Drop;

    /// A file that is written.
    type Output: Write + Drop;

    ghost opened: { Self → List ℕ → Result Self.Input Error → Self → Type 0 } = { λ _ _ _ _. Unit {0} };

    ghost created: { Self → List ℕ → Result Self.Output Error → Self → Type 0 } = { λ _ _ _ _. Unit {0} };

    ghost closed: { Self → Self.Output → Self → Type 0 } = { λ _ _ _. Unit {0} };

    /// Opens the file of that name, to be read.
    fn open(&mut self, name: &str) -> io::Result<Self::Input>
        ensures { opened self.old name.now result self.new };

    /// Creates the file of that name, or empties it, to be written.
    fn create(&mut self, name: &str) -> io::Result<Self::Output>
        ensures { created self.old name.now result self.new };

    /// Begins a file that is written whole or not at all: the one of that name gets it when it is kept.
    fn begin(&mut self, name: &str) -> io::Result<Self::Output>
        ensures { created self.old name.now result self.new }
    {
        self.create(name)
    }

    /// Creates the file of that name, or empties it, and begins what it gets when that is kept.
    fn renew(&mut self, name: &str) -> io::Result<Self::Output>
        ensures { created self.old name.now result self.new }
    {
        self.create(name)
    }

    /// Whether a file of that name could be created now, and is neither of two others: else the error. The files stay
    /// as they are.
    fn try_create(&self, name: &str, _image: &str, _config: &str) -> io::Result<()>
        ensures { IfErr result (λ error. created self.now name.now (Err error) self.now) }
    {
        Ok(())
    }

    /// Lets a file go that was written. One that was begun is dropped.
    fn close(&mut self, output: Self::Output)
        ensures { closed self.old output self.new };

    /// Lets a file go that was written. One that was begun is put where it belongs, unless a write failed.
    fn keep(&mut self, output: Self::Output) -> io::Result<()>
        ensures { closed self.old output self.new }
    {
        self.close(output);
        Ok(())
    }
}
