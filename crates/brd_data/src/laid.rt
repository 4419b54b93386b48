//! Files of which one has another text laid over it.

ghost use Rattle.std.specs.Prelude.{◌≡◌, Decides, None, Some, drop, option_map};
ghost use Rattle.brd_data.specs.Laid.{IsOver};

use brd_inputs::Files;
use std::io::{self, Read};

/// A text for a file of this name.
#[derive(Drop)]
pub struct Text {
    /// The name.
    pub name: Vec<u8>,
    /// The text.
    pub bytes: Vec<u8>,
}

/// Files of which one may have a text laid over it: who opens its name first reads that.
#[derive(Drop)]
pub struct Laid<F> {
    /// The files.
    pub files: F,
    /// The text, as long as nobody has opened it.
    pub laid: Option<Text>,
}

/// What is left to read of a text.
#[derive(Drop)]
pub struct TextReader {
    bytes: Vec<u8>,
    at: usize,
}

impl Read for TextReader {
    ghost remaining = { λ reader. Some (drop reader.at reader.bytes.items) };

    fn read(&mut self, buf: &mut [u8]) -> io::Result<usize> {
        let start = self.at.min(self.bytes.len());
        let mut left = &self.bytes[start..];
        let n = left.read(buf)?;
        self.at = start + n;
        Ok(n)
    }
}

/// An open file, or a text that was laid over one.
#[derive(Drop)]
pub enum LaidInput<R> {
    /// The file.
    File(R),
    /// The text.
    Text(TextReader),
}

impl<R: Read> Read for LaidInput<R> {
    ghost use Rattle.brd_data.specs.Laid.{left_of};

    ghost remaining = { left_of R.remaining };

    fn read(&mut self, buf: &mut [u8]) -> io::Result<usize> {
        match self {
            LaidInput::File(reader) => reader.read(buf),
            LaidInput::Text(reader) => reader.read(buf),
        }
    }
}

impl<F> Laid<F> {
    ghost use Rattle.brd_data.specs.Laid.{IsTaken};

    /// Takes the text that is laid over the file of this name, if there is one.
    fn take_text(&mut self, name: &str) -> Option<Vec<u8>>
        ensures { IsTaken self.old name.now (option_map (λ bytes. bytes.items) result) self.new }
    {
        if !is_over(&self.laid, name) {
            return None;
        }
        taken(&mut self.laid)
    }
}

/// Takes a text, if there is one.
fn taken(laid: &mut Option<Text>) -> Option<Vec<u8>>
    ensures is { option_map (λ bytes. bytes.items) result ≡ option_map (λ text. text.bytes.items) laid.old }
    ensures none { laid.new ≡ None }
{
    match laid.take() {
        Some(Text { name: _, bytes }) => Some(bytes),
        None => None,
    }
}

/// Whether a text is laid over the file of this name.
fn is_over(laid: &Option<Text>, name: &str) -> bool
    ensures { Decides result (IsOver laid.now name.now) }
{
    match laid {
        Some(text) => text.name.as_slice() == name.as_bytes(),
        None => false,
    }
}

impl<F: Files> Files for Laid<F> {
    ghost use Rattle.brd_data.specs.Laid.{IsClosed, IsCreated, IsOpened};

    type Input = LaidInput<F::Input>;

    type Output = F::Output;

    ghost opened = { IsOpened F.opened };

    ghost created = { IsCreated F.created };

    ghost closed = { IsClosed F.closed };

    fn open(&mut self, name: &str) -> io::Result<LaidInput<F::Input>> {
        match self.take_text(name) {
            Some(bytes) => Ok(LaidInput::Text(TextReader { bytes, at: 0 })),
            None => match self.files.open(name) {
                Ok(reader) => Ok(LaidInput::File(reader)),
                Err(error) => Err(error),
            },
        }
    }

    fn create(&mut self, name: &str) -> io::Result<F::Output> {
        self.files.create(name)
    }

    fn begin(&mut self, name: &str) -> io::Result<F::Output> {
        self.files.begin(name)
    }

    fn renew(&mut self, name: &str) -> io::Result<F::Output> {
        self.files.renew(name)
    }

    fn try_create(&self, name: &str, image: &str, config: &str) -> io::Result<()> {
        self.files.try_create(name, image, config)
    }

    fn close(&mut self, output: F::Output) {
        self.files.close(output)
    }

    fn keep(&mut self, output: F::Output) -> io::Result<()> {
        self.files.keep(output)
    }
}
