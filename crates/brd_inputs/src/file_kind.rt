//! What a file looks like that isn't in the form of what it should be.

ghost use Rattle.std.specs.Prelude.{◌≡◌};
ghost use Rattle.brd_inputs.specs.FileKinds as kinds;

use crate::excerpt::front_of;
use brd_text::{Scanner, Token, is_blank};

/// The first bytes of an object file.
const OBJECT_FILE: &[u8] = b"\x7fELF";

/// The first bytes of a journal.
const JOURNAL: &[u8] = b"board-journal";

/// The first bytes of an entry of a script.
const TICKS: &[u8] = b"T ";

const RAISES: &[u8] = b"R ";

/// How many bytes are looked at to tell text from other bytes.
const MOST_OF_TEXT: usize = 1_024;

/// What a file is by its front: a kind of file that a command reads, or an empty one.
#[derive(Clone, Copy, Debug, PartialEq, Eq)]
pub enum FileKind {
    /// An object file.
    ObjectFile,
    /// A kernel configuration.
    Configuration,
    /// A journal.
    Journal,
    /// A script of ticks and interrupts.
    Script,
    /// Assembler source.
    Source,
    /// A file without a byte.
    Empty,
}

/// The kind of which a file looks that should be of this kind: another one. `None` where it looks like what it should
/// be, or like nothing known. Text that looks like no other kind is taken for source only in the place of an object
/// file.
pub fn other_kind(wanted: FileKind, bytes: &[u8]) -> Option<FileKind>
    ensures { result ≡ kinds.other_kind wanted bytes.now }
{
    match (wanted, looks_like(bytes)) {
        (FileKind::ObjectFile, Some(FileKind::ObjectFile))
        | (FileKind::Configuration, Some(FileKind::Configuration | FileKind::Source))
        | (FileKind::Journal, Some(FileKind::Journal | FileKind::Source))
        | (FileKind::Script, Some(FileKind::Script | FileKind::Source))
        | (FileKind::Source, Some(FileKind::Source)) => None,
        (_, kind) => kind,
    }
}

/// Whether a file looks like an object file.
pub fn is_object_file(bytes: &[u8]) -> bool
    ensures { result ≡ kinds.is_object_file bytes.now }
{
    bytes.starts_with(OBJECT_FILE)
}

/// The kind of which a file looks by its front.
#[tactic(auto, unfolding(crate::specs::FileKinds::looks_like))]
fn looks_like(bytes: &[u8]) -> Option<FileKind>
    ensures { result ≡ kinds.looks_like bytes.now }
{
    if bytes.is_empty() {
        return Some(FileKind::Empty);
    }
    if is_object_file(bytes) {
        return Some(FileKind::ObjectFile);
    }
    if bytes.starts_with(JOURNAL) {
        return Some(FileKind::Journal);
    }
    if begins_with_entry(bytes) {
        return Some(FileKind::Script);
    }
    if begins_with_board(bytes) {
        return Some(FileKind::Configuration);
    }
    if are_text(front_of(bytes, MOST_OF_TEXT)) {
        return Some(FileKind::Source);
    }
    None
}

/// Whether it begins as an entry of a script does.
fn begins_with_entry(bytes: &[u8]) -> bool
    ensures { result ≡ kinds.begins_with_entry bytes.now }
{
    bytes.starts_with(TICKS) || bytes.starts_with(RAISES)
}

/// Whether the first word, after blanks and comments, is `BOARD`.
fn begins_with_board(bytes: &[u8]) -> bool
    ensures { result ≡ kinds.begins_with_board bytes.now }
{
    let (token, _line) = Scanner::new(bytes).next();
    match token {
        Token::Run(word) => word == b"BOARD".as_slice(),
        _ => false,
    }
}

/// Whether all the bytes are those of a text.
fn are_text(bytes: &[u8]) -> bool
    ensures { result ≡ kinds.are_text bytes.now }
{
    for byte in bytes {
        if !is_text_byte(*byte) {
            return false;
        }
    }
    true
}

/// Whether a byte is printable ASCII, a blank or a newline.
fn is_text_byte(byte: u8) -> bool
    ensures { result ≡ kinds.is_text_byte byte }
{
    is_blank(byte) || matches!(byte, b' '..=b'~')
}

/// What a fault says after itself of the kind of which its file looks.
pub fn looks(kind: Option<FileKind>) -> &'static str {
    match kind {
        None => "",
        Some(FileKind::Empty) => "; it is empty",
        Some(FileKind::ObjectFile) => "; it looks like an object file",
        Some(FileKind::Configuration) => "; it looks like a configuration",
        Some(FileKind::Journal) => "; it looks like a journal",
        Some(FileKind::Script) => "; it looks like a script",
        Some(FileKind::Source) => {
            "; it looks like assembler source, which \"board asm\" makes an object file of"
        }
    }
}
