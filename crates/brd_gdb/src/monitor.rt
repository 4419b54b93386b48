//! The texts of the command `monitor`.

ghost use Rattle.std.specs.Prelude.{◌≡◌};
ghost use Rattle.brd_gdb.specs.Reading as reading;

use crate::request::{MarkName, Monitor, ThreadKind};
use brd_text::{is_name, plain_decimal};

/// The last mark's number (own choice).
const LAST_MARK: u64 = 9;

/// How many bytes the name of a mark has at most (own choice).
const LONGEST: usize = 31;

/// What a text asks for.
pub fn monitored(text: &[u8]) -> Monitor
    ensures { result ≡ reading.monitor_of text.now }
{
    if let Some(command) = word(text) {
        return command;
    }
    if let Some(command) = changing(text) {
        return command;
    }
    if let Some(command) = numbered(text) {
        return command;
    }
    match named(text) {
        Some(command) => command,
        None => Monitor::Unknown,
    }
}

/// The command of a text that is one word.
fn word(text: &[u8]) -> Option<Monitor>
    ensures { result ≡ reading.monitor_word text.now }
{
    if text == b"where".as_slice() {
        return Some(Monitor::Where);
    }
    if text == b"tasks".as_slice() {
        return Some(Monitor::Tasks);
    }
    if text == b"objects".as_slice() {
        return Some(Monitor::Objects);
    }
    if text == b"console".as_slice() {
        return Some(Monitor::Console);
    }
    if text == b"summary".as_slice() {
        return Some(Monitor::Summary);
    }
    if text == b"help".as_slice() {
        return Some(Monitor::Help);
    }
    if text == b"marks".as_slice() {
        return Some(Monitor::Marks);
    }
    None
}

/// The command of a text that has no number, and changes something.
fn changing(text: &[u8]) -> Option<Monitor>
    ensures { result ≡ reading.monitor_change text.now }
{
    if text == b"threads tasks".as_slice() {
        return Some(Monitor::Threads(ThreadKind::Tasks));
    }
    if text == b"threads processors".as_slice() {
        return Some(Monitor::Threads(ThreadKind::Processors));
    }
    if text == b"reset".as_slice() {
        return Some(Monitor::Goto(0));
    }
    if text == b"restart".as_slice() {
        return Some(Monitor::Goto(0));
    }
    None
}

/// The command of a text that is a word, one space and a number.
fn numbered(text: &[u8]) -> Option<Monitor>
    ensures { result ≡ reading.monitor_number text.now }
{
    if let Some(digits) = text.strip_prefix(b"goto ") {
        let position = plain_decimal(digits, u64::MAX)?;
        return Some(Monitor::Goto(position));
    }
    if let Some(digits) = text.strip_prefix(b"trace ") {
        let lines = plain_decimal(digits, u32::MAX as u64)?;
        return Some(Monitor::Trace(lines as u32));
    }
    if let Some(digits) = text.strip_prefix(b"mark ") {
        let number = plain_decimal(digits, LAST_MARK)?;
        return Some(Monitor::Mark(number as u8));
    }
    if let Some(digits) = text.strip_prefix(b"back ") {
        let number = plain_decimal(digits, LAST_MARK)?;
        return Some(Monitor::Back(number as u8));
    }
    None
}

/// The command of a text that is a word, one space and the name of a mark.
fn named(text: &[u8]) -> Option<Monitor>
    ensures { result ≡ reading.monitor_name text.now }
{
    if let Some(name) = text.strip_prefix(b"mark ") {
        let name = mark_name(name)?;
        return Some(Monitor::MarkByName(name));
    }
    if let Some(name) = text.strip_prefix(b"goto ") {
        let name = mark_name(name)?;
        return Some(Monitor::GotoName(name));
    }
    None
}

/// The name of a mark.
fn mark_name(text: &[u8]) -> Option<MarkName>
    ensures { result ≡ reading.mark_name_of text.now }
{
    if !is_mark_name(text) {
        return None;
    }
    let mut bytes = [0u8; LONGEST];
    bytes[..text.len()].copy_from_slice(text);
    Some(MarkName { bytes })
}

/// Whether a text is the name of a mark.
fn is_mark_name(text: &[u8]) -> bool
    ensures { result ≡ reading.is_mark_name text.now }
{
    is_name(text) && text.len() <= LONGEST
}
