//! The actions of `vCont`, and the threads that they name.

ghost use Rattle.std.specs.Prelude.{◌≡◌, ◌==◌};
ghost use Rattle.std.specs.List.{slice_split};
ghost use Rattle.brd_gdb.specs.Reading as reading;

use crate::digits::{range_pair, word};
use crate::parts::part;
use crate::request::{Move, ThreadId};

/// The threads that a text names.
pub fn thread(text: &[u8]) -> Option<ThreadId>
    ensures { result ≡ reading.thread_of text.now }
{
    if text == b"-1".as_slice() {
        return Some(ThreadId::All);
    }
    let number = word(text)?;
    if number == 0 {
        Some(ThreadId::Any)
    } else {
        Some(ThreadId::One(number))
    }
}

/// The move of the actions of a `vCont`, between semicolons.
pub fn moving(text: &[u8]) -> Option<Move>
    ensures { result ≡ reading.move_in (slice_split (λ byte. byte == 59) text.now) }
{
    let (one, behind) = part(text, b';');
    match behind {
        None => {
            let found = action(one)?;
            Some(alone(found))
        }
        Some(_) => first_move(text),
    }
}

/// The move of the only action: where it steps a thread by its number, that one alone.
fn alone(found: Move) -> Move
    ensures { result ≡ reading.alone found }
{
    match found {
        Move::Step(ThreadId::One(number)) => Move::Alone(number),
        other => other,
    }
}

/// The move of actions: that of the first that steps, else to continue.
fn first_move(text: &[u8]) -> Option<Move>
    ensures { result ≡ reading.move_of (slice_split (λ byte. byte == 59) text.now) }
{
    let mut found = Move::Continue;
    let mut left = text;
    loop {
        let (one, behind) = part(left, b';');
        let Some(next) = action(one) else {
            return None;
        };
        found = first_step(found, next);
        let Some(rest) = behind else {
            return Some(found);
        };
        left = rest;
    }
}

/// Of two moves the first that steps.
fn first_step(one: Move, later: Move) -> Move
    ensures { result ≡ reading.first_step one later }
{
    match one {
        Move::Continue => later,
        Move::Step(thread) => Move::Step(thread),
        Move::Alone(number) => Move::Alone(number),
        Move::Range { thread, start, end } => Move::Range { thread, start, end },
    }
}

/// The move of an action.
fn action(text: &[u8]) -> Option<Move>
    ensures { result ≡ reading.action_of text.now }
{
    let (does, threads) = part(text, b':');
    let Some(threads) = threads else {
        return action_by(does, ThreadId::Any);
    };
    let (threads, more) = part(threads, b':');
    let None = more else {
        return None;
    };
    let Some(thread) = thread(threads) else {
        return None;
    };
    action_by(does, thread)
}

/// What an action does with its threads.
fn action_by(text: &[u8], thread: ThreadId) -> Option<Move>
    ensures { result ≡ reading.action_by text.now thread }
{
    if text == b"c".as_slice() {
        return Some(Move::Continue);
    }
    if text == b"s".as_slice() {
        return Some(Move::Step(thread));
    }
    if let Some(signal) = text.strip_prefix(b"C") {
        word(signal)?;
        return Some(Move::Continue);
    }
    if let Some(signal) = text.strip_prefix(b"S") {
        word(signal)?;
        return Some(Move::Step(thread));
    }
    if let Some(range) = text.strip_prefix(b"r") {
        let (start, end) = range_pair(range)?;
        return Some(Move::Range { thread, start, end });
    }
    None
}
