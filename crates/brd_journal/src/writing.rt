//! The text of runs.

ghost use Rattle.std.specs.Prelude.{◌≡◌, ◌≤◌, ◌++◌, ◌∷◌, [], length, OnOk, IfOk};
ghost use Rattle.std.specs.Fmt.{decimal};
ghost use Rattle.brd_journal.specs.Journal.{most_runs};
ghost use Rattle.brd_journal.specs.Text.{first_line, event_text, line_text, text_of_runs, IsNumbered, AreNumbered};

use crate::line::{BIG_LINE, LITTLE_LINE};
use crate::run::Run;
use brd_base::NoMemory;
use brd_board::Event;
use brd_word::Order;
use std::alloc::Global;

/// The most bytes that the line of a run can have, with its newline.
const LONGEST_LINE: usize = b"R 255 4294967295\n".len();

/// The text of runs, for boards of this byte order.
pub(crate) fn written(alloc: Global, order: Order, runs: &[Run]) -> Result<Vec<u8>, NoMemory>
    requires { length runs.now ≤ most_runs }
    ensures is { IfOk result (λ text. text.items ≡ text_of_runs order runs.now) }
    ensures numbered { IfOk result (λ _. AreNumbered runs.now) }
{
    let most = LITTLE_LINE.len() + 1 + LONGEST_LINE * runs.len();
    let mut text = Vec::with_capacity(alloc, most)?;
    put_first_line(&mut text, order)?;
    text.push(b'\n')?;
    for run in runs {
        put_line(&mut text, run)?;
    }
    Ok(text)
}

/// Puts the first line at the end, without its newline.
fn put_first_line(text: &mut Vec<u8>, order: Order) -> Result<(), NoMemory>
    ensures { OnOk result (text.new.items ≡ text.old.items ++ first_line order) }
{
    match order {
        Order::Big => text.extend_from_slice(BIG_LINE)?,
        Order::Little => text.extend_from_slice(LITTLE_LINE)?,
    }
    Ok(())
}

/// Puts the line of a run at the end.
fn put_line(text: &mut Vec<u8>, run: &Run) -> Result<(), NoMemory>
    ensures put { OnOk result (text.new.items ≡ text.old.items ++ (line_text run.now ++ 10 ∷ [])) }
    ensures numbered { OnOk result (IsNumbered run.now.event) }
{
    put_event(text, run.event)?;
    text.push(b' ')?;
    put_decimal(text, run.count)?;
    text.push(b'\n')?;
    Ok(())
}

/// Puts what stands for an event at the end.
fn put_event(text: &mut Vec<u8>, event: Event) -> Result<(), NoMemory>
    ensures put { OnOk result (text.new.items ≡ text.old.items ++ event_text event) }
    ensures numbered { OnOk result (IsNumbered event) }
{
    match event {
        Event::Step(cpu) => {
            text.extend_from_slice(b"S ")?;
            put_decimal(text, cpu as u32)
        }
        Event::Tick => {
            text.push(b'T')?;
            Ok(())
        }
        Event::Raise(line) => {
            text.extend_from_slice(b"R ")?;
            put_decimal(text, line as u32)
        }
    }
}

/// Puts the decimal digits of a number at the end, without leading zeros.
fn put_decimal(text: &mut Vec<u8>, number: u32) -> Result<(), NoMemory>
    ensures { OnOk result (text.new.items ≡ text.old.items ++ decimal number) }
{
    let mut digits = [0; 10];
    let mut start = 10;
    let mut left = number;
    while left >= 10 {
        start -= 1;
        digits[start] = b'0' + (left % 10) as u8;
        left /= 10;
    }
    start -= 1;
    digits[start] = b'0' + left as u8;
    text.extend_from_slice(&digits[start..])?;
    Ok(())
}
