//! Reading the text of a script.

ghost use Rattle.std.specs.Prelude.{◌≡◌, ◌++◌, replicate, OnOk};
ghost use Rattle.brd_text.specs.Faults.{or_fault};
ghost use Rattle.brd_threads.specs.Faults.{Gives};
ghost use Rattle.brd_threads.specs.Outers.{outer_of};
ghost use Rattle.brd_threads.specs.Script.{script_of, with_line};
ghost use Rattle.brd_threads.specs.declared.fault.ScriptFault.TheVariants.{Syntax};

use crate::fault::ScriptFault;
use crate::outer::Outer;
use brd_base::NoMemory;
use brd_board::Event;
use brd_journal::run_of_line;
use brd_text::split_line;
use std::alloc::Global;

/// The most entries that the text of a script may have (own choice).
pub const MOST_ENTRIES: usize = 1_000_000;

/// The script that a text says, or the fault of the first line that has one. Lines are `T COUNT` and `R LINE COUNT`, of
/// the form that they have in a journal's text.
#[tactic(auto, unfolding(crate::specs::Script::script_of))]
pub fn read_script(alloc: Global, text: &[u8]) -> Result<Vec<Outer>, ScriptFault>
    ensures { Gives (λ script. script.items) result (script_of text.now) }
{
    let mut script = Vec::new(alloc);
    let mut rest = text;
    let mut number = 1;
    'lines: loop {
        let (line, behind) = split_line(rest);
        let Some(after) = behind else {
            if line.is_empty() {
                return Ok(script);
            }
            return Err(ScriptFault::Syntax { line: number });
        };
        put_line(&mut script, line, number)?;
        rest = after;
        number += 1;
    }
}

/// Puts the entries of the line of this number at the end.
fn put_line(script: &mut Vec<Outer>, line: &[u8], number: usize) -> Result<(), ScriptFault>
    ensures { Gives (λ _. script.new.items) result (or_fault (Syntax number) (with_line script.old.items line.now)) }
{
    let syntax = ScriptFault::Syntax { line: number };
    let Some(run) = run_of_line(line) else {
        return Err(syntax);
    };
    let Some(entry) = entry_of(run.event) else {
        return Err(syntax);
    };
    if script.len() + run.count as usize > MOST_ENTRIES {
        return Err(syntax);
    }
    put_entries(script, entry, run.count)?;
    Ok(())
}

/// The entry that an event is, where it comes from outside.
fn entry_of(event: Event) -> Option<Outer>
    ensures { result ≡ outer_of event }
{
    match event {
        Event::Step(_) => None,
        Event::Tick => Some(Outer::Tick),
        Event::Raise(line) => Some(Outer::Raise(line)),
    }
}

/// Puts an entry at the end `count` times.
fn put_entries(script: &mut Vec<Outer>, entry: Outer, count: u32) -> Result<(), NoMemory>
    ensures { OnOk result (script.new.items ≡ script.old.items ++ replicate count entry) }
{
    script.reserve(count as usize)?;
    for _ in 0..count {
        script.push(entry)?;
    }
    Ok(())
}
