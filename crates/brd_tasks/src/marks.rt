//! Marks: a bit for each priority of each processor.

ghost use Rattle.std.specs.Prelude.{◌≡◌, ◌<◌, ◌+◌, ◌*◌, ◌/◌, ℕ, IfNone, IfSome, IfOk, length, replicate};
ghost use Rattle.brd_tasks.specs.Marks.{mark_at, with_mark, without_mark};

use brd_base::NoMemory;
use std::alloc::Global;

/// The marks of 9 processors, none of which is set.
pub fn no_marks(alloc: Global) -> Result<Vec<u64>, NoMemory>
    ensures { IfOk result (λ marks. marks.items ≡ replicate 36 0) }
{
    let mut marks = Vec::new(alloc);
    for _ in 0..36u8 {
        marks.push(0)?;
    }
    Ok(marks)
}

/// Sets the mark of a priority of a processor.
pub fn set_mark(marks: &mut Vec<u64>, cpu: u8, priority: u8)
    requires long { length marks.old.items ≡ 36 }
    requires listed { cpu < 9 }
    ensures { marks.new.items ≡ with_mark cpu priority marks.old.items }
{
    let at = place(cpu, priority);
    marks[at] = marks[at] | 1 << (priority % 64);
}

/// Takes the mark of a priority of a processor away.
pub fn clear_mark(marks: &mut Vec<u64>, cpu: u8, priority: u8)
    requires long { length marks.old.items ≡ 36 }
    requires listed { cpu < 9 }
    ensures { marks.new.items ≡ without_mark cpu priority marks.old.items }
{
    let at = place(cpu, priority);
    marks[at] = marks[at] & !(1 << (priority % 64));
}

/// The highest priority of a processor, which is the lowest number, that has its mark.
pub fn first_mark(marks: &[u64], cpu: u8) -> Option<u8>
    requires long { length marks.now ≡ 36 }
    requires listed { cpu < 9 }
    ensures none { IfNone result ((priority : ℕ) → priority < 256 → mark_at marks.now cpu priority ≡ 0) }
    ensures some { IfSome result
        (λ first. (first < 256) × (mark_at marks.now cpu first ≡ 1)
        × ((priority : ℕ) → priority < first → mark_at marks.now cpu priority ≡ 0)) }
{
    for i in 0..4u8 {
        let word = marks[place(cpu, i * 64)];
        if word != 0 {
            return Some(i * 64 + word.trailing_zeros() as u8);
        }
    }
    None
}

/// In which word the mark of a priority of a processor is.
fn place(cpu: u8, priority: u8) -> usize
    ensures { result ≡ cpu * 4 + priority / 64 }
{
    cpu as usize * 4 + (priority / 64) as usize
}
