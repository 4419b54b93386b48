//! Marks of places: numbers that equal places have in common, and other ones hardly.

use crate::left::Left;
use brd_base::{List, NoMemory};
use brd_board::{Board, Spin, Standing, TaskId, TaskState, TaskView};
use brd_exec::Context;
use std::alloc::Global;

/// What there is of boards that come from a start: the numbers of its tasks, and of its spin locks.
#[derive(Drop)]
pub(crate) struct Marks {
    tasks: List<TaskId>,
    locks: List<u8>,
}

impl Marks {
    /// What there is of a start.
    pub fn new(alloc: Global, start: &Board) -> Result<Marks, NoMemory> {
        let mut tasks = List::new(alloc);
        for id in 1..256u16 {
            if start.task(id).is_some() {
                tasks.push(id)?;
            }
        }
        let mut locks = List::new(alloc);
        for id in 1..255u8 {
            if start.spin(id).is_some() {
                locks.push(id)?;
            }
        }
        Ok(Marks { tasks, locks })
    }

    /// The mark of a board and of what is left, by a number for its memory.
    pub fn mark_of(&self, board: &Board, left: Left, memory: u64) -> u64 {
        let mut mark = marked(memory, board.now());
        mark = marked(mark, board.console().len() as u64);
        mark = marked(mark, u64::from(board.is_off()));
        mark = marked_by_left(mark, left);
        for id in self.tasks.as_slice() {
            if let Some(task) = board.task(*id) {
                mark = marked_by_task(mark, &task);
            }
        }
        for cpu in 1..9u8 {
            mark = marked_by_processor(mark, board, cpu);
        }
        mark = marked_by_lines(mark, board);
        for id in self.locks.as_slice() {
            mark = marked_by_lock(mark, board.spin(*id));
        }
        mark ^ (mark >> 32)
    }
}

/// A number for a word of memory that isn't as at the start. Those of all such words, put together by "exclusive or",
/// make a number for the memory.
pub fn mix(address: u32, word: u32) -> u64 {
    let mut mixed = u64::from(address) * 0x1_0000_0000 + u64::from(word);
    mixed = (mixed ^ (mixed >> 30)).wrapping_mul(0xbf58_476d_1ce4_e5b9);
    mixed = (mixed ^ (mixed >> 27)).wrapping_mul(0x94d0_49bb_1331_11eb);
    mixed ^ (mixed >> 31)
}

/// A number for the memory of a board, by the words at some addresses.
pub fn memory_of(board: &Board, words: &[u32]) -> u64 {
    let mut number = 0;
    for address in words {
        if let Some(word) = board.aligned_word(*address) {
            number ^= mix(*address, word);
        }
    }
    number
}

/// A mark, and a number more.
fn marked(mark: u64, number: u64) -> u64 {
    (mark.rotate_left(5) ^ number).wrapping_mul(0x517c_c1b7_2722_0a95)
}

/// A mark, and what is left.
fn marked_by_left(mark: u64, left: Left) -> u64 {
    let mark = marked(mark, u64::from(left.ticks));
    let mark = marked(mark, u64::from(left.raises));
    marked(mark, u64::from(left.owed))
}

/// A mark, and a task as it stands.
fn marked_by_task(mark: u64, task: &TaskView) -> u64 {
    let mut mark = marked(mark, number_of(task.state));
    mark = marked(mark, u64::from(task.priority));
    mark = marked(mark, u64::from(task.cpu));
    mark = marked(mark, task.due.unwrap_or(0));
    mark = marked(mark, u64::from(task.activations));
    mark = marked(mark, u64::from(task.wakeups));
    marked_by_context(mark, &task.context)
}

/// A number for a state.
fn number_of(state: TaskState) -> u64 {
    match state {
        TaskState::Dormant => 0,
        TaskState::Ready => 1,
        TaskState::Waiting => 2,
        TaskState::Suspended => 3,
        TaskState::WaitingSuspended => 4,
    }
}

/// A mark, and a context.
fn marked_by_context(mark: u64, context: &Context) -> u64 {
    let mut mark = marked(mark, u64::from(context.pc()));
    for word in context.registers() {
        mark = marked(mark, u64::from(*word));
    }
    mark
}

/// A mark, and a processor: what it does, its handler's context, its link.
fn marked_by_processor(mark: u64, board: &Board, cpu: u8) -> u64 {
    let mark = marked(mark, u64::from(board.link(cpu).unwrap_or(0)));
    match board.standing(cpu) {
        None => mark,
        Some(Standing::Idle) => marked(mark, 1),
        Some(Standing::Stopped) => marked(mark, 2),
        Some(Standing::Task(id)) => marked(mark, 3 + u64::from(id)),
        Some(Standing::Handler(line)) => marked_by_handler(mark, board, cpu, line),
    }
}

/// A mark, and the handler of a line on a processor.
fn marked_by_handler(mark: u64, board: &Board, cpu: u8, line: u8) -> u64 {
    let mark = marked(mark, 0x1_0000 + u64::from(line));
    match board.registers(cpu) {
        Some(context) => marked_by_context(mark, &context),
        None => mark,
    }
}

/// A mark, and the lines that are pending.
fn marked_by_lines(mark: u64, board: &Board) -> u64 {
    let mut mark = mark;
    for line in 0..160u8 {
        if board.is_pending(line) {
            mark = marked(mark, u64::from(line));
        }
    }
    mark
}

/// A mark, and a spin lock as it stands.
fn marked_by_lock(mark: u64, lock: Option<Spin>) -> u64 {
    match lock {
        None => mark,
        Some(Spin::Free) => marked(mark, 0),
        Some(Spin::Held(cpu)) => marked(mark, u64::from(cpu)),
    }
}
