//! Stacks, and where stack pointers were.

ghost use Rattle.std.specs.Prelude.{◌≡◌};
ghost use Rattle.brd_stacks.specs.Strands.{is_inside};

/// Where the stack of a task or a handler lies.
#[derive(Clone, Copy)]
pub struct Stack {
    /// Whose it is: a task's strand is its ID, a handler's 256 and its line.
    pub strand: u16,
    /// Its lowest address.
    pub low: u32,
    /// The address behind its last byte, from where it grows downward.
    pub end: u64,
}

impl Stack {
    /// Whether a stack pointer lies in it, or at its end, where nothing is on it.
    pub(crate) fn is_inside(self, pointer: u32) -> bool
        ensures { result ≡ is_inside self pointer }
    {
        self.low <= pointer && pointer as u64 <= self.end
    }
}

/// A store to memory.
#[derive(Clone, Copy)]
pub struct Store {
    /// The address that it names.
    pub address: u32,
    /// Whether it names it by $sp and an offset.
    pub by_pointer: bool,
}

/// What a task or a handler did with its stack pointer in an event.
#[derive(Clone, Copy)]
pub struct Point {
    /// Who: a task's strand is its ID, a handler's 256 and its line.
    pub strand: u16,
    /// The position of the event.
    pub event: u64,
    /// The address of the instruction.
    pub place: u32,
    /// $sp before it.
    pub before: u32,
    /// $sp after it.
    pub after: u32,
    /// Whether $sp stayed, or was computed from itself.
    pub kept: bool,
    /// What it stored.
    pub store: Option<Store>,
}
