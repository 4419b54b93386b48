//! The states of a task, and which one each transition leads to.

ghost use Rattle.std.specs.Prelude.{◌≡◌, Some};
ghost use Rattle.brd_tasks.specs.Status.{
  state_of,
  waiting_of,
  is_dormant,
  is_ready,
  is_waiting,
  is_suspended,
  blocked,
  released,
  suspended,
  resumed,
};

use brd_base::Same;

/// A task's number, from 1 to 255.
pub type TaskId = u16;

/// What a task waits for of an object.
#[derive(Clone, Copy, Debug, PartialEq, Eq)]
pub enum WaitKind {
    /// One of a semaphore.
    Semaphore,
    /// A pattern of an event flag.
    Flag,
    /// Room in a data queue, to send.
    Room,
    /// A datum of a data queue, to receive.
    Datum,
    /// A mutex.
    Mutex,
    /// A block of a fixed memory pool.
    Block,
    /// A message of a mailbox.
    Message,
}

/// What a task waits for (uITRON 4.0 specification, the `tskwait` of ref_tsk).
#[derive(Clone, Copy, Debug, PartialEq, Eq)]
pub enum WaitReason {
    /// A wake-up.
    Sleep,
    /// The end of a delay.
    Delay,
    /// This of the object with this ID.
    On(WaitKind, u16),
}

/// A task's state (uITRON 4.0 specification, "Task States").
#[derive(Clone, Copy, Debug, PartialEq, Eq)]
pub enum TaskState {
    /// Not started, or ended.
    Dormant,
    /// Runs, or would if its processor were free.
    Ready,
    /// Waits for something.
    Waiting,
    /// Kept from running by sus_tsk.
    Suspended,
    /// Both.
    WaitingSuspended,
}

/// A task's state, with what it waits for where it does.
#[derive(Clone, Copy, PartialEq, Eq)]
pub enum Status {
    /// Not started, or ended.
    Dormant,
    /// Runs, or would if its processor were free.
    Ready,
    /// Waits.
    Waiting(WaitReason),
    /// Kept from running by sus_tsk.
    Suspended,
    /// Waits, and is kept from running by sus_tsk.
    WaitingSuspended(WaitReason),
}

impl Same for Status {
    fn same(&self, other: &Self) -> bool {
        *self == *other
    }
}

impl Status {
    /// The state, without what is waited for.
    pub fn state(self) -> TaskState
        ensures { result ≡ state_of self }
    {
        match self {
            Status::Dormant => TaskState::Dormant,
            Status::Ready => TaskState::Ready,
            Status::Waiting(_) => TaskState::Waiting,
            Status::Suspended => TaskState::Suspended,
            Status::WaitingSuspended(_) => TaskState::WaitingSuspended,
        }
    }

    /// What is waited for, if anything is.
    pub fn waiting(self) -> Option<WaitReason>
        ensures { result ≡ waiting_of self }
    {
        match self {
            Status::Waiting(reason) | Status::WaitingSuspended(reason) => Some(reason),
            Status::Dormant | Status::Ready | Status::Suspended => None,
        }
    }

    /// Whether the task is dormant.
    pub fn is_dormant(self) -> bool
        ensures { result ≡ is_dormant self }
    {
        match self {
            Status::Dormant => true,
            _ => false,
        }
    }

    /// Whether the task is ready.
    pub fn is_ready(self) -> bool
        ensures { result ≡ is_ready self }
    {
        match self {
            Status::Ready => true,
            _ => false,
        }
    }

    /// Whether the task waits, suspended or not.
    pub fn is_waiting(self) -> bool
        ensures { result ≡ is_waiting self }
    {
        match self {
            Status::Waiting(_) | Status::WaitingSuspended(_) => true,
            _ => false,
        }
    }

    /// Whether the task is suspended, waiting or not.
    pub fn is_suspended(self) -> bool
        ensures { result ≡ is_suspended self }
    {
        match self {
            Status::Suspended | Status::WaitingSuspended(_) => true,
            _ => false,
        }
    }

    /// The status of a ready task that begins to wait.
    pub fn blocked(self, reason: WaitReason) -> Option<Status>
        ensures { result ≡ blocked reason self }
    {
        match self {
            Status::Ready => Some(Status::Waiting(reason)),
            _ => None,
        }
    }

    /// The status of a waiting task whose wait ends.
    pub fn released(self) -> Option<Status>
        ensures { result ≡ released self }
    {
        match self {
            Status::Waiting(_) => Some(Status::Ready),
            Status::WaitingSuspended(_) => Some(Status::Suspended),
            _ => None,
        }
    }

    /// The status of a ready or waiting task that is suspended.
    pub fn suspended(self) -> Option<Status>
        ensures { result ≡ suspended self }
    {
        match self {
            Status::Ready => Some(Status::Suspended),
            Status::Waiting(reason) => Some(Status::WaitingSuspended(reason)),
            _ => None,
        }
    }

    /// The status of a suspended task that is resumed.
    pub fn resumed(self) -> Option<Status>
        ensures { result ≡ resumed self }
    {
        match self {
            Status::Suspended => Some(Status::Ready),
            Status::WaitingSuspended(reason) => Some(Status::Waiting(reason)),
            _ => None,
        }
    }
}
