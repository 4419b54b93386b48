//! What GDB asks for, as values.

/// Which threads are meant.
#[derive(Clone, Copy, PartialEq, Eq)]
pub enum ThreadId {
    /// All: `-1`.
    All,
    /// Any: `0`, or none is named.
    Any,
    /// The thread of this number, which isn't 0.
    One(u32),
}

/// How the program is to go on. Signals that GDB hands on aren't kept: a replay takes none.
#[derive(Clone, Copy, PartialEq, Eq)]
pub enum Move {
    /// Up to the next stop.
    Continue,
    /// One instruction of a thread.
    Step(ThreadId),
    /// One instruction of the thread of this number, while no other thread has an action: what others come to is told
    /// later.
    Alone(u32),
    /// Instructions of a thread as long as it is within addresses, of which the first is within, and the last isn't.
    Range {
        /// Whose instructions.
        thread: ThreadId,
        /// The first address.
        start: u32,
        /// The address after the last.
        end: u32,
    },
}

/// What a point stops at.
#[derive(Clone, Copy, PartialEq, Eq)]
pub enum PointKind {
    /// An instruction: `Z0`.
    SoftwareBreak,
    /// An instruction: `Z1`.
    HardwareBreak,
    /// A write: `Z2`.
    WriteWatch,
    /// A read: `Z3`.
    ReadWatch,
    /// A read or a write: `Z4`.
    AccessWatch,
}

/// What GDB's threads are (own choice).
#[derive(Clone, Copy, PartialEq, Eq)]
pub enum ThreadKind {
    /// The kernel's tasks, and the handlers that run.
    Tasks,
    /// The board's processors.
    Processors,
}

/// The name of a mark: a name as in sources, of at most 31 bytes (own choice).
#[derive(Clone, Copy, PartialEq, Eq)]
pub struct MarkName {
    /// The bytes, and zeros behind them.
    pub bytes: [u8; 31],
}

/// What the user asks for with GDB's command `monitor` (own choice).
#[derive(Clone, Copy, PartialEq, Eq)]
pub enum Monitor {
    /// `goto N`: to go to a position; `reset` and `restart`, to go to the first.
    Goto(u64),
    /// `threads tasks`, `threads processors`: what GDB's threads are from now on.
    Threads(ThreadKind),
    /// `mark N`: to let a mark, of 0 to 9, stand at the position.
    Mark(u8),
    /// `back N`: to go to where a mark stands.
    Back(u8),
    /// `mark NAME`: to let a mark with a name stand at the position.
    MarkByName(MarkName),
    /// `goto NAME`: to go to where a mark with a name stands.
    GotoName(MarkName),
    /// `marks`: where the marks stand.
    Marks,
    /// `where`: the position, and whose step comes.
    Where,
    /// `tasks`: the tasks and their states.
    Tasks,
    /// `objects`: who waits for what.
    Objects,
    /// `console`: what was written to the console.
    Console,
    /// `trace N`: the last N lines of the trace.
    Trace(u32),
    /// `summary`: how long tasks and processors did what.
    Summary,
    /// `help`: these commands.
    Help,
    /// Any other text.
    Unknown,
}

/// What a packet asks for.
#[derive(Clone, Copy, PartialEq, Eq)]
pub enum Request {
    /// What is supported: `qSupported`.
    Supported,
    /// No more acknowledgments: `QStartNoAckMode`.
    StartNoAckMode,
    /// Why the program stopped: `?`.
    StopReason,
    /// All registers: `g`.
    ReadRegisters,
    /// One register: `p`.
    ReadRegister(u32),
    /// Memory: `m`.
    ReadMemory {
        /// The first byte's address.
        address: u32,
        /// How many bytes.
        length: u32,
    },
    /// To write memory or registers: `M`, `G`, `P`, `X`.
    Write,
    /// The thread of later packets: `H`.
    SetThread {
        /// Whether of those that move (`Hc`), or of those that read (`Hg`).
        moves: bool,
        /// Which thread.
        thread: ThreadId,
    },
    /// Whether there is a thread: `T`.
    IsAlive(ThreadId),
    /// Which thread is the current one: `qC`.
    CurrentThread,
    /// The threads: `qfThreadInfo`.
    FirstThreads,
    /// More threads: `qsThreadInfo`.
    OtherThreads,
    /// What there is to say of a thread: `qThreadExtraInfo`.
    ThreadInfo(ThreadId),
    /// A part of the target description: `qXfer:features:read:target.xml`.
    ReadFeatures {
        /// The first byte of the part.
        offset: u32,
        /// How many bytes.
        length: u32,
    },
    /// A part of the list of threads: `qXfer:threads:read`.
    ReadThreads {
        /// The first byte of the part.
        offset: u32,
        /// How many bytes.
        length: u32,
    },
    /// A command of the user: `qRcmd`.
    Monitor(Monitor),
    /// Which moves there are: `vCont?`.
    MoveKinds,
    /// To move forward: `vCont`, `c`, `s`.
    Forward(Move),
    /// To go back to the last stop: `bc`.
    BackwardContinue,
    /// To go back by one instruction: `bs`.
    BackwardStep,
    /// To stop at a point: `Z`.
    SetPoint {
        /// What it stops at.
        kind: PointKind,
        /// The first byte's address.
        address: u32,
        /// How many bytes.
        length: u32,
    },
    /// To stop at a point no more: `z`.
    ClearPoint {
        /// What it stops at.
        kind: PointKind,
        /// The first byte's address.
        address: u32,
        /// How many bytes.
        length: u32,
    },
    /// To let the program go: `D`.
    Detach,
    /// To end it, without a reply: `k`.
    Kill,
    /// To end it, with a reply: `vKill`.
    KillProcess,
    /// Whether the program was there before: `qAttached`.
    IsAttached,
    /// All else.
    Unknown,
}
