//! Service calls, and how they are answered.

ghost use Rattle.std.specs.Prelude.{◌≡◌};
ghost use Rattle.brd_kernel.specs.Answer.{code_of};

/// A service call with its arguments, as they are in the registers.
#[derive(Clone, Copy)]
pub enum Call {
    /// Starts a task, or queues a request to.
    ActTsk(u32),
    /// The same, from a handler.
    IactTsk(u32),
    /// Takes queued requests back.
    CanAct(u32),
    /// Ends the caller.
    ExtTsk,
    /// Ends another task.
    TerTsk(u32),
    /// Gives a task a priority.
    ChgPri(u32, u32),
    /// Tells a task's priority.
    GetPri(u32),
    /// Starts a task on a processor, or queues a request to (ID, processor).
    MactTsk(u32, u32),
    /// The same, from a handler.
    ImactTsk(u32, u32),
    /// Assigns a task to another processor (ID, processor).
    MigTsk(u32, u32),
    /// Tells the caller's processor.
    GetPid,
    /// Puts the first ready task of a priority after its equals.
    RotRdq(u32),
    /// The same, from a handler.
    IrotRdq(u32),
    /// Tells the number of the running task, which is the caller, or was when the handler began.
    GetTid,
    /// Disables dispatching.
    DisDsp,
    /// Enables dispatching.
    EnaDsp,
    /// Locks the processor: no dispatching, no interrupts.
    LocCpu,
    /// Unlocks it.
    UnlCpu,
    /// Waits for a wake-up (timeout).
    TslpTsk(u32),
    /// Wakes a task up.
    WupTsk(u32),
    /// The same, from a handler.
    IwupTsk(u32),
    /// Takes queued wake-ups back.
    CanWup(u32),
    /// Ends a task's wait.
    RelWai(u32),
    /// Suspends a task.
    SusTsk(u32),
    /// Resumes a task.
    RsmTsk(u32),
    /// Waits for some time.
    DlyTsk(u32),
    /// Returns one to a semaphore.
    SigSem(u32),
    /// Takes one from a semaphore (ID, timeout).
    TwaiSem(u32, u32),
    /// Sets bits of an event flag (ID, bits).
    SetFlg(u32, u32),
    /// Clears all bits of an event flag but these (ID, bits).
    ClrFlg(u32, u32),
    /// Waits for bits of an event flag (ID, bits, mode, timeout).
    TwaiFlg(u32, u32, u32, u32),
    /// Sends a datum to a data queue (ID, datum, timeout).
    TsndDtq(u32, u32, u32),
    /// Sends a datum to a data queue, for which a full one gives its oldest datum up (ID, datum).
    FsndDtq(u32, u32),
    /// Receives a datum from a data queue (ID, timeout).
    TrcvDtq(u32, u32),
    /// Takes a spin lock, or comes again (ID).
    LocSpn(u32),
    /// Takes a spin lock that is free (ID).
    TrySpn(u32),
    /// Gives a spin lock back (ID).
    UnlSpn(u32),
    /// Writes a byte to the console.
    PutChr(u32),
    /// Turns the board off.
    ExtKer,
    /// Ends the handler.
    RetInt,
    /// Tells the system time.
    GetTim,
    /// Gives the system time.
    SetTim(u32),
    /// Tells a state of the processor that the call comes from.
    Sns(Sensed),
    /// Tells the running task of a processor.
    MgetTid(u32),
    /// Puts the first ready task of a priority after its equals (priority, processor).
    MrotRdq(u32, u32),
    /// Tells a word of what is known of a task (ID, word).
    RefTsk(u32, u32),
    /// Tells a word of what is known of a semaphore (ID, word).
    RefSem(u32, u32),
    /// Tells a word of what is known of an event flag (ID, word).
    RefFlg(u32, u32),
    /// Tells a word of what is known of a data queue (ID, word).
    RefDtq(u32, u32),
    /// Takes a mutex (ID, timeout).
    TlocMtx(u32, u32),
    /// Gives a mutex back (ID).
    UnlMtx(u32),
    /// Tells a word of what is known of a mutex (ID, word).
    RefMtx(u32, u32),
    /// Takes a block of a fixed memory pool (ID, timeout).
    TgetMpf(u32, u32),
    /// Gives a block of a fixed memory pool back (ID, block).
    RelMpf(u32, u32),
    /// Sends a message to a mailbox (ID, message, priority).
    SndMbx(u32, u32, u32),
    /// Receives a message from a mailbox (ID, timeout).
    TrcvMbx(u32, u32),
    /// Tells a word of what is known of a fixed memory pool (ID, word).
    RefMpf(u32, u32),
    /// Tells a word of what is known of a mailbox (ID, word).
    RefMbx(u32, u32),
    /// Starts a cyclic handler (ID).
    StaCyc(u32),
    /// Stops a cyclic handler (ID).
    StpCyc(u32),
    /// Starts an alarm handler (ID, time).
    StaAlm(u32, u32),
    /// Stops an alarm handler (ID).
    StpAlm(u32),
    /// Tells a word of what is known of a cyclic handler (ID, word).
    RefCyc(u32, u32),
    /// Tells a word of what is known of an alarm handler (ID, word).
    RefAlm(u32, u32),
}

/// A state of the processor that a call comes from.
#[derive(Clone, Copy, PartialEq, Eq)]
pub enum Sensed {
    /// A handler runs.
    Context,
    /// It is CPU-locked.
    Locked,
    /// Dispatching is disabled.
    Disabled,
    /// It is held, so that no task comes to run.
    Pending,
}

/// Why a service call isn't done, or a wait ended without what was waited for (uITRON 4.0 specification, "Main Error
/// Codes").
#[derive(Clone, Copy, PartialEq, Eq)]
pub enum Ercd {
    /// E_RSFN: there is no such call.
    Rsfn,
    /// E_PAR: an argument is out of its range.
    Par,
    /// E_ID: a number isn't one of an object.
    Id,
    /// E_CTX: the call can't be made from here.
    Ctx,
    /// E_ILUSE: the call can't be made of this object.
    Iluse,
    /// E_OBJ: the object isn't in a state for it.
    Obj,
    /// E_NOEXS: there is no such object.
    Noexs,
    /// E_QOVR: nothing more can be queued.
    Qovr,
    /// E_RLWAI: the wait was ended by rel_wai.
    Rlwai,
    /// E_TMOUT: what was asked for didn't come in time.
    Tmout,
}

impl Ercd {
    /// The word that a caller finds in $v0.
    pub fn word(self) -> u32
        ensures { result ≡ code_of self }
    {
        match self {
            Ercd::Rsfn => 0xffff_fff6,
            Ercd::Par => 0xffff_ffef,
            Ercd::Id => 0xffff_ffee,
            Ercd::Ctx => 0xffff_ffe7,
            Ercd::Iluse => 0xffff_ffe4,
            Ercd::Obj => 0xffff_ffd7,
            Ercd::Noexs => 0xffff_ffd6,
            Ercd::Qovr => 0xffff_ffd5,
            Ercd::Rlwai => 0xffff_ffcf,
            Ercd::Tmout => 0xffff_ffce,
        }
    }
}

/// What a service call writes to its caller's registers.
#[derive(Clone, Copy, PartialEq, Eq)]
pub enum Reply {
    /// $v0, and $v1 where the call has a second result; it has none where it is refused.
    Answer(u32, Option<u32>),
    /// Nothing: the call doesn't return, or not yet.
    Silent,
    /// Nothing, and the call is made again: its caller doesn't go on. It has changed nothing.
    Again,
}
