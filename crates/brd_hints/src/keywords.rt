//! What is said of the statements of a configuration, and of those that are often written in their place.

use brd_config::Keyword;

/// What is told of a statement.
#[derive(Clone, Copy)]
pub(crate) struct Told {
    /// Its marks and operands in their order. Of the operands `n` is a number, `v` a number or a name, `z` a number or
    /// NULL, `u` NULL, `a` attributes, `m` those of a mailbox, `t` those of a cyclic handler, `p` the protocol of a
    /// mutex, `c` a class.
    pub marks: &'static [u8],
    /// Its form in words.
    pub form: &'static [u8],
    /// The attributes that it may have.
    pub attributes: &'static [u8],
    /// What is said where it defines what is there already.
    pub again: &'static [u8],
}

/// What is told of the statements of a keyword.
pub(crate) fn told_of(keyword: Keyword) -> Told {
    match keyword {
        Keyword::Board => Told {
            marks: b"(n,n);",
            form: b"BOARD(processors, ram);",
            attributes: b"",
            again: b"BOARD comes once, and stands on line & already",
        },
        Keyword::Class => Told {
            marks: b"(c){",
            form: b"CLASS(TCL_n) { .. }",
            attributes: b"",
            again: b"",
        },
        Keyword::Task => Told {
            marks: b"(n,{a,v,v,n,n,v});",
            form: b"CRE_TSK(id, {attributes, exinf, task, priority, stack size, stack});",
            attributes: b"TA_HLNG, TA_ASM and TA_ACT",
            again: b"task ? is there already, on line &",
        },
        Keyword::Semaphore => Told {
            marks: b"(n,{a,n,n});",
            form: b"CRE_SEM(id, {attributes, initial count, maximum});",
            attributes: b"TA_TFIFO and TA_TPRI",
            again: b"semaphore ? is there already, on line &",
        },
        Keyword::Flag => Told {
            marks: b"(n,{a,n});",
            form: b"CRE_FLG(id, {attributes, initial pattern});",
            attributes: b"TA_TFIFO, TA_TPRI, TA_WSGL, TA_WMUL and TA_CLR",
            again: b"event flag ? is there already, on line &",
        },
        Keyword::Queue => Told {
            marks: b"(n,{a,n,z});",
            form: b"CRE_DTQ(id, {attributes, capacity, area});",
            attributes: b"TA_TFIFO and TA_TPRI",
            again: b"data queue ? is there already, on line &",
        },
        Keyword::SpinLock => Told {
            marks: b"(n,{a});",
            form: b"CRE_SPN(id, {attributes});",
            attributes: b"none but TA_NULL",
            again: b"spin lock ? is there already, on line &",
        },
        Keyword::Mutex => Told {
            marks: b"(n,{p,n});",
            form: b"CRE_MTX(id, {protocol, ceiling});",
            attributes: b"TA_TFIFO, TA_TPRI, TA_INHERIT and TA_CEILING",
            again: b"mutex ? is there already, on line &",
        },
        Keyword::Pool => Told {
            marks: b"(n,{a,n,n,v});",
            form: b"CRE_MPF(id, {attributes, blocks, block size, area});",
            attributes: b"TA_TFIFO and TA_TPRI",
            again: b"fixed memory pool ? is there already, on line &",
        },
        Keyword::Mailbox => Told {
            marks: b"(n,{m,n,u});",
            form: b"CRE_MBX(id, {attributes, priorities, NULL});",
            attributes: b"TA_TFIFO, TA_TPRI, TA_MFIFO and TA_MPRI",
            again: b"mailbox ? is there already, on line &",
        },
        Keyword::Cyclic => Told {
            marks: b"(n,{t,v,v,n,n});",
            form: b"CRE_CYC(id, {attributes, exinf, handler, cyclic time, cyclic phase});",
            attributes: b"TA_HLNG, TA_ASM, TA_STA and TA_PHS",
            again: b"cyclic handler ? is there already, on line &",
        },
        Keyword::Alarm => Told {
            marks: b"(n,{a,v,v});",
            form: b"CRE_ALM(id, {attributes, exinf, handler});",
            attributes: b"TA_HLNG and TA_ASM",
            again: b"alarm handler ? is there already, on line &",
        },
        Keyword::Handler => Told {
            marks: b"(n,{a,v});",
            form: b"DEF_INH(line, {attributes, handler});",
            attributes: b"TA_HLNG and TA_ASM",
            again: b"interrupt line ? has a handler already, on line &",
        },
    }
}

/// The words that begin a statement.
pub(crate) const WORDS: &[u8] =
    b"there are BOARD, CLASS, CRE_TSK, CRE_SEM, CRE_FLG, CRE_DTQ, CRE_SPN and DEF_INH";

/// The words that begin a statement with the profile.
pub(crate) const WORDS_OF_THE_PROFILE: &[u8] =
    b"there are BOARD, CLASS, CRE_TSK, CRE_SEM, CRE_FLG, CRE_DTQ, \
CRE_SPN, CRE_MTX, CRE_MPF, CRE_MBX, CRE_CYC, CRE_ALM and DEF_INH";

/// What is said of statements that uITRON and TOPPERS have and this kernel hasn't: a line for those of which the same
/// is said. With the profile there are mutexes, fixed memory pools, mailboxes, cyclic handlers and alarm handlers.
pub(crate) const OTHERS: &[u8] = b"\
CRE_MTX: mutexes are there with PROFILE(STANDARD); before BOARD: else use CRE_SEM with a maximum of 1
CRE_CYC CRE_ALM: such handlers are there with PROFILE(STANDARD); before BOARD: else a task can wait by dly_tsk
DEF_OVR: no overrun handlers: a cyclic handler can see which task runs, by iget_tid
CRE_MBX: mailboxes are there with PROFILE(STANDARD); before BOARD: else use CRE_DTQ
CRE_MPF: fixed memory pools are there with PROFILE(STANDARD); before BOARD: else reserve memory in the program
CRE_MBF CRE_POR CRE_PDQ: of queues there are data queues: use CRE_DTQ
CRE_MPL: no memory pools of variable size: reserve memory in the program
CRE_ISR ATT_ISR CFG_INT DEF_INT: an interrupt line has one handler: use DEF_INH(line, {attributes, handler})
DEF_EXC DEF_TEX DEF_SVC DEF_ICS: no exception, task exception or extended service handlers
ATT_INI ATT_TER ATT_MOD ATT_REG ATT_SEC: no such call: a task with TA_ACT starts at boot
INCLUDE KERNEL_DOMAIN DOMAIN include define: no such statement: send the text through the C preprocessor first
";
