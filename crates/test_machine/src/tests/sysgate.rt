use brd_exec::Context;
use brd_isa::Register;
use brd_kernel::{Call, Ercd, Reply, Sensed};
use brd_sysgate::*;

/// A context with this number in $v0 and these arguments in $a0 to $a3.
fn asks(number: u32, a0: u32, a1: u32) -> Context {
    let mut context = Context::opening(0x8000_0000, a0, 0);
    context.write(Register::low(2), number);
    context.write(Register::low(5), a1);
    context.write(Register::low(6), 33);
    context.write(Register::low(7), 44);
    context
}

/// A task in its ordinary state.
const TASK: Agent = Agent::Task {
    id: 7,
    locked: false,
    disabled: false,
    holding: false,
};

const LOCKED: Agent = Agent::Task {
    id: 7,
    locked: true,
    disabled: false,
    holding: false,
};

/// A task whose processor holds a spin lock, and so is CPU-locked.
const HOLDING: Agent = Agent::Task {
    id: 7,
    locked: true,
    disabled: false,
    holding: true,
};

const DISABLED: Agent = Agent::Task {
    id: 7,
    locked: false,
    disabled: true,
    holding: false,
};

/// A handler in its ordinary state.
const HANDLER: Agent = Agent::Handler {
    locked: false,
    holding: false,
};

const LOCKED_HANDLER: Agent = Agent::Handler {
    locked: true,
    holding: false,
};

/// A handler whose processor holds a spin lock, and so is CPU-locked.
const HOLDING_HANDLER: Agent = Agent::Handler {
    locked: true,
    holding: true,
};

/// From where a call may come: from a task, a CPU-locked one, one whose processor holds a spin lock, one with
/// dispatching disabled; from a handler, a CPU-locked one, one whose processor holds a spin lock.
type Places = ((bool, bool, bool, bool), (bool, bool, bool));

const TASKS: Places = ((true, false, false, true), NONE);

const ALSO_LOCKED: Places = ((true, true, true, true), NONE);

const NOT_HOLDING: Places = ((true, true, false, true), NONE);

const WAITS: Places = ((true, false, false, false), NONE);

const NONE: (bool, bool, bool) = (false, false, false);

const HANDLERS: Places = (NO_TASK, (true, false, false));

const ALSO_LOCKED_HANDLERS: Places = (NO_TASK, (true, true, true));

const HANDLERS_NOT_HOLDING: Places = (NO_TASK, (true, true, false));

const NO_TASK: (bool, bool, bool, bool) = (false, false, false, false);

const ANYWHERE: Places = ((true, true, true, true), (true, true, true));

/// A call by its name and its arguments, with zeros after them.
type Named = (&'static str, [u32; 4]);

/// What an argument is that stands for no end.
const FOREVER: u32 = 0xffff_ffff;

/// Each number, from where its call may come, and which that is by the arguments 11, 22, 33, 44.
const NUMBERS: &[(u32, Places, Named)] = &[
    (1, TASKS, ("act_tsk", [11, 0, 0, 0])),
    (2, TASKS, ("can_act", [11, 0, 0, 0])),
    (3, ALSO_LOCKED, ("ext_tsk", [0, 0, 0, 0])),
    (4, TASKS, ("ter_tsk", [11, 0, 0, 0])),
    (5, TASKS, ("chg_pri", [11, 22, 0, 0])),
    (6, TASKS, ("get_pri", [11, 0, 0, 0])),
    (7, TASKS, ("mact_tsk", [11, 22, 0, 0])),
    (8, TASKS, ("mig_tsk", [11, 22, 0, 0])),
    (9, TASKS, ("get_pid", [0, 0, 0, 0])),
    (10, TASKS, ("rot_rdq", [11, 0, 0, 0])),
    (11, TASKS, ("get_tid", [0, 0, 0, 0])),
    (12, TASKS, ("dis_dsp", [0, 0, 0, 0])),
    (13, TASKS, ("ena_dsp", [0, 0, 0, 0])),
    (14, ALSO_LOCKED, ("loc_cpu", [0, 0, 0, 0])),
    (15, NOT_HOLDING, ("unl_cpu", [0, 0, 0, 0])),
    (16, WAITS, ("tslp_tsk", [FOREVER, 0, 0, 0])),
    (17, WAITS, ("tslp_tsk", [11, 0, 0, 0])),
    (18, TASKS, ("wup_tsk", [11, 0, 0, 0])),
    (19, TASKS, ("can_wup", [11, 0, 0, 0])),
    (20, TASKS, ("rel_wai", [11, 0, 0, 0])),
    (21, TASKS, ("sus_tsk", [11, 0, 0, 0])),
    (22, TASKS, ("rsm_tsk", [11, 0, 0, 0])),
    (23, WAITS, ("dly_tsk", [11, 0, 0, 0])),
    (24, TASKS, ("sig_sem", [11, 0, 0, 0])),
    (25, WAITS, ("twai_sem", [11, FOREVER, 0, 0])),
    (26, TASKS, ("twai_sem", [11, 0, 0, 0])),
    (27, WAITS, ("twai_sem", [11, 22, 0, 0])),
    (28, TASKS, ("set_flg", [11, 22, 0, 0])),
    (29, TASKS, ("clr_flg", [11, 22, 0, 0])),
    (30, WAITS, ("twai_flg", [11, 22, 33, FOREVER])),
    (31, TASKS, ("twai_flg", [11, 22, 33, 0])),
    (32, WAITS, ("twai_flg", [11, 22, 33, 44])),
    (33, WAITS, ("tsnd_dtq", [11, 22, FOREVER, 0])),
    (34, TASKS, ("tsnd_dtq", [11, 22, 0, 0])),
    (35, WAITS, ("tsnd_dtq", [11, 22, 33, 0])),
    (36, TASKS, ("fsnd_dtq", [11, 22, 0, 0])),
    (37, WAITS, ("trcv_dtq", [11, FOREVER, 0, 0])),
    (38, TASKS, ("trcv_dtq", [11, 0, 0, 0])),
    (39, WAITS, ("trcv_dtq", [11, 22, 0, 0])),
    (40, TASKS, ("put_chr", [11, 0, 0, 0])),
    (41, ALSO_LOCKED, ("ext_ker", [0, 0, 0, 0])),
    (48, HANDLERS, ("iact_tsk", [11, 0, 0, 0])),
    (49, HANDLERS, ("iwup_tsk", [11, 0, 0, 0])),
    (50, HANDLERS, ("rel_wai", [11, 0, 0, 0])),
    (51, HANDLERS, ("sig_sem", [11, 0, 0, 0])),
    (52, HANDLERS, ("set_flg", [11, 22, 0, 0])),
    (53, HANDLERS, ("tsnd_dtq", [11, 22, 0, 0])),
    (54, HANDLERS, ("fsnd_dtq", [11, 22, 0, 0])),
    (55, HANDLERS, ("irot_rdq", [11, 0, 0, 0])),
    (56, HANDLERS, ("get_tid", [0, 0, 0, 0])),
    (57, HANDLERS, ("imact_tsk", [11, 22, 0, 0])),
    (58, ALSO_LOCKED_HANDLERS, ("ret_int", [0, 0, 0, 0])),
    (60, TASKS, ("loc_spn", [11, 0, 0, 0])),
    (61, TASKS, ("try_spn", [11, 0, 0, 0])),
    (62, ALSO_LOCKED, ("unl_spn", [11, 0, 0, 0])),
];

/// The same of those of the profile.
const PROFILE_NUMBERS: &[(u32, Places, Named)] = &[
    (64, TASKS, ("get_tim", [0, 0, 0, 0])),
    (65, TASKS, ("set_tim", [11, 0, 0, 0])),
    (66, ANYWHERE, ("sns_ctx", [0, 0, 0, 0])),
    (67, ANYWHERE, ("sns_loc", [0, 0, 0, 0])),
    (68, ANYWHERE, ("sns_dsp", [0, 0, 0, 0])),
    (69, ANYWHERE, ("sns_dpn", [0, 0, 0, 0])),
    (70, TASKS, ("rsm_tsk", [11, 0, 0, 0])),
    (71, TASKS, ("mget_tid", [11, 0, 0, 0])),
    (72, TASKS, ("mrot_rdq", [11, 22, 0, 0])),
    (73, TASKS, ("ref_tsk", [11, 22, 0, 0])),
    (74, TASKS, ("ref_sem", [11, 22, 0, 0])),
    (75, TASKS, ("ref_flg", [11, 22, 0, 0])),
    (76, TASKS, ("ref_dtq", [11, 22, 0, 0])),
    (77, WAITS, ("tloc_mtx", [11, FOREVER, 0, 0])),
    (78, TASKS, ("tloc_mtx", [11, 0, 0, 0])),
    (79, WAITS, ("tloc_mtx", [11, 22, 0, 0])),
    (80, TASKS, ("unl_mtx", [11, 0, 0, 0])),
    (81, TASKS, ("ref_mtx", [11, 22, 0, 0])),
    (82, WAITS, ("tget_mpf", [11, FOREVER, 0, 0])),
    (83, TASKS, ("tget_mpf", [11, 0, 0, 0])),
    (84, WAITS, ("tget_mpf", [11, 22, 0, 0])),
    (85, TASKS, ("rel_mpf", [11, 22, 0, 0])),
    (86, TASKS, ("snd_mbx", [11, 22, 33, 0])),
    (87, HANDLERS, ("snd_mbx", [11, 22, 33, 0])),
    (88, WAITS, ("trcv_mbx", [11, FOREVER, 0, 0])),
    (89, TASKS, ("trcv_mbx", [11, 0, 0, 0])),
    (90, WAITS, ("trcv_mbx", [11, 22, 0, 0])),
    (91, TASKS, ("ref_mpf", [11, 22, 0, 0])),
    (92, TASKS, ("ref_mbx", [11, 22, 0, 0])),
    (93, TASKS, ("sta_cyc", [11, 0, 0, 0])),
    (94, TASKS, ("stp_cyc", [11, 0, 0, 0])),
    (95, TASKS, ("sta_alm", [11, 22, 0, 0])),
    (96, HANDLERS, ("sta_alm", [11, 22, 0, 0])),
    (97, TASKS, ("stp_alm", [11, 0, 0, 0])),
    (98, HANDLERS, ("stp_alm", [11, 0, 0, 0])),
    (99, TASKS, ("ref_cyc", [11, 22, 0, 0])),
    (100, TASKS, ("ref_alm", [11, 22, 0, 0])),
    (101, ALSO_LOCKED_HANDLERS, ("loc_cpu", [0, 0, 0, 0])),
    (102, HANDLERS_NOT_HOLDING, ("unl_cpu", [0, 0, 0, 0])),
    (103, HANDLERS, ("loc_spn", [11, 0, 0, 0])),
    (104, HANDLERS, ("try_spn", [11, 0, 0, 0])),
    (105, ALSO_LOCKED_HANDLERS, ("unl_spn", [11, 0, 0, 0])),
    (112, HANDLERS, ("get_pid", [0, 0, 0, 0])),
];

/// An agent of a board with the profile.
fn with_profile(agent: Agent) -> Caller {
    Caller {
        agent,
        standard: true,
    }
}

/// The name of a call.
fn name_of(call: Call) -> &'static str {
    match call {
        Call::ActTsk(_) => "act_tsk",
        Call::IactTsk(_) => "iact_tsk",
        Call::CanAct(_) => "can_act",
        Call::ExtTsk => "ext_tsk",
        Call::TerTsk(_) => "ter_tsk",
        Call::ChgPri(_, _) => "chg_pri",
        Call::GetPri(_) => "get_pri",
        Call::MactTsk(_, _) => "mact_tsk",
        Call::ImactTsk(_, _) => "imact_tsk",
        Call::MigTsk(_, _) => "mig_tsk",
        Call::GetPid => "get_pid",
        Call::RotRdq(_) => "rot_rdq",
        Call::IrotRdq(_) => "irot_rdq",
        Call::GetTid => "get_tid",
        Call::DisDsp => "dis_dsp",
        Call::EnaDsp => "ena_dsp",
        Call::LocCpu => "loc_cpu",
        Call::UnlCpu => "unl_cpu",
        Call::TslpTsk(_) => "tslp_tsk",
        Call::WupTsk(_) => "wup_tsk",
        Call::IwupTsk(_) => "iwup_tsk",
        Call::CanWup(_) => "can_wup",
        Call::RelWai(_) => "rel_wai",
        Call::SusTsk(_) => "sus_tsk",
        Call::RsmTsk(_) => "rsm_tsk",
        Call::DlyTsk(_) => "dly_tsk",
        Call::SigSem(_) => "sig_sem",
        Call::TwaiSem(_, _) => "twai_sem",
        Call::SetFlg(_, _) => "set_flg",
        Call::ClrFlg(_, _) => "clr_flg",
        Call::TwaiFlg(_, _, _, _) => "twai_flg",
        Call::TsndDtq(_, _, _) => "tsnd_dtq",
        Call::FsndDtq(_, _) => "fsnd_dtq",
        Call::TrcvDtq(_, _) => "trcv_dtq",
        Call::PutChr(_) => "put_chr",
        Call::ExtKer => "ext_ker",
        Call::RetInt => "ret_int",
        Call::LocSpn(_) => "loc_spn",
        Call::TrySpn(_) => "try_spn",
        Call::UnlSpn(_) => "unl_spn",
        Call::GetTim => "get_tim",
        Call::SetTim(_) => "set_tim",
        Call::Sns(Sensed::Context) => "sns_ctx",
        Call::Sns(Sensed::Locked) => "sns_loc",
        Call::Sns(Sensed::Disabled) => "sns_dsp",
        Call::Sns(Sensed::Pending) => "sns_dpn",
        Call::MgetTid(_) => "mget_tid",
        Call::MrotRdq(_, _) => "mrot_rdq",
        Call::RefTsk(_, _) => "ref_tsk",
        Call::RefSem(_, _) => "ref_sem",
        Call::RefFlg(_, _) => "ref_flg",
        Call::RefDtq(_, _) => "ref_dtq",
        Call::TlocMtx(_, _) => "tloc_mtx",
        Call::UnlMtx(_) => "unl_mtx",
        Call::RefMtx(_, _) => "ref_mtx",
        Call::TgetMpf(_, _) => "tget_mpf",
        Call::RelMpf(_, _) => "rel_mpf",
        Call::SndMbx(_, _, _) => "snd_mbx",
        Call::TrcvMbx(_, _) => "trcv_mbx",
        Call::RefMpf(_, _) => "ref_mpf",
        Call::RefMbx(_, _) => "ref_mbx",
        Call::StaCyc(_) => "sta_cyc",
        Call::StpCyc(_) => "stp_cyc",
        Call::StaAlm(_, _) => "sta_alm",
        Call::StpAlm(_) => "stp_alm",
        Call::RefCyc(_, _) => "ref_cyc",
        Call::RefAlm(_, _) => "ref_alm",
    }
}

/// The arguments of a call, with zeros after them.
fn arguments_of(call: Call) -> [u32; 4] {
    match call {
        Call::ActTsk(first)
        | Call::IactTsk(first)
        | Call::CanAct(first)
        | Call::TerTsk(first)
        | Call::GetPri(first)
        | Call::RotRdq(first)
        | Call::IrotRdq(first)
        | Call::TslpTsk(first)
        | Call::WupTsk(first)
        | Call::IwupTsk(first)
        | Call::CanWup(first)
        | Call::RelWai(first)
        | Call::SusTsk(first)
        | Call::RsmTsk(first)
        | Call::DlyTsk(first)
        | Call::SigSem(first)
        | Call::LocSpn(first)
        | Call::TrySpn(first)
        | Call::UnlSpn(first)
        | Call::SetTim(first)
        | Call::MgetTid(first)
        | Call::UnlMtx(first)
        | Call::StaCyc(first)
        | Call::StpCyc(first)
        | Call::StpAlm(first)
        | Call::PutChr(first) => [first, 0, 0, 0],
        Call::ChgPri(first, second)
        | Call::MactTsk(first, second)
        | Call::ImactTsk(first, second)
        | Call::MigTsk(first, second)
        | Call::TwaiSem(first, second)
        | Call::SetFlg(first, second)
        | Call::ClrFlg(first, second)
        | Call::FsndDtq(first, second)
        | Call::MrotRdq(first, second)
        | Call::RefTsk(first, second)
        | Call::RefSem(first, second)
        | Call::RefFlg(first, second)
        | Call::RefDtq(first, second)
        | Call::TlocMtx(first, second)
        | Call::RefMtx(first, second)
        | Call::TgetMpf(first, second)
        | Call::RelMpf(first, second)
        | Call::TrcvMbx(first, second)
        | Call::RefMpf(first, second)
        | Call::RefMbx(first, second)
        | Call::StaAlm(first, second)
        | Call::RefCyc(first, second)
        | Call::RefAlm(first, second)
        | Call::TrcvDtq(first, second) => [first, second, 0, 0],
        Call::TsndDtq(first, second, third) | Call::SndMbx(first, second, third) => {
            [first, second, third, 0]
        }
        Call::TwaiFlg(first, second, third, fourth) => [first, second, third, fourth],
        _ => [0; 4],
    }
}

/// Whether a number is read from an agent as this call, where it may come from there, and else as E_CTX.
fn is_read(number: u32, agent: Agent, may: bool, wanted: Named) -> bool {
    match read(&asks(number, 11, 22), with_profile(agent)) {
        Ok(call) => may && (name_of(call), arguments_of(call)) == wanted,
        Err(fault) => !may && fault == Ercd::Ctx,
    }
}

/// The first of these numbers that isn't read as it should be from somewhere.
fn first_wrong(numbers: &[(u32, Places, Named)]) -> Option<u32> {
    for (number, (tasks, handlers), call) in numbers {
        if !is_read_in_task(*number, *tasks, *call)
            || !is_read_in_handler(*number, *handlers, *call)
        {
            return Some(*number);
        }
    }
    None
}

/// Whether a number is read as this call from those tasks from which it may come.
fn is_read_in_task(number: u32, from: (bool, bool, bool, bool), call: Named) -> bool {
    let (task, locked, holding, disabled) = from;
    is_read(number, TASK, task, call)
        && is_read(number, LOCKED, locked, call)
        && is_read(number, HOLDING, holding, call)
        && is_read(number, DISABLED, disabled, call)
}

/// Whether a number is read as this call from those handlers from which it may come.
fn is_read_in_handler(number: u32, from: (bool, bool, bool), call: Named) -> bool {
    let (handler, locked, holding) = from;
    is_read(number, HANDLER, handler, call)
        && is_read(number, LOCKED_HANDLER, locked, call)
        && is_read(number, HOLDING_HANDLER, holding, call)
}

/// Each number with its call, and from where it may come.
#[test]
fn numbers(rt: HostRuntime) {
    assert!(rt; first_wrong(NUMBERS).is_none() && first_wrong(PROFILE_NUMBERS).is_none());
}

const NO_NUMBERS: &[u32] = &[
    0,
    42,
    43,
    44,
    45,
    46,
    47,
    59,
    63,
    106,
    111,
    115,
    0x101,
    0xffff_ffff,
];

/// Whether a number is no call's from an agent, with the profile or without.
fn is_none(number: u32, agent: Agent, standard: bool) -> bool {
    match read(&asks(number, 1, 1), Caller { agent, standard }) {
        Ok(_) => false,
        Err(fault) => fault == Ercd::Rsfn,
    }
}

/// Whether a number is no call's, whoever asks for it.
fn is_nowhere(number: u32, standard: bool) -> bool {
    is_none(number, TASK, standard)
        && is_none(number, LOCKED, standard)
        && is_none(number, HOLDING, standard)
        && is_none(number, DISABLED, standard)
        && is_none(number, HANDLER, standard)
        && is_none(number, LOCKED_HANDLER, standard)
        && is_none(number, HOLDING_HANDLER, standard)
}

/// The first of `NO_NUMBERS` that isn't refused from somewhere, with the profile; and the first one of the profile's
/// that isn't, without it.
fn first_known() -> Option<u32> {
    for number in NO_NUMBERS {
        if !is_nowhere(*number, true) || !is_nowhere(*number, false) {
            return Some(*number);
        }
    }
    for (number, _, _) in PROFILE_NUMBERS {
        if !is_nowhere(*number, false) {
            return Some(*number);
        }
    }
    None
}

#[test]
fn no_numbers(rt: HostRuntime) {
    assert!(rt; first_known().is_none());
}

/// Calls, the task that each names, and whether it may come with dispatching disabled.
const OF_ONESELF: &[(u32, u32, bool)] = &[
    (8, 0, false),
    (8, 7, false),
    (8, 8, true),
    (21, 0, false),
    (21, 7, false),
    (21, 8, true),
];

/// The first row of `OF_ONESELF` that isn't so.
fn first_wrong_of_oneself() -> Option<usize> {
    for (n, (number, named, may)) in OF_ONESELF.iter().enumerate() {
        let context = asks(*number, *named, 1);
        if read(&context, with_profile(DISABLED)).is_ok() != *may
            || read(&context, with_profile(TASK)).is_err()
        {
            return Some(n);
        }
    }
    None
}

/// With dispatching disabled nobody suspends or moves itself, named by 0 or by its number.
#[test]
fn of_oneself(rt: HostRuntime) {
    assert!(rt; first_wrong_of_oneself().is_none());
}

/// Whether a reply leaves these words in $v0 and $v1 of a context, and nothing else.
fn is_written(reply: Reply, v0: u32, v1: u32) -> bool {
    let mut context = asks(6, 11, 22);
    write(&mut context, reply);
    context.read(Register::low(2)) == v0
        && context.read(Register::low(3)) == v1
        && context.read(Register::low(4)) == 11
        && context.pc() == 0x8000_0000
}

#[test]
fn replies(rt: HostRuntime) {
    assert!(rt;
        is_written(Reply::Silent, 6, 0)
            && is_written(Reply::Again, 6, 0)
            && is_written(Reply::Answer(0xffff_fff6, None), 0xffff_fff6, 0)
            && is_written(Reply::Answer(0, Some(9)), 0, 9)
    );
}
