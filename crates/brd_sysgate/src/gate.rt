//! Reading a service call from the registers, and writing its answer to them.

ghost use Rattle.std.specs.Prelude.{◌≡◌, option_map};
ghost use Rattle.brd_sysgate.specs.Gate.{
  asked,
  asked_in,
  name_of,
  name_in,
  plain_table,
  profile_table,
  table_of,
  may_call,
  is_oneself,
  read_of,
  written,
};

use crate::place::{Asked, Place, Service};
use brd_exec::Context;
use brd_isa::Register;
use brd_kernel::{Call, Ercd, Reply, Sensed};
use brd_tasks::{TaskId, answer};

/// The timeout of a call that waits without an end (TMO_FEVR, -1).
const FOREVER: u32 = 0xffff_ffff;

/// The timeout of a call that only polls (TMO_POL).
const POLL: u32 = 0;

/// Who makes a service call, and of which board.
#[derive(Clone, Copy, PartialEq, Eq)]
pub struct Caller {
    /// Who executes there.
    pub agent: Agent,
    /// Whether the board's kernel has the profile.
    pub standard: bool,
}

/// A task or a handler that makes a service call.
#[derive(Clone, Copy, PartialEq, Eq)]
pub enum Agent {
    /// The running task.
    Task {
        /// Its number.
        id: TaskId,
        /// Whether its processor is CPU-locked.
        locked: bool,
        /// Whether dispatching is disabled on its processor.
        disabled: bool,
        /// Whether its processor holds a spin lock.
        holding: bool,
    },
    /// An interrupt handler.
    Handler {
        /// Whether its processor is CPU-locked.
        locked: bool,
        /// Whether its processor holds a spin lock.
        holding: bool,
    },
}

/// The call that a context asks for: its number is in $v0, its arguments are in $a0 to $a3. An unknown number is
/// E_RSFN; a call that may not come from this caller is E_CTX.
pub fn read(context: &Context, caller: Caller) -> Result<Call, Ercd>
    ensures { result ≡ read_of context.now caller }
{
    let arguments = [
        context.read(Register::low(4)),
        context.read(Register::low(5)),
        context.read(Register::low(6)),
        context.read(Register::low(7)),
    ];
    let Some(service) = service_there(caller.standard, context.read(Register::low(2)), arguments)
    else {
        return Err(Ercd::Rsfn);
    };
    if !may_call(caller.agent, service.asked.place, arguments[0]) {
        return Err(Ercd::Ctx);
    }
    Ok(service.asked.call)
}

/// Writes a reply to the caller's registers.
pub fn write(context: &mut Context, reply: Reply)
    ensures { context.new ≡ written context.old reply }
{
    if let Reply::Answer(code, second) = reply {
        answer(context, code, second);
    }
}

/// The service of a number, with the profile or without.
fn service_there(standard: bool, number: u32, arguments: [u32; 4]) -> Option<Service>
    ensures { option_map (λ s. s.asked) result ≡ asked_in (table_of standard) number arguments }
{
    if standard {
        return service(number, arguments);
    }
    plain_service(number, arguments)
}

/// The service of a number, also one of the profile, as it is asked for with these arguments.
#[tactic(auto, using(crate::proofs::TableLemmas::asked_more, crate::proofs::TableLemmas::named_more))]
pub fn service(number: u32, arguments: [u32; 4]) -> Option<Service>
    ensures is { option_map (λ s. s.asked) result ≡ asked number arguments }
    ensures named { option_map (λ s. (s.name.now, s.takes)) result ≡ name_of number }
{
    match plain_service(number, arguments) {
        Some(service) => Some(service),
        None => profile_service(number, arguments),
    }
}

/// The service of a number that every board has.
fn plain_service(number: u32, arguments: [u32; 4]) -> Option<Service>
    ensures is { option_map (λ s. s.asked) result ≡ asked_in plain_table number arguments }
    ensures named { option_map (λ s. (s.name.now, s.takes)) result ≡ name_in plain_table number }
{
    let [a0, a1, a2, a3] = arguments;
    let (name, takes, place, call): (&'static [u8], u8, Place, Call) = match number {
        1 => (b"act_tsk", 1, Place::Task, Call::ActTsk(a0)),
        2 => (b"can_act", 1, Place::Task, Call::CanAct(a0)),
        3 => (b"ext_tsk", 0, Place::LockedTask, Call::ExtTsk),
        4 => (b"ter_tsk", 1, Place::Task, Call::TerTsk(a0)),
        5 => (b"chg_pri", 2, Place::Task, Call::ChgPri(a0, a1)),
        6 => (b"get_pri", 1, Place::Task, Call::GetPri(a0)),
        7 => (b"mact_tsk", 2, Place::Task, Call::MactTsk(a0, a1)),
        8 => (b"mig_tsk", 2, Place::OnTask, Call::MigTsk(a0, a1)),
        9 => (b"get_pid", 0, Place::Task, Call::GetPid),
        10 => (b"rot_rdq", 1, Place::Task, Call::RotRdq(a0)),
        11 => (b"get_tid", 0, Place::Task, Call::GetTid),
        12 => (b"dis_dsp", 0, Place::Task, Call::DisDsp),
        13 => (b"ena_dsp", 0, Place::Task, Call::EnaDsp),
        14 => (b"loc_cpu", 0, Place::LockedTask, Call::LocCpu),
        15 => (b"unl_cpu", 0, Place::NotHolding, Call::UnlCpu),
        16 => (b"slp_tsk", 0, Place::Waiting, Call::TslpTsk(FOREVER)),
        17 => (b"tslp_tsk", 1, Place::Waiting, Call::TslpTsk(a0)),
        18 => (b"wup_tsk", 1, Place::Task, Call::WupTsk(a0)),
        19 => (b"can_wup", 1, Place::Task, Call::CanWup(a0)),
        20 => (b"rel_wai", 1, Place::Task, Call::RelWai(a0)),
        21 => (b"sus_tsk", 1, Place::OnTask, Call::SusTsk(a0)),
        22 => (b"rsm_tsk", 1, Place::Task, Call::RsmTsk(a0)),
        23 => (b"dly_tsk", 1, Place::Waiting, Call::DlyTsk(a0)),
        24 => (b"sig_sem", 1, Place::Task, Call::SigSem(a0)),
        25 => (b"wai_sem", 1, Place::Waiting, Call::TwaiSem(a0, FOREVER)),
        26 => (b"pol_sem", 1, Place::Task, Call::TwaiSem(a0, POLL)),
        27 => (b"twai_sem", 2, Place::Waiting, Call::TwaiSem(a0, a1)),
        28 => (b"set_flg", 2, Place::Task, Call::SetFlg(a0, a1)),
        29 => (b"clr_flg", 2, Place::Task, Call::ClrFlg(a0, a1)),
        30 => (
            b"wai_flg",
            3,
            Place::Waiting,
            Call::TwaiFlg(a0, a1, a2, FOREVER),
        ),
        31 => (b"pol_flg", 3, Place::Task, Call::TwaiFlg(a0, a1, a2, POLL)),
        32 => (
            b"twai_flg",
            4,
            Place::Waiting,
            Call::TwaiFlg(a0, a1, a2, a3),
        ),
        33 => (
            b"snd_dtq",
            2,
            Place::Waiting,
            Call::TsndDtq(a0, a1, FOREVER),
        ),
        34 => (b"psnd_dtq", 2, Place::Task, Call::TsndDtq(a0, a1, POLL)),
        35 => (b"tsnd_dtq", 3, Place::Waiting, Call::TsndDtq(a0, a1, a2)),
        36 => (b"fsnd_dtq", 2, Place::Task, Call::FsndDtq(a0, a1)),
        37 => (b"rcv_dtq", 1, Place::Waiting, Call::TrcvDtq(a0, FOREVER)),
        38 => (b"prcv_dtq", 1, Place::Task, Call::TrcvDtq(a0, POLL)),
        39 => (b"trcv_dtq", 2, Place::Waiting, Call::TrcvDtq(a0, a1)),
        40 => (b"put_chr", 1, Place::Task, Call::PutChr(a0)),
        41 => (b"ext_ker", 0, Place::LockedTask, Call::ExtKer),
        48 => (b"iact_tsk", 1, Place::Handler, Call::IactTsk(a0)),
        49 => (b"iwup_tsk", 1, Place::Handler, Call::IwupTsk(a0)),
        50 => (b"irel_wai", 1, Place::Handler, Call::RelWai(a0)),
        51 => (b"isig_sem", 1, Place::Handler, Call::SigSem(a0)),
        52 => (b"iset_flg", 2, Place::Handler, Call::SetFlg(a0, a1)),
        53 => (b"ipsnd_dtq", 2, Place::Handler, Call::TsndDtq(a0, a1, POLL)),
        54 => (b"ifsnd_dtq", 2, Place::Handler, Call::FsndDtq(a0, a1)),
        55 => (b"irot_rdq", 1, Place::Handler, Call::IrotRdq(a0)),
        56 => (b"iget_tid", 0, Place::Handler, Call::GetTid),
        57 => (b"imact_tsk", 2, Place::Handler, Call::ImactTsk(a0, a1)),
        58 => (b"ret_int", 0, Place::LockedHandler, Call::RetInt),
        60 => (b"loc_spn", 1, Place::Task, Call::LocSpn(a0)),
        61 => (b"try_spn", 1, Place::Task, Call::TrySpn(a0)),
        62 => (b"unl_spn", 1, Place::LockedTask, Call::UnlSpn(a0)),
        _ => return None,
    };
    let asked = Asked { place, call };
    Some(Service { name, takes, asked })
}

/// The service of a number that a board has with the profile alone.
fn profile_service(number: u32, arguments: [u32; 4]) -> Option<Service>
    ensures is { option_map (λ s. s.asked) result ≡ asked_in profile_table number arguments }
    ensures named { option_map (λ s. (s.name.now, s.takes)) result ≡ name_in profile_table number }
{
    let [a0, a1, a2, _] = arguments;
    let (name, takes, place, call): (&'static [u8], u8, Place, Call) = match number {
        64 => (b"get_tim", 0, Place::Task, Call::GetTim),
        65 => (b"set_tim", 1, Place::Task, Call::SetTim(a0)),
        66 => (b"sns_ctx", 0, Place::Anywhere, Call::Sns(Sensed::Context)),
        67 => (b"sns_loc", 0, Place::Anywhere, Call::Sns(Sensed::Locked)),
        68 => (b"sns_dsp", 0, Place::Anywhere, Call::Sns(Sensed::Disabled)),
        69 => (b"sns_dpn", 0, Place::Anywhere, Call::Sns(Sensed::Pending)),
        70 => (b"frsm_tsk", 1, Place::Task, Call::RsmTsk(a0)),
        71 => (b"mget_tid", 1, Place::Task, Call::MgetTid(a0)),
        72 => (b"mrot_rdq", 2, Place::Task, Call::MrotRdq(a0, a1)),
        73 => (b"ref_tsk", 2, Place::Task, Call::RefTsk(a0, a1)),
        74 => (b"ref_sem", 2, Place::Task, Call::RefSem(a0, a1)),
        75 => (b"ref_flg", 2, Place::Task, Call::RefFlg(a0, a1)),
        76 => (b"ref_dtq", 2, Place::Task, Call::RefDtq(a0, a1)),
        77 => (b"loc_mtx", 1, Place::Waiting, Call::TlocMtx(a0, FOREVER)),
        78 => (b"ploc_mtx", 1, Place::Task, Call::TlocMtx(a0, POLL)),
        79 => (b"tloc_mtx", 2, Place::Waiting, Call::TlocMtx(a0, a1)),
        80 => (b"unl_mtx", 1, Place::Task, Call::UnlMtx(a0)),
        81 => (b"ref_mtx", 2, Place::Task, Call::RefMtx(a0, a1)),
        82 => (b"get_mpf", 1, Place::Waiting, Call::TgetMpf(a0, FOREVER)),
        83 => (b"pget_mpf", 1, Place::Task, Call::TgetMpf(a0, POLL)),
        84 => (b"tget_mpf", 2, Place::Waiting, Call::TgetMpf(a0, a1)),
        85 => (b"rel_mpf", 2, Place::Task, Call::RelMpf(a0, a1)),
        86 => (b"snd_mbx", 3, Place::Task, Call::SndMbx(a0, a1, a2)),
        87 => (b"isnd_mbx", 3, Place::Handler, Call::SndMbx(a0, a1, a2)),
        88 => (b"rcv_mbx", 1, Place::Waiting, Call::TrcvMbx(a0, FOREVER)),
        89 => (b"prcv_mbx", 1, Place::Task, Call::TrcvMbx(a0, POLL)),
        90 => (b"trcv_mbx", 2, Place::Waiting, Call::TrcvMbx(a0, a1)),
        91 => (b"ref_mpf", 2, Place::Task, Call::RefMpf(a0, a1)),
        92 => (b"ref_mbx", 2, Place::Task, Call::RefMbx(a0, a1)),
        93 => (b"sta_cyc", 1, Place::Task, Call::StaCyc(a0)),
        94 => (b"stp_cyc", 1, Place::Task, Call::StpCyc(a0)),
        95 => (b"sta_alm", 2, Place::Task, Call::StaAlm(a0, a1)),
        96 => (b"ista_alm", 2, Place::Handler, Call::StaAlm(a0, a1)),
        97 => (b"stp_alm", 1, Place::Task, Call::StpAlm(a0)),
        98 => (b"istp_alm", 1, Place::Handler, Call::StpAlm(a0)),
        99 => (b"ref_cyc", 2, Place::Task, Call::RefCyc(a0, a1)),
        100 => (b"ref_alm", 2, Place::Task, Call::RefAlm(a0, a1)),
        101 => (b"iloc_cpu", 0, Place::LockedHandler, Call::LocCpu),
        102 => (b"iunl_cpu", 0, Place::NotHoldingHandler, Call::UnlCpu),
        103 => (b"iloc_spn", 1, Place::Handler, Call::LocSpn(a0)),
        104 => (b"itry_spn", 1, Place::Handler, Call::TrySpn(a0)),
        105 => (b"iunl_spn", 1, Place::LockedHandler, Call::UnlSpn(a0)),
        112 => (b"iget_pid", 0, Place::Handler, Call::GetPid),
        _ => return None,
    };
    let asked = Asked { place, call };
    Some(Service { name, takes, asked })
}

/// Whether a call of that place may come from an agent. `named` is the call's first argument.
#[tactic(auto, unfolding(crate::specs::Gate::is_oneself))]
fn may_call(agent: Agent, place: Place, named: u32) -> bool
    ensures { result ≡ may_call agent place named }
{
    match agent {
        Agent::Handler { locked, holding } => match place {
            Place::Handler => !locked,
            Place::LockedHandler | Place::Anywhere => true,
            Place::NotHoldingHandler => !holding,
            Place::Task | Place::LockedTask | Place::NotHolding | Place::Waiting | Place::OnTask =>
                false,
        },
        Agent::Task {
            id,
            locked,
            disabled,
            holding,
        } => match place {
            Place::Task => !locked,
            Place::LockedTask | Place::Anywhere => true,
            Place::NotHolding => !holding,
            Place::Waiting => !locked && !disabled,
            Place::OnTask => !locked && !(disabled && is_oneself(id, named)),
            Place::Handler | Place::LockedHandler | Place::NotHoldingHandler => false,
        },
    }
}

/// Whether a task is named, by 0 or by its number.
#[tactic(auto, unfolding(crate::specs::Gate::is_oneself))]
fn is_oneself(id: TaskId, named: u32) -> bool
    ensures { result ≡ is_oneself id named }
{
    named == 0 || named == id as u32
}
