//! The answers of service calls.

use crate::service::{SaidCall, Shown, put_value};
use brd_base::NoMemory;
use brd_happening::Release;
use brd_names::{put, put_signed};
use brd_sysgate::service;
use std::alloc::Global;

/// The name of an answer that is no count (uITRON 4.0 specification, "Main Error Codes").
pub fn error_name(code: u32) -> Option<&'static str> {
    match code {
        0 => Some("E_OK"),
        0xffff_fff6 => Some("E_RSFN"),
        0xffff_ffef => Some("E_PAR"),
        0xffff_ffee => Some("E_ID"),
        0xffff_ffe7 => Some("E_CTX"),
        0xffff_ffe4 => Some("E_ILUSE"),
        0xffff_ffd7 => Some("E_OBJ"),
        0xffff_ffd6 => Some("E_NOEXS"),
        0xffff_ffd5 => Some("E_QOVR"),
        0xffff_ffcf => Some("E_RLWAI"),
        0xffff_ffce => Some("E_TMOUT"),
        _ => None,
    }
}

/// Where a call of this number may not come from, and which one to make there, where that is said of E_CTX.
fn context_advice(number: u32) -> Option<&'static str> {
    let advice = match number {
        1 => "not from a handler, which calls iact_tsk, nor with the CPU locked",
        7 => "not from a handler, which calls imact_tsk, nor with the CPU locked",
        10 => "not from a handler, which calls irot_rdq, nor with the CPU locked",
        11 => "not from a handler, which calls iget_tid, nor with the CPU locked",
        18 => "not from a handler, which calls iwup_tsk, nor with the CPU locked",
        20 => "not from a handler, which calls irel_wai, nor with the CPU locked",
        24 => "not from a handler, which calls isig_sem, nor with the CPU locked",
        28 => "not from a handler, which calls iset_flg, nor with the CPU locked",
        86 => "not from a handler, which calls isnd_mbx, nor with the CPU locked",
        95 => "not from a handler, which calls ista_alm, nor with the CPU locked",
        97 => "not from a handler, which calls istp_alm, nor with the CPU locked",
        34 => "not from a handler, which calls ipsnd_dtq, nor with the CPU locked",
        36 => "not from a handler, which calls ifsnd_dtq, nor with the CPU locked",
        3 => "not from a handler, which ends by ret_int",
        16 | 17 | 23 | 25 | 27 | 30 | 32 | 33 | 35 | 37 | 39 | 77 | 79 | 82 | 84 | 88 | 90 => {
            "it may wait: not from a handler, nor with the CPU locked or dispatching disabled"
        }
        2
        | 4..=6
        | 8
        | 12
        | 13
        | 19
        | 21
        | 22
        | 26
        | 29
        | 31
        | 38
        | 40
        | 64
        | 65
        | 70..=76
        | 78
        | 80
        | 81
        | 83
        | 85
        | 89
        | 91
        | 92
        | 93
        | 94
        | 99
        | 100 => { "not from a handler, nor with the CPU locked" }
        9 => {
            "not from a handler, which calls iget_pid with PROFILE(STANDARD), nor with the CPU locked"
        }
        60 => {
            "not from a handler, which calls iloc_spn with PROFILE(STANDARD), nor with the CPU locked"
        }
        61 => {
            "not from a handler, which calls itry_spn with PROFILE(STANDARD), nor with the CPU locked"
        }
        15 => {
            "not from a handler, which calls iunl_cpu with PROFILE(STANDARD), nor with a spin lock held"
        }
        14 => "not from a handler, which calls iloc_cpu with PROFILE(STANDARD)",
        62 => "not from a handler, which calls iunl_spn with PROFILE(STANDARD)",
        41 => "not from a handler",
        48 => "from a handler alone, not with the CPU locked: a task calls act_tsk",
        49 => "from a handler alone, not with the CPU locked: a task calls wup_tsk",
        50 => "from a handler alone, not with the CPU locked: a task calls rel_wai",
        51 => "from a handler alone, not with the CPU locked: a task calls sig_sem",
        52 => "from a handler alone, not with the CPU locked: a task calls set_flg",
        53 => "from a handler alone, not with the CPU locked: a task calls psnd_dtq",
        54 => "from a handler alone, not with the CPU locked: a task calls fsnd_dtq",
        55 => "from a handler alone, not with the CPU locked: a task calls rot_rdq",
        56 => "from a handler alone, not with the CPU locked: a task calls get_tid",
        57 => "from a handler alone, not with the CPU locked: a task calls mact_tsk",
        58 => "from a handler alone: a task ends by ext_tsk",
        87 => "from a handler alone, not with the CPU locked: a task calls snd_mbx",
        96 => "from a handler alone, not with the CPU locked: a task calls sta_alm",
        98 => "from a handler alone, not with the CPU locked: a task calls stp_alm",
        101 => "from a handler alone: a task calls loc_cpu",
        102 => "from a handler alone, not with a spin lock held: a task calls unl_cpu",
        103 => "from a handler alone, not with the CPU locked: a task calls loc_spn",
        104 => "from a handler alone, not with the CPU locked: a task calls try_spn",
        105 => "from a handler alone: a task calls unl_spn",
        112 => "from a handler alone, not with the CPU locked: a task calls get_pid",
        _ => return None,
    };
    Some(advice)
}

/// The number of `isig_tim` of other kernels: an answer of E_RSFN here.
const ISIG_TIM: u32 = 115;

/// Why there is no call of this number, where that is said of E_RSFN.
fn missing_advice(number: u32) -> Option<&'static str> {
    if number == ISIG_TIM {
        return Some("isig_tim isn't needed: ticks are events of the journal");
    }
    if service(number, [0; 4]).is_none() {
        return None;
    }
    Some("the configuration has no PROFILE(STANDARD)")
}

/// What is said of a call of this number that was refused with this answer: where it may not come from, and which one
/// to make there, or why there is none.
pub fn refusal_advice(code: u32, number: u32) -> Option<&'static str> {
    match error_name(code) {
        Some("E_CTX") => context_advice(number),
        Some("E_RSFN") => missing_advice(number),
        _ => None,
    }
}

/// A call that was answered.
#[derive(Clone, Copy)]
pub struct Answered {
    /// The call.
    pub call: SaidCall,
    /// $v0.
    pub code: u32,
    /// $v1.
    pub second: u32,
}

impl Answered {
    /// The call of a task whose wait has ended.
    pub fn of(release: &Release) -> Answered {
        Answered {
            call: SaidCall {
                asked: release.asked,
            },
            code: release.code,
            second: release.second,
        }
    }

    /// Whether the call was refused, or ended without what was waited for.
    pub fn is_error(self) -> bool {
        self.code >= 0x8000_0000
    }

    /// Puts the answer at the end.
    pub fn put_answer(self, alloc: Global, out: &mut Vec<u8>) -> Result<(), NoMemory> {
        put(out, " = ")?;
        if self.call.counts() && !self.is_error() {
            return put_signed(alloc, out, self.code);
        }
        match error_name(self.code) {
            Some(name) => put(out, name)?,
            None => put_signed(alloc, out, self.code)?,
        }
        let second = self.call.second();
        if self.code != 0 || second == Shown::Nothing {
            return Ok(());
        }
        put(out, " with ")?;
        put_value(alloc, out, second, self.second)
    }
}
