//! The service calls, each as its row of the table says.

ghost use Rattle.std.specs.Prelude.{◌≡◌, ◌<◌, false, true, IfErr, IfOk};
ghost use Rattle.brd_tasks.specs.Tasks.{task_at};
ghost use Rattle.brd_kernel.specs.declared.call.Ercd.TheVariants.{Id, Noexs};
ghost use Rattle.brd_kernel.specs.Row.{Serves, served, or_fault};
ghost use Rattle.brd_kernel.specs.Services as table;
ghost use Rattle.brd_kernel.specs.Services.{
  is_no_id,
  named,
  has_request,
  is_held_elsewhere,
  is_asleep,
  priority_or_initial,
  serve_by,
  caller_on,
  serve_of,
};

use super::waits::is_bad_timeout;
use super::{CONSOLE_SIZE, Kernel, is_same_task};
use crate::call::{Call, Ercd, Reply};
use brd_tasks::{Request, Status, Task, TaskId, WaitReason};

/// E_OK.
pub(super) const OK: Reply = Reply::Answer(0, None);

/// How long dly_tsk may wait at most.
pub(super) const LONGEST_DELAY: u32 = 0x7fff_ffff;

impl Kernel {
    /// Does a service call that comes from a processor.
    pub fn serve(&mut self, cpu: u8, call: Call) -> Reply
        ensures { record { kernel = self.new; reply = result } ≡ serve_of self.old cpu call }
    {
        let caller = self.caller(cpu);
        match self.serve_by(cpu, caller, call) {
            Ok(reply) => {
                self.prioritize_after(reply);
                reply
            }
            Err(code) => Reply::Answer(code.word(), None),
        }
    }

    /// The number of the running task of a processor; 0 where none runs.
    pub fn caller(&self, cpu: u8) -> TaskId
        ensures is { result ≡ caller_on self.now cpu }
        ensures small { result < 256 }
    {
        match self.running(cpu) {
            Some(id) => id,
            None => 0,
        }
    }

    /// Does a service call, or says why not.
    fn serve_by(&mut self, cpu: u8, caller: TaskId, call: Call) -> Result<Reply, Ercd>
        requires { caller < 256 }
        ensures { Serves self.old self.new result (serve_by self.old cpu caller call) }
    {
        match call {
            Call::ActTsk(id) => self.act_tsk(named(id, caller)),
            Call::IactTsk(id) => self.act_tsk(id),
            Call::CanAct(id) => self.can_act(named(id, caller)),
            Call::ExtTsk => self.ext_tsk(cpu, caller),
            Call::TerTsk(id) => self.ter_tsk(cpu, caller, id),
            Call::ChgPri(id, priority) => self.chg_pri(named(id, caller), priority),
            Call::GetPri(id) => self.get_pri(named(id, caller)),
            Call::MactTsk(id, to) => self.mact_tsk(named(id, caller), to),
            Call::ImactTsk(id, to) => self.mact_tsk(id, to),
            Call::MigTsk(id, to) => self.mig_tsk(cpu, named(id, caller), to),
            Call::GetPid => Ok(Reply::Answer(0, Some(cpu as u32))),
            Call::RotRdq(priority) => self.rot_rdq(cpu, caller, priority),
            Call::IrotRdq(priority) => self.irot_rdq(cpu, priority),
            Call::GetTid => Ok(Reply::Answer(0, Some(caller as u32))),
            Call::DisDsp => self.mark_dsp(cpu, true),
            Call::EnaDsp => self.mark_dsp(cpu, false),
            Call::LocCpu => self.mark_cpu(cpu, true),
            Call::UnlCpu => self.mark_cpu(cpu, false),
            Call::TslpTsk(timeout) => self.tslp_tsk(caller, timeout),
            Call::WupTsk(id) => self.wup_tsk(named(id, caller)),
            Call::IwupTsk(id) => self.wup_tsk(id),
            Call::CanWup(id) => self.can_wup(named(id, caller)),
            Call::RelWai(id) => self.rel_wai(id),
            Call::SusTsk(id) => self.sus_tsk(cpu, named(id, caller)),
            Call::RsmTsk(id) => self.rsm_tsk(id),
            Call::DlyTsk(time) => self.dly_tsk(caller, time),
            Call::SigSem(id) => self.sig_sem(id),
            Call::TwaiSem(id, timeout) => self.twai_sem(caller, id, timeout),
            Call::SetFlg(id, bits) => self.set_flg(id, bits),
            Call::ClrFlg(id, bits) => self.clr_flg(id, bits),
            Call::TwaiFlg(id, bits, mode, timeout) => self.twai_flg(
                caller, id, bits, mode, timeout,
            ),
            Call::TsndDtq(id, datum, timeout) => self.tsnd_dtq(caller, id, datum, timeout),
            Call::FsndDtq(id, datum) => self.fsnd_dtq(id, datum),
            Call::TrcvDtq(id, timeout) => self.trcv_dtq(caller, id, timeout),
            Call::PutChr(word) => self.put_chr(word),
            Call::ExtKer => self.ext_ker(),
            Call::RetInt => self.ret_int(cpu),
            Call::LocSpn(id) => self.loc_spn(cpu, id),
            Call::TrySpn(id) => self.try_spn(cpu, id),
            Call::UnlSpn(id) => self.unl_spn(cpu, id),
            Call::GetTim => Ok(Reply::Answer(0, Some(self.system_time()))),
            Call::SetTim(time) => self.set_tim(time),
            Call::Sns(what) => self.sns(cpu, what),
            Call::MgetTid(on) => self.mget_tid(on),
            Call::MrotRdq(priority, on) => self.mrot_rdq(caller, priority, on),
            Call::RefTsk(id, word) => self.ref_tsk(named(id, caller), word),
            Call::RefSem(id, word) => self.ref_sem(id, word),
            Call::RefFlg(id, word) => self.ref_flg(id, word),
            Call::RefDtq(id, word) => self.ref_dtq(id, word),
            Call::TlocMtx(id, timeout) => self.tloc_mtx(caller, id, timeout),
            Call::UnlMtx(id) => self.unl_mtx(caller, id),
            Call::RefMtx(id, word) => self.ref_mtx(id, word),
            Call::TgetMpf(id, timeout) => self.tget_mpf(caller, id, timeout),
            Call::RelMpf(id, block) => self.rel_mpf(id, block),
            Call::SndMbx(id, message, priority) => self.snd_mbx(id, message, priority),
            Call::TrcvMbx(id, timeout) => self.trcv_mbx(caller, id, timeout),
            Call::RefMpf(id, word) => self.ref_mpf(id, word),
            Call::RefMbx(id, word) => self.ref_mbx(id, word),
            Call::StaCyc(id) => self.sta_cyc(id),
            Call::StpCyc(id) => self.stp_cyc(id),
            Call::StaAlm(id, time) => self.sta_alm(id, time),
            Call::StpAlm(id) => self.stp_alm(id),
            Call::RefCyc(id, word) => self.ref_cyc(id, word),
            Call::RefAlm(id, word) => self.ref_alm(id, word),
        }
    }

    fn act_tsk(&mut self, id: u32) -> Result<Reply, Ercd>
        ensures { Serves self.old self.new result (served (table.act_tsk self.old id)) }
    {
        let id = id_in_range(id)?;
        let task = self.named_task(id)?;
        if has_request(task) {
            return Err(Ercd::Qovr);
        }
        self.common.tasks.activate(id, Request::Assigned);
        Ok(OK)
    }

    fn can_act(&mut self, id: u32) -> Result<Reply, Ercd>
        ensures { Serves self.old self.new result (served (table.can_act self.old id)) }
    {
        let id = id_in_range(id)?;
        let task = self.named_task(id)?;
        self.common.tasks.clear_activation(id);
        if task.activation.is_some() {
            return Ok(Reply::Answer(1, None));
        }
        Ok(Reply::Answer(0, None))
    }

    #[tactic(auto, using(crate::proofs::SameLemmas::quits_processor))]
    fn ext_tsk(&mut self, cpu: u8, caller: TaskId) -> Result<Reply, Ercd>
        requires { caller < 256 }
        ensures { Serves self.old self.new result (served (table.ext_tsk self.old cpu caller)) }
    {
        let _ = self.named_task(caller)?;
        self.quit(caller);
        self.unmark(cpu);
        Ok(Reply::Silent)
    }

    fn ter_tsk(&mut self, cpu: u8, caller: TaskId, id: u32) -> Result<Reply, Ercd>
        ensures { Serves self.old self.new result (served (table.ter_tsk self.old cpu caller id)) }
    {
        let id = id_in_range(id)?;
        let task = self.named_task(id)?;
        if id == caller {
            return Err(Ercd::Iluse);
        }
        if task.status.is_dormant() || self.is_held_elsewhere(cpu, id, task) {
            return Err(Ercd::Obj);
        }
        self.quit(id);
        Ok(OK)
    }

    fn chg_pri(&mut self, id: u32, priority: u32) -> Result<Reply, Ercd>
        ensures { Serves self.old self.new result (served (table.chg_pri self.old id priority)) }
    {
        let id = id_in_range(id)?;
        if priority > 16 {
            return Err(Ercd::Par);
        }
        let task = self.named_task(id)?;
        let priority = priority_or_initial(priority as u8, task);
        if self.is_over_ceiling(id, priority, task.status.waiting()) {
            return Err(Ercd::Iluse);
        }
        if task.status.is_dormant() {
            return Err(Ercd::Obj);
        }
        self.common.tasks.set_priority(id, priority);
        self.reorder(id, priority, task.status.waiting());
        Ok(OK)
    }

    fn get_pri(&self, id: u32) -> Result<Reply, Ercd>
        ensures { Serves self.now self.now result (served (table.get_pri self.now id)) }
    {
        let id = id_in_range(id)?;
        let task = self.named_task(id)?;
        if task.status.is_dormant() {
            return Err(Ercd::Obj);
        }
        Ok(Reply::Answer(0, Some(task.priority as u32)))
    }

    fn tslp_tsk(&mut self, caller: TaskId, timeout: u32) -> Result<Reply, Ercd>
        requires { caller < 256 }
        ensures { Serves self.old self.new result (served (table.tslp_tsk self.old caller timeout)) }
    {
        if is_bad_timeout(timeout) {
            return Err(Ercd::Par);
        }
        let task = self.named_task(caller)?;
        if task.wakeup {
            self.common.tasks.set_wakeup(caller, false);
            return Ok(OK);
        }
        if timeout == 0 {
            return Err(Ercd::Tmout);
        }
        if self.can_wait(caller) {
            let due = self.due_by(timeout);
            self.block(caller, WaitReason::Sleep, due);
        }
        Ok(Reply::Silent)
    }

    fn dly_tsk(&mut self, caller: TaskId, time: u32) -> Result<Reply, Ercd>
        requires { caller < 256 }
        ensures { Serves self.old self.new result (served (table.dly_tsk self.old caller time)) }
    {
        if time > LONGEST_DELAY {
            return Err(Ercd::Par);
        }
        let _ = self.named_task(caller)?;
        if self.can_wait(caller) {
            let due = self.due_after(time);
            self.block(caller, WaitReason::Delay, Some(due));
        }
        Ok(Reply::Silent)
    }

    fn wup_tsk(&mut self, id: u32) -> Result<Reply, Ercd>
        ensures { Serves self.old self.new result (served (table.wup_tsk self.old id)) }
    {
        let id = id_in_range(id)?;
        let task = self.named_task(id)?;
        if task.status.is_dormant() {
            return Err(Ercd::Obj);
        }
        if is_asleep(task.status) {
            self.release(id, 0, None);
            return Ok(OK);
        }
        if task.wakeup {
            return Err(Ercd::Qovr);
        }
        self.common.tasks.set_wakeup(id, true);
        Ok(OK)
    }

    fn can_wup(&mut self, id: u32) -> Result<Reply, Ercd>
        ensures { Serves self.old self.new result (served (table.can_wup self.old id)) }
    {
        let id = id_in_range(id)?;
        let task = self.named_task(id)?;
        if task.status.is_dormant() {
            return Err(Ercd::Obj);
        }
        self.common.tasks.set_wakeup(id, false);
        if task.wakeup {
            return Ok(Reply::Answer(1, None));
        }
        Ok(Reply::Answer(0, None))
    }

    fn rel_wai(&mut self, id: u32) -> Result<Reply, Ercd>
        ensures { Serves self.old self.new result (served (table.rel_wai self.old id)) }
    {
        let id = id_in_range(id)?;
        let task = self.named_task(id)?;
        if !task.status.is_waiting() {
            return Err(Ercd::Obj);
        }
        self.break_off(id, Ercd::Rlwai.word());
        Ok(OK)
    }

    fn sus_tsk(&mut self, cpu: u8, id: u32) -> Result<Reply, Ercd>
        ensures { Serves self.old self.new result (served (table.sus_tsk self.old cpu id)) }
    {
        let id = id_in_range(id)?;
        let task = self.named_task(id)?;
        if task.status.is_dormant() || self.is_held_elsewhere(cpu, id, task) {
            return Err(Ercd::Obj);
        }
        if task.status.is_suspended() {
            return Err(Ercd::Qovr);
        }
        self.common.tasks.suspend(id);
        Ok(OK)
    }

    fn rsm_tsk(&mut self, id: u32) -> Result<Reply, Ercd>
        ensures { Serves self.old self.new result (served (table.rsm_tsk self.old id)) }
    {
        let id = id_in_range(id)?;
        let task = self.named_task(id)?;
        if !task.status.is_suspended() {
            return Err(Ercd::Obj);
        }
        self.common.tasks.resume(id);
        Ok(OK)
    }

    fn put_chr(&mut self, word: u32) -> Result<Reply, Ercd>
        ensures { Serves self.old self.new result (served (table.put_chr self.old word)) }
    {
        if self.common.console.len() >= CONSOLE_SIZE {
            return Err(Ercd::Qovr);
        }
        self.common.console.push_reserved((word % 256) as u8);
        Ok(OK)
    }

    fn ext_ker(&mut self) -> Result<Reply, Ercd>
        ensures { Serves self.old self.new result (served (table.ext_ker self.old)) }
    {
        self.common.off = true;
        Ok(Reply::Silent)
    }

    /// The task that a call names, or E_NOEXS.
    pub(super) fn named_task(&self, id: TaskId) -> Result<Task, Ercd>
        ensures { result ≡ or_fault Noexs (task_at self.now.tasks id) }
    {
        match self.common.tasks.task(id) {
            Some(task) => Ok(task),
            None => Err(Ercd::Noexs),
        }
    }

    /// Whether a task is the running one of a processor other than the caller's, which is held.
    #[tactic(auto, unfolding(crate::specs::Services::is_held_elsewhere))]
    pub(super) fn is_held_elsewhere(&self, cpu: u8, id: TaskId, task: Task) -> bool
        ensures { result ≡ is_held_elsewhere self.now cpu id task }
    {
        if task.cpu == cpu {
            return false;
        }
        match self.processor(task.cpu) {
            Some(processor) => processor.is_held() && is_same_task(processor.running, Some(id)),
            None => false,
        }
    }
}

/// An ID from 1 to 255, or E_ID.
#[tactic(auto, unfolding(crate::specs::Services::is_no_id))]
pub(super) fn id_in_range(id: u32) -> Result<TaskId, Ercd>
    ensures small { IfOk result (λ n. n < 256) }
    ensures ok { IfOk result (λ n. (n ≡ id) × (is_no_id id ≡ false)) }
    ensures err { IfErr result (λ code. (code ≡ Id) × (is_no_id id ≡ true)) }
{
    if id == 0 || id > 255 {
        return Err(Ercd::Id);
    }
    Ok(id as u16)
}

/// The task that a call names, where 0 is the caller.
#[tactic(auto, unfolding(crate::specs::Services::named))]
fn named(id: u32, caller: TaskId) -> u32
    ensures { result ≡ named caller id }
{
    if id == 0 { caller as u32 } else { id }
}

/// Whether a request to start a task that isn't dormant is queued.
pub(super) fn has_request(task: Task) -> bool
    ensures { result ≡ has_request task }
{
    !task.status.is_dormant() && task.activation.is_some()
}

/// The priority that a call names, where 0 is the one with which the task starts.
#[tactic(auto, unfolding(crate::specs::Services::priority_or_initial))]
fn priority_or_initial(priority: u8, task: Task) -> u8
    ensures { result ≡ priority_or_initial priority task }
{
    if priority == 0 {
        task.setup.priority
    } else {
        priority
    }
}

/// Whether a task waits for a wake-up.
fn is_asleep(status: Status) -> bool
    ensures { result ≡ is_asleep status }
{
    match status {
        Status::Waiting(WaitReason::Sleep) | Status::WaitingSuspended(WaitReason::Sleep) => true,
        _ => false,
    }
}
