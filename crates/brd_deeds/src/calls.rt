//! What service calls do.

ghost use Rattle.std.specs.Prelude.{◌≡◌, OnOk};
ghost use Rattle.brd_deeds.specs.Calls.{
  acts_answered,
  acts_asked,
  acts_done,
  acts_given,
  acts_left,
  acts_taken,
  acts_taken_back,
  acts_waited,
  acts_waiting,
  call_in,
  calls,
  ends,
  is_count,
  named,
  released,
  suspends,
  terminates,
};

use crate::log::{Doer, Log};
use crate::past::{Hold, Stamp};
use brd_base::NoMemory;
use brd_board::Board;
use brd_happening::{Answer, AskedCall, CallMade, Release};
use brd_kernel::Call;
use brd_sysgate::service;

/// The answer of a wait that rel_wai ended (E_RLWAI).
const RELEASED: u32 = 0xffff_ffcf;

/// The call that is asked for.
fn call_in(asked: AskedCall) -> Option<Call>
    ensures { result ≡ call_in asked }
{
    match service(asked.number, asked.arguments) {
        Some(service) => Some(service.asked.call),
        None => None,
    }
}

/// Whether an answer is a count: neither E_OK nor a refusal, which is a negative number.
fn is_count(code: u32) -> bool
    ensures { result ≡ is_count code }
{
    code > 0 && code < 0x8000_0000
}

impl Doer {
    /// The task that a call names: 0 is the caller.
    fn named(self, id: u32) -> u16
        ensures { result ≡ named self id }
    {
        if id == 0 {
            return self.strand;
        }
        (id % 65_536) as u16
    }
}

impl Log {
    /// A call was done at once, and answered with E_OK and a second result.
    fn put_done(
        &mut self,
        doer: Doer,
        call: Call,
        second: u32,
        after: &Board,
    ) -> Result<(), NoMemory>
        ensures { OnOk result (self.new ≡ acts_done doer call second after.now self.old) }
    {
        match call {
            Call::SigSem(id) => self.give_unit(doer, id),
            Call::TwaiSem(id, _) => self.get_unit(doer, id),
            Call::TlocMtx(id, _) => self.take_mutex(doer, id),
            Call::UnlMtx(id) => self.give_mutex_back(doer, id),
            Call::TgetMpf(id, _) => self.get_block(doer, id, second),
            Call::RelMpf(id, block) => self.give_block_back(doer, id, block),
            Call::SndMbx(id, message, _) => self.send_message(doer, id, message),
            Call::TrcvMbx(id, _) => self.receive_message(doer, id, second),
            Call::SetFlg(id, bits) => self.set_bits(doer, id, bits),
            Call::TwaiFlg(id, bits, _, _) => self.get_bits(doer, id, bits, second),
            Call::TsndDtq(id, _, _) => self.send(doer, id),
            Call::FsndDtq(id, _) => self.force(doer, id),
            Call::TrcvDtq(id, _) => self.receive(doer, id),
            Call::LocSpn(id) | Call::TrySpn(id) => self.lock_by_spin_lock(doer, id),
            Call::UnlSpn(id) => self.give_spin_lock_back(doer, id),
            Call::LocCpu => self.lock_cpu(doer),
            Call::UnlCpu => self.unlock_cpu(doer),
            Call::DisDsp => self.disable_dispatching(doer),
            Call::EnaDsp => self.enable_dispatching(doer),
            Call::ActTsk(id) | Call::MactTsk(id, _) | Call::IactTsk(id) | Call::ImactTsk(id, _) => {
                self.ask_to_start(doer, doer.named(id), after)
            }
            Call::WupTsk(id) | Call::IwupTsk(id) => self.wake_up(doer, doer.named(id)),
            Call::TslpTsk(_) => self.take_wake_up(doer, doer.strand),
            Call::RelWai(id) => self.let_go_on(doer, doer.named(id)),
            Call::RsmTsk(id) => self.resume(doer, doer.named(id)),
            Call::TerTsk(id) => self.terminate(doer, doer.named(id)),
            Call::SusTsk(id) => self.suspend(doer, doer.named(id)),
            Call::StaCyc(id) => self.start_cyclic(doer, id),
            Call::StaAlm(id, _) => self.start_alarm(doer, id),
            Call::CanAct(_)
            | Call::ExtTsk
            | Call::ChgPri(_, _)
            | Call::GetPri(_)
            | Call::MigTsk(_, _)
            | Call::GetPid
            | Call::RotRdq(_)
            | Call::IrotRdq(_)
            | Call::GetTid
            | Call::CanWup(_)
            | Call::DlyTsk(_)
            | Call::ClrFlg(_, _)
            | Call::PutChr(_)
            | Call::ExtKer
            | Call::RetInt
            | Call::GetTim
            | Call::SetTim(_)
            | Call::Sns(_)
            | Call::MgetTid(_)
            | Call::MrotRdq(_, _)
            | Call::StpCyc(_)
            | Call::StpAlm(_) => Ok(()),
            Call::RefTsk(_, _)
            | Call::RefSem(_, _)
            | Call::RefFlg(_, _)
            | Call::RefDtq(_, _)
            | Call::RefMtx(_, _)
            | Call::RefMpf(_, _)
            | Call::RefMbx(_, _)
            | Call::RefCyc(_, _)
            | Call::RefAlm(_, _) => Ok(()),
        }
    }

    /// Another task is ended; if it is to start again, it does so at once.
    fn terminate(&mut self, doer: Doer, task: u16) -> Result<(), NoMemory>
        ensures { OnOk result (self.new ≡ terminates doer task self.old) }
    {
        self.suspend(doer, task)?;
        self.start(doer.stamp, task)
    }

    /// A task is suspended.
    fn suspend(&mut self, doer: Doer, task: u16) -> Result<(), NoMemory>
        ensures { OnOk result (self.new ≡ suspends doer task self.old) }
    {
        self.settle(task)?;
        self.halt(doer, task)
    }

    /// The wait of a task ended with what it waited for, by a call of a strand.
    fn put_taken(
        &mut self,
        caller: Option<u16>,
        doer: Doer,
        call: Call,
        second: u32,
    ) -> Result<(), NoMemory>
        ensures { OnOk result (self.new ≡ acts_taken caller doer call second self.old) }
    {
        match call {
            Call::TwaiSem(id, _) => self.get_unit(doer, id),
            Call::TlocMtx(id, _) => self.take_mutex(doer, id),
            Call::TgetMpf(id, _) => self.get_block(doer, id, second),
            Call::TrcvMbx(id, _) => self.receive_message(doer, id, second),
            Call::TwaiFlg(id, bits, _, _) => self.get_bits(doer, id, bits, second),
            Call::TsndDtq(id, _, _) => self.send_at_last(caller, doer, id),
            Call::TrcvDtq(id, _) => self.receive_at_last(caller, doer, id),
            Call::TslpTsk(_) => self.take_wake_up(doer, doer.strand),
            Call::ActTsk(_)
            | Call::IactTsk(_)
            | Call::CanAct(_)
            | Call::ExtTsk
            | Call::TerTsk(_)
            | Call::ChgPri(_, _)
            | Call::GetPri(_)
            | Call::MactTsk(_, _)
            | Call::ImactTsk(_, _)
            | Call::MigTsk(_, _)
            | Call::GetPid
            | Call::RotRdq(_)
            | Call::IrotRdq(_)
            | Call::GetTid
            | Call::DisDsp
            | Call::EnaDsp
            | Call::LocCpu
            | Call::UnlCpu
            | Call::WupTsk(_)
            | Call::IwupTsk(_)
            | Call::CanWup(_)
            | Call::RelWai(_)
            | Call::SusTsk(_)
            | Call::RsmTsk(_)
            | Call::DlyTsk(_)
            | Call::SigSem(_)
            | Call::SetFlg(_, _)
            | Call::ClrFlg(_, _)
            | Call::FsndDtq(_, _)
            | Call::LocSpn(_)
            | Call::TrySpn(_)
            | Call::UnlSpn(_)
            | Call::PutChr(_)
            | Call::ExtKer
            | Call::RetInt
            | Call::GetTim
            | Call::SetTim(_)
            | Call::Sns(_)
            | Call::MgetTid(_)
            | Call::MrotRdq(_, _)
            | Call::RefTsk(_, _)
            | Call::RefSem(_, _)
            | Call::RefFlg(_, _)
            | Call::RefDtq(_, _)
            | Call::UnlMtx(_)
            | Call::RefMtx(_, _)
            | Call::RelMpf(_, _)
            | Call::SndMbx(_, _, _)
            | Call::RefMpf(_, _)
            | Call::RefMbx(_, _)
            | Call::StaCyc(_)
            | Call::StpCyc(_)
            | Call::StaAlm(_, _)
            | Call::StpAlm(_)
            | Call::RefCyc(_, _)
            | Call::RefAlm(_, _) => Ok(()),
        }
    }

    /// A call's caller waits.
    fn put_waiting(&mut self, doer: Doer, call: Call) -> Result<(), NoMemory>
        ensures { OnOk result (self.new ≡ acts_waiting doer call self.old) }
    {
        match call {
            Call::TsndDtq(id, _, _) | Call::TrcvDtq(id, _) => self.begin_to_wait(doer, id),
            _ => Ok(()),
        }
    }

    /// A call took some back.
    fn put_taken_back(&mut self, doer: Doer, call: Call) -> Result<(), NoMemory>
        ensures { OnOk result (self.new ≡ acts_taken_back doer call self.old) }
    {
        match call {
            Call::CanAct(id) => self.take_starts_back(doer, doer.named(id)),
            Call::CanWup(id) => self.take_wake_up(doer, doer.named(id)),
            _ => Ok(()),
        }
    }

    /// A task ends, which starts again where a start of it is queued.
    pub(crate) fn end(&mut self, doer: Doer) -> Result<(), NoMemory>
        ensures { OnOk result (self.new ≡ ends doer self.old) }
    {
        self.put_hold(doer.cpu, Hold::free());
        self.start(doer.stamp, doer.strand)
    }

    /// A call doesn't return.
    fn put_left(&mut self, doer: Doer, call: Call) -> Result<(), NoMemory>
        ensures { OnOk result (self.new ≡ acts_left doer call self.old) }
    {
        match call {
            Call::ExtTsk => self.end(doer),
            Call::RetInt => self.end_handler(doer),
            _ => Ok(()),
        }
    }

    /// A call was answered.
    fn put_given(
        &mut self,
        doer: Doer,
        call: Call,
        code: u32,
        second: u32,
        after: &Board,
    ) -> Result<(), NoMemory>
        ensures { OnOk result (self.new ≡ acts_given doer call code second after.now self.old) }
    {
        if code == 0 {
            return self.put_done(doer, call, second, after);
        }
        if is_count(code) {
            return self.put_taken_back(doer, call);
        }
        Ok(())
    }

    /// A call that there is was made.
    fn put_answered(
        &mut self,
        doer: Doer,
        call: Call,
        answer: Answer,
        after: &Board,
    ) -> Result<(), NoMemory>
        ensures { OnOk result (self.new ≡ acts_answered doer call answer after.now self.old) }
    {
        match answer {
            Answer::Given { code, second } => self.put_given(doer, call, code, second, after),
            Answer::Waits { reason: _, due: _ } => self.put_waiting(doer, call),
            Answer::Again => Ok(()),
            Answer::Never => self.put_left(doer, call),
        }
    }

    /// A call was made.
    pub(crate) fn call(&mut self, doer: Doer, made: CallMade, after: &Board) -> Result<(), NoMemory>
        ensures { OnOk result (self.new ≡ calls doer made after.now self.old) }
    {
        self.settle(doer.strand)?;
        match call_in(made.asked) {
            Some(call) => self.put_answered(doer, call, made.answer, after),
            None => Ok(()),
        }
    }

    /// The wait of a task ended with an answer to its call.
    fn put_waited(
        &mut self,
        caller: Option<u16>,
        doer: Doer,
        release: &Release,
    ) -> Result<(), NoMemory>
        ensures { OnOk result (self.new
            ≡ acts_waited caller doer release.now.code release.now.second (call_in release.now.asked) self.old) }
    {
        match call_in(release.asked) {
            Some(call) if release.code == 0 => self.put_taken(caller, doer, call, release.second),
            _ => Ok(()),
        }
    }

    /// The wait of a task ended.
    pub(crate) fn put_release(
        &mut self,
        stamp: Stamp,
        caller: Option<u16>,
        release: &Release,
    ) -> Result<(), NoMemory>
        ensures { OnOk result (self.new ≡ released stamp caller release.now self.old) }
    {
        if release.code == RELEASED {
            return self.go_on(stamp, release.task);
        }
        let doer = Doer {
            strand: release.task,
            cpu: 0,
            stamp,
        };
        self.put_waited(caller, doer, release)
    }
}
