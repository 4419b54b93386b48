//! The service calls about processors: on which one a task runs and in which order, marks, and the end of a handler.

ghost use Rattle.std.specs.Prelude.{◌≡◌, false, true, IfErr, IfOk, IfSome};
ghost use Rattle.brd_tasks.specs.Ready.{IsProcessor};
ghost use Rattle.brd_kernel.specs.declared.call.Ercd.TheVariants.{Par, Noexs};
ghost use Rattle.brd_kernel.specs.Row.{Serves, served, or_fault};
ghost use Rattle.brd_kernel.specs.Kernel.{processor_at};
ghost use Rattle.brd_tasks.specs.Tasks.{are_there};
ghost use Rattle.brd_kernel.specs.Always.{is_task_or_none};
ghost use Rattle.brd_kernel.specs.Services as table;
ghost use Rattle.brd_kernel.specs.Services.{is_no_processor, priority_or_callers};

use super::Kernel;
use super::serve::{OK, has_request, id_in_range};
use crate::call::{Ercd, Reply};
use crate::making::no_context;
use crate::processor::Processor;
use brd_tasks::{Request, TaskId};

impl Kernel {
    pub(super) fn mact_tsk(&mut self, id: u32, to: u32) -> Result<Reply, Ercd>
        ensures { Serves self.old self.new result (served (table.mact_tsk self.old id to)) }
    {
        let id = id_in_range(id)?;
        let to = self.processor_in_range(to)?;
        let task = self.named_task(id)?;
        if has_request(task) {
            return Err(Ercd::Qovr);
        }
        self.common.tasks.activate(id, Request::On(to));
        Ok(OK)
    }

    pub(super) fn mig_tsk(&mut self, cpu: u8, id: u32, to: u32) -> Result<Reply, Ercd>
        ensures { Serves self.old self.new result (served (table.mig_tsk self.old cpu id to)) }
    {
        let id = id_in_range(id)?;
        let to = self.processor_in_range(to)?;
        let task = self.named_task(id)?;
        if task.status.is_dormant() || task.cpu == to || self.is_held_elsewhere(cpu, id, task) {
            return Err(Ercd::Obj);
        }
        self.common.tasks.migrate(id, to);
        Ok(OK)
    }

    pub(super) fn rot_rdq(&mut self, cpu: u8, caller: TaskId, priority: u32) -> Result<Reply, Ercd>
        ensures { Serves self.old self.new result (served (table.rot_rdq self.old cpu caller priority)) }
    {
        if priority > 16 {
            return Err(Ercd::Par);
        }
        let _ = self.own_processor(cpu)?;
        let priority = priority_or_callers(priority as u8, self.base(caller));
        self.common.tasks.rotate(cpu, priority);
        Ok(OK)
    }

    pub(super) fn irot_rdq(&mut self, cpu: u8, priority: u32) -> Result<Reply, Ercd>
        ensures { Serves self.old self.new result (served (table.irot_rdq self.old cpu priority)) }
    {
        if priority == 0 || priority > 16 {
            return Err(Ercd::Par);
        }
        let _ = self.own_processor(cpu)?;
        self.common.tasks.rotate(cpu, priority as u8);
        Ok(OK)
    }

    pub(super) fn mark_dsp(&mut self, cpu: u8, disabled: bool) -> Result<Reply, Ercd>
        ensures { Serves self.old self.new result (served (table.mark_dsp self.old cpu disabled)) }
    {
        let processor = self.own_processor(cpu)?;
        self.put_processor(
            cpu,
            Processor {
                disabled,
                ..processor
            },
        );
        Ok(OK)
    }

    pub(super) fn mark_cpu(&mut self, cpu: u8, locked: bool) -> Result<Reply, Ercd>
        ensures { Serves self.old self.new result (served (table.mark_cpu self.old cpu locked)) }
    {
        let processor = self.own_processor(cpu)?;
        self.put_processor(
            cpu,
            Processor {
                locked,
                ..processor
            },
        );
        Ok(OK)
    }

    pub(super) fn ret_int(&mut self, cpu: u8) -> Result<Reply, Ercd>
        ensures { Serves self.old self.new result (served (table.ret_int self.old cpu)) }
    {
        let processor = self.own_processor(cpu)?;
        self.put_processor(
            cpu,
            Processor {
                handling: None,
                ..processor.letting_go()
            },
        );
        self.common.handler_contexts[cpu as usize] = no_context();
        Ok(Reply::Silent)
    }

    /// The processor from which a call comes.
    pub(super) fn own_processor(&self, cpu: u8) -> Result<Processor, Ercd>
        ensures is { result ≡ or_fault Noexs (processor_at self.now cpu) }
        ensures known { IfOk result (λ p. is_task_or_none (are_there self.now.tasks) p.running ≡ true) }
        ensures within { IfOk result (λ _. IsProcessor cpu) }
    {
        match self.processor(cpu) {
            Some(processor) => Ok(processor),
            None => Err(Ercd::Noexs),
        }
    }

    /// The number of a processor that the board has, or E_PAR.
    #[tactic(auto, unfolding(crate::specs::Services::is_no_processor))]
    pub(super) fn processor_in_range(&self, cpu: u32) -> Result<u8, Ercd>
        ensures within { IfOk result IsProcessor }
        ensures ok { IfOk result (λ n. (n ≡ cpu) × (is_no_processor self.now cpu ≡ false)) }
        ensures err { IfErr result (λ code. (code ≡ Par) × (is_no_processor self.now cpu ≡ true)) }
    {
        match self.numbered(cpu) {
            Some(_) => Ok(cpu as u8),
            None => Err(Ercd::Par),
        }
    }

    /// The processor that a word names, where there is one.
    fn numbered(&self, cpu: u32) -> Option<Processor>
        ensures is { result ≡ processor_at self.now cpu }
        ensures within { IfSome result (λ _. IsProcessor cpu) }
    {
        if (cpu as usize) < self.common.processors.len() {
            return self.common.processors[cpu as usize];
        }
        None
    }
}

/// The priority that a call names, where 0 is the caller's base priority.
#[tactic(auto, unfolding(crate::specs::Services::priority_or_callers))]
pub(super) fn priority_or_callers(priority: u8, callers: u8) -> u8
    ensures { result ≡ priority_or_callers priority callers }
{
    if priority == 0 { callers } else { priority }
}
