//! Interrupts: a line is raised, and a processor accepts the lowest that is pending for it.

ghost use Rattle.std.specs.Prelude.{◌≡◌, ◌<◌, IfSome, length};
ghost use Rattle.brd_tasks.specs.Ready.{IsProcessor};
ghost use Rattle.brd_kernel.specs.Kernel.{deliverable, can_be_raised, raised, line_at, accepted, accepted_line};

use super::Kernel;
use crate::lines::{FIRST_TIMER, are_quiet, entry_of, first_pending};
use crate::processor::Processor;

impl Kernel {
    /// The line whose interrupt a processor accepts next: the lowest that is pending for it.
    #[tactic(auto, using(crate::proofs::LineLemmas::none_pending))]
    pub fn deliverable(&self, cpu: u8) -> Option<u8>
        ensures is { result ≡ deliverable self.now cpu }
        ensures within { IfSome result (λ line. (line < length self.now.lines) × IsProcessor cpu) }
    {
        if !self.common.pending {
            return None;
        }
        self.first_deliverable(cpu)
    }

    /// The same, by the lines.
    #[inline(never)]
    #[tactic(auto, using(crate::proofs::LineLemmas::few_lines))]
    fn first_deliverable(&self, cpu: u8) -> Option<u8>
        ensures is { result ≡ deliverable self.now cpu }
        ensures within { IfSome result (λ line. (line < length self.now.lines) × IsProcessor cpu) }
    {
        let processor = self.processor(cpu)?;
        if processor.handling.is_some() || processor.locked || processor.stopped {
            return None;
        }
        first_pending(self.common.lines.as_slice(), cpu)
    }

    /// Raises an interrupt from outside. Answers whether its line is one of the lowest 32 and has a handler; if not,
    /// nothing changes.
    pub fn raise(&mut self, line: u8) -> bool
        ensures is { self.new ≡ raised self.old line }
        ensures there { result ≡ can_be_raised self.old line }
    {
        if line >= FIRST_TIMER || (line as usize) >= self.common.lines.len() {
            return false;
        }
        if self.common.lines[line as usize].handler.is_none() {
            return false;
        }
        self.common.pending = true;
        self.common.lines[line as usize].pending = true;
        true
    }

    /// Whether an interrupt is pending on a line.
    pub fn is_pending(&self, line: u8) -> bool
        ensures { result ≡ (line_at self.now line).pending }
    {
        if (line as usize) >= self.common.lines.len() {
            return false;
        }
        self.common.lines[line as usize].pending
    }

    /// A processor accepts the interrupt that is deliverable to it. Answers its line, if there is one.
    pub fn accept(&mut self, cpu: u8) -> Option<u8>
        ensures is { self.new ≡ accepted self.old cpu }
        ensures line { result ≡ deliverable self.old cpu }
        ensures within { IfSome result (λ _. IsProcessor cpu) }
    {
        let line = self.deliverable(cpu)?;
        self.handle(cpu, line);
        Some(line)
    }

    /// A processor begins to handle the interrupt of a line.
    #[inline(never)]
    fn handle(&mut self, cpu: u8, line: u8)
        requires { line < length self.old.lines }
        ensures { self.new ≡ accepted_line self.old cpu line }
    {
        let Some(processor) = self.processor(cpu) else {
            return
        };
        self.common.lines[line as usize].pending = false;
        self.common.pending = !are_quiet(self.common.lines.as_slice());
        self.put_processor(
            cpu,
            Processor {
                handling: Some(line),
                ..processor
            },
        );
        self.common.handler_contexts[cpu as usize] = entry_of(
            line,
            self.common.lines[line as usize].handler,
        );
    }
}
