//! Leases of a board: lent, and committed.

ghost use Rattle.std.specs.Prelude.{◌≡◌, true, false, Decides, not, replicate, option_map, None, Some};
ghost use Rattle.brd_board.specs.declared.event.Event.TheVariants.{Step};
ghost use Rattle.brd_board.specs.Board.{after};
ghost use Rattle.brd_board.specs.Lease.{block_by, block_of, code_window, lease_of, lease_in, IsFresh, Commits};

use super::Board;
use crate::lease::{Lease, Stale};
use brd_exec::Context;
use brd_kernel::{Marks, Standing};

impl Board {
    /// A lease of a processor, by which its next instructions can be done apart from the board. None exactly where the
    /// board is off, there is no such processor, it is idle or stopped, an interrupt is deliverable to it, or the
    /// address of its next instruction is unaligned or outside RAM.
    pub fn lend(&self, cpu: u8) -> Option<Lease>
        ensures { result ≡ lease_of self.now cpu }
    {
        let mut lease = Lease::blank(cpu);
        if self.lend_into(cpu, &mut lease) {
            Some(lease)
        } else {
            None
        }
    }

    /// Makes a lease the one that `lend` would answer. False, and it stays as it was, where that would be none.
    pub fn lend_into(&self, cpu: u8, lease: &mut Lease) -> bool
        ensures lent { result ≡ true → lease_of self.now cpu ≡ Some lease.new }
        ensures none { result ≡ false → (lease_of self.now cpu ≡ None) × (lease.new ≡ lease.old) }
    {
        if self.is_off() || self.kernel.deliverable(cpu).is_some() {
            return false;
        }
        self.lend_block(cpu, lease)
    }

    /// The same where the board is on and no interrupt is deliverable to the processor.
    #[inline(always)]
    fn lend_block(&self, cpu: u8, lease: &mut Lease) -> bool
        ensures lent { result ≡ true → lease_in cpu self.now.memory (block_of self.now cpu) ≡ Some lease.new }
        ensures none { result ≡ false →
            (lease_in cpu self.now.memory (block_of self.now cpu) ≡ None) × (lease.new ≡ lease.old) }
    {
        let Some((standing, marks, context)) = self.block(cpu) else {
            return false;
        };
        lease.renew(cpu, standing, marks, context, &self.ram)
    }

    /// A processor's block, where somebody executes on it: its standing, its marks and its context, where that lies.
    #[inline(always)]
    fn block(&self, cpu: u8) -> Option<(Standing, Marks, &Context)>
        ensures { option_map (λ b. block_by b.0 b.1 b.2.now) result ≡ block_of self.now cpu }
    {
        let context = self.kernel.context(cpu)?;
        Some((self.kernel.standing(cpu)?, self.kernel.marks(cpu)?, context))
    }

    /// Whether `commit` would answer `Stale`.
    pub fn is_stale(&self, lease: &Lease) -> bool
        ensures { Decides (not result) (IsFresh self.now lease.now) }
    {
        self.is_off()
            || self.kernel.deliverable(lease.cpu()).is_some()
            || !self.has_block(lease)
            || !self.has_window(lease)
    }

    /// Carries over what was done under a lease: the board is then the one after as many steps of its processor, and
    /// their number is answered. Or `Stale`, and nothing changes, exactly where the board is off, it lacks the lease's
    /// processor, an interrupt is deliverable to that, or its block or its window of code isn't what was lent.
    pub fn commit(&mut self, lease: Lease) -> Result<u32, Stale>
        ensures { Commits self.old lease result self.new }
    {
        if self.is_stale(&lease) {
            return Err(Stale);
        }
        self.carry_over(&lease);
        Ok(lease.len())
    }

    /// Carries over what was done under a lease that isn't stale: as many steps of its processor happen.
    pub fn carry_over(&mut self, lease: &Lease)
        requires { IsFresh self.old lease.now }
        ensures { self.new ≡ after self.old (replicate lease.now.len (Step lease.now.cpu)) }
    {
        self.kernel.put_context(lease.cpu(), *lease.context());
    }

    /// Whether the lease's processor still has the block that was lent.
    #[inline(always)]
    fn has_block(&self, lease: &Lease) -> bool
        ensures { Decides result (block_of self.now lease.now.cpu ≡ Some lease.now.block) }
    {
        match self.block(lease.cpu()) {
            Some((standing, marks, context)) => lease.block().is_of(standing, marks, context),
            None => false,
        }
    }

    /// Whether RAM still has the window of code that was lent.
    #[inline(always)]
    fn has_window(&self, lease: &Lease) -> bool
        ensures { Decides result (code_window self.now.memory lease.now.block.context.pc ≡ Some lease.now.window) }
    {
        let pc = lease.block().context.pc();
        pc % 4 == 0 && lease.window().is_at(&self.ram, pc)
    }
}
