//! Leases: what one processor needs, to do local instructions apart from the board.

ghost use Rattle.std.specs.Prelude.{◌≡◌, ◌≤◌, true, false, Decides, None, Some};
ghost use Rattle.brd_board.specs.Lease.{most_lent, block_by, code_window, lease_by, IsLease, DoesMost};

use brd_base::Same;
use brd_exec::Context;
use brd_kernel::{Marks, Standing};
use brd_lent::{Decoded, Window};
use brd_mem::Ram;
use std::marker::Model;

/// How many instructions a lease is good for (own choice).
pub const MOST_LENT: u32 = 64;

/// A lease can't be committed, and nothing was done: the board is off, an interrupt is deliverable to the lease's
/// processor, or its block or its window of code isn't what was lent.
#[derive(Clone, Copy, Debug, PartialEq, Eq)]
pub struct Stale;

/// What of a processor a lease copies.
#[derive(Clone, Copy)]
pub struct Block {
    /// What it is doing.
    pub standing: Standing,
    /// Whether it is CPU-locked, whether dispatching is disabled on it, and which spin lock it holds.
    pub marks: Marks,
    /// The context in which it executes.
    pub context: Context,
}

impl Block {
    /// Whether a processor with this standing, these marks and this context has the same block.
    #[inline(always)]
    pub(crate) fn is_of(&self, standing: Standing, marks: Marks, context: &Context) -> bool
        ensures { Decides result (block_by standing marks context.now ≡ self.now) }
    {
        standing == self.standing && marks == self.marks && context.same(&self.context)
    }
}

/// A copy of a processor's block and of its window of code, the 64 words round its next instruction. By it the next
/// instructions are done apart from the board, as long as they lie in the window, are local (`brd_isa::is_local`), and
/// are no branch or jump in a delay slot; 64 of them at most. `Board::lend` makes one, and `Board::commit` carries over
/// to the board what was done. A thread that leases over and over has one lease, into which `Board::lend_into` lends
/// anew: so none is moved.
#[derive(Drop)]
pub struct Lease {
    cpu: u8,
    block: Block,
    window: Window,
    /// The address of the window's first word.
    start: u32,
    /// How many instructions were done.
    len: u32,
    /// The context after them.
    context: Context,
}

impl Model for Lease {
    ghost use Rattle.std.specs.Prelude.{◌≡◌};
    ghost use Rattle.brd_mem.specs.Window.{window_start};
    ghost use Rattle.brd_board.specs.Lease.{LeaseState, IsLease};

    ghost Value = { LeaseState };

    ghost view = { λ l. record { cpu = l.cpu; block = l.block; window = l.window; len = l.len; context = l.context } };

    ghost invariant = { λ l.
        IsLease (record { cpu = l.cpu; block = l.block; window = l.window; len = l.len; context = l.context })
        × (l.start ≡ window_start l.block.context.pc) };
}

impl Lease {
    /// A place to lend into: a lease of an idle processor's, under which nothing was done.
    pub fn blank(cpu: u8) -> Lease
        ensures cpu { result.cpu ≡ cpu }
        ensures none { result.len ≡ 0 }
    {
        let context = Context::opening(0, 0, 0);
        let marks = Marks {
            locked: false,
            disabled: false,
            spin: None,
        };
        Lease {
            cpu,
            block: Block {
                standing: Standing::Idle,
                marks,
                context,
            },
            window: Window::zeros(),
            start: 0,
            len: 0,
            context,
        }
    }

    /// Becomes a lease of which nothing was done yet, of a processor with this block, where RAM has the window of code
    /// round its next instruction and that is aligned. Answers whether; else it stays as it was.
    pub(crate) fn renew(
        &mut self,
        cpu: u8,
        standing: Standing,
        marks: Marks,
        context: &Context,
        ram: &Ram,
    ) -> bool
        ensures lent { result ≡ true →
            lease_by cpu (block_by standing marks context.now)
            (code_window ram.now context.now.pc) ≡ Some self.new }
        ensures none { result ≡ false → (code_window ram.now context.now.pc ≡ None) × (self.new ≡ self.old) }
    {
        let pc = context.pc();
        if pc % 4 != 0 {
            return false;
        }
        if !self.window.read(ram, pc) {
            return false;
        }
        self.cpu = cpu;
        self.block.standing = standing;
        self.block.marks = marks;
        self.block.context = *context;
        self.start = pc - pc % 256;
        self.len = 0;
        self.context = *context;
        true
    }

    /// Whose lease it is: the processor's number, from 1 on.
    pub fn cpu(&self) -> u8
        ensures { result ≡ self.now.cpu }
    {
        self.cpu
    }

    /// How many instructions were done under it.
    pub fn len(&self) -> u32
        ensures is { result ≡ self.now.len }
        ensures most { result ≤ most_lent }
    {
        self.len
    }

    /// Does as many of the next instructions as can be done under the lease, up to `limit` of them, and up to 64 over
    /// the life of the lease. Answers how many it did now.
    pub fn run(&mut self, limit: u32) -> u32
        ensures { DoesMost limit self.old self.new result }
    {
        self.run_by(&mut Decoded::new(), limit)
    }

    /// Does the same with words that are decoded already.
    pub fn run_by(&mut self, decoded: &mut Decoded, limit: u32) -> u32
        ensures { DoesMost limit self.old self.new result }
    {
        let most = limit.min(MOST_LENT - self.len);
        let done = decoded.run(&mut self.context, &self.window, self.start, most);
        self.len += done;
        done
    }

    /// The block as it was lent.
    pub(crate) fn block(&self) -> &Block
        ensures { result.now ≡ self.now.block }
    {
        &self.block
    }

    /// The window of code as it was lent.
    pub(crate) fn window(&self) -> &Window
        ensures { result.now ≡ self.now.window }
    {
        &self.window
    }

    /// The context after what was done.
    pub(crate) fn context(&self) -> &Context
        ensures is { result.now ≡ self.now.context }
        ensures kept { IsLease self.now }
    {
        &self.context
    }
}
