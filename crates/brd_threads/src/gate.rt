//! What is called while a worker doesn't hold the lock.

use brd_board::Lease;

/// Is told of the turns of workers: when one begins, when what it does without the lock is done, and, unless the turn
/// had a fault, when it is over. The worker holds no lock at any of these.
pub trait Gate {
    ghost use Rattle.std.specs.Prelude.{◌≡◌, ◌<◌, ◌≤◌, IfSome};
    ghost use Rattle.brd_board.specs.Lease.{most_lent};
    ghost use Rattle.brd_threads.specs.Leases.{IsNewFor};

    /// A processor's turn begins. Where it has a lease, nothing was done under that yet.
    fn enter(&self, cpu: u8, lease: Option<&Lease>)
        requires { IfSome lease (λ lease. IsNewFor cpu lease.now) };

    /// It has done what it does without the lock, which is what its lease says.
    fn leave(&self, cpu: u8, lease: Option<&Lease>)
        requires { IfSome lease (λ lease. lease.now.cpu ≡ cpu) };

    /// Its turn is over, and was so many steps: at least one, and no more than a lease may have. A gate that doesn't
    /// say otherwise does nothing then.
    fn count(&self, _cpu: u8, _steps: u64)
        requires { (0 < _steps) × (_steps ≤ most_lent) }
    {}
}

/// A gate that does nothing.
#[derive(Clone, Copy)]
pub struct Open;

impl Gate for Open {
    fn enter(&self, _cpu: u8, _lease: Option<&Lease>) {}

    fn leave(&self, _cpu: u8, _lease: Option<&Lease>) {}
}
