//! How priorities are lifted.

ghost use Rattle.std.specs.Prelude.{◌≡◌, ◌<◌, length, false, IsTrue};
ghost use Rattle.std.specs.List.{sum};
ghost use Rattle.brd_mutexes.specs.Lifting.{AreFounded, AreHigh, AreLifted};
ghost use Rattle.brd_mutexes.specs.Passes.{is_higher, lifted_by, lifts, passed, lifted};

/// Lifts the priority of each task to the highest of those of the tasks that lead to it. Before it they are those of
/// the tasks alone; `holders` has for each task who holds what it waits for.
pub fn lift(priorities: &mut [u8], holders: &[Option<u16>])
    requires { length holders.now ≡ length priorities.old }
    ensures are { AreLifted priorities.old holders.now priorities.new }
    ensures is { priorities.new ≡ lifted priorities.old holders.now }
{
    lift_all(priorities, holders);
}

/// The same.
#[tactic(auto, using(crate::proofs::PassLemmas::begins, crate::proofs::PassLemmas::pass_founded, crate::proofs::PassLemmas::less, crate::proofs::PassLemmas::ends))]
fn lift_all(priorities: &mut [u8], holders: &[Option<u16>])
    requires { length holders.now ≡ length priorities.old }
    ensures { AreLifted priorities.old holders.now priorities.new }
{
    'passes: loop {
        if !pass(priorities, holders) {
            return;
        }
    }
}

/// Gives each holder the priority of a task that waits for what it holds, where that is higher. Answers whether one has
/// become another.
fn pass(priorities: &mut [u8], holders: &[Option<u16>]) -> bool
    requires { length holders.now ≡ length priorities.old }
    ensures is { priorities.new ≡ passed 0 holders.now priorities.old }
    ensures lifts { result ≡ lifts 0 holders.now priorities.old }
{
    let mut lifted = false;
    for i in 0..holders.len() {
        if let Some(to) = holders[i] {
            let higher = lift_one(priorities, i, to as usize);
            lifted = lifted || higher;
        }
    }
    lifted
}

/// Gives a holder the priority of a task that waits for what it holds, where that is higher. Answers whether it is.
fn lift_one(priorities: &mut [u8], id: usize, to: usize) -> bool
    requires { id < length priorities.old }
    ensures is { priorities.new ≡ lifted_by priorities.old id to }
    ensures higher { result ≡ is_higher priorities.old id to }
{
    if to >= priorities.len() || priorities[to] <= priorities[id] {
        return false;
    }
    priorities[to] = priorities[id];
    true
}
