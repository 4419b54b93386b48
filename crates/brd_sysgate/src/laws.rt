//! What is true of the table of service calls, and of calls that are made again.

ghost use Rattle.std.specs.Prelude.{◌≡◌, ℕ, ◌<◌, ◌≤◌, IsTrue, Result, Err, false};
ghost use Rattle.brd_exec.specs.State.{State, read, advanced};
ghost use Rattle.brd_kernel.specs.declared.call.Call.{Call as CallOf};
ghost use Rattle.brd_kernel.specs.declared.call.Ercd.{Ercd as ErcdOf};
ghost use Rattle.brd_kernel.specs.declared.call.Ercd.TheVariants.{Rsfn};
ghost use Rattle.brd_sysgate.specs.declared.gate.Caller.{Caller as CallerOf};
ghost use Rattle.brd_kernel.specs.Kernel.{KernelState};
ghost use Rattle.brd_kernel.specs.Row.{asks_again};
ghost use Rattle.brd_sysgate.specs.Gate.{
  table,
  plain_table,
  profile_table,
  is_above,
  are_below,
  row_in,
  read_of,
  served_call,
  with_changed_context,
  is_again,
};

/// The numbers of the calls rise from above 0, so none stands twice.
pub fn each_number_once()
    ensures { IsTrue (is_above 0 table) }
{}

/// Calls above 62 are there in the profile alone: without it each is E_RSFN, whoever makes it, and with it every other
/// number is the call that it is without.
pub fn the_profile_alone_has_more_calls()
    ensures refused { (s : State) (caller : CallerOf) → caller.standard ≡ false → 62 < read s 2 →
        read_of s caller ≡ Err Rsfn }
    ensures others { (number : ℕ) → number ≤ 62 → row_in table number ≡ row_in plain_table number }
    ensures numbers { IsTrue (are_below 63 plain_table) }
    ensures more { IsTrue (is_above 63 profile_table) }
{}

/// A call is answered that it is to be made again exactly where that was told before its context went on: so a call
/// that is served never has to be taken back, and one that is made again is never served.
pub fn again_is_told_before_the_call()
    ensures { (k : KernelState) (cpu : ℕ) (asked : Result CallOf ErcdOf) →
        asks_again (served_call (with_changed_context advanced k cpu) cpu asked).reply ≡ is_again k asked }
{}
