//! The rest of each scan, from a place on, one element at a time.
ghost use Rattle.std.specs.Prelude.{◌≡◌, ◌≢◌, ◌≤◌, length, drop, MatchBool, Contains};
ghost use Rattle.brd_lanes.specs.Scan.{IsLeast, NoneBetween, is_satisfied, is_satisfied_at, is_due_at, is_address_at};

pub(crate) fn first_satisfied(
    pats: &[u32],
    or_modes: &[u32],
    current: u32,
    from: usize,
) -> Option<usize>
    requires same_length { length pats.now ≡ length or_modes.now }
    requires start { from ≤ length pats.now }
    ensures { IsLeast (is_satisfied_at pats.now or_modes.now current) from (length pats.now) result }
{
    for i in from..pats.len() {
        if is_satisfied(pats[i], or_modes[i], current) {
            return Some(i);
        }
    }
    None
}

#[tactic(auto, unfolding(crate::specs::Scan::is_satisfied))]
fn is_satisfied(wanted: u32, or_mode: u32, current: u32) -> bool
    ensures { result ≡ is_satisfied current or_mode wanted }
{
    let shared = current & wanted;
    if or_mode == 0 {
        shared == wanted
    } else {
        shared != 0
    }
}

pub(crate) fn first_due(dues: &[u64], now: u64, from: usize) -> Option<usize>
    requires { from ≤ length dues.now }
    ensures { IsLeast (is_due_at dues.now now) from (length dues.now) result }
{
    for i in from..dues.len() {
        if dues[i] <= now {
            return Some(i);
        }
    }
    None
}

pub(crate) fn are_same(a: &[u32], b: &[u32], from: usize) -> bool
    requires same_length { length a.now ≡ length b.now }
    requires start { from ≤ length a.now }
    ensures { MatchBool result (drop from a.now ≡ drop from b.now) (a.now ≢ b.now) }
{
    for i in from..a.len() {
        if a[i] != b[i] {
            return false;
        }
    }
    true
}

pub(crate) fn has(addresses: &[u32], address: u32, from: usize) -> bool
    requires { from ≤ length addresses.now }
    ensures { MatchBool result
        (Contains addresses.now address)
        (NoneBetween (is_address_at addresses.now address) from (length addresses.now)) }
{
    for i in from..addresses.len() {
        if addresses[i] == address {
            return true;
        }
    }
    false
}
