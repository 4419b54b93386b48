//! The scans as plain loops, which is what one would write without lanes.
ghost use Rattle.std.specs.Prelude.{◌≡◌, length};

pub(crate) fn first_match(
    pats: &[u32],
    or_modes: &[u32],
    current: u32,
    from: usize,
) -> Option<usize>
    requires { length pats.now ≡ length or_modes.now }
{
    for i in from..pats.len() {
        let shared = pats[i] & current;
        let is_satisfied = if or_modes[i] == 0 {
            shared == pats[i]
        } else {
            shared != 0
        };
        if is_satisfied {
            return Some(i);
        }
    }
    None
}

pub(crate) fn next_due(dues: &[u64], now: u64, from: usize) -> Option<usize> {
    for i in from..dues.len() {
        if dues[i] <= now {
            return Some(i);
        }
    }
    None
}

pub(crate) fn break_links(words: &[u32; 8], valid: u8, block: u32, except: u8) -> u8 {
    let mut kept = valid;
    for j in 0..8u8 {
        if j != except && words[j as usize] / 16 == block / 16 {
            kept &= !(1 << j);
        }
    }
    kept
}

pub(crate) fn same_words(a: &[u32], b: &[u32]) -> bool
    requires { length a.now ≡ length b.now }
{
    for i in 0..a.len() {
        if a[i] != b[i] {
            return false;
        }
    }
    true
}

pub(crate) fn hits(addresses: &[u32], address: u32) -> bool {
    for other in addresses {
        if *other == address {
            return true;
        }
    }
    false
}
