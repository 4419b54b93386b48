//! The names of the registers.

ghost use Rattle.std.specs.Prelude.{◌≡◌, map, length, ◌<◌, IfSome, Some, [], slice_index_or};
ghost use Rattle.brd_isa.specs.Registers as registers;

use crate::fields::Register;

/// The name of each register, in the order 0 to 31: what stands after the `$`.
const NAMES: [&[u8]; 32] = [
    b"zero", b"at", b"v0", b"v1", b"a0", b"a1", b"a2", b"a3", b"t0", b"t1", b"t2", b"t3", b"t4",
    b"t5", b"t6", b"t7", b"s0", b"s1", b"s2", b"s3", b"s4", b"s5", b"s6", b"s7", b"t8", b"t9",
    b"k0", b"k1", b"gp", b"sp", b"fp", b"ra",
];

/// The place of a name in a list, counted from 0.
fn place_in(names: &[&[u8]], name: &[u8]) -> Option<usize>
    ensures is { result ≡ registers.place_in (map (λ known. known.now) names.now) 0 name.now }
    ensures inside { IfSome result (λ place. place < length names.now) }
{
    for (place, known) in names.iter().enumerate() {
        if name == *known {
            return Some(place);
        }
    }
    None
}

/// The register of this name, which stands after a `$`. `s8` is another name of `fp`.
#[tactic(auto, unfolding(crate::specs::Registers::register_named))]
pub fn register_named(name: &[u8]) -> Option<Register>
    ensures { result ≡ registers.register_named name.now }
{
    if let Some(place) = place_in(&NAMES, name) {
        return Some(Register::low(place as u32));
    }
    (name == b"s8".as_slice()).then_some(Register::low(30))
}

/// The name at a place of a list.
fn name_at(names: &[&'static [u8]], place: usize) -> &'static [u8]
    requires { place < length names.now }
    ensures { result.now ≡ slice_index_or (map (λ name. name.now) names.now) place [] }
{
    names[place]
}

/// The name of a register, without the `$`.
pub fn register_name(register: Register) -> &'static [u8]
    ensures is { result.now ≡ slice_index_or registers.register_names register [] }
    ensures again { registers.register_named result.now ≡ Some register }
{
    name_at(&NAMES, register.number() as usize)
}
