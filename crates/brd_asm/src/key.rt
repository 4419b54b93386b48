//! How names are found: by a hash whose keys the whole source decides, so that whoever writes a source can't choose
//! names whose hashes are the same.

ghost use Rattle.std.specs.Prelude.{◌≡◌, [], ◌∷◌};
ghost use Rattle.brd_asm.specs.Key.{folded, written, finished, keys_of};
ghost use Rattle.std.proofs.Common.{rules};

use std::hash::{BuildHasher, DefaultHasher, Hash, Hasher};

/// A name as a key of a map.
#[derive(Clone, Copy, PartialEq, Eq)]
pub struct NameKey<'a> {
    pub name: &'a [u8],
}

impl Hash for NameKey<'_> {
    ghost hash_input = { λ key. key.name.now ∷ [] };

    ghost respects_eq = { Prim.search rules };

    fn hash<H: Hasher>(&self, state: &mut H) {
        state.write(self.name);
    }
}

/// Multiplies by keys: each byte's step by `inner`, and the end by `outer`.
#[derive(Clone, Copy)]
pub struct NameHasher {
    state: u64,
    inner: u64,
    outer: u64,
}

/// The two halves of a product, joined by exclusive or.
fn folded(a: u64, b: u64) -> u64
    ensures { result ≡ folded a b }
{
    let product = a as u128 * b as u128;
    (product & 0xFFFF_FFFF_FFFF_FFFF) as u64 ^ (product >> 64) as u64
}

impl Hasher for NameHasher {
    ghost write = { written };

    ghost finish = { finished };

    fn finish(&self) -> u64 {
        folded(self.state, self.outer)
    }

    fn write(&mut self, bytes: &[u8]) {
        for byte in bytes {
            self.state = folded(self.state ^ u64::from(*byte), self.inner);
        }
    }
}

/// Hashes the names of one source.
#[derive(Clone, Copy)]
pub struct SourceHash {
    start: NameHasher,
}

impl SourceHash {
    /// For the names of this source: the keys are SipHash values of its bytes.
    pub fn new(text: &[u8]) -> Self
        ensures { result.start ≡ keys_of text.now }
    {
        let mut sip = DefaultHasher::new();
        sip.write(text);
        let state = sip.finish();
        sip.write_u8(1);
        let inner = sip.finish();
        sip.write_u8(2);
        let outer = sip.finish();
        SourceHash {
            start: NameHasher {
                state,
                inner,
                outer,
            },
        }
    }
}

impl BuildHasher for SourceHash {
    type Hasher = NameHasher;

    ghost build_hasher = { λ hash. hash.start };

    fn build_hasher(&self) -> NameHasher {
        self.start
    }
}
