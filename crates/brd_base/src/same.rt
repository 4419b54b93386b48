//! Comparisons that are true exactly for equal values.

ghost use Rattle.std.specs.Prelude.{◌≡◌, Decides};

/// Values that are compared whole, so that the answer is proved to be true exactly for equal ones. `==` alone promises
/// no more than what its type says.
pub trait Same {
    /// Whether both are equal.
    fn same(&self, other: &Self) -> bool
        ensures { Decides result (self.now ≡ other.now) };
}

impl Same for () {
    fn same(&self, _other: &Self) -> bool {
        true
    }
}

impl Same for u32 {
    fn same(&self, other: &Self) -> bool {
        *self == *other
    }
}

impl<T: Same> Same for Option<T> {
    fn same(&self, other: &Self) -> bool {
        match (self, other) {
            (None, None) => true,
            (Some(one), Some(another)) => one.same(another),
            (None, Some(_)) | (Some(_), None) => false,
        }
    }
}

/// Whether two slices are equal.
pub fn same_slices<T: Same>(a: &[T], b: &[T]) -> bool
    ensures { Decides result (a.now ≡ b.now) }
{
    if a.len() != b.len() {
        return false;
    }
    for i in 0..a.len() {
        if !a[i].same(&b[i]) {
            return false;
        }
    }
    true
}
