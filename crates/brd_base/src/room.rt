//! Vectors with room.

ghost use Rattle.std.specs.Prelude.{◌≡◌, ◌≤◌, IfOk, vec_capacity};

use std::alloc::{AllocError, Global};

/// A vector with the same items, and room for at least n.
pub fn copy_with_room<T: Copy>(items: &Vec<T>, room: usize) -> Result<Vec<T>, AllocError>
    ensures items { IfOk result (λ copy. copy.items ≡ items.now.items) }
    ensures room { IfOk result (λ copy. room ≤ vec_capacity copy) }
{
    let mut copy = Vec::with_capacity(*items.allocator(), room.max(items.len()))?;
    copy.extend_from_slice(items.as_slice())?;
    Ok(copy)
}
