//! Room for every task that there can be.

ghost use Rattle.std.specs.Prelude.{◌≡◌, ◌≤◌, ◌<◌, insert, length, vec_capacity};

/// How many tasks there can be, by their IDs below it.
pub const MOST_TASKS: usize = 256;

/// Puts an item at a place in a vector that has room for it, so that it takes no memory.
pub fn insert_within<T: Copy + Drop>(items: &mut Vec<T>, at: usize, item: T)
    requires within { at ≤ length items.old.items }
    requires room { length items.old.items < vec_capacity items.old }
    ensures is { items.new.items ≡ insert items.old.items at item }
    ensures kept { vec_capacity items.old ≤ vec_capacity items.new }
{
    let _ = items.insert(at, item);
}
