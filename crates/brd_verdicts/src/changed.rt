//! A list of which an element is changed, by its place, or that gets a new one.

ghost use Rattle.std.specs.Prelude.{◌≡◌, OnOk};
ghost use Rattle.brd_verdicts.specs.Changed.{old_at, put_at};

use brd_base::NoMemory;

/// The element at a place, or a new one where there is no place.
pub(crate) fn old_at<T: Copy>(items: &[T], at: Option<usize>, new: T) -> T
    ensures { result ≡ old_at at new items.now }
{
    match at {
        Some(at) => items.get(at).copied().unwrap_or(new),
        None => new,
    }
}

/// Puts an element in the place of what is there, or a new one at the end where there is no place.
pub(crate) fn put_at<T: Copy + Drop>(
    items: &mut Vec<T>,
    at: Option<usize>,
    new: T,
    changed: T,
) -> Result<(), NoMemory>
    ensures { OnOk result (items.new.items ≡ put_at at new changed items.old.items) }
{
    let Some(at) = at else {
        items.push(new)?;
        return Ok(());
    };
    if at < items.len() {
        items[at] = changed;
    }
    Ok(())
}
