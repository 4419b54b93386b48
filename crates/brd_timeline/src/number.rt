//! Numbers as text.

ghost use Rattle.std.specs.Prelude.{◌≡◌, ◌++◌, OnOk};
ghost use Rattle.brd_timeline.specs.Bars as bars;

use brd_base::NoMemory;
use brd_text::{put, put_decimal};

/// Puts a number of tenths at the end, as `12.3`.
pub(crate) fn put_tenths(to: &mut Vec<u8>, tenths: u32) -> Result<(), NoMemory>
    ensures { OnOk result (to.new.items ≡ to.old.items ++ bars.tenths tenths) }
{
    put_decimal(to, (tenths / 10) as u64)?;
    put(to, ".")?;
    put_decimal(to, (tenths % 10) as u64)
}

/// Puts an attribute at the end whose value is a number of tenths, with a space before it: ` x="12.3"`.
pub(crate) fn put_attribute(to: &mut Vec<u8>, name: &str, tenths: u32) -> Result<(), NoMemory>
    ensures { OnOk result (to.new.items ≡ to.old.items ++ bars.attribute name.now tenths) }
{
    put(to, " ")?;
    put(to, name)?;
    put(to, "=\"")?;
    put_tenths(to, tenths)?;
    put(to, "\"")
}
