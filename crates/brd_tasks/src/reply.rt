//! The answer of a service call.

ghost use Rattle.std.specs.Prelude.{◌≡◌};
ghost use Rattle.brd_tasks.specs.Tasks.{answered};

use brd_exec::Context;
use brd_isa::Register;

/// Answers a service call: $v0 takes the answer, $v1 the second result, if there is one.
pub fn answer(context: &mut Context, code: u32, second: Option<u32>)
    ensures { context.new ≡ answered context.old code second }
{
    context.write(Register::low(2), code);
    if let Some(word) = second {
        context.write(Register::low(3), word);
    }
}
