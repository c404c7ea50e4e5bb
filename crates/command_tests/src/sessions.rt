//! What comes at a dock in memory, as tables tell it.

ghost use Rattle.std.specs.Prelude.{All};
ghost use Rattle.outer_ports.specs.dock.Steps.{BringsSome};

use crate::memory::list;
use fugue_ids::ByteList;
use outer_ports::MemStep;
use std::process::Abort;

/// A greeting from the start of the log on.
pub(crate) const HELLO: &[u8] = b"\x48\0\0\0\0";

/// A session opens, says something, or is gone.
#[derive(Clone, Copy)]
pub(crate) enum Coming<'a> {
    Opens(u32),
    Says(u32, &'a [u8]),
    Goes(u32),
}

/// These steps, but for those that say nothing.
pub(crate) fn steps(rt: &(impl Abort + AllocGlobal), all: &[Coming]) -> Vec<MemStep>
    ensures { All BringsSome result.items }
{
    let mut steps = Vec::new(rt.alloc());
    for coming in all {
        push(rt, &mut steps, *coming);
    }
    steps
}

fn push(rt: &(impl Abort + AllocGlobal), steps: &mut Vec<MemStep>, coming: Coming)
    requires { All BringsSome steps.old.items }
    ensures { All BringsSome steps.new.items }
{
    match coming {
        Coming::Opens(session) => steps.push(MemStep::Opened(session)).expect(rt, "memory"),
        Coming::Says(_, []) => {}
        Coming::Says(session, bytes) => {
            let bytes = ByteList::new(list(rt, bytes));
            steps
                .push(MemStep::Bytes(session, bytes))
                .expect(rt, "memory");
        }
        Coming::Goes(session) => steps.push(MemStep::Gone(session)).expect(rt, "memory"),
    }
}
