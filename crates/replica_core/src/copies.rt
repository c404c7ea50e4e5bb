//! Copies of the operations that a replica takes in: each is made first, and taken off again where the replica keeps none.
ghost use Rattle.std.specs.Prelude.{◌≡◌, ◌<◌, ◌≤◌, ◌+◌, ◌-◌, ◌^◌, ◌++◌, ◌∷◌, [], List, OnErr, OnOk, length, take};
ghost use Rattle.fugue_ids.specs.Runs.{run_from};
ghost use Rattle.fugue_ids.specs.declared.op.Op.{Op as AnyOp};
ghost use Rattle.op_runs.specs.Deletions.{deletes_up};

use fugue_ids::{ElementId, NoMemory, Op, RunStart};
use op_runs::{MOST_LISTED, OpRuns};
use std::alloc::Global;

/// A list of copies of operations.
pub trait Copies {
    /// The operations, in order.
    ghost ops: { Self → List AnyOp };

    /// A copy more, after all others. Without memory, or room in the list, all is as before.
    fn push_copy(&mut self, alloc: Global, op: &Op) -> Result<(), NoMemory>
        ensures ok { OnOk result (ops self.new ≡ ops self.old ++ op.now ∷ []) }
        ensures err { OnErr result (ops self.new ≡ ops self.old) };

    /// Takes the newest copy off. It takes no memory.
    fn drop_newest(&mut self)
        requires { 0 < length (ops self.old) }
        ensures { ops self.new ≡ take (length (ops self.old) - 1) (ops self.old) };
}

impl Copies for Vec<Op> {
    ghost ops = { λ copies. copies.items };

    fn push_copy(&mut self, alloc: Global, op: &Op) -> Result<(), NoMemory> {
        let copy = op.clone_in(alloc)?;
        match self.push(copy) {
            Ok(()) => Ok(()),
            Err(_) => Err(NoMemory),
        }
    }

    fn drop_newest(&mut self) {
        self.pop();
    }
}

impl Copies for OpRuns {
    ghost ops = { λ copies. copies };

    fn push_copy(&mut self, alloc: Global, op: &Op) -> Result<(), NoMemory> {
        if room_in(self) == 0 {
            return Err(NoMemory);
        }
        let copy = op.clone_in(alloc)?;
        match self.push(copy) {
            Ok(()) => Ok(()),
            Err(_) => Err(NoMemory),
        }
    }

    fn drop_newest(&mut self) {
        self.pop(1);
    }
}

/// How many operations more a list of runs may have.
fn room_in(copies: &OpRuns) -> usize
    ensures { result ≡ MOST_LISTED - length copies.now }
{
    (MOST_LISTED as usize).saturating_sub(copies.len())
}

/// The Texts of a run, after all others. Without memory, or room in the list, all is as before.
pub(crate) fn push_letters(
    copies: &mut OpRuns,
    start: &RunStart,
    text: &[char],
) -> Result<(), NoMemory>
    requires some { 0 < length text.now }
    requires counters { start.now.id.counter + length text.now ≤ 2 ^ 32 }
    ensures ok { OnOk result (copies.new ≡ copies.old ++ run_from start.now text.now) }
    ensures err { OnErr result (copies.new ≡ copies.old) }
{
    if room_in(copies) < text.len() {
        return Err(NoMemory);
    }
    copies.push_run(*start, text)
}

/// The Deletes of so many identifiers, from this one on, after all others. Without memory, or room in the list, all is
/// as before.
pub(crate) fn push_row(copies: &mut OpRuns, first: ElementId, count: u32) -> Result<(), NoMemory>
    requires some { 0 < count }
    requires counters { first.counter + count ≤ 2 ^ 32 }
    ensures ok { OnOk result (copies.new ≡ copies.old ++ deletes_up first count) }
    ensures err { OnErr result (copies.new ≡ copies.old) }
{
    if room_in(copies) < count as usize {
        return Err(NoMemory);
    }
    copies.push_deletes(first, count)
}
