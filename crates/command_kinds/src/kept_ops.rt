//! The storage after `Kept`: nothing, copies in a list of runs, or a list that was given.
ghost use Rattle.std.specs.Prelude.{◌≡◌, IfOk};

use fugue_ids::{NoMemory, Op};
use op_runs::OpRuns;
use replica_core::Copies;

/// How operations are kept for saving.
#[derive(Drop)]
pub(crate) enum KeptOps {
    Forgotten,
    /// As copies, Texts that were typed in a row together.
    Copied(OpRuns),
    /// As they were given, all at once.
    Given(Vec<Op>),
}

/// Copies of the operations, after which more can go.
pub(crate) fn runs_of(ops: &Vec<Op>) -> Result<OpRuns, NoMemory>
    ensures { IfOk result (λ runs. runs ≡ ops.now.items) }
{
    let alloc = *ops.allocator();
    let mut runs = OpRuns::new(alloc);
    'ops: for op in ops.as_slice() {
        runs.push_copy(alloc, op)?;
    }
    Ok(runs)
}
