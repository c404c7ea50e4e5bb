//! Single elements of a run, and a prefix or a suffix of it as a run.
ghost use Rattle.std.specs.Prelude.{◌≡◌, ◌+◌, ◌<◌, ◌≤◌, ◌^◌};
ghost use Rattle.run_store.specs.Heads.{head_after};
ghost use Rattle.run_store.specs.Runs.{first_of, run_after as rest_by, run_to as front_by};

use crate::cell::Head;
use crate::run::{Origin, Run};
use fugue_ids::{ElementId, Key};

/// The first cell of a run.
pub(crate) fn first_cell(run: &Run) -> Head
    ensures { result ≡ first_of run.now }
{
    Head {
        id: run.id,
        left: run.left.id(),
        right: run.right.id(),
        hidden: run.hidden,
        key: run.key,
    }
}

/// The cell of a run after n others.
pub(crate) fn cell_at(run: &Run, n: u32) -> Head
    requires counters { run.now.id.counter + n < 2 ^ 32 }
    requires depths { run.now.key.depth + n < 2 ^ 32 }
    ensures { result ≡ head_after n (first_of run.now) }
{
    if n == 0 {
        return first_cell(run);
    }
    Head {
        id: run.id.behind(n),
        left: Some(run.id.behind(n - 1)),
        right: run.right.id(),
        hidden: run.hidden,
        key: Key {
            depth: run.key.depth + n,
            forest: 0,
        },
    }
}

/// The first identifier of a run, under which it is kept.
pub(crate) fn key_of(run: &Run) -> ElementId
    ensures { result ≡ run.now.id }
{
    run.id
}

/// The cells of a run before the place n, as a run.
pub(crate) fn run_to(run: &Run, n: u32) -> Run
    ensures { result ≡ front_by n run.now }
{
    Run { len: n, ..*run }
}

/// The cells of a run from the place n on, as a run.
pub(crate) fn run_after(run: &Run, n: u32) -> Run
    requires counters { run.now.id.counter + n < 2 ^ 32 }
    requires depths { run.now.key.depth + n < 2 ^ 32 }
    requires within { n ≤ run.now.len }
    requires fits { run.now.start + n < 2 ^ 32 }
    ensures { result ≡ rest_by n run.now }
{
    let first = cell_at(run, n);
    Run {
        id: first.id,
        left: Origin::new(first.left),
        right: Origin::new(first.right),
        hidden: first.hidden,
        key: first.key,
        stretch: run.stretch,
        start: run.start + n,
        len: run.len - n,
    }
}
