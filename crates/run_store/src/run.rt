//! A run of elements as one compact record, and all runs of a sequence in a rope, with their letters.
ghost use Rattle.std.specs.Prelude.{◌≡◌, ◌∷◌, [], length};
ghost use Rattle.run_store.specs.Heads.{rank_of as number_of};
ghost use Rattle.run_store.specs.Runs.{AreRuns, cells_in};

use crate::letters::Letters;
use fugue_ids::{ElementId, Key, MOST_OPERATIONS};
use node_rope::{Rope, Weigh};
use std::alloc::Global;
use std::marker::Model;
use std::mem::size_of;

/// An origin in 8 bytes, where an `Option<ElementId>` takes 12: no replica has the number 0, which stands for none.
#[derive(Clone, Copy)]
pub struct Origin {
    replica: u32,
    counter: u32,
}

impl Model for Origin {
    ghost use Rattle.std.specs.Prelude.{Option};
    ghost use Rattle.fugue_ids.specs.Identifiers.{Identifier};
    ghost use Rattle.run_store.specs.Origins.{IsExact, id_if, origin_parts};

    ghost Value = { Option Identifier };

    ghost view = { λ o. id_if o.replica o.counter };

    ghost invariant = { IsExact };

    ghost inverse = { origin_parts };

    ghost inverse_ok = { λ o exact. exact };
}

impl Origin {
    pub(crate) fn new(id: Option<ElementId>) -> Origin
        ensures { result ≡ id }
    {
        match id {
            Some(id) => Origin {
                replica: id.replica,
                counter: id.counter,
            },
            None => Origin {
                replica: 0,
                counter: 0,
            },
        }
    }

    pub(crate) fn id(self) -> Option<ElementId>
        ensures { result ≡ self }
    {
        ElementId::new(self.replica, self.counter)
    }
}

/// Runs of cells, each under its first identifier, with their letters and a count of all cells. They are seen as these.
#[derive(Drop)]
pub struct Runs {
    pub(crate) rope: Rope<Run>,
    pub(crate) letters: Letters,
    pub(crate) count: usize,
}

impl Model for Runs {
    ghost use Rattle.run_store.specs.Runs.{AreRuns, RunsView};

    ghost Value = { RunsView };

    ghost view = { λ r. record { rope = r.rope; letters = r.letters; count = r.count } };

    ghost invariant = { λ r. AreRuns (record { rope = r.rope; letters = r.letters; count = r.count }) };
}

impl Runs {
    /// No runs. It takes no memory.
    pub(crate) fn new(alloc: Global) -> Runs
        ensures { result ≡ record { rope = []; letters = [] ∷ []; count = 0 } }
    {
        Runs {
            rope: Rope::new(alloc),
            letters: Letters::new(alloc),
            count: 0,
        }
    }

    /// What is so of all runs, for a proof that needs it: nothing is done.
    #[inline]
    pub(crate) fn sound(&self)
        ensures { AreRuns self.now }
    {
        let _ = &self.rope;
    }

    /// How many runs there are.
    pub(crate) fn run_count(&self) -> usize
        ensures { result ≡ length self.now.rope }
    {
        self.rope.len()
    }

    /// How many cells there are.
    pub(crate) fn len(&self) -> usize
        ensures { result ≡ length (cells_in self.now) }
    {
        self.count
    }
}

/// Cells that stand next to each other: each but the first is the letter after the one before it. What it says of cells
/// is said of the first one. Their letters are a part of one stretch.
#[derive(Clone, Copy)]
pub struct Run {
    pub(crate) id: ElementId,
    pub(crate) left: Origin,
    pub(crate) right: Origin,
    pub(crate) key: Key,
    pub(crate) stretch: u32,
    pub(crate) start: u32,
    pub(crate) len: u32,
    pub(crate) hidden: bool,
}

const _: () = prove!(size_of::<Run>() == 48);

impl Weigh for Run {
    ghost use Rattle.std.specs.Prelude.{if◌then◌else◌, min};
    ghost use Rattle.run_store.specs.Heads.{rank_of as number_of};
    ghost use Rattle.fugue_ids.specs.declared.limits.TheConstants.{MOST_OPERATIONS};

    ghost weight_of = { λ r. if r.hidden then 0 else min r.len MOST_OPERATIONS };

    ghost rank_of = { λ r. number_of r.key };

    /// Its visible cells.
    fn weight(&self) -> u64 {
        if self.hidden {
            0
        } else {
            u64::from(self.len.min(MOST_OPERATIONS))
        }
    }

    /// The least key of its cells, which is that of the first one.
    fn rank(&self) -> u64 {
        rank_of(self.key)
    }
}

/// A key as one number.
pub(crate) fn rank_of(key: Key) -> u64
    ensures { result ≡ number_of key }
{
    u64::from(key.depth) * 4_294_967_296 + u64::from(key.forest)
}
