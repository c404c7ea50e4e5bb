//! `Kept`: delivers operations to a replica and, for saving, copies those that are accepted or pending.
ghost use Rattle.std.specs.Prelude.{◌≡◌, ◌≢◌, ◌+◌, ◌^◌, ◌≤◌, ◌∷◌, [], length, Some, None, IfErr, IfOk, OnOk};
ghost use Rattle.fugue_ids.specs.Runs.{run_from};
ghost use Rattle.op_runs.specs.Deletions.{deletes_up};
ghost use Rattle.origin_model.specs.taking.Taking.{IsSettled, TooMany as AnswersTooMany, answer};
ghost use Rattle.origin_model.specs.taking.Taking.{intake, intake_counted, kept_from};
ghost use Rattle.op_frame.specs.NextRuns.{AreSoundNextOps, ops_given};
ghost use Rattle.replica_core.specs.Feeding.{TakesInAll};
ghost use Rattle.replica_core.specs.Answering.{StaysBelow, total};
ghost use Rattle.command_kinds.specs.Intake.{FeedsNot, FeedsNotAll, copies_of_kept, ops_in};

use crate::kept_ops::{KeptOps, runs_of};
use fugue_ids::{ElementId, NoMemory, Op, RunStart};
use op_frame::NextOps;
use op_runs::{OpRuns, OpSlice};
use origin_model::Tally;
use replica_core::{FeedFault, Replica};
use std::alloc::Global;
use std::marker::Model;
use std::mem::replace;

/// The operations that were kept, in order, for a command that saves them. If they are forgotten, as by one that only
/// shows, they take no memory.
#[derive(Drop)]
pub struct Kept {
    ops: KeptOps,
}

impl Model for Kept {
    ghost use Rattle.std.specs.Prelude.{List, Option};
    ghost use Rattle.fugue_ids.specs.declared.op.Op.{Op};
    ghost use Rattle.command_kinds.specs.Kept.{list_kept};

    ghost Value = { Option (List Op) };

    ghost view = { λ kept. list_kept kept.ops };
}

impl Kept {
    /// Operations are forgotten.
    pub(crate) fn forgotten() -> Kept
        ensures { result ≡ None }
    {
        Kept {
            ops: KeptOps::Forgotten,
        }
    }

    /// Operations are copied.
    pub(crate) fn copied(alloc: Global) -> Kept
        ensures { result ≡ Some [] }
    {
        Kept {
            ops: KeptOps::Copied(OpRuns::new(alloc)),
        }
    }

    /// What is kept.
    pub(crate) fn ops(&self) -> OpSlice<'_>
        ensures { result ≡ ops_in self.now }
    {
        match &self.ops {
            KeptOps::Forgotten => OpSlice::of(&[]),
            KeptOps::Copied(runs) => runs.from(0),
            KeptOps::Given(ops) => OpSlice::of(ops),
        }
    }

    /// These stand in place of what was kept.
    pub(crate) fn put(&mut self, ops: Vec<Op>)
        ensures { self.new ≡ Some ops.items }
    {
        self.ops = KeptOps::Given(ops);
    }

    /// Takes out what is kept, unless operations are forgotten, so that copies can be appended. Without memory nothing
    /// is kept any more: the caller must stop.
    fn take_runs(&mut self) -> Result<Option<OpRuns>, NoMemory>
        ensures taken { IfOk result (λ runs. runs ≡ self.old) }
        ensures left { self.new ≡ None }
    {
        match replace(&mut self.ops, KeptOps::Forgotten) {
            KeptOps::Forgotten => Ok(None),
            KeptOps::Copied(runs) => Ok(Some(runs)),
            KeptOps::Given(ops) => Ok(Some(runs_of(&ops)?)),
        }
    }

    /// Feeds to the replica what was given at once, and copies what that keeps.
    pub(crate) fn feed_next(
        &mut self,
        replica: &mut Replica,
        next: NextOps,
        text: &[char],
        tally: &mut Tally,
    ) -> Result<(), FeedFault>
        requires settled { IsSettled replica.old.held }
        requires sound { AreSoundNextOps next text.now }
        requires counts_rise { total tally.old + length replica.old.held.waiting + length (ops_given next text.now)
            ≤ 2 ^ 31 }
        ensures ok { OnOk result
            (TakesInAll replica.old replica.new (ops_given next text.now) tally.old tally.new) }
        ensures kept { OnOk result (self.new ≡ copies_of_kept self.old
            (kept_from replica.old.hold replica.old.most replica.old.held (ops_given next text.now))) }
        ensures err { IfErr result (λ fault. FeedsNotAll fault replica.old (ops_given next text.now)) }
    {
        match next {
            NextOps::Run(start) => self.feed_run(replica, &start, text, tally),
            NextOps::Deletes(first, count) => self.feed_deletes(replica, first, count, tally),
            NextOps::Single(op) => self.feed(replica, op, tally),
        }
    }

    fn feed_run(
        &mut self,
        replica: &mut Replica,
        start: &RunStart,
        text: &[char],
        tally: &mut Tally,
    ) -> Result<(), FeedFault>
        requires settled { IsSettled replica.old.held }
        requires counters { start.now.id.counter + length text.now ≤ 2 ^ 32 }
        requires counts_rise { total tally.old + length replica.old.held.waiting + length text.now ≤ 2 ^ 31 }
        ensures ok { OnOk result
            (TakesInAll replica.old replica.new (run_from start.now text.now) tally.old tally.new) }
        ensures kept { OnOk result (self.new ≡ copies_of_kept self.old
            (kept_from replica.old.hold replica.old.most replica.old.held (run_from start.now text.now))) }
        ensures err { IfErr result (λ fault. FeedsNotAll fault replica.old (run_from start.now text.now)) }
    {
        let Some(mut runs) = self.take_runs()? else {
            return replica.feed_run(start, text, tally);
        };
        let fed = replica.feed_run_keeping(start, text, tally, &mut runs);
        self.ops = KeptOps::Copied(runs);
        fed
    }

    /// Feeds the Deletes of so many identifiers to the replica, from this one on, and copies those that it keeps.
    pub(crate) fn feed_deletes(
        &mut self,
        replica: &mut Replica,
        first: ElementId,
        count: u32,
        tally: &mut Tally,
    ) -> Result<(), FeedFault>
        requires settled { IsSettled replica.old.held }
        requires counters { first.counter + count ≤ 2 ^ 32 }
        requires counts_rise { total tally.old + length replica.old.held.waiting + count ≤ 2 ^ 31 }
        ensures ok { OnOk result
            (TakesInAll replica.old replica.new (deletes_up first count) tally.old tally.new) }
        ensures kept { OnOk result (self.new ≡ copies_of_kept self.old
            (kept_from replica.old.hold replica.old.most replica.old.held (deletes_up first count))) }
        ensures err { IfErr result (λ fault. FeedsNotAll fault replica.old (deletes_up first count)) }
    {
        let Some(mut runs) = self.take_runs()? else {
            return replica.feed_deletes(first, count, tally);
        };
        let fed = replica.feed_deletes_keeping(first, count, tally, &mut runs);
        self.ops = KeptOps::Copied(runs);
        fed
    }

    /// Feeds the operation to the replica, and copies it where that keeps it.
    fn feed(&mut self, replica: &mut Replica, op: Op, tally: &mut Tally) -> Result<(), FeedFault>
        requires settled { IsSettled replica.old.held }
        requires counts_rise { StaysBelow tally.old }
        ensures has_place { OnOk result
            (answer replica.old.hold replica.old.most replica.old.held op ≢ AnswersTooMany) }
        ensures replica { OnOk result (replica.new ≡ record replica.old {
          held = intake replica.old.hold replica.old.most replica.old.held op;
        }) }
        ensures counts { OnOk result (tally.new
            ≡ intake_counted replica.old.hold replica.old.most replica.old.held op tally.old) }
        ensures kept { OnOk result (self.new
            ≡ copies_of_kept self.old (kept_from replica.old.hold replica.old.most replica.old.held (op ∷ []))) }
        ensures settled { OnOk result (IsSettled replica.new.held) }
        ensures once { OnOk result (total tally.new + length replica.new.held.waiting
            ≡ total tally.old + length replica.old.held.waiting + 1) }
        ensures err { IfErr result (λ fault. FeedsNot fault replica.old op) }
    {
        let Some(mut runs) = self.take_runs()? else {
            return match replica.feed(op, tally) {
                Ok(_kept) => Ok(()),
                Err(fault) => Err(fault),
            };
        };
        let fed = replica.feed_keeping(op, tally, &mut runs);
        self.ops = KeptOps::Copied(runs);
        fed
    }
}
