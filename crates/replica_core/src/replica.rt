//! A replica at rest: delivery of operations, the answers and refusals, and what was applied or is pending.
ghost use Rattle.std.specs.Prelude.{◌≡◌, ◌≢◌, ◌↔◌, ◌<◌, ◌≤◌, ◌+◌, ◌-◌, ◌^◌, ◌==◌, ◌∷◌, [], length, IsTrue, IfOk, OnOk};
ghost use Rattle.std.specs.Prelude.{OnErr, IfErr, All, List, ℕ, ◌++◌};
ghost use Rattle.fugue_ids.specs.Outs.{WritesBytes};
ghost use Rattle.fugue_ids.specs.Runs.{run_from};
ghost use Rattle.op_runs.specs.Deletions.{deletes_up};
ghost use Rattle.origin_model.specs.operations.History.{accepted as accepted_list};
ghost use Rattle.origin_model.specs.operations.Verdict.{verdict as verdict_on};
ghost use Rattle.origin_model.specs.order.Printed.{manuscript};
ghost use Rattle.origin_model.specs.taking.Taking.{nothing_held, answer, held_after, TooMany, intake, intake_counted};
ghost use Rattle.origin_model.specs.taking.Taking.{is_kept, IsSettled};
ghost use Rattle.origin_model.specs.operations.Counters.{counters, IsGreatest};
ghost use Rattle.origin_model.specs.edits.State.{all_ops, IsOpen, IsOutside, IsWithin, IsSound};
ghost use Rattle.origin_model.specs.edits.Refusal.{held_count};
ghost use Rattle.origin_model.specs.edits.Effect.{with_ops};
ghost use Rattle.replica_core.specs.Deleting.{AreWithin, ids_from};
ghost use Rattle.replica_core.specs.Edits.{CanJoin};
ghost use Rattle.replica_core.specs.Decision.{decision_of};
ghost use Rattle.replica_core.specs.Answering.{Answers, JoinsNext, LeavesAfterFault, Settles, StaysBelow, total};

use crate::FeedFault;
use crate::accepted::Accepted;
use crate::due::Due;
use crate::open_replica::OpenReplica;
use causal_inbox::{Found, OpenInbox};
use fugue_ids::{ElementId, Failed, GREATEST_HOLD, MOST_OPERATIONS, NoMemory, Op, RunStart};
use op_runs::OpSlice;
use origin_model::{Tally, Verdict};
use outer_ports::Sink;
use section_list::StoppedAfter;
use std::alloc::Global;
use std::marker::Model;

/// What became of an operation that was delivered and not refused.
#[derive(Clone, Copy, Debug, PartialEq, Eq)]
pub enum Taken {
    Accepted,
    /// It waits until what it rests on is accepted.
    Waits,
    /// An equal one is accepted or waits already.
    Again,
}

/// Why an operation was refused: it is handed back, and nothing was changed.
#[derive(Drop)]
pub enum DeliverFault {
    /// Another accepted or waiting operation has its identifier.
    Conflict(Op),
    /// It names this identifier, which an accepted operation holds that does not fit.
    Stray(Op, ElementId),
    /// It would wait, and as many wait as may: the number.
    Full(Op, u32),
    /// As many are accepted or wait as may: the number.
    TooMany(Op, u32),
    NoMemory(Op),
}

/// Why there is no such replica, in the order in which the causes are looked for.
#[derive(Clone, Copy, Debug)]
pub enum NewFault {
    ZeroReplica,
    /// The greatest number of waiting operations is not from 1 to `GREATEST_HOLD`.
    BadHold,
    /// The greatest number of accepted and waiting operations is not from 1 to `MOST_OPERATIONS`.
    BadMost,
}

/// What became of the operation that left the waiting ones.
#[derive(Drop)]
pub enum Settled {
    Accepted(Op),
    /// It names an identifier that an accepted operation holds which does not fit, and was dropped.
    DroppedStray(Op),
}

/// One author's replica of the manuscript: the accepted operations, and those that wait for others.
#[derive(Drop)]
pub struct Replica {
    /// Its inbox has no gap. Each call that takes operations in closes it at its end.
    pub(crate) inner: OpenReplica,
}

impl Model for Replica {
    ghost use Rattle.origin_model.specs.edits.State.{State};
    ghost use Rattle.replica_core.specs.Replica.{IsAtRest};

    ghost Value = { State };

    ghost view = { λ replica. replica.inner.state };

    ghost invariant = { λ replica. IsAtRest replica.inner };
}

impl Replica {
    /// A replica that holds nothing. It takes no memory.
    pub fn new(alloc: Global, replica: u32, hold: u32, most: u32) -> Result<Replica, NewFault>
        ensures ok { IfOk result (λ made. made
            ≡ record { number = replica; hold = hold; most = most; held = nothing_held }) }
        ensures sound { IfOk result IsSound }
        ensures zero_replica { (result ≡ Err NewFault.ZeroReplica) ↔ (replica ≡ 0) }
        ensures bad_hold { (result ≡ Err NewFault.BadHold) ↔ ((replica ≢ 0) × IsOutside GREATEST_HOLD hold) }
        ensures bad_most { (result ≡ Err NewFault.BadMost)
            ↔ ((replica ≢ 0) × IsWithin GREATEST_HOLD hold × IsOutside MOST_OPERATIONS most) }
    {
        if replica == 0 {
            return Err(NewFault::ZeroReplica);
        }
        if hold == 0 || hold > GREATEST_HOLD {
            return Err(NewFault::BadHold);
        }
        if most == 0 || most > MOST_OPERATIONS {
            return Err(NewFault::BadMost);
        }
        Ok(Replica {
            inner: OpenReplica {
                alloc,
                number: replica,
                hold,
                most,
                accepted: Accepted::new(alloc),
                inbox: OpenInbox::new(alloc, hold),
                due: Due::new(alloc),
            },
        })
    }

    /// What an operation is against the accepted ones.
    pub fn verdict(&self, op: &Op) -> Verdict
        ensures verdict { result ≡ verdict_on self.now.held.history op.now }
        ensures sound { IsSound self.now }
    {
        self.inner.accepted.verdict(op)
    }

    /// Whether nothing that waits can be accepted or is stray.
    pub fn is_settled(&self) -> bool
        ensures settled { IsTrue result ↔ IsSettled self.now.held }
        ensures sound { IsSound self.now }
    {
        self.inner.due.is_clear()
    }

    /// The replica that the operations of its edits are of.
    pub fn number(&self) -> u32
        ensures number { result ≡ self.now.number }
        ensures sound { IsSound self.now }
    {
        self.inner.number
    }

    /// How many may wait.
    pub fn hold(&self) -> u32
        ensures hold { result ≡ self.now.hold }
        ensures sound { IsSound self.now }
    {
        self.inner.hold
    }

    /// The accepted operations, in the order in which they were accepted.
    pub fn accepted(&self) -> OpSlice<'_>
        ensures accepted { result ≡ accepted_list self.now.held.history }
        ensures sound { IsSound self.now }
    {
        self.inner.accepted.ops()
    }

    /// The waiting operations, in the order in which they came.
    pub fn waiting(&self) -> &[Op]
        ensures waiting { result.now ≡ self.now.held.waiting }
        ensures not_accepted { All (λ op. IsOpen (verdict_on self.now.held.history op)) self.now.held.waiting }
        ensures sound { IsSound self.now }
    {
        self.inner.inbox.ops()
    }

    /// Ends the replica. With `drop` each crate that ends one would prove anew how all its parts are dropped.
    pub fn discard(self) {}

    /// Writes the sections that are shown, each with its title and its text.
    pub fn write_manuscript<O: Sink>(&self, output: &mut O) -> Result<(), Failed>
        ensures text { WritesBytes (O.seen output.old) (O.seen output.new) result (manuscript self.now.held.history) }
        ensures sound { IsSound self.now }
    {
        self.inner.accepted.write_manuscript(output)
    }

    /// The greatest counter of the replica's own number among the identifiers that accepted and waiting operations have
    /// or name.
    pub fn greatest_counter(&self) -> Option<u32>
        ensures greatest { IsGreatest (counters self.now.number (all_ops self.now.held)) result }
        ensures sound { IsSound self.now }
    {
        greater(
            self.inner.accepted.greatest(self.inner.number),
            self.inner.inbox.greatest(self.inner.number),
        )
    }

    /// How many operations more may be accepted or wait.
    pub(crate) fn room(&self) -> usize
        ensures room { result + held_count self.now ≡ self.now.most }
        ensures sound { IsSound self.now }
    {
        self.inner.room()
    }

    /// Accepts an operation that an edit makes. Nothing that waits is decided by it, so the marks stay.
    pub(crate) fn join(&mut self, op: Op) -> Result<(), NoMemory>
        requires { CanJoin self.old (op ∷ []) }
        ensures ok { OnOk result (self.new ≡ with_ops self.old (op ∷ [])) }
        ensures err { OnErr result (self.new ≡ self.old) }
        ensures settled { IsSettled self.new.held }
        ensures sound { IsSound self.new }
    {
        let joined = self.inner.join(op);
        self.inner.close();
        joined
    }

    /// Accepts a run that an edit makes, by one call on the places. Nothing that waits is decided by it, so the marks
    /// stay.
    pub(crate) fn join_run(&mut self, start: &RunStart, text: &[char]) -> Result<(), NoMemory>
        requires some { 0 < length text.now }
        requires counters { start.now.id.counter + length text.now ≤ 2 ^ 32 }
        requires can { CanJoin self.old (run_from start.now text.now) }
        ensures ok { OnOk result (self.new ≡ with_ops self.old (run_from start.now text.now)) }
        ensures err { OnErr result (self.new ≡ self.old) }
        ensures settled { IsSettled self.new.held }
        ensures sound { IsSound self.new }
    {
        let joined = self.inner.join_run(start, text);
        self.inner.close();
        joined
    }

    /// Accepts the Deletes of so many elements of a section, from this identifier on, that an edit makes, by one call on
    /// the places. Nothing that waits is decided by them, so the marks stay.
    pub(crate) fn join_deletes(
        &mut self,
        section: &ElementId,
        first: ElementId,
        count: u32,
    ) -> Result<(), StoppedAfter>
        requires some { 0 < count }
        requires counters { first.counter + count ≤ 2 ^ 32 }
        requires can { CanJoin self.old (deletes_up first count) }
        requires within { AreWithin section.now self.old.held.history (ids_from first count) }
        ensures ok { OnOk result (self.new ≡ with_ops self.old (deletes_up first count)) }
        ensures err { IfErr result (λ e. self.new ≡ with_ops self.old (deletes_up first e.done)) }
        ensures fewer { IfErr result (λ e. e.done < count) }
        ensures settled { IsSettled self.new.held }
        ensures sound { IsSound self.new }
    {
        let joined = self.inner.join_deletes(section, first, count);
        self.inner.close();
        joined
    }

    /// Takes one operation in and settles nothing. A refusal changes nothing and hands it back.
    pub fn deliver(&mut self, op: Op) -> Result<Taken, DeliverFault>
        requires { IsSettled self.old.held }
        ensures answer { Answers self.old.hold self.old.most op
            (answer self.old.hold self.old.most self.old.held op) result }
        ensures ok { OnOk result (self.new ≡ record self.old {
          held = held_after (answer self.old.hold self.old.most self.old.held op) self.old.held op;
        }) }
        ensures err { OnErr result (self.new ≡ self.old) }
        ensures sound { IsSound self.new }
    {
        let taken = self.inner.deliver(op);
        self.inner.close();
        taken
    }

    /// Lets the earliest waiting operation that can be accepted or is stray leave: Returns None where there is none.
    /// After an allocation failure, which comes only before one that is accepted, all is as before.
    pub fn settle_one(&mut self) -> Result<Option<Settled>, NoMemory>
        ensures step { IfOk result (λ settled. Settles self.old.held self.new.held settled) }
        ensures others { self.new ≡ record self.old { held = self.new.held } }
        ensures err { OnErr result (self.new ≡ self.old) }
        ensures wanting { OnErr result (JoinsNext self.old.held) }
        ensures sound { IsSound self.new }
    {
        let settled = self.inner.step();
        self.inner.close();
        settled
    }

    /// Delivers the operation, settles to the end and counts, and returns whether it was accepted or waits.
    ///
    /// Refusals are counted and are no faults, but for one where as many are there as may.
    pub fn feed(&mut self, op: Op, tally: &mut Tally) -> Result<bool, FeedFault>
        requires settled { IsSettled self.old.held }
        requires counts_rise { StaysBelow tally.old }
        ensures held { OnOk result (self.new ≡ record self.old {
          held = intake self.old.hold self.old.most self.old.held op;
        }) }
        ensures tally { OnOk result (tally.new
            ≡ intake_counted self.old.hold self.old.most self.old.held op tally.old) }
        ensures kept { IfOk result (λ kept. kept
            ≡ is_kept (answer self.old.hold self.old.most self.old.held op)) }
        ensures settled { OnOk result (IsSettled self.new.held) }
        ensures once { OnOk result (total tally.new + length self.new.held.waiting
            ≡ total tally.old + length self.old.held.waiting + 1) }
        ensures too_many { (result ≡ Err (FeedFault.TooMany self.old.most))
            ↔ (answer self.old.hold self.old.most self.old.held op ≡ TooMany) }
        ensures err { IfErr result (λ fault. LeavesAfterFault self.old self.new op tally.old tally.new fault) }
        ensures sound { IsSound self.new }
    {
        let fed = self.inner.feed(op, tally);
        self.inner.close();
        fed
    }
}

/// The greatest of two lists together, by those of each.
#[tactic(auto, using(crate::proofs::GreatestLemmas::greatest_both, crate::proofs::GreatestLemmas::greatest_first, crate::proofs::GreatestLemmas::greatest_none))]
pub(crate) fn greater(first: Option<u32>, second: Option<u32>) -> Option<u32>
    ensures { (some others : List ℕ) → IsGreatest some first → IsGreatest others second
        → IsGreatest (some ++ others) result }
{
    match (first, second) {
        (Some(first), Some(second)) => Some(first.max(second)),
        (Some(first), None) => Some(first),
        (None, second) => second,
    }
}

/// What becomes of an operation, before it is looked whether one more may wait.
#[derive(Clone, Copy)]
pub(crate) enum Decision {
    Again,
    Conflict,
    Stray(ElementId),
    TooMany,
    Ready,
    Missing,
}

pub(crate) fn decide(found: Found, verdict: Verdict, at_most: bool) -> Decision
    ensures { result ≡ decision_of found verdict at_most }
{
    match (found, verdict) {
        (Found::Same, _) => Decision::Again,
        (_, Verdict::Again) => Decision::Again,
        (Found::Clash, _) => Decision::Conflict,
        (_, Verdict::Conflict) => Decision::Conflict,
        (_, Verdict::Stray(id)) => Decision::Stray(id),
        _ if at_most => Decision::TooMany,
        (_, Verdict::Ready) => Decision::Ready,
        (_, Verdict::Missing(_)) => Decision::Missing,
    }
}
