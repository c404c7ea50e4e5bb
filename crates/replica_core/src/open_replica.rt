//! A replica while operations are taken in: the bodies of what a `Replica` does then.
ghost use Rattle.std.specs.Prelude.{◌≡◌, ◌↔◌, ◌<◌, ◌≤◌, ◌+◌, ◌-◌, ◌^◌, ◌==◌, ◌∷◌, [], length, IfErr, IfOk, OnErr, OnOk};
ghost use Rattle.fugue_ids.specs.Runs.{run_from};
ghost use Rattle.op_runs.specs.Deletions.{deletes_up};
ghost use Rattle.origin_model.specs.edits.Effect.{with_ops};
ghost use Rattle.origin_model.specs.edits.Refusal.{held_count};
ghost use Rattle.origin_model.specs.edits.State.{IsSound};
ghost use Rattle.origin_model.specs.taking.Taking.{answer, intake, intake_counted, is_kept, held_after, IsSettled, TooMany};
ghost use Rattle.replica_core.specs.Decision.{answer_by_decision};
ghost use Rattle.replica_core.specs.Deleting.{AreWithin, ids_from};
ghost use Rattle.replica_core.specs.Edits.{CanJoin};
ghost use Rattle.replica_core.specs.Answering.{Answers, IsTallied, JoinsNext, LeavesAfterFault, Settles, SettlesOrStops};
ghost use Rattle.replica_core.specs.Answering.{StaysBelow, total};

use crate::accepted::Accepted;
use crate::due::Due;
use crate::replica::{Decision, decide};
use crate::waking::{leave, wait, wake};
use crate::{DeliverFault, FeedFault, Settled, Taken};
use causal_inbox::{OpenInbox, PushFault};
use fugue_ids::{ElementId, NoMemory, Op, RunStart};
use origin_model::{Tally, Verdict};
use section_list::StoppedAfter;
use std::alloc::Global;
use std::marker::Model;

/// A replica that takes operations in. Those that leave its inbox leave gaps there, until it is closed.
#[derive(Drop)]
pub(crate) struct OpenReplica {
    pub alloc: Global,
    pub number: u32,
    pub hold: u32,
    pub most: u32,
    pub accepted: Accepted,
    pub inbox: OpenInbox,
    pub due: Due,
}

impl Model for OpenReplica {
    ghost use Rattle.replica_core.specs.Replica.{MatchesState, OpenState, replica_state};

    ghost Value = { OpenState };

    ghost view = { λ replica. record {
      state = replica_state replica.number replica.hold replica.most replica.accepted replica.inbox;
      gaps = replica.inbox.gaps;
    } };

    ghost invariant = { λ replica.
        MatchesState (replica_state replica.number replica.hold replica.most replica.accepted replica.inbox)
        replica.inbox replica.due };
}

impl OpenReplica {
    /// No gap is left in the inbox. Where none is, nothing moves.
    pub fn close(&mut self)
        ensures closed { self.new ≡ record { state = self.old.state; gaps = 0 } }
        ensures sound { IsSound self.new.state }
    {
        self.inbox.close();
    }

    /// Lets the earliest waiting operation that can be accepted or is stray leave: Returns None where there is none.
    /// After an allocation failure, which comes only before one that is accepted, all is as before.
    pub fn step(&mut self) -> Result<Option<Settled>, NoMemory>
        ensures step { IfOk result (λ settled. Settles self.old.state.held self.new.state.held settled) }
        ensures others { self.new.state ≡ record self.old.state { held = self.new.state.held } }
        ensures err { OnErr result (self.new.state ≡ self.old.state) }
        ensures wanting { OnErr result (JoinsNext self.old.state.held) }
        ensures sound { IsSound self.new.state }
    {
        let Some(position) = self.due.first() else {
            return Ok(None);
        };
        let op = self.inbox.op_at(position);
        match self.accepted.verdict(op) {
            Verdict::Ready => {
                let copy = op.clone_in(self.alloc)?;
                let Ok(()) = self.accepted.accept(copy) else {
                    return Err(NoMemory);
                };
                let op = leave(&mut self.inbox, &mut self.due, position);
                wake(&self.inbox, &self.accepted, &mut self.due);
                Ok(Some(Settled::Accepted(op)))
            }
            _ => {
                let op = leave(&mut self.inbox, &mut self.due, position);
                Ok(Some(Settled::DroppedStray(op)))
            }
        }
    }

    /// Settles to the end, or as far as memory lasts.
    fn settle(&mut self, tally: &mut Tally) -> Result<(), NoMemory>
        requires sound { IsSound self.old.state }
        requires accepted { tally.old.accepted ≤ 2 ^ 31 }
        requires stray { tally.old.stray < 2 ^ 31 }
        ensures settles { SettlesOrStops self.old.state self.new.state tally.old tally.new result }
        ensures sound { IsSound self.new.state }
    {
        while self.settle_counted(tally)? {}
        Ok(())
    }

    /// One step of settling, counted, and returns whether there was one.
    fn settle_counted(&mut self, tally: &mut Tally) -> Result<bool, NoMemory>
        requires accepted { tally.old.accepted < 2 ^ 32 - 1 }
        requires stray { tally.old.stray < 2 ^ 32 - 1 }
        ensures step { IfOk result
            (λ more. IsTallied self.old.state.held self.new.state.held tally.old tally.new more) }
        ensures others { self.new.state ≡ record self.old.state { held = self.new.state.held } }
        ensures err { OnErr result ((self.new.state ≡ self.old.state) × (tally.new ≡ tally.old)) }
        ensures stopped { OnErr result (JoinsNext self.new.state.held) }
        ensures sound { IsSound self.new.state }
    {
        match self.step()? {
            Some(Settled::Accepted(_op)) => {
                tally.accepted += 1;
                Ok(true)
            }
            Some(Settled::DroppedStray(_op)) => {
                tally.stray += 1;
                Ok(true)
            }
            None => Ok(false),
        }
    }

    /// How many operations more may be accepted or wait.
    pub fn room(&self) -> usize
        ensures room { result + held_count self.now.state ≡ self.now.state.most }
        ensures sound { IsSound self.now.state }
    {
        self.most as usize - self.accepted.len() - self.inbox.len()
    }

    /// Accepts an operation that an edit makes. Nothing that waits is decided by it, so the marks stay.
    pub fn join(&mut self, op: Op) -> Result<(), NoMemory>
        requires { CanJoin self.old.state (op ∷ []) }
        ensures ok { OnOk result (self.new.state ≡ with_ops self.old.state (op ∷ [])) }
        ensures err { OnErr result (self.new.state ≡ self.old.state) }
        ensures settled { IsSettled self.new.state.held }
        ensures sound { IsSound self.new.state }
    {
        let Ok(()) = self.accepted.accept(op) else {
            return Err(NoMemory);
        };
        Ok(())
    }

    /// Accepts a run that an edit makes, by one call on the places. Nothing that waits is decided by it, so the marks
    /// stay.
    pub fn join_run(&mut self, start: &RunStart, text: &[char]) -> Result<(), NoMemory>
        requires some { 0 < length text.now }
        requires counters { start.now.id.counter + length text.now ≤ 2 ^ 32 }
        requires can { CanJoin self.old.state (run_from start.now text.now) }
        ensures ok { OnOk result (self.new.state ≡ with_ops self.old.state (run_from start.now text.now)) }
        ensures err { OnErr result (self.new.state ≡ self.old.state) }
        ensures settled { IsSettled self.new.state.held }
        ensures sound { IsSound self.new.state }
    {
        let Ok(()) = self.accepted.accept_run(start, text) else {
            return Err(NoMemory);
        };
        Ok(())
    }

    /// Accepts the Deletes of so many elements of a section, from this identifier on, that an edit makes, by one call on
    /// the places. Nothing that waits is decided by them, so the marks stay.
    pub fn join_deletes(
        &mut self,
        section: &ElementId,
        first: ElementId,
        count: u32,
    ) -> Result<(), StoppedAfter>
        requires some { 0 < count }
        requires counters { first.counter + count ≤ 2 ^ 32 }
        requires can { CanJoin self.old.state (deletes_up first count) }
        requires within { AreWithin section.now self.old.state.held.history (ids_from first count) }
        ensures ok { OnOk result (self.new.state ≡ with_ops self.old.state (deletes_up first count)) }
        ensures err { IfErr result (λ e. self.new.state ≡ with_ops self.old.state (deletes_up first e.done)) }
        ensures fewer { IfErr result (λ e. e.done < count) }
        ensures settled { IsSettled self.new.state.held }
        ensures sound { IsSound self.new.state }
    {
        self.accepted.accept_deletes(section, first, count)
    }

    fn decision_on(&self, op: &Op) -> Decision
        ensures { answer self.now.state.hold self.now.state.most self.now.state.held op.now
            ≡ answer_by_decision (length self.now.state.held.waiting == self.now.state.hold) result }
    {
        let held = self.accepted.len() + self.inbox.len();
        let at_most = held == self.most as usize;
        decide(self.inbox.find(op), self.accepted.verdict(op), at_most)
    }

    /// Takes one operation in and settles nothing. A refusal changes nothing and hands it back.
    pub fn deliver(&mut self, op: Op) -> Result<Taken, DeliverFault>
        requires { IsSettled self.old.state.held }
        ensures answer { Answers self.old.state.hold self.old.state.most op
            (answer self.old.state.hold self.old.state.most self.old.state.held op) result }
        ensures ok { OnOk result (self.new.state ≡ record self.old.state {
          held = held_after (answer self.old.state.hold self.old.state.most self.old.state.held op) self.old.state.held op;
        }) }
        ensures err { OnErr result (self.new.state ≡ self.old.state) }
        ensures sound { IsSound self.new.state }
    {
        match self.decision_on(&op) {
            Decision::Again => Ok(Taken::Again),
            Decision::Conflict => Err(DeliverFault::Conflict(op)),
            Decision::Stray(id) => Err(DeliverFault::Stray(op, id)),
            Decision::TooMany => Err(DeliverFault::TooMany(op, self.most)),
            Decision::Ready => match self.accepted.accept(op) {
                Ok(()) => {
                    wake(&self.inbox, &self.accepted, &mut self.due);
                    Ok(Taken::Accepted)
                }
                Err(refused) => Err(DeliverFault::NoMemory(refused.op)),
            },
            Decision::Missing => match wait(&mut self.inbox, &mut self.due, op) {
                Ok(()) => Ok(Taken::Waits),
                Err(PushFault::Full(op)) => Err(DeliverFault::Full(op, self.hold)),
                Err(PushFault::NoMemory(op)) => Err(DeliverFault::NoMemory(op)),
            },
        }
    }

    /// Delivers the operation, settles to the end and counts, and returns whether it was accepted or waits.
    ///
    /// Refusals are counted and are no faults, but for one where as many are there as may.
    pub fn feed(&mut self, op: Op, tally: &mut Tally) -> Result<bool, FeedFault>
        requires settled { IsSettled self.old.state.held }
        requires counts_rise { StaysBelow tally.old }
        ensures held { OnOk result (self.new.state ≡ record self.old.state {
          held = intake self.old.state.hold self.old.state.most self.old.state.held op;
        }) }
        ensures tally { OnOk result (tally.new
            ≡ intake_counted self.old.state.hold self.old.state.most self.old.state.held op tally.old) }
        ensures kept { IfOk result (λ kept. kept
            ≡ is_kept (answer self.old.state.hold self.old.state.most self.old.state.held op)) }
        ensures settled { OnOk result (IsSettled self.new.state.held) }
        ensures once { OnOk result (total tally.new + length self.new.state.held.waiting
            ≡ total tally.old + length self.old.state.held.waiting + 1) }
        ensures too_many { (result ≡ Err (FeedFault.TooMany self.old.state.most))
            ↔ (answer self.old.state.hold self.old.state.most self.old.state.held op ≡ TooMany) }
        ensures err { IfErr result (λ fault. LeavesAfterFault self.old.state self.new.state op tally.old tally.new fault) }
        ensures sound { IsSound self.new.state }
    {
        match self.deliver(op) {
            Ok(Taken::Accepted) => {
                tally.accepted += 1;
                match self.settle(tally) {
                    Ok(()) => Ok(true),
                    Err(NoMemory) => Err(FeedFault::NoMemory),
                }
            }
            Ok(Taken::Waits) => Ok(true),
            Ok(Taken::Again) => {
                tally.repeated += 1;
                Ok(false)
            }
            Err(DeliverFault::Conflict(_op)) => {
                tally.conflict += 1;
                Ok(false)
            }
            Err(DeliverFault::Stray(_op, _id)) => {
                tally.stray += 1;
                Ok(false)
            }
            Err(DeliverFault::Full(_op, _hold)) => {
                tally.full += 1;
                Ok(false)
            }
            Err(DeliverFault::TooMany(_op, most)) => Err(FeedFault::TooMany(most)),
            Err(DeliverFault::NoMemory(_op)) => Err(FeedFault::NoMemory),
        }
    }
}
