//! The pending operations of a replica in order of arrival, in one slice, and which of them can leave.
ghost use Rattle.std.specs.Prelude.{◌≡◌, ◌↔◌, ◌<◌, ◌≤◌, ◌++◌, ◌∷◌, [], Some, true, false, length, position as first_position};
ghost use Rattle.std.specs.Prelude.{remove as without, slice_get, OnOk, OnErr, IfErr, List};
ghost use Rattle.fugue_ids.specs.Ops.{id_of};
ghost use Rattle.origin_model.specs.operations.History.{has_op};
ghost use Rattle.origin_model.specs.operations.Verdict.{id_held, verdict, verdict as verdict_on};
ghost use Rattle.origin_model.specs.taking.Taking.{is_decided as decides};
ghost use Rattle.origin_model.specs.operations.Counters.{counters, IsGreatest};
ghost use Rattle.causal_inbox.specs.Faults.{refused_op};
ghost use Rattle.fugue_ids.specs.declared.op.Op.{Op as AnyOp};

use crate::{Found, OpenInbox};
use fugue_ids::Op;
use origin_model::{PlainReplica, Verdict};
use std::alloc::Global;
use std::marker::Model;

/// What was accepted, as far as it decides over others.
pub trait Facts {
    /// The accepted operations, the newest first.
    ghost history: { Self → List AnyOp };

    fn verdict(&self, op: &Op) -> Verdict
        ensures { result ≡ verdict_on (history self.now) op.now };
}

impl Facts for PlainReplica {
    ghost history = { λ replica. replica };

    fn verdict(&self, op: &Op) -> Verdict {
        self.verdict(op)
    }
}

/// Why an operation was not taken: it is handed back, and nothing was changed.
#[derive(Drop)]
pub enum PushFault {
    /// As many wait as may.
    Full(Op),
    NoMemory(Op),
}

/// The waiting operations, in the order in which they came, and how many may wait. They lie in one slice.
#[derive(Drop)]
pub struct Inbox {
    inner: OpenInbox,
}

impl Model for Inbox {
    ghost use Rattle.std.specs.Prelude.{◌≡◌};
    ghost use Rattle.causal_inbox.specs.Waiting.{Waiting};

    ghost Value = { Waiting };

    ghost view = { λ inbox. record { ops = inbox.inner.ops; hold = inbox.inner.hold } };

    ghost invariant = { λ inbox. inbox.inner.gaps ≡ 0 };
}

impl Inbox {
    pub fn new(alloc: Global, hold: u32) -> Inbox
        ensures { result ≡ record { ops = []; hold = hold } }
    {
        Inbox {
            inner: OpenInbox::new(alloc, hold),
        }
    }

    /// What waits already of the operation.
    pub fn find(&self, op: &Op) -> Found
        ensures same { (result ≡ Found.Same) ↔ (has_op self.now.ops op.now ≡ true) }
        ensures clash { (result ≡ Found.Clash)
            ↔ ((has_op self.now.ops op.now ≡ false) × (id_held self.now.ops (id_of op.now) ≡ true)) }
        ensures absent { (result ≡ Found.Absent)
            ↔ ((has_op self.now.ops op.now ≡ false) × (id_held self.now.ops (id_of op.now) ≡ false)) }
    {
        self.inner.find(op)
    }

    /// One operation more, after those that wait. A `PushFault` hands the operation back, and the inbox is as before.
    pub fn push(&mut self, op: Op) -> Result<(), PushFault>
        ensures ok { OnOk result (self.new ≡ record self.old { ops = self.old.ops ++ op ∷ [] }) }
        ensures full { (result ≡ Err (PushFault.Full op)) ↔ (length self.old.ops ≡ self.old.hold) }
        ensures err { OnErr result (self.new ≡ self.old) }
        ensures handed_back { IfErr result (λ fault. refused_op fault ≡ op) }
        ensures within { length self.new.ops ≤ self.new.hold }
    {
        self.inner.push(op)
    }

    /// The first place of an operation that can be accepted or is stray.
    pub fn next_decidable<F: Facts>(&self, facts: &F) -> Option<usize>
        ensures { result ≡ first_position (λ op. decides (verdict (F.history facts.now) op)) self.now.ops }
    {
        'ops: for position in 0..self.inner.len() {
            if is_decided(facts.verdict(self.inner.op_at(position))) {
                return Some(position);
            }
        }
        None
    }

    /// One leaves, and those after it close up.
    pub fn remove(&mut self, position: usize) -> Op
        requires { position < length self.old.ops }
        ensures op { slice_get self.old.ops position ≡ Some result }
        ensures rest { self.new.ops ≡ without self.old.ops position }
        ensures hold { self.new.hold ≡ self.old.hold }
        ensures within { length self.new.ops ≤ self.new.hold }
    {
        let op = self.inner.remove(position);
        self.inner.close();
        op
    }

    /// The greatest counter of the replica among the identifiers that waiting operations have or name.
    pub fn greatest(&self, replica: u32) -> Option<u32>
        ensures { IsGreatest (counters replica self.now.ops) result }
    {
        self.inner.greatest(replica)
    }

    /// The operations, in the order in which they came.
    pub fn ops(&self) -> &[Op]
        ensures ops { result.now ≡ self.now.ops }
        ensures within { length self.now.ops ≤ self.now.hold }
    {
        self.inner.ops()
    }
}

/// Whether an operation that waits can leave: it can be accepted, or it is stray.
pub fn is_decided(verdict: Verdict) -> bool
    ensures { result ≡ decides verdict }
{
    matches!(verdict, Verdict::Ready | Verdict::Stray(_))
}
