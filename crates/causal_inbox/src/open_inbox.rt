//! The pending operations while many leave: indexed, and with holes that are closed afterwards.
ghost use Rattle.std.specs.Prelude.{◌≡◌, ◌↔◌, ◌<◌, ◌≤◌, ◌++◌, ◌∷◌, [], None, Some, true, false, length};
ghost use Rattle.std.specs.Prelude.{remove as without, slice_get, OnOk, OnErr, IfErr, IsTrue, ◌+◌, ◌^◌};
ghost use Rattle.fugue_ids.specs.Ops.{id_of};
ghost use Rattle.origin_model.specs.operations.History.{has_op};
ghost use Rattle.origin_model.specs.operations.Verdict.{id_held};
ghost use Rattle.origin_model.specs.operations.Counters.{counters, IsGreatest};
ghost use Rattle.causal_inbox.specs.Faults.{refused_op};
ghost use Rattle.causal_inbox.specs.Naming.{AreConcerned, naming};

use crate::index::Index;
use crate::key::named_key;
use crate::{Found, Gapped, PushFault};
use fugue_ids::{ElementId, Op};
use std::alloc::Global;
use std::marker::Model;

/// An inbox out of which many leave: one that leaves moves no others, and a gap stays until the inbox is closed.
#[derive(Drop)]
pub struct OpenInbox {
    ops: Gapped<Op>,
    index: Index,
    hold: u32,
}

impl Model for OpenInbox {
    ghost use Rattle.causal_inbox.specs.Waiting.{IsIndexed, OpenWaiting};

    ghost Value = { OpenWaiting };

    ghost view = { λ inbox. record { ops = inbox.ops.items; hold = inbox.hold; gaps = inbox.ops.gaps } };

    ghost invariant = { λ inbox. IsIndexed inbox.ops.items inbox.hold inbox.index.ages.items inbox.index.lists };
}

impl OpenInbox {
    pub fn new(alloc: Global, hold: u32) -> OpenInbox
        ensures { result ≡ record { ops = []; hold = hold; gaps = 0 } }
    {
        OpenInbox {
            ops: Gapped::new(alloc),
            index: Index::new(alloc),
            hold,
        }
    }

    /// What waits already of the operation. Where nothing waits this is one comparison.
    pub fn find(&self, op: &Op) -> Found
        ensures same { (result ≡ Found.Same) ↔ (has_op self.now.ops op.now ≡ true) }
        ensures clash { (result ≡ Found.Clash)
            ↔ ((has_op self.now.ops op.now ≡ false) × (id_held self.now.ops (id_of op.now) ≡ true)) }
        ensures absent { (result ≡ Found.Absent)
            ↔ ((has_op self.now.ops op.now ≡ false) × (id_held self.now.ops (id_of op.now) ≡ false)) }
    {
        if self.ops.len() == 0 {
            return Found::Absent;
        }
        if self.index.has_equal(&self.ops, op) {
            Found::Same
        } else if self.index.has_id(&self.ops, op.id()) {
            Found::Clash
        } else {
            Found::Absent
        }
    }

    /// One operation more, after those that wait. A `PushFault` hands the operation back, and the inbox is as before.
    pub fn push(&mut self, op: Op) -> Result<(), PushFault>
        ensures ok { OnOk result (self.new ≡ record self.old { ops = self.old.ops ++ op ∷ [] }) }
        ensures full { (result ≡ Err (PushFault.Full op)) ↔ (length self.old.ops ≡ self.old.hold) }
        ensures err { OnErr result (self.new ≡ self.old) }
        ensures handed_back { IfErr result (λ fault. refused_op fault ≡ op) }
        ensures same_gaps { self.new.gaps ≡ self.old.gaps }
        ensures within { length self.new.ops ≤ self.new.hold }
    {
        if self.ops.len() >= self.hold as usize {
            return Err(PushFault::Full(op));
        }
        let Ok(()) = self.index.add(&op) else {
            return Err(PushFault::NoMemory(op));
        };
        match self.ops.push(op) {
            Ok(()) => Ok(()),
            Err(refused) => {
                self.index.remove(&refused.value, self.ops.len());
                Err(PushFault::NoMemory(refused.value))
            }
        }
    }

    /// How many wait.
    pub fn len(&self) -> usize
        ensures len { result ≡ length self.now.ops }
        ensures within { length self.now.ops ≤ self.now.hold }
    {
        self.ops.len()
    }

    pub fn op_at(&self, position: usize) -> &Op
        requires { position < length self.now.ops }
        ensures { slice_get self.now.ops position ≡ Some result.now }
    {
        self.ops.get(position)
    }

    /// The position of the operation that rests on the identifier after k others that do.
    pub fn nth_naming(&self, id: ElementId, k: usize) -> Option<usize>
        ensures { result ≡ slice_get (naming id self.now.ops) k }
    {
        self.index.nth(&named_key(id), k)
    }

    /// One leaves, and those after it come one position forward. A gap may stay.
    pub fn remove(&mut self, position: usize) -> Op
        requires { position < length self.old.ops }
        ensures op { slice_get self.old.ops position ≡ Some result }
        ensures rest { self.new.ops ≡ without self.old.ops position }
        ensures hold { self.new.hold ≡ self.old.hold }
        ensures within { length self.new.ops ≤ self.new.hold }
    {
        let op = self.ops.remove(position, filler());
        self.index.remove(&op, position);
        op
    }

    /// The operations lie in one slice again. Where none left, nothing moves.
    pub fn close(&mut self)
        ensures { self.new ≡ record self.old { gaps = 0 } }
    {
        self.ops.close();
    }

    /// The greatest counter of the replica among the identifiers that waiting operations have or name.
    pub fn greatest(&self, replica: u32) -> Option<u32>
        ensures { IsGreatest (counters replica self.now.ops) result }
    {
        self.index.greatest(replica)
    }

    /// Whether something that waits has or names one of so many identifiers, from this one on. Where nothing waits this
    /// is one comparison.
    pub fn concerns(&self, first: ElementId, count: u32) -> bool
        requires { first.counter + count ≤ 2 ^ 32 }
        ensures { IsTrue result ↔ AreConcerned self.now.ops first count }
    {
        if self.ops.len() == 0 || count == 0 {
            return false;
        }
        self.index.concerns(first, count)
    }

    /// The operations in one slice, where there is no gap.
    pub fn ops(&self) -> &[Op]
        requires { self.now.gaps ≡ 0 }
        ensures ops { result.now ≡ self.now.ops }
        ensures within { length self.now.ops ≤ self.now.hold }
    {
        self.ops.as_slice()
    }
}

/// What lies in the place of an operation that left: it holds no memory.
fn filler() -> Op
    ensures { id_of result ≡ None }
{
    Op::Delete {
        target: ElementId {
            replica: 1,
            counter: 0,
        },
    }
}
