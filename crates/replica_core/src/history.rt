//! The log of applied operations, with an index by which one is found by its identifier.
ghost use Rattle.std.specs.Prelude.{◌≡◌, ◌≢◌, ◌<◌, ◌≤◌, ◌+◌, ◌^◌, ◌∷◌, [], OnErr, OnOk, IfErr, IfNone, IfSome, IsSome, Some, drop, length};
ghost use Rattle.std.specs.Prelude.{option_map, slice_get, All, IsTrue, take, true, ◌↔◌};
ghost use Rattle.fugue_ids.specs.Ops.{op_eq};
ghost use Rattle.fugue_ids.specs.Runs.{run_from};
ghost use Rattle.fugue_ids.specs.declared.limits.TheConstants.{MOST_OPERATIONS};
ghost use Rattle.fugue_ids.specs.declared.op.Op.{Op as AnyOp};
ghost use Rattle.op_runs.specs.Finding.{op_of};
ghost use Rattle.op_runs.specs.Parts.{IsOther};
ghost use Rattle.op_runs.specs.Deletions.{deletes_up};
ghost use Rattle.origin_model.specs.edits.Edits.{ReadyInTurn, history_with};
ghost use Rattle.origin_model.specs.operations.History.{accepted, has_op, holder as holder_on, holds as holds_on, is_own};
ghost use Rattle.origin_model.specs.operations.Counters.{counters, IsGreatest};
ghost use Rattle.origin_model.specs.operations.Verdict.{fits as fits_role, verdict, Lawful};
ghost use Rattle.origin_model.specs.declared.operations.Verdict.TheVariants.{Ready};
ghost use Rattle.replica_core.specs.Due.{newest_id as newest_id_of};
ghost use Rattle.replica_core.specs.Feeding.{AreUnheld};
ghost use Rattle.replica_core.specs.Index.{newest_position, sections_and_notes as positions_in};

use crate::index::Index;
use fugue_ids::{ElementId, NoMemory, Op, RunStart};
use op_runs::{OpRef, OpRuns, OpSlice};
use origin_model::{NoMemoryFor, Role, fits};
use std::alloc::Global;
use std::marker::Model;

/// The accepted operations, with an index by which they are found. They are seen as the list of them, the newest first.
#[derive(Drop)]
pub(crate) struct History {
    ops: OpRuns,
    index: Index,
}

impl Model for History {
    ghost use Rattle.std.specs.Prelude.{List, reverse};
    ghost use Rattle.fugue_ids.specs.declared.op.Op.{Op};
    ghost use Rattle.origin_model.specs.operations.Verdict.{Lawful};
    ghost use Rattle.std.specs.Prelude.{◌≡◌};
    ghost use Rattle.replica_core.specs.Index.{ArePositions, sections_and_notes};

    ghost Value = { List Op };

    ghost view = { λ history. reverse history.ops };

    ghost invariant = { λ history. record {
      lawful : Lawful (reverse history.ops);
      indexed : ArePositions history.index.positions.values (reverse history.ops);
      listed : history.index.sections_and_notes.items ≡ sections_and_notes (reverse history.ops);
    } };
}

/// Whether the operation fits the role.
fn fits_ref(role: Role, op: &OpRef<'_>) -> bool
    ensures { result ≡ fits_role role (op_of op.now) }
{
    match op {
        OpRef::Letter(start, ch) => fits(role, &start.text(*ch)),
        OpRef::Deletion(target) => fits(role, &Op::Delete { target: *target }),
        OpRef::Whole(op) => fits(role, op),
    }
}

impl History {
    pub fn new(alloc: Global) -> History
        ensures { result ≡ [] }
    {
        History {
            ops: OpRuns::new(alloc),
            index: Index::new(alloc),
        }
    }

    /// How many operations there are.
    pub fn len(&self) -> usize
        ensures { result ≡ length self.now }
    {
        self.ops.len()
    }

    /// Those after so many older ones.
    pub fn from(&self, position: usize) -> OpSlice<'_>
        ensures { result ≡ drop position (accepted self.now) }
    {
        self.ops.from(position)
    }

    /// The operations, the oldest first.
    pub fn ops(&self) -> OpSlice<'_>
        ensures accepted { result ≡ accepted self.now }
        ensures lawful { Lawful self.now }
    {
        self.ops.from(0)
    }

    /// The operation after so many older ones.
    pub fn get(&self, position: usize) -> Option<OpRef<'_>>
        ensures { option_map op_of result ≡ slice_get (accepted self.now) position }
    {
        self.ops.get(position)
    }

    /// The operation that has the identifier.
    pub fn holder(&self, id: ElementId) -> Option<OpRef<'_>>
        ensures held { option_map op_of result ≡ holder_on self.now id }
        ensures lawful { Lawful self.now }
    {
        match self.index.position(id) {
            Some(position) => self.ops.get(position),
            None => None,
        }
    }

    /// Whether the operation that has the identifier is equal to another one.
    pub fn equals(&self, id: ElementId, op: &Op) -> Option<bool>
        ensures held { result ≡ option_map (λ holder. op_eq holder op.now) (holder_on self.now id) }
        ensures lawful { Lawful self.now }
    {
        match self.holder(id) {
            Some(holder) => Some(holder.equals(op)),
            None => None,
        }
    }

    /// Whether the operation that has the identifier fits the role.
    pub fn fits(&self, id: ElementId, role: Role) -> Option<bool>
        ensures { result ≡ option_map (fits_role role) (holder_on self.now id) }
    {
        match self.holder(id) {
            Some(holder) => Some(fits_ref(role, &holder)),
            None => None,
        }
    }

    /// Whether an operation has the identifier.
    pub fn holds(&self, id: ElementId) -> bool
        ensures { result ≡ holds_on self.now id }
    {
        self.index.position(id).is_some()
    }

    /// How many operations are older than the one that has the identifier.
    pub fn position(&self, id: ElementId) -> Option<usize>
        ensures { result ≡ newest_position (is_own id) self.now }
    {
        self.index.position(id)
    }

    /// The positions of the Sections and Notes, ascending.
    pub fn sections_and_notes(&self) -> &[usize]
        ensures { result.now ≡ positions_in self.now }
    {
        self.index.sections_and_notes()
    }

    /// Whether none of so many identifiers, from this one on, is held.
    pub fn is_free(&self, first: ElementId, count: u32) -> bool
        requires { first.counter + count ≤ 2 ^ 32 }
        ensures { IsTrue result ↔ AreUnheld self.now first count }
    {
        self.index.is_free(first, count)
    }

    /// How many Texts at the front of a run are there, one after the other.
    pub fn repeats(&self, start: &RunStart, text: &[char]) -> usize
        requires { start.now.id.counter + length text.now ≤ 2 ^ 32 }
        ensures within { result ≤ length text.now }
        ensures there { All (λ op. has_op self.now op ≡ true) (run_from start.now (take result text.now)) }
    {
        // One Text alone is found as any other operation is.
        if text.len() < 2 {
            return 0;
        }
        match self.index.position(start.id) {
            Some(position) => self.ops.repeats(position, start, text),
            None => 0,
        }
    }

    /// One operation more, which is Ready.
    pub fn push(&mut self, op: Op) -> Result<(), NoMemoryFor>
        requires ready { verdict self.old op ≡ Ready }
        requires room { length self.old < MOST_OPERATIONS }
        ensures ok { OnOk result (self.new ≡ op ∷ self.old) }
        ensures err { OnErr result (self.new ≡ self.old) }
        ensures op_back { IfErr result (λ e. e.op ≡ op) }
    {
        let Ok(()) = self.index.note(&op, self.ops.len()) else {
            return Err(NoMemoryFor { op });
        };
        match self.ops.push(op) {
            Ok(()) => Ok(()),
            Err(refused) => {
                let op = refused.op;
                self.index.forget(&op);
                Err(NoMemoryFor { op })
            }
        }
    }

    /// The Texts of a run, which are Ready in their turn: their positions are noted as one. After an allocation failure
    /// all is as before.
    pub fn push_run(&mut self, start: &RunStart, text: &[char]) -> Result<(), NoMemory>
        requires counters { start.now.id.counter + length text.now ≤ 2 ^ 32 }
        requires room { length self.old + length text.now ≤ MOST_OPERATIONS }
        requires ready { ReadyInTurn self.old (run_from start.now text.now) }
        ensures ok { OnOk result (self.new ≡ history_with self.old (run_from start.now text.now)) }
        ensures err { OnErr result (self.new ≡ self.old) }
    {
        if text.is_empty() {
            return Ok(());
        }
        let position = self.ops.len();
        self.ops.push_run(*start, text)?;
        let Ok(()) = self.index.note_run(start.id, text.len() as u32, position) else {
            self.ops.pop(text.len());
            return Err(NoMemory);
        };
        Ok(())
    }

    /// The Deletes of so many identifiers from this one on, which are Ready in their turn. They have no positions.
    /// After an allocation failure all is as before.
    pub fn push_deletes(&mut self, first: ElementId, count: u32) -> Result<(), NoMemory>
        requires counters { first.counter + count ≤ 2 ^ 32 }
        requires room { length self.old + count ≤ MOST_OPERATIONS }
        requires ready { ReadyInTurn self.old (deletes_up first count) }
        ensures ok { OnOk result (self.new ≡ history_with self.old (deletes_up first count)) }
        ensures err { OnErr result (self.new ≡ self.old) }
    {
        self.ops.push_deletes(first, count)
    }

    /// The greatest counter of the replica among the identifiers that the operations have or name. What one names is
    /// another's own.
    pub fn greatest(&self, replica: u32) -> Option<u32>
        requires { 0 < replica }
        ensures { IsGreatest (counters replica self.now) result }
    {
        self.index.greatest(replica)
    }

    pub fn newest(&self) -> Option<OpRef<'_>>
        ensures { option_map op_of result ≡ slice_get self.now 0 }
    {
        self.ops.last()
    }

    /// The identifier of the newest operation, where it has one of its own.
    pub fn newest_id(&self) -> Option<ElementId>
        ensures { result ≡ newest_id_of self.now }
    {
        match self.ops.last() {
            Some(op) => op.id(),
            None => None,
        }
    }

    /// Takes the newest operation back and hands it out, where that is a Section or a Note. It takes no memory.
    pub fn take_newest(&mut self) -> Option<Op>
        ensures some { IfSome result (λ op. self.old ≡ op ∷ self.new) }
        ensures none { IfNone result (self.new ≡ self.old) }
        ensures other { (op : AnyOp) → Some op ≡ slice_get self.old 0 → IsOther op → IsSome result }
    {
        let Some(op) = self.ops.take_last() else {
            return None;
        };
        self.index.forget(&op);
        Some(op)
    }

    /// Takes the newest operation back.
    fn pop(&mut self)
        requires { self.old ≢ [] }
        ensures { self.new ≡ drop 1 self.old }
    {
        let Some(newest) = self.ops.last() else {
            return;
        };
        self.index.forget_found(&newest);
        self.ops.pop(1);
    }

    /// Takes the newest operations back, so many. It takes no memory.
    pub fn pop_all(&mut self, count: usize)
        requires { count ≤ length self.old }
        ensures { self.new ≡ drop count self.old }
    {
        let mut left = count;
        'popped: while left > 0 {
            self.pop();
            left -= 1;
        }
    }
}
