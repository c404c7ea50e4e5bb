//! Positions in the log of applied operations, by identifier, and those of the Sections and Notes.
ghost use Rattle.std.specs.Prelude.{◌≡◌, ◌<◌, ◌≤◌, ◌+◌, ◌^◌, ◌↔◌, ◌∷◌, ◌++◌, [], ℕ, List, length, option_map, IsTrue, OnOk, OnErr};
ghost use Rattle.std.specs.FinMap.{get};
ghost use Rattle.fugue_ids.specs.declared.op.Op.{Op as AnyOp};
ghost use Rattle.op_runs.specs.Finding.{op_of};
ghost use Rattle.origin_model.specs.operations.Verdict.{verdict};
ghost use Rattle.origin_model.specs.declared.operations.Verdict.TheVariants.{Ready};
ghost use Rattle.replica_core.specs.Index.{ArePositions, IsUnnoted, is_section_or_note as is_either, position_if, with_positions};
ghost use Rattle.replica_core.specs.Index.{sections_and_notes as positions_in};
ghost use Rattle.stretch_map.specs.Rules.{AreFree, IsGreatestIn};

use fugue_ids::{ElementId, NoMemory, Op};
use op_runs::OpRef;
use std::alloc::Global;
use stretch_map::{Position, StretchMap};

/// Where accepted operations are found, the oldest at 0. What was typed in one go is found by one entry.
#[derive(Drop)]
pub(crate) struct Index {
    /// The position of each operation that has an identifier of its own, as all but Deletes have.
    positions: StretchMap<Position>,
    /// Those of the Sections and Notes, ascending.
    sections_and_notes: Vec<usize>,
}

fn is_section_or_note(op: &Op) -> bool
    ensures { result ≡ is_either op.now }
{
    match op {
        Op::Section { .. } | Op::Note { .. } => true,
        Op::Text { .. } | Op::Delete { .. } => false,
    }
}

impl Index {
    pub fn new(alloc: Global) -> Index
        ensures found { ArePositions result.positions.values [] }
        ensures listed { result.sections_and_notes.items ≡ [] }
    {
        Index {
            positions: StretchMap::new(alloc),
            sections_and_notes: Vec::new(alloc),
        }
    }

    /// The positions of the Sections and Notes, ascending.
    pub fn sections_and_notes(&self) -> &[usize]
        ensures { result.now ≡ self.now.sections_and_notes.items }
    {
        self.sections_and_notes.as_slice()
    }

    /// The position of the operation that has the identifier.
    pub fn position(&self, id: ElementId) -> Option<usize>
        ensures { result ≡ option_map (λ p. p.at) (get self.now.positions.values id) }
    {
        match self.positions.get(id) {
            Some(position) => Some(position.at),
            None => None,
        }
    }

    /// The greatest counter of the replica among the identifiers that have a position.
    pub fn greatest(&self, replica: u32) -> Option<u32>
        requires { 0 < replica }
        ensures { IsGreatestIn (get self.now.positions.values) replica result }
    {
        self.positions.greatest(replica)
    }

    /// Whether none of so many identifiers, from this one on, has a position.
    pub fn is_free(&self, first: ElementId, count: u32) -> bool
        requires { first.counter + count ≤ 2 ^ 32 }
        ensures { IsTrue result ↔ AreFree (get self.now.positions.values) first count }
    {
        self.positions.is_free(first, count)
    }

    /// One operation more, at that position. After an allocation failure all is as before.
    pub fn note(&mut self, op: &Op, position: usize) -> Result<(), NoMemory>
        requires { IsUnnoted self.old.positions.values op.now }
        ensures ok { OnOk result ((h : List AnyOp) → ArePositions self.old.positions.values h
            → length h ≡ position
            → ArePositions self.new.positions.values (op.now ∷ h)) }
        ensures listed { OnOk result ((h : List AnyOp) → self.old.sections_and_notes.items ≡ positions_in h
            → length h ≡ position
            → self.new.sections_and_notes.items ≡ positions_in (op.now ∷ h)) }
        ensures err_positions { OnErr result (self.new.positions ≡ self.old.positions) }
        ensures err_listed { OnErr result (self.new.sections_and_notes.items ≡ self.old.sections_and_notes.items) }
    {
        self.list(op, position)?;
        match self.place(op, position) {
            Ok(()) => Ok(()),
            Err(NoMemory) => {
                self.unlist(op);
                Err(NoMemory)
            }
        }
    }

    /// The positions of operations whose identifiers follow one another, the first at that position: by one entry. None
    /// is a Delete, a Section or a Note. After an allocation failure all is as before.
    pub fn note_run(
        &mut self,
        first: ElementId,
        count: u32,
        position: usize,
    ) -> Result<(), NoMemory>
        requires some { 0 < count }
        requires counters { first.counter + count ≤ 2 ^ 32 }
        requires positions { position + count < 2 ^ 64 }
        requires free { AreFree (get self.old.positions.values) first count }
        ensures ok { OnOk result (self.new.positions.values
            ≡ with_positions first position count self.old.positions.values) }
        ensures listed { self.new.sections_and_notes ≡ self.old.sections_and_notes }
        ensures err { OnErr result (self.new ≡ self.old) }
    {
        let position = Position { at: position };
        self.positions.insert_run(first, count, position)
    }

    /// The newest operation less. This wants no memory, since no other one has the position after it.
    pub fn forget(&mut self, op: &Op)
        ensures found { (h : List AnyOp) → ArePositions self.old.positions.values (op.now ∷ h)
            → verdict h op.now ≡ Ready
            → ArePositions self.new.positions.values h }
        ensures listed { (h : List AnyOp) → self.old.sections_and_notes.items ≡ positions_in (op.now ∷ h)
            → self.new.sections_and_notes.items ≡ positions_in h }
    {
        self.unlist(op);
        self.remove(op);
    }

    /// The same of an operation as it stands in the list.
    pub fn forget_found(&mut self, op: &OpRef<'_>)
        ensures found { (h : List AnyOp) → ArePositions self.old.positions.values (op_of op.now ∷ h)
            → verdict h (op_of op.now) ≡ Ready
            → ArePositions self.new.positions.values h }
        ensures listed { (h : List AnyOp) → self.old.sections_and_notes.items ≡ positions_in (op_of op.now ∷ h)
            → self.new.sections_and_notes.items ≡ positions_in h }
    {
        match op {
            OpRef::Letter(start, ch) => self.forget(&start.text(*ch)),
            OpRef::Deletion(target) => self.forget(&Op::Delete { target: *target }),
            OpRef::Whole(op) => self.forget(op),
        }
    }

    /// The position of an operation, where that is a Section or a Note.
    fn list(&mut self, op: &Op, position: usize) -> Result<(), NoMemory>
        ensures positions { self.new.positions ≡ self.old.positions }
        ensures ok { OnOk result (self.new.sections_and_notes.items ≡ self.old.sections_and_notes.items
            ++ position_if (is_either op.now) position) }
        ensures err { OnErr result (self.new.sections_and_notes.items ≡ self.old.sections_and_notes.items) }
    {
        if is_section_or_note(op) {
            self.sections_and_notes.push(position)?;
        }
        Ok(())
    }

    /// The last position less, where the operation is a Section or a Note.
    fn unlist(&mut self, op: &Op)
        ensures positions { self.new.positions ≡ self.old.positions }
        ensures listed { (xs : List ℕ) (k : ℕ)
            → self.old.sections_and_notes.items ≡ xs ++ position_if (is_either op.now) k
            → self.new.sections_and_notes.items ≡ xs }
    {
        if is_section_or_note(op) {
            let _last = self.sections_and_notes.pop();
        }
    }

    /// The position of an operation, where that has an identifier.
    fn place(&mut self, op: &Op, position: usize) -> Result<(), NoMemory>
        requires { IsUnnoted self.old.positions.values op.now }
        ensures ok { OnOk result ((h : List AnyOp) → ArePositions self.old.positions.values h
            → length h ≡ position
            → ArePositions self.new.positions.values (op.now ∷ h)) }
        ensures err { OnErr result (self.new ≡ self.old) }
        ensures listed { self.new.sections_and_notes ≡ self.old.sections_and_notes }
    {
        match op.id() {
            Some(id) => self.positions.insert(id, Position { at: position }),
            None => Ok(()),
        }
    }

    /// The newest operation's position less, where that has an identifier.
    fn remove(&mut self, op: &Op)
        ensures found { (h : List AnyOp) → ArePositions self.old.positions.values (op.now ∷ h)
            → verdict h op.now ≡ Ready
            → ArePositions self.new.positions.values h }
        ensures listed { self.new.sections_and_notes ≡ self.old.sections_and_notes }
    {
        if let Some(id) = op.id() {
            let _sure = self.positions.remove(id);
        }
    }
}
