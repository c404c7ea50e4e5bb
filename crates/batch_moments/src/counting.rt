//! How many operations of each kind there are.
ghost use Rattle.std.specs.Prelude.{◌≡◌, ◌++◌, ◌∷◌, [], drop, nat_eq, if◌then◌else◌, List, OnOk, IfOk, take};
ghost use Rattle.op_runs.specs.Finding.{op_of};
ghost use Rattle.fugue_ids.specs.declared.op.Op.{Op as AnyOp};
ghost use Rattle.batch_moments.specs.Counts.{reported_parts as parts_reported, text_parts as text_parts_of};
ghost use Rattle.batch_moments.specs.Steps.{AreOf, HasTextMore, HaveRoom};

use crate::Part;
use fugue_ids::{NoMemory, Op};
use op_runs::{OpRef, OpSlice};
use std::alloc::Global;
use std::collections::BTreeMap;

/// Counts of operations, the Texts by the replicas that made them.
#[derive(Drop)]
pub(crate) struct Counts {
    texts: BTreeMap<u32, usize>,
    deletes: usize,
    sections: usize,
    notes: usize,
}

impl Counts {
    fn new(alloc: Global) -> Counts
        ensures { AreOf [] result }
    {
        Counts {
            texts: BTreeMap::new(alloc),
            deletes: 0,
            sections: 0,
            notes: 0,
        }
    }

    /// Counts a Text of the replica.
    fn add_text(&mut self, replica: u32) -> Result<(), NoMemory>
        requires { HaveRoom self.old }
        ensures { OnOk result (HasTextMore replica self.old self.new) }
    {
        let count = self.texts.get(&replica).copied().unwrap_or(0);
        self.texts.insert(replica, count + 1)?;
        Ok(())
    }

    /// Counts the operation.
    fn add(&mut self, op: &OpRef<'_>) -> Result<(), NoMemory>
        requires { HaveRoom self.old }
        ensures { OnOk result ((before : List AnyOp) → AreOf before self.old → AreOf (before ++ op_of op.now ∷ []) self.new) }
    {
        match op {
            OpRef::Letter(start, _) => self.add_text(start.id.replica),
            OpRef::Deletion(_) => {
                self.deletes += 1;
                Ok(())
            }
            OpRef::Whole(op) => self.add_whole(op),
        }
    }

    fn add_whole(&mut self, op: &Op) -> Result<(), NoMemory>
        requires { HaveRoom self.old }
        ensures { OnOk result ((before : List AnyOp) → AreOf before self.old → AreOf (before ++ op.now ∷ []) self.new) }
    {
        match op {
            Op::Text { id, .. } => self.add_text(id.replica)?,
            Op::Delete { .. } => self.deletes += 1,
            Op::Section { .. } => self.sections += 1,
            Op::Note { .. } => self.notes += 1,
        }
        Ok(())
    }

    /// The counts of so many operations at the front, which are taken off.
    fn of(alloc: Global, ops: &mut OpSlice<'_>, count: usize) -> Result<Counts, NoMemory>
        ensures counts { IfOk result (AreOf (take count ops.old)) }
        ensures rest { OnOk result (ops.new ≡ drop count ops.old) }
    {
        let mut counts = Counts::new(alloc);
        let mut left = count;
        'ops: while left > 0 {
            let Some(op) = ops.next_op() else {
                return Ok(counts);
            };
            counts.add(&op)?;
            left -= 1;
        }
        Ok(counts)
    }
}

/// Appends what is reported of so many, where there are some.
fn tell(parts: &mut Vec<Part>, count: usize, part: Part) -> Result<(), NoMemory>
    ensures { OnOk result (parts.new.items ≡ parts.old.items ++ (if nat_eq count 0 then [] else part ∷ [])) }
{
    if count > 0 {
        parts.push(part)?;
    }
    Ok(())
}

/// What is reported of the Texts.
fn text_parts(alloc: Global, counts: &Counts) -> Result<Vec<Part>, NoMemory>
    ensures { IfOk result (λ parts. (ops : List AnyOp) → AreOf ops counts.now → parts.items ≡ text_parts_of ops) }
{
    let mut parts = Vec::new(alloc);
    'texts: for (replica, count) in counts.texts.iter() {
        parts.push(Part::Texts(*replica, *count))?;
    }
    Ok(parts)
}

/// What is reported of so many operations at the front, which are taken off.
pub(crate) fn parts_of(
    alloc: Global,
    ops: &mut OpSlice<'_>,
    count: usize,
) -> Result<Vec<Part>, NoMemory>
    ensures parts { IfOk result (λ parts. parts.items ≡ parts_reported (take count ops.old)) }
    ensures rest { OnOk result (ops.new ≡ drop count ops.old) }
{
    let counts = Counts::of(alloc, ops, count)?;
    let mut parts = text_parts(alloc, &counts)?;
    tell(&mut parts, counts.deletes, Part::Deletes(counts.deletes))?;
    tell(&mut parts, counts.sections, Part::Sections(counts.sections))?;
    tell(&mut parts, counts.notes, Part::Notes(counts.notes))?;
    Ok(parts)
}
