//! The list of operations that keeps what was typed in a row, and Deletes in a row, as one part each.

ghost use Rattle.std.specs.Prelude.{◌≡◌, ◌<◌, ◌≤◌, ◌+◌, ◌^◌, ◌++◌, ◌∷◌, [], All, IfErr, IfNone, IfOk, IfSome, IsSome, OnErr, Some, false, OnOk, drop, length, option_map, slice_get, take, ◌-◌};
ghost use Rattle.fugue_ids.specs.Runs.{run_from};
ghost use Rattle.fugue_ids.specs.declared.op.Op.{Op as AnyOp};
ghost use Rattle.fugue_ids.specs.declared.op.Op.TheVariants.{Delete as DeleteOp};
ghost use Rattle.op_runs.specs.Deletions.{deletes_by};
ghost use Rattle.op_runs.specs.Entries.{IsPartedIn};
ghost use Rattle.op_runs.specs.Finding.{op_of};
ghost use Rattle.op_runs.specs.Growing.{AddsDeletes, AddsRun, IsLastPart};
ghost use Rattle.op_runs.specs.Parts.{IsOther, IsWholePart, part_len};
ghost use Rattle.op_runs.specs.CommonPrefix.{common_prefix};
ghost use Rattle.op_runs.specs.declared.part.Part.{Part};

use crate::find::{OpRef, last_op, op_at};
use crate::part::{
    Deletes, MOST_LISTED, Part, TypedPart, add_part, last_of, longer, set_last, take_off,
};
use crate::repeat::repeats_at;
use crate::slice::{OpSlice, slice_at};
use fugue_ids::{ElementId, NoMemory, Op, RunStart, read_text};
use std::alloc::Global;
use std::marker::Model;

/// An allocation failure for an operation, which is handed back.
#[derive(Debug, Drop)]
pub struct NoMemoryFor {
    pub op: Op,
}

/// The operations of a history in the order in which they came. It is seen as the list of them.
///
/// Texts that were typed in a row take one entry together, and so do Deletes of neighbours, forwards or backwards. Each
/// other operation takes one of its own.
#[derive(Drop)]
pub struct OpRuns {
    parts: Vec<Part>,
    /// The scalars of the Texts.
    letters: Vec<char>,
    /// The Sections and the Notes.
    others: Vec<Op>,
    /// The position of the first operation of each part.
    firsts: Vec<u32>,
    count: u32,
}

impl Model for OpRuns {
    ghost use Rattle.std.specs.Prelude.{List};
    ghost use Rattle.fugue_ids.specs.declared.op.Op.{Op};
    ghost use Rattle.op_runs.specs.Parts.{AreParts, ops_of};

    ghost Value = { List Op };

    ghost view = { λ s. ops_of s.letters.items s.others.items s.parts.items };

    ghost invariant = { λ s. AreParts s.letters.items s.others.items s.parts.items s.firsts.items s.count };
}

/// A run goes on with the last part, or is one more.
fn add_run(
    parts: &mut Vec<Part>,
    firsts: &mut Vec<u32>,
    first: u32,
    run: TypedPart,
) -> Result<(), NoMemory>
    requires { (last : Part) → IsLastPart parts.old.items last → part_len last + run.count < 2 ^ 32 }
    ensures ok { OnOk result (AddsRun parts.old.items parts.new.items firsts.old.items firsts.new.items first run) }
    ensures err { OnErr result (parts.new.items ≡ parts.old.items) }
    ensures firsts_stay { OnErr result (firsts.new.items ≡ firsts.old.items) }
{
    if let Some(Part::Typed(last)) = last_of(parts) {
        if last.start.goes_on(last.count as usize, &run.start) {
            let more = TypedPart {
                start: last.start,
                at: last.at,
                count: last.count + run.count,
            };
            set_last(parts, Part::Typed(more));
            return Ok(());
        }
    }
    add_part(parts, firsts, first, Part::Typed(run))
}

/// Deletes of neighbours, at most so many, go on with the last part, or are one more. Returns how many came.
fn add_deletes(
    parts: &mut Vec<Part>,
    firsts: &mut Vec<u32>,
    first: u32,
    target: ElementId,
    most: u32,
) -> Result<u32, NoMemory>
    requires whole { All IsWholePart parts.old.items }
    requires some { 0 < most }
    requires counters { target.counter + most ≤ 2 ^ 32 }
    requires room { (last : Part) → IsLastPart parts.old.items last → part_len last + most ≤ MOST_LISTED }
    ensures ok { IfOk result
        (λ n. AddsDeletes parts.old.items parts.new.items firsts.old.items firsts.new.items first target most n) }
    ensures err { OnErr result (parts.new.items ≡ parts.old.items) }
    ensures firsts_stay { OnErr result (firsts.new.items ≡ firsts.old.items) }
{
    if let Some(Part::Deleted(last)) = last_of(parts) {
        if let Some(more) = longer(&last, target, most) {
            let came = more.count - last.count;
            set_last(parts, Part::Deleted(more));
            return Ok(came);
        }
    }
    let deletes = Deletes {
        target,
        count: most,
        down: false,
    };
    add_part(parts, firsts, first, Part::Deleted(deletes))?;
    Ok(most)
}

impl OpRuns {
    /// No operations. It takes no memory.
    pub fn new(alloc: Global) -> OpRuns
        ensures { result ≡ [] }
    {
        OpRuns {
            parts: Vec::new(alloc),
            letters: Vec::new(alloc),
            others: Vec::new(alloc),
            firsts: Vec::new(alloc),
            count: 0,
        }
    }

    /// How many operations there are.
    pub fn len(&self) -> usize
        ensures { result ≡ length self.now }
    {
        self.count as usize
    }

    /// How many entries the operations take: no entry could take the first operation of the next one too.
    pub fn entries(&self) -> usize
        ensures { IsPartedIn self.now result }
    {
        self.parts.as_slice().len()
    }

    /// The operation after so many others.
    pub fn get(&self, position: usize) -> Option<OpRef<'_>>
        ensures { option_map op_of result ≡ slice_get self.now position }
    {
        op_at(
            &self.parts,
            &self.firsts,
            &self.letters,
            &self.others,
            self.count,
            position,
        )
    }

    /// The last operation.
    pub fn last(&self) -> Option<OpRef<'_>>
        ensures { option_map op_of result ≡ slice_get self.now (length self.now - 1) }
    {
        last_op(&self.parts, &self.letters, &self.others)
    }

    /// Texts that were typed in a row, after all others. After an allocation failure all is as before.
    pub fn push_run(&mut self, start: RunStart, text: &[char]) -> Result<(), NoMemory>
        requires some { 0 < length text.now }
        requires counters { start.id.counter + length text.now ≤ 2 ^ 32 }
        requires room { length self.old + length text.now ≤ MOST_LISTED }
        ensures ok { OnOk result (self.new ≡ self.old ++ run_from start text.now) }
        ensures err { OnErr result (self.new ≡ self.old) }
    {
        let at = self.letters.as_slice().len();
        let run = TypedPart {
            start,
            at: at as u32,
            count: text.len() as u32,
        };
        self.letters.extend_from_slice(text)?;
        match add_run(&mut self.parts, &mut self.firsts, self.count, run) {
            Ok(()) => {
                self.count += text.len() as u32;
                Ok(())
            }
            Err(NoMemory) => {
                self.letters.truncate(at);
                Err(NoMemory)
            }
        }
    }

    /// The first of so many Deletes, and those of the others that can stand in one part with it. Returns how many.
    fn push_some_deletes(&mut self, first: ElementId, most: u32) -> Result<u32, NoMemory>
        requires some { 0 < most }
        requires counters { first.counter + most ≤ 2 ^ 32 }
        requires room { length self.old + most ≤ MOST_LISTED }
        ensures some { IfOk result (λ n. 0 < n) }
        ensures within { IfOk result (λ n. n ≤ most) }
        ensures ok { IfOk result (λ n. self.new ≡ self.old ++ deletes_by false first n) }
        ensures err { OnErr result (self.new ≡ self.old) }
    {
        let count = add_deletes(&mut self.parts, &mut self.firsts, self.count, first, most)?;
        self.count += count;
        Ok(count)
    }

    /// The Deletes of so many neighbours, from this identifier on, after all others. After an allocation failure all is
    /// as before.
    pub fn push_deletes(&mut self, first: ElementId, count: u32) -> Result<(), NoMemory>
        requires counters { first.counter + count ≤ 2 ^ 32 }
        requires room { length self.old + count ≤ MOST_LISTED }
        ensures ok { OnOk result (self.new ≡ self.old ++ deletes_by false first count) }
        ensures err { OnErr result (self.new ≡ self.old) }
    {
        let all = Deletes {
            target: first,
            count,
            down: false,
        };
        let mut done = 0;
        'pushed: while done < count {
            let next = all.nth(done as usize);
            let Ok(more) = self.push_some_deletes(next, count - done) else {
                self.pop(done as usize);
                return Err(NoMemory);
            };
            done += more;
        }
        Ok(())
    }

    /// A Delete more.
    fn push_delete(&mut self, target: ElementId) -> Result<(), NoMemory>
        requires room { length self.old < MOST_LISTED }
        ensures ok { OnOk result (self.new ≡ self.old ++ DeleteOp target ∷ []) }
        ensures err { OnErr result (self.new ≡ self.old) }
    {
        // That the counter fits is told where it is read.
        let _counter = target.counter;
        self.push_deletes(target, 1)
    }

    /// A Section or a Note more.
    fn push_other(&mut self, op: Op) -> Result<(), NoMemoryFor>
        requires other { IsOther op }
        requires room { length self.old < MOST_LISTED }
        ensures ok { OnOk result (self.new ≡ self.old ++ op ∷ []) }
        ensures err { OnErr result (self.new ≡ self.old) }
        ensures op_back { IfErr result (λ e. e.op ≡ op) }
    {
        let place = self.others.as_slice().len() as u32;
        if let Err(refused) = self.others.push(op) {
            return Err(NoMemoryFor { op: refused.value });
        }
        match add_part(
            &mut self.parts,
            &mut self.firsts,
            self.count,
            Part::Other(place),
        ) {
            Ok(()) => {
                self.count += 1;
                Ok(())
            }
            Err(NoMemory) => {
                let op = self.others.pop().unwrap();
                Err(NoMemoryFor { op })
            }
        }
    }

    /// One operation more, after all others. After an allocation failure all is as before.
    pub fn push(&mut self, op: Op) -> Result<(), NoMemoryFor>
        requires room { length self.old < MOST_LISTED }
        ensures ok { OnOk result (self.new ≡ self.old ++ op ∷ []) }
        ensures err { OnErr result (self.new ≡ self.old) }
        ensures op_back { IfErr result (λ e. e.op ≡ op) }
    {
        if let Some((start, ch)) = read_text(&op) {
            return match self.push_run(start, &[ch]) {
                Ok(()) => Ok(()),
                Err(NoMemory) => Err(NoMemoryFor { op }),
            };
        }
        if let Op::Delete { target } = &op {
            return match self.push_delete(*target) {
                Ok(()) => Ok(()),
                Err(NoMemory) => Err(NoMemoryFor { op }),
            };
        }
        self.push_other(op)
    }

    /// The operations from a position on. It takes no memory.
    pub fn from(&self, position: usize) -> OpSlice<'_>
        ensures { result ≡ drop position self.now }
    {
        slice_at(
            &self.parts,
            &self.firsts,
            &self.letters,
            &self.others,
            self.count,
            position,
        )
    }

    /// How many of the Texts of a run the list has, one after the other, from a position on.
    pub fn repeats(&self, position: usize, start: &RunStart, text: &[char]) -> usize
        ensures { result ≡ common_prefix (drop position self.now) (run_from start.now text.now) }
    {
        repeats_at(
            &self.parts,
            &self.firsts,
            &self.letters,
            &self.others,
            self.count,
            position,
            start,
            text,
        )
    }

    /// Takes operations of the last part off, at most so many.
    fn pop_some(&mut self, most: usize) -> usize
        requires some { 0 < most }
        requires within { most ≤ length self.old }
        ensures some { 0 < result }
        ensures within { result ≤ most }
        ensures others { self.new ≡ take (length self.old - result) self.old }
    {
        let Some(last) = last_of(&self.parts) else {
            return most;
        };
        let count = take_off(&mut self.parts, &mut self.firsts, &last, most);
        let letters = self.letters.as_slice().len() - last.letters_of(count);
        self.letters.truncate(letters);
        let others = self.others.as_slice().len() - last.others_in();
        self.others.truncate(others);
        self.count -= count as u32;
        count
    }

    /// Takes the last operation off and hands it out, where that is a Section or a Note. It takes no memory.
    pub fn take_last(&mut self) -> Option<Op>
        ensures some { IfSome result (λ op. self.old ≡ self.new ++ op ∷ []) }
        ensures kind { IfSome result (λ op. IsOther op) }
        ensures none { IfNone result (self.new ≡ self.old) }
        ensures other { (op : AnyOp) → Some op ≡ slice_get self.old (length self.old - 1) → IsOther op
            → IsSome result }
    {
        let Some(last) = last_of(&self.parts) else {
            return None;
        };
        if last.others_in() == 0 {
            return None;
        }
        self.parts.pop();
        self.firsts.pop();
        self.count -= 1;
        self.others.pop()
    }

    /// Takes so many operations off the end. It takes no memory.
    pub fn pop(&mut self, count: usize)
        requires { count ≤ length self.old }
        ensures { self.new ≡ take (length self.old - count) self.old }
    {
        let mut left = count;
        while left > 0 {
            left -= self.pop_some(left);
        }
    }
}
