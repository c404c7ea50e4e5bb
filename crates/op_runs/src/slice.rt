//! A slice of a list of operations, and the next row of Texts, Deletes or single operations in it.

ghost use Rattle.std.specs.Prelude.{◌≡◌, ◌<◌, ◌++◌, ◌∷◌, [], All, IfNone, IfSome, drop, length};
ghost use Rattle.op_runs.specs.Finding.{op_of};
ghost use Rattle.op_runs.specs.Parts.{IsSoundPart, firsts_of, ops_of, part_len, part_ops};
ghost use Rattle.op_runs.specs.Slices.{HasCounters, IsInFirst, stretch_ops};

use crate::find::{OpRef, op_in, spot_of};
use crate::part::{Deletes, Part};
use fugue_ids::{Op, RunStart};
use std::marker::Model;

/// Neighbouring operations of one kind, or a single operation.
#[derive(Clone, Copy)]
pub enum Stretch<'a> {
    /// Texts that were typed in a row: what the first says but for its scalar, and the scalars of all.
    Typed(RunStart, &'a [char]),
    /// Deletes in a row, of neighbouring identifiers.
    Deleted(Deletes),
    /// Any other operation.
    Single(&'a Op),
}

/// Operations of a list, from a position on, or those of a slice. It is seen as the list of them, and takes no memory.
#[derive(Drop)]
pub struct OpSlice<'a> {
    parts: &'a [Part],
    letters: &'a [char],
    others: &'a [Op],
    /// How many operations of the first part are left out.
    skip: usize,
    /// Operations after those of the parts. A slice has either parts or these.
    plain: &'a [Op],
    count: usize,
}

impl<'a> Model for OpSlice<'a> {
    ghost use Rattle.std.specs.Prelude.{List, ◌++◌, drop};
    ghost use Rattle.fugue_ids.specs.declared.op.Op.{Op};
    ghost use Rattle.op_runs.specs.Parts.{ops_of};
    ghost use Rattle.op_runs.specs.Slices.{AreSliced};

    ghost Value = { List Op };

    ghost view = { λ s. drop s.skip (ops_of s.letters.now s.others.now s.parts.now) ++ s.plain.now };

    ghost invariant = { λ s. AreSliced s.letters.now s.others.now s.parts.now s.skip s.plain.now s.count };
}

/// The operations of a part after the first `skip`.
fn stretch_of<'a>(part: &Part, letters: &'a [char], others: &'a [Op], skip: usize) -> Stretch<'a>
    requires sound { IsSoundPart (length letters.now) (length others.now) part.now }
    requires inside { skip < part_len part.now }
    ensures ops { stretch_ops result ≡ drop skip (part_ops letters.now others.now part.now) }
    ensures counters { HasCounters result }
{
    match part {
        Part::Typed(run) => {
            let at = run.at as usize;
            let text = &letters[at + skip..at + run.count as usize];
            Stretch::Typed(run.start.nth(skip), text)
        }
        Part::Deleted(deletes) => Stretch::Deleted(Deletes {
            target: deletes.nth(skip),
            count: deletes.count - skip as u32,
            down: deletes.down,
        }),
        Part::Other(place) => Stretch::Single(&others[*place as usize]),
    }
}

/// The operations of a list from a position on.
pub(crate) fn slice_at<'a>(
    parts: &'a [Part],
    firsts: &[u32],
    letters: &'a [char],
    others: &'a [Op],
    count: u32,
    position: usize,
) -> OpSlice<'a>
    requires sound { All (IsSoundPart (length letters.now) (length others.now)) parts.now }
    requires firsts { firsts.now ≡ firsts_of 0 parts.now }
    requires counted { count ≡ length (ops_of letters.now others.now parts.now) }
    ensures { result ≡ drop position (ops_of letters.now others.now parts.now) }
{
    match spot_of(parts, firsts, count, position) {
        Some(spot) => OpSlice::of_parts(
            &parts[spot.part..],
            letters,
            others,
            spot.offset,
            count as usize - position,
        ),
        None => OpSlice::of(&[]),
    }
}

impl<'a> OpSlice<'a> {
    /// The slice of these operations.
    pub fn of(ops: &'a [Op]) -> OpSlice<'a>
        ensures { result ≡ ops.now }
    {
        OpSlice {
            parts: &[],
            letters: &[],
            others: &[],
            skip: 0,
            plain: ops,
            count: ops.len(),
        }
    }

    /// The slice of the operations of these parts, without the first `skip`.
    pub(crate) fn of_parts(
        parts: &'a [Part],
        letters: &'a [char],
        others: &'a [Op],
        skip: usize,
        count: usize,
    ) -> OpSlice<'a>
        requires sound { All (IsSoundPart (length letters.now) (length others.now)) parts.now }
        requires in_first { IsInFirst skip parts.now }
        requires counted { count ≡ length (drop skip (ops_of letters.now others.now parts.now)) }
        ensures { result ≡ drop skip (ops_of letters.now others.now parts.now) }
    {
        OpSlice {
            parts,
            letters,
            others,
            skip,
            plain: &[],
            count,
        }
    }

    /// The same operations.
    pub fn copy(&self) -> OpSlice<'a>
        ensures { result ≡ self.now }
    {
        OpSlice {
            parts: self.parts,
            letters: self.letters,
            others: self.others,
            skip: self.skip,
            plain: self.plain,
            count: self.count,
        }
    }

    /// How many operations there are.
    pub fn len(&self) -> usize
        ensures { result ≡ length self.now }
    {
        self.count
    }

    /// Takes off the operations of the first part, or the next single one. Returns None once the slice is empty.
    pub fn next_stretch(&mut self) -> Option<Stretch<'a>>
        ensures taken { IfSome result (λ stretch. self.old ≡ stretch_ops stretch ++ self.new) }
        ensures some { IfSome result (λ stretch. 0 < length (stretch_ops stretch)) }
        ensures counters { IfSome result (λ stretch. HasCounters stretch) }
        ensures none { IfNone result (self.old ≡ []) }
        ensures left { IfNone result (self.new ≡ []) }
    {
        if let Some((first, rest)) = self.parts.split_first() {
            let stretch = stretch_of(first, self.letters, self.others, self.skip);
            self.count -= first.len() - self.skip;
            self.parts = rest;
            self.skip = 0;
            return Some(stretch);
        }
        let Some((op, rest)) = self.plain.split_first() else {
            return None;
        };
        self.plain = rest;
        self.count -= 1;
        Some(Stretch::Single(op))
    }

    /// Takes off the first operation. Returns None once the slice is empty.
    pub fn next_op(&mut self) -> Option<OpRef<'a>>
        ensures taken { IfSome result (λ op. self.old ≡ op_of op ∷ self.new) }
        ensures none { IfNone result (self.old ≡ []) }
        ensures left { IfNone result (self.new ≡ []) }
    {
        if let Some((first, rest)) = self.parts.split_first() {
            let op = op_in(first, self.letters, self.others, self.skip);
            self.count -= 1;
            if first.len() - self.skip > 1 {
                self.skip += 1;
                return Some(op);
            }
            self.parts = rest;
            self.skip = 0;
            return Some(op);
        }
        let Some((op, rest)) = self.plain.split_first() else {
            return None;
        };
        self.plain = rest;
        self.count -= 1;
        Some(OpRef::of(op))
    }
}
