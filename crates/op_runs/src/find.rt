//! The operation at a position of a list, and a reference to it that copies nothing.

ghost use Rattle.std.specs.Prelude.{◌≡◌, ◌<◌, ◌≤◌, ◌+◌, ◌-◌, ◌^◌, All, IfNone, IfOk, IfSome, ℕ, Some, length, option_map, slice_get, slice_index};
ghost use Rattle.fugue_ids.specs.Ops.{id_of, op_eq};
ghost use Rattle.op_runs.specs.Finding.{IsFloorPart, IsPartSpot, all_len, op_of};
ghost use Rattle.op_runs.specs.Parts.{IsSoundPart, firsts_of, ops_of, part_len, part_ops};

use crate::part::{Part, last_of};
use fugue_ids::{ElementId, NoMemory, Op, RunStart, read_text};
use std::alloc::Global;

/// An operation of a list.
#[derive(Clone, Copy)]
pub enum OpRef<'a> {
    /// A Text: what it says but for its scalar, and the scalar.
    Letter(RunStart, char),
    /// A Delete, by its target.
    Deletion(ElementId),
    /// A Section or a Note.
    Whole(&'a Op),
}

impl<'a> OpRef<'a> {
    /// The operation as it stands in a slice.
    pub fn of(op: &'a Op) -> OpRef<'a>
        ensures { op_of result ≡ op.now }
    {
        if let Some((start, ch)) = read_text(op) {
            return OpRef::Letter(start, ch);
        }
        match op {
            Op::Delete { target } => OpRef::Deletion(*target),
            _ => OpRef::Whole(op),
        }
    }

    /// Whether an operation is equal to it.
    pub fn equals(&self, op: &Op) -> bool
        ensures { result ≡ op_eq (op_of self.now) op.now }
    {
        match self {
            OpRef::Letter(start, ch) => start.text(*ch) == *op,
            OpRef::Deletion(target) => Op::Delete { target: *target } == *op,
            OpRef::Whole(whole) => **whole == *op,
        }
    }

    /// The identifier of its own: a Delete has none.
    pub fn id(&self) -> Option<ElementId>
        ensures { result ≡ id_of (op_of self.now) }
    {
        match self {
            OpRef::Letter(start, _) => Some(start.id),
            OpRef::Deletion(_) => None,
            OpRef::Whole(whole) => whole.id(),
        }
    }

    /// The same operation, with memory of its own.
    pub fn copy_in(&self, alloc: Global) -> Result<Op, NoMemory>
        ensures { IfOk result (λ op. op ≡ op_of self.now) }
    {
        match self {
            OpRef::Letter(start, ch) => Ok(start.text(*ch)),
            OpRef::Deletion(target) => Ok(Op::Delete { target: *target }),
            OpRef::Whole(op) => op.clone_in(alloc),
        }
    }
}

/// Where an operation stands: which part has it, and which of the operations of that it is.
#[derive(Clone, Copy)]
pub(crate) struct Spot {
    pub part: usize,
    pub offset: usize,
}

/// The last of the firsts that is not after the position.
fn floor_of(firsts: &[u32], position: u32) -> Option<usize>
    requires { (i j : ℕ) → i < j → j < length firsts.now → slice_index firsts.now i < slice_index firsts.now j }
    ensures some { IfSome result (λ k. IsFloorPart firsts.now position k) }
    ensures none { IfNone result ((j : ℕ) → j < length firsts.now → position < slice_index firsts.now j) }
{
    match firsts.binary_search(&position) {
        Ok(k) => Some(k),
        Err(k) => { if k == 0 { None } else { Some(k - 1) } }
    }
}

/// Where the operation at a position stands, if there is one.
pub(crate) fn spot_of(parts: &[Part], firsts: &[u32], count: u32, position: usize) -> Option<Spot>
    requires some { All (λ part. 0 < part_len part) parts.now }
    requires firsts { firsts.now ≡ firsts_of 0 parts.now }
    requires counted { count ≡ all_len parts.now }
    ensures some { IfSome result (λ spot. IsPartSpot parts.now position spot.part spot.offset) }
    ensures none { IfNone result (all_len parts.now ≤ position) }
{
    if position >= count as usize {
        return None;
    }
    let Some(part) = floor_of(firsts, position as u32) else {
        return None;
    };
    Some(Spot {
        part,
        offset: position - firsts[part] as usize,
    })
}

/// The operation at an offset of a part.
pub(crate) fn op_in<'a>(part: &Part, letters: &[char], others: &'a [Op], offset: usize) -> OpRef<'a>
    requires sound { IsSoundPart (length letters.now) (length others.now) part.now }
    requires inside { offset < part_len part.now }
    ensures { Some (op_of result) ≡ slice_get (part_ops letters.now others.now part.now) offset }
{
    match part {
        Part::Typed(run) => OpRef::Letter(run.start.nth(offset), letters[run.at as usize + offset]),
        Part::Deleted(deletes) => OpRef::Deletion(deletes.nth(offset)),
        Part::Other(place) => OpRef::Whole(&others[*place as usize]),
    }
}

/// The operation at a position, if there is one.
pub(crate) fn op_at<'a>(
    parts: &[Part],
    firsts: &[u32],
    letters: &[char],
    others: &'a [Op],
    count: u32,
    position: usize,
) -> Option<OpRef<'a>>
    requires sound { All (IsSoundPart (length letters.now) (length others.now)) parts.now }
    requires firsts { firsts.now ≡ firsts_of 0 parts.now }
    requires counted { count ≡ length (ops_of letters.now others.now parts.now) }
    ensures { option_map op_of result ≡ slice_get (ops_of letters.now others.now parts.now) position }
{
    match spot_of(parts, firsts, count, position) {
        Some(spot) => Some(op_in(&parts[spot.part], letters, others, spot.offset)),
        None => None,
    }
}

/// The last operation, if there is one.
pub(crate) fn last_op<'a>(parts: &[Part], letters: &[char], others: &'a [Op]) -> Option<OpRef<'a>>
    requires { All (IsSoundPart (length letters.now) (length others.now)) parts.now }
    ensures { option_map op_of result ≡ slice_get (ops_of letters.now others.now parts.now)
        (length (ops_of letters.now others.now parts.now) - 1) }
{
    match last_of(parts) {
        Some(part) => {
            let len = part.len();
            Some(op_in(&part, letters, others, len - 1))
        }
        None => None,
    }
}
