//! The parts of a list of operations: typed text, Deletes in a row, and single operations.

ghost use Rattle.std.specs.Prelude.{◌≡◌, ◌↔◌, ◌<◌, ◌≤◌, ◌+◌, ◌^◌, ◌++◌, ◌∷◌, [], IfNone, IfSome, IsSome, IsTrue, List, OnErr, OnOk, length};
ghost use Rattle.fugue_ids.specs.Runs.{id_after};
ghost use Rattle.op_runs.specs.Deletions.{CountersFit, target_by};
ghost use Rattle.op_runs.specs.Growing.{IsLastPart, HasMoreDeletes, TakesOffLast, letters_of_part, part_front};
ghost use Rattle.op_runs.specs.Parts.{GoesOnBy, IsNextTarget, IsWholePart, others_in, part_len};
ghost use Rattle.op_runs.specs.declared.part.Part.{Part};
ghost use Rattle.op_runs.specs.declared.part.Part.TheVariants.{Deleted as DeletedVariant};

use fugue_ids::{ElementId, NoMemory, RunStart};

/// The most operations of one list. A history has fewer; of a stream more can be kept, since pending operations that become
/// Stray leave again.
pub const MOST_LISTED: u32 = 2_147_483_648;

/// Texts that were typed in a row: their scalars are `count` of the letters, from `at` on.
#[derive(Clone, Copy)]
pub(crate) struct TypedPart {
    pub start: RunStart,
    pub at: u32,
    pub count: u32,
}

/// Deletes of neighbours: each target is the identifier after that of the one before it, or each is the identifier
/// before that.
#[derive(Clone, Copy, Debug, PartialEq, Eq)]
pub struct Deletes {
    /// The target of the first one.
    pub target: ElementId,
    pub count: u32,
    /// Whether the counters of the targets fall.
    pub down: bool,
}

impl Deletes {
    /// The target so many after the first.
    pub fn nth(&self, offset: usize) -> ElementId
        requires counters { CountersFit self.now.down self.now.target self.now.count }
        requires inside { offset < self.now.count }
        ensures { result ≡ target_by self.now.down self.now.target offset }
    {
        let first = self.target;
        let counter = if self.down {
            first.counter - offset as u32
        } else {
            first.counter + offset as u32
        };
        ElementId {
            replica: first.replica,
            counter,
        }
    }
}

/// Operations that stand next to each other and are one entry.
#[derive(Clone, Copy)]
pub(crate) enum Part {
    Typed(TypedPart),
    Deleted(Deletes),
    /// A Section or a Note: which of the others it is.
    Other(u32),
}

impl Part {
    /// How many operations the part has.
    pub(crate) fn len(&self) -> usize
        ensures is { result ≡ part_len self.now }
        ensures fits { result < 2 ^ 32 }
    {
        match self {
            Part::Typed(run) => run.count as usize,
            Part::Deleted(deletes) => deletes.count as usize,
            Part::Other(_place) => 1,
        }
    }
}

impl Part {
    /// The first so many operations of the part.
    fn shortened(&self, count: u32) -> Part
        requires some { 0 < count }
        requires within { count < part_len self.now }
        ensures { result ≡ part_front self.now count }
    {
        match self {
            Part::Typed(run) => Part::Typed(TypedPart {
                start: run.start,
                at: run.at,
                count,
            }),
            Part::Deleted(deletes) => Part::Deleted(Deletes {
                target: deletes.target,
                count,
                down: deletes.down,
            }),
            Part::Other(place) => Part::Other(*place),
        }
    }

    /// How many letters the last so many operations of the part have.
    pub(crate) fn letters_of(&self, count: usize) -> usize
        ensures { result ≡ letters_of_part self.now count }
    {
        match self {
            Part::Typed(_run) => count,
            _ => 0,
        }
    }

    /// How many operations of the part stand among the others.
    pub(crate) fn others_in(&self) -> usize
        ensures { result ≡ others_in self.now }
    {
        match self {
            Part::Other(_place) => 1,
            _ => 0,
        }
    }
}

/// Whether an identifier is the one so many after another.
fn is_after(first: ElementId, count: u32, id: ElementId) -> bool
    ensures is { IsTrue result ↔ (id ≡ id_after first count) }
    ensures fits { id.counter < 2 ^ 32 }
{
    let counter = id.counter;
    id.replica == first.replica && counter >= first.counter && counter - first.counter == count
}

/// The direction in which a Delete goes on with the part, if it does: whether that is backwards.
fn direction(part: &Deletes, target: ElementId) -> Option<bool>
    ensures some { IfSome result (λ down. GoesOnBy part.now target down) }
    ensures none { IfNone result (IsNextTarget part.now target → ⊥) }
    ensures fits { IsSome result → target.counter < 2 ^ 32 }
{
    let alone = part.count == 1;
    let forwards = is_after(part.target, part.count, target);
    if forwards && (alone || !part.down) {
        return Some(false);
    }
    if (alone || part.down) && is_after(target, part.count, part.target) {
        return Some(true);
    }
    None
}

/// The part with Deletes more, where the first of them goes on with it: forwards all of so many, or backwards that one.
pub(crate) fn longer(part: &Deletes, target: ElementId, most: u32) -> Option<Deletes>
    requires whole { IsWholePart (DeletedVariant part.now) }
    requires some { 0 < most }
    requires counters { target.counter + most ≤ 2 ^ 32 }
    requires room { part.now.count + most ≤ MOST_LISTED }
    ensures some { IfSome result (λ more. HasMoreDeletes part.now target most more) }
    ensures none { IfNone result (IsNextTarget part.now target → ⊥) }
{
    let Some(down) = direction(part, target) else {
        return None;
    };
    let count = if down { 1 } else { most };
    Some(Deletes {
        target: part.target,
        count: part.count + count,
        down,
    })
}

/// The last part.
pub(crate) fn last_of(parts: &[Part]) -> Option<Part>
    ensures some { IfSome result (λ part. IsLastPart parts.now part) }
    ensures none { IfNone result (parts.now ≡ []) }
{
    match parts.last() {
        Some(part) => Some(*part),
        None => None,
    }
}

/// Another last part.
pub(crate) fn set_last(parts: &mut Vec<Part>, part: Part)
    requires { 0 < length parts.old.items }
    ensures { (front : List Part) (last : Part) → parts.old.items ≡ front ++ last ∷ [] → parts.new.items ≡ front ++ part ∷ [] }
{
    let last = parts.as_slice().len() - 1;
    parts[last] = part;
}

/// Takes operations of the last part off: as many as asked for, as far as it has them.
pub(crate) fn take_off(
    parts: &mut Vec<Part>,
    firsts: &mut Vec<u32>,
    last: &Part,
    most: usize,
) -> usize
    requires last { IsLastPart parts.old.items last.now }
    requires some { 0 < most }
    ensures { TakesOffLast parts.old.items parts.new.items firsts.old.items firsts.new.items last.now most result }
{
    let len = last.len();
    if len <= most {
        parts.pop();
        firsts.pop();
        return len;
    }
    set_last(parts, last.shortened((len - most) as u32));
    most
}

/// A part more, after so many operations.
pub(crate) fn add_part(
    parts: &mut Vec<Part>,
    firsts: &mut Vec<u32>,
    first: u32,
    part: Part,
) -> Result<(), NoMemory>
    ensures ok { OnOk result (parts.new.items ≡ parts.old.items ++ part ∷ []) }
    ensures firsts { OnOk result (firsts.new.items ≡ firsts.old.items ++ first ∷ []) }
    ensures err { OnErr result (parts.new.items ≡ parts.old.items) }
    ensures firsts_stay { OnErr result (firsts.new.items ≡ firsts.old.items) }
{
    // The toolchain makes the proof of a push of parts only where the types of a part's fields are named.
    let no_origin: Option<ElementId> = None;
    let no_start: Option<RunStart> = None;
    let none_typed: Option<TypedPart> = None;
    let none_deleted: Option<Deletes> = None;
    let _ = no_origin;
    let _ = no_start;
    let _ = none_typed;
    let _ = none_deleted;
    firsts.push(first)?;
    match parts.push(part) {
        Ok(()) => Ok(()),
        Err(_refused) => {
            firsts.pop();
            Err(NoMemory)
        }
    }
}
