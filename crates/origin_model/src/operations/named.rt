//! What an operation is against the accepted operations.
ghost use Rattle.std.specs.Prelude.{◌≡◌, ◌∷◌, [], true, None};
ghost use Rattle.fugue_ids.specs.Ops.{id_of};
ghost use Rattle.origin_model.specs.operations.History.{has_op};
ghost use Rattle.origin_model.specs.operations.Verdict.{names, first_stray, first_missing, found_as};
ghost use Rattle.origin_model.specs.operations.Verdict.{id_held, verdict as verdict_on};
ghost use Rattle.std.specs.Option.{option_or};

use crate::Verdict;
use crate::operations::lookup::Lookup;
use crate::operations::names::{Named, names_of};
use fugue_ids::{ElementId, Op, OpKey};

/// What is wrong with names: the first that is held and does not fit, and the first that is not held.
#[derive(Clone, Copy)]
pub struct NameFaults {
    pub stray: Option<ElementId>,
    pub missing: Option<ElementId>,
}

impl NameFaults {
    pub fn none() -> NameFaults
        ensures stray { result.stray ≡ None }
        ensures missing { result.missing ≡ None }
    {
        NameFaults {
            stray: None,
            missing: None,
        }
    }

    /// Those of names before others.
    pub fn or(self, others: NameFaults) -> NameFaults
        ensures stray { result.stray ≡ option_or self.stray others.stray }
        ensures missing { result.missing ≡ option_or self.missing others.missing }
    {
        NameFaults {
            stray: self.stray.or(others.stray),
            missing: self.missing.or(others.missing),
        }
    }
}

/// What is there of an operation.
#[derive(Clone, Copy)]
pub enum Found {
    /// An equal one.
    Same,
    /// Another one with its identifier.
    Clash,
    Absent,
}

/// What is wrong with one name, by one look-up.
fn faults_of<L: Lookup>(lookup: &L, named: &Named) -> NameFaults
    ensures stray { result.stray ≡ first_stray (L.history lookup.now) (named.now ∷ []) }
    ensures missing { result.missing ≡ first_missing (L.history lookup.now) (named.now ∷ []) }
{
    let (id, role) = *named;
    match lookup.fits(id, role) {
        Some(fits) => {
            if fits {
                NameFaults::none()
            } else {
                NameFaults {
                    stray: Some(id),
                    missing: None,
                }
            }
        }
        None => NameFaults {
            stray: None,
            missing: Some(id),
        },
    }
}

fn name_faults<L: Lookup>(lookup: &L, op: &Op) -> NameFaults
    ensures stray { result.stray ≡ first_stray (L.history lookup.now) (names op.now) }
    ensures missing { result.missing ≡ first_missing (L.history lookup.now) (names op.now) }
{
    let names = names_of(op);
    let mut faults = NameFaults::none();
    'names: for named in names.as_slice() {
        faults = faults.or(faults_of(lookup, named));
    }
    faults
}

/// What an operation is beside the one that has its identifier.
fn beside(equal: bool) -> Found
    ensures { result ≡ found_as equal true }
{
    if equal { Found::Same } else { Found::Clash }
}

/// What is there of an operation, by one look-up: where its identifier is held, an equal one can only be the holder.
fn found_of<L: Lookup>(lookup: &L, op: &Op) -> Found
    ensures { result ≡ found_as (has_op (L.history lookup.now) op.now) (id_held (L.history lookup.now) (id_of op.now)) }
{
    match op.key() {
        OpKey::Own(id) => match lookup.equals(id, op) {
            Some(equal) => beside(equal),
            None => Found::Absent,
        },
        OpKey::Target(target) => {
            if lookup.has_delete(target) {
                Found::Same
            } else {
                Found::Absent
            }
        }
    }
}

/// What an operation is against those in which it is looked up.
#[tactic(auto, unfolding(crate::specs::operations::Verdict::verdict))]
pub fn verdict_in<L: Lookup>(lookup: &L, op: &Op) -> Verdict
    ensures { result ≡ verdict_on (L.history lookup.now) op.now }
{
    match found_of(lookup, op) {
        Found::Same => return Verdict::Again,
        Found::Clash => return Verdict::Conflict,
        Found::Absent => {}
    }
    let faults = name_faults(lookup, op);
    if let Some(id) = faults.stray {
        return Verdict::Stray(id);
    }
    if let Some(id) = faults.missing {
        return Verdict::Missing(id);
    }
    Verdict::Ready
}
