//! The valid retitles of a history, and the greatest stamp.
ghost use Rattle.std.specs.Prelude.{◌≡◌, IfOk, map, max, option_and_then, reverse, slice_get};
ghost use Rattle.origin_model.specs.edits.State.{IsSound};
ghost use Rattle.origin_model.specs.operations.History.{accepted as accepted_list};
ghost use Rattle.catalogue_notes.specs.Lift.{greatest, is_section as is_section_in, retitles};
ghost use Rattle.catalogue_notes.specs.Readings.{candidate_of, known_retitle};
ghost use Rattle.catalogue_notes.specs.declared.reading.Candidate.{Candidate as CandidateOf};

use crate::reading::{Candidate, retitle_in};
use crate::sections::is_section;
use fugue_ids::{NoMemory, Op};
use replica_core::Replica;
use std::alloc::Global;

/// What the operation says, where it is a retitle of a section.
fn valid_retitle(replica: &Replica, op: &Op) -> Option<Candidate>
    ensures { result ≡ known_retitle (is_section_in replica.now.held.history) op.now }
{
    let candidate = retitle_in(op)?;
    if is_section(replica, candidate.section) {
        Some(candidate)
    } else {
        None
    }
}

/// What the operation at a position of the accepted ones says, where it is a retitle of a section.
fn retitle_at(replica: &Replica, at: usize) -> Option<Candidate>
    ensures { result ≡ option_and_then (known_retitle (is_section_in replica.now.held.history))
        (slice_get (accepted_list replica.now.held.history) at) }
{
    match replica.section_or_note(at) {
        Some(op) => valid_retitle(replica, op),
        None => None,
    }
}

/// The valid retitles, the oldest first.
pub(crate) fn retitles_of(alloc: Global, replica: &Replica) -> Result<Vec<Candidate>, NoMemory>
    ensures retitles { IfOk result (λ candidates. reverse candidates.items ≡ map candidate_of (retitles replica.now.held.history)) }
    ensures sound { IsSound replica.now }
{
    let mut candidates = Vec::new(alloc);
    'walk: for at in replica.sections_and_notes() {
        if let Some(candidate) = retitle_at(replica, *at) {
            candidates.push(candidate)?;
        }
    }
    Ok(candidates)
}

/// The greatest stamp: 0 where there is none.
pub(crate) fn greatest_stamp(candidates: &[Candidate]) -> u32
    ensures { result ≡ greatest (map (λ (b : CandidateOf). b.stamp) (reverse candidates.now)) }
{
    let mut stamp: u32 = 0;
    'candidates: for candidate in candidates {
        stamp = candidate.stamp.max(stamp);
    }
    stamp
}
