//! Which note on a section wins.
ghost use Rattle.std.specs.Prelude.{◌≡◌, Some, IfOk, OnOk, not, option_copied, reverse};
ghost use Rattle.std.specs.BTreeMap.{get};
ghost use Rattle.fugue_ids.specs.Identifiers.{Identifier, id_cmp};
ghost use Rattle.fugue_ids.specs.Keyed.{IsReplaced};
ghost use Rattle.origin_model.specs.order.Printed.{is_withdrawn};
ghost use Rattle.catalogue_notes.specs.Winning.{better_candidate, candidate_wins, winning_candidate};

use crate::reading::Candidate;
use fugue_ids::{ElementId, NoMemory};
use replica_core::Replica;
use std::alloc::Global;
use std::collections::BTreeMap;

fn is_greater(a: &Candidate, b: &Candidate) -> bool
    ensures { result ≡ candidate_wins a.now b.now }
{
    b.stamp < a.stamp || (b.stamp == a.stamp && b.id < a.id)
}

fn better(candidate: Candidate, other: Option<&Candidate>) -> Candidate
    ensures { result ≡ better_candidate candidate (option_copied other.entry) }
{
    match other {
        Some(other) if !is_greater(&candidate, other) => *other,
        _ => candidate,
    }
}

/// One note more, which is not withdrawn.
pub(crate) fn take_candidate(
    winners: &mut BTreeMap<ElementId, Candidate>,
    candidate: Candidate,
) -> Result<(), NoMemory>
    ensures ok { OnOk result (IsReplaced (get id_cmp winners.old) (get id_cmp winners.new) candidate.section
        (Some (better_candidate candidate (get id_cmp winners.old candidate.section)))) }
{
    let best = better(candidate, winners.get(&candidate.section));
    winners.insert(candidate.section, best)?;
    Ok(())
}

/// The winner of each section, by its identifier, among the notes that no Delete names. They are given in any order.
pub(crate) fn winners_among(
    alloc: Global,
    replica: &Replica,
    candidates: &[Candidate],
) -> Result<BTreeMap<ElementId, Candidate>, NoMemory>
    ensures { IfOk result (λ winners. (s : Identifier) → get id_cmp winners s
        ≡ winning_candidate (λ x. not (is_withdrawn replica.now.held.history x)) s (reverse candidates.now)) }
{
    let mut winners = BTreeMap::new(alloc);
    'notes: for candidate in candidates {
        if !replica.is_withdrawn(candidate.id) {
            take_candidate(&mut winners, *candidate)?;
        }
    }
    Ok(winners)
}
