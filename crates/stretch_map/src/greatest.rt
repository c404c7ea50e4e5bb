//! The greatest counter of a replica.
ghost use Rattle.std.specs.Prelude.{◌≡◌, ◌<◌, ◌^◌, IfNone, IfSome, option_map};
ghost use Rattle.stretch_map.specs.Contents.{layout, value_at_id};
ghost use Rattle.stretch_map.specs.Rules.{IsGreatestIn};
ghost use Rattle.stretch_map.specs.Stretches.{AreStretches, IsGreatestOf, IsLastOf, KeepsEntry, NoneOf};

use crate::follows::Follows;
use crate::stretches::{Stretch, Stretches};
use fugue_ids::ElementId;
use std::collections::BTreeMap;

/// The entry, if there is one.
fn copied<V: Copy>(entry: Option<(&ElementId, &Stretch<V>)>) -> Option<(ElementId, Stretch<V>)>
    ensures same { result ≡ option_map (λ e. (e.0.now, e.1.now)) entry.entry }
    ensures fits { IfSome entry.entry (λ e. e.0.now.replica < 2 ^ 32) }
{
    match entry {
        Some((id, stretch)) => {
            let replica = id.replica;
            prove!(replica <= u32::MAX);
            Some((*id, *stretch))
        }
        None => None,
    }
}

/// The last kept stretch of the replica.
pub(crate) fn last_kept<V: Copy>(
    kept: &BTreeMap<ElementId, Stretch<V>>,
    replica: u32,
) -> Option<(ElementId, Stretch<V>)>
    requires { 0 < replica }
    ensures none { IfNone result (NoneOf (KeepsEntry kept.now.entries) replica) }
    ensures some { IfSome result (IsLastOf (KeepsEntry kept.now.entries) replica) }
{
    let first = ElementId {
        replica,
        counter: 0,
    };
    match replica.checked_add(1) {
        Some(replica) => {
            let next = ElementId {
                replica,
                counter: 0,
            };
            copied(kept.range(first..next).next_back())
        }
        None => copied(kept.range(first..).next_back()),
    }
}

/// The counter of the stretch's last identifier.
fn last_counter<V: Copy>(entry: Option<(ElementId, Stretch<V>)>) -> Option<u32>
    ensures { result ≡ option_map (λ e. e.1.last) entry }
{
    match entry {
        Some((_, stretch)) => Some(stretch.last),
        None => None,
    }
}

/// The greatest counter in the kept stretches.
fn greatest_kept<V: Follows>(stretches: &Stretches<V>, replica: u32) -> Option<u32>
    requires positive { 0 < replica }
    requires are { AreStretches V.reaches (layout stretches.now) }
    ensures { IsGreatestOf (KeepsEntry stretches.now.kept.entries) replica result }
{
    last_counter(last_kept(&stretches.kept, replica))
}

/// The greatest counter of the replica's identifiers that have a value.
pub(crate) fn greatest<V: Follows>(stretches: &Stretches<V>, replica: u32) -> Option<u32>
    requires positive { 0 < replica }
    requires are { AreStretches V.reaches (layout stretches.now) }
    ensures { IsGreatestIn (value_at_id V.nth stretches.now) replica result }
{
    match stretches.latest.of(replica) {
        Some((_, stretch)) => Some(stretch.last),
        None => greatest_kept(stretches, replica),
    }
}
