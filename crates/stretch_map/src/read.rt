//! The value of an identifier.
ghost use Rattle.std.specs.Prelude.{◌≡◌, ◌-◌, IfNone, IfSome};
ghost use Rattle.stretch_map.specs.Contents.{layout, value_at_id};
ghost use Rattle.stretch_map.specs.Stretches.{AreStretches, Covers, IsReachedByRule, IsReadIn, KeepsEntry};

use crate::follows::Follows;
use crate::stretches::{Stretch, Stretches, floor};
use fugue_ids::ElementId;

/// The value that the stretch has at the key.
fn value_in<V: Follows>(first: ElementId, stretch: &Stretch<V>, key: ElementId) -> Option<V>
    requires { IsReachedByRule V.reaches (first, stretch.now) }
    ensures none { IfNone result (Covers (first, stretch.now) key → ⊥) }
    ensures some { IfSome result
        (λ value. Covers (first, stretch.now) key
        × (value ≡ V.nth first stretch.now.value (key.counter - first.counter))) }
{
    if first.replica != key.replica || key.counter < first.counter || stretch.last < key.counter {
        return None;
    }
    Some(stretch.value.nth(first, key.counter - first.counter))
}

/// The value that one of the kept stretches has at the key.
pub(crate) fn kept_value<V: Follows>(stretches: &Stretches<V>, key: ElementId) -> Option<V>
    requires { AreStretches V.reaches (layout stretches.now) }
    ensures { IsReadIn V.nth (KeepsEntry stretches.now.kept.entries) key result }
{
    let Some((first, stretch)) = floor(&stretches.kept, key) else {
        return None;
    };
    value_in(first, &stretch, key)
}

/// The value at the key.
pub(crate) fn value_at<V: Follows>(stretches: &Stretches<V>, key: ElementId) -> Option<V>
    requires { AreStretches V.reaches (layout stretches.now) }
    ensures { result ≡ value_at_id V.nth stretches.now key }
{
    match stretches.latest.up_to(key) {
        Some((first, stretch)) => value_in(first, &stretch, key),
        None => kept_value(stretches, key),
    }
}
