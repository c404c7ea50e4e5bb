//! Identifiers without values.
ghost use Rattle.std.specs.Prelude.{◌≡◌, ◌<◌, ◌≤◌, IsFalse, IsTrue};
ghost use Rattle.stretch_map.specs.Contents.{layout};
ghost use Rattle.stretch_map.specs.Stretches.{AreFreeTo, AreStretches};

use crate::follows::Follows;
use crate::stretches::{Stretch, Stretches, floor};
use fugue_ids::ElementId;

/// Whether the stretch has no identifier of the key's replica from the key on.
fn ends_before<V: Copy>(first: ElementId, stretch: &Stretch<V>, key: ElementId) -> bool
    ensures yes { IsTrue result → first.replica ≡ key.replica → stretch.now.last < key.counter }
    ensures same { IsFalse result → first.replica ≡ key.replica }
    ensures no { IsFalse result → key.counter ≤ stretch.now.last }
{
    first.replica != key.replica || stretch.last < key.counter
}

/// Whether none of the identifiers from the first to that of the last counter has a value.
pub(crate) fn is_free<V: Follows>(stretches: &Stretches<V>, first: ElementId, last: u32) -> bool
    requires are { AreStretches V.reaches (layout stretches.now) }
    requires some { first.counter ≤ last }
    ensures yes { IsTrue result → AreFreeTo V.nth (layout stretches.now) first last }
    ensures no { IsFalse result → AreFreeTo V.nth (layout stretches.now) first last → ⊥ }
{
    let end = ElementId {
        replica: first.replica,
        counter: last,
    };
    if let Some((begin, stretch)) = stretches.latest.up_to(end) {
        return ends_before(begin, &stretch, first);
    }
    match floor(&stretches.kept, end) {
        Some((begin, stretch)) => ends_before(begin, &stretch, first),
        None => true,
    }
}
