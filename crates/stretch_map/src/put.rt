//! One stretch of values more.
ghost use Rattle.std.specs.Prelude.{◌≡◌, ◌≤◌, IfNone, IfSome, IsFalse, IsTrue, OnErr, OnOk};
ghost use Rattle.std.specs.BTreeMap.{IsUnchanged};
ghost use Rattle.stretch_map.specs.Contents.{StretchEntry, layout};
ghost use Rattle.stretch_map.specs.Stretches.{Adds, AreStretches, CanCome, GoesOn, Grows, IsAfterAll, IsFloor};
ghost use Rattle.stretch_map.specs.Stretches.{IsLatestUpTo, KeepsEntry, NoLatestUpTo, PutsStretch, up_to};

use crate::follows::Follows;
use crate::greatest::last_kept;
use crate::stretches::{Stretch, Stretches, floor};
use fugue_ids::{ElementId, NoMemory};
use std::collections::BTreeMap;

/// The stretch with the new one's identifiers too, where it goes on with that.
fn longer<V: Follows>(
    first: ElementId,
    stretch: &Stretch<V>,
    key: ElementId,
    run: &Stretch<V>,
) -> Option<Stretch<V>>
    requires { first.counter ≤ stretch.now.last }
    ensures none { IfNone result (GoesOn V.nth V.reaches (first, stretch.now) key run.now.value → ⊥) }
    ensures some { IfSome result
        (λ s. GoesOn V.nth V.reaches (first, stretch.now) key run.now.value
        × (s ≡ (up_to (first, stretch.now) run.now.last).1)) }
{
    if first.replica != key.replica
        || key.counter <= stretch.last
        || key.counter - stretch.last != 1
        || !stretch
            .value
            .leads_to(first, key.counter - first.counter, &run.value)
    {
        return None;
    }
    Some(Stretch {
        value: stretch.value,
        last: run.last,
    })
}

/// Whether a kept stretch went on with the new one, and has its identifiers now.
fn extend_kept<V: Follows>(
    kept: &mut BTreeMap<ElementId, Stretch<V>>,
    key: ElementId,
    run: &Stretch<V>,
) -> bool
    requires { (e : StretchEntry V) → KeepsEntry kept.old.entries e → e.0.counter ≤ e.1.last }
    ensures on { IsTrue result → Grows V.nth V.reaches kept.old.entries kept.new.entries (key, run.now) }
    ensures off { IsFalse result → IsUnchanged kept.old kept.new }
    ensures goes_not { IsFalse result → (e : StretchEntry V) → IsFloor kept.old.entries key e
        → GoesOn V.nth V.reaches e key run.now.value → ⊥ }
{
    let Some((first, stretch)) = floor(kept, key) else {
        return false;
    };
    let Some(longer) = longer(first, &stretch, key, run) else {
        return false;
    };
    if let Some(stretch) = kept.get_mut(&first) {
        *stretch = longer;
    }
    true
}

/// Whether all stretches of the key's replica are kept, and begin before the key.
fn is_after_all<V: Follows>(stretches: &Stretches<V>, key: ElementId) -> bool
    ensures yes { IsTrue result → IsAfterAll (layout stretches.now) key }
    ensures no { IsFalse result → IsAfterAll (layout stretches.now) key → ⊥ }
{
    if stretches.latest.of(key.replica).is_some() {
        return false;
    }
    match last_kept(&stretches.kept, key.replica) {
        Some((first, _)) => first.counter < key.counter,
        None => true,
    }
}

/// The new stretch as one of its own. After an allocation failure all is as before.
fn begin<V: Follows>(
    stretches: &mut Stretches<V>,
    key: ElementId,
    run: Stretch<V>,
) -> Result<(), NoMemory>
    requires are { AreStretches V.reaches (layout stretches.old) }
    requires comes { CanCome V.nth V.reaches (layout stretches.old) (key, run) }
    requires before { NoLatestUpTo stretches.old.latest.by_replica.entries key }
    ensures ok { OnOk result (Adds V.nth V.reaches (layout stretches.old) (layout stretches.new) (key, run)) }
    ensures err { OnErr result (layout stretches.new ≡ layout stretches.old) }
{
    if is_after_all(stretches, key) {
        stretches.latest.insert(key, run)?;
        return Ok(());
    }
    stretches.kept.insert(key, run)?;
    Ok(())
}

/// The new stretch, which begins before the last one of its replica, or where that has none. After an allocation
/// failure all is as before.
fn put_before<V: Follows>(
    stretches: &mut Stretches<V>,
    key: ElementId,
    run: Stretch<V>,
) -> Result<(), NoMemory>
    requires are { AreStretches V.reaches (layout stretches.old) }
    requires comes { CanCome V.nth V.reaches (layout stretches.old) (key, run) }
    requires before { NoLatestUpTo stretches.old.latest.by_replica.entries key }
    ensures { PutsStretch V.nth V.reaches (layout stretches.old) (layout stretches.new) (key, run) result }
{
    if extend_kept(&mut stretches.kept, key, &run) {
        return Ok(());
    }
    begin(stretches, key, run)
}

/// The new stretch, which begins after the last one of its replica. After an allocation failure all is as before.
fn put_after<V: Follows>(
    stretches: &mut Stretches<V>,
    first: ElementId,
    stretch: &Stretch<V>,
    key: ElementId,
    run: Stretch<V>,
) -> Result<(), NoMemory>
    requires are { AreStretches V.reaches (layout stretches.old) }
    requires comes { CanCome V.nth V.reaches (layout stretches.old) (key, run) }
    requires behind { IsLatestUpTo stretches.old.latest.by_replica.entries key (first, stretch.now) }
    ensures { PutsStretch V.nth V.reaches (layout stretches.old) (layout stretches.new) (key, run) result }
{
    if let Some(longer) = longer(first, stretch, key, &run) {
        stretches.latest.replace(first, longer);
        return Ok(());
    }
    stretches.kept.insert(first, *stretch)?;
    stretches.latest.replace(key, run);
    Ok(())
}

/// A stretch of identifiers without values, from the key on. After an allocation failure all is as before.
pub(crate) fn put<V: Follows>(
    stretches: &mut Stretches<V>,
    key: ElementId,
    run: Stretch<V>,
) -> Result<(), NoMemory>
    requires are { AreStretches V.reaches (layout stretches.old) }
    requires comes { CanCome V.nth V.reaches (layout stretches.old) (key, run) }
    ensures { PutsStretch V.nth V.reaches (layout stretches.old) (layout stretches.new) (key, run) result }
{
    match stretches.latest.up_to(key) {
        Some((first, stretch)) => put_after(stretches, first, &stretch, key, run),
        None => put_before(stretches, key, run),
    }
}
