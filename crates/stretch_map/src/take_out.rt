//! One value less.
ghost use Rattle.std.specs.Prelude.{◌≡◌, ◌+◌, ◌<◌, ◌≤◌, IfOk, IsFalse, IsOk, IsTrue, OnErr, OnOk};
ghost use Rattle.std.specs.BTreeMap.{IsUnchanged};
ghost use Rattle.stretch_map.specs.Contents.{StretchEntry, layout, value_at_id};
ghost use Rattle.stretch_map.specs.Stretches.{AreStretches, Covers, EndsAt, IsSplit, IsLatest, IsSplitAfter, IsReachedByRule};
ghost use Rattle.stretch_map.specs.Stretches.{IsSame, IsShorter, IsTakenFrom, IsTakenFromLatest, KeepsEntry, Loses};

use crate::follows::Follows;
use crate::latest::LatestMap;
use crate::read::value_at;
use crate::stretches::{Stretch, Stretches, floor};
use fugue_ids::{ElementId, NoMemory};
use std::collections::BTreeMap;

fn covers<V: Copy>(first: ElementId, stretch: &Stretch<V>, key: ElementId) -> bool
    ensures on { IsTrue result → Covers (first, stretch.now) key }
    ensures off { IsFalse result → Covers (first, stretch.now) key → ⊥ }
{
    first.replica == key.replica && first.counter <= key.counter && key.counter <= stretch.last
}

/// The stretch without its last identifier, if it has another one.
fn shorter<V: Follows>(first: ElementId, stretch: &Stretch<V>) -> Option<(ElementId, Stretch<V>)>
    requires { first.counter ≤ stretch.now.last }
    ensures { IsShorter (first, stretch.now) result }
{
    if stretch.last == first.counter {
        return None;
    }
    let last = stretch.last - 1;
    let value = stretch.value;
    Some((first, Stretch { value, last }))
}

/// The last stretch of its replica without its last identifier.
fn shorten_in_latest<V: Follows>(latest: &mut LatestMap<V>, first: ElementId, stretch: &Stretch<V>)
    requires begun { first.counter ≤ stretch.now.last }
    requires there { IsLatest latest.old.by_replica.entries (first, stretch.now) }
    ensures { IsTakenFromLatest latest.old.by_replica.entries latest.new.by_replica.entries (first, stretch.now) }
{
    match shorter(first, stretch) {
        Some((_, rest)) => latest.replace(first, rest),
        None => latest.remove(first.replica),
    }
}

/// Whether the last stretch of the key's replica ended with the key, and is without it now.
fn shorten_latest<V: Follows>(stretches: &mut Stretches<V>, key: ElementId) -> bool
    requires { AreStretches V.reaches (layout stretches.old) }
    ensures on { IsTrue result → Loses V.nth V.reaches (layout stretches.old) (layout stretches.new) key }
    ensures off { IsFalse result → layout stretches.new ≡ layout stretches.old }
    ensures goes_on { IsFalse result → (e : StretchEntry V) → IsLatest stretches.old.latest.by_replica.entries e → Covers e key
        → key.counter < e.1.last }
{
    let Some((first, stretch)) = stretches.latest.up_to(key) else {
        return false;
    };
    if stretch.last != key.counter {
        return false;
    }
    shorten_in_latest(&mut stretches.latest, first, &stretch);
    true
}

/// No replica's last stretch has the key: the one that did went to the kept ones. After an allocation failure all is as
/// before.
fn shelve_over<V: Follows>(stretches: &mut Stretches<V>, key: ElementId) -> Result<(), NoMemory>
    requires { AreStretches V.reaches (layout stretches.old) }
    ensures same { OnOk result (IsSame V.nth V.reaches (layout stretches.old) (layout stretches.new)) }
    ensures apart { OnOk result ((e : StretchEntry V) → IsLatest stretches.new.latest.by_replica.entries e → Covers e key → ⊥) }
    ensures err { OnErr result (layout stretches.new ≡ layout stretches.old) }
    ensures sure { ((e : StretchEntry V) → IsLatest stretches.old.latest.by_replica.entries e → Covers e key → ⊥) → IsOk result }
{
    let Some((first, stretch)) = stretches.latest.up_to(key) else {
        return Ok(());
    };
    if !covers(first, &stretch, key) {
        return Ok(());
    }
    stretches.kept.insert(first, stretch)?;
    stretches.latest.remove(first.replica);
    Ok(())
}

/// The kept stretch without its last identifier.
fn shorten_kept<V: Follows>(
    kept: &mut BTreeMap<ElementId, Stretch<V>>,
    first: ElementId,
    stretch: &Stretch<V>,
)
    requires begun { first.counter ≤ stretch.now.last }
    requires there { KeepsEntry kept.old.entries (first, stretch.now) }
    ensures { IsTakenFrom kept.old.entries kept.new.entries (first, stretch.now) }
{
    match shorter(first, stretch) {
        Some((_, rest)) => {
            if let Some(stretch) = kept.get_mut(&first) {
                *stretch = rest;
            }
        }
        None => {
            kept.remove(&first);
        }
    }
}

/// The kept stretch cut in two after the key. After an allocation failure all is as before.
fn cut_after<V: Follows>(
    kept: &mut BTreeMap<ElementId, Stretch<V>>,
    first: ElementId,
    value: V,
    last: u32,
    key: ElementId,
) -> Result<(), NoMemory>
    requires there { KeepsEntry kept.old.entries (first, record { value = value; last = last }) }
    requires reached { IsReachedByRule V.reaches (first, record { value = value; last = last }) }
    requires covers { Covers {V = V} (first, record { value = value; last = last }) key }
    requires inside { key.counter < last }
    ensures ok { OnOk result (IsSplit V.nth kept.old.entries kept.new.entries (first, record { value = value; last = last }) key) }
    ensures err { OnErr result (IsUnchanged kept.old kept.new) }
{
    let steps = key.counter - first.counter + 1;
    let behind = ElementId {
        replica: first.replica,
        counter: key.counter + 1,
    };
    let tail = Stretch {
        value: value.nth(first, steps),
        last,
    };
    kept.insert(behind, tail)?;
    if let Some(head) = kept.get_mut(&first) {
        let last = key.counter;
        *head = Stretch { value, last };
    }
    Ok(())
}

/// The kept stretch ends with the key: what was after is another one. After an allocation failure all is as before.
fn end_at<V: Follows>(
    stretches: &mut Stretches<V>,
    first: ElementId,
    stretch: &Stretch<V>,
    key: ElementId,
) -> Result<(), NoMemory>
    requires are { AreStretches V.reaches (layout stretches.old) }
    requires there { KeepsEntry stretches.old.kept.entries (first, stretch.now) }
    requires covers { Covers (first, stretch.now) key }
    ensures ok { OnOk result (IsSplitAfter V.nth V.reaches (layout stretches.old) (layout stretches.new)
        (first, stretch.now) key) }
    ensures err { OnErr result (layout stretches.new ≡ layout stretches.old) }
    ensures sure { stretch.now.last ≤ key.counter → IsOk result }
{
    if stretch.last <= key.counter {
        return Ok(());
    }
    cut_after(&mut stretches.kept, first, stretch.value, stretch.last, key)?;
    Ok(())
}

/// A kept stretch without the key, which no replica's last one has. After an allocation failure all is as before.
fn take_kept<V: Follows>(stretches: &mut Stretches<V>, key: ElementId) -> Result<(), NoMemory>
    requires are { AreStretches V.reaches (layout stretches.old) }
    requires apart { (e : StretchEntry V) → IsLatest stretches.old.latest.by_replica.entries e → Covers e key → ⊥ }
    ensures ok { OnOk result (Loses V.nth V.reaches (layout stretches.old) (layout stretches.new) key) }
    ensures err { OnErr result (layout stretches.new ≡ layout stretches.old) }
    ensures sure { EndsAt (layout stretches.old) key → IsOk result }
{
    let Some((first, stretch)) = floor(&stretches.kept, key) else {
        return Ok(());
    };
    if !covers(first, &stretch, key) {
        return Ok(());
    }
    end_at(stretches, first, &stretch, key)?;
    let head = Stretch {
        value: stretch.value,
        last: key.counter,
    };
    shorten_kept(&mut stretches.kept, first, &head);
    Ok(())
}

/// The value of the key, which has none then. After an allocation failure the values are as before; none is wanted
/// where a stretch ends with the key.
pub(crate) fn take_out<V: Follows>(
    stretches: &mut Stretches<V>,
    key: ElementId,
) -> Result<Option<V>, NoMemory>
    requires { AreStretches V.reaches (layout stretches.old) }
    ensures value { IfOk result (λ value. value ≡ value_at_id V.nth stretches.old key) }
    ensures ok { OnOk result (Loses V.nth V.reaches (layout stretches.old) (layout stretches.new) key) }
    ensures err { OnErr result (IsSame V.nth V.reaches (layout stretches.old) (layout stretches.new)) }
    ensures sure { EndsAt (layout stretches.old) key → IsOk result }
{
    let value = value_at(stretches, key);
    if shorten_latest(stretches, key) {
        return Ok(value);
    }
    shelve_over(stretches, key)?;
    take_kept(stretches, key)?;
    Ok(value)
}
