//! The loop over the records of a file, up to the first commit byte that is not set.
ghost use Rattle.std.specs.Prelude.{◌≡◌, ◌+◌, ◌*◌, ◌<◌, ◌≤◌, true, IfSome, IfOk, IfErr, OnOk};
ghost use Rattle.replica_file.specs.Ends.{IsWithinReach, farthest_gate};
ghost use Rattle.replica_file.specs.Loading.{CanTake, IsSameButHeld};
ghost use Rattle.replica_file.specs.Looks.{LooksOnly, ReadsNoFurther};
ghost use Rattle.replica_file.specs.Moments.{WalkedWith, WalksOutWith};
ghost use Rattle.replica_file.specs.Slots.{SlotStopsFor};

use crate::gate::Gate;
use crate::loading::Loading;
use crate::moments::{accepted_count, note_moment};
use crate::slot::take_slot;
use crate::stop::Stop;
use crate::{End, LoadFault};
use outer_ports::Disk;
use std::alloc::Global;

#[tactic(auto, using(crate::proofs::ReachLemmas::reaches_none, crate::proofs::ReachLemmas::reaches_then))]
/// Takes the slots in from the first gate on, notes their moments, and returns where the file's meaning ends.
pub(crate) fn take_slots<H: Disk>(
    alloc: Global,
    disk: &mut H,
    first: Gate,
    most: u32,
    loading: &mut Loading,
    moments: &mut Vec<u32>,
) -> Result<End, LoadFault>
    requires walked { IfSome (H.seen disk.old).past (λ h.
        WalkedWith h.last.seen 0 first loading.old.replica moments.old.items) }
    requires at { first.at ≡ 13 }
    requires ready { CanTake loading.old.replica }
    requires finds_place { loading.old.finds_place ≡ true }
    requires most { loading.old.replica.most ≡ most }
    ensures ends { IfOk result
        (λ end. IfSome (H.seen disk.old).past (λ h.
        WalksOutWith h.last.seen end loading.new.replica moments.new.items)) }
    ensures stops { IfErr result (λ fault. IfSome (H.seen disk.old).past (λ h.
        SlotStopsFor most h.last.seen fault)) }
    ensures reaches { IfOk result IsWithinReach }
    ensures ready { OnOk result (CanTake loading.new.replica) }
    ensures same { OnOk result (IsSameButHeld loading.old.replica loading.new.replica) }
    ensures looks { LooksOnly (H.seen disk.old) (H.seen disk.new) (result ≡ Err LoadFault.DiskFault) }
    ensures behind { IfOk result (λ end. 13 ≤ end.at) }
    ensures reach { IfOk result (λ end. ReadsNoFurther (end.at + 1) (H.seen disk.old) (H.seen disk.new)) }
{
    let mut gate = first;
    let mut slots = 0;
    'slots: while gate.open {
        gate = next_gate(alloc, disk, gate, slots, most, loading, moments)?;
        slots += 1;
    }
    Ok(End { at: gate.at, slots })
}

/// Takes the open slot of this number in, whose gate this is, notes its moment, and answers the next gate.
fn next_gate<H: Disk>(
    alloc: Global,
    disk: &mut H,
    gate: Gate,
    slots: u32,
    most: u32,
    loading: &mut Loading,
    moments: &mut Vec<u32>,
) -> Result<Gate, LoadFault>
    requires walked { IfSome (H.seen disk.old).past (λ h.
        WalkedWith h.last.seen slots gate loading.old.replica moments.old.items) }
    requires open { gate.open ≡ true }
    requires reaches { gate.at ≤ farthest_gate slots }
    requires ready { CanTake loading.old.replica }
    requires finds_place { loading.old.finds_place ≡ true }
    requires most { loading.old.replica.most ≡ most }
    ensures walked { IfOk result (λ next. IfSome (H.seen disk.old).past (λ h.
        WalkedWith h.last.seen (slots + 1) next loading.new.replica moments.new.items)) }
    ensures stops { IfErr result (λ fault. IfSome (H.seen disk.old).past (λ h.
        SlotStopsFor most h.last.seen fault)) }
    ensures more { OnOk result (slots < 4294967295) }
    ensures reaches { IfOk result (λ next. next.at ≤ farthest_gate (slots + 1)) }
    ensures finds_place { OnOk result (loading.new.finds_place ≡ true) }
    ensures ready { OnOk result (CanTake loading.new.replica) }
    ensures same { OnOk result (IsSameButHeld loading.old.replica loading.new.replica) }
    ensures looks { LooksOnly (H.seen disk.old) (H.seen disk.new) (result ≡ Err LoadFault.DiskFault) }
    ensures onward { IfOk result (λ next. gate.at < next.at) }
    ensures reach { IfOk result (λ next. ReadsNoFurther (next.at + 1) (H.seen disk.old) (H.seen disk.new)) }
{
    if slots == u32::MAX {
        return Err(LoadFault::BadBatch(slots));
    }
    let before = accepted_count(&loading.replica);
    match take_slot(alloc, disk, gate.at, loading, moments) {
        Ok(next) => {
            if !loading.finds_place {
                return Err(LoadFault::TooMany(most));
            }
            note_moment(moments, before, accepted_count(&loading.replica));
            Ok(next)
        }
        Err(Stop::Bad) => Err(LoadFault::BadBatch(slots)),
        Err(Stop::Disk) => Err(LoadFault::DiskFault),
        Err(Stop::NoMemory) => Err(LoadFault::NoMemory),
    }
}
