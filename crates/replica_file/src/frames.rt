//! Delivers the frames of one record, which are read from the disk in pieces of at most 64 KiB.
ghost use Rattle.std.specs.Prelude.{◌≡◌, ◌+◌, ◌<◌, ◌≤◌, ◌^◌, min, List, IfSome, IfOk, OnOk};
ghost use Rattle.fugue_ids.specs.declared.op.Op.{Op};
ghost use Rattle.replica_file.specs.Loading.{CanTake, IsSameButHeld};
ghost use Rattle.replica_file.specs.Looks.{LooksOnly, ReadsNoFurther};
ghost use Rattle.replica_file.specs.Pieces.{Lacks};
ghost use Rattle.replica_file.specs.Wanting.{AreWholeFrames, BeginsPiece, file_part};
ghost use Rattle.replica_file.specs.Slots.{HasNoFrames, TakesFrames, TakesInFrames};

use crate::loading::Loading;
use crate::piece::{PIECE, take_piece};
use crate::reading::read_piece;
use crate::slot::Word;
use crate::stop::Stop;
use outer_ports::Disk;
use std::alloc::Global;

#[tactic(auto, using(crate::proofs::ReachLemmas::reaches_none))]
/// Takes a part of the file in, which is to be whole frames, a piece at a time. A frame that a piece cuts is read again
/// with the next one.
pub(crate) fn take_frames<H: Disk>(
    alloc: Global,
    disk: &mut H,
    at: u64,
    word: Word,
    loading: &mut Loading,
) -> Result<(), Stop>
    requires small { at + word.len < 2 ^ 64 }
    requires ready { CanTake loading.old.replica }
    ensures took { OnOk result (IfSome (H.seen disk.old).past (λ h. TakesFrames word.grammar h.last.seen at word.len
        loading.old.finds_place loading.old.replica loading.new.finds_place loading.new.replica)) }
    ensures bad { result ≡ Err Stop.Bad → IfSome (H.seen disk.old).past (λ h.
        HasNoFrames word.grammar h.last.seen at word.len) }
    ensures memory { result ≡ Err Stop.NoMemory → IfSome (H.seen disk.old).past (λ h.
        Lacks word.grammar (BeginsPiece word.grammar h.last.seen at word.len) (file_part h.last.seen at word.len)
        loading.old.finds_place loading.old.replica) }
    ensures ready { OnOk result (CanTake loading.new.replica) }
    ensures same { OnOk result (IsSameButHeld loading.old.replica loading.new.replica) }
    ensures looks { LooksOnly (H.seen disk.old) (H.seen disk.new) (result ≡ Err Stop.Disk) }
    ensures reach { OnOk result (ReadsNoFurther (at + word.len) (H.seen disk.old) (H.seen disk.new)) }
{
    let mut taken = 0;
    'pieces: while taken < word.len {
        let left = Word {
            len: word.len - taken,
            ..word
        };
        taken += take_some(alloc, disk, at + taken, left, loading)?;
    }
    Ok(())
}

/// Takes the whole frames of the next piece in, and returns how many bytes they have, which are some.
fn take_some<H: Disk>(
    alloc: Global,
    disk: &mut H,
    at: u64,
    left: Word,
    loading: &mut Loading,
) -> Result<u64, Stop>
    requires small { at + left.len < 2 ^ 64 }
    requires some { 0 < left.len }
    requires ready { CanTake loading.old.replica }
    ensures within { IfOk result (λ len. (0 < len) × (len ≤ left.len)) }
    ensures took { IfOk result (λ len. IfSome (H.seen disk.old).past (λ h. TakesInFrames left.grammar h.last.seen at left.len len
        loading.old.finds_place loading.old.replica loading.new.finds_place loading.new.replica)) }
    ensures bad { result ≡ Err Stop.Bad → IfSome (H.seen disk.old).past (λ h.
        HasNoFrames left.grammar h.last.seen at left.len) }
    ensures memory { result ≡ Err Stop.NoMemory → IfSome (H.seen disk.old).past (λ h. Lacks left.grammar
        (λ rest. rest ≡ file_part h.last.seen at left.len) (file_part h.last.seen at left.len)
        loading.old.finds_place loading.old.replica) }
    ensures whole { IfOk result (λ len. IfSome (H.seen disk.old).past (λ h. (ops : List Op)
        × AreWholeFrames left.grammar (file_part h.last.seen at (min left.len 65536)) len ops)) }
    ensures ready { OnOk result (CanTake loading.new.replica) }
    ensures same { OnOk result (IsSameButHeld loading.old.replica loading.new.replica) }
    ensures looks { LooksOnly (H.seen disk.old) (H.seen disk.new) (result ≡ Err Stop.Disk) }
    ensures reach { OnOk result (ReadsNoFurther (at + left.len) (H.seen disk.old) (H.seen disk.new)) }
{
    let size = left.len.min(PIECE as u64) as usize;
    let piece = read_piece(alloc, disk, at, size)?;
    if piece.len() < size {
        return Err(Stop::Bad);
    }
    let len = take_piece(alloc, piece, left.grammar, loading)?;
    if len == 0 {
        return Err(Stop::Bad);
    }
    Ok(len)
}
