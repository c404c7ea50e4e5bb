//! The bytes of a new record after its commit byte: length word, frames, and a clear commit byte.
ghost use Rattle.std.specs.Prelude.{◌≡◌, ◌≢◌, ◌↔◌, ◌<◌, ◌≤◌, ◌++◌, ◌∷◌, [], length, drop, IfOk, OnOk, All};
ghost use Rattle.std.specs.Int.{to_be_bytes, w32};
ghost use Rattle.origin_model.specs.declared.files.TheConstants.{LONGEST_BATCH};
ghost use Rattle.origin_model.specs.declared.grammar.Grammar.TheVariants.{Version2};
ghost use Rattle.origin_model.specs.files.Image.{word_of};
ghost use Rattle.origin_model.specs.frames.Frames.{HasFrame};
ghost use Rattle.origin_model.specs.frames.Framings.{frames};
ghost use Rattle.replica_file.specs.Append.{after_gate};

use crate::AppendFault;
use crate::gate::CLOSED;
use fugue_ids::NoMemory;
use op_frame::encode_all;
use op_runs::OpSlice;
use origin_model::{LONGEST_BATCH, TAG_UNIT};
use std::alloc::Global;

/// How many bytes the word of a slot has.
pub(crate) const WORD: usize = 4;

/// What is written after the gate of a slot with these operations.
pub(crate) fn bytes_after_gate(alloc: Global, ops: OpSlice<'_>) -> Result<Vec<u8>, AppendFault>
    ensures bytes { IfOk result (λ bytes. bytes.items ≡ after_gate ops.entry) }
    ensures have_frames { OnOk result (All HasFrame ops.entry) }
    ensures short { OnOk result (length (frames ops.entry) ≤ LONGEST_BATCH) }
    ensures too_long { result ≢ Err AppendFault.NoMemory
        → (result ≡ Err AppendFault.BatchTooLong) ↔ (LONGEST_BATCH < length (frames ops.entry)) }
    ensures no_disk { result ≢ Err AppendFault.DiskFault }
{
    let mut bytes = without_word(alloc, ops)?;
    let len = bytes.len() - WORD - 1;
    if len > LONGEST_BATCH as usize {
        return Err(AppendFault::BatchTooLong);
    }
    put_word(&mut bytes, len as u32);
    Ok(bytes)
}

/// Puts the word of so many bytes, which may have runs, into its place.
fn put_word(bytes: &mut [u8], len: u32)
    requires place { 4 ≤ length bytes.old }
    requires short { len ≤ LONGEST_BATCH }
    ensures { bytes.new ≡ to_be_bytes w32 (word_of Version2 len) ++ drop 4 bytes.old }
{
    bytes[..WORD].copy_from_slice(&(TAG_UNIT + len).to_be_bytes());
}

/// What is written after the gate, but with 0 in the place of the word.
fn without_word(alloc: Global, ops: OpSlice<'_>) -> Result<Vec<u8>, NoMemory>
    ensures bytes { IfOk result (λ bytes. bytes.items ≡ (0 ∷ 0 ∷ 0 ∷ 0 ∷ []) ++ frames ops.entry ++ 0 ∷ []) }
    ensures have_frames { OnOk result (All HasFrame ops.entry) }
{
    let mut bytes = Vec::new(alloc);
    bytes.extend_from_slice(&[0; WORD])?;
    encode_all(ops, &mut bytes)?;
    bytes.push(CLOSED)?;
    Ok(bytes)
}
