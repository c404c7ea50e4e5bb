//! A disk of at most sixteen bytes that finds each byte of an image by the model's own words.

use super::{Step, Taken};
use memory_ports::Pick;

/// Whether a crash leaves these bytes of a disk that held the first ones and took the steps. A write that failed may have
/// left anything in its range. An image goes on where a byte was durable, or, but for Old, up to the last that was
/// touched.
pub(super) fn leaves(first: &str, steps: &[Taken], pick: Pick, bytes: &[u8]) -> bool {
    // What a read gives, what stood at the last sync, and where something was written since, or tried to be.
    let mut seen = [None; 16];
    for (slot, byte) in seen.iter_mut().zip(first.bytes()) {
        *slot = Some(byte);
    }
    let mut base = seen;
    let mut touched = [false; 16];
    for (step, answer) in steps {
        match step {
            Step::Write(at, text) => {
                for (offset, byte) in text.bytes().enumerate() {
                    let at = (*at as usize).saturating_add(offset);
                    if let Some(touched) = touched.get_mut(at) {
                        *touched = true;
                    }
                    if let (Some(seen), Ok(())) = (seen.get_mut(at), answer) {
                        *seen = Some(byte);
                    }
                }
            }
            Step::Sync if answer.is_ok() => {
                base = seen;
                touched = [false; 16];
            }
            Step::Sync => {}
        }
    }
    for offset in 0..16 {
        let old = base[offset];
        let new = seen[offset].or(old);
        let inside = touched.iter().skip(offset).any(|later| *later);
        let left = match (pick, old) {
            (Pick::Old, _) => old,
            (Pick::New, None) if inside => new.or(Some(0)),
            (Pick::New, Some(_)) if touched[offset] => new,
            (Pick::Fill(byte), None) if inside => Some(byte),
            (Pick::Fill(byte), Some(_)) if touched[offset] => Some(byte),
            _ => old,
        };
        if left != bytes.get(offset).copied() {
            return false;
        }
    }
    true
}
