//! How many operations of a run a list has already, in a row from a position on.

ghost use Rattle.std.specs.Prelude.{◌≡◌, All, drop, length};
ghost use Rattle.fugue_ids.specs.Runs.{run_from};
ghost use Rattle.op_runs.specs.Parts.{AreApart, IsOther, IsSoundPart, firsts_of, ops_of};
ghost use Rattle.op_runs.specs.CommonPrefix.{common_prefix, common_letters};

use crate::find::spot_of;
use crate::part::Part;
use fugue_ids::{Op, RunStart};

/// The length of the common prefix of two texts, in scalars.
fn same_len(letters: &[char], text: &[char]) -> usize
    ensures { result ≡ common_letters letters.now text.now }
{
    let most = letters.len().min(text.len());
    for count in 0..most {
        if letters[count] != text[count] {
            return count;
        }
    }
    most
}

/// How many of the Texts of a run the list has, one after the other, from a position on.
pub(crate) fn repeats_at(
    parts: &[Part],
    firsts: &[u32],
    letters: &[char],
    others: &[Op],
    count: u32,
    position: usize,
    start: &RunStart,
    text: &[char],
) -> usize
    requires sound { All (IsSoundPart (length letters.now) (length others.now)) parts.now }
    requires apart { AreApart parts.now }
    requires others { All IsOther others.now }
    requires firsts { firsts.now ≡ firsts_of 0 parts.now }
    requires counted { count ≡ length (ops_of letters.now others.now parts.now) }
    ensures { result ≡ common_prefix (drop position (ops_of letters.now others.now parts.now)) (run_from start.now text.now) }
{
    // The contract alone needs these.
    let _ = others;
    let Some(spot) = spot_of(parts, firsts, count, position) else {
        return 0;
    };
    if let Part::Typed(run) = &parts[spot.part] {
        if run.start.goes_on(spot.offset, start) {
            let from = run.at as usize + spot.offset;
            let end = run.at as usize + run.count as usize;
            return same_len(&letters[from..end], text);
        }
    }
    0
}
