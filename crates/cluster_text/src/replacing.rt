//! How scalars of a text in parts give way to others.
ghost use Rattle.std.specs.Prelude.{◌≡◌, ◌⊎◌, ◌^◌, ◌<◌, ◌≤◌, ◌++◌, true, length, take, drop, encode_utf8_all, IfOk, OnErr, OnOk};
ghost use Rattle.std.specs.Prelude.{string_bytes};
ghost use Rattle.std.specs.List.{splice as spliced};
ghost use Rattle.std.specs.Str.{chars};
ghost use Rattle.cluster_text.specs.Boundaries.{is_closed, last_closes};
ghost use Rattle.cluster_text.specs.Parts.{IsGathered, scalar_count, whole};

use crate::cutting::cut_up;
use crate::ending::Ending;
use crate::part::Part;
use crate::scalars::split_at_scalar;
use crate::tree::Tree;
use std::alloc::{AllocError, Global};

/// The scalars from `at` up to `end` give way to a text. One scalar at least stays on each side, and after the last one
/// a cluster ends, whatever stands before it. After an allocation failure the parts are as before.
pub(crate) fn replace(
    parts: &mut Tree,
    alloc: Global,
    at: usize,
    end: usize,
    new: &str,
) -> Result<(), AllocError>
    requires some { 0 < at }
    requires order { at ≤ end }
    requires more { end < scalar_count parts.old }
    requires few { scalar_count parts.old < 2 ^ 64 }
    requires closed { last_closes (chars (whole parts.old)) ≡ true }
    ensures ok { OnOk result (whole parts.new
        ≡ encode_utf8_all (spliced (chars (whole parts.old)) at end (chars new.now))) }
    ensures err { OnErr result (parts.new ≡ parts.old) }
{
    let first = parts.find_spot(at - 1);
    let last = parts.find_spot(end);
    let mut text = join_ends(
        alloc,
        parts.get(first.part),
        first.within + 1,
        new,
        parts.get(last.part),
        last.within,
    )?;
    let behind = gather(parts, &mut text, last.part + 1)?;
    let cut = cut_up(alloc, text.as_str())?;
    parts.splice(first.part, behind, cut);
    Ok(())
}

/// The front of a part, a text, and what stands after the front of a part.
fn join_ends(
    alloc: Global,
    first: &Part,
    at: usize,
    new: &str,
    last: &Part,
    end: usize,
) -> Result<String, AllocError>
    ensures { IfOk result (λ text. string_bytes text
        ≡ encode_utf8_all (take at (chars (string_bytes first.now.text)))
        ++ (new.now ++ encode_utf8_all (drop end (chars (string_bytes last.now.text))))) }
{
    let (front, _) = split_at_scalar(first.text.as_str(), at);
    let (_, back) = split_at_scalar(last.text.as_str(), end);
    let mut text = String::from_str(alloc, front)?;
    text.push_str(new)?;
    text.push_str(back)?;
    Ok(text)
}

/// Adds the parts from an index on to a text, until a cluster ends after it whatever follows, or no part is left. So
/// half of a flag that came or went moves the boundaries of the flags after it. Returns the index after the last of
/// these parts.
fn gather(parts: &Tree, text: &mut String, from: usize) -> Result<usize, AllocError>
    requires within { from ≤ length parts.now }
    requires few { length parts.now < 2 ^ 64 }
    ensures gathered { IfOk result (IsGathered parts.now (string_bytes text.old) (string_bytes text.new) from) }
    ensures closed { IfOk result (λ behind. (is_closed (chars (string_bytes text.new)) ≡ true) ⊎ (behind ≡ length parts.now)) }
{
    let mut behind = from;
    let mut ending = Ending::new().pass_all(text.as_str());
    'parts: while behind < parts.len() && !ending.is_closed() {
        let part = parts.get(behind);
        text.push_str(part.text.as_str())?;
        ending = ending.pass_all(part.text.as_str());
        behind += 1;
    }
    Ok(behind)
}
