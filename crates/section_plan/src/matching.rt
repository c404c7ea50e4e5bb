//! Which section each part of a draft is.

ghost use Rattle.std.specs.Prelude.{IfOk, length};
ghost use Rattle.section_plan.specs.Matching.{IsMatching, NoPairIsAlike, NoneIsLeft, TextsAreMatched};
ghost use Rattle.section_plan.specs.declared.keys.Key.TheVariants.{Title as title_key};

use crate::alike::pair_alike;
use crate::keys::Key;
use crate::pairing::{pair_by, pair_by_text};
use crate::pairs::Pairs;
use crate::part::Part;
use crate::sharing::pair_by_words;
use fugue_ids::NoMemory;
use std::alloc::Global;

/// Which section, by its place, each part of a draft is: one with the same title and text first, then one with the same
/// text, then one whose text shares most with
/// its own, then one with the same title, and then one whose text is alike.
pub fn match_sections(
    alloc: Global,
    sections: &[Part<'_>],
    parts: &[Part<'_>],
) -> Result<Pairs, NoMemory>
    ensures matching { IfOk result (λ pairs. IsMatching (length sections.now) (length parts.now) pairs) }
    ensures texts { IfOk result (λ pairs. TextsAreMatched pairs sections.now parts.now) }
    ensures titles { IfOk result (λ pairs. NoneIsLeft pairs sections.now parts.now title_key) }
    ensures alike { IfOk result (λ pairs. NoPairIsAlike pairs sections.now parts.now) }
{
    let mut pairs = Pairs::none(alloc, sections.len(), parts.len())?;
    pair_by_text(alloc, &mut pairs, sections, parts)?;
    pair_by_words(alloc, &mut pairs, sections, parts)?;
    pair_by(alloc, &mut pairs, sections, parts, Key::Title)?;
    pair_alike(alloc, &mut pairs, sections, parts)?;
    Ok(pairs)
}
