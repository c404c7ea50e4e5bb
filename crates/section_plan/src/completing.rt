//! Pairs of sections and parts that are the same in a key, until none of them is left.

ghost use Rattle.std.specs.Prelude.{◌≡◌, ◌↔◌, ℕ, ◌<◌, IfNone, IfOk, IfSome, IsSome, IsTrue, OnOk, length};
ghost use Rattle.section_plan.specs.Completing.{AddsSamePart, HasKeysOfFree, found_for, IsSettledPart, IsFreeWith};
ghost use Rattle.section_plan.specs.Matching.{KeepsPairs, GainsPairs, IsMatching, NoneIsLeft, key_in};

use crate::keys::{Key, has_key, key_of};
use crate::pairs::Pairs;
use crate::part::Part;
use fugue_ids::NoMemory;
use std::alloc::Global;
use std::collections::BTreeMap;

/// The keys of the sections that are free.
fn keys_of_free<'a>(
    alloc: Global,
    pairs: &Pairs,
    sections: &[Part<'a>],
    key: Key,
) -> Result<BTreeMap<&'a str, usize>, NoMemory>
    ensures { IfOk result (λ keys. HasKeysOfFree pairs.now sections.now key (length sections.now) keys) }
{
    let mut keys = BTreeMap::new(alloc);
    'sections: for (place, section) in sections.iter().enumerate() {
        if pairs.part_of(place).is_none() {
            keys.insert(key_of(section, key), place)?;
        }
    }
    Ok(keys)
}

/// Whether the section has the key.
pub(crate) fn has_same(section: &Part<'_>, key: Key, wanted: &str) -> bool
    ensures { IsTrue result ↔ (key_in key section.now ≡ wanted.now) }
{
    key_of(section, key) == wanted
}

/// The first free section with the key.
fn find_free(pairs: &Pairs, sections: &[Part<'_>], key: Key, wanted: &str) -> Option<usize>
    ensures found { IfSome result (λ place. IsFreeWith pairs.now sections.now key wanted.now place) }
    ensures none { IfNone result ((i : ℕ) → IsFreeWith pairs.now sections.now key wanted.now i → ⊥) }
{
    'sections: for (place, section) in sections.iter().enumerate() {
        if pairs.part_of(place).is_none() && has_same(section, key, wanted) {
            return Some(place);
        }
    }
    None
}

/// Whether a free section may have the key.
fn is_known(keys: &BTreeMap<&str, usize>, wanted: &str) -> bool
    ensures { IsTrue result ↔ IsSome (found_for keys.now wanted.now) }
{
    keys.get(wanted).is_some()
}

/// Pairs a part that is free with the first free section that has its key.
fn complete_part(
    pairs: &mut Pairs,
    keys: &BTreeMap<&str, usize>,
    sections: &[Part<'_>],
    key: Key,
    place: usize,
    part: &Part<'_>,
)
    requires within { place < length pairs.old.of_part.items }
    requires sections { length pairs.old.of_section.items ≡ length sections.now }
    requires keys { HasKeysOfFree pairs.old sections.now key (length sections.now) keys.now }
    ensures kept { KeepsPairs pairs.old pairs.new }
    ensures same { AddsSamePart pairs.old pairs.new sections.now key place (key_in key part.now) }
    ensures done { IsSettledPart pairs.new sections.now key place part.now }
{
    let wanted = key_of(part, key);
    if pairs.section_of(place).is_some() || !has_key(part, key) {
        return;
    }
    if !is_known(keys, wanted) {
        return;
    }
    if let Some(section) = find_free(pairs, sections, key, wanted) {
        pairs.add(section, place);
    }
}

/// Pairs free sections and parts that have the same key, until there are no such ones.
pub(crate) fn complete(
    alloc: Global,
    pairs: &mut Pairs,
    sections: &[Part<'_>],
    parts: &[Part<'_>],
    key: Key,
) -> Result<(), NoMemory>
    requires { IsMatching (length sections.now) (length parts.now) pairs.old }
    ensures grows { GainsPairs key sections.now parts.now pairs.old pairs.new }
    ensures done { OnOk result (NoneIsLeft pairs.new sections.now parts.now key) }
{
    let keys = keys_of_free(alloc, pairs, sections, key)?;
    'parts: for (place, part) in parts.iter().enumerate() {
        complete_part(pairs, &keys, sections, key, place, part);
    }
    Ok(())
}
