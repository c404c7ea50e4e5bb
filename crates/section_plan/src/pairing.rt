//! Pairs of sections and parts that are the same in a key: which of several goes with which.

ghost use Rattle.std.specs.Prelude.{◌<◌, OnOk, length};
ghost use Rattle.section_plan.specs.Matching.{GainsPairs, IsMatching, NoneIsLeft};
ghost use Rattle.section_plan.specs.declared.keys.Key.TheVariants.{Text as text};

use crate::completing::{complete, has_same};
use crate::keys::{Key, has_key, key_of};
use crate::pairs::Pairs;
use crate::part::Part;
use crate::rises::longest_rise;
use fugue_ids::NoMemory;
use std::alloc::Global;
use std::collections::BTreeMap;

/// Pairs free sections and parts that have the same text, as many as there can be: first those that have the same title
/// too.
pub(crate) fn pair_by_text(
    alloc: Global,
    pairs: &mut Pairs,
    sections: &[Part<'_>],
    parts: &[Part<'_>],
) -> Result<(), NoMemory>
    requires { IsMatching (length sections.now) (length parts.now) pairs.old }
    ensures grows { GainsPairs text sections.now parts.now pairs.old pairs.new }
    ensures done { OnOk result (NoneIsLeft pairs.new sections.now parts.now text) }
{
    let titled = propose_once(alloc, pairs, sections, parts, Key::Title)?;
    pair_proposed(pairs, sections, parts, Key::Text, titled.as_slice());
    let others = propose_in_order(alloc, pairs, sections, parts, Key::Title)?;
    pair_proposed(pairs, sections, parts, Key::Text, others.as_slice());
    pair_by(alloc, pairs, sections, parts, Key::Text)
}

/// Pairs free sections and parts that have the same key, as many as there can be: first those at the front and at the end,
/// then those whose key stands once on both sides, as many as stand in one order, then the others, in order.
pub(crate) fn pair_by(
    alloc: Global,
    pairs: &mut Pairs,
    sections: &[Part<'_>],
    parts: &[Part<'_>],
    key: Key,
) -> Result<(), NoMemory>
    requires { IsMatching (length sections.now) (length parts.now) pairs.old }
    ensures grows { GainsPairs key sections.now parts.now pairs.old pairs.new }
    ensures done { OnOk result (NoneIsLeft pairs.new sections.now parts.now key) }
{
    let old = free_sections(alloc, pairs, sections.len())?;
    let new = free_parts(alloc, pairs, parts.len())?;
    pair_from(
        End::First,
        pairs,
        sections,
        parts,
        key,
        old.as_slice(),
        new.as_slice(),
    );
    pair_from(
        End::Last,
        pairs,
        sections,
        parts,
        key,
        old.as_slice(),
        new.as_slice(),
    );
    let once = propose_once(alloc, pairs, sections, parts, key)?;
    pair_proposed(pairs, sections, parts, key, once.as_slice());
    let others = propose_in_order(alloc, pairs, sections, parts, key)?;
    pair_proposed(pairs, sections, parts, key, others.as_slice());
    complete(alloc, pairs, sections, parts, key)
}

/// The sections without a part.
pub(crate) fn free_sections(
    alloc: Global,
    pairs: &Pairs,
    count: usize,
) -> Result<Vec<usize>, NoMemory> {
    let mut free = Vec::new(alloc);
    'sections: for section in 0..count {
        if pairs.part_of(section).is_none() {
            free.push(section)?;
        }
    }
    Ok(free)
}

/// The parts without a section.
pub(crate) fn free_parts(
    alloc: Global,
    pairs: &Pairs,
    count: usize,
) -> Result<Vec<usize>, NoMemory> {
    let mut free = Vec::new(alloc);
    'parts: for part in 0..count {
        if pairs.section_of(part).is_none() {
            free.push(part)?;
        }
    }
    Ok(free)
}

/// Pairs a section and a part, where both are free and have the same key.
fn pair_same(
    pairs: &mut Pairs,
    sections: &[Part<'_>],
    parts: &[Part<'_>],
    key: Key,
    section: usize,
    part: usize,
)
    requires { IsMatching (length sections.now) (length parts.now) pairs.old }
    ensures { GainsPairs key sections.now parts.now pairs.old pairs.new }
{
    if section >= sections.len() || part >= parts.len() {
        return;
    }
    if pairs.part_of(section).is_some() || pairs.section_of(part).is_some() {
        return;
    }
    if !has_key(&parts[part], key) {
        return;
    }
    if has_same(&sections[section], key, key_of(&parts[part], key)) {
        pairs.add(section, part);
    }
}

/// An end of a list.
#[derive(Clone, Copy, Debug)]
enum End {
    First,
    Last,
}

/// The place that stands so far from an end.
fn place_from(end: End, places: &[usize], far: usize) -> usize
    requires { far < length places.now }
{
    match end {
        End::First => places[far],
        End::Last => places[places.len() - 1 - far],
    }
}

/// Pairs sections and parts from an end on, up to the first ones that differ.
fn pair_from(
    end: End,
    pairs: &mut Pairs,
    sections: &[Part<'_>],
    parts: &[Part<'_>],
    key: Key,
    old: &[usize],
    new: &[usize],
)
    requires { IsMatching (length sections.now) (length parts.now) pairs.old }
    ensures { GainsPairs key sections.now parts.now pairs.old pairs.new }
{
    'places: for far in 0..old.len().min(new.len()) {
        let part = place_from(end, new, far);
        pair_same(pairs, sections, parts, key, place_from(end, old, far), part);
        if pairs.section_of(part).is_none() {
            break;
        }
    }
}

/// Of each key the place among these where it stands, where it stands there once.
fn places_once<'a>(
    alloc: Global,
    sides: &[Part<'a>],
    places: &[usize],
    key: Key,
) -> Result<BTreeMap<&'a str, Option<usize>>, NoMemory> {
    let mut once = BTreeMap::new(alloc);
    'places: for place in places {
        if let Some(side) = sides.get(*place) {
            let name = key_of(side, key);
            let there = if once.contains_key(name) {
                None
            } else {
                Some(*place)
            };
            once.insert(name, there)?;
        }
    }
    Ok(once)
}

/// A section and a part that may go together.
#[derive(Clone, Copy, Debug)]
pub(crate) struct Proposal {
    pub(crate) section: usize,
    pub(crate) part: usize,
}

/// Pairs those of the proposed sections and parts that are free and have the same key.
fn pair_proposed(
    pairs: &mut Pairs,
    sections: &[Part<'_>],
    parts: &[Part<'_>],
    key: Key,
    proposals: &[Proposal],
)
    requires { IsMatching (length sections.now) (length parts.now) pairs.old }
    ensures { GainsPairs key sections.now parts.now pairs.old pairs.new }
{
    'proposals: for proposal in proposals {
        pair_same(pairs, sections, parts, key, proposal.section, proposal.part);
    }
}

/// The sections and parts whose key stands once among the free sections and once among the free parts: a longest series
/// of them that stand in one order.
fn propose_once(
    alloc: Global,
    pairs: &Pairs,
    sections: &[Part<'_>],
    parts: &[Part<'_>],
    key: Key,
) -> Result<Vec<Proposal>, NoMemory> {
    let old = free_sections(alloc, pairs, sections.len())?;
    let new = free_parts(alloc, pairs, parts.len())?;
    let once_old = places_once(alloc, sections, old.as_slice(), key)?;
    let once_new = places_once(alloc, parts, new.as_slice(), key)?;
    let both = once_in_both(alloc, parts, new.as_slice(), key, &once_old, &once_new)?;
    rise_of(alloc, both.as_slice())
}

/// A longest series of these in which the sections rise.
fn rise_of(alloc: Global, proposals: &[Proposal]) -> Result<Vec<Proposal>, NoMemory> {
    let mut sections = Vec::new(alloc);
    'sections: for proposal in proposals {
        sections.push(Some(proposal.section))?;
    }
    let rise = longest_rise(alloc, sections.as_slice())?;
    let mut kept = Vec::new(alloc);
    'proposals: for (k, proposal) in proposals.iter().enumerate() {
        if rise.get(k).copied().unwrap_or(false) {
            kept.push(*proposal)?;
        }
    }
    Ok(kept)
}

/// The sections and the parts with keys that stand once on both sides, in the order of the parts.
fn once_in_both(
    alloc: Global,
    parts: &[Part<'_>],
    new: &[usize],
    key: Key,
    old: &BTreeMap<&str, Option<usize>>,
    once: &BTreeMap<&str, Option<usize>>,
) -> Result<Vec<Proposal>, NoMemory> {
    let mut both = Vec::new(alloc);
    'parts: for place in new {
        if let Some(part) = parts.get(*place) {
            let name = key_of(part, key);
            if let (Some(section), Some(_)) = (place_of(old, name), place_of(once, name)) {
                both.push(Proposal {
                    section,
                    part: *place,
                })?;
            }
        }
    }
    Ok(both)
}

fn place_of(once: &BTreeMap<&str, Option<usize>>, name: &str) -> Option<usize> {
    match once.get(name) {
        Some(place) => *place,
        None => None,
    }
}

/// The free sections of each key: the first one, and after each the next one.
#[derive(Drop)]
struct Queues<'a> {
    first: BTreeMap<&'a str, usize>,
    next: Vec<Option<usize>>,
}

/// Those of these sections that are free.
fn queues_of<'a>(
    alloc: Global,
    pairs: &Pairs,
    sections: &[Part<'a>],
    key: Key,
) -> Result<Queues<'a>, NoMemory> {
    let mut first = BTreeMap::new(alloc);
    let mut next = vec![in alloc; None; sections.len()]?;
    'sections: for place in (0..sections.len()).rev() {
        if pairs.part_of(place).is_none() {
            next[place] = first.insert(key_of(&sections[place], key), place)?;
        }
    }
    Ok(Queues { first, next })
}

/// The free sections and parts that have the same key, in order.
fn propose_in_order(
    alloc: Global,
    pairs: &Pairs,
    sections: &[Part<'_>],
    parts: &[Part<'_>],
    key: Key,
) -> Result<Vec<Proposal>, NoMemory> {
    let Queues { mut first, next } = queues_of(alloc, pairs, sections, key)?;
    let mut proposals = Vec::new(alloc);
    'parts: for (place, part) in parts.iter().enumerate() {
        let name = key_of(part, key);
        if pairs.section_of(place).is_none() {
            if let Some(section) = first.remove(name) {
                proposals.push(Proposal {
                    section,
                    part: place,
                })?;
                if let Some(Some(behind)) = next.get(section) {
                    if let Some(other) = sections.get(*behind) {
                        first.insert(key_of(other, key), *behind)?;
                    }
                }
            }
        }
    }
    Ok(proposals)
}
