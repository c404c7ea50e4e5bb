//! Pairs of sections and parts whose texts share most: by words, pairs of words and runs of five that few texts have.

ghost use Rattle.section_plan.specs.Matching.{KeepsPairs};

use crate::pairing::{free_parts, free_sections};
use crate::pairs::Pairs;
use crate::part::Part;
use fugue_ids::NoMemory;
use std::alloc::Global;
use std::collections::BTreeMap;

/// The most sections, and the most parts, that have a fingerprint which counts.
const MOST_TEXTS: usize = 8;

/// What a fingerprint that one section and one part alone have weighs: divisible by each number of texts that counts.
const WHOLE: u64 = 840 * 840;

/// A fingerprint of a text, by a hash of its words, and whose text that is.
type Fingerprint = (u64, usize);

/// A section and a part that share something, the best ones first, and of these the first ones.
#[derive(Clone, Copy, Debug, PartialEq, Eq, PartialOrd, Ord)]
struct Candidate {
    /// How much less than everything they share.
    missing: u64,
    section: usize,
    part: usize,
}

/// Pairs free sections and parts whose texts share most, best first. They share at least a quarter of what the lighter
/// one of the two has. Equal titles count double.
pub(crate) fn pair_by_words(
    alloc: Global,
    pairs: &mut Pairs,
    sections: &[Part<'_>],
    parts: &[Part<'_>],
) -> Result<(), NoMemory>
    ensures { KeepsPairs pairs.old pairs.new }
{
    let candidates = candidates_of(alloc, pairs, sections, parts)?;
    'candidates: for candidate in candidates.as_slice() {
        pairs.pair_free(candidate.section, candidate.part);
    }
    Ok(())
}

/// The free sections and parts that share enough, in the order in which they are paired.
fn candidates_of(
    alloc: Global,
    pairs: &Pairs,
    sections: &[Part<'_>],
    parts: &[Part<'_>],
) -> Result<Vec<Candidate>, NoMemory> {
    let old = free_sections(alloc, pairs, sections.len())?;
    let new = free_parts(alloc, pairs, parts.len())?;
    let old_fingerprints = fingerprints_of(alloc, sections, old.as_slice())?;
    let new_fingerprints = fingerprints_of(alloc, parts, new.as_slice())?;
    let shared = shared_weights(
        alloc,
        old_fingerprints.as_slice(),
        new_fingerprints.as_slice(),
    )?;
    let old_whole = whole_weights(
        alloc,
        old_fingerprints.as_slice(),
        new_fingerprints.as_slice(),
        sections.len(),
    )?;
    let new_whole = whole_weights(
        alloc,
        new_fingerprints.as_slice(),
        old_fingerprints.as_slice(),
        parts.len(),
    )?;
    let mut candidates = Vec::new(alloc);
    'shared: for ((section, part), weight) in shared.iter() {
        let least = weight_of(old_whole.as_slice(), *section).min(weight_of(
            new_whole.as_slice(),
            *part,
        ));
        if weight.saturating_mul(4) >= least {
            let double = have_same_title(sections, *section, parts, *part);
            let weight = weight.saturating_mul(if double { 2 } else { 1 });
            candidates.push(Candidate {
                missing: u64::MAX - weight,
                section: *section,
                part: *part,
            })?;
        }
    }
    candidates.sort()?;
    Ok(candidates)
}

fn weight_of(weights: &[u64], side: usize) -> u64 {
    weights.get(side).copied().unwrap_or(0)
}

fn have_same_title(sections: &[Part<'_>], section: usize, parts: &[Part<'_>], part: usize) -> bool {
    match (sections.get(section), parts.get(part)) {
        (Some(section), Some(part)) => section.title == part.title,
        _ => false,
    }
}

/// Takes a byte into a hash (Fowler, Noll and Vo).
fn hash_byte(hash: u64, byte: u8) -> u64 {
    (hash ^ u64::from(byte)).wrapping_mul(0x0000_0100_0000_01b3)
}

fn hash_of(word: &str) -> u64 {
    let mut hash = 0xcbf2_9ce4_8422_2325u64;
    'bytes: for byte in word.as_bytes() {
        hash = hash_byte(hash, *byte);
    }
    hash
}

/// A hash of two hashes, in their order.
fn joined(first: u64, second: u64) -> u64 {
    first.rotate_left(23).wrapping_mul(0x9e37_79b9_7f4a_7c15) ^ second
}

/// The hashes of the words of a text.
fn words_of(alloc: Global, text: &str) -> Result<Vec<u64>, NoMemory> {
    let mut words = Vec::new(alloc);
    'words: for word in text.split(|c: char| !c.is_alphanumeric()) {
        if !word.is_empty() {
            words.push(hash_of(word))?;
        }
    }
    Ok(words)
}

/// The fingerprints of these texts, in order: each word, each pair of neighbours and each run of five, once for each text.
fn fingerprints_of(
    alloc: Global,
    sides: &[Part<'_>],
    places: &[usize],
) -> Result<Vec<Fingerprint>, NoMemory> {
    let mut fingerprints = Vec::new(alloc);
    'places: for place in places {
        if let Some(side) = sides.get(*place) {
            let words = words_of(alloc, side.text)?;
            add_fingerprints(&mut fingerprints, words.as_slice(), *place)?;
        }
    }
    fingerprints.sort()?;
    fingerprints.dedup();
    Ok(fingerprints)
}

fn add_fingerprints(
    fingerprints: &mut Vec<Fingerprint>,
    words: &[u64],
    place: usize,
) -> Result<(), NoMemory> {
    'words: for (k, word) in words.iter().enumerate() {
        fingerprints.push((*word, place))?;
        let behind = &words[k + 1..];
        if let Some(second) = behind.first() {
            let pair = joined(*word, *second);
            fingerprints.push((pair, place))?;
            if let (Some(third), Some(fourth), Some(fifth)) = (
                behind.get(1),
                behind.get(2),
                behind.get(3),
            ) {
                let run = joined(joined(pair, joined(*third, *fourth)), *fifth);
                fingerprints.push((run, place))?;
            }
        }
    }
    Ok(())
}

/// The fingerprints with this hash, of those in order.
fn with_hash(fingerprints: &[Fingerprint], hash: u64) -> &[Fingerprint] {
    let from = fingerprints.partition_point(|fingerprint| fingerprint.0 < hash);
    let to = fingerprints.partition_point(|fingerprint| fingerprint.0 <= hash);
    if from <= to {
        &fingerprints[from..to]
    } else {
        &[]
    }
}

/// What a fingerprint weighs that so many texts on both sides have.
fn weight_for(old: usize, new: usize) -> u64 {
    if old > MOST_TEXTS || new > MOST_TEXTS {
        return 0;
    }
    WHOLE / (old.max(1) as u64) / (new.max(1) as u64)
}

/// How much each section and part share that share anything.
fn shared_weights(
    alloc: Global,
    old: &[Fingerprint],
    new: &[Fingerprint],
) -> Result<BTreeMap<(usize, usize), u64>, NoMemory> {
    let mut shared = BTreeMap::new(alloc);
    'old: for fingerprint in old {
        let others = with_hash(new, fingerprint.0);
        let weight = weight_for(with_hash(old, fingerprint.0).len(), others.len());
        if weight > 0 {
            add_weights(&mut shared, fingerprint.1, others, weight)?;
        }
    }
    Ok(shared)
}

fn add_weights(
    shared: &mut BTreeMap<(usize, usize), u64>,
    section: usize,
    parts: &[Fingerprint],
    weight: u64,
) -> Result<(), NoMemory> {
    'parts: for part in parts {
        let key = (section, part.1);
        let before = shared.get(&key).copied().unwrap_or(0);
        shared.insert(key, before.saturating_add(weight))?;
    }
    Ok(())
}

/// What all fingerprints of each text weigh together.
fn whole_weights(
    alloc: Global,
    fingerprints: &[Fingerprint],
    others: &[Fingerprint],
    count: usize,
) -> Result<Vec<u64>, NoMemory> {
    let mut weights = vec![in alloc; 0u64; count]?;
    'fingerprints: for fingerprint in fingerprints {
        if fingerprint.1 < weights.len() {
            let weight = weight_for(
                with_hash(fingerprints, fingerprint.0).len(),
                with_hash(others, fingerprint.0).len(),
            );
            weights[fingerprint.1] = weights[fingerprint.1].saturating_add(weight);
        }
    }
    Ok(weights)
}
