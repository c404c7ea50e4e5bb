//! An index of texts by a hash of their first third, their mark: texts that may be alike are found by it.

ghost use Rattle.std.specs.Prelude.{◌≡◌, ◌+◌, ◌*◌, ◌<◌, ◌≤◌, IfNone, IfOk, IfSome, None, Some, length, slice_get, slice_index_or};
ghost use Rattle.std.specs.Ordering.{nat_cmp};
ghost use Rattle.std.specs.BTreeMap.{get};
ghost use Rattle.section_plan.specs.Alike.{AreThere};
ghost use Rattle.section_plan.specs.Hashes.{AreHashed, NoneFronted, NoneHashed, earlier as earlier_of, hash_of_text as hash_in, next_hash as hash_with, third_hash as third_in};
ghost use Rattle.section_plan.specs.Matching.{part_of as part_in};

use crate::alike::{Scalars, is_candidate};
use crate::pairs::Pairs;
use fugue_ids::NoMemory;
use std::alloc::Global;
use std::collections::BTreeMap;

/// The modulus of the marks, a prime.
pub(crate) const MODULUS: u64 = 4_294_967_291;

/// An index of texts by their marks: for each mark the first text, and for each text the next one with the same mark.
#[derive(Drop)]
pub(crate) struct HashIndex {
    hashes: Vec<u64>,
    first: BTreeMap<u64, usize>,
    next: Vec<Option<usize>>,
}

/// The mark of a text with one scalar more.
fn next_hash(hash: u64, scalar: char) -> u64
    ensures { result ≡ hash_with hash scalar }
{
    (hash % MODULUS * 31 + u64::from(scalar)) % MODULUS
}

/// The mark of the first third of a list.
pub(crate) fn third_hash(list: &[char]) -> u64
    ensures { result ≡ third_in list.now }
{
    let mut hash = 0;
    'scalars: for scalar in &list[..list.len() / 3] {
        hash = next_hash(hash, *scalar);
    }
    hash
}

impl HashIndex {
    /// The index of the texts with these marks.
    pub(crate) fn of(alloc: Global, hashes: Vec<u64>) -> Result<HashIndex, NoMemory>
        ensures is { IfOk result (λ made. made.hashes ≡ hashes) }
        ensures hashed { IfOk result (λ made. AreHashed hashes.items 0 (get nat_cmp made.first) made.next.items) }
    {
        let mut first = BTreeMap::new(alloc);
        let mut next = vec![in alloc; None; hashes.len()]?;
        let mut place = hashes.len();
        'hashes: while place > 0 {
            place -= 1;
            next[place] = first.insert(hashes[place], place)?;
        }
        Ok(HashIndex {
            hashes,
            first,
            next,
        })
    }
}

fn section_at(sections: &[Scalars], place: usize) -> &Scalars
    requires { place < length sections.now }
    ensures { slice_get sections.now place ≡ Some result.now }
{
    &sections[place]
}

/// The next text that has the same mark.
fn next_of(hashes: &HashIndex, place: usize) -> Option<usize>
    requires { place < length hashes.now.next.items }
    ensures { result ≡ slice_index_or hashes.now.next.items place None }
{
    hashes.next[place]
}

/// The first free section whose text has this mark and is alike.
fn find_hashed(
    pairs: &Pairs,
    sections: &[Scalars],
    text: &[char],
    hashes: &HashIndex,
    hash: u64,
) -> Option<usize>
    requires hashed { AreHashed hashes.now.hashes.items 0 (get nat_cmp hashes.now.first) hashes.now.next.items }
    requires long { length hashes.now.hashes.items ≡ length sections.now }
    requires within { AreThere (length pairs.now.of_section.items) sections.now }
    ensures within { IfSome result (λ place. place < length pairs.now.of_section.items) }
    ensures free { IfSome result (λ place. part_in pairs.now place ≡ None) }
    ensures none { IfNone result (NoneHashed pairs.now sections.now hashes.now.hashes.items hash text.now) }
{
    let mut next = hashes.first.get(&hash).copied();
    'hashed: while let Some(place) = next {
        let section = section_at(sections, place);
        if is_candidate(pairs, section, text) {
            return Some(section.place);
        }
        next = next_of(hashes, place);
    }
    None
}

/// The smaller of two positions, where there are any.
pub(crate) fn earlier(one: Option<usize>, other: Option<usize>) -> Option<usize>
    ensures { result ≡ earlier_of one other }
{
    match (one, other) {
        (Some(one), Some(other)) => Some(one.min(other)),
        (Some(one), None) => Some(one),
        (None, other) => other,
    }
}

/// The first free section whose text is alike and has the mark of a prefix of this list.
pub(crate) fn find_fronted(
    pairs: &Pairs,
    sections: &[Scalars],
    text: &[char],
    hashes: &HashIndex,
    list: &[char],
) -> Option<usize>
    requires hashed { AreHashed hashes.now.hashes.items 0 (get nat_cmp hashes.now.first) hashes.now.next.items }
    requires long { length hashes.now.hashes.items ≡ length sections.now }
    requires within { AreThere (length pairs.now.of_section.items) sections.now }
    ensures within { IfSome result (λ place. place < length pairs.now.of_section.items) }
    ensures free { IfSome result (λ place. part_in pairs.now place ≡ None) }
    ensures none { IfNone result (NoneFronted pairs.now sections.now hashes.now.hashes.items list.now (length list.now + 1) text.now) }
{
    let mut hash = 0;
    let mut found = None;
    'scalars: for scalar in list {
        let hashed = find_hashed(pairs, sections, text, hashes, hash);
        found = earlier(found, hashed);
        hash = next_hash(hash, *scalar);
    }
    let last = find_hashed(pairs, sections, text, hashes, hash);
    earlier(found, last)
}
