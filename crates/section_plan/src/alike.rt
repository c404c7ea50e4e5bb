//! Pairs of sections and parts with texts that are alike.

ghost use Rattle.std.specs.Prelude.{◌≡◌, ◌↔◌, ◌<◌, IfNone, IfOk, IfSome, IsTrue, None, OnOk, length, reverse, true};
ghost use Rattle.std.specs.Str.{chars};
ghost use Rattle.section_plan.specs.Alike.{AreThere, HasSectionTexts, IsServed, NoneAmong};
ghost use Rattle.section_plan.specs.Likeness.{alike};
ghost use Rattle.section_plan.specs.Hashes.{AreThirds, IsTextIndex, list_of, reversed_of};
ghost use Rattle.section_plan.specs.Matching.{KeepsPairs, IsMatching, NoPairIsAlike, part_of as part_in};

use crate::hashes::{HashIndex, earlier, find_fronted, third_hash};
use crate::likeness::are_alike;
use crate::pairs::Pairs;
use crate::part::Part;
use fugue_ids::NoMemory;
use std::alloc::Global;

/// The scalars of the text of a section, from the front on and from the end on.
#[derive(Drop)]
pub(crate) struct Scalars {
    pub(crate) place: usize,
    pub(crate) list: Vec<char>,
    pub(crate) reversed: Vec<char>,
}

fn scalars_in(alloc: Global, text: &str) -> Result<Vec<char>, NoMemory>
    ensures { IfOk result (λ scalars. scalars.items ≡ chars text.now) }
{
    Ok(text.chars().collect(alloc)?)
}

fn reversed_in(alloc: Global, text: &str) -> Result<Vec<char>, NoMemory>
    ensures { IfOk result (λ scalars. scalars.items ≡ reverse (chars text.now)) }
{
    let mut scalars = scalars_in(alloc, text)?;
    scalars.as_mut_slice().reverse();
    Ok(scalars)
}

/// The scalars of the texts of the free sections that are not empty: an empty one is alike with none.
fn scalars_of(alloc: Global, pairs: &Pairs, sections: &[Part<'_>]) -> Result<Vec<Scalars>, NoMemory>
    ensures { IfOk result (λ texts. HasSectionTexts pairs.now sections.now (length sections.now) texts.items) }
{
    let mut texts = Vec::new(alloc);
    'sections: for (place, section) in sections.iter().enumerate() {
        if pairs.part_of(place).is_none() {
            let list = scalars_in(alloc, section.text)?;
            if !list.is_empty() {
                let reversed = reversed_in(alloc, section.text)?;
                texts.push(Scalars {
                    place,
                    list,
                    reversed,
                })?;
            }
        }
    }
    Ok(texts)
}

/// Whether the section is free, and its text is alike.
pub(crate) fn is_candidate(pairs: &Pairs, section: &Scalars, text: &[char]) -> bool
    ensures { IsTrue result ↔ ((part_in pairs.now section.now.place ≡ None) × (alike section.now.list.items text.now ≡ true)) }
{
    pairs.part_of(section.place).is_none() && are_alike(section.list.as_slice(), text)
}

/// The texts of free sections, by the marks of their fronts and of their ends.
#[derive(Drop)]
struct Index {
    texts: Vec<Scalars>,
    front: HashIndex,
    end: HashIndex,
}

fn front_hashes(alloc: Global, texts: &[Scalars]) -> Result<Vec<u64>, NoMemory>
    ensures { IfOk result (λ hashes. AreThirds list_of texts.now (length texts.now) hashes.items) }
{
    let mut hashes = Vec::new(alloc);
    'texts: for text in texts {
        hashes.push(third_hash(text.list.as_slice()))?;
    }
    Ok(hashes)
}

fn end_hashes(alloc: Global, texts: &[Scalars]) -> Result<Vec<u64>, NoMemory>
    ensures { IfOk result (λ hashes. AreThirds reversed_of texts.now (length texts.now) hashes.items) }
{
    let mut hashes = Vec::new(alloc);
    'texts: for text in texts {
        hashes.push(third_hash(text.reversed.as_slice()))?;
    }
    Ok(hashes)
}

/// The texts of the free sections.
fn index_of(alloc: Global, pairs: &Pairs, sections: &[Part<'_>]) -> Result<Index, NoMemory>
    ensures texts { IfOk result (λ index. HasSectionTexts pairs.now sections.now (length sections.now) index.texts.items) }
    ensures is { IfOk result (λ index. IsTextIndex index.texts.items index.front index.end) }
{
    let texts = scalars_of(alloc, pairs, sections)?;
    let front = HashIndex::of(alloc, front_hashes(alloc, texts.as_slice())?)?;
    let end = HashIndex::of(alloc, end_hashes(alloc, texts.as_slice())?)?;
    Ok(Index { texts, front, end })
}

/// The first free section whose text is alike.
fn find_alike(pairs: &Pairs, index: &Index, text: &[char], reversed: &[char]) -> Option<usize>
    requires index { IsTextIndex index.now.texts.items index.now.front index.now.end }
    requires within { AreThere (length pairs.now.of_section.items) index.now.texts.items }
    requires reversed { reversed.now ≡ reverse text.now }
    ensures within { IfSome result (λ place. place < length pairs.now.of_section.items) }
    ensures free { IfSome result (λ place. part_in pairs.now place ≡ None) }
    ensures none { IfNone result (NoneAmong pairs.now index.now.texts.items (length index.now.texts.items) text.now) }
{
    let texts = index.texts.as_slice();
    let front = find_fronted(pairs, texts, text, &index.front, text);
    let end = find_fronted(pairs, texts, text, &index.end, reversed);
    earlier(front, end)
}

/// Pairs a part that is free with the first free section whose text is alike.
fn serve_part(
    alloc: Global,
    pairs: &mut Pairs,
    index: &Index,
    place: usize,
    text: &str,
) -> Result<(), NoMemory>
    requires part { place < length pairs.old.of_part.items }
    requires index { IsTextIndex index.now.texts.items index.now.front index.now.end }
    requires within { AreThere (length pairs.old.of_section.items) index.now.texts.items }
    ensures kept { KeepsPairs pairs.old pairs.new }
    ensures served { OnOk result (IsServed pairs.new index.now.texts.items place (chars text.now)) }
{
    if pairs.section_of(place).is_some() {
        return Ok(());
    }
    let list = scalars_in(alloc, text)?;
    if list.is_empty() {
        return Ok(());
    }
    let reversed = reversed_in(alloc, text)?;
    if let Some(section) = find_alike(pairs, index, list.as_slice(), reversed.as_slice()) {
        pairs.add(section, place);
    }
    Ok(())
}

/// Pairs free sections and parts with texts that are alike, until there are no such ones.
pub(crate) fn pair_alike(
    alloc: Global,
    pairs: &mut Pairs,
    sections: &[Part<'_>],
    parts: &[Part<'_>],
) -> Result<(), NoMemory>
    requires { IsMatching (length sections.now) (length parts.now) pairs.old }
    ensures kept { KeepsPairs pairs.old pairs.new }
    ensures done { OnOk result (NoPairIsAlike pairs.new sections.now parts.now) }
{
    let index = index_of(alloc, pairs, sections)?;
    'parts: for (place, part) in parts.iter().enumerate() {
        serve_part(alloc, pairs, &index, place, part.text)?;
    }
    Ok(())
}
