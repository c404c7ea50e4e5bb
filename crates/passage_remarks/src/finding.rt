//! Where a passage stands in the arranged sections.
ghost use Rattle.std.specs.Prelude.{◌≡◌, ◌≢◌, [], IfOk};
ghost use Rattle.origin_model.specs.edits.State.{IsSound};
ghost use Rattle.catalogue_notes.specs.Outlining.{IsEntry, IsOutline};
ghost use Rattle.passage_search.specs.Places.{places as places_in};
ghost use Rattle.passage_remarks.specs.Finding.{AreFoundAt, found_count, found_in_section, passage_places, section_places, found_together};

use catalogue_notes::{Entry as Section, outline};
use fugue_ids::NoMemory;
use passage_search::{Span, places_of, span_of};
use replica_core::Replica;
use std::alloc::Global;

/// A place of a passage: the number of its section in the catalogue, from 0, and the clusters that have bytes of it.
#[derive(Clone, Copy)]
pub(crate) struct Spot {
    pub section: usize,
    pub span: Span,
}

/// Where a passage stands, or at how many places, overlapping ones counted.
#[derive(Clone, Copy)]
pub(crate) enum Found {
    Nowhere,
    Once(Spot),
    Often(u32),
}

impl Found {
    fn count(self) -> u32
        ensures { result ≡ found_count self }
    {
        match self {
            Found::Nowhere => 0,
            Found::Once(_) => 1,
            Found::Often(count) => count,
        }
    }

    /// What is found here and there.
    fn and(self, other: Found) -> Found
        ensures { result ≡ found_together self other }
    {
        match (self, other) {
            (Found::Nowhere, found) | (found, Found::Nowhere) => found,
            _ => Found::Often(self.count().saturating_add(other.count())),
        }
    }
}

/// Where the passage stands in the text of the section with this number.
fn find_in(section: usize, text: &str, passage: &[u8]) -> Found
    requires { passage.now ≢ [] }
    ensures { result ≡ found_in_section section text.now passage.now (places_in text.now passage.now) }
{
    let places = places_of(text.as_bytes(), passage);
    match places.count {
        0 => Found::Nowhere,
        1 => {
            let span = span_of(text, places.first, places.first + passage.len());
            Found::Once(Spot { section, span })
        }
        count => Found::Often(u32::try_from(count).unwrap_or(u32::MAX)),
    }
}

/// Where the passage stands in a section.
fn find_in_section(replica: &Replica, section: &Section, passage: &[u8]) -> Result<Found, NoMemory>
    requires entry { IsEntry replica.now.held.history section.now }
    requires some { passage.now ≢ [] }
    ensures { IfOk result (AreFoundAt replica.now.held.history passage.now
        (section_places replica.now.held.history passage.now section.now.section)) }
{
    let text = replica.text_of(section.number)?.unwrap();
    Ok(find_in(section.number, text.as_str(), passage))
}

/// Where the passage stands, where these are the sections as they are arranged.
fn find_in_sections(
    replica: &Replica,
    sections: &[Section],
    passage: &[u8],
) -> Result<Found, NoMemory>
    requires outline { IsOutline replica.now.held.history sections.now }
    requires some { passage.now ≢ [] }
    ensures { IfOk result (AreFoundAt replica.now.held.history passage.now
        (passage_places replica.now.held.history passage.now)) }
{
    let mut found = Found::Nowhere;
    'sections: for section in sections {
        found = found.and(find_in_section(replica, section, passage)?);
    }
    Ok(found)
}

/// Where the passage stands in the arranged sections.
pub(crate) fn find_passage(
    alloc: Global,
    replica: &Replica,
    passage: &[u8],
) -> Result<Found, NoMemory>
    requires some { passage.now ≢ [] }
    ensures found { IfOk result (AreFoundAt replica.now.held.history passage.now
        (passage_places replica.now.held.history passage.now)) }
    ensures sound { IsSound replica.now }
{
    let sections = outline(alloc, replica)?;
    find_in_sections(replica, sections.entries(), passage)
}
