//! What a manuscript stores: the section list, titles and texts, and the sequence of each element.
ghost use Rattle.std.specs.Prelude.{◌≡◌};
ghost use Rattle.section_catalogue.specs.Contents.{contents_of};
ghost use Rattle.section_catalogue.specs.Manuscript.{empty_contents};

use crate::homes::Home;
use fugue_ids::{ElementId, Title};
use section_list::SectionList;
use std::alloc::Global;
use std::collections::BTreeMap;
use stretch_map::StretchMap;

/// A section's title and text.
#[derive(Drop)]
pub(crate) struct Section {
    pub title: Title,
    pub text: SectionList,
}

/// What a manuscript keeps.
#[derive(Drop)]
pub(crate) struct Tables {
    /// The sections in order, each with a space for its scalar.
    pub catalogue: SectionList,
    pub sections: BTreeMap<ElementId, Section>,
    /// The place of each element.
    pub places: StretchMap<Home>,
}

impl Tables {
    /// It takes no memory.
    pub fn new(alloc: Global) -> Tables
        ensures { contents_of result ≡ empty_contents }
    {
        Tables {
            catalogue: SectionList::new(alloc),
            sections: BTreeMap::new(alloc),
            places: StretchMap::new(alloc),
        }
    }
}
