//! `Outline`: the visible sections in their arranged order, with their numbers and headings.
ghost use Rattle.std.specs.Prelude.{◌≡◌};

use fugue_ids::ElementId;
use std::marker::Model;

/// A shown section: its element, its number in the catalogue from 0, and its heading.
#[derive(Drop)]
pub struct Entry {
    pub section: ElementId,
    pub number: usize,
    pub heading: String,
}

/// The shown sections as they are arranged. It is seen as the list of its entries.
#[derive(Drop)]
pub struct Outline {
    entries: Vec<Entry>,
}

impl Model for Outline {
    ghost use Rattle.std.specs.Prelude.{List};
    ghost use Rattle.catalogue_notes.specs.declared.entry.Entry.{Entry as EntryOf};

    ghost Value = { List EntryOf };

    ghost view = { λ o. o.entries.items };
}

impl Outline {
    /// The list of these entries.
    pub(crate) fn new(entries: Vec<Entry>) -> Outline
        ensures { result ≡ entries.items }
    {
        Outline { entries }
    }

    /// The entries, in order.
    pub fn entries(&self) -> &[Entry]
        ensures { result.now ≡ self.now }
    {
        self.entries.as_slice()
    }
}
