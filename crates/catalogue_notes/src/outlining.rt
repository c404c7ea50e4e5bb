//! The shown sections listed as they are arranged.
ghost use Rattle.std.specs.Prelude.{◌≡◌, ◌≢◌, IfOk, Some, slice_get, string_bytes};
ghost use Rattle.std.specs.List.{AllPairs, Contains};
ghost use Rattle.origin_model.specs.declared.operations.Place.TheVariants.{Catalogue as catalogue_place};
ghost use Rattle.origin_model.specs.edits.State.{IsSound};
ghost use Rattle.origin_model.specs.operations.Verdict.{Lawful};
ghost use Rattle.section_catalogue.specs.Manuscript.{IsOrderedPlace};
ghost use Rattle.run_store.specs.Cells.{cell_ids, cells_shown};
ghost use Rattle.catalogue_notes.specs.Outlining.{IsOutline};
ghost use Rattle.catalogue_notes.specs.Printing.{IsLayout, title_source, title_of_op};

use crate::entry::{Entry, Outline};
use crate::layout::Layout;
use crate::printing::title_of;
use fugue_ids::{ElementId, NoMemory};
use replica_core::Replica;
use section_list::SectionList;
use std::alloc::Global;

/// The number of a visible section, from 0.
fn number_of(catalogue: &SectionList, section: ElementId) -> usize
    requires visible { Contains (cell_ids (cells_shown catalogue.now.cells)) section }
    requires apart { AllPairs (λ x y. x ≢ y) (cell_ids catalogue.now.cells) }
    ensures { slice_get (cell_ids (cells_shown catalogue.now.cells)) result ≡ Some section }
{
    match catalogue.visible_before(section) {
        Some(before) => before,
        None => 0,
    }
}

/// The entry of a section, under the title that stands in the layout.
fn entry_of(
    alloc: Global,
    replica: &Replica,
    catalogue: &SectionList,
    layout: &Layout,
    section: ElementId,
) -> Result<Entry, NoMemory>
    requires visible { Contains (cell_ids (cells_shown catalogue.now.cells)) section }
    requires apart { AllPairs (λ x y. x ≢ y) (cell_ids catalogue.now.cells) }
    ensures section { IfOk result (λ entry. entry.section ≡ section) }
    ensures number { IfOk result (λ entry.
        slice_get (cell_ids (cells_shown catalogue.now.cells)) entry.number ≡ Some section) }
    ensures heading { IfOk result (λ entry.
        string_bytes entry.heading ≡ title_of_op (title_source replica.now.held.history layout.now section)) }
{
    let title = title_of(replica, layout, section);
    Ok(Entry {
        section,
        number: number_of(catalogue, section),
        heading: String::from_str(alloc, title)?,
    })
}

/// The entries of the sections as they are arranged.
fn entries_of(
    alloc: Global,
    replica: &Replica,
    catalogue: &SectionList,
    layout: &Layout,
) -> Result<Vec<Entry>, NoMemory>
    requires lawful { Lawful replica.now.held.history }
    requires catalogue { IsOrderedPlace catalogue_place replica.now.held.history catalogue.now }
    requires layout { IsLayout replica.now.held.history layout.now }
    ensures { IfOk result (λ entries. IsOutline replica.now.held.history entries.items) }
{
    let mut entries = Vec::new(alloc);
    'sections: for section in layout.arrangement.sections.as_slice() {
        entries.push(entry_of(alloc, replica, catalogue, layout, *section)?)?;
    }
    Ok(entries)
}

/// The shown sections as they are arranged, each with its number and its heading.
pub fn outline(alloc: Global, replica: &Replica) -> Result<Outline, NoMemory>
    ensures outline { IfOk result (λ found. IsOutline replica.now.held.history found) }
    ensures sound { IsSound replica.now }
{
    let catalogue = replica.places().catalogue();
    let layout = Layout::of(alloc, replica)?;
    let entries = entries_of(alloc, replica, catalogue, &layout);
    drop(layout);
    Ok(Outline::new(entries?))
}
