//! The texts of the arranged sections.
ghost use Rattle.std.specs.Prelude.{◌≡◌, IfOk, map};
ghost use Rattle.std.specs.Str.{encode_utf8_all};
ghost use Rattle.origin_model.specs.order.Printed.{text};
ghost use Rattle.catalogue_notes.specs.Outlining.{IsEntry, IsOutline};
ghost use Rattle.passage_remarks.specs.Listing.{section_texts};

use crate::page::Page;
use catalogue_notes::Entry as Section;
use fugue_ids::NoMemory;
use replica_core::Replica;
use std::alloc::Global;

/// The text of a section.
fn page_of(alloc: Global, replica: &Replica, section: &Section) -> Result<Page, NoMemory>
    requires { IsEntry replica.now.held.history section.now }
    ensures { IfOk result (λ page. page ≡ encode_utf8_all (text replica.now.held.history section.now.section)) }
{
    let text = replica.text_of(section.number)?.unwrap();
    Page::new(alloc, text)
}

/// The texts of the sections, where these are the sections as they are arranged.
pub(crate) fn pages_of(
    alloc: Global,
    replica: &Replica,
    sections: &[Section],
) -> Result<Vec<Page>, NoMemory>
    requires { IsOutline replica.now.held.history sections.now }
    ensures { IfOk result (λ pages. pages.items ≡ section_texts replica.now.held.history) }
{
    let mut pages = Vec::new(alloc);
    'sections: for section in sections {
        pages.push(page_of(alloc, replica, section)?)?;
    }
    Ok(pages)
}
