//! The sections that a script edits, with their clusters.
ghost use Rattle.std.specs.Prelude.{◌≡◌, ◌≤◌, ◌+◌, None, Some, IfErr, IfOk, IfSome, length};
ghost use Rattle.std.specs.Str.{chars};
ghost use Rattle.origin_model.specs.edits.Refusal.{section_shown};
ghost use Rattle.origin_model.specs.edits.State.{State};
ghost use Rattle.section_catalogue.specs.Contents.{entry_at};
ghost use Rattle.edit_script.specs.Lines.{HasNoSpan};
ghost use Rattle.edit_script.specs.Sections.{AreShownTexts, with_replaced, IsClusterPassage, shown_text_in};

use cluster_text::ClusterIndex;
use fugue_ids::{ElementId, NoMemory};
use replica_core::{EditFault, Replica};
use std::alloc::Global;
use std::collections::BTreeMap;

/// The clusters of sections that were edited. A section that is not among them is read anew.
#[derive(Drop)]
pub(crate) struct Sections {
    alloc: Global,
    pub(crate) indices: BTreeMap<ElementId, ClusterIndex>,
}

/// Clusters of a section, with the place and the number of their scalars.
#[derive(Drop)]
pub(crate) struct Passage {
    pub(crate) section: ElementId,
    pub(crate) index: ClusterIndex,
    pub(crate) at: usize,
    pub(crate) len: usize,
}

impl Sections {
    pub(crate) fn new(alloc: Global) -> Sections
        ensures { (s : State) → AreShownTexts result.indices.entries s }
    {
        Sections {
            alloc,
            indices: BTreeMap::new(alloc),
        }
    }

    /// Takes a shown section out, and finds clusters of it.
    pub(crate) fn take(
        &mut self,
        replica: &Replica,
        section: usize,
        at: u32,
        n: u32,
    ) -> Result<Passage, EditFault>
        requires { AreShownTexts self.old.indices.entries replica.now }
        ensures found { IfOk result
            (λ found. IsClusterPassage replica.now section at n found.section found.index (found.at, found.len)) }
        ensures none { IfErr result (HasNoSpan replica.now section at n) }
        ensures taken { IfOk result (λ found. entry_at self.new.indices.entries found.section ≡ None) }
        ensures others { AreShownTexts self.new.indices.entries replica.now }
    {
        let Some(id) = replica.places().section_at(section) else {
            return Err(EditFault::NoSection);
        };
        let index = self.take_index(replica, section, id)?;
        match index.span(at, n) {
            Some((at, len)) => Ok(Passage {
                section: id,
                index,
                at,
                len,
            }),
            None => Err(EditFault::OutOfRange),
        }
    }

    /// Takes the clusters of a shown section out. They are read where they are not among those that were edited.
    fn take_index(
        &mut self,
        replica: &Replica,
        section: usize,
        id: ElementId,
    ) -> Result<ClusterIndex, NoMemory>
        requires kept { AreShownTexts self.old.indices.entries replica.now }
        requires shown { section_shown replica.now section ≡ Some id }
        ensures text { IfOk result (λ index. index ≡ shown_text_in replica.now id) }
        ensures taken { entry_at self.new.indices.entries id ≡ None }
        ensures others { AreShownTexts self.new.indices.entries replica.now }
    {
        match self.indices.remove(&id) {
            Some(index) => Ok(index),
            None => read_index(self.alloc, replica, section),
        }
    }

    /// Puts a section back, in which the clusters gave way to a text. Where memory runs out it is left out.
    pub(crate) fn put_back(&mut self, passage: Passage, text: &str)
        requires { passage.at + passage.len ≤ length (chars passage.index) }
        ensures { (s : State) → AreShownTexts self.old.indices.entries s
            → with_replaced passage.index passage.at passage.len (chars text.now) ≡ shown_text_in s passage.section
            → AreShownTexts self.new.indices.entries s }
    {
        let Passage {
            section,
            mut index,
            at,
            len,
        } = passage;
        match index.splice(at, len, text) {
            Ok(()) => put_index(&mut self.indices, section, index),
            Err(_) => {}
        }
    }
}

/// The clusters stand under the section, if memory is there.
fn put_index(
    indices: &mut BTreeMap<ElementId, ClusterIndex>,
    section: ElementId,
    index: ClusterIndex,
)
    ensures { (s : State) → AreShownTexts indices.old.entries s → index ≡ shown_text_in s section → AreShownTexts indices.new.entries s }
{
    match indices.insert(section, index) {
        Ok(_) => {}
        Err(_) => {}
    }
}

/// Reads the clusters of a shown section.
fn read_index(alloc: Global, replica: &Replica, section: usize) -> Result<ClusterIndex, NoMemory>
    ensures { IfOk result (λ index. IfSome (section_shown replica.now section) (λ x. index ≡ shown_text_in replica.now x)) }
{
    match replica.text_of(section)? {
        Some(text) => Ok(ClusterIndex::new(alloc, text.as_str())?),
        // The section is shown: no call comes here.
        None => Ok(ClusterIndex::new(alloc, "")?),
    }
}
