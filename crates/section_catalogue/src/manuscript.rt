//! All sequences of a manuscript: insertion, deletion, look-ups of sections and texts, and printing.
ghost use Rattle.std.specs.Prelude.{◌≡◌, ◌<◌, ◌≤◌, ◌+◌, ◌^◌, [], length, slice_get, option_map, Some, IfErr, IsSome, OnErr, OnOk};
ghost use Rattle.fugue_ids.specs.Outs.{WritesBytes};
ghost use Rattle.origin_model.specs.operations.History.{place};
ghost use Rattle.origin_model.specs.order.Printed.{manuscript as manuscript_on, shown};
ghost use Rattle.origin_model.specs.declared.operations.Place.TheVariants.{Catalogue as catalogue, Section as within};
ghost use Rattle.fugue_ids.specs.Runs.{run_from};
ghost use Rattle.section_catalogue.specs.Contents.{place_at, place_count, section_count_at, text_at, contents_of};
ghost use Rattle.section_catalogue.specs.Manuscript.{AreReadyOn, GrowsBy, GrowsByAll, HasHistory, Hides, HidesAll, IsReadyOn, OnEach};
ghost use Rattle.section_catalogue.specs.Manuscript.{Represents, RepresentsSame};
ghost use Rattle.section_catalogue.specs.Manuscript.{empty_contents, LookUpsAreDefinitions};
ghost use Rattle.section_catalogue.specs.Changes.{AnswersUpTo, HidesAt, IsElementAt, IsUnchanged};

use crate::growth::{add_run, add_section, hide_run, hide_text};
use crate::homes::home_of;
use crate::printing::put_sections;
use crate::tables::Tables;
use fugue_ids::{ElementId, Failed, Gather, MOST_OPERATIONS, NoMemory, Op, RunStart, Sink};
use origin_model::{Node, Place};
use section_list::{SectionList, StoppedAfter};
use std::alloc::Global;
use std::marker::Model;

/// All places of a manuscript.
///
/// It is seen by its look-ups, and it stands for each history whose elements it has, listed in their order, with their
/// titles, scalars and hidden marks: for more than one, since equal sets of operations come in many orders. Only
/// `insert` and `hide` take memory.
#[derive(Drop)]
pub struct Manuscript {
    alloc: Global,
    tables: Tables,
}

impl Model for Manuscript {
    ghost use Rattle.section_catalogue.specs.Contents.{Contents, contents_of};
    ghost use Rattle.section_catalogue.specs.Manuscript.{HasHistory};

    ghost Value = { Contents };

    ghost view = { λ m. contents_of m.tables };

    ghost invariant = { λ m. HasHistory (contents_of m.tables) };
}

impl Manuscript {
    /// A manuscript without elements. It takes no memory.
    pub fn new(alloc: Global) -> Manuscript
        ensures nothing { result ≡ empty_contents }
        ensures represents { Represents result [] }
        ensures has_history { HasHistory result }
    {
        Manuscript {
            alloc,
            tables: Tables::new(alloc),
        }
    }

    /// The place that holds the element, hidden or not.
    pub fn place_of(&self, id: ElementId) -> Option<Place>
        ensures place { result ≡ place_at self.now id }
        ensures has_history { HasHistory self.now }
    {
        home_of(&self.tables.places, id)
    }

    /// How many sections are shown.
    pub fn section_count(&self) -> usize
        ensures count { OnEach self.now (λ h. result ≡ length (shown catalogue h)) }
        ensures has_history { HasHistory self.now }
    {
        self.tables.catalogue.visible_count()
    }

    /// The section with k shown ones before it that is shown itself.
    pub fn section_at(&self, k: usize) -> Option<ElementId>
        ensures section { OnEach self.now (λ h. result ≡ slice_get (shown catalogue h) k) }
        ensures has_history { HasHistory self.now }
    {
        self.tables.catalogue.nth_visible(k)
    }

    /// The sections in order, hidden ones too, each with a space for its scalar.
    pub fn catalogue(&self) -> &SectionList
        ensures catalogue { result.now ≡ self.now.catalogue }
        ensures has_history { HasHistory self.now }
    {
        &self.tables.catalogue
    }

    /// The text of a section, hidden or not.
    pub fn section(&self, id: ElementId) -> Option<&SectionList>
        ensures text { option_map (λ text. text.now) result ≡ text_at self.now id }
        ensures has_history { HasHistory self.now }
    {
        match self.tables.sections.get(&id) {
            Some(section) => Some(&section.text),
            None => None,
        }
    }

    /// Takes in a Section or a Text that is Ready. After an allocation failure all is as before.
    pub fn insert(&mut self, op: &Op) -> Result<(), NoMemory>
        requires ready { IsReadyOn self.old op.now }
        requires placed { IsSome (place op.now) }
        requires room { place_count self.old op.now < MOST_OPERATIONS }
        ensures ok { OnOk result (GrowsBy self.old self.new op.now) }
        ensures err { OnErr result (RepresentsSame self.old self.new) }
        ensures has_history { HasHistory self.new }
    {
        match op {
            Op::Section {
                title,
                id,
                left,
                right,
            } => {
                let (id, left, right) = (*id, *left, *right);
                let node = Node { id, left, right };
                add_section(&mut self.tables, self.alloc, &node, title)
            }
            Op::Text {
                ch,
                right,
                section,
                left,
                id,
            } => {
                let (id, left, right) = (*id, *left, *right);
                let counter = id.counter;
                prove!(counter <= u32::MAX);
                let node = Node { id, left, right };
                add_run(&mut self.tables, section, &node, &[*ch])
            }
            _ => Ok(()),
        }
    }

    /// Takes in a run whose Texts are Ready in their turn, at the cost of one, but for its letters. After an allocation
    /// failure all is as before.
    pub fn insert_run(&mut self, start: &RunStart, text: &[char]) -> Result<(), NoMemory>
        requires some { 0 < length text.now }
        requires counters { start.now.id.counter + length text.now ≤ 2 ^ 32 }
        requires ready { AreReadyOn self.old (run_from start.now text.now) }
        requires room { section_count_at self.old (within start.now.section) + length text.now ≤ MOST_OPERATIONS }
        ensures ok { OnOk result (GrowsByAll self.old self.new (run_from start.now text.now)) }
        ensures err { OnErr result (RepresentsSame self.old self.new) }
        ensures has_history { HasHistory self.new }
    {
        let first = Node {
            id: start.id,
            left: start.left,
            right: start.right,
        };
        add_run(&mut self.tables, &start.section, &first, text)
    }

    /// Hides an element that a place holds. A hidden one stays as it is. After an allocation failure all is as before.
    pub fn hide(&mut self, id: ElementId) -> Result<(), NoMemory>
        requires { IsSome (place_at self.old id) }
        ensures ok { OnOk result (Hides self.old self.new id) }
        ensures err { OnErr result (RepresentsSame self.old self.new) }
        ensures has_history { HasHistory self.new }
    {
        match home_of(&self.tables.places, id) {
            Some(place) => hide_at(&mut self.tables, &place, id),
            None => Ok(()),
        }
    }

    /// Hides so many elements of a section, from this identifier on, what its text has in one run at once. Hidden ones
    /// stay as they are. An allocation failure leaves fewer hidden, and tells how many.
    pub fn hide_run(
        &mut self,
        section: &ElementId,
        first: ElementId,
        count: u32,
    ) -> Result<(), StoppedAfter>
        requires some { 0 < count }
        requires counters { first.counter + count ≤ 2 ^ 32 }
        requires placed { AnswersUpTo (place_at self.old) first count (Some (within section.now)) }
        ensures ok { OnOk result (HidesAll self.old self.new first count) }
        ensures err { IfErr result (λ e. HidesAll self.old self.new first e.done) }
        ensures fewer { IfErr result (λ e. e.done < count) }
        ensures has_history { HasHistory self.new }
    {
        hide_run(&mut self.tables, section, first, count)
    }

    /// Writes the manuscript: what is shown of each shown section, in the order of the catalogue. It goes out by whole
    /// arrays, and after a failure a front of it is written. It takes no memory.
    pub fn write_all<O: Sink>(&self, output: &mut O) -> Result<(), Failed>
        ensures text { OnEach self.now
            (λ h. WritesBytes (O.seen output.old) (O.seen output.new) result (manuscript_on h)) }
        ensures has_history { HasHistory self.now }
    {
        let mut gather = Gather::new();
        let tables = &self.tables;
        put_sections(&mut gather, output, &tables.sections, &tables.catalogue)?;
        gather.flush(output)
    }
}

/// The look-ups of a manuscript tell what the definitions say of each history that it stands for, at every place: what
/// is visible there is what is shown, the text is the text that is shown, and what follows an element, hidden ones
/// counted, is the next one of the order.
pub fn look_ups_are_the_definitions()
    ensures { LookUpsAreDefinitions }
{}

/// Hides an element of the place.
pub(crate) fn hide_at(tables: &mut Tables, place: &Place, id: ElementId) -> Result<(), NoMemory>
    requires { IsElementAt (contents_of tables.old) place.now id }
    ensures ok { OnOk result (HidesAt (contents_of tables.old) (contents_of tables.new) place.now id) }
    ensures err { OnErr result (IsUnchanged (contents_of tables.old) (contents_of tables.new)) }
{
    match place {
        Place::Catalogue => tables.catalogue.hide(id),
        Place::Section(section) => hide_text(&mut tables.sections, section, id),
    }
}
