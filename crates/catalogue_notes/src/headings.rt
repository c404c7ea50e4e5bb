//! The arranged sections of a replica, with look-ups of what their headings and positions are.
ghost use Rattle.std.specs.Prelude.{◌≡◌, IfOk, true};
ghost use Rattle.std.specs.Str.{encode_utf8_all};
ghost use Rattle.origin_model.specs.edits.State.{IsSound};
ghost use Rattle.catalogue_notes.specs.Arranged.{arranged, heading as heading_in, position as position_in};
ghost use Rattle.catalogue_notes.specs.Lift.{is_section as is_section_in};

use crate::arrangement::position_of;
use crate::layout::Layout;
use crate::printing::title_of;
use crate::sections::is_section;
use fugue_ids::{ElementId, NoMemory};
use replica_core::Replica;
use std::alloc::Global;
use std::marker::Model;

/// The sections of a replica as they are arranged, with their headings and positions. It is seen as the history of the
/// replica.
#[derive(Drop)]
pub struct Headings<'a> {
    replica: &'a Replica,
    layout: Layout,
}

impl<'a> Model for Headings<'a> {
    ghost use Rattle.std.specs.Prelude.{List};
    ghost use Rattle.fugue_ids.specs.declared.op.Op.{Op};
    ghost use Rattle.origin_model.specs.operations.Verdict.{Lawful};
    ghost use Rattle.catalogue_notes.specs.Printing.{IsLayout};

    ghost Value = { List Op };

    ghost view = { λ found. found.replica.now.held.history };

    ghost invariant = { λ found. Lawful found.replica.now.held.history
        × IsLayout found.replica.now.held.history found.layout };
}

impl<'a> Headings<'a> {
    /// Those of the accepted operations.
    pub fn of(alloc: Global, replica: &'a Replica) -> Result<Headings<'a>, NoMemory>
        ensures history { IfOk result (λ found. found ≡ replica.now.held.history) }
        ensures sound { IsSound replica.now }
    {
        let layout = Layout::of(alloc, replica)?;
        Ok(Headings { replica, layout })
    }

    /// The replica that they are of.
    pub fn replica(&self) -> &'a Replica
        ensures { result.now.held.history ≡ self.now }
    {
        self.replica
    }

    /// The shown sections, as they are arranged.
    pub fn sections(&self) -> &[ElementId]
        ensures { result.now ≡ arranged self.now }
    {
        self.layout.arrangement.sections.as_slice()
    }

    /// Whether an accepted Section has the identifier.
    pub fn has(&self, section: ElementId) -> bool
        ensures { result ≡ is_section_in self.now section }
    {
        is_section(self.replica, section)
    }

    /// The heading of a section, which may be hidden.
    pub fn heading(&self, section: ElementId) -> &str
        requires { is_section_in self.now section ≡ true }
        ensures { result.now ≡ encode_utf8_all (heading_in self.now section) }
    {
        title_of(self.replica, &self.layout, section)
    }

    /// The element at which a section stands.
    pub fn position(&self, section: ElementId) -> ElementId
        ensures { result ≡ position_in self.now section }
    {
        position_of(&self.layout.arrangement.winners, section)
    }
}
