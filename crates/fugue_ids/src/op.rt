//! The operations that authors exchange, with their keys and identifiers.

ghost use Rattle.std.specs.Prelude.{◌≡◌, IfOk};
ghost use Rattle.fugue_ids.specs.Ops.{id_of, key_of};

use crate::{Body, ElementId, NoMemory, NoteNames, Title};
use std::alloc::Global;
use std::mem::size_of;

/// One operation of an author.
///
/// A left origin of `None` is the start of the place, and a right origin of `None` is its end.
#[derive(Debug, PartialEq, Eq, Drop)]
pub enum Op {
    /// A new section in the catalogue.
    Section {
        id: ElementId,
        left: Option<ElementId>,
        right: Option<ElementId>,
        title: Title,
    },
    /// One scalar in a section.
    Text {
        id: ElementId,
        section: ElementId,
        left: Option<ElementId>,
        right: Option<ElementId>,
        ch: char,
    },
    /// Hides an element of any place, or withdraws a note.
    Delete {
        target: ElementId,
    },
    /// Says something of the operations that it names: what, the code tells. It stands in no place.
    Note {
        id: ElementId,
        names: NoteNames,
        code: u8,
        body: Body,
    },
}

const _: () = prove!(size_of::<Op>() == 64);

/// What an operation is looked up by: equal operations have one key.
#[derive(Clone, Copy, PartialEq, Eq)]
pub enum OpKey {
    /// The identifier of the element or note that it makes.
    Own(ElementId),
    /// The target of a `Delete`, which has no identifier of its own.
    Target(ElementId),
}

impl Op {
    pub fn key(&self) -> OpKey
        ensures { result ≡ key_of self.now }
    {
        match self {
            Op::Section { id, .. } | Op::Text { id, .. } | Op::Note { id, .. } => OpKey::Own(*id),
            Op::Delete { target } => OpKey::Target(*target),
        }
    }

    /// The identifier of the element or note that the operation makes: a `Delete` makes none.
    pub fn id(&self) -> Option<ElementId>
        ensures { result ≡ id_of self.now }
    {
        match self.key() {
            OpKey::Own(id) => Some(id),
            OpKey::Target(_) => None,
        }
    }

    /// An equal operation.
    pub fn clone_in(&self, alloc: Global) -> Result<Op, NoMemory>
        ensures { IfOk result (λ copy. copy ≡ self.now) }
    {
        match self {
            Op::Section {
                id,
                left,
                right,
                title,
            } => Ok(Op::Section {
                id: *id,
                left: *left,
                right: *right,
                title: title.clone_in(alloc)?,
            }),
            Op::Text {
                section,
                id,
                ch,
                left,
                right,
            } => Ok(Op::Text {
                id: *id,
                section: *section,
                left: *left,
                right: *right,
                ch: *ch,
            }),
            Op::Delete { target } => Ok(Op::Delete { target: *target }),
            Op::Note {
                id,
                names,
                code,
                body,
            } => Ok(Op::Note {
                id: *id,
                names: names.copy(),
                code: *code,
                body: body.clone_in(alloc)?,
            }),
        }
    }
}
