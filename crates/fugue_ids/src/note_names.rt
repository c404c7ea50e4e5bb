//! The identifiers that a note names, of which there are at most `MOST_NAMES`.

ghost use Rattle.std.specs.Prelude.{◌≡◌, ◌↔◌, ◌<◌, ◌≤◌, length, IsNone, IfSome};

use crate::{ElementId, MOST_NAMES};
use std::marker::Model;

/// What stands where no identifier is kept.
const UNUSED: ElementId = ElementId {
    replica: 1,
    counter: 0,
};

/// The identifiers that a note names: at most three. It is seen as the list of them.
#[derive(Debug, Drop)]
pub struct NoteNames {
    ids: [ElementId; MOST_NAMES],
    count: u8,
}

impl Model for NoteNames {
    ghost use Rattle.std.specs.Prelude.{List, ◌≤◌, take};
    ghost use Rattle.fugue_ids.specs.Identifiers.{Identifier};
    ghost use Rattle.fugue_ids.specs.declared.limits.TheConstants.{MOST_NAMES};

    ghost Value = { List Identifier };

    ghost view = { λ n. take n.count n.ids };

    ghost invariant = { λ n. n.count ≤ MOST_NAMES };
}

impl NoteNames {
    /// Returns None for more than three identifiers.
    pub fn read(ids: &[ElementId]) -> Option<NoteNames>
        ensures none { IsNone result ↔ (MOST_NAMES < length ids.now) }
        ensures some { IfSome result (λ names. names ≡ ids.now) }
    {
        if ids.len() > MOST_NAMES {
            return None;
        }
        let mut kept = [UNUSED; MOST_NAMES];
        kept[..ids.len()].copy_from_slice(ids);
        Some(NoteNames {
            ids: kept,
            count: ids.len() as u8,
        })
    }

    /// The identifiers, in order.
    pub fn as_slice(&self) -> &[ElementId]
        ensures ids { result.now ≡ self.now }
        ensures few { length result.now ≤ MOST_NAMES }
    {
        &self.ids[..self.count as usize]
    }

    /// The same names.
    pub fn copy(&self) -> NoteNames
        ensures { result ≡ self.now }
    {
        NoteNames {
            ids: self.ids,
            count: self.count,
        }
    }
}

impl PartialEq for NoteNames {
    ghost use Rattle.std.specs.Cmp.{partial_equiv_from_equiv};
    ghost use Rattle.fugue_ids.specs.Identifiers.{id_eq, same_names};
    ghost use lib.Pointwise.{pointwise};

    ghost eq = { pointwise id_eq };

    ghost laws = { partial_equiv_from_equiv same_names };

    fn eq(&self, other: &NoteNames) -> bool {
        self.as_slice() == other.as_slice()
    }
}

impl Eq for NoteNames {
    ghost use Rattle.fugue_ids.specs.Identifiers.{same_names};

    ghost laws = { same_names };
}
