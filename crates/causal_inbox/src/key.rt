//! The keys of the index of waiting operations.

ghost use Rattle.std.specs.Prelude.{◌≡◌};
ghost use Rattle.causal_inbox.specs.Key.{main_key as main_key_of, key_of_naming, own_key_of, key_of_target};

use fugue_ids::{ElementId, Op, OpKey};

/// What operations are looked up by. In their order the keys of one replica stand together.
#[derive(Clone, Copy, PartialEq, Eq, PartialOrd, Ord)]
pub(crate) struct Key {
    pub id: ElementId,
    pub kind: Kind,
}

/// What an operation has to do with the identifier.
#[derive(Clone, Copy, PartialEq, Eq, PartialOrd, Ord)]
pub(crate) enum Kind {
    /// It makes the element or note.
    Own,
    /// It is the `Delete` of it.
    Target,
    /// It rests on it.
    Named,
}

/// The key of what makes the element or note.
pub(crate) fn own_key(id: ElementId) -> Key
    ensures { result ≡ own_key_of id }
{
    Key {
        id,
        kind: Kind::Own,
    }
}

/// The key of what deletes the element or note.
fn target_key(id: ElementId) -> Key
    ensures { result ≡ key_of_target id }
{
    Key {
        id,
        kind: Kind::Target,
    }
}

/// The key of what rests on the element or note.
pub(crate) fn named_key(id: ElementId) -> Key
    ensures { result ≡ key_of_naming id }
{
    Key {
        id,
        kind: Kind::Named,
    }
}

/// The key that all operations have that are equal to this one.
pub(crate) fn main_key(op: &Op) -> Key
    ensures { result ≡ main_key_of op.now }
{
    match op.key() {
        OpKey::Own(id) => own_key(id),
        OpKey::Target(id) => target_key(id),
    }
}
