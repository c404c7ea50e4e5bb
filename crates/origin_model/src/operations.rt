//! Operations, looked up among the accepted ones, and what one is to them.

pub(crate) mod element;
pub(crate) mod lookup;
pub(crate) mod named;
pub(crate) mod names;
mod node;
pub(crate) mod roles;

use fugue_ids::{ElementId, Op};
pub use lookup::Lookup;
pub use named::verdict_in;
pub use names::{Named, Names, names_of};
pub use node::Node;

/// An allocation failure for an operation, which comes back.
#[derive(Debug, Drop)]
pub struct NoMemoryFor {
    pub op: Op,
}

/// What an operation is against the accepted ones. The first that applies decides, in this order.
#[derive(Clone, Copy, Debug, PartialEq, Eq)]
pub enum Verdict {
    /// It is accepted already.
    Again,
    /// Another accepted operation has its identifier.
    Conflict,
    /// The first identifier that it names and that is held by an operation which does not fit.
    Stray(ElementId),
    /// The first identifier that it names and that is not held.
    Missing(ElementId),
    Ready,
}

/// What a named identifier has to be held as.
#[derive(Clone, Copy)]
pub enum Role {
    Any,
    Section,
    /// A Text of this section.
    TextOf(ElementId),
}

/// Where elements stand: sections in the catalogue, and text in its section.
#[derive(Clone, Copy, Debug, PartialEq, Eq)]
pub enum Place {
    Catalogue,
    Section(ElementId),
}
