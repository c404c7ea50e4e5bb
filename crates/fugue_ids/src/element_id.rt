//! The identifier of an element: a replica and a counter of that replica, in a total order.

ghost use Rattle.std.specs.Prelude.{◌≡◌, ◌↔◌, ◌+◌, ◌<◌, ◌^◌, IsNone, IfSome, Some};
ghost use Rattle.std.specs.Ordering.{is_lt};
ghost use Rattle.fugue_ids.specs.Identifiers.{Identifier, id_cmp, id_eq, id_lt};
ghost use Rattle.fugue_ids.specs.Runs.{id_after};

use std::marker::Model;

/// The name of an element: the replica that made it, and a count of that replica's own.
///
/// Identifiers are compared by replica and then by counter. There is no replica 0.
#[derive(Clone, Copy, Debug, PartialEq, Eq, PartialOrd, Ord, Hash)]
pub struct ElementId {
    pub replica: u32,
    pub counter: u32,
}

impl Model for ElementId {
    ghost use Rattle.std.specs.Prelude.{◌<◌};
    ghost use Rattle.fugue_ids.specs.Identifiers.{Identifier};

    ghost Value = { Identifier };

    ghost view = { λ id. record { replica = id.replica; counter = id.counter } };

    ghost invariant = { λ id. 0 < id.replica };

    ghost inverse = { λ id. record { replica = id.replica; counter = id.counter } };
}

impl ElementId {
    /// Returns None for replica 0.
    pub fn new(replica: u32, counter: u32) -> Option<ElementId>
        ensures none { IsNone result ↔ (replica ≡ 0) }
        ensures some { IfSome result (λ id. (id.replica ≡ replica) × (id.counter ≡ counter)) }
    {
        if replica == 0 {
            return None;
        }
        Some(ElementId { replica, counter })
    }

    /// The identifier so many after this one, of the same replica.
    pub fn behind(self, count: u32) -> ElementId
        requires { self.counter + count < 2 ^ 32 }
        ensures { result ≡ id_after self count }
    {
        ElementId {
            replica: self.replica,
            counter: self.counter + count,
        }
    }
}

/// Identifiers are ordered by replica, and then by counter: this is what `cmp`, `<` and `==` compute.
pub fn order_of_identifiers()
    ensures compared { (a b : Identifier) → ⟦<ElementId as Ord>⟧.cmp a b ≡ id_cmp a b }
    ensures partly { (a b : Identifier) → ⟦<ElementId as PartialOrd>⟧.partial_cmp a b ≡ Some (id_cmp a b) }
    ensures before { (a b : Identifier) → is_lt (id_cmp a b) ≡ id_lt a b }
    ensures same { (a b : Identifier) → ⟦<ElementId as PartialEq>⟧.eq a b ≡ id_eq a b }
{}
