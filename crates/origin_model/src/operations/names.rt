//! What an operation names: its origins, its section and its target, and what each has to be.

ghost use Rattle.std.specs.Prelude.{◌≡◌, ◌<◌, ◌≤◌, ◌+◌, ◌++◌, ◌∷◌, [], length, map};
ghost use Rattle.origin_model.specs.declared.operations.Role.TheVariants.{Any};
ghost use Rattle.origin_model.specs.operations.Verdict.{names, given_as};

use crate::Role;
use fugue_ids::{ElementId, MOST_NAMES, Op};
use std::marker::Model;

/// An identifier with what it has to be.
pub type Named = (ElementId, Role);

/// What an operation names, three at most, in order. It is seen as the list of them, and takes no memory.
#[derive(Drop)]
pub struct Names {
    named: [Named; MOST_NAMES],
    count: usize,
}

impl Model for Names {
    ghost use Rattle.std.specs.Prelude.{◌≤◌, List, take};
    ghost use Rattle.fugue_ids.specs.Identifiers.{Identifier};
    ghost use Rattle.fugue_ids.specs.declared.limits.TheConstants.{MOST_NAMES};
    ghost use Rattle.origin_model.specs.declared.operations.Role.{Role};

    ghost Value = { List (Identifier × Role) };

    ghost view = { λ n. take n.count n.named };

    ghost invariant = { λ n. n.count ≤ MOST_NAMES };
}

impl Names {
    fn none() -> Names
        ensures { result ≡ [] }
    {
        let unused = ElementId {
            replica: 1,
            counter: 0,
        };
        Names {
            named: [(unused, Role::Any); MOST_NAMES],
            count: 0,
        }
    }

    /// One name more.
    fn and(mut self, id: ElementId, role: Role) -> Names
        requires { length self < MOST_NAMES }
        ensures { result ≡ self ++ (id, role) ∷ [] }
    {
        self.named[self.count] = (id, role);
        self.count += 1;
        self
    }

    /// An origin more, where it is given.
    fn and_origin(self, id: Option<ElementId>, role: Role) -> Names
        requires { length self < MOST_NAMES }
        ensures { result ≡ self ++ given_as role id }
    {
        match id {
            Some(id) => self.and(id, role),
            None => self,
        }
    }

    /// Names more, whatever each is held as.
    fn and_each(self, ids: &[ElementId]) -> Names
        requires { length self + length ids.now ≤ MOST_NAMES }
        ensures { result ≡ self ++ map (λ id. (id, Any)) ids.now }
    {
        let mut names = self;
        'each: for id in ids {
            names = names.and(*id, Role::Any);
        }
        names
    }

    pub fn as_slice(&self) -> &[Named]
        ensures { result.now ≡ self.now }
    {
        &self.named[..self.count]
    }
}

/// The identifiers that an operation rests on, in order, each with what it has to be.
pub fn names_of(op: &Op) -> Names
    ensures { result ≡ names op.now }
{
    let none = Names::none();
    match op {
        Op::Section { left, right, .. } => none
            .and_origin(*left, Role::Section)
            .and_origin(*right, Role::Section),
        Op::Text {
            section,
            left,
            right,
            ..
        } => none
            .and(*section, Role::Section)
            .and_origin(*left, Role::TextOf(*section))
            .and_origin(*right, Role::TextOf(*section)),
        Op::Delete { target } => none.and(*target, Role::Any),
        Op::Note { names, .. } => none.and_each(names.as_slice()),
    }
}
