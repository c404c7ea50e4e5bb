//! A walk along the items, each found from the one before: no descent from the top.
ghost use Rattle.std.specs.Prelude.{◌≡◌, drop, option_copied, option_map, slice_get};

use crate::cells::{Link, Weigh};
use crate::find::{node_after, node_at};
use crate::rope::Rope;
use crate::store::Store;
use std::marker::Model;

/// The items that are still to come.
#[derive(Drop)]
pub struct Walk<'a, T: Weigh> {
    store: &'a Store<T>,
    root: Option<Link>,
    passed: usize,
    next: Option<Link>,
}

impl<'a, T: Weigh> Model for Walk<'a, T> {
    ghost use Rattle.std.specs.Prelude.{List, drop};
    ghost use Rattle.fugue_ids.specs.Identifiers.{Identifier};
    ghost use Rattle.node_rope.specs.Items.{rope_items_of};
    ghost use Rattle.node_rope.specs.Walked.{IsNext};

    ghost Value = { List (Identifier × T) };

    ghost view = { λ w. drop w.passed (rope_items_of w.store.now w.root) };

    ghost invariant = { λ w. IsNext w.store.now w.root w.passed w.next };
}

impl<T: Weigh> Rope<T> {
    /// A walk along all items.
    pub fn walk(&self) -> Walk<'_, T>
        ensures { result ≡ self.now }
    {
        Walk {
            store: &self.store,
            root: self.root,
            passed: 0,
            next: node_at(&self.store, self.root, 0),
        }
    }
}

impl<'a, T: Weigh> Walk<'a, T> {
    /// The value of the next item.
    pub fn step(&mut self) -> Option<&'a T>
        ensures first { option_copied result ≡ option_map (λ x. x.1) (slice_get self.old 0) }
        ensures rest { self.new ≡ drop 1 self.old }
    {
        let link = self.next?;
        let value = self.store.value(link);
        self.passed += 1;
        self.next = node_after(self.store, self.root, link);
        Some(value)
    }
}
