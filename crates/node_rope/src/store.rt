//! The memory in which the nodes of a rope are.

ghost use Rattle.std.specs.Prelude.{◌≡◌, length};
ghost use Rattle.node_rope.specs.Filed.{IsFiled};

use crate::cells::{Link, Node, Shape};
use crate::pile::{Pile, Spot};
use std::alloc::Global;

mod steps;

// `newest` is where the node made last lies.
pub struct Store<T: Drop> {
    pub(crate) pile: Pile<Node<T>, Global>,
    newest: Spot,
    count: u32,
    alloc: Global,
    ghost counted: { count ≡ length pile.values },
    ghost filed: { ∥ IsFiled newest pile.values pile.moorings ∥₁ },
}

impl<T: Drop> Drop for Store<T> {
    fn drop(self) {
        let Store {
            pile,
            newest,
            count,
            alloc,
        } = self;
        steps::free_all(pile, newest, count, alloc);
    }
}
