//! What a node of a rope has: its weight, its rank, its links and the sums of its subtree.

// The nodes of a rope, as the list of them in the order made.
ghost use Rattle.std.specs.Prelude.{◌≡◌, ◌≤◌, ℕ};

use crate::packed::Packed;
use crate::pile::Spot;
use fugue_ids::{ElementId, MOST_OPERATIONS};

/// What a value of the rope counts for.
pub trait Weigh: Drop {
    ghost weight_of: { Self → ℕ };

    ghost rank_of: { Self → ℕ };

    /// How many units it holds.
    fn weight(&self) -> u64
        ensures value { result ≡ weight_of self.now }
        ensures most { result ≤ MOST_OPERATIONS };

    /// The number by which it is found as low enough.
    fn rank(&self) -> u64
        ensures { result ≡ rank_of self.now };
}

/// A node of one store: where it lies, and its number.
#[derive(Clone, Copy)]
pub struct Link {
    pub(crate) spot: Spot,
    pub(crate) number: u32,
}

/// What a value counts for by itself.
#[derive(Clone, Copy)]
pub struct Own {
    pub(crate) weight: u32,
    pub(crate) rank: u64,
}

/// A node but for its value. `own` is what its value counts for; `count`, `weight` and `least`, the least rank, are
/// those of its subtree.
#[derive(Clone, Copy)]
pub struct Shape {
    pub(crate) key: ElementId,
    pub(crate) left: Option<Link>,
    pub(crate) right: Option<Link>,
    pub(crate) parent: Option<Link>,
    pub(crate) count: u32,
    pub(crate) weight: u64,
    pub(crate) least: u64,
    pub(crate) own: Own,
}

// `older` is where the node made before lies.
#[derive(Drop)]
pub struct Node<T> {
    pub(crate) shape: Packed,
    pub(crate) older: Spot,
    pub(crate) value: T,
}
