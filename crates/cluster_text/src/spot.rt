//! The part in which a scalar stands.
ghost use Rattle.std.specs.Prelude.{◌≡◌, ◌<◌, ◌^◌};
ghost use Rattle.cluster_text.specs.Parts.{IsSpot, scalar_count};

use crate::tree::Tree;

/// The index of a part, and how many of its scalars stand before the one that was looked for.
#[derive(Clone, Copy)]
pub(crate) struct Spot {
    pub(crate) part: usize,
    pub(crate) within: usize,
}

impl Tree {
    /// Finds the part of a scalar.
    pub(crate) fn find_spot(&self, at: usize) -> Spot
        requires within { at < scalar_count self.now }
        requires few { scalar_count self.now < 2 ^ 64 }
        ensures { IsSpot self.now at result.part result.within }
    {
        let Some(node) = self.top() else {
            unreachable!()
        };
        let before = node.left.scalars();
        if at < before {
            return node.left.find_spot(at);
        }
        let part = node.left.len();
        let within = at - before;
        if within < node.part.scalars {
            return Spot { part, within };
        }
        let spot = node.right.find_spot(within - node.part.scalars);
        Spot {
            part: part + 1 + spot.part,
            within: spot.within,
        }
    }
}
