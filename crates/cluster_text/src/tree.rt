//! Parts in a balanced tree.
ghost use Rattle.std.specs.Prelude.{◌≡◌, ◌<◌, ◌≤◌, ◌^◌, ◌∷◌, ◌++◌, [], length, IfNone, IfSome, OnErr, OnOk};
ghost use Rattle.std.specs.List.{splice as spliced};
ghost use Rattle.cluster_text.specs.Trees.{capped_sum, clusters_in, IsAt, count_scalars_in};

use crate::balance::{concat, join, split};
use crate::part::Part;
use std::alloc::{AllocError, Global};
use std::marker::Model;
use std::mem;

/// Parts in order, with their number and the sums of their counts. No contract speaks of the heights, by which the tree
/// is balanced.
#[cycle(tree)]
#[derive(Drop)]
pub(crate) struct Tree {
    root: Option<Box<Node>>,
}

/// A part between those before it and those after it.
#[cycle(tree)]
#[derive(Drop)]
pub(crate) struct Node {
    pub(crate) left: Tree,
    pub(crate) part: Part,
    pub(crate) right: Tree,
    height: usize,
    parts: usize,
    scalars: usize,
    clusters: usize,
}

impl Model for Tree {
    ghost use Rattle.std.specs.Prelude.{List, length};
    ghost use Rattle.cluster_text.specs.declared.part.Part.{Part};

    ghost Value = { List Part };

    ghost use Rattle.cluster_text.specs.Trees.{HasRightSums, parts_below};

    ghost view = { λ tree. parts_below tree.root };

    ghost invariant = { λ tree. HasRightSums tree.root };

    ghost size = { length };

    ghost use Rattle.std.proofs.Common.{arith, length-append};

    ghost size_decreases = { λ a h. Prim.grind (arith, length-append) };
}

impl Tree {
    pub(crate) fn new() -> Tree
        ensures { result ≡ [] }
    {
        Tree { root: None }
    }

    /// How many parts there are.
    pub(crate) fn len(&self) -> usize
        ensures { result ≡ capped_sum (length self.now) }
    {
        match &self.root {
            Some(node) => node.parts,
            None => 0,
        }
    }

    pub(crate) fn scalars(&self) -> usize
        ensures { result ≡ capped_sum (count_scalars_in self.now) }
    {
        match &self.root {
            Some(node) => node.scalars,
            None => 0,
        }
    }

    pub(crate) fn clusters(&self) -> usize
        ensures { result ≡ capped_sum (clusters_in self.now) }
    {
        match &self.root {
            Some(node) => node.clusters,
            None => 0,
        }
    }

    pub(crate) fn height(&self) -> usize {
        match &self.root {
            Some(node) => node.height,
            None => 0,
        }
    }

    /// The root, between the parts before it and those after it.
    pub(crate) fn top(&self) -> Option<&Node>
        ensures some { IfSome result (λ node. self.now ≡ node.now.left ++ node.now.part ∷ node.now.right) }
        ensures none { IfNone result (self.now ≡ []) }
    {
        match &self.root {
            Some(node) => Some(node),
            None => None,
        }
    }

    /// Takes the root from between the parts before it and those after it.
    pub(crate) fn open(self) -> Option<(Tree, Box<Node>, Tree)>
        ensures some { IfSome result (λ (left, node, right). self ≡ left ++ node.value.part ∷ right) }
        ensures none { IfNone result (self ≡ []) }
    {
        match self.root {
            Some(mut node) => {
                let left = mem::replace(&mut node.left, Tree::new());
                let right = mem::replace(&mut node.right, Tree::new());
                Some((left, node, right))
            }
            None => None,
        }
    }
}

/// A part between others.
pub(crate) fn link(left: Tree, mut middle: Box<Node>, right: Tree) -> Tree
    ensures { result ≡ left ++ middle.value.part ∷ right }
{
    middle.height = left.height().max(right.height()).saturating_add(1);
    middle.parts = left.len().saturating_add(1).saturating_add(right.len());
    middle.scalars = left
        .scalars()
        .saturating_add(middle.part.scalars)
        .saturating_add(right.scalars());
    middle.clusters = left
        .clusters()
        .saturating_add(middle.part.clusters)
        .saturating_add(right.clusters());
    middle.left = left;
    middle.right = right;
    Tree { root: Some(middle) }
}

impl Tree {
    /// The part at an index.
    pub(crate) fn get(&self, index: usize) -> &Part
        requires within { index < length self.now }
        requires few { length self.now < 2 ^ 64 }
        ensures { IsAt self.now index result.now }
    {
        let Some(node) = self.top() else {
            unreachable!()
        };
        let before = node.left.len();
        if index < before {
            node.left.get(index)
        } else if index == before {
            &node.part
        } else {
            node.right.get(index - before - 1)
        }
    }

    /// Adds a part at the end. After an allocation failure all is as before.
    pub(crate) fn push(&mut self, alloc: Global, part: Part) -> Result<(), AllocError>
        ensures ok { OnOk result (self.new ≡ self.old ++ part ∷ []) }
        ensures err { OnErr result (self.new ≡ self.old) }
    {
        let node = Box::new(
            alloc,
            Node {
                left: Tree::new(),
                part,
                right: Tree::new(),
                height: 0,
                parts: 0,
                scalars: 0,
                clusters: 0,
            },
        )?;
        *self = join(mem::replace(self, Tree::new()), node, Tree::new());
        Ok(())
    }

    /// The parts from `at` up to `end` give way to others.
    pub(crate) fn splice(&mut self, at: usize, end: usize, new: Tree)
        requires { at ≤ end }
        ensures { self.new ≡ spliced self.old at end new }
    {
        let (front, back) = split(mem::replace(self, Tree::new()), end);
        let (front, _) = split(front, at);
        *self = concat(front, concat(new, back));
    }
}
