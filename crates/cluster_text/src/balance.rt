//! Trees are joined and split. Each call here takes time in proportion to the height of the trees.
ghost use Rattle.std.specs.Prelude.{◌≡◌, ◌∷◌, ◌++◌, [], take, drop, IfNone, IfSome};

use crate::tree::{Node, Tree, link};

/// A part between the parts of two trees, of any heights.
pub(crate) fn join(left: Tree, middle: Box<Node>, right: Tree) -> Tree
    ensures { result ≡ left ++ middle.value.part ∷ right }
{
    if left.height() > right.height().saturating_add(1) {
        return match left.open() {
            Some((outer, top, inner)) => balance(outer, top, join(inner, middle, right)),
            None => link(Tree::new(), middle, right),
        };
    }
    if right.height() > left.height().saturating_add(1) {
        return match right.open() {
            Some((inner, top, outer)) => balance(join(left, middle, inner), top, outer),
            None => link(left, middle, Tree::new()),
        };
    }
    link(left, middle, right)
}

/// The same where the heights differ by two at most: then those of the result's sides differ by one at most.
fn balance(left: Tree, middle: Box<Node>, right: Tree) -> Tree
    ensures { result ≡ left ++ middle.value.part ∷ right }
{
    if left.height() > right.height().saturating_add(1) {
        turn_right(left, middle, right)
    } else if right.height() > left.height().saturating_add(1) {
        turn_left(left, middle, right)
    } else {
        link(left, middle, right)
    }
}

/// The root of the left side goes up, or where its right side is the higher one, the root of that.
fn turn_right(left: Tree, middle: Box<Node>, right: Tree) -> Tree
    ensures { result ≡ left ++ middle.value.part ∷ right }
{
    match left.open() {
        Some((outer, top, inner)) if outer.height() < inner.height() => {
            raise_inner(outer, top, inner, middle, right)
        }
        Some((outer, top, inner)) => link(outer, top, link(inner, middle, right)),
        None => link(Tree::new(), middle, right),
    }
}

fn turn_left(left: Tree, middle: Box<Node>, right: Tree) -> Tree
    ensures { result ≡ left ++ middle.value.part ∷ right }
{
    match right.open() {
        Some((inner, top, outer)) if outer.height() < inner.height() => {
            raise_inner(left, middle, inner, top, outer)
        }
        Some((inner, top, outer)) => link(link(left, middle, inner), top, outer),
        None => link(left, middle, Tree::new()),
    }
}

/// The root of the inner tree goes above the two nodes beside that tree.
fn raise_inner(left: Tree, before: Box<Node>, inner: Tree, behind: Box<Node>, right: Tree) -> Tree
    ensures { result ≡ left ++ before.value.part ∷ (inner ++ behind.value.part ∷ right) }
{
    match inner.open() {
        Some((near, top, far)) => link(link(left, before, near), top, link(far, behind, right)),
        None => link(left, before, link(Tree::new(), behind, right)),
    }
}

/// Takes the last part out.
fn split_last(tree: Tree) -> Option<(Tree, Box<Node>)>
    ensures some { IfSome result (λ (front, last). tree ≡ front ++ last.value.part ∷ []) }
    ensures none { IfNone result (tree ≡ []) }
{
    let (left, middle, right) = tree.open()?;
    match split_last(right) {
        Some((front, last)) => Some((join(left, middle, front), last)),
        None => Some((left, middle)),
    }
}

/// The parts of one tree and then those of another.
pub(crate) fn concat(left: Tree, right: Tree) -> Tree
    ensures { result ≡ left ++ right }
{
    match split_last(left) {
        Some((front, last)) => join(front, last, right),
        None => right,
    }
}

/// The first n parts, and the others.
pub(crate) fn split(tree: Tree, n: usize) -> (Tree, Tree)
    ensures front { result.0 ≡ take n tree }
    ensures back { result.1 ≡ drop n tree }
{
    let Some((left, middle, right)) = tree.open() else {
        return (Tree::new(), Tree::new());
    };
    let before = left.len();
    if n <= before {
        let (front, back) = split(left, n);
        (front, join(back, middle, right))
    } else {
        let (front, back) = split(right, n - before - 1);
        (join(left, middle, front), back)
    }
}
