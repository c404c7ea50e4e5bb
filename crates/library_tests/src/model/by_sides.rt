//! The order of a place by sides and a walk of the tree, computed slowly: the tests compare the order with it.

use crate::op_lines::{NONE, Name};
use std::alloc::{AllocError, Global};

/// An element with its left and its right origin.
pub type Node = (Name, Name, Name);

/// What a walk does next.
#[derive(Clone, Copy)]
enum Turn {
    Below(Name),
    Show(Name),
}

/// Left children by identifier; right children by later right origin first, and then by identifier.
///
/// An element is a left child of its right origin where the two have one left origin, and else a right child of its
/// left origin.
fn children(
    alloc: Global,
    nodes: &[Node],
    finished: &[Name],
    parent: Name,
    on_left: bool,
) -> Result<Vec<(usize, Name)>, AllocError> {
    let mut found = Vec::new(alloc);
    for (id, left, right) in nodes {
        let is_left = nodes
            .iter()
            .any(|other| other.0 == *right && other.1 == *left);
        let above = if is_left { *right } else { *left };
        if is_left == on_left && above == parent {
            // The later the right origin is, the fewer elements stand from it on.
            let from_right = finished.iter().skip_while(|id| **id != *right).count();
            found.push((if is_left { 0 } else { from_right }, *id))?;
        }
    }
    found.sort_unstable();
    Ok(found)
}

/// The order of the nodes, which came in this order: left children, the node, right children. Right origins are compared
/// in the order of the nodes that came before.
pub fn by_sides(alloc: Global, nodes: &[Node]) -> Result<Vec<Name>, AllocError> {
    let mut finished = Vec::new(alloc);
    for count in 0..nodes.len() {
        let nodes = &nodes[..count + 1];
        let mut list = Vec::new(alloc);
        let mut stack = Vec::new(alloc);
        for (_, id) in children(alloc, nodes, &finished, NONE, false)?.iter().rev() {
            stack.push(Turn::Below(*id))?;
        }
        for _ in 0..nodes.len().saturating_mul(2) {
            match stack.pop() {
                Some(Turn::Show(id)) => list.push(id)?,
                Some(Turn::Below(id)) => {
                    for (_, right) in children(alloc, nodes, &finished, id, false)?.iter().rev() {
                        stack.push(Turn::Below(*right))?;
                    }
                    stack.push(Turn::Show(id))?;
                    for (_, left) in children(alloc, nodes, &finished, id, true)?.iter().rev() {
                        stack.push(Turn::Below(*left))?;
                    }
                }
                None => {}
            }
        }
        finished = list;
    }
    Ok(finished)
}
