//! Builds a tree from its leaves, level by level.

ghost use Rattle.std.specs.Prelude.{◌≡◌, ◌+◌, ◌<◌, ◌≤◌, ◌⊎◌, IfOk, vec_len};
ghost use Rattle.ropey_tree.specs.Cutting.{IsRopeText};
ghost use Rattle.ropey_tree.specs.Nodes.{AreNodes, IsInner, all_pieces};
ghost use Rattle.ropey_tree.specs.Siblings.{views, IsLevelOver};

use crate::made::Made;
use crate::node::Node;
use crate::siblings::{gather, over};
use crate::{MAX_CHILDREN, MIN_CHILDREN};
use std::alloc::{AllocError, Global};
use std::rc::Rc;

/// The number of children of a node of a new tree, if there are enough nodes: two fewer than it has
/// room for, so that the first edits below it don't split it and all nodes above it.
const NEW_CHILDREN: usize = 22;

/// Returns the number of children of the next node: all nodes that are left, or a number for which
/// both it and the rest have enough.
fn share(left: usize) -> usize
    requires { 2 ≤ left }
    ensures some { 2 ≤ result }
    ensures room { result ≤ 24 }
    ensures within { result ≤ left }
    ensures full { (result ≡ left) ⊎ ((12 ≤ result) × (result + 12 ≤ left)) }
{
    if left <= MAX_CHILDREN {
        left
    } else if left < NEW_CHILDREN + MIN_CHILDREN {
        left - MIN_CHILDREN
    } else {
        NEW_CHILDREN
    }
}

/// Builds the nodes of the next level.
fn level(alloc: Global, height: usize, nodes: &[Rc<Node>]) -> Result<Vec<Rc<Node>>, AllocError>
    requires { IsInner height (views nodes.now) }
    ensures { IfOk result (λ above. IsLevelOver height (views nodes.now) (views above.items)) }
{
    let mut above = Vec::new(alloc);
    let mut from = 0;
    while from < nodes.len() {
        let to = from + share(nodes.len() - from);
        let children = gather(alloc, &nodes[from..to])?;
        let node = over(alloc, height, children, &mut Made::new())?;
        above.push(node)?;
        from = to;
    }
    Ok(above)
}

/// Builds a tree over leaves. Its nodes have `NEW_CHILDREN` children, except for the last two of
/// each level.
///
/// # Requires
///
/// There is at least one node, all are leaves, and their texts are those of a rope.
///
/// # Errors
///
/// Out of memory.
pub fn build(alloc: Global, leaves: Vec<Rc<Node>>) -> Result<Rc<Node>, AllocError>
    requires some { 1 ≤ vec_len leaves }
    requires leaves { AreNodes 0 12 (views leaves.items) }
    requires text { IsRopeText (all_pieces (views leaves.items)) }
    ensures { IfOk result (λ node. node.value.pieces ≡ all_pieces (views leaves.items)) }
{
    let mut nodes = leaves;
    let mut height = 0;
    while nodes.len() > 1 {
        height += 1;
        nodes = level(alloc, height, &nodes)?;
    }
    match nodes.pop() {
        Some(node) => Ok(node),
        None => unreachable!(),
    }
}
