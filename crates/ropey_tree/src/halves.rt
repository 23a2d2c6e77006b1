//! One half of a tree, before an offset or after it, without building the other.

ghost use Rattle.std.specs.Prelude.{◌+◌, ◌*◌, ◌<◌, ◌≤◌, [], ◌∷◌, IfOk};
ghost use Rattle.std.specs.List.{concat};
ghost use Rattle.str_indices.specs.Text.{byte_len};
ghost use Rattle.ropey_tree.specs.Cutting.{IsBoundaryOf};
ghost use Rattle.ropey_tree.specs.Splits.{pieces_in, IsFrontOf, IsBackOf};

use crate::counts::By;
use crate::leaf::Leaf;
use crate::node::{Node, Parts};
use crate::splits::{concat, tree_over};
use crate::visits::Visits;
use std::alloc::{AllocError, Global};
use std::rc::Rc;

/// Returns the text of a leaf before an offset, as a leaf.
fn leaf_before(alloc: Global, leaf: &Leaf, at: usize) -> Result<Rc<Node>, AllocError>
    requires boundary { IsBoundaryOf leaf.now at }
    requires some { 0 < at }
    requires more { at < byte_len leaf.now }
    ensures { IfOk result (λ node. IsFrontOf (leaf.now ∷ []) at node.value.pieces) }
{
    let front = Leaf::new(alloc, &leaf.as_str()[..at])?;
    let node = Rc::new(alloc, Node::from_leaf(front))?;
    Ok(node)
}

/// Returns the text of a leaf after an offset, as a leaf.
fn leaf_behind(alloc: Global, leaf: &Leaf, at: usize) -> Result<Rc<Node>, AllocError>
    requires boundary { IsBoundaryOf leaf.now at }
    requires some { 0 < at }
    requires more { at < byte_len leaf.now }
    ensures { IfOk result (λ node. IsBackOf (leaf.now ∷ []) at node.value.pieces) }
{
    let back = Leaf::new(alloc, &leaf.as_str()[at..])?;
    let node = Rc::new(alloc, Node::from_leaf(back))?;
    Ok(node)
}

/// Returns the text before a byte index. The tree is unchanged, and shares with the half what both
/// have. Enters at most as many nodes as the tree is high; at an end of the text none, without
/// allocating.
///
/// # Requires
///
/// The index is a character boundary.
///
/// # Errors
///
/// Out of memory.
pub fn split_front(
    alloc: Global,
    node: &Rc<Node>,
    at: usize,
    visits: &mut Visits,
) -> Result<Option<Rc<Node>>, AllocError>
    requires { IsBoundaryOf (concat node.now.value.pieces) at }
    ensures front { IfOk result (λ front. IsFrontOf node.now.value.pieces at (pieces_in front)) }
    ensures visited { visits.new.nodes ≤ visits.old.nodes + node.now.value.height }
    ensures few { visits.new.nodes ≤ visits.old.nodes + 18 }
    ensures compared { visits.new.comparisons ≤
        visits.old.comparisons + 5 * node.now.value.height }
{
    let height = node.height();
    if at == 0 {
        return Ok(None);
    }
    if at == node.counts().bytes {
        let whole = node.clone()?;
        return Ok(Some(whole));
    }
    match node.parts() {
        Parts::Leaf(leaf) => {
            let front = leaf_before(alloc, leaf, at)?;
            Ok(Some(front))
        }
        Parts::Inner(children) => {
            let choice = children.choose(By::Bytes, at, visits);
            let child = children.get(choice.index);
            let half = split_front(alloc, child, at - choice.before.bytes, visits)?;
            let before = tree_over(alloc, height, children, 0, choice.index)?;
            let front = concat(alloc, before, half)?;
            Ok(front)
        }
    }
}

/// Returns the text after a byte index, as `split_front` returns the one before it, with the same
/// requirement and errors.
pub fn split_back(
    alloc: Global,
    node: &Rc<Node>,
    at: usize,
    visits: &mut Visits,
) -> Result<Option<Rc<Node>>, AllocError>
    requires { IsBoundaryOf (concat node.now.value.pieces) at }
    ensures back { IfOk result (λ back. IsBackOf node.now.value.pieces at (pieces_in back)) }
    ensures visited { visits.new.nodes ≤ visits.old.nodes + node.now.value.height }
    ensures few { visits.new.nodes ≤ visits.old.nodes + 18 }
    ensures compared { visits.new.comparisons ≤
        visits.old.comparisons + 5 * node.now.value.height }
{
    let height = node.height();
    if at == 0 {
        let whole = node.clone()?;
        return Ok(Some(whole));
    }
    if at == node.counts().bytes {
        return Ok(None);
    }
    match node.parts() {
        Parts::Leaf(leaf) => {
            let back = leaf_behind(alloc, leaf, at)?;
            Ok(Some(back))
        }
        Parts::Inner(children) => {
            let len = children.len();
            let choice = children.choose(By::Bytes, at, visits);
            let child = children.get(choice.index);
            let half = split_back(alloc, child, at - choice.before.bytes, visits)?;
            let behind = tree_over(alloc, height, children, choice.index + 1, len)?;
            let back = concat(alloc, half, behind)?;
            Ok(back)
        }
    }
}
