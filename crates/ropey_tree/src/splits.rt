//! Splits a tree between two characters.

ghost use Rattle.std.specs.Prelude.{◌≡◌, ◌+◌, ◌*◌, ◌≤◌, ◌++◌, IfOk, take, length};
ghost use Rattle.std.specs.List.{concat};
ghost use Rattle.ropey_tree.specs.Cutting.{IsRopeText, IsBoundaryOf};
ghost use Rattle.ropey_tree.specs.Nodes.{leaf_view, all_pieces, IsInner};
ghost use Rattle.ropey_tree.specs.Splits.{pieces_in, IsSplit};

use crate::children::Children;
use crate::counts::By;
use crate::joins;
use crate::leaf::Leaf;
use crate::made::Made;
use crate::node::{Node, Parts};
use crate::siblings::over;
use crate::visits::Visits;
use std::alloc::{AllocError, Global};
use std::rc::Rc;

/// The texts before and after an offset. A side without text has no tree.
#[derive(Drop)]
pub struct Halves {
    /// The text before the offset.
    pub left: Option<Rc<Node>>,
    /// The text after it.
    pub right: Option<Rc<Node>>,
}

/// Returns the halves of a leaf.
fn split_leaf(alloc: Global, node: &Rc<Node>, leaf: &Leaf, at: usize) -> Result<Halves, AllocError>
    requires leaf { node.now.value ≡ leaf_view leaf.now }
    requires boundary { IsBoundaryOf leaf.now at }
    ensures { IfOk result (λ halves. IsSplit node.now.value.pieces at (pieces_in halves.left)
        (pieces_in halves.right)) }
{
    let text = leaf.as_str();
    if at == 0 {
        let right = node.clone()?;
        return Ok(Halves {
            left: None,
            right: Some(right),
        });
    }
    if at == text.len() {
        let left = node.clone()?;
        return Ok(Halves {
            left: Some(left),
            right: None,
        });
    }
    let front = Leaf::new(alloc, &text[..at])?;
    let left = Rc::new(alloc, Node::from_leaf(front))?;
    let back = Leaf::new(alloc, &text[at..])?;
    let right = Rc::new(alloc, Node::from_leaf(back))?;
    Ok(Halves {
        left: Some(left),
        right: Some(right),
    })
}

/// Returns a tree over the children in a range of indices.
pub(crate) fn tree_over(
    alloc: Global,
    height: usize,
    children: &Children,
    from: usize,
    to: usize,
) -> Result<Option<Rc<Node>>, AllocError>
    requires inner { IsInner height children.now }
    requires range { from ≤ to }
    requires within { to ≤ length children.now }
    ensures { IfOk result (λ tree. all_pieces (take from children.now) ++ pieces_in tree ≡
        all_pieces (take to children.now)) }
{
    // For the proof only.
    let _ = children.len();
    if from == to {
        return Ok(None);
    }
    if to - from == 1 {
        let child = children.get(from).clone()?;
        return Ok(Some(child));
    }
    let some = Children::with_capacity(alloc, to - from)?.with_some(children, from, to)?;
    let node = over(alloc, height, some, &mut Made::new())?;
    Ok(Some(node))
}

/// `joins::concat` for sides that may be empty, with the same requirement and errors.
pub fn concat(
    alloc: Global,
    left: Option<Rc<Node>>,
    right: Option<Rc<Node>>,
) -> Result<Option<Rc<Node>>, AllocError>
    requires { IsRopeText (pieces_in left ++ pieces_in right) }
    ensures { IfOk result (λ tree. pieces_in tree ≡ pieces_in left ++ pieces_in right) }
{
    match (left, right) {
        (None, right) => Ok(right),
        (Some(left), None) => Ok(Some(left)),
        (Some(left), Some(right)) => {
            let node = joins::concat(alloc, &left, &right)?;
            Ok(Some(node))
        }
    }
}

/// Returns the texts before and after a byte index. Between CR and LF the halves have one break
/// more than the whole. The tree is unchanged, and shares with the halves what they have in common.
/// Enters as many nodes as the tree is high, also if there is no memory then.
///
/// # Requires
///
/// The index is a character boundary.
///
/// # Errors
///
/// Out of memory.
pub fn split(
    alloc: Global,
    node: &Rc<Node>,
    at: usize,
    visits: &mut Visits,
) -> Result<Halves, AllocError>
    requires { IsBoundaryOf (concat node.now.value.pieces) at }
    ensures halves { IfOk result (λ halves. IsSplit node.now.value.pieces at
        (pieces_in halves.left) (pieces_in halves.right)) }
    ensures visited { visits.new.nodes ≡ visits.old.nodes + node.now.value.height }
    ensures few { visits.new.nodes ≤ visits.old.nodes + 18 }
    ensures compared { visits.new.comparisons ≤
        visits.old.comparisons + 5 * node.now.value.height }
{
    let height = node.height();
    match node.parts() {
        Parts::Leaf(leaf) => {
            let halves = split_leaf(alloc, node, leaf, at)?;
            Ok(halves)
        }
        Parts::Inner(children) => {
            let len = children.len();
            let choice = children.choose(By::Bytes, at, visits);
            let child = children.get(choice.index);
            let halves = split(alloc, child, at - choice.before.bytes, visits)?;
            let front = tree_over(alloc, height, children, 0, choice.index)?;
            let left = concat(alloc, front, halves.left)?;
            let back = tree_over(alloc, height, children, choice.index + 1, len)?;
            let right = concat(alloc, halves.right, back)?;
            Ok(Halves { left, right })
        }
    }
}

/// `split` without a count of visits, with the same requirement and errors. At an end of the text
/// nothing is split or allocated.
pub fn halves_at(alloc: Global, node: &Rc<Node>, at: usize) -> Result<Halves, AllocError>
    requires { IsBoundaryOf (concat node.now.value.pieces) at }
    ensures { IfOk result (λ halves. IsSplit node.now.value.pieces at (pieces_in halves.left)
        (pieces_in halves.right)) }
{
    if at == 0 {
        let right = node.clone()?;
        return Ok(Halves {
            left: None,
            right: Some(right),
        });
    }
    if at == node.counts().bytes {
        let left = node.clone()?;
        return Ok(Halves {
            left: Some(left),
            right: None,
        });
    }
    let halves = split(alloc, node, at, &mut Visits::new())?;
    Ok(halves)
}
