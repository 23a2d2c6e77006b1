//! Joins two trees of any heights.

ghost use Rattle.std.specs.Prelude.{◌≡◌, ◌++◌, IfOk};
ghost use Rattle.ropey_tree.specs.Cutting.{IsRopeText};
ghost use Rattle.ropey_tree.specs.Nodes.{AreJoined};
ghost use Rattle.ropey_tree.specs.Siblings.{nodes_of, AreJoinedCounted};

use crate::made::Made;
use crate::node::{Node, Parts};
use crate::siblings::{Joined, over_two, pack_both, pack_with};
use std::alloc::{AllocError, Global};
use std::rc::Rc;

/// Joins the children of two nodes of one height, or two leaves.
fn beside(alloc: Global, left: &Rc<Node>, right: &Rc<Node>) -> Result<Joined, AllocError>
    requires level { left.now.value.height ≡ right.now.value.height }
    requires text { IsRopeText (left.now.value.pieces ++ right.now.value.pieces) }
    ensures joined { IfOk result (λ joined.
        AreJoined left.now.value right.now.value (nodes_of joined)) }
    ensures counted { IfOk result AreJoinedCounted }
{
    match left.parts() {
        Parts::Leaf(_) => match right.parts() {
            Parts::Leaf(_) => {
                let (counts, more) = (left.counts(), right.counts());
                let first = left.clone()?;
                let second = right.clone()?;
                Ok(Joined::Two(first, counts, second, more))
            }
            Parts::Inner(_) => unreachable!(),
        },
        Parts::Inner(front) => {
            let Parts::Inner(back) = right.parts() else {
                unreachable!()
            };
            // For the proof only.
            let _ = (front.len(), back.len());
            let joined = pack_both(alloc, left.height(), front, back)?;
            Ok(joined)
        }
    }
}

/// Joins two nodes: returns one node or two of the greater height, whose leaf texts are theirs in
/// order. Copies the path down the side of the higher one, and shares all else.
///
/// # Requires
///
/// The leaf texts of both, in order, are those of a rope.
///
/// # Errors
///
/// Out of memory.
pub fn join(alloc: Global, left: &Rc<Node>, right: &Rc<Node>) -> Result<Joined, AllocError>
    requires { IsRopeText (left.now.value.pieces ++ right.now.value.pieces) }
    ensures joined { IfOk result (λ joined.
        AreJoined left.now.value right.now.value (nodes_of joined)) }
    ensures counted { IfOk result AreJoinedCounted }
{
    let (l, r) = (left.height(), right.height());
    if l == r {
        let joined = beside(alloc, left, right)?;
        Ok(joined)
    } else if l > r {
        let Parts::Inner(front) = left.parts() else {
            unreachable!()
        };
        let end = front.len() - 1;
        let last = join(alloc, front.get(end), right)?;
        let joined = pack_with(alloc, l, front, end, last, &mut Made::new())?;
        Ok(joined)
    } else {
        let Parts::Inner(back) = right.parts() else {
            unreachable!()
        };
        // For the proof only.
        let _ = back.len();
        let first = join(alloc, left, back.get(0))?;
        let joined = pack_with(alloc, r, back, 0, first, &mut Made::new())?;
        Ok(joined)
    }
}

/// Returns one tree of the leaf texts of two, in order. Both are unchanged.
///
/// # Requires
///
/// The leaf texts of both, in order, are those of a rope.
///
/// # Errors
///
/// Out of memory.
pub fn concat(alloc: Global, left: &Rc<Node>, right: &Rc<Node>) -> Result<Rc<Node>, AllocError>
    requires { IsRopeText (left.now.value.pieces ++ right.now.value.pieces) }
    ensures { IfOk result (λ node. node.value.pieces ≡ left.now.value.pieces ++
        right.now.value.pieces) }
{
    match join(alloc, left, right)? {
        Joined::One(node, _) => Ok(node),
        Joined::Two(first, counts, second, more) => {
            let height = left.height().max(right.height()) + 1;
            let node = over_two(alloc, height, first, counts, second, more, &mut Made::new())?;
            Ok(node)
        }
    }
}
