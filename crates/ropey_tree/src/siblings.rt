//! Nodes in a row that are packed under one node, or two.

ghost use Rattle.std.specs.Prelude.{◌≡◌, ◌+◌, ◌-◌, ◌<◌, ◌≤◌, ◌^◌, [], ◌∷◌, ◌++◌, length, take, drop, IfOk};
ghost use Rattle.ropey_tree.specs.Counts.{total};
ghost use Rattle.ropey_tree.specs.LeafRow.{row_with};
ghost use Rattle.ropey_tree.specs.Nodes.{count_of, all_pieces, inner_view, IsInner};
ghost use Rattle.ropey_tree.specs.Siblings.{views, nodes_of, AreJoinedCounted, AreSiblings, IsRowCut, Packed};

use crate::MAX_CHILDREN;
use crate::children::Children;
use crate::counts::Counts;
use crate::made::Made;
use crate::node::Node;
use std::alloc::{AllocError, Global};
use std::marker::Model;
use std::rc::Rc;

/// One node with its counts, or two of one height with theirs.
#[derive(Drop)]
pub enum Joined {
    /// One.
    One(Rc<Node>, Counts),
    /// Two, in order.
    Two(Rc<Node>, Counts, Rc<Node>, Counts),
}

/// Nodes of one height in a row that is built from its start, under one parent or two. Contracts
/// see the nodes so far, and the number of those under the first parent.
#[derive(Drop)]
pub(crate) struct Siblings {
    cut: usize,
    first: Children,
    second: Children,
}

impl Model for Siblings {
    ghost use Rattle.std.specs.Prelude.{◌++◌};
    ghost use Rattle.ropey_tree.specs.Siblings.{Row, AreHalves};

    ghost Value = { Row };

    ghost view = { λ s. record { nodes = s.first ++ s.second; cut = s.cut } };

    ghost invariant = { λ s. AreHalves s.cut s.first s.second };
}

impl Siblings {
    /// Returns an empty row, for a number of nodes.
    pub(crate) fn new(alloc: Global, number: usize) -> Result<Self, AllocError>
        requires { number ≤ 48 }
        ensures nodes { IfOk result (λ row. row.nodes ≡ []) }
        ensures cut { IfOk result (λ row. IsRowCut number row.cut) }
    {
        let cut = if number <= MAX_CHILDREN {
            number
        } else {
            number / 2
        };
        let first = Children::with_capacity(alloc, cut)?;
        let second = Children::with_capacity(alloc, number - cut)?;
        Ok(Siblings { cut, first, second })
    }

    /// Appends a node with its counts.
    pub(crate) fn with(self, node: Rc<Node>, counts: Counts) -> Result<Self, AllocError>
        requires room { length self.nodes < self.cut + 24 }
        requires counted { counts ≡ count_of node.value }
        requires fits { (total (all_pieces (self.nodes ++ node.value ∷ []))).bytes < 2 ^ 63 }
        ensures nodes { IfOk result (λ row. row.nodes ≡ self.nodes ++ node.value ∷ []) }
        ensures cut { IfOk result (λ row. row.cut ≡ self.cut) }
    {
        let Siblings { cut, first, second } = self;
        if first.len() < cut {
            let first = first.with(node, counts)?;
            return Ok(Siblings { cut, first, second });
        }
        let second = second.with(node, counts)?;
        Ok(Siblings { cut, first, second })
    }

    /// Appends copies of the nodes in a range of indices of other children.
    pub(crate) fn with_some(
        self,
        other: &Children,
        from: usize,
        to: usize,
    ) -> Result<Self, AllocError>
        requires range { from ≤ to }
        requires within { to ≤ length other.now }
        requires room { length self.nodes + (to - from) ≤ self.cut + 24 }
        requires fits { (total (all_pieces (self.nodes ++
            take (to - from) (drop from other.now)))).bytes < 2 ^ 63 }
        ensures nodes { IfOk result (λ row. row.nodes ≡ self.nodes ++
            take (to - from) (drop from other.now)) }
        ensures cut { IfOk result (λ row. row.cut ≡ self.cut) }
    {
        let Siblings { cut, first, second } = self;
        let middle = from + (to - from).min(cut - first.len());
        let first = first.with_some(other, from, middle)?;
        let second = second.with_some(other, middle, to)?;
        Ok(Siblings { cut, first, second })
    }

    /// Makes the parent, or both.
    pub(crate) fn pack(
        self,
        alloc: Global,
        height: usize,
        made: &mut Made,
    ) -> Result<Joined, AllocError>
        requires nodes { AreSiblings height self.nodes }
        requires cut { IsRowCut (length self.nodes) self.cut }
        ensures packed { IfOk result (λ joined. Packed height self.nodes (nodes_of joined)) }
        ensures one { IfOk result (λ joined. length self.nodes ≤ 24 →
            nodes_of joined ≡ inner_view height self.nodes ∷ []) }
        ensures counted { IfOk result AreJoinedCounted }
        ensures made { IfOk result (λ joined. made.new.nodes ≡
            made.old.nodes + length (nodes_of joined)) }
        ensures least { made.old.nodes ≤ made.new.nodes }
        ensures most { made.new.nodes ≤ made.old.nodes + 2 }
    {
        let Siblings { first, second, .. } = self;
        let (sum, more) = (first.sum(), second.sum());
        let front = over(alloc, height, first, made)?;
        if second.len() == 0 {
            return Ok(Joined::One(front, sum));
        }
        let back = over(alloc, height, second, made)?;
        Ok(Joined::Two(front, sum, back, more))
    }
}

/// Returns copies of nodes as children.
pub(crate) fn gather(alloc: Global, nodes: &[Rc<Node>]) -> Result<Children, AllocError>
    requires room { length nodes.now ≤ 24 }
    requires fits { (total (all_pieces (views nodes.now))).bytes < 2 ^ 63 }
    ensures { IfOk result (λ children. children ≡ views nodes.now) }
{
    let mut children = Children::with_capacity(alloc, nodes.len())?;
    for node in nodes {
        let copy = node.clone()?;
        children = children.with(copy, node.counts())?;
    }
    Ok(children)
}

/// Makes a node over children.
pub(crate) fn over(
    alloc: Global,
    height: usize,
    children: Children,
    made: &mut Made,
) -> Result<Rc<Node>, AllocError>
    requires { IsInner height children }
    ensures node { IfOk result (λ node. node.value ≡ inner_view height children) }
    ensures counted { IfOk result (λ _. made.new.nodes ≡ made.old.nodes + 1) }
    ensures least { made.old.nodes ≤ made.new.nodes }
    ensures most { made.new.nodes ≤ made.old.nodes + 1 }
{
    let node = made.share(alloc, Node::from_children(height, children))?;
    Ok(node)
}

/// Makes a node over two nodes of one height, with their counts.
pub(crate) fn over_two(
    alloc: Global,
    height: usize,
    first: Rc<Node>,
    counts: Counts,
    second: Rc<Node>,
    more: Counts,
    made: &mut Made,
) -> Result<Rc<Node>, AllocError>
    requires inner { IsInner height (first.value ∷ second.value ∷ []) }
    requires counted { counts ≡ count_of first.value }
    requires counted_second { more ≡ count_of second.value }
    ensures node { IfOk result (λ node. node.value ≡
        inner_view height (first.value ∷ second.value ∷ [])) }
    ensures least { made.old.nodes ≤ made.new.nodes }
    ensures most { made.new.nodes ≤ made.old.nodes + 1 }
{
    let children = Children::with_capacity(alloc, 2)?.with(first, counts)?;
    let children = children.with(second, more)?;
    let node = over(alloc, height, children, made)?;
    Ok(node)
}

/// Makes one node over the children of two nodes if they are at most 24, or else two nodes over
/// their halves.
pub(crate) fn pack_both(
    alloc: Global,
    height: usize,
    front: &Children,
    back: &Children,
) -> Result<Joined, AllocError>
    requires { AreSiblings height (front.now ++ back.now) }
    ensures packed { IfOk result (λ joined. Packed height (front.now ++ back.now)
        (nodes_of joined)) }
    ensures counted { IfOk result AreJoinedCounted }
{
    let (len, more) = (front.len(), back.len());
    let row = Siblings::new(alloc, len + more)?.with_some(front, 0, len)?;
    let row = row.with_some(back, 0, more)?;
    let joined = row.pack(alloc, height, &mut Made::new())?;
    Ok(joined)
}

/// Makes one node over children with one or two others in place of the one at an index if they are
/// at most 24, or else two nodes over their halves.
pub(crate) fn pack_with(
    alloc: Global,
    height: usize,
    children: &Children,
    index: usize,
    others: Joined,
    made: &mut Made,
) -> Result<Joined, AllocError>
    requires within { index < length children.now }
    requires counted { AreJoinedCounted others }
    requires nodes { AreSiblings height (row_with index (nodes_of others) children.now) }
    ensures packed { IfOk result (λ joined. Packed height
        (row_with index (nodes_of others) children.now) (nodes_of joined)) }
    ensures one { IfOk result (λ joined.
        length (row_with index (nodes_of others) children.now) ≤ 24 → nodes_of joined ≡
        inner_view height (row_with index (nodes_of others) children.now) ∷ []) }
    ensures counted { IfOk result AreJoinedCounted }
    ensures made { IfOk result (λ joined. made.new.nodes ≡
        made.old.nodes + length (nodes_of joined)) }
    ensures least { made.old.nodes ≤ made.new.nodes }
    ensures most { made.new.nodes ≤ made.old.nodes + 2 }
{
    match others {
        Joined::One(node, counts) => {
            let children = children.with_replaced(alloc, index, node, counts)?;
            let sum = children.sum();
            let only = over(alloc, height, children, made)?;
            Ok(Joined::One(only, sum))
        }
        Joined::Two(first, counts, second, more) => {
            let len = children.len();
            let row = Siblings::new(alloc, len + 1)?.with_some(children, 0, index)?;
            let row = row.with(first, counts)?.with(second, more)?;
            let row = row.with_some(children, index + 1, len)?;
            let joined = row.pack(alloc, height, made)?;
            Ok(joined)
        }
    }
}
