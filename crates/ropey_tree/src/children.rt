//! The children of a node, with running totals of their counts.

ghost use Rattle.std.specs.Prelude.{◌≡◌, suc, ◌+◌, ◌-◌, ◌<◌, ◌≤◌, ◌^◌, ◌⊎◌, [], ◌∷◌, ◌++◌, length, slice_index_or, take, drop, IfOk, OnOk};
ghost use Rattle.ropey_tree.specs.Children.{views};
ghost use Rattle.ropey_tree.specs.Counts.{total, amount};
ghost use Rattle.ropey_tree.specs.NodeView.{NodeView};
ghost use Rattle.ropey_tree.specs.Nodes.{count_of, all_pieces};

use crate::counts::{By, Counts};
use crate::node::Node;
use crate::running_totals::RunningTotals;
use crate::visits::Visits;
use std::alloc::{AllocError, Global};
use std::marker::Model;
use std::rc::Rc;

/// Sibling nodes, and for each the counts of all texts up to its end: `NodeChildren` in `ropey`.
/// Contracts see the views of the nodes.
#[cycle(node)]
#[derive(Drop)]
pub struct Children {
    nodes: Vec<Rc<Node>>,
    totals: RunningTotals,
}

impl Model for Children {
    ghost use Rattle.std.specs.Prelude.{List};
    ghost use Rattle.ropey_tree.specs.NodeView.{NodeView};

    ghost Value = { List NodeView };

    ghost use Rattle.ropey_tree.specs.Shown.{AreInStep};
    ghost use Rattle.ropey_tree.specs.Children.{views, tallest};

    ghost view = { λ c. views c.nodes.items };

    ghost invariant = { λ c. AreInStep (views c.nodes.items) c.totals };

    ghost size = { tallest };

    ghost use Rattle.std.proofs.Common.{arith};
    ghost use Rattle.ropey_tree.specs.Falls.{most_le-tallest};

    ghost size_decreases = { λ c h. omega (arith, most_le-tallest c.nodes.items) };
}

/// Appends copies of nodes to a list of nodes.
fn append_copies(nodes: &mut Vec<Rc<Node>>, more: &[Rc<Node>]) -> Result<(), AllocError>
    ensures { OnOk result (views nodes.new.items ≡ views nodes.old.items ++ views more.now) }
{
    for node in more {
        let copy = node.clone()?;
        nodes.push(copy)?;
    }
    Ok(())
}

impl Children {
    /// Returns no nodes, with room for `number`.
    pub(crate) fn with_capacity(alloc: Global, number: usize) -> Result<Self, AllocError>
        ensures { IfOk result (λ children. children ≡ []) }
    {
        let nodes = Vec::with_capacity(alloc, number)?;
        let totals = RunningTotals::with_capacity(alloc, number)?;
        Ok(Children { nodes, totals })
    }

    /// Returns the number of nodes.
    #[inline]
    pub fn len(&self) -> usize
        ensures value { result ≡ length self.now }
        ensures fits { result ≤ 24 }
    {
        self.totals.len()
    }

    /// Returns the node at an index.
    ///
    /// # Requires
    ///
    /// `k < len()`.
    #[inline]
    pub fn get(&self, k: usize) -> &Rc<Node>
        requires { k < length self.now }
        ensures { result.now.value ≡ slice_index_or self.now k result.now.value }
    {
        &self.nodes[k]
    }

    /// Returns the counts of the nodes before an index.
    #[inline]
    fn before(&self, k: usize) -> Counts
        requires { k ≤ length self.now }
        ensures { result ≡ total (all_pieces (take k self.now)) }
    {
        self.totals.before(k)
    }

    /// Returns the counts of the node at an index.
    ///
    /// # Requires
    ///
    /// `k < len()`.
    #[inline]
    pub fn count(&self, k: usize) -> Counts
        requires { k < length self.now }
        ensures { (d : NodeView) → result ≡ count_of (slice_index_or self.now k d) }
    {
        // For the proof only.
        let _ = self.len();
        let (through, before) = (self.before(k + 1), self.before(k));
        through.saturating_sub(before)
    }

    /// Appends a node with its counts. The texts of all must fit together.
    pub(crate) fn with(self, node: Rc<Node>, counts: Counts) -> Result<Self, AllocError>
        requires room { length self < 24 }
        requires counted { counts ≡ count_of node.value }
        requires fits { (total (all_pieces (self ++ node.value ∷ []))).bytes < 2 ^ 63 }
        ensures { IfOk result (λ children. children ≡ self ++ node.value ∷ []) }
    {
        let total = self.sum().plus(counts);
        let Children {
            mut nodes,
            mut totals,
        } = self;
        nodes.push(node)?;
        totals.push(total)?;
        Ok(Children { nodes, totals })
    }

    /// Appends copies of the nodes in a range of indices of other children. The texts of all must
    /// fit together.
    pub(crate) fn with_some(
        self,
        other: &Children,
        from: usize,
        to: usize,
    ) -> Result<Self, AllocError>
        requires range { from ≤ to }
        requires within { to ≤ length other.now }
        requires room { length self + (to - from) ≤ 24 }
        requires fits { (total (all_pieces (self ++ take (to - from) (drop from other.now)))).bytes
            < 2 ^ 63 }
        ensures { IfOk result (λ children.
            children ≡ self ++ take (to - from) (drop from other.now)) }
    {
        let (before, sum) = (other.before(from), self.sum());
        let Children {
            mut nodes,
            mut totals,
        } = self;
        append_copies(&mut nodes, &other.nodes[from..to])?;
        totals.extend_from(&other.totals, from, to, before, sum)?;
        Ok(Children { nodes, totals })
    }

    /// Returns a copy with another node and its counts at an index.
    pub(crate) fn with_replaced(
        &self,
        alloc: Global,
        k: usize,
        node: Rc<Node>,
        counts: Counts,
    ) -> Result<Self, AllocError>
        requires within { k < length self.now }
        requires counted { counts ≡ count_of node.value }
        requires fits { (total (all_pieces (take k self.now ++ (node.value ∷ []) ++
            drop (suc k) self.now))).bytes < 2 ^ 63 }
        ensures { IfOk result (λ children. children ≡
            take k self.now ++ (node.value ∷ []) ++ drop (suc k) self.now) }
    {
        let len = self.len();
        let front = Children::with_capacity(alloc, len)?.with_some(self, 0, k)?;
        front.with(node, counts)?.with_some(self, k + 1, len)
    }

    /// Returns the counts of all nodes.
    #[inline]
    pub fn sum(&self) -> Counts
        ensures { result ≡ total (all_pieces self.now) }
    {
        self.before(self.len())
    }

    /// Chooses the child to enter: the first whose end is past `i` in a measure, or else the last.
    ///
    /// # Requires
    ///
    /// There is a child.
    #[inline]
    pub fn choose(&self, by: By, i: usize, visits: &mut Visits) -> Choice
        requires { 0 < length self.now }
        ensures within { result.index < length self.now }
        ensures stands_before { result.before ≡ total (all_pieces (take result.index self.now)) }
        ensures counted { (d : NodeView) →
            result.len ≡ count_of (slice_index_or self.now result.index d) }
        ensures not_past { amount by result.before ≤ i }
        ensures passed { (i < amount by (total (all_pieces (take (result.index + 1) self.now)))) ⊎
            (result.index + 1 ≡ length self.now) }
        ensures visited { visits.new.nodes ≡ visits.old.nodes + 1 }
        ensures compared { visits.new.comparisons ≤ visits.old.comparisons + 5 }
        ensures some { 1 < length self.now → visits.old.comparisons < visits.new.comparisons }
    {
        visits.enter();
        let index = self.totals.find(by, i, visits);
        Choice {
            index,
            before: self.before(index),
            len: self.count(index),
        }
    }
}

/// A child by its index, and the counts before it.
#[derive(Clone, Copy, Debug)]
pub struct Choice {
    /// The child's index.
    pub index: usize,
    /// The counts of the children before it.
    pub before: Counts,
    /// Its own counts.
    pub len: Counts,
}
