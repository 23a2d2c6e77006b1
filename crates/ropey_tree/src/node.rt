//! Nodes: leaves, and nodes with children one level below.

ghost use Rattle.std.specs.Prelude.{◌≡◌, ◌+◌, ◌-◌, ◌*◌, ◌<◌, ◌≤◌, [], ◌∷◌, length, true, IfSome};
ghost use Rattle.str_indices.specs.Text.{byte_len};
ghost use Rattle.ropey_tree.specs.Counts.{total, amount};
ghost use Rattle.ropey_tree.specs.Nodes.{leaf_view, inner_view, IsInner, IsTree, LiesIn, StandsIn};
ghost use Rattle.ropey_tree.specs.Parts.{ShowsParts};

use crate::children::Children;
use crate::counts::{By, Counts};
use crate::leaf::Leaf;
use crate::visits::Visits;
use std::marker::Model;

/// A text in a tree. Contracts see the leaf texts, the height and the number of children.
#[cycle(node)]
#[derive(Drop)]
pub struct Node {
    body: Body,
}

#[cycle(node)]
#[derive(Drop)]
enum Body {
    // A leaf's text is on the heap, in an allocation of its length.
    Leaf(Leaf),
    // The height, and the children.
    Inner(usize, Children),
}

impl Model for Node {
    ghost use Rattle.std.specs.Prelude.{◌*◌};
    ghost use Rattle.ropey_tree.specs.NodeView.{NodeView};

    ghost Value = { NodeView };

    ghost use Rattle.ropey_tree.specs.Bodies.{view_of, IsBody};

    ghost view = { λ n. view_of n.body };

    ghost invariant = { λ n. IsBody n.body };

    ghost size = { λ v. 2 * v.height };

    ghost use Rattle.ropey_tree.specs.Falls.{deep_le-height};

    ghost size_decreases = { λ n h. deep_le-height n.body h };
}

impl Node {
    /// Returns a leaf as a node.
    pub fn from_leaf(leaf: Leaf) -> Self
        ensures { result ≡ leaf_view leaf }
    {
        // For the proof only.
        let _ = leaf.as_str();
        Node {
            body: Body::Leaf(leaf),
        }
    }

    /// Returns a node over children that are one level below its height.
    pub(crate) fn from_children(height: usize, children: Children) -> Self
        requires { IsInner height children }
        ensures { result ≡ inner_view height children }
    {
        Node {
            body: Body::Inner(height, children),
        }
    }

    /// Returns the number of levels below: 0 for a leaf.
    #[inline]
    pub fn height(&self) -> usize
        ensures value { result ≡ self.now.height }
        ensures low { result ≤ 18 }
        ensures tree { IsTree self.now }
        ensures few { self.now.degree ≤ 24 }
    {
        match &self.body {
            Body::Leaf(leaf) => {
                // For the proof only.
                let _ = leaf.as_str();
                0
            }
            Body::Inner(height, children) => {
                // For the proof only.
                let _ = children.len();
                *height
            }
        }
    }

    /// Returns the leaf, or the children.
    #[inline]
    pub(crate) fn parts(&self) -> Parts<'_>
        ensures { ShowsParts self.now result }
    {
        match &self.body {
            Body::Leaf(leaf) => {
                // For the proof only.
                let _ = leaf.as_str();
                Parts::Leaf(leaf)
            }
            Body::Inner(_, children) => Parts::Inner(children),
        }
    }

    /// Returns the counts of the text.
    pub fn counts(&self) -> Counts
        ensures { result ≡ total self.now.pieces }
    {
        match &self.body {
            Body::Leaf(leaf) => leaf.counts(),
            Body::Inner(_, children) => children.sum(),
        }
    }
}

/// The contents of a node.
#[derive(Clone, Copy)]
pub(crate) enum Parts<'a> {
    /// The leaf.
    Leaf(&'a Leaf),
    /// The children.
    Inner(&'a Children),
}

/// A child that was entered, and the counts before it.
#[derive(Clone, Copy)]
pub struct Entered<'a> {
    /// The child.
    pub node: &'a Node,
    /// The counts of the children before it.
    pub before: Counts,
    /// Its own counts.
    pub len: Counts,
}

/// Enters the child that contains position `i` of a measure: the first whose end is past `i`, or
/// else the last.
///
/// # Requires
///
/// The node isn't a leaf.
#[inline]
pub fn enter<'a>(node: &'a Node, by: By, i: usize, visits: &mut Visits) -> Entered<'a>
    requires { 0 < node.now.height }
    ensures level { result.node.now.height + 1 ≡ node.now.height }
    ensures lies { LiesIn node.now.pieces result.node.now.pieces by i result.before }
    ensures counted { result.len ≡ total result.node.now.pieces }
    ensures visited { visits.new.nodes ≡ visits.old.nodes + 1 }
    ensures compared { visits.new.comparisons ≤ visits.old.comparisons + 5 }
    ensures some { visits.old.comparisons < visits.new.comparisons }
{
    match &node.body {
        Body::Leaf(_) => unreachable!(),
        Body::Inner(_, children) => {
            let choice = children.choose(by, i, visits);
            Entered {
                node: children.get(choice.index),
                before: choice.before,
                len: choice.len,
            }
        }
    }
}

/// A node on the path to a position, and the counts before it.
#[derive(Clone, Copy)]
pub struct OnTheWay<'a> {
    /// The node.
    pub node: &'a Node,
    /// The counts of the nodes of its height before it.
    pub before: Counts,
    /// Whether each character of its text is known to be one byte.
    pub is_ascii: bool,
    ghost ascii: { is_ascii ≡ true →
        (total node.now.pieces).chars ≡ (total node.now.pieces).bytes },
}

/// Returns the node of a height that contains position `i` of a measure: on each level above it the
/// first whose end is past `i`, or else the last.
fn descend_to<'a>(
    node: &'a Node,
    height: usize,
    by: By,
    i: usize,
    visits: &mut Visits,
) -> OnTheWay<'a>
    requires { height ≤ node.now.height }
    ensures level { result.node.now.height ≡ height }
    ensures lies { LiesIn node.now.pieces result.node.now.pieces by i result.before }
    ensures visited { visits.new.nodes + height ≡ visits.old.nodes + node.now.height }
    ensures compared { visits.new.comparisons ≤
        visits.old.comparisons + 5 * (node.now.height - height) }
{
    let mut at = node;
    let mut before = Counts::zero();
    let mut is_ascii = false;
    for _ in height..node.height() {
        let entered = enter(at, by, i - before.by(by), visits);
        before = before.plus(entered.before);
        is_ascii = entered.len.chars == entered.len.bytes;
        at = entered.node;
    }
    OnTheWay {
        node: at,
        before,
        is_ascii,
    }
}

/// A leaf that was found, and the counts before it.
#[derive(Clone, Copy)]
pub struct Found<'a> {
    /// The leaf.
    pub leaf: &'a Leaf,
    /// The counts of the leaves before it.
    pub before: Counts,
    /// Whether each character of its text is known to be one byte.
    pub is_ascii: bool,
    ghost ascii: { is_ascii ≡ true → length leaf.now ≡ byte_len leaf.now },
}

/// Returns the leaf that contains position `i` of a measure: the first whose end is past `i`, or
/// else the last. The path enters at most 18 nodes below the root. The counts of a leaf are known
/// on the way, so it is also returned whether each of its characters is one byte, except for a root
/// that is a leaf.
pub fn descend<'a>(node: &'a Node, by: By, i: usize, visits: &mut Visits) -> Found<'a>
    ensures lies { LiesIn node.now.pieces (result.leaf.now ∷ []) by i result.before }
    ensures visited { visits.new.nodes ≡ visits.old.nodes + node.now.height }
    ensures few { visits.new.nodes ≤ visits.old.nodes + 18 }
    ensures compared { visits.new.comparisons ≤ visits.old.comparisons + 5 * node.now.height }
{
    // For the proof only.
    let _ = node.height();
    let OnTheWay {
        node: at,
        before,
        is_ascii,
        ..
    } = descend_to(node, 0, by, i, visits);
    match &at.body {
        Body::Leaf(leaf) => Found {
            leaf,
            before,
            is_ascii,
        },
        Body::Inner(..) => unreachable!(),
    }
}

/// `descend` without a count of visits.
pub fn leaf_at(node: &Node, by: By, i: usize) -> Found<'_>
    ensures { LiesIn node.now.pieces (result.leaf.now ∷ []) by i result.before }
{
    descend(node, by, i, &mut Visits::new())
}

impl<'a> OnTheWay<'a> {
    /// Returns whether the node contains position `i` of a measure of the whole text.
    #[inline]
    fn has(&self, by: By, i: usize) -> bool
        ensures from { result ≡ true → amount by self.now.before ≤ i }
        ensures to { result ≡ true →
            i < amount by self.now.before + amount by (total self.now.node.now.pieces) }
    {
        let before = self.before.by(by);
        if i < before {
            return false;
        }
        i - before < self.node.counts().by(by)
    }
}

/// Returns the lowest node above the leaf that contains position `i` of a measure, or a root that
/// is a leaf. If the given node contains the position, it is returned.
#[inline]
fn way_near<'a>(node: &'a Node, near: Option<OnTheWay<'a>>, by: By, i: usize) -> OnTheWay<'a>
    requires { IfSome near (λ way. StandsIn node.now.pieces way.node.now.pieces way.before) }
    ensures { LiesIn node.now.pieces result.node.now.pieces by i result.before }
{
    if let Some(way) = near {
        if way.has(by, i) {
            return way;
        }
    }
    descend_to(node, node.height().min(1), by, i, &mut Visits::new())
}

/// `leaf_at` for callers that go from leaf to leaf: it remembers the node above the leaf, and
/// searches from there if that contains the next position.
///
/// # Requires
///
/// The node remembered is one of this tree.
pub fn leaf_near<'a>(node: &'a Node, near: &mut Option<OnTheWay<'a>>, by: By, i: usize) -> Found<'a>
    requires { IfSome near.old (λ way. StandsIn node.now.pieces way.node.now.pieces way.before) }
    ensures near { IfSome near.new (λ way.
        StandsIn node.now.pieces way.node.now.pieces way.before) }
    ensures lies { LiesIn node.now.pieces (result.leaf.now ∷ []) by i result.before }
{
    // For the proof only.
    let _ = node.height();
    let way = way_near(node, *near, by, i);
    let found = descend(way.node, by, i - way.before.by(by), &mut Visits::new());
    *near = Some(way);
    Found {
        leaf: found.leaf,
        before: way.before.plus(found.before),
        is_ascii: found.is_ascii,
    }
}
