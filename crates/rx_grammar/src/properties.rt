//! Properties of subtrees.

ghost use Rattle.std.specs.Prelude.{ℕ, ◌≡◌, ◌+◌, ◌<◌, ◌^◌, List, [], ◌∷◌, ◌++◌, take, Some};
ghost use Rattle.rx_grammar.specs.Trees.{Tree};
ghost use Rattle.rx_grammar.specs.Subtrees.{child_count};
ghost use Rattle.rx_grammar.specs.Weights.{may_be_empty, weight_of, size_of, repeated_weight, held};
ghost use Rattle.rx_grammar.specs.StaticGroups.{both_groups, common_groups, repeated_groups, static_groups};
ghost use Rattle.rx_grammar.specs.Postorder.{first_of, after_node};
ghost use Rattle.rx_grammar.specs.Rows.{MayFollow, AreRowProperties, common_with};
ghost use Rattle.rx_grammar.specs.Nodes.{kind_of, properties_of};

use crate::hir::{Node, Repetition};

/// Properties of a subtree: of a node with all nodes below it.
#[derive(Debug, Clone, Copy, PartialEq, Eq)]
pub struct Properties {
    /// The number of nodes of the subtree. They are adjacent, and its root is the last.
    pub extent: usize,
    /// The weight of the subtree, capped at `usize::MAX`.
    pub weight: usize,
    /// The number of nodes of its program, capped at `usize::MAX`.
    pub size: usize,
    /// Whether some path through its program takes no character, whatever look-around assertions
    /// are on the path.
    pub may_be_empty: bool,
    /// The number of groups in every match of the subtree, or `None` if matches differ in that.
    pub static_groups: Option<usize>,
}

/// Properties of adjacent subtrees.
#[derive(Debug, Clone, Copy, PartialEq, Eq)]
pub(crate) struct RowProperties {
    pub(crate) extent: usize,
    weight: usize,
    size: usize,
    all_may_be_empty: bool,
    any_may_be_empty: bool,
    /// The number of groups in every match of their concatenation.
    groups: Option<usize>,
    /// The number of groups in every match of their alternation. The outer `None` is for no
    /// subtree.
    common_groups: Option<Option<usize>>,
}

/// Returns the sum, or `None` if either is `None`.
fn both(one: Option<usize>, other: Option<usize>) -> Option<usize>
    ensures { ((n m : ℕ) → one ≡ Some n → other ≡ Some m → n + m < 2 ^ 64)
        → result ≡ both_groups one other }
{
    one?.checked_add(other?)
}

/// Returns the number that both are, or `None` if they differ.
fn common(one: Option<usize>, other: Option<usize>) -> Option<usize>
    ensures { result ≡ common_groups one other }
{
    match (one, other) {
        (Some(n), Some(m)) if n == m => Some(n),
        _ => None,
    }
}

/// Returns the number that `groups` and `others` have in common. `others` is `None` if there are no
/// others.
fn common_with(groups: Option<usize>, others: Option<Option<usize>>) -> Option<usize>
    ensures { result ≡ common_with groups others }
{
    match others {
        Some(others) => common(groups, others),
        None => groups,
    }
}

impl RowProperties {
    /// Returns the properties of no subtree.
    pub(crate) fn none() -> RowProperties
        ensures { AreRowProperties result [] }
    {
        RowProperties {
            extent: 0,
            weight: 0,
            size: 0,
            all_may_be_empty: true,
            any_may_be_empty: false,
            groups: Some(0),
            common_groups: None,
        }
    }

    /// Returns the properties with one more subtree.
    pub(crate) fn with(self, part: Properties) -> RowProperties
        requires { self.extent + part.extent < 2 ^ 64 }
        ensures { (trees : List Tree) (tree : Tree) → AreRowProperties self trees
            → part ≡ properties_of tree
            → AreRowProperties result (trees ++ tree ∷ []) }
    {
        let groups = both(self.groups, part.static_groups);
        let common_groups = Some(common_with(part.static_groups, self.common_groups));
        RowProperties {
            extent: self.extent + part.extent,
            weight: self.weight.saturating_add(part.weight),
            size: self.size.saturating_add(part.size),
            all_may_be_empty: self.all_may_be_empty && part.may_be_empty,
            any_may_be_empty: self.any_may_be_empty || part.may_be_empty,
            groups,
            common_groups,
        }
    }
}

impl Repetition {
    /// Returns the weight of the repetition, given that of its operand, or the size, given the
    /// operand's size.
    fn weight(self, weight: usize, may_be_empty: bool) -> usize
        ensures { (w : ℕ) → weight ≡ held w
            → result ≡ held (repeated_weight self.min self.max w may_be_empty) }
    {
        let least = self.min as usize;
        match self.max {
            Some(most) => {
                if most == 0 {
                    return 1;
                }
                let further = (most as usize).saturating_sub(least);
                least
                    .saturating_mul(weight)
                    .saturating_add(further.saturating_mul(weight.saturating_add(1)))
            }
            None => {
                if least > 0 {
                    least.saturating_mul(weight).saturating_add(1)
                } else if may_be_empty {
                    weight.saturating_add(2)
                } else {
                    weight.saturating_add(1)
                }
            }
        }
    }

    /// Returns the number of groups in every match of the repetition, given that of its operand.
    fn static_groups(self, groups: Option<usize>) -> Option<usize>
        ensures { result ≡ repeated_groups self.min self.max groups }
    {
        if self.max == Some(0) || self.min == 0 && groups == Some(0) {
            Some(0)
        } else if self.min > 0 {
            groups
        } else {
            None
        }
    }
}

impl Node {
    /// Returns the weight of the node, given its children.
    fn weight(&self, below: RowProperties) -> usize
        ensures { (trees : List Tree) → MayFollow trees (kind_of self.now)
            → AreRowProperties below (take (child_count (kind_of self.now)) trees)
            → result ≡ held (weight_of (first_of (after_node trees (kind_of self.now)))) }
    {
        match self {
            Node::Empty | Node::Look(_) => 1,
            Node::Set(set) => 1 + set.ranges().len(),
            Node::Group(_, _) => below.weight.saturating_add(2),
            Node::Concat(_) => below.weight,
            Node::Alternation(_) => below.weight.saturating_add(1),
            Node::Repeat(repetition) => repetition.weight(below.weight, below.all_may_be_empty),
        }
    }

    /// Returns the number of nodes of the node's program, given its children.
    fn size(&self, below: RowProperties) -> usize
        ensures { (trees : List Tree) → MayFollow trees (kind_of self.now)
            → AreRowProperties below (take (child_count (kind_of self.now)) trees)
            → result ≡ held (size_of (first_of (after_node trees (kind_of self.now)))) }
    {
        match self {
            Node::Empty | Node::Set(_) | Node::Look(_) => 1,
            Node::Group(_, _) => below.size.saturating_add(2),
            Node::Concat(_) => below.size,
            Node::Alternation(_) => below.size.saturating_add(1),
            Node::Repeat(repetition) => repetition.weight(below.size, below.all_may_be_empty),
        }
    }

    /// Returns whether the node may be empty, given its children.
    fn may_be_empty(&self, below: RowProperties) -> bool
        ensures { (trees : List Tree) → MayFollow trees (kind_of self.now)
            → AreRowProperties below (take (child_count (kind_of self.now)) trees)
            → result ≡ may_be_empty (first_of (after_node trees (kind_of self.now))) }
    {
        match self {
            Node::Empty | Node::Look(_) => true,
            Node::Set(_) => false,
            Node::Group(_, _) => below.all_may_be_empty,
            Node::Concat(_) => below.all_may_be_empty,
            Node::Alternation(_) => below.any_may_be_empty,
            Node::Repeat(repetition) => repetition.min == 0 || below.all_may_be_empty,
        }
    }

    /// Returns the number of groups in every match of the node, given its children.
    fn static_groups(&self, below: RowProperties) -> Option<usize>
        requires { below.extent + 1 < 2 ^ 64 }
        ensures { (trees : List Tree) → MayFollow trees (kind_of self.now)
            → AreRowProperties below (take (child_count (kind_of self.now)) trees)
            → result ≡ static_groups (first_of (after_node trees (kind_of self.now))) }
    {
        match self {
            Node::Empty | Node::Set(_) | Node::Look(_) => Some(0),
            Node::Group(_, _) => both(below.groups, Some(1)),
            Node::Concat(_) => below.groups,
            Node::Alternation(_) => below.common_groups?,
            Node::Repeat(repetition) => repetition.static_groups(below.groups),
        }
    }

    /// Returns the properties of the node, given its children.
    pub(crate) fn properties(&self, below: RowProperties) -> Properties
        requires { below.extent + 1 < 2 ^ 64 }
        ensures { (trees : List Tree) → MayFollow trees (kind_of self.now)
            → AreRowProperties below (take (child_count (kind_of self.now)) trees)
            → result ≡ properties_of (first_of (after_node trees (kind_of self.now))) }
    {
        Properties {
            extent: below.extent + 1,
            weight: self.weight(below),
            size: self.size(below),
            may_be_empty: self.may_be_empty(below),
            static_groups: self.static_groups(below),
        }
    }
}
