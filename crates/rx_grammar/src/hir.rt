//! Syntax trees of patterns.

ghost use Rattle.std.specs.Prelude.{◌≡◌, ◌≤◌, [], ◌∷◌, length, map, Some, MatchOption};
ghost use Rattle.rx_grammar.specs.Trees.{Name, numbers_of};
ghost use Rattle.rx_grammar.specs.Subtrees.{a_group, nodes_of, subtrees_of, child_count, HasName, IsWellFormed};
ghost use Rattle.rx_grammar.specs.Postorder.{own_names, tree_of};
ghost use Rattle.rx_grammar.specs.Rows.{own_groups, AreNodesOf};
ghost use Rattle.rx_grammar.specs.Weights.{pattern_weight, held};
ghost use Rattle.rx_grammar.specs.StaticGroups.{static_captures_of};
ghost use Rattle.rx_grammar.specs.Nodes.{kind_of, properties_of};

use crate::properties::Properties;
use rx_sets::CharacterSet;
use std::marker::Model;
use std::rc::Rc;

/// A look-around assertion. It matches at a position and takes no character.
#[derive(Debug, Clone, Copy, PartialEq, Eq, Hash)]
pub enum Look {
    /// The start of the text.
    Start,
    /// The end of the text.
    End,
    /// The start of the text, and after each line terminator.
    StartLine,
    /// The end of the text, and before each line terminator.
    EndLine,
    /// A word character on exactly one side.
    WordUnicode,
    /// A word character on both sides or on neither.
    WordUnicodeNegate,
}

/// How often a repetition repeats its operand.
#[derive(Debug, Clone, Copy, PartialEq, Eq)]
pub struct Repetition {
    /// The least number of times.
    pub min: u32,
    /// The greatest number of times, or `None` if there is no limit.
    pub max: Option<u32>,
    /// Whether more times are tried before fewer.
    pub greedy: bool,
}

/// A node of a tree, without its children.
#[derive(Debug, Drop)]
pub enum Node {
    /// The empty pattern.
    Empty,
    /// One character of a set.
    Set(Rc<CharacterSet>),
    /// A look-around assertion, which takes no character.
    Look(Look),
    /// A group with a number and possibly a name, and one child.
    Group(u32, Option<String>),
    /// A concatenation of this number of children, two or more.
    Concat(usize),
    /// An alternation of this number of children, two or more, of which the first that matches is
    /// taken.
    Alternation(usize),
    /// A repetition of one child.
    Repeat(Repetition),
}

impl Node {
    /// Returns the name of a group.
    pub fn name(&self) -> Option<&str>
        ensures { MatchOption result (own_names (kind_of self.now) ≡ [])
            (λ name. own_names (kind_of self.now) ≡ name.now ∷ []) }
    {
        match self {
            Node::Group(_, Some(name)) => Some(name.as_str()),
            _ => None,
        }
    }

    /// Returns the name of the group, if the node is the group with this number.
    fn name_as(&self, number: usize) -> Option<&str>
        ensures { MatchOption result
            ((name : Name) → kind_of self.now ≡ a_group number (Some name) → ⊥)
            (λ name. kind_of self.now ≡ a_group number (Some name.now)) }
    {
        match self {
            Node::Group(own, Some(name)) => {
                if *own as usize == number {
                    Some(name.as_str())
                } else {
                    None
                }
            }
            _ => None,
        }
    }

    /// Returns the number of children.
    pub fn width(&self) -> usize
        ensures { result ≡ child_count (kind_of self.now) }
    {
        match self {
            Node::Empty | Node::Set(_) | Node::Look(_) => 0,
            Node::Group(_, _) | Node::Repeat(_) => 1,
            Node::Concat(count) | Node::Alternation(count) => *count,
        }
    }

    /// Returns the number of groups that the node itself is, 0 or 1.
    fn own_groups(&self) -> usize
        ensures value { result ≡ own_groups (kind_of self.now) }
        ensures few { result ≤ 1 }
    {
        match self {
            Node::Group(_, _) => 1,
            _ => 0,
        }
    }
}

/// The syntax tree of a pattern, without simplification. Only `parse` makes it. Contracts see its
/// nodes in postorder, which are exactly the nodes of their tree.
#[derive(Debug, Drop)]
pub struct Hir {
    nodes: Vec<Node>,
    properties: Vec<Properties>,
}

impl Model for Hir {
    ghost use Rattle.std.specs.Prelude.{List, map};
    ghost use Rattle.rx_grammar.specs.Subtrees.{NodeKind};
    ghost use Rattle.rx_grammar.specs.Postorder.{tree_of};
    ghost use Rattle.rx_grammar.specs.Rows.{AreNodesOf};

    ghost Value = { List NodeKind };

    ghost use Rattle.rx_grammar.specs.Nodes.{kind_of};

    ghost view = { λ h. map kind_of h.nodes.items };

    ghost invariant = { λ h. AreNodesOf (tree_of (map kind_of h.nodes.items))
        (map kind_of h.nodes.items) h.properties.items };
}

impl Hir {
    /// Returns the nodes in postorder: each follows its children, and the last is the root. The
    /// children of a node are the last trees before it that have no parent yet.
    pub fn nodes(&self) -> &[Node]
        ensures nodes { map kind_of result.now ≡ self.now }
        ensures exact { self.now ≡ nodes_of (tree_of self.now) }
        ensures well_formed { IsWellFormed (tree_of self.now) }
    {
        &self.nodes
    }

    /// Returns the properties of each node's subtree, in the order of the nodes.
    pub fn properties(&self) -> &[Properties]
        ensures { result.now ≡ map properties_of (subtrees_of (tree_of self.now)) }
    {
        &self.properties
    }

    /// Returns the weight of the pattern, including the group of the whole match, capped at
    /// `usize::MAX`. `O(1)`.
    pub fn weight(&self) -> usize
        ensures { result ≡ held (pattern_weight (tree_of self.now)) }
    {
        match self.properties.last() {
            Some(whole) => whole.weight.saturating_add(3),
            None => 3,
        }
    }

    /// Returns the name of the group with this number, or `None` if there is no such group or it
    /// has no name. `O(n)` in the number of nodes.
    pub fn group_name(&self, number: usize) -> Option<&str>
        ensures { MatchOption result
            ((name : Name) → HasName (tree_of self.now) number name → ⊥)
            (λ name. HasName (tree_of self.now) number name.now) }
    {
        for node in &self.nodes {
            if let Some(name) = node.name_as(number) {
                return Some(name);
            }
        }
        None
    }

    /// Returns the number of groups, which is the greatest number of a group. The whole match,
    /// group 0, isn't counted. `O(n)` in the number of nodes.
    pub fn group_count(&self) -> usize
        ensures count { result ≡ length (numbers_of (tree_of self.now)) }
        ensures well_formed { IsWellFormed (tree_of self.now) }
    {
        let mut count = 0;
        for node in &self.nodes {
            count += node.own_groups();
        }
        count
    }

    /// Returns the number of groups in every match, including the whole match, or `None` if matches
    /// differ in that. `O(1)`.
    ///
    /// For `(a)*`, for example, matches differ.
    pub fn static_captures_len(&self) -> Option<usize>
        ensures { result ≡ static_captures_of (tree_of self.now) }
    {
        let whole = self.properties.last()?;
        whole.static_groups?.checked_add(1)
    }
}

/// Returns the tree with these nodes and these properties.
pub(crate) fn tree_with(nodes: Vec<Node>, properties: Vec<Properties>) -> Hir
    requires { AreNodesOf (tree_of (map kind_of nodes.items)) (map kind_of nodes.items)
        properties.items }
    ensures { result ≡ map kind_of nodes.items }
{
    Hir { nodes, properties }
}
