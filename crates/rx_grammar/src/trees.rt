//! A stack of trees, stored as nodes in postorder.

ghost use Rattle.std.specs.Prelude.{ℕ, ◌≡◌, ◌+◌, ◌≤◌, ◌<◌, ◌^◌, List, [], ◌∷◌, ◌++◌, length, map, reverse, take, OnOk, MatchBool, MatchResult};
ghost use Rattle.rx_grammar.specs.Trees.{Tree, concat_of};
ghost use Rattle.rx_grammar.specs.Subtrees.{IsWellFormed};
ghost use Rattle.rx_grammar.specs.Postorder.{after_node, alternate, trees_of};
ghost use Rattle.rx_grammar.specs.Rows.{MayFollow, AreRowProperties};
ghost use Rattle.rx_grammar.specs.Weights.{held};
ghost use Rattle.rx_grammar.specs.Nodes.{kind_of};
ghost use Rattle.rx_grammar.specs.Input.{Stops};
ghost use Rattle.rx_grammar.specs.Repetitions.{is_postfix_start};
ghost use Rattle.rx_grammar.specs.Heads.{capture_of};
ghost use Rattle.rx_grammar.specs.Atoms.{atom_tree};
ghost use Rattle.rx_grammar.specs.Stacks.{captured, IsRefusedWhere, PostfixesRead, NoPostfixes};

use crate::atoms::AtomTree;
use crate::error::SyntaxError;
use crate::groups::GroupKind;
use crate::hir::{Hir, Node, tree_with};
use crate::input::first;
use crate::properties::{Properties, RowProperties};
use crate::repetitions::postfix;
use std::alloc::{AllocError, Global};
use std::marker::Model;

/// A stack of trees, of which the last ones may become children of another. Contracts see the nodes
/// in postorder, which make the trees (`trees_of`, the last one first).
#[derive(Debug, Drop)]
pub(crate) struct TreeStack {
    nodes: Vec<Node>,
    properties: Vec<Properties>,
    height: usize,
}

impl Model for TreeStack {
    ghost use Rattle.std.specs.Prelude.{List, map};
    ghost use Rattle.rx_grammar.specs.Subtrees.{NodeKind};
    ghost use Rattle.rx_grammar.specs.Rows.{AreStacked};

    ghost Value = { List NodeKind };

    ghost use Rattle.rx_grammar.specs.Weights.{held};
    ghost use Rattle.rx_grammar.specs.Nodes.{kind_of};

    ghost view = { λ s. map kind_of s.nodes.items };

    ghost invariant = { λ s. AreStacked (map kind_of s.nodes.items) s.properties.items s.height };
}

/// Returns whether a postfix may start with the character.
fn is_postfix_start(c: char) -> bool
    ensures { result ≡ is_postfix_start c }
{
    c == '*' || c == '+' || c == '?' || c == '{'
}

/// Returns whether the text starts with a postfix.
fn begins_postfix(text: &[char]) -> bool
    ensures { MatchBool result (Stops is_postfix_start text.now → ⊥)
        (Stops is_postfix_start text.now) }
{
    match first(text) {
        Some((c, _)) => is_postfix_start(c),
        None => false,
    }
}

impl TreeStack {
    /// Returns an empty stack.
    pub(crate) fn new(alloc: Global) -> TreeStack
        ensures { trees_of result ≡ [] }
    {
        TreeStack {
            nodes: Vec::new(alloc),
            properties: Vec::new(alloc),
            height: 0,
        }
    }

    /// Returns the number of trees.
    pub(crate) fn height(&self) -> usize
        ensures { result ≡ length (trees_of self.now) }
    {
        self.height
    }

    /// Returns the nodes in postorder.
    pub(crate) fn nodes(&self) -> &[Node]
        ensures { map kind_of result.now ≡ self.now }
    {
        &self.nodes
    }

    /// Returns the only tree.
    pub(crate) fn into_hir(self) -> Hir
        requires { (tree : Tree) × (trees_of self ≡ tree ∷ []) × IsWellFormed tree }
        ensures { result ≡ self }
    {
        tree_with(self.nodes, self.properties)
    }

    /// Returns the properties of the last `count` trees.
    fn last_row(&self, count: usize) -> RowProperties
        requires { count ≤ length (trees_of self.now) }
        ensures row { AreRowProperties result (take count (trees_of self.now)) }
        ensures room { result.extent + 1 < 2 ^ 64 }
    {
        let mut row = RowProperties::none();
        for _ in 0..count {
            let root = self.properties.len() - row.extent - 1;
            row = row.with(self.properties[root]);
        }
        row
    }

    /// Appends a node, whose children are the last trees.
    pub(crate) fn push(&mut self, node: Node) -> Result<(), AllocError>
        requires { MayFollow (trees_of self.old) (kind_of node) }
        ensures { OnOk result (trees_of self.new ≡ after_node (trees_of self.old) (kind_of node)) }
    {
        let width = node.width();
        let properties = node.properties(self.last_row(width));
        self.properties.reserve(1)?; // so that both lists grow or neither does
        self.nodes.push(node)?;
        self.properties.push(properties)?;
        self.height = self.height - width + 1;
        Ok(())
    }

    /// Appends the tree of an atom.
    pub(crate) fn push_atom(&mut self, atom: AtomTree) -> Result<(), AllocError>
        ensures { OnOk result (trees_of self.new ≡ atom_tree atom ∷ trees_of self.old) }
    {
        match atom {
            AtomTree::Set(set) => self.push(Node::Set(set)),
            AtomTree::Look(look) => self.push(Node::Look(look)),
        }
    }

    /// Wraps the last tree in a group with this number, if the group is numbered.
    pub(crate) fn push_group(&mut self, number: u32, captures: GroupKind) -> Result<(), AllocError>
        requires { 1 ≤ length (trees_of self.old) }
        ensures { (tree : Tree) (below : List Tree) → trees_of self.old ≡ tree ∷ below → OnOk result
            (trees_of self.new ≡ captured number (capture_of captures) tree ∷ below) }
    {
        match captures {
            GroupKind::Numbered(name) => self.push(Node::Group(number, name)),
            GroupKind::Unnumbered => Ok(()),
        }
    }

    /// Joins the trees above this height into a concatenation.
    pub(crate) fn join_items(&mut self, height: usize) -> Result<(), AllocError>
        requires { height ≤ length (trees_of self.old) }
        ensures { (items below : List Tree) → trees_of self.old ≡ reverse items ++ below
            → length below ≡ height → OnOk result (trees_of self.new ≡ concat_of items ∷ below) }
    {
        let count = self.height() - height;
        match count {
            0 => self.push(Node::Empty),
            1 => Ok(()), // a single item
            _ => self.push(Node::Concat(count)),
        }
    }

    /// Joins the trees above this height into an alternation.
    pub(crate) fn join_branches(&mut self, height: usize) -> Result<(), AllocError>
        requires { height ≤ length (trees_of self.old) }
        ensures { (branches below : List Tree) → trees_of self.old ≡ reverse branches ++ below
            → length below ≡ height → OnOk result (trees_of self.new ≡ alternate branches ∷ below) }
    {
        let count = self.height() - height;
        match count {
            0 => self.push(Node::Empty),
            1 => Ok(()), // a single branch
            _ => self.push(Node::Alternation(count)),
        }
    }

    /// Parses postfixes and applies them to the last tree, which has this depth. Returns the new
    /// depth, capped at `usize::MAX`, and the text after them.
    pub(crate) fn read_postfixes<'a>(
        &mut self,
        text: &'a [char],
        mut depth: usize,
        swap_greed: bool,
    ) -> Result<(usize, &'a [char]), SyntaxError>
        requires tree { 1 ≤ length (trees_of self.old) }
        ensures reads { (tree : Tree) (below : List Tree) (deep : ℕ)
            → trees_of self.old ≡ tree ∷ below → depth ≡ held deep → MatchResult result
            (λ r. PostfixesRead swap_greed tree deep text.now (trees_of self.new) below r.0 r.1.now)
            (λ e. IsRefusedWhere e (NoPostfixes swap_greed tree deep text.now)) }
    {
        let mut rest = text;
        while begins_postfix(rest) {
            let Some((repetition, behind)) = postfix(rest, swap_greed) else {
                return Err(SyntaxError::Outside);
            };
            depth = depth.saturating_add(1);
            self.push(Node::Repeat(repetition))?;
            rest = behind;
        }
        Ok((depth, rest))
    }
}
