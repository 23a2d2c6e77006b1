//! A set of nodes of a program that can be iterated over.

ghost use Rattle.std.specs.Prelude.{◌≡◌, ◌↔◌, ◌<◌, ℕ, [], Some, Contains, IsTrue, IfOk, IfErr, OnOk, length, slice_get};
ghost use Rattle.rx_util.specs.declared.search.MatchError.{MatchError};
ghost use Rattle.rx_steps.specs.Nodes.{widths_of, width_of, index_from};
ghost use Rattle.rx_lists.specs.Sets.{AreAllNodes, IsAdded, IsAddedIf};
ghost use Rattle.rx_lists.specs.Bits.{HasNode};

use crate::bits::Bits;
use crate::node_index::NodeIndex;
use rx_program::{Program, State};
use rx_steps::{Node, Visited};
use rx_util::{MatchError, StateID};
use std::alloc::{AllocError, Global};
use std::marker::Model;

/// Distinct nodes of a program, in the order in which they were added. Contracts see the number of
/// nodes of each state, and the nodes.
#[derive(Debug, Drop)]
pub(crate) struct NodeSet {
    visited: Visited,
    nodes: Vec<Node>,
}

impl Model for NodeSet {
    ghost use Rattle.std.specs.Prelude.{◌≡◌, length};
    ghost use Rattle.rx_lists.specs.Sets.{NodeSetView, AreOf};

    ghost Value = { NodeSetView };

    ghost view = { λ s. record { widths = s.visited.widths; nodes = s.nodes.items } };

    ghost invariant = { λ s. (AreOf s.visited.widths s.visited.ids s.nodes.items)
        × (length s.nodes.items ≡ length s.visited.ids) };
}

impl NodeSet {
    /// Returns the empty set of a program's nodes.
    pub(crate) fn new(alloc: Global, program: &Program) -> Result<NodeSet, MatchError>
        ensures widths { IfOk result (λ s. s.widths ≡ widths_of program.now) }
        ensures empty { IfOk result (λ s. s.nodes ≡ []) }
        ensures refused { IfErr result (λ error. error ≡ MatchError.Memory) }
    {
        let mut visited = Visited::new(alloc, program)?;
        visited.clear();
        Ok(NodeSet {
            visited,
            nodes: Vec::new(alloc),
        })
    }

    /// Returns the nodes.
    pub(crate) fn nodes(&self) -> &[Node]
        ensures { result.now ≡ self.now.nodes }
    {
        &self.nodes
    }

    /// Returns the number of nodes.
    pub(crate) fn len(&self) -> usize
        ensures { result ≡ length self.now.nodes }
    {
        self.nodes.len()
    }

    /// Returns the node with this number, in the order of adding.
    pub(crate) fn node(&self, number: usize) -> Node
        requires { number < length self.now.nodes }
        ensures { slice_get self.now.nodes number ≡ Some result }
    {
        self.nodes[number]
    }

    /// Removes all nodes. Keeps the memory.
    pub(crate) fn clear(&mut self)
        ensures { self.new ≡ record self.old { nodes = [] } }
    {
        self.visited.clear();
        self.nodes.clear();
    }

    /// Returns whether a node is a member.
    pub(crate) fn has(&self, node: Node) -> bool
        ensures { IsTrue result ↔ Contains self.now.nodes node }
    {
        self.visited.has(node)
    }

    /// Adds a node that has an index, and returns whether it was new. After an error there is no
    /// node.
    pub(crate) fn add(&mut self, node: Node) -> Result<bool, AllocError>
        ensures added { IfOk result (λ is_new. IsAdded self.old.widths self.old.nodes node is_new
            self.new.nodes) }
        ensures widths { self.new.widths ≡ self.old.widths }
    {
        if !self.visited.insert(node) {
            return Ok(false);
        }
        match self.nodes.push(node) {
            Ok(()) => Ok(true),
            Err(refused) => {
                self.visited.clear();
                self.nodes.clear();
                Err(refused.into())
            }
        }
    }
}

impl NodeSet {
    /// Adds a node that has an index if `is_asked`.
    fn add_if(&mut self, node: Node, is_asked: bool) -> Result<(), AllocError>
        ensures added { OnOk result (IsAddedIf self.old.widths self.old.nodes node is_asked
            self.new.nodes) }
        ensures widths { self.new.widths ≡ self.old.widths }
    {
        if is_asked {
            self.add(node)?;
        }
        Ok(())
    }

    /// Replaces the nodes by those of these that are in a set and have an index.
    pub(crate) fn load(
        &mut self,
        nodes: &[Node],
        index: &NodeIndex,
        set: &Bits,
    ) -> Result<(), AllocError>
        ensures these { OnOk result ((q : ℕ × ℕ) → Contains self.new.nodes q
            → HasNode index.now set.now q) }
        ensures all { OnOk result ((q : ℕ × ℕ) (k : ℕ) → Contains nodes.now q
            → HasNode index.now set.now q → index_from 0 self.old.widths q.0 q.1 ≡ Some k
            → Contains self.new.nodes q) }
        ensures widths { self.new.widths ≡ self.old.widths }
    {
        self.clear();
        for node in nodes {
            self.add_if(*node, index.has(set, *node))?;
        }
        Ok(())
    }
}

/// Appends all nodes of a state.
fn push_nodes(nodes: &mut Vec<Node>, id: StateID, state: &State) -> Result<(), AllocError>
    ensures these { OnOk result ((s : ℕ) → s < width_of state.now
        → Contains nodes.new.items (id, s)) }
    ensures others { OnOk result ((q : ℕ × ℕ) → Contains nodes.old.items q
        → Contains nodes.new.items q) }
{
    match state {
        State::Ranges(automaton, _) => push_within(nodes, id, automaton.state_count()),
        _ => push_within(nodes, id, 1),
    }
}

/// Appends the nodes of a state with `width` nodes.
fn push_within(nodes: &mut Vec<Node>, id: StateID, width: usize) -> Result<(), AllocError>
    ensures these { OnOk result ((s : ℕ) → s < width → Contains nodes.new.items (id, s)) }
    ensures others { OnOk result ((q : ℕ × ℕ) → Contains nodes.old.items q
        → Contains nodes.new.items q) }
{
    for within in 0..width {
        nodes.push(Node::new(id, within))?;
    }
    Ok(())
}

/// Returns all nodes of a program, those of the last state first.
pub(crate) fn all_nodes(alloc: Global, program: &Program) -> Result<Vec<Node>, AllocError>
    ensures { IfOk result (λ nodes. AreAllNodes program.now.states nodes.items) }
{
    let states = program.states();
    let mut nodes = Vec::new(alloc);
    for done in 0..states.len() {
        let number = states.len() - 1 - done;
        push_nodes(&mut nodes, StateID::new(number), &states[number])?;
    }
    Ok(nodes)
}
