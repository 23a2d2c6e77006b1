//! The numbers of a program's nodes.

ghost use Rattle.std.specs.Prelude.{◌≡◌, ◌↔◌, ◌*◌, ◌<◌, ◌≤◌, map, length, slice_get, IsTrue, IfOk, IfSome};
ghost use Rattle.rx_steps.specs.Nodes.{widths_of, width_of, node_starts, end_from, index_from};
ghost use Rattle.rx_lists.specs.Bits.{HasNode, IsPut, IsNodeSetOf};

use crate::bits::Bits;
use rx_program::{Program, State};
use rx_steps::Node;
use std::alloc::{AllocError, Global};
use std::marker::Model;

/// Returns the number of nodes of a state.
fn width(state: &State) -> usize
    ensures { result ≡ width_of state.now }
{
    match state {
        State::Ranges(automaton, _) => automaton.state_count(),
        _ => 1,
    }
}

/// Numbers the nodes of a program from 0, for sets of them in bits. Contracts see the number of
/// nodes of each state.
#[derive(Debug, Drop)]
pub(crate) struct NodeIndex {
    // The number of each state's first node, and the number of nodes.
    starts: Vec<usize>,
    count: usize,
}

impl Model for NodeIndex {
    ghost use Rattle.std.specs.Prelude.{◌≡◌, List, ℕ};
    ghost use Rattle.rx_steps.specs.Nodes.{widths_in, node_starts, end_from};

    ghost Value = { List ℕ };

    ghost view = { λ s. widths_in s.starts.items };

    ghost invariant = { λ s. (s.starts.items ≡ node_starts 0 (widths_in s.starts.items))
        × (s.count ≡ end_from 0 (widths_in s.starts.items)) };
}

/// Returns the number of each state's first node and the number of all nodes, as a list, and that
/// number.
fn starts_of(alloc: Global, states: &[State]) -> Result<(Vec<usize>, usize), AllocError>
    ensures starts { IfOk result (λ made. made.0.items
        ≡ node_starts 0 (map width_of states.now)) }
    ensures end { IfOk result (λ made. made.1 ≡ end_from 0 (map width_of states.now)) }
{
    let mut starts = Vec::new(alloc);
    let mut end = 0_usize;
    for state in states {
        starts.push(end)?;
        let Some(next) = end.checked_add(width(state)) else {
            return Err(AllocError);
        };
        end = next;
    }
    starts.push(end)?;
    Ok((starts, end))
}

/// Returns the number of a state's first node.
fn start_at(starts: &[usize], state: usize) -> Option<usize>
    ensures { result ≡ slice_get starts.now state }
{
    starts.get(state).copied()
}

impl NodeIndex {
    /// Returns the numbers of a program's nodes.
    pub(crate) fn new(alloc: Global, program: &Program) -> Result<NodeIndex, AllocError>
        ensures widths { IfOk result (λ index. index ≡ widths_of program.now) }
    {
        let (starts, count) = starts_of(alloc, program.states())?;
        Ok(NodeIndex { starts, count })
    }

    /// Returns the number of a node, if it is one of the program.
    fn number(&self, node: Node) -> Option<usize>
        ensures number { result ≡ index_from 0 self.now node.0 node.1 }
        ensures below { IfSome result (λ k. k < end_from 0 self.now) }
    {
        let state = node.state().as_usize();
        let start = start_at(&self.starts, state)?;
        let end = start_at(&self.starts, state + 1)?;
        if node.within() < end - start {
            Some(start + node.within())
        } else {
            None
        }
    }

    /// Returns whether a node is in a set.
    pub(crate) fn has(&self, set: &Bits, node: Node) -> bool
        ensures { IsTrue result ↔ HasNode self.now set.now node }
    {
        match self.number(node) {
            Some(number) => set.has(number),
            None => false,
        }
    }

    /// Adds a node to a set, if it is one of the program.
    fn put(&self, set: &mut Bits, node: Node)
        requires { end_from 0 self.now ≤ 64 * length set.old }
        ensures put { IsPut self.now set.old node set.new }
        ensures room { length set.new ≡ length set.old }
    {
        if let Some(number) = self.number(node) {
            set.insert(number);
        }
    }

    /// Returns the set of these nodes, as far as they are of the program.
    pub(crate) fn set_of(&self, alloc: Global, nodes: &[Node]) -> Result<Bits, AllocError>
        ensures { IfOk result (λ set. IsNodeSetOf self.now nodes.now set) }
    {
        let mut set = Bits::new(alloc, self.count)?;
        for node in nodes {
            self.put(&mut set, *node);
        }
        Ok(set)
    }
}
