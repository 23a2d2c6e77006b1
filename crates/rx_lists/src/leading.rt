//! The leading nodes of a program at an offset, from those at the next offset.

ghost use Rattle.std.specs.Prelude.{◌≡◌, ◌↔◌, ℕ, [], Some, None, Contains, IsTrue, IfOk, OnOk, MatchOption, length, slice_get};
ghost use Rattle.rx_utf8.specs.Automata.{step_of};
ghost use Rattle.rx_steps.specs.Nodes.{widths_of};
ghost use Rattle.rx_steps.specs.Lists.{move_at, read_next};
ghost use Rattle.rx_lists.specs.Sets.{AreAllNodes};
ghost use Rattle.rx_lists.specs.Arrivals.{IsInList, TellEdges};
ghost use Rattle.rx_lists.specs.Leading.{AreFilled, IsLookedAt, IsRound, LeadsOn};

use crate::arrivals::Arrivals;
use crate::node_set::NodeSet;
use rx_program::{Program, State};
use rx_steps::{Node, Place};
use rx_utf8::SetAutomaton;
use rx_util::StateID;
use std::alloc::AllocError;

/// Returns whether a byte leads from a node with a set to one of the nodes beyond.
fn reads_on(
    automaton: &SetAutomaton,
    on: StateID,
    place: &Place,
    node: Node,
    beyond: &NodeSet,
) -> bool
    ensures { (i : ℕ) → IsTrue result ↔ LeadsOn [] beyond.now.nodes
        (read_next (step_of automaton.now) node.0 on node.1 i place.now.byte) }
{
    let Some(byte) = place.byte else {
        return false;
    };
    match automaton.step(node.within(), byte) {
        None => false,
        Some(None) => beyond.has(Node::first(on)),
        Some(Some(within)) => beyond.has(Node::new(node.state(), within)),
    }
}

/// Returns whether a first node of these states is here.
fn has_some(here: &NodeSet, states: &[StateID]) -> bool
    ensures { IsTrue result ↔ ((k : ℕ) × (q : ℕ) × (slice_get states.now k ≡ Some q)
        × Contains here.now.nodes (q, 0)) }
{
    for state in states {
        if here.has(Node::first(*state)) {
            return true;
        }
    }
    false
}

/// Returns whether the move at a node leads on.
fn leads_on(state: &State, place: &Place, node: Node, beyond: &NodeSet, here: &NodeSet) -> bool
    ensures { (i : ℕ) → IsTrue result
        ↔ LeadsOn here.now.nodes beyond.now.nodes (move_at place.now i node state.now) }
{
    match state {
        State::Ranges(automaton, on) => reads_on(automaton, *on, place, node, beyond),
        State::Look(look, on) => place.looks.has(*look) && here.has(Node::first(*on)),
        State::Empty(on) => here.has(Node::first(*on)),
        State::Capture(_, on) => here.has(Node::first(*on)),
        State::BinaryUnion(first, second) => {
            here.has(Node::first(*first)) || here.has(Node::first(*second))
        }
        State::Union(alternates) => has_some(here, alternates),
        State::Match(_) => true,
    }
}

/// Returns the state of a node, if there is one.
fn state_at(states: &[State], node: Node) -> Option<&State>
    ensures { MatchOption result (slice_get states.now node.0 ≡ None)
        (λ state. slice_get states.now node.0 ≡ Some state.now) }
{
    states.get(node.state().as_usize())
}

/// Adds a node to those here if it leads on and is new, and returns whether it did.
fn mark(
    program: &Program,
    place: &Place,
    node: Node,
    beyond: &NodeSet,
    here: &mut NodeSet,
) -> Result<bool, AllocError>
    requires widths { here.old.widths ≡ widths_of program.now }
    ensures marked { IfOk result (IsLookedAt program.now place.now node beyond.now.nodes
        here.old.nodes here.new.nodes) }
    ensures widths { here.new.widths ≡ here.old.widths }
{
    let Some(state) = state_at(program.states(), node) else {
        return Ok(false);
    };
    if here.has(node) {
        return Ok(false);
    }
    if !leads_on(state, place, node, beyond, here) {
        return Ok(false);
    }
    here.add(node)
}

/// Checks each of these nodes once.
fn mark_all(
    program: &Program,
    place: &Place,
    nodes: &[Node],
    beyond: &NodeSet,
    here: &mut NodeSet,
) -> Result<(), AllocError>
    requires widths { here.old.widths ≡ widths_of program.now }
    ensures round { OnOk result (IsRound program.now place.now (λ q. Contains nodes.now q)
        beyond.now.nodes here.old.nodes here.new.nodes) }
    ensures widths { here.new.widths ≡ here.old.widths }
{
    for node in nodes {
        mark(program, place, *node, beyond, here)?;
    }
    Ok(())
}

/// Checks the nodes with an epsilon transition to a node here.
fn go_back(
    program: &Program,
    place: &Place,
    arrivals: &Arrivals,
    node: Node,
    beyond: &NodeSet,
    here: &mut NodeSet,
) -> Result<(), AllocError>
    requires widths { here.old.widths ≡ widths_of program.now }
    ensures round { OnOk result (IsRound program.now place.now
        (λ q. (node.1 ≡ 0) × IsInList arrivals.now node.0 q)
        beyond.now.nodes here.old.nodes here.new.nodes) }
    ensures widths { here.new.widths ≡ here.old.widths }
{
    if node.within() != 0 {
        return Ok(());
    }
    match arrivals.at(node.state()) {
        Some(nodes) => mark_all(program, place, nodes, beyond, here),
        None => Ok(()),
    }
}

/// Computes the set of leading nodes at an offset from those at the next one. `order` has all nodes
/// of the program; the set is the same in each order.
///
/// Checks each node once, and the epsilon transitions to leading nodes.
pub(crate) fn fill(
    program: &Program,
    place: &Place,
    order: &[Node],
    arrivals: &Arrivals,
    beyond: &NodeSet,
    here: &mut NodeSet,
) -> Result<(), AllocError>
    requires widths { here.old.widths ≡ widths_of program.now }
    requires order { AreAllNodes program.now.states order.now }
    requires arrivals { TellEdges program.now.states (length program.now.states) arrivals.now }
    ensures filled { OnOk result (AreFilled program.now place.now beyond.now.nodes
        here.new.nodes) }
    ensures widths { here.new.widths ≡ here.old.widths }
{
    here.clear();
    mark_all(program, place, order, beyond, here)?;
    let mut done = 0_usize;
    while done < here.len() {
        let node = here.node(done);
        go_back(program, place, arrivals, node, beyond, here)?;
        done += 1;
    }
    Ok(())
}
