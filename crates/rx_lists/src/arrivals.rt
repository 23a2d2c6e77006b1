//! The epsilon transitions of a program, by the states to which they lead.

ghost use Rattle.std.specs.Prelude.{◌≡◌, ◌∷◌, [], Some, None, MatchOption, IfOk, OnOk, length, slice_get};
ghost use Rattle.rx_lists.specs.Arrivals.{AreTold, TellEdges, edges_of, nodes_in};

use rx_program::State;
use rx_steps::Node;
use rx_util::StateID;
use std::alloc::{AllocError, Global};
use std::marker::Model;

/// For each state of a program the nodes with an epsilon transition to its first node.
#[derive(Debug, Drop)]
pub(crate) struct Arrivals {
    lists: Vec<Vec<Node>>,
}

impl Model for Arrivals {
    ghost use Rattle.std.specs.Prelude.{ℕ, List};
    ghost use Rattle.rx_lists.specs.Arrivals.{nodes_in};

    ghost Value = { List (List (ℕ × ℕ)) };

    ghost view = { λ s. nodes_in s.lists.items };
}

/// Returns `count` empty lists.
fn empty_lists(alloc: Global, count: usize) -> Result<Vec<Vec<Node>>, AllocError>
    ensures { IfOk result (λ lists. length (nodes_in lists.items) ≡ count) }
{
    let mut lists = Vec::new(alloc);
    for _ in 0..count {
        lists.push(Vec::new(alloc))?;
    }
    Ok(lists)
}

/// Adds a node to the list of a state, if there is one.
fn put_at(lists: &mut Vec<Vec<Node>>, on: StateID, from: Node) -> Result<(), AllocError>
    ensures { OnOk result (AreTold from (on ∷ []) (nodes_in lists.old.items)
        (nodes_in lists.new.items)) }
{
    if on.as_usize() < lists.len() {
        lists[on.as_usize()].push(from)?;
    }
    Ok(())
}

/// Adds a node to the lists of these states.
fn put_at_all(lists: &mut Vec<Vec<Node>>, ons: &[StateID], from: Node) -> Result<(), AllocError>
    ensures { OnOk result (AreTold from ons.now (nodes_in lists.old.items)
        (nodes_in lists.new.items)) }
{
    for on in ons {
        put_at(lists, *on, from)?;
    }
    Ok(())
}

/// Adds a node to the lists of the states to which a state has epsilon transitions.
fn put_edges(lists: &mut Vec<Vec<Node>>, state: &State, from: Node) -> Result<(), AllocError>
    ensures { OnOk result (AreTold from (edges_of state.now) (nodes_in lists.old.items)
        (nodes_in lists.new.items)) }
{
    match state {
        State::Look(_, on) => put_at(lists, *on, from),
        State::Empty(on) => put_at(lists, *on, from),
        State::Capture(_, on) => put_at(lists, *on, from),
        State::BinaryUnion(first, second) => {
            put_at(lists, *first, from)?;
            put_at(lists, *second, from)
        }
        State::Union(alternates) => put_at_all(lists, alternates, from),
        State::Ranges(_, _) => Ok(()),
        State::Match(_) => Ok(()),
    }
}

impl Arrivals {
    /// Returns the epsilon transitions of these states.
    pub(crate) fn new(alloc: Global, states: &[State]) -> Result<Arrivals, AllocError>
        ensures { IfOk result (λ arrivals. TellEdges states.now (length states.now) arrivals) }
    {
        let mut lists = empty_lists(alloc, states.len())?;
        for number in 0..states.len() {
            let from = Node::first(StateID::new(number));
            put_edges(&mut lists, &states[number], from)?;
        }
        Ok(Arrivals { lists })
    }

    /// Returns the nodes with an epsilon transition to the first node of a state.
    pub(crate) fn at(&self, state: StateID) -> Option<&Vec<Node>>
        ensures { MatchOption result (slice_get self.now state ≡ None)
            (λ list. slice_get self.now state ≡ Some list.now.items) }
    {
        self.lists.get(state.as_usize())
    }
}
