//! The nodes of a program over bytes.

ghost use Rattle.std.specs.Prelude.{◌≡◌, ℕ};

use rx_util::StateID;
use std::marker::Model;

/// A state of a program and a state of its automaton, 0 if it has none. Contracts see this as a
/// pair of numbers.
#[derive(Clone, Copy, Debug, PartialEq, Eq, Hash)]
pub struct Node {
    state: StateID,
    within: usize,
}

impl Model for Node {
    ghost use Rattle.std.specs.Prelude.{ℕ};

    ghost Value = { ℕ × ℕ };

    ghost view = { λ node. (node.state, node.within) };

    ghost inverse = { λ pair. record { state = pair.0; within = pair.1 } };
}

impl Node {
    /// Returns the first node of a state.
    pub fn first(state: StateID) -> Node
        ensures { result ≡ (state, 0) }
    {
        Node { state, within: 0 }
    }

    /// Returns the node of a state and a state of its automaton.
    pub fn new(state: StateID, within: usize) -> Node
        ensures { result ≡ (state, within) }
    {
        Node { state, within }
    }

    /// Returns the state of the program.
    pub fn state(&self) -> StateID
        ensures { result ≡ self.now.0 }
    {
        self.state
    }

    /// Returns the state of its automaton.
    pub fn within(&self) -> usize
        ensures { result ≡ self.now.1 }
    {
        self.within
    }
}
